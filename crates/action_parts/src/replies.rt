//! What replies hold of the actions on an object (CMIS 1.1, sections 2.2.4.7 and 5.2.11).
use crate::action::Action;
use cm_base::items::Items;

/// An action, and whether the caller may do it.
#[derive(Clone, Copy, Debug, PartialEq, Eq)]
pub struct ActionFlag {
    pub action: Action,
    pub is_allowed: bool,
}

/// Each of the thirty actions once, in byte order of their names.
pub type AllowableActions = Items<ActionFlag>;

/// Which actions the caller may do on an object.
#[derive(Drop)]
pub struct ActionsReply {
    pub actions: AllowableActions,
}
