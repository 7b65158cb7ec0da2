//! What the reply on the change log holds (CMIS 1.1, section 5.2.11).
use cm_base::items::Items;
use cm_base::log::ChangeKind;
use cm_base::number::{Moment, Oid};

/// An event: the object, what happened to it, and when.
#[derive(Clone, Copy, Debug, PartialEq, Eq)]
pub struct ShownEvent {
    pub object: Oid,
    pub kind: ChangeKind,
    pub moment: Moment,
}

/// Events in the order of the log.
pub type ShownEvents = Items<ShownEvent>;

/// A page of events: whether more come after them, how many there are in all, and from where on to ask for the next ones.
#[derive(Drop)]
pub struct ChangesReply {
    pub events: ShownEvents,
    pub has_more_items: bool,
    pub num_items: u64,
    /// The number of the page's last event; where it has none, that of the question.
    pub token: u64,
    /// Whether the ids of the objects are shown as values alone.
    pub succinct: bool,
}
