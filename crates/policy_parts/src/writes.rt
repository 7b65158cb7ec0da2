//! The arguments of writes on applied policies, one record a call (CMIS 1.1, section 2.2.9).
use call_parts::place::Place;
use cm_base::text::Text;

/// Applies the policy of this id to the addressed object (section 2.2.9.1).
#[derive(Drop)]
pub struct ApplyPolicy {
    pub place: Place,
    pub policy: Text,
    pub succinct: bool,
}

/// Takes the policy of this id off the addressed object (section 2.2.9.2).
#[derive(Drop)]
pub struct RemovePolicy {
    pub place: Place,
    pub policy: Text,
}
