//! The arguments of writes on access control lists, one record a call (CMIS 1.1, section 2.2.10).
use call_parts::place::Place;
use call_parts::writes::AceRequests;

/// Which objects a change of a list is to reach (section 2.2.10.1.1).
#[derive(Clone, Copy, Debug, PartialEq, Eq)]
pub enum Propagation {
    /// As the repository has it, which is the object alone.
    RepositoryDetermined,
    /// The object alone.
    ObjectOnly,
    /// Other objects too, which is not offered.
    Propagate,
}

/// Changes the access control list of the addressed object, and of a document that of its series (section 2.2.10.1).
#[derive(Drop)]
pub struct ApplyAcl {
    pub place: Place,
    /// Entries taken from the list, and entries added to it, in this order.
    pub remove: AceRequests,
    pub add: AceRequests,
    pub propagation: Propagation,
}
