//! The arguments of the reading of the change log (CMIS 1.1, section 2.2.6.2).

/// The events that the caller sees, from a token on, a page of them.
#[derive(Clone, Copy, Debug, PartialEq, Eq)]
pub struct ReadChanges {
    /// The number of the first event that is asked for; 0 where all are.
    pub token: u64,
    /// How many at most; a greater number than 1000 counts as 1000.
    pub max_items: u64,
    /// Whether the ids of the objects are shown as values alone.
    pub succinct: bool,
}
