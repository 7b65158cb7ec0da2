//! What is told of the links that were served.
use cm_base::items::Items;
use desk_lock::Store;
use desk_model::{Machine, Snapshot};
use talk::End;

/// A link that was served.
#[derive(Drop)]
pub struct Ended<L> {
    /// Its place in the order in which the host gave its links, from 0.
    pub place: u64,
    /// The number of its session.
    pub number: u32,
    /// How long the journal was that its session had seen at its start.
    pub before: u64,
    /// How long it was at its end.
    pub after: u64,
    pub link: L,
    /// How its session ended.
    pub outcome: End,
}

/// Why no more links were taken.
#[derive(Clone, Copy, Debug, PartialEq, Eq)]
pub enum HostEnd {
    /// The host had none to give.
    Empty,
    /// The host failed, and has counted it.
    Fault,
    /// 1,048,576 were taken.
    Many,
    /// Memory was wanted.
    Memory,
}

/// What stands once all sessions are over: the last version, what is left of the keeper, the links, and why no more were taken.
#[derive(Drop)]
pub struct Closing<M: Machine, L, K> {
    pub last: Snapshot<M>,
    pub store: Store<K>,
    pub ended: Items<Ended<L>>,
    pub end: HostEnd,
}
