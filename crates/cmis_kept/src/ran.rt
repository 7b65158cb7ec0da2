//! What a run over a journal in a file answers.
use cm_base::items::Items;
use desk_model::{Machine, Snapshot};
use desk_serve::{Ended, HostEnd};
use journal_keeper::Lost;

/// What stands once all connections are served: the last version, the links, why no more were taken, and, where entries could not be kept, why not.
#[derive(Drop)]
pub struct Over<M: Machine, L> {
    pub last: Snapshot<M>,
    pub ended: Items<Ended<L>>,
    pub end: HostEnd,
    pub unkept: Option<Option<Lost>>,
}

/// What a run answers: its status; the disk, unless memory was wanted where it was served; and what stands once all connections are served, if they were.
#[derive(Drop)]
pub struct Ran<M: Machine, L, K> {
    pub status: u8,
    pub disk: Option<K>,
    pub over: Option<Over<M, L>>,
}
