//! What threads may share.
use crate::machine::Machine;
use crate::snapshot::Snapshot;
use crate::version::Version;

// Asks that threads may share a type.
fn is_shared<T: Send + Sync>() {}

/// Threads may share the versions and the snapshots of a machine whose states and calls they may share.
pub fn versions_are_shared<M: Machine>()
where
    M::State: Send + Sync,
    M::Call: Send + Sync,
{
    is_shared::<Version<M>>();
    is_shared::<Snapshot<M>>();
}
