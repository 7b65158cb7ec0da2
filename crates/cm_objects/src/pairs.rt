//! The pairs of one object.
ghost use Rattle.std.specs.Prelude.{◌≡◌, ◌||◌, ◌&&◌, not, IfOk};
ghost use Rattle.cm_objects.specs.Pairs.{has_pair};
ghost use Rattle.cm_objects.specs.Indexed.{is_pair_of};

use crate::index::Index;
use crate::index_key::IndexKey;
use crate::keys::Keys;
use cm_base::copies::Copies;
use cm_base::number::Oid;
use std::alloc::{AllocError, Global};

/// The index with the number under each of the keys.
pub(crate) fn with_pairs(
    alloc: Global,
    index: Index,
    keys: &Keys,
    n: Oid,
) -> Result<Index, AllocError>
    ensures { IfOk result (λ s. (p : IndexKey × Oid) → has_pair p s ≡ (has_pair p index || is_pair_of n keys.now p)) }
{
    let mut all = index;
    for key in keys.as_slice() {
        let key: &IndexKey = key;
        all = all.with_pair(alloc, key.copied(alloc)?, n)?;
    }
    Ok(all)
}

/// The index without the number under any of the keys.
pub(crate) fn without_pairs(
    alloc: Global,
    index: Index,
    keys: &Keys,
    n: Oid,
) -> Result<Index, AllocError>
    ensures { IfOk result (λ s. (p : IndexKey × Oid) → has_pair p s
        ≡ (has_pair p index && not (is_pair_of n keys.now p))) }
{
    let mut all = index;
    for key in keys.as_slice() {
        let key: &IndexKey = key;
        all = all.without_pair(alloc, key.copied(alloc)?, n)?;
    }
    Ok(all)
}
