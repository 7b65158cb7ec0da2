//! Sorted lists of shared entries.
ghost use Rattle.std.specs.Prelude.{◌≡◌, ◌+◌, ◌<◌, ◌≤◌, ◌++◌, ◌∷◌, [], map, length, take, drop, T, IfOk, None, Some, option_copied};
ghost use Rattle.std.specs.Arc.{arc_value};
ghost use Rattle.core.specs.FinMap.Entries.{put, find, is_sorted, where_key};
ghost use Rattle.core.specs.Ordering.{is_gt};
ghost use Rattle.core.specs.declared.cmp.Ordering.TheVariants.{Less, Equal, Greater};
ghost use Rattle.cm_map.specs.Parts.{HeadIs, without_key, pointee, within};

use crate::key::Key;
use crate::places::{between, place};
use std::alloc::AllocError;
use std::cmp::Ordering;
use std::sync::Arc;

/// The entries that `key` would replace: those from the first number on, and before the second.
pub fn gap<K: Key, V: Drop>(xs: &[Arc<(K, V)>], key: &K) -> (usize, usize)
    requires { T (is_sorted K.cmp (map arc_value xs.now)) }
    ensures from_in { result.0 ≤ length xs.now }
    ensures to_in { result.1 ≤ length xs.now }
    ensures puts { (v : V) → put K.cmp key.now v (map arc_value xs.now)
        ≡ take result.0 (map arc_value xs.now) ++ (key.now, v) ∷ drop result.1 (map arc_value xs.now) }
    ensures removes { without_key K.cmp key.now (map arc_value xs.now)
        ≡ take result.0 (map arc_value xs.now) ++ drop result.1 (map arc_value xs.now) }
    ensures found { result.0 < result.1 → HeadIs (λ e. find K.cmp key.now (map arc_value xs.now)
        ≡ Some e.1) (drop result.0 (map arc_value xs.now)) }
    ensures absent { result.1 ≤ result.0 → find K.cmp key.now (map arc_value xs.now) ≡ None }
{
    if xs.is_empty() {
        return (0, 0);
    }
    let i = place::<K, (K, V)>(xs, key);
    let entry: &Arc<(K, V)> = &xs[i];
    match key.cmp(&entry.0) {
        Ordering::Less => (i, i),
        Ordering::Equal => (i, i + 1),
        Ordering::Greater => (i + 1, i + 1),
    }
}

/// The value at the key.
pub fn find_in<'a, K: Key, V: Drop>(xs: &'a [Arc<(K, V)>], key: &K) -> Option<&'a V>
    requires { T (is_sorted K.cmp (map arc_value xs.now)) }
    ensures { option_copied result ≡ find K.cmp key.now (map arc_value xs.now) }
{
    let (from, to) = gap(xs, key);
    if from < to {
        let entry: &'a Arc<(K, V)> = &xs[from];
        Some(&entry.1)
    } else {
        None
    }
}

/// The entries from `least` to `most`, at the end of `out`.
///
/// Only the entries of the range are looked at, and at most one on either side of them.
pub fn range_in<'a, K: Key, V: Drop>(
    out: &mut Vec<&'a (K, V)>,
    xs: &'a [Arc<(K, V)>],
    least: &K,
    most: &K,
) -> Result<(), AllocError>
    requires { T (is_sorted K.cmp (map arc_value xs.now)) }
    ensures { IfOk result (λ _. map pointee out.new.items
        ≡ map pointee out.old.items ++ where_key K.cmp (within K.cmp least.now most.now) (map arc_value xs.now)) }
{
    if xs.is_empty() {
        return Ok(());
    }
    let near: &'a [Arc<(K, V)>] = between::<K, (K, V)>(xs, least, most);
    push_within(out, near, least, most)?;
    Ok(())
}

fn push_within<'a, K: Key, V: Drop>(
    out: &mut Vec<&'a (K, V)>,
    xs: &'a [Arc<(K, V)>],
    least: &K,
    most: &K,
) -> Result<(), AllocError>
    ensures { IfOk result (λ _. map pointee out.new.items
        ≡ map pointee out.old.items ++ where_key K.cmp (within K.cmp least.now most.now) (map arc_value xs.now)) }
{
    for x in xs {
        let entry: &'a (K, V) = x;
        if !entry.0.cmp(least).is_lt() && !entry.0.cmp(most).is_gt() {
            out.push(entry)?;
        }
    }
    Ok(())
}
