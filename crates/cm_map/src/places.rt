//! Where a key falls in a row whose members begin with rising keys.
ghost use Rattle.std.specs.Prelude.{◌≡◌, ◌+◌, ◌<◌, ◌≤◌, false, map, length, drop, IfSome, IsSome};
ghost use Rattle.std.specs.Arc.{arc_value};
ghost use Rattle.core.specs.List.{AllByRecursion};
ghost use Rattle.core.specs.Ordering.{is_gt};
ghost use Rattle.core.specs.declared.cmp.Ordering.TheVariants.{Greater};
ghost use Rattle.cm_map.specs.Parts.{HeadIs, IsBetween};
ghost use Rattle.cm_map.specs.Sizes.{full};

use crate::key::{Headed, Key};
use crate::sizes::{FULL, HALF};
use std::sync::Arc;

/// The last member whose first key isn't above `key`, or else the first.
///
/// The search halves the row, so it compares about as many keys as the length has binary digits.
pub fn place<K: Key, B: Headed<K>>(xs: &[Arc<B>], key: &K) -> usize
    requires some { 0 < length xs.now }
    requires heads { AllByRecursion (λ b. IsSome (B.first b)) (map arc_value xs.now) }
    ensures in_range { result < length xs.now }
    ensures low { 0 < result → HeadIs (λ b. IfSome (B.first b) (λ x. is_gt (K.cmp x key.now) ≡ false))
        (drop result (map arc_value xs.now)) }
    ensures high { HeadIs (λ b. IfSome (B.first b) (λ x. K.cmp x key.now ≡ Greater))
        (drop (result + 1) (map arc_value xs.now)) }
{
    let mut lo = 0;
    let mut hi = xs.len();
    while hi - lo > 1 {
        let mid = lo + (hi - lo) / 2;
        let member: &Arc<B> = &xs[mid];
        if member.head().cmp(key).is_gt() {
            hi = mid;
        } else {
            lo = mid;
        }
    }
    lo
}

/// Where a row of `FULL` + 1 members is split that the key made too long: behind all others where the key falls there, so that what
/// grows at its end fills its blocks, and else in the middle.
pub fn cut<K: Key, B: Headed<K>>(xs: &[Arc<B>], key: &K) -> usize
    requires heads { AllByRecursion (λ b. IsSome (B.first b)) (map arc_value xs.now) }
    ensures least { 1 ≤ result }
    ensures most { result ≤ full }
{
    if xs.is_empty() {
        return HALF;
    }
    let last: &Arc<B> = &xs[xs.len() - 1];
    if last.head().cmp(key).is_lt() {
        FULL
    } else {
        HALF
    }
}

/// The members that can hold keys from `least` to `most`: none before these and none past them does.
pub fn between<'a, K: Key, B: Headed<K>>(xs: &'a [Arc<B>], least: &K, most: &K) -> &'a [Arc<B>]
    requires some { 0 < length xs.now }
    requires heads { AllByRecursion (λ b. IsSome (B.first b)) (map arc_value xs.now) }
    ensures { IsBetween B.first K.cmp least.now most.now (map arc_value xs.now) (map arc_value result.now) }
{
    let from = place::<K, B>(xs, least);
    let rest: &'a [Arc<B>] = &xs[from..];
    let last = place::<K, B>(rest, most);
    &rest[..last + 1]
}
