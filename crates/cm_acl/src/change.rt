//! How an access control list changes (CMIS 1.1, section 2.2.10.2).
ghost use Rattle.std.specs.Prelude.{◌≡◌, ℕ, ◌||◌, List, [], map, fold, IfOk};
ghost use Rattle.core.specs.Ordering.{eq_by_cmp};
ghost use Rattle.cm_map.specs.Sets.{IsRising, has_key, with_key};
ghost use Rattle.cmis_spec.specs.Well.{Apart, ComesBefore};
ghost use Rattle.cm_acl.specs.Acl.{changed_aces};
ghost use Rattle.cm_acl.specs.Keys.{ace_key, ace_of_key, key_order, kept_with};

use cm_base::access::{Ace, Aces, Level};
use cm_base::copies::Copies;
use cm_base::items::Items;
use cm_base::text::Text;
use cm_map::set::Set;
use std::alloc::{AllocError, Global};

fn key_of(alloc: Global, ace: &Ace) -> Result<(Text, Level), AllocError>
    ensures { IfOk result (λ k. k ≡ ace_key ace.now) }
{
    let principal = ace.principal.copied(alloc)?;
    Ok((principal, ace.level))
}

// The set with all these entries.
fn with_all(
    alloc: Global,
    start: Set<(Text, Level)>,
    aces: &[Ace],
) -> Result<Set<(Text, Level)>, AllocError>
    ensures keys { IfOk result (λ s. s ≡ fold (with_key key_order) start (map ace_key aces.now)) }
    ensures has { IfOk result (λ s. (q : List ℕ × Level) → has_key key_order q s
        ≡ fold (λ b k. eq_by_cmp key_order q k || b) (has_key key_order q start) (map ace_key aces.now)) }
{
    let mut set = start;
    for ace in aces {
        let key = key_of(alloc, ace)?;
        set = set.with(alloc, key)?;
    }
    Ok(set)
}

// The set with an entry that isn't removed.
fn with_kept(
    alloc: Global,
    set: Set<(Text, Level)>,
    ace: &Ace,
    removed: &Set<(Text, Level)>,
) -> Result<Set<(Text, Level)>, AllocError>
    ensures { IfOk result (λ s. s ≡ kept_with removed.now set ace.now) }
{
    let key = key_of(alloc, ace)?;
    if removed.has(&key) {
        return Ok(set);
    }
    let more = set.with(alloc, key)?;
    Ok(more)
}

// The set of the entries that aren't removed.
fn all_but(
    alloc: Global,
    aces: &[Ace],
    removed: &Set<(Text, Level)>,
) -> Result<Set<(Text, Level)>, AllocError>
    ensures { IfOk result (λ s. s ≡ fold (kept_with removed.now) [] aces.now) }
{
    let mut set = Set::empty(alloc);
    for ace in aces {
        set = with_kept(alloc, set, ace, removed)?;
    }
    Ok(set)
}

// The entries of a set, as a list in order.
fn list_of(alloc: Global, set: &Set<(Text, Level)>) -> Result<Aces, AllocError>
    ensures list { IfOk result (λ aces. aces ≡ map ace_of_key set.now) }
    ensures rising { IsRising key_order set.now }
{
    let mut aces = Vec::new(alloc);
    for entry in set.iter() {
        let key = &entry.0;
        let principal = key.0.copied(alloc)?;
        aces.push(Ace {
            principal,
            level: key.1,
        })?;
    }
    Ok(Items::from_vec(aces))
}

/// The list after a change: the removals are done first, and one of an entry that isn't there does nothing; then the additions.
///
/// Entries stand in the byte order of their principals, then read, write, all, and none stands twice.
pub fn apply(alloc: Global, list: &Aces, remove: &Aces, add: &Aces) -> Result<Aces, AllocError>
    requires { Apart ComesBefore list.now }
    ensures changed { IfOk result (λ aces. aces ≡ changed_aces list.now remove.now add.now) }
    ensures ordered { IfOk result (λ aces. Apart ComesBefore aces) }
{
    let none = Set::empty(alloc);
    let removed = with_all(alloc, none, remove.as_slice())?;
    let kept = all_but(alloc, list.as_slice(), &removed)?;
    let all = with_all(alloc, kept, add.as_slice())?;
    let aces = list_of(alloc, &all)?;
    Ok(aces)
}
