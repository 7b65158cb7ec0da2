//! The relationships that a caller reads.
ghost use Rattle.std.specs.Prelude.{◌≡◌, ◌++◌, map, IfOk, OnOk};
ghost use Rattle.std.specs.List.{filter_map};
ghost use Rattle.std.specs.Option.{option_copied, option_to_list};
ghost use Rattle.cm_map.specs.Parts.{pointee};
ghost use Rattle.cm_relationships.specs.Found.{is_related, related_at, relationships_of};

use crate::ends::has_end;
use cm_base::number::Oid;
use cm_base::object::Object;
use cm_base::text::Text;
use cm_see::read::reads;
use cm_state::state::State;
use cm_types::definition::BaseType;
use relationship_parts::readings::Direction;
use std::alloc::{AllocError, Global};

fn is_related(state: &State, direction: Direction, n: Oid, x: &Object) -> bool
    ensures { result ≡ is_related state.now direction n x.now }
{
    state.is_a(BaseType::Relationship, x) && has_end(direction, n, x)
}

// The object of number m, where it is such a relationship and the caller reads it.
fn related_at<'a>(
    state: &'a State,
    user: &Text,
    direction: Direction,
    n: Oid,
    m: Oid,
) -> Option<&'a Object>
    ensures { option_copied result ≡ related_at state.now user.now direction n m }
{
    let x = state.object(m)?;
    if is_related(state, direction, n, x) && reads(state, user, x) {
        Some(x)
    } else {
        None
    }
}

// Adds the object of number m, where it is such a relationship and the caller reads it.
fn push_related<'a>(
    all: &mut Vec<&'a Object>,
    state: &'a State,
    user: &Text,
    direction: Direction,
    n: Oid,
    m: Oid,
) -> Result<(), AllocError>
    ensures { OnOk result (map pointee all.new.items ≡ map pointee all.old.items
        ++ option_to_list (related_at state.now user.now direction n m)) }
{
    match related_at(state, user, direction, n, m) {
        Some(x) => {
            all.push(x)?;
            Ok(())
        }
        None => Ok(()),
    }
}

fn related<'a>(
    alloc: Global,
    state: &'a State,
    user: &Text,
    direction: Direction,
    n: Oid,
    numbers: &[Oid],
) -> Result<Vec<&'a Object>, AllocError>
    ensures { IfOk result (λ all. map pointee all.items
        ≡ filter_map (related_at state.now user.now direction n) numbers.now) }
{
    let mut all = Vec::new(alloc);
    for m in numbers {
        push_related(&mut all, state, user, direction, n, *m)?;
    }
    Ok(all)
}

/// The relationships that the caller reads, at whose ends the object of this number stands as the direction asks, in the order of their
/// numbers (CMIS 1.1, section 2.2.8.1). It visits what names the object as an end alone.
pub fn relationships_of<'a>(
    alloc: Global,
    state: &'a State,
    user: &Text,
    direction: Direction,
    n: Oid,
) -> Result<Vec<&'a Object>, AllocError>
    ensures { IfOk result (λ all. map pointee all.items
        ≡ relationships_of state.now user.now direction n) }
{
    let _step = state.step();
    let numbers = state.tied(alloc, n)?;
    let all = related(alloc, state, user, direction, n, numbers.as_slice())?;
    Ok(all)
}
