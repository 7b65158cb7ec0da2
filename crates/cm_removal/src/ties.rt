//! What goes with objects: the relationships that they end (CMIS 1.1, section 2.1.6).
ghost use Rattle.std.specs.Prelude.{◌≡◌, [], ◌∷◌, ◌++◌, IfOk, filter};
ghost use Rattle.std.specs.List.{flat_map};
ghost use Rattle.cmis_spec.specs.Removal.{going_with, going};
ghost use Rattle.cm_removal.specs.Steps.{is_tie};

use crate::gone::Gone;
use cm_base::items::Items;
use cm_base::number::{Oid, Oids};
use cm_state::state::State;
use cm_types::definition::BaseType;
use std::alloc::{AllocError, Global};

fn is_tie(state: &State, n: Oid) -> bool
    ensures { result ≡ is_tie state.now n }
{
    match state.object(n) {
        Some(x) => state.is_a(BaseType::Relationship, x),
        None => false,
    }
}

// The relationships among the numbers.
fn ties(alloc: Global, state: &State, numbers: &[Oid]) -> Result<Oids, AllocError>
    ensures { IfOk result (λ all. all ≡ filter (is_tie state.now) numbers.now) }
{
    let mut all = Items::new(alloc);
    for n in numbers {
        if is_tie(state, *n) {
            all.push(*n)?;
        }
    }
    Ok(all)
}

// The relationships that end at the object.
fn ties_of(alloc: Global, state: &State, n: Oid) -> Result<Oids, AllocError>
    ensures { IfOk result (λ all. n ∷ all ≡ going_with state.now n) }
{
    let _well = state.step();
    let tied = state.tied(alloc, n)?;
    let all = ties(alloc, state, tied.as_slice())?;
    Ok(all)
}

fn joined(all: Oids, more: &[Oid]) -> Result<Oids, AllocError>
    ensures { IfOk result (λ both. both ≡ all ++ more.now) }
{
    let mut both = all;
    for n in more {
        both.push(*n)?;
    }
    Ok(both)
}

fn pushed(all: Oids, n: Oid) -> Result<Oids, AllocError>
    ensures { IfOk result (λ more. more ≡ all ++ n ∷ []) }
{
    let mut more = all;
    more.push(n)?;
    Ok(more)
}

// The numbers with that of the object, and those of what goes with it.
fn with_one(alloc: Global, state: &State, all: Oids, n: Oid) -> Result<Oids, AllocError>
    ensures { IfOk result (λ more. more ≡ all ++ going_with state.now n) }
{
    let ties = ties_of(alloc, state, n)?;
    let own = pushed(all, n)?;
    let more = joined(own, ties.as_slice())?;
    Ok(more)
}

fn with_all(alloc: Global, state: &State, numbers: &[Oid]) -> Result<Oids, AllocError>
    ensures { IfOk result (λ all. all ≡ flat_map (going_with state.now) numbers.now) }
{
    let mut all = Items::new(alloc);
    for n in numbers {
        all = with_one(alloc, state, all, *n)?;
    }
    Ok(all)
}

/// All that goes where these objects go.
pub(crate) fn going(alloc: Global, state: &State, numbers: &[Oid]) -> Result<Gone, AllocError>
    ensures { IfOk result (λ all. all ≡ going state.now numbers.now) }
{
    let all = with_all(alloc, state, numbers)?;
    Gone::of(alloc, all.as_slice())
}
