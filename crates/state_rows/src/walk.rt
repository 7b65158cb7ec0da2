//! Objects found by their types.
ghost use Rattle.std.specs.Prelude.{◌≡◌, ◌++◌, IfOk, OnOk};
ghost use Rattle.std.specs.List.{flat_map};
ghost use Rattle.cm_state.specs.Looks.{numbers_of_type};
ghost use Rattle.row_store.specs.Rows.{of_types};

use crate::rising::rising;
use cm_base::items::Items;
use cm_base::number::Oids;
use cm_base::text::{Text, Texts};
use cm_state::state::State;
use std::alloc::{AllocError, Global};

fn push_all(all: &mut Oids, numbers: &Oids) -> Result<(), AllocError>
    ensures { OnOk result (all.new ≡ all.old ++ numbers.now) }
{
    for number in numbers.as_slice() {
        all.push(*number)?;
    }
    Ok(())
}

// Adds the numbers of the objects of the type.
fn push_typed(alloc: Global, all: &mut Oids, state: &State, kind: &Text) -> Result<(), AllocError>
    ensures { OnOk result (all.new ≡ all.old ++ numbers_of_type state.now kind.now) }
{
    let numbers = state.of_type(alloc, kind)?;
    push_all(all, &numbers)
}

// The numbers of the objects of each type, one type after another.
fn gathered(alloc: Global, state: &State, kinds: &[Text]) -> Result<Oids, AllocError>
    ensures { IfOk result (λ all. all ≡ flat_map (numbers_of_type state.now) kinds.now) }
{
    let mut all = Items::new(alloc);
    for kind in kinds {
        push_typed(alloc, &mut all, state, kind)?;
    }
    Ok(all)
}

/// The numbers of the objects of the types, rising, each once. It looks at these, and at a bounded number of others for each type.
pub(crate) fn of_types(alloc: Global, state: &State, kinds: &Texts) -> Result<Oids, AllocError>
    ensures { IfOk result (λ all. all ≡ of_types state.now kinds.now) }
{
    let _step = state.step();
    let found = gathered(alloc, state, kinds.as_slice())?;
    let all = rising(alloc, found)?;
    Ok(all)
}
