//! The children of a folder.
ghost use Rattle.std.specs.Prelude.{◌≡◌, ◌++◌, map, IfOk, OnOk};
ghost use Rattle.std.specs.List.{filter_map};
ghost use Rattle.std.specs.Option.{option_to_list};
ghost use Rattle.cm_map.specs.Parts.{pointee};
ghost use Rattle.cmis_spec.specs.Access.{children_of, read_at};

use crate::read::read_at;
use cm_base::number::Oid;
use cm_base::object::Object;
use cm_base::text::Text;
use cm_state::state::State;
use std::alloc::{AllocError, Global};

// Adds the object of the number where the caller reads it.
fn add_read<'a>(
    all: &mut Vec<&'a Object>,
    state: &'a State,
    user: &Text,
    n: Oid,
) -> Result<(), AllocError>
    ensures { OnOk result (map pointee all.new.items
        ≡ map pointee all.old.items ++ option_to_list (read_at state.now user.now n)) }
{
    match read_at(state, user, n) {
        Some(x) => {
            all.push(x)?;
            Ok(())
        }
        None => Ok(()),
    }
}

fn read_among<'a>(
    alloc: Global,
    state: &'a State,
    user: &Text,
    numbers: &[Oid],
) -> Result<Vec<&'a Object>, AllocError>
    ensures { IfOk result (λ all. map pointee all.items ≡ filter_map (read_at state.now user.now) numbers.now) }
{
    let mut all = Vec::new(alloc);
    for n in numbers {
        add_read(&mut all, state, user, *n)?;
    }
    Ok(all)
}

/// The children of the folder that the caller reads, in the order of their numbers (CMIS 1.1, section 2.2.3.1). It visits this folder's
/// children alone.
pub fn children_of<'a>(
    alloc: Global,
    state: &'a State,
    user: &Text,
    folder: Oid,
) -> Result<Vec<&'a Object>, AllocError>
    ensures { IfOk result (λ all. map pointee all.items ≡ children_of state.now user.now folder) }
{
    let _step = state.step();
    let numbers = state.children(alloc, folder)?;
    let all = read_among(alloc, state, user, numbers.as_slice())?;
    Ok(all)
}
