//! Whether an object is of a type.
ghost use Rattle.std.specs.Prelude.{◌≡◌, IfOk};
ghost use Rattle.std.specs.List.{list_any};
ghost use Rattle.cmis_spec.specs.Repository.{is_of_type};

use cm_base::text::Text;
use cm_state::state::State;
use std::alloc::{AllocError, Global};

/// Whether an object is of the type, or has it as a secondary type. It looks at the objects of the type alone.
pub(crate) fn is_used(alloc: Global, state: &State, id: &Text) -> Result<bool, AllocError>
    ensures { IfOk result (λ used. used ≡ list_any (is_of_type id.now) state.now.objects) }
{
    let numbers = state.of_type(alloc, id)?;
    Ok(!numbers.as_slice().is_empty())
}
