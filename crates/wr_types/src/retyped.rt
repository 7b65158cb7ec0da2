//! What the writes on types have in common.
ghost use Rattle.std.specs.Prelude.{◌≡◌, ◌+◌, ◌<◌, ◌^◌, All, Some, IfOk, is_some, true};
ghost use Rattle.cm_types.specs.declared.definition.TypeDef.{TypeDef};
ghost use Rattle.cm_types.specs.declared.definition.BaseType.TheVariants as bases;
ghost use Rattle.cm_types.specs.Types.{is_of_base, type_in};
ghost use Rattle.cmis_spec.specs.Repository.{is_a};
ghost use Rattle.cmis_spec.specs.Well.{IsWellFormed};
ghost use Rattle.wr_types.specs.Retyped.{may_not_type, retyped};

use cm_base::copies::Copies;
use cm_base::text::Text;
use cm_draft::draft::Draft;
use cm_see::level::is_administrator;
use cm_state::state::State;
use cm_type_list::types::Types;
use std::alloc::{AllocError, Global};
use type_parts::replies::TypeReply;

/// Whether the caller may not change types. Takes no memory.
pub(crate) fn may_not_type(state: &State, user: &Text) -> bool
    ensures { result ≡ may_not_type state.now user.now }
{
    !is_administrator(state, user)
}

/// The state with other types, by which the same objects are folders, one step further.
pub(crate) fn retyped(
    alloc: Global,
    state: &State,
    types: Types,
    cost: u64,
) -> Result<State, AllocError>
    requires folders { All (λ x. is_of_base types bases.Folder x.kind
        ≡ is_a state.now bases.Folder x) state.now.objects }
    requires step { state.now.step + 1 < 2 ^ 64 }
    requires cost { state.now.cost + cost < 2 ^ 64 }
    requires well { IsWellFormed (retyped state.now types cost) }
    ensures { IfOk result (λ s. s ≡ retyped state.now types cost) }
{
    let begun = Draft::of(alloc, state)?;
    let paid = begun.stepped(cost);
    let made = paid.with_types(alloc, types)?;
    Ok(made.seal())
}

fn type_reply(
    alloc: Global,
    made: &State,
    id: &Text,
    created: bool,
) -> Result<TypeReply, AllocError>
    requires there { is_some (type_in made.now.types id.now) ≡ true }
    ensures { IfOk result (λ a. (t : TypeDef) → type_in made.now.types id.now ≡ Some t
        → a ≡ record { definition = t; created = created }) }
{
    let def = made.type_named(id).unwrap();
    let definition = def.copied(alloc)?;
    Ok(TypeReply {
        definition,
        created,
    })
}

/// The state, with the type that has the id.
pub(crate) fn with_reply(
    alloc: Global,
    made: State,
    id: &Text,
    created: bool,
) -> Result<(State, TypeReply), AllocError>
    requires there { is_some (type_in made.types id.now) ≡ true }
    ensures same { IfOk result (λ a. a.0 ≡ made) }
    ensures shown { IfOk result (λ a. (t : TypeDef) → type_in made.types id.now ≡ Some t
        → a.1 ≡ record { definition = t; created = created }) }
{
    let reply = type_reply(alloc, &made, id, created)?;
    Ok((made, reply))
}
