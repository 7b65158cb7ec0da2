//! The policies that a call names.
ghost use Rattle.std.specs.Prelude.{◌≡◌, is_none, IfOk, map, [], ◌++◌, option_map, false};
ghost use Rattle.std.specs.List.{list_any};
ghost use Rattle.std.specs.Option.{option_to_list};
ghost use Rattle.cm_base.specs.Judged.{first_cause};
ghost use Rattle.cm_types.specs.declared.definition.BaseType.TheVariants as bases;
ghost use Rattle.cmis_spec.specs.Repository.{is_a};
ghost use Rattle.cmis_spec.specs.Access.{read_named};
ghost use Rattle.wr_rules.specs.Rules.{unread_cause, read_all, has_other_policy, policies_in};
ghost use Rattle.wr_rules.specs.Named.{is_other_policy};

use crate::firsts::distinct;
use cm_base::cause::Cause;
use cm_base::items::Items;
use cm_base::number::{Oid, Oids};
use cm_base::text::Text;
use cm_see::read::read_named;
use cm_state::state::State;
use cm_types::definition::BaseType;
use std::alloc::{AllocError, Global};

fn has_unread(state: &State, user: &Text, ids: &[Text]) -> bool
    ensures { result ≡ list_any (λ id. is_none (read_named state.now user.now id)) ids.now }
{
    ids.iter().any(|id| read_named(state, user, id).is_none())
}

/// Whether the caller reads the object of each id. Takes no memory.
pub fn judge_read(state: &State, user: &Text, ids: &[Text]) -> Result<(), Cause>
    ensures { result ≡ first_cause (unread_cause state.now user.now) ids.now }
{
    if has_unread(state, user, ids) {
        return Err(Cause::NotFound);
    }
    Ok(())
}

fn is_other_policy(state: &State, user: &Text, id: &Text) -> bool
    ensures { result ≡ is_other_policy state.now user.now id.now }
{
    match read_named(state, user, id) {
        Some(x) => !state.is_a(BaseType::Policy, x),
        None => false,
    }
}

fn has_one_beside(state: &State, user: &Text, ids: &[Text]) -> bool
    ensures { result ≡ list_any (is_other_policy state.now user.now) ids.now }
{
    ids.iter().any(|id| is_other_policy(state, user, id))
}

/// Whether one of the objects that the caller reads is no policy. Takes no memory.
pub fn has_other_policy(state: &State, user: &Text, ids: &[Text]) -> bool
    ensures { result ≡ has_other_policy state.now user.now ids.now }
{
    has_one_beside(state, user, ids)
}

fn number_of(state: &State, user: &Text, id: &Text) -> Option<Oid>
    ensures { result ≡ option_map (λ x. x.id) (read_named state.now user.now id.now) }
{
    match read_named(state, user, id) {
        Some(x) => Some(x.id),
        None => None,
    }
}

fn with_number(numbers: Oids, number: Option<Oid>) -> Result<Oids, AllocError>
    ensures { IfOk result (λ ns. ns ≡ numbers ++ option_to_list number) }
{
    let mut numbers = numbers;
    if let Some(n) = number {
        numbers.push(n)?;
    }
    Ok(numbers)
}

fn numbers_in(alloc: Global, state: &State, user: &Text, ids: &[Text]) -> Result<Oids, AllocError>
    ensures { IfOk result (λ ns. ns ≡ map (λ x. x.id) (read_all state.now user.now ids.now)) }
{
    let mut numbers = Items::new(alloc);
    for id in ids {
        numbers = with_number(numbers, number_of(state, user, id))?;
    }
    Ok(numbers)
}

/// The numbers of the policies to apply, each once, in the order in which they are named.
pub fn policies_in(
    alloc: Global,
    state: &State,
    user: &Text,
    ids: &[Text],
) -> Result<Oids, AllocError>
    ensures { IfOk result (λ ns. ns ≡ policies_in state.now user.now ids.now) }
{
    let ids = distinct(alloc, ids)?;
    let numbers = numbers_in(alloc, state, user, ids.as_slice())?;
    Ok(numbers)
}
