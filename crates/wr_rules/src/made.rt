//! The reply that shows what a write made or changed.
ghost use Rattle.std.specs.Prelude.{◌≡◌, Some, IfOk, is_some, true, false};
ghost use Rattle.cm_base.specs.declared.object.Object.{Object};
ghost use Rattle.call_parts.specs.declared.readings.PropertyFilter.TheVariants as filters;
ghost use Rattle.cm_see.specs.Shown.{shown_object};
ghost use Rattle.cmis_spec.specs.Repository.{object_at};

use call_parts::readings::PropertyFilter;
use call_parts::replies::ObjectReply;
use cm_base::number::Oid;
use cm_base::text::Text;
use cm_see::shown::shown_object;
use cm_state::state::State;
use std::alloc::{AllocError, Global};

// The reply that shows the object of this number, with this status.
fn acknowledged(
    alloc: Global,
    after: &State,
    user: &Text,
    succinct: bool,
    number: Oid,
    created: bool,
) -> Result<ObjectReply, AllocError>
    requires there { is_some (object_at after.now number) ≡ true }
    ensures { IfOk result (λ a. (x : Object) → object_at after.now number ≡ Some x → a ≡ record {
      object = shown_object after.now user.now filters.All succinct x;
      created = created;
    }) }
{
    let x = after.object(number).unwrap();
    let object = shown_object(alloc, after, user, &PropertyFilter::All, succinct, x)?;
    Ok(ObjectReply { object, created })
}

/// The state, with the reply that shows the object of this number, which was just made in it.
pub fn with_reply(
    alloc: Global,
    made: State,
    user: &Text,
    succinct: bool,
    number: Oid,
) -> Result<(State, ObjectReply), AllocError>
    requires there { is_some (object_at made number) ≡ true }
    ensures same { IfOk result (λ a. a.0 ≡ made) }
    ensures shown { IfOk result (λ a. (x : Object) → object_at made number ≡ Some x → a.1 ≡ record {
      object = shown_object made user.now filters.All succinct x;
      created = true;
    }) }
{
    let reply = acknowledged(alloc, &made, user, succinct, number, true)?;
    Ok((made, reply))
}

/// The state, with the reply that shows the object of this number, which was there before.
pub fn with_changed(
    alloc: Global,
    changed: State,
    user: &Text,
    succinct: bool,
    number: Oid,
) -> Result<(State, ObjectReply), AllocError>
    requires there { is_some (object_at changed number) ≡ true }
    ensures same { IfOk result (λ a. a.0 ≡ changed) }
    ensures shown { IfOk result (λ a. (x : Object) → object_at changed number ≡ Some x → a.1 ≡ record {
      object = shown_object changed user.now filters.All succinct x;
      created = false;
    }) }
{
    let reply = acknowledged(alloc, &changed, user, succinct, number, false)?;
    Ok((changed, reply))
}
