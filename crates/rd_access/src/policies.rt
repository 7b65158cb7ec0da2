//! The policies that are applied to an object (CMIS 1.1, section 2.2.9.3).
ghost use Rattle.std.specs.Prelude.{◌≡◌, IfOk, map};
ghost use Rattle.cm_map.specs.Parts.{pointee};
ghost use Rattle.cm_base.specs.Judged.{Meets};
ghost use Rattle.call_parts.specs.declared.readings.PropertyFilter.TheVariants as filters;
ghost use Rattle.cmis_spec.specs.Access.{policies_of};
ghost use Rattle.rd_lists.specs.Listed.{objects_reply};
ghost use Rattle.rd_access.specs.ReadPolicies.{answer_policies};

use call_parts::readings::{PropertyFilter, ReadPolicies};
use call_parts::replies::ObjectsReply;
use cm_base::cause::Cause;
use cm_base::fail::Fail;
use cm_base::number::Oid;
use cm_base::object::Object;
use cm_base::text::Text;
use cm_see::address::addressed;
use cm_state::state::State;
use rd_lists::listed::objects_reply;
use rd_lists::number::{read_among, rising};
use std::alloc::{AllocError, Global};

// The policies of the object that the caller reads, in the order of their numbers.
fn policies_of<'a>(
    alloc: Global,
    state: &'a State,
    user: &Text,
    n: Oid,
) -> Result<Vec<&'a Object>, AllocError>
    ensures { IfOk result (λ all. map pointee all.items ≡ policies_of state.now user.now n) }
{
    let _step = state.step();
    let numbers = state.policies_on(alloc, n)?;
    let rising = rising(alloc, numbers.as_slice())?;
    let all = read_among(alloc, state, user, rising.as_slice())?;
    Ok(all)
}

fn policies_reply(
    alloc: Global,
    state: &State,
    user: &Text,
    succinct: bool,
    x: &Object,
) -> Result<ObjectsReply, Fail>
    ensures { Meets (λ y. y) result
        (objects_reply state.now user.now filters.All succinct (policies_of state.now user.now x.now.id)) }
{
    let filter = PropertyFilter::All;
    let policies = policies_of(alloc, state, user, x.id)?;
    objects_reply(alloc, state, user, &filter, succinct, &policies)
}

/// The policies that are applied to the object, those that the caller reads, in the order of their numbers and each with all its
/// properties. A version and a working copy have policies of their own. What the caller doesn't read is not found; more than 5000
/// are too many.
pub fn policies(
    alloc: Global,
    state: &State,
    user: &Text,
    q: &ReadPolicies,
) -> Result<ObjectsReply, Fail>
    ensures { Meets (λ y. y) result (answer_policies state.now user.now q.now) }
{
    match addressed(state, user, &q.place) {
        Some(x) => policies_reply(alloc, state, user, q.succinct, x),
        None => Err(Fail::Refused(Cause::NotFound)),
    }
}
