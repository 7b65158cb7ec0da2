//! The ids of the policies of an object (CMIS 1.1, section 2.2.1.2.3).
ghost use Rattle.std.specs.Prelude.{◌≡◌, IfOk, decimal, map};
ghost use Rattle.cm_map.specs.Parts.{pointee};
ghost use Rattle.cmis_spec.specs.Access.{policies_of};
ghost use Rattle.cm_include.specs.Included.{policy_ids};

use cm_base::items::Items;
use cm_base::number::Oid;
use cm_base::object::Object;
use cm_base::text::{Text, Texts};
use cm_state::state::State;
use rd_lists::number::{read_among, rising};
use std::alloc::{AllocError, Global};

// The policies of the object that the caller reads, in the order of their numbers.
fn policies_of<'a>(
    alloc: Global,
    state: &'a State,
    user: &Text,
    n: Oid,
) -> Result<Vec<&'a Object>, AllocError>
    ensures { IfOk result (λ all. map pointee all.items ≡ policies_of state.now user.now n) }
{
    let _step = state.step();
    let numbers = state.policies_on(alloc, n)?;
    let rising = rising(alloc, numbers.as_slice())?;
    let all = read_among(alloc, state, user, rising.as_slice())?;
    Ok(all)
}

fn id_of(alloc: Global, x: &Object) -> Result<Text, AllocError>
    ensures { IfOk result (λ t. t ≡ decimal x.now.id.0) }
{
    let number = x.id.0;
    let text = format!(in alloc; "{number}");
    Ok(Text::from_string(text?))
}

fn ids_of(alloc: Global, objects: &[&Object]) -> Result<Texts, AllocError>
    ensures { IfOk result (λ ids. ids ≡ map (λ p. decimal p.id.0) (map pointee objects.now)) }
{
    let mut ids = Items::new(alloc);
    for x in objects {
        ids.push(id_of(alloc, x)?)?;
    }
    Ok(ids)
}

/// The ids of the policies that are applied to the object, of those that the caller reads.
pub(crate) fn policy_ids(
    alloc: Global,
    state: &State,
    user: &Text,
    x: &Object,
) -> Result<Texts, AllocError>
    ensures { IfOk result (λ ids. ids ≡ policy_ids state.now user.now x.now) }
{
    let policies = policies_of(alloc, state, user, x.id)?;
    let ids = ids_of(alloc, &policies)?;
    Ok(ids)
}
