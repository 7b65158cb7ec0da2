//! What the calls on applied policies share.
ghost use Rattle.std.specs.Prelude.{◌≡◌, ◌+◌, ◌<◌, ◌^◌, [], IfOk};
ghost use Rattle.cm_base.specs.declared.log.ChangeKind.TheVariants.{Updated};
ghost use Rattle.cmis_spec.specs.Changes.{stepped, noted};
ghost use Rattle.cm_state.specs.Looks.{is_applied};
ghost use Rattle.wr_policy.specs.Applied.{without_policy};

use cm_base::items::Items;
use cm_base::log::ChangeKind;
use cm_base::number::{Moment, Oid};
use cm_draft::draft::Draft;
use cm_state::state::State;
use std::alloc::{AllocError, Global};

/// Whether the policy is applied to the object. It takes no memory, and looks at the policies of the object alone.
pub(crate) fn is_applied(state: &State, policy: Oid, object: Oid) -> bool
    ensures { result ≡ is_applied state.now policy object }
{
    state.is_applied(policy, object)
}

/// The policy no longer on the object.
pub(crate) fn without_policy(
    alloc: Global,
    draft: Draft,
    policy: Oid,
    object: Oid,
) -> Result<Draft, AllocError>
    ensures { IfOk result (λ d. d ≡ without_policy draft policy object) }
{
    draft.without_policy(alloc, policy, object)
}

/// The draft one step further, with the event that the object of this number was changed.
pub(crate) fn changed_by(
    alloc: Global,
    draft: Draft,
    number: Oid,
    moment: Moment,
    cost: u64,
) -> Result<Draft, AllocError>
    requires step { draft.step + 1 < 2 ^ 64 }
    requires cost { draft.cost + cost < 2 ^ 64 }
    ensures { IfOk result (λ d. d ≡ noted (stepped draft cost) Updated number moment []) }
{
    let paid = draft.stepped(cost);
    let noted = paid.noted(
        alloc,
        ChangeKind::Updated,
        number,
        moment,
        Items::new(alloc),
    )?;
    Ok(noted)
}
