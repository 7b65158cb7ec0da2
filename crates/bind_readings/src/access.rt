//! The arguments of parent, policies and acl.
ghost use Rattle.std.specs.Prelude.{◌≡◌};
ghost use Rattle.cm_base.specs.Judged.{Meets};
ghost use Rattle.bind_readings.specs.Access.{acl_of, parent_of, policies_of};

use bind_parts::asking::Asking;
use bind_parts::parts::place_of;
use call_parts::readings::{ReadAcl, ReadParent, ReadPolicies};
use cm_base::fail::Fail;
use form_args::choice::flag;
use form_args::words::SUCCINCT;
use std::alloc::Global;

/// The question of the selector parent, or the first cause of its arguments.
#[tactic(auto, using(cm_types::proofs::Exits::fails_bind))]
pub fn parent_of(alloc: Global, asking: &Asking) -> Result<ReadParent, Fail>
    ensures { Meets (λ c. c) result (parent_of asking.now) }
{
    let succinct = flag(&asking.form.pairs, SUCCINCT, false)?;
    let place = place_of(alloc, asking)?;
    Ok(ReadParent { place, succinct })
}

/// The question of the selector policies, or the first cause of its arguments.
#[tactic(auto, using(cm_types::proofs::Exits::fails_bind))]
pub fn policies_of(alloc: Global, asking: &Asking) -> Result<ReadPolicies, Fail>
    ensures { Meets (λ c. c) result (policies_of asking.now) }
{
    let succinct = flag(&asking.form.pairs, SUCCINCT, false)?;
    let place = place_of(alloc, asking)?;
    Ok(ReadPolicies { place, succinct })
}

/// The question of the selector acl; its arguments have no causes.
pub fn acl_of(alloc: Global, asking: &Asking) -> Result<ReadAcl, Fail>
    ensures { Meets (λ c. c) result (acl_of asking.now) }
{
    let place = place_of(alloc, asking)?;
    Ok(ReadAcl { place })
}
