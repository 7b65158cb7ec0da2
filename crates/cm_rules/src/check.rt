//! Given properties against their definitions, and the values that are then kept.
ghost use Rattle.std.specs.Prelude.{◌≡◌, map};
ghost use Rattle.cm_base.specs.Judged.{Leaves, Meets};
ghost use Rattle.cm_map.specs.Parts.{pointee};
ghost use Rattle.cm_types.specs.declared.given.PropertyCall.TheVariants as calls;
ghost use Rattle.cm_types.specs.Properties.{judge_properties};
ghost use Rattle.cmis_spec.specs.Values.{values_kept};

use crate::fault::judge_given;
use crate::kept::{judge_missing, values_kept};
use cm_base::fail::Fail;
use cm_base::value::Values;
use cm_types::given::{Givens, PropertyCall};
use cm_types::property::PropDef;
use std::alloc::Global;

#[tactic(auto, using(cm_types::proofs::Exits::fails_then))]
fn judge_properties(
    alloc: Global,
    call: PropertyCall,
    defs: &[&PropDef],
    old: &Values,
    given: &Givens,
) -> Result<(), Fail>
    ensures { Meets (λ x. x) result (judge_properties call (map pointee defs.now) old.now given.now) }
{
    judge_given(alloc, call, defs, given.as_slice())?;
    judge_missing(alloc, call, defs, old.as_slice(), given.as_slice())
}

#[tactic(auto, using(cm_types::proofs::Exits::fails_then))]
fn judge_values(
    alloc: Global,
    call: PropertyCall,
    defs: &[&PropDef],
    old: &Values,
    given: &Givens,
) -> Result<Values, Fail>
    ensures { Leaves result
        (judge_properties call (map pointee defs.now) old.now given.now)
        (values_kept call (map pointee defs.now) old.now given.now) }
{
    judge_properties(alloc, call, defs, old, given)?;
    let kept = values_kept(alloc, call, defs, old.as_slice(), given.as_slice())?;
    Ok(kept)
}

/// The values that a new object keeps beside its name and types: the given ones, else those copied from a source, else the defaults.
///
/// A copied value may be unset, and then stays so. The cause is Property, with the id and the fault that comes first: those of
/// the given properties in their order, then the first required property, in the order of the definitions, that would be unset.
pub fn check_new(
    alloc: Global,
    defs: &[&PropDef],
    copied: &Values,
    given: &Givens,
) -> Result<Values, Fail>
    ensures { Leaves result
        (judge_properties calls.Create (map pointee defs.now) copied.now given.now)
        (values_kept calls.Create (map pointee defs.now) copied.now given.now) }
{
    judge_values(alloc, PropertyCall::Create, defs, copied, given)
}

/// The values that an object keeps after an update: the given ones, else the old ones. The causes are as in `check_new`; `working` says that the
/// object is a private working copy.
pub fn check_update(
    alloc: Global,
    defs: &[&PropDef],
    old: &Values,
    given: &Givens,
    working: bool,
) -> Result<Values, Fail>
    ensures { Leaves result
        (judge_properties (calls.Update working) (map pointee defs.now) old.now given.now)
        (values_kept (calls.Update working) (map pointee defs.now) old.now given.now) }
{
    judge_values(alloc, PropertyCall::Update(working), defs, old, given)
}

/// The values after a check-in, as after an update.
pub fn check_checked_in(
    alloc: Global,
    defs: &[&PropDef],
    old: &Values,
    given: &Givens,
) -> Result<Values, Fail>
    ensures { Leaves result
        (judge_properties calls.CheckIn (map pointee defs.now) old.now given.now)
        (values_kept calls.CheckIn (map pointee defs.now) old.now given.now) }
{
    judge_values(alloc, PropertyCall::CheckIn, defs, old, given)
}
