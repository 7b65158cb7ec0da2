//! The arguments of applyPolicy and removePolicy.
ghost use Rattle.std.specs.Prelude.{◌≡◌};
ghost use Rattle.cm_base.specs.Judged.{Meets};
ghost use Rattle.form_args.specs.Single.{needed};
ghost use Rattle.bind_writes.specs.Policy.{apply_policy_of, remove_policy_of};

use bind_parts::asking::Asking;
use bind_parts::parts::place_of;
use cm_base::argument::Argument;
use cm_base::cause::Cause;
use cm_base::copies::Copies;
use cm_base::fail::Fail;
use cm_base::text::Text;
use form_args::choice::flag;
use form_args::pairs::Pairs;
use form_args::words::SUCCINCT;
use policy_parts::writes::{ApplyPolicy, RemovePolicy};
use std::alloc::Global;

const POLICY_ID: &str = "policyId";

// The value of an argument that must be given.
fn needed(alloc: Global, pairs: &Pairs, name: &'static str) -> Result<Text, Fail>
    ensures { Meets (λ t. t) result (needed pairs.now name.now) }
{
    match pairs.first(name) {
        None => Err(Fail::Refused(Cause::MissingArgument(Argument::named(name)))),
        Some(value) => {
            let value = value.copied(alloc)?;
            Ok(value)
        }
    }
}

/// The applyPolicy that the arguments make, or the first of their causes.
#[tactic(auto, using(cm_types::proofs::Exits::fails_bind))]
pub fn apply_policy_of(alloc: Global, asking: &Asking) -> Result<ApplyPolicy, Fail>
    ensures { Meets (λ c. c) result (apply_policy_of asking.now) }
{
    let pairs = &asking.form.pairs;
    let succinct = flag(pairs, SUCCINCT, false)?;
    let policy = needed(alloc, pairs, POLICY_ID)?;
    Ok(ApplyPolicy {
        place: place_of(alloc, asking)?,
        policy,
        succinct,
    })
}

/// The removePolicy that the arguments make, or the first of their causes. Its reply has no object, so that no form of one is asked for.
#[tactic(auto, using(cm_types::proofs::Exits::fails_bind))]
pub fn remove_policy_of(alloc: Global, asking: &Asking) -> Result<RemovePolicy, Fail>
    ensures { Meets (λ c. c) result (remove_policy_of asking.now) }
{
    let pairs = &asking.form.pairs;
    let policy = needed(alloc, pairs, POLICY_ID)?;
    Ok(RemovePolicy {
        place: place_of(alloc, asking)?,
        policy,
    })
}
