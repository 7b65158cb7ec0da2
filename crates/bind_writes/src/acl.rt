//! The arguments of applyACL.
ghost use Rattle.std.specs.Prelude.{◌≡◌};
ghost use Rattle.cm_base.specs.Judged.{Meets};
ghost use Rattle.bind_writes.specs.Acl.{apply_acl_of, propagation_named, propagation_of};

use crate::words::{
    ADD_ACE_PERMISSION, ADD_ACE_PRINCIPAL, REMOVE_ACE_PERMISSION, REMOVE_ACE_PRINCIPAL,
};
use access_parts::writes::{ApplyAcl, Propagation};
use bind_parts::asking::Asking;
use bind_parts::parts::place_of;
use cm_base::argument::Argument;
use cm_base::cause::Cause;
use cm_base::fail::Fail;
use form_args::entries::aces;
use form_args::pairs::Pairs;
use std::alloc::Global;

const ACL_PROPAGATION: &str = "ACLPropagation";

fn propagation_named(word: &str) -> Option<Propagation>
    ensures { result ≡ propagation_named word.now }
{
    if word == "repositorydetermined" {
        Some(Propagation::RepositoryDetermined)
    } else if word == "objectonly" {
        Some(Propagation::ObjectOnly)
    } else if word == "propagate" {
        Some(Propagation::Propagate)
    } else {
        None
    }
}

fn propagation_of(pairs: &Pairs) -> Result<Propagation, Cause>
    ensures { result ≡ propagation_of pairs.now }
{
    match pairs.first(ACL_PROPAGATION) {
        None => Ok(Propagation::RepositoryDetermined),
        Some(word) => match propagation_named(word.as_str()) {
            Some(propagation) => Ok(propagation),
            None => Err(Cause::BadArgument(Argument::named(ACL_PROPAGATION))),
        },
    }
}

/// The applyACL that the arguments make, or the first of their causes. Whether a propagation is offered is no question of the
/// arguments.
#[tactic(auto, using(cm_types::proofs::Exits::fails_bind, cm_types::proofs::Exits::fails_then))]
pub fn apply_acl_of(alloc: Global, asking: &Asking) -> Result<ApplyAcl, Fail>
    ensures { Meets (λ c. c) result (apply_acl_of asking.now) }
{
    let pairs = &asking.form.pairs;
    let add = aces(alloc, pairs, ADD_ACE_PRINCIPAL, ADD_ACE_PERMISSION)?;
    let remove = aces(alloc, pairs, REMOVE_ACE_PRINCIPAL, REMOVE_ACE_PERMISSION)?;
    let propagation = propagation_of(pairs)?;
    let place = place_of(alloc, asking)?;
    Ok(ApplyAcl {
        place,
        remove,
        add,
        propagation,
    })
}
