//! The arguments of createItem, createPolicy and createRelationship.
ghost use Rattle.std.specs.Prelude.{◌≡◌, IfOk};
ghost use Rattle.cm_base.specs.Judged.{Meets};
ghost use Rattle.bind_writes.specs.Documents.{folder_of};
ghost use Rattle.bind_writes.specs.Create.{object_request_of, create_item_of, create_policy_of, create_relationship_of};

use crate::words::{
    ADD_ACE_PERMISSION, ADD_ACE_PRINCIPAL, POLICY, REMOVE_ACE_PERMISSION, REMOVE_ACE_PRINCIPAL,
};
use bind_parts::asking::Asking;
use bind_parts::parts::place_of;
use call_parts::place::Place;
use cm_base::fail::Fail;
use create_parts::writes::{CreateItem, CreatePolicy, CreateRelationship, ObjectRequest};
use form_args::choice::flag;
use form_args::entries::aces;
use form_args::lists::texts;
use form_args::pairs::Pairs;
use form_args::properties::{properties, typed};
use form_args::words::SUCCINCT;
use request_target::target::Target;
use std::alloc::{AllocError, Global};

// What is addressed; at the repository's address nothing is, and objectId is no argument there.
fn place_at(alloc: Global, asking: &Asking) -> Result<Option<Place>, AllocError>
    ensures { IfOk result (λ p. p ≡ folder_of asking.now) }
{
    match &asking.address {
        Target::Service => Ok(None),
        Target::Repository => Ok(None),
        Target::Object(_) => Ok(Some(place_of(alloc, asking)?)),
    }
}

// What the call asks of the new object.
#[tactic(auto, using(cm_types::proofs::Exits::fails_bind, cm_types::proofs::Exits::fails_then))]
fn object_request_of(alloc: Global, pairs: &Pairs) -> Result<ObjectRequest, Fail>
    ensures { Meets (λ o. o) result (object_request_of pairs.now) }
{
    let properties = properties(alloc, pairs)?;
    typed(properties.as_slice())?;
    let add = aces(alloc, pairs, ADD_ACE_PRINCIPAL, ADD_ACE_PERMISSION)?;
    let remove = aces(alloc, pairs, REMOVE_ACE_PRINCIPAL, REMOVE_ACE_PERMISSION)?;
    let policies = texts(alloc, pairs, POLICY)?;
    Ok(ObjectRequest {
        properties,
        policies,
        remove,
        add,
    })
}

/// The createItem that the arguments make, or the first of their causes.
#[tactic(auto, using(cm_types::proofs::Exits::fails_bind, cm_types::proofs::Exits::fails_then))]
pub fn create_item_of(alloc: Global, asking: &Asking) -> Result<CreateItem, Fail>
    ensures { Meets (λ c. c) result (create_item_of asking.now) }
{
    let pairs = &asking.form.pairs;
    let succinct = flag(pairs, SUCCINCT, false)?;
    let object = object_request_of(alloc, pairs)?;
    let place = place_at(alloc, asking)?;
    Ok(CreateItem {
        place,
        object,
        succinct,
    })
}

/// The createPolicy that the arguments make, or the first of their causes.
#[tactic(auto, using(cm_types::proofs::Exits::fails_bind, cm_types::proofs::Exits::fails_then))]
pub fn create_policy_of(alloc: Global, asking: &Asking) -> Result<CreatePolicy, Fail>
    ensures { Meets (λ c. c) result (create_policy_of asking.now) }
{
    let pairs = &asking.form.pairs;
    let succinct = flag(pairs, SUCCINCT, false)?;
    let object = object_request_of(alloc, pairs)?;
    let place = place_at(alloc, asking)?;
    Ok(CreatePolicy {
        place,
        object,
        succinct,
    })
}

/// The createRelationship that the arguments make, or the first of their causes. Its ends are properties, which no argument needs.
#[tactic(auto, using(cm_types::proofs::Exits::fails_bind, cm_types::proofs::Exits::fails_then))]
pub fn create_relationship_of(alloc: Global, asking: &Asking) -> Result<CreateRelationship, Fail>
    ensures { Meets (λ c. c) result (create_relationship_of asking.now) }
{
    let pairs = &asking.form.pairs;
    let succinct = flag(pairs, SUCCINCT, false)?;
    let object = object_request_of(alloc, pairs)?;
    let place = place_at(alloc, asking)?;
    Ok(CreateRelationship {
        place,
        object,
        succinct,
    })
}
