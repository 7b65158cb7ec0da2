//! The arguments of typeChildren, typeDescendants and typeDefinition.
ghost use Rattle.std.specs.Prelude.{◌≡◌, IfOk, codes};
ghost use Rattle.cm_base.specs.Judged.{Meets};
ghost use Rattle.form_args.specs.Pairs.{first_of};
ghost use Rattle.form_args.specs.Single.{needed};
ghost use Rattle.bind_readings.specs.Types.{type_children_of, type_definition_of, type_descendants_of};

use crate::options::options_of;
use bind_parts::asking::Asking;
use cm_base::argument::Argument;
use cm_base::cause::Cause;
use cm_base::copies::Copies;
use cm_base::fail::Fail;
use cm_base::text::Text;
use form_args::pairs::Pairs;
use form_args::words::TYPE_ID;
use std::alloc::{AllocError, Global};
use type_parts::readings::{ReadTypeChildren, ReadTypeDefinition, ReadTypeDescendants};

fn given_id(alloc: Global, pairs: &Pairs) -> Result<Option<Text>, AllocError>
    ensures { IfOk result (λ t. t ≡ first_of pairs.now (codes "typeId")) }
{
    match pairs.first(TYPE_ID) {
        None => Ok(None),
        Some(id) => Ok(Some(id.copied(alloc)?)),
    }
}

fn needed_id(alloc: Global, pairs: &Pairs) -> Result<Text, Fail>
    ensures { Meets (λ t. t) result (needed pairs.now (codes "typeId")) }
{
    match pairs.first(TYPE_ID) {
        None => Err(Fail::Refused(Cause::MissingArgument(Argument::named(TYPE_ID)))),
        Some(id) => {
            let id = id.copied(alloc)?;
            Ok(id)
        }
    }
}

/// The question of the selector typeChildren, or the first cause of its arguments.
#[tactic(auto, using(cm_types::proofs::Exits::fails_bind))]
pub fn type_children_of(alloc: Global, asking: &Asking) -> Result<ReadTypeChildren, Fail>
    ensures { Meets (λ c. c) result (type_children_of asking.now) }
{
    let pairs = &asking.form.pairs;
    let options = options_of(pairs)?;
    let type_id = given_id(alloc, pairs)?;
    Ok(ReadTypeChildren {
        type_id,
        property_definitions: options.property_definitions,
        max_items: options.max_items,
        skip_count: options.skip_count,
    })
}

/// The question of the selector typeDescendants, or the first cause of its arguments.
#[tactic(auto, using(cm_types::proofs::Exits::fails_bind))]
pub fn type_descendants_of(alloc: Global, asking: &Asking) -> Result<ReadTypeDescendants, Fail>
    ensures { Meets (λ c. c) result (type_descendants_of asking.now) }
{
    let pairs = &asking.form.pairs;
    let options = options_of(pairs)?;
    let type_id = given_id(alloc, pairs)?;
    Ok(ReadTypeDescendants {
        type_id,
        depth: options.depth,
        property_definitions: options.property_definitions,
    })
}

/// The question of the selector typeDefinition, or the first cause of its arguments. The other arguments of the readings of types
/// are judged, and mean nothing here.
#[tactic(auto, using(cm_types::proofs::Exits::fails_bind))]
pub fn type_definition_of(alloc: Global, asking: &Asking) -> Result<ReadTypeDefinition, Fail>
    ensures { Meets (λ c. c) result (type_definition_of asking.now) }
{
    let pairs = &asking.form.pairs;
    let type_id = needed_id(alloc, pairs)?;
    let _judged = options_of(pairs)?;
    Ok(ReadTypeDefinition { type_id })
}
