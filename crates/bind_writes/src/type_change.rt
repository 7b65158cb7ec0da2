//! The arguments of createType, updateType and deleteType.
ghost use Rattle.std.specs.Prelude.{◌≡◌, codes};
ghost use Rattle.cm_base.specs.Judged.{Meets};
ghost use Rattle.form_args.specs.Single.{needed};
ghost use Rattle.bind_writes.specs.TypeChange.{definition_of, create_type_of, update_type_of, delete_type_of};

use bind_parts::asking::Asking;
use cm_base::argument::Argument;
use cm_base::cause::Cause;
use cm_base::copies::Copies;
use cm_base::fail::Fail;
use cm_base::text::Text;
use cm_types::request::TypeRequest;
use form_args::pairs::Pairs;
use form_args::words::TYPE_ID;
use std::alloc::Global;
use type_change_parts::writes::{CreateType, DeleteType, UpdateType};
use type_json::judge::read_type;

const TYPE: &str = "type";

// What the text of the definition asks of a type.
fn definition_of(alloc: Global, pairs: &Pairs) -> Result<TypeRequest, Fail>
    ensures { Meets (λ q. q) result (definition_of pairs.now) }
{
    match pairs.first(TYPE) {
        None => Err(Fail::Refused(Cause::MissingArgument(Argument::named(TYPE)))),
        Some(text) => read_type(alloc, text.as_str()),
    }
}

fn needed_id(alloc: Global, pairs: &Pairs) -> Result<Text, Fail>
    ensures { Meets (λ t. t) result (needed pairs.now (codes "typeId")) }
{
    match pairs.first(TYPE_ID) {
        None => Err(Fail::Refused(Cause::MissingArgument(Argument::named(TYPE_ID)))),
        Some(id) => {
            let id = id.copied(alloc)?;
            Ok(id)
        }
    }
}

/// The createType that the arguments make, or the first of their causes: BadTypeText where the text asks for no type.
#[tactic(auto, using(cm_types::proofs::Exits::fails_bind))]
pub fn create_type_of(alloc: Global, asking: &Asking) -> Result<CreateType, Fail>
    ensures { Meets (λ c. c) result (create_type_of asking.now) }
{
    let definition = definition_of(alloc, &asking.form.pairs)?;
    Ok(CreateType { definition })
}

/// The updateType that the arguments make, or the first of their causes. The type is named by the definition.
#[tactic(auto, using(cm_types::proofs::Exits::fails_bind))]
pub fn update_type_of(alloc: Global, asking: &Asking) -> Result<UpdateType, Fail>
    ensures { Meets (λ c. c) result (update_type_of asking.now) }
{
    let definition = definition_of(alloc, &asking.form.pairs)?;
    Ok(UpdateType { definition })
}

/// The deleteType that the arguments make, or the first of their causes.
#[tactic(auto, using(cm_types::proofs::Exits::fails_bind))]
pub fn delete_type_of(alloc: Global, asking: &Asking) -> Result<DeleteType, Fail>
    ensures { Meets (λ c. c) result (delete_type_of asking.now) }
{
    let type_id = needed_id(alloc, &asking.form.pairs)?;
    Ok(DeleteType { type_id })
}
