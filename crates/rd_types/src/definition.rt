//! The definition of a type (CMIS 1.1, section 2.2.2.5).
ghost use Rattle.std.specs.Prelude.{◌≡◌, IfOk, false};
ghost use Rattle.cm_base.specs.Judged.{Meets};
ghost use Rattle.rd_types.specs.ReadTypes.{answer_type_definition};

use cm_base::cause::Cause;
use cm_base::copies::Copies;
use cm_base::fail::Fail;
use cm_base::text::Text;
use cm_state::state::State;
use cm_types::definition::TypeDef;
use std::alloc::{AllocError, Global};
use type_parts::readings::ReadTypeDefinition;
use type_parts::replies::TypeReply;

fn type_reply(alloc: Global, def: &TypeDef) -> Result<TypeReply, AllocError>
    ensures { IfOk result (λ reply. reply ≡ record { definition = def.now; created = false }) }
{
    let definition = def.copied(alloc)?;
    Ok(TypeReply {
        definition,
        created: false,
    })
}

/// The definition of a type, with its property definitions. Everybody sees all types.
pub fn type_definition(
    alloc: Global,
    state: &State,
    user: &Text,
    q: &ReadTypeDefinition,
) -> Result<TypeReply, Fail>
    ensures { Meets (λ x. x) result (answer_type_definition state.now user.now q.now) }
{
    let _everybody = user;
    match state.type_named(&q.type_id) {
        Some(def) => {
            let reply = type_reply(alloc, def)?;
            Ok(reply)
        }
        None => Err(Fail::Refused(Cause::TypeNotFound)),
    }
}
