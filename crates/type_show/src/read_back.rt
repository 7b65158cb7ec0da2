//! What is shown is read back.
ghost use Rattle.std.specs.Prelude.{◌≡◌, IfOk, Ok, true};
ghost use Rattle.serde_json.specs.Written.{compact_text};
ghost use Rattle.cm_types.specs.declared.definition.TypeDef.{TypeDef};
ghost use Rattle.cm_types.specs.declared.request.TypeRequest.{TypeRequest};
ghost use Rattle.cm_types.specs.Changes.{made_type};
ghost use Rattle.type_json.specs.Reading.{judge_type_text};
ghost use Rattle.type_show.specs.Showing.{type_data};
ghost use Rattle.type_show.specs.ReadBack.{IsSoundType, IsMadeBelow, asked_type};

use crate::show::type_value;
use cm_types::definition;
use std::alloc::{AllocError, Global};

/// The text of a type definition with its own property definitions.
///
/// `read_type` reads it as the request that names the whole definition, and a type that is made of this request below the same
/// parent is the definition that was shown.
pub fn type_text(alloc: Global, def: &definition::TypeDef) -> Result<Vec<u8>, AllocError>
    ensures text { IfOk result (λ b. b.items ≡ compact_text (type_data true def.now)) }
    ensures asked { IfOk result (λ b. IsSoundType def.now → judge_type_text b.items ≡ Ok (asked_type def.now)) }
    ensures made { IfOk result (λ b. (parent : TypeDef) (q : TypeRequest) → IsSoundType def.now
        → IsMadeBelow parent def.now
        → judge_type_text b.items ≡ Ok q → made_type parent q ≡ def.now) }
{
    let json = type_value(alloc, def, true)?;
    let text = json.to_vec(alloc)?;
    Ok(text)
}
