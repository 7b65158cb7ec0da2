//! What a call that makes an object says of it.
ghost use Rattle.std.specs.Prelude.{◌≡◌, map, IfOk};
ghost use Rattle.cm_map.specs.Parts.{pointee};
ghost use Rattle.wr_rules.specs.Wanted.{wanted_in};

use crate::properties::{name_in, secondary_in, type_id_in};
use cm_base::text::{Text, Texts};
use cm_type_list::types::Types;
use cm_types::given::Given;
use cm_types::property::PropDef;
use std::alloc::{AllocError, Global};
use std::marker::Model;

/// The name, the type and the secondary types that are given, empty where they are not, and the definitions of the properties
/// that an object of these types has.
#[derive(Drop)]
pub struct Wanted<'a> {
    pub name: Text,
    pub kind: Text,
    pub secondary: Texts,
    pub defs: Vec<&'a PropDef>,
}

impl<'a> Model for Wanted<'a> {
    ghost use Rattle.std.specs.Prelude.{map};
    ghost use Rattle.cm_map.specs.Parts.{pointee};
    ghost use Rattle.wr_rules.specs.Wanted.{Wanted as Said};

    ghost Value = { Said };

    ghost view = { λ s. record {
      name = s.name;
      kind = s.kind;
      secondary = s.secondary;
      defs = map pointee s.defs.items;
    } };
}

/// What the given properties say.
pub fn wanted_by<'a>(
    alloc: Global,
    types: &'a Types,
    given: &[Given],
) -> Result<Wanted<'a>, AllocError>
    ensures { IfOk result (λ w. w ≡ wanted_in types.now given.now) }
{
    let name = name_in(alloc, given)?;
    let kind = type_id_in(alloc, given)?;
    let secondary = secondary_in(alloc, given)?;
    let defs = types.props_of(alloc, &kind, secondary.as_slice())?;
    Ok(Wanted {
        name,
        kind,
        secondary,
        defs,
    })
}
