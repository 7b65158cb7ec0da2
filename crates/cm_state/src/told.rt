//! The base type of a type.
ghost use Rattle.std.specs.Prelude.{◌≡◌};
ghost use Rattle.cm_types.specs.Types.{is_of_base, same_base};

use cm_base::text::Text;
use cm_type_list::types::Types;
use cm_types::definition::BaseType;

fn same_base_type(a: BaseType, b: BaseType) -> bool
    ensures { result ≡ same_base a b }
{
    match (a, b) {
        (BaseType::Document, BaseType::Document) => true,
        (BaseType::Folder, BaseType::Folder) => true,
        (BaseType::Relationship, BaseType::Relationship) => true,
        (BaseType::Policy, BaseType::Policy) => true,
        (BaseType::Item, BaseType::Item) => true,
        (BaseType::Secondary, BaseType::Secondary) => true,
        _ => false,
    }
}

/// The type of this id has this base type.
pub fn is_of_base(types: &Types, base: BaseType, kind: &Text) -> bool
    ensures { result ≡ is_of_base types.now base kind.now }
{
    match types.find(kind) {
        Some(def) => same_base_type(base, def.base),
        None => false,
    }
}
