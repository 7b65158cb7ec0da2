//! What objects are put in order by.
ghost use Rattle.std.specs.Prelude.{◌≡◌, ◌&&◌, [], bytes_eq, find, map};
ghost use Rattle.std.specs.Option.{option_copied};
ghost use Rattle.cm_map.specs.Parts.{pointee};
ghost use Rattle.cm_base.specs.Judged.{Meets};
ghost use Rattle.ql_bind.specs.Binding.{each_onto};
ghost use Rattle.rd_order.specs.Ordered.{orderable_named, sort_key, sort_keys};

use cm_base::argument::Argument;
use cm_base::cause::Cause;
use cm_base::copies::Copies;
use cm_base::fail::Fail;
use cm_base::items::Items;
use cm_base::text::Text;
use cm_type_list::types::Types;
use cm_types::definition::TypeDef;
use cm_types::property::PropDef;
use order_parts::readings::{ORDER_BY, SortSpecification};
use ql_bind::bound::{OrderKey, OrderKeys};
use std::alloc::Global;

fn is_orderable(def: &PropDef, name: &Text) -> bool
    ensures { result ≡ (def.now.orderable && bytes_eq def.now.query_name name.now) }
{
    def.orderable && def.query_name.is(name)
}

fn orderable_in<'a>(defs: &'a [PropDef], name: &Text) -> Option<&'a PropDef>
    ensures { option_copied result ≡ find (λ d. d.orderable && bytes_eq d.query_name name.now) defs.now }
{
    defs.iter().find(|def| is_orderable(def, name))
}

// The orderable property of this query name, of any of the types.
fn orderable_named<'a>(types: &[&'a TypeDef], name: &Text) -> Option<&'a PropDef>
    ensures { option_copied result ≡ orderable_named (map pointee types.now) name.now }
{
    match types {
        [] => None,
        [def, rest @ ..] => match orderable_in(def.properties.as_slice(), name) {
            Some(property) => Some(property),
            None => orderable_named(rest, name),
        },
    }
}

fn sort_key(
    alloc: Global,
    types: &[&TypeDef],
    specification: &SortSpecification,
) -> Result<OrderKey, Fail>
    ensures { Meets (λ k. k) result (sort_key (map pointee types.now) specification.now) }
{
    match orderable_named(types, &specification.query_name) {
        Some(property) => {
            let id = property.id.copied(alloc)?;
            Ok(OrderKey {
                id,
                descending: specification.descending,
            })
        }
        None => Err(Fail::Refused(Cause::BadArgument(Argument::named(ORDER_BY)))),
    }
}

fn keys_among(
    alloc: Global,
    types: &[&TypeDef],
    specifications: &[SortSpecification],
) -> Result<OrderKeys, Fail>
    ensures { Meets (λ keys. keys) result (sort_keys (map pointee types.now) specifications.now) }
{
    let mut all = Items::new(alloc);
    for specification in specifications {
        let key = sort_key(alloc, types, specification)?;
        all.push(key)?;
    }
    Ok(all)
}

/// The properties by which objects are put in order. A name that no type has, or that is not orderable, is BadArgument `orderBy`.
pub(crate) fn sort_keys(
    alloc: Global,
    types: &Types,
    specifications: &[SortSpecification],
) -> Result<OrderKeys, Fail>
    ensures { Meets (λ keys. keys) result (sort_keys types.now specifications.now) }
{
    let among = types.all(alloc)?;
    keys_among(alloc, &among, specifications)
}
