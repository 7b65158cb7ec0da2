//! Tables: the type that one is, its columns, and the types whose objects are its rows.
ghost use Rattle.std.specs.Prelude.{◌≡◌, ◌∷◌, ◌++◌, [], ◌&&◌, IfOk, OnOk, bytes_eq, map};
ghost use Rattle.std.specs.Option.{option_copied};
ghost use Rattle.cm_map.specs.Parts.{pointee};
ghost use Rattle.cm_types.specs.Types.{chain, chain_of, longest_chain, types_of};
ghost use Rattle.ql_bind.specs.Tables.{columns_among, columns_of, counts_up, kinds_among, properties_in, properties_of, row_kinds, table_named};

use cm_base::copies::Copies;
use cm_base::items::Items;
use cm_base::text::{Text, Texts};
use cm_type_list::types::Types;
use cm_types::definition::{BaseType, TypeDef};
use cm_types::property::PropDef;
use std::alloc::{AllocError, Global};

fn is_table(name: &Text, def: &TypeDef) -> bool
    ensures { result ≡ (def.now.queryable && bytes_eq def.now.query_name name.now) }
{
    def.queryable && def.query_name.is(name)
}

/// The queryable type of a query name.
pub(crate) fn table_named<'a>(types: &[&'a TypeDef], name: &Text) -> Option<&'a TypeDef>
    ensures { option_copied result ≡ table_named (map pointee types.now) name.now }
{
    match types {
        [] => None,
        [def, rest @ ..] => {
            if is_table(name, def) {
                Some(*def)
            } else {
                table_named(rest, name)
            }
        }
    }
}

// The types whose properties are those of the table.
fn lines<'a>(
    alloc: Global,
    types: &'a Types,
    table: &TypeDef,
) -> Result<Vec<&'a TypeDef>, AllocError>
    ensures { IfOk result (λ all. properties_in (map pointee all.items) ≡ properties_of types.now table.now) }
{
    match table.base {
        BaseType::Secondary => {
            let item = Text::from_str(alloc, "cmis:item")?;
            let mut own = Items::new(alloc);
            own.push(table.id.copied(alloc)?)?;
            types.types_of(alloc, &item, own.as_slice())
        }
        _ => {
            let own: Texts = Items::new(alloc);
            types.types_of(alloc, &table.id, own.as_slice())
        }
    }
}

fn add_queryable<'a>(all: &mut Vec<&'a PropDef>, def: &'a PropDef) -> Result<(), AllocError>
    ensures { OnOk result (map pointee all.new.items ≡ map pointee all.old.items ++ columns_among (def.now ∷ [])) }
{
    if def.queryable {
        all.push(def)?;
    }
    Ok(())
}

fn add_columns<'a>(all: &mut Vec<&'a PropDef>, defs: &'a [PropDef]) -> Result<(), AllocError>
    ensures { OnOk result (map pointee all.new.items ≡ map pointee all.old.items ++ columns_among defs.now) }
{
    for def in defs {
        add_queryable(all, def)?;
    }
    Ok(())
}

/// The queryable properties of some types, in their order.
pub fn columns_in<'a>(alloc: Global, types: &[&'a TypeDef]) -> Result<Vec<&'a PropDef>, AllocError>
    ensures { IfOk result (λ all. map pointee all.items ≡ columns_among (properties_in (map pointee types.now))) }
{
    let mut all = Vec::new(alloc);
    for def in types {
        add_columns(&mut all, def.properties.as_slice())?;
    }
    Ok(all)
}

/// The queryable properties of a table.
pub(crate) fn columns_of<'a>(
    alloc: Global,
    types: &'a Types,
    table: &TypeDef,
) -> Result<Vec<&'a PropDef>, AllocError>
    ensures { IfOk result (λ all. map pointee all.items ≡ columns_of types.now table.now) }
{
    let lines = lines(alloc, types, table)?;
    let all = columns_in(alloc, &lines)?;
    Ok(all)
}

// Whether a type counts in queries of the table, by the types of its chain, at most so many.
fn counts_up(types: &Types, levels: u64, id: &Text, table: &Text) -> bool
    ensures { result ≡ counts_up table.now (chain_of levels types.now id.now) }
{
    if levels == 0 {
        return false;
    }
    match types.find(id) {
        None => false,
        Some(def) => {
            if def.id.is(table) {
                return true;
            }
            match &def.parent {
                Some(parent) => {
                    def.included_in_supertype_query && counts_up(types, levels - 1, parent, table)
                }
                None => false,
            }
        }
    }
}

#[tactic(auto, unfolding(cm_types::specs::Types::longest_chain))]
fn longest_chain() -> u64
    ensures { result ≡ longest_chain }
{
    16
}

fn counts(types: &Types, id: &Text, table: &Text) -> bool
    ensures { result ≡ counts_up table.now (chain types.now id.now) }
{
    counts_up(types, longest_chain(), id, table)
}

fn add_kind(
    alloc: Global,
    all: &mut Texts,
    types: &Types,
    def: &TypeDef,
    table: &Text,
) -> Result<(), AllocError>
    ensures { OnOk result (all.new ≡ all.old ++ kinds_among types.now table.now (def.now ∷ [])) }
{
    if counts(types, &def.id, table) {
        all.push(def.id.copied(alloc)?)?;
    }
    Ok(())
}

fn kinds_among(
    alloc: Global,
    types: &Types,
    among: &[&TypeDef],
    table: &Text,
) -> Result<Texts, AllocError>
    ensures { IfOk result (λ all. all ≡ kinds_among types.now table.now (map pointee among.now)) }
{
    let mut all = Items::new(alloc);
    for def in among {
        add_kind(alloc, &mut all, types, def, table)?;
    }
    Ok(all)
}

/// The ids of the types whose objects are rows of the table.
pub(crate) fn row_kinds(
    alloc: Global,
    types: &Types,
    among: &[&TypeDef],
    table: &TypeDef,
) -> Result<Texts, AllocError>
    requires { map pointee among.now ≡ types.now }
    ensures { IfOk result (λ all. all ≡ row_kinds types.now table.now) }
{
    let all = kinds_among(alloc, types, among, &table.id)?;
    Ok(all)
}
