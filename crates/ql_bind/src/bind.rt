//! Queries bound to the types.
ghost use Rattle.std.specs.Prelude.{◌≡◌, IfOk, map};
ghost use Rattle.cm_map.specs.Parts.{pointee};
ghost use Rattle.cm_base.specs.declared.cause.Cause.TheVariants as causes;
ghost use Rattle.cm_base.specs.Judged.{Meets};
ghost use Rattle.ql_bind.specs.Tables.{row_kinds, scope_of};
ghost use Rattle.ql_bind.specs.Binding.{bind_at, bound_query};

use crate::bound::Bound;
use crate::column::Scope;
use crate::condition::filter;
use crate::select::{order, selection};
use crate::table::{columns_of, row_kinds, table_named};
use cm_base::cause::Cause;
use cm_base::copies::Copies;
use cm_base::fail::Fail;
use cm_base::text::Text;
use cm_type_list::types::Types;
use cm_types::definition::TypeDef;
use ql_tree::tree::Query;
use std::alloc::{AllocError, Global};

fn scope_of<'a>(
    alloc: Global,
    types: &'a Types,
    table: &'a TypeDef,
    alias: &'a Option<Text>,
) -> Result<Scope<'a>, AllocError>
    ensures { IfOk result (λ s. s ≡ scope_of types.now table.now alias.now) }
{
    let columns = columns_of(alloc, types, table)?;
    Ok(Scope {
        name: &table.query_name,
        alias: alias.as_ref(),
        columns,
    })
}

#[tactic(auto, using(cm_types::proofs::Exits::fails_bind))]
fn bind_at(
    alloc: Global,
    types: &Types,
    among: &[&TypeDef],
    table: &TypeDef,
    scope: &Scope<'_>,
    query: &Query,
) -> Result<Bound, Fail>
    requires { map pointee among.now ≡ types.now }
    ensures { Meets (λ x. x) result (bind_at types.now table.now scope.now query.now) }
{
    let columns = selection(alloc, scope, &query.list)?;
    let filter = filter(alloc, scope, &query.filter)?;
    let keys = order(alloc, scope, query.keys.as_slice())?;
    let kinds = row_kinds(alloc, types, among, table)?;
    Ok(Bound {
        kinds,
        columns,
        filter,
        keys,
    })
}

fn no_table(alloc: Global, query: &Query) -> Result<Cause, AllocError>
    ensures { IfOk result (λ c. c ≡ causes.QueryName query.now.table.name) }
{
    Ok(Cause::QueryName(query.table.name.copied(alloc)?))
}

/// The query with its names looked up in the types and its constants read, or the first cause that refuses it: of the table, then of
/// what it shows, of its condition and of its order, each in the order of the text.
pub fn bind(alloc: Global, query: &Query, types: &Types) -> Result<Bound, Fail>
    ensures { Meets (λ x. x) result (bound_query types.now query.now) }
{
    let among = types.all(alloc)?;
    match table_named(&among, &query.table.name) {
        Some(table) => {
            let scope = scope_of(alloc, types, table, &query.table.alias)?;
            let bound = bind_at(alloc, types, &among, table, &scope, query)?;
            Ok(bound)
        }
        None => {
            let cause = no_table(alloc, query)?;
            Err(Fail::Refused(cause))
        }
    }
}
