//! Queries (CMIS 1.1, sections 2.1.14 and 2.2.6.1).
ghost use Rattle.std.specs.Prelude.{◌≡◌, IfOk};
ghost use Rattle.cm_base.specs.Judged.{Meets};
ghost use Rattle.rd_query.specs.Said.{bound_of, said};
ghost use Rattle.rd_query.specs.ReadQuery.{answer_bound, answer_query};

use crate::reply::query_reply;
use crate::rows::rows;
use cm_base::fail::Fail;
use cm_base::text::Text;
use cm_state::state::State;
use cm_type_list::types::Types;
use ql_bind::bind::bind;
use ql_bind::bound::Bound;
use ql_parse::parse::parse;
use ql_tree::tree::Query;
use query_parts::readings::ReadQuery;
use query_parts::replies::QueryReply;
use std::alloc::{AllocError, Global};

fn read(alloc: Global, statement: &Text) -> Result<Query, Fail>
    ensures { Meets (λ x. x) result (said statement.now) }
{
    parse(alloc, statement)
}

// The statement, bound to the types.
fn bound(alloc: Global, types: &Types, statement: &Text) -> Result<Bound, Fail>
    ensures { Meets (λ x. x) result (bound_of types.now statement.now) }
{
    match read(alloc, statement) {
        Ok(tree) => bind(alloc, &tree, types),
        Err(fail) => Err(fail),
    }
}

fn answer_bound(
    alloc: Global,
    state: &State,
    user: &Text,
    q: &ReadQuery,
    bound: &Bound,
) -> Result<QueryReply, AllocError>
    ensures { IfOk result (λ reply. reply ≡ answer_bound state.now user.now q.now bound.now) }
{
    let rows = rows(alloc, state, user, bound, q.all_versions)?;
    let reply = query_reply(
        alloc,
        state,
        user,
        q,
        bound.columns.as_slice(),
        rows.as_slice(),
    )?;
    Ok(reply)
}

/// A page of the rows that the statement finds for the user, in its order, each with what is asked for beside its columns, and how many
/// it finds in all. A statement that is none, or that names or uses a type or a column wrongly, is refused with the first cause.
pub fn query(alloc: Global, state: &State, user: &Text, q: &ReadQuery) -> Result<QueryReply, Fail>
    ensures { Meets (λ y. y) result (answer_query state.now user.now q.now) }
{
    match bound(alloc, state.types(), &q.statement) {
        Ok(bound) => {
            let reply = answer_bound(alloc, state, user, q, &bound)?;
            Ok(reply)
        }
        Err(fail) => Err(fail),
    }
}
