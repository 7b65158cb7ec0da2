//! The line that sums a load up.
ghost use Rattle.std.specs.Prelude.{◌≡◌, codes, string_bytes, IfOk};
ghost use Rattle.cm_base.specs.Judged.{Meets};
ghost use Rattle.rd_query.specs.ReadQuery.{answer_query};
ghost use Rattle.cmis_runs.specs.Loads.{all_documents, line, rows_of, summary};

use cm_base::fail::Fail;
use cm_base::text::Text;
use cm_state::state::State;
use include_parts::readings::{IncludeRelationships, Includes};
use query_parts::readings::ReadQuery;
use query_parts::replies::QueryReply;
use rd_query::query::query;
use rendition_parts::filter::RenditionFilter;
use std::alloc::{AllocError, Global};

/// How many rows are shown where nothing is said.
const MOST_ROWS: u64 = 100;

fn all_documents(alloc: Global) -> Result<ReadQuery, AllocError>
    ensures { IfOk result (λ q. q ≡ all_documents) }
{
    let statement = Text::from_str(alloc, "SELECT cmis:objectId FROM cmis:document")?;
    Ok(ReadQuery {
        statement,
        all_versions: false,
        max_items: MOST_ROWS,
        skip_count: 0,
        includes: Includes {
            actions: false,
            relationships: IncludeRelationships::Nothing,
            renditions: RenditionFilter::None,
            policy_ids: false,
            acl: false,
        },
        succinct: false,
    })
}

#[tactic(auto, using(crate::proofs::Asking::asks))]
fn answer(alloc: Global, state: &State) -> Result<QueryReply, Fail>
    ensures { Meets (λ y. y) result (answer_query state.now (codes "admin") all_documents) }
{
    let user = Text::from_str(alloc, "admin")?;
    let asked = all_documents(alloc)?;
    query(alloc, state, &user, &asked)
}

fn rows(alloc: Global, state: &State) -> Result<u64, AllocError>
    ensures { IfOk result (λ n. n ≡ rows_of state.now) }
{
    match answer(alloc, state) {
        Ok(reply) => Ok(reply.num_items),
        Err(Fail::Refused(_)) => Ok(0),
        Err(Fail::Memory) => Err(AllocError),
    }
}

fn line(alloc: Global, steps: u64, objects: u64, rows: u64) -> Result<String, AllocError>
    ensures { IfOk result (λ s. string_bytes s ≡ line steps objects rows) }
{
    format!(in alloc; "steps {steps} objects {objects} rows {rows}\n")
}

/// The steps that the repository has taken, its objects, the root among them, and the rows that the query finds.
pub(crate) fn summary(alloc: Global, state: &State) -> Result<String, AllocError>
    ensures { IfOk result (λ s. string_bytes s ≡ summary state.now) }
{
    let steps = state.step();
    let objects = state.len();
    let rows = rows(alloc, state)?;
    let text = line(alloc, steps, objects, rows)?;
    Ok(text)
}
