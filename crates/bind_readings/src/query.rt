//! The arguments of a query, by the selector of a GET and by the action of a POST.
ghost use Rattle.std.specs.Prelude.{◌≡◌, option_copied, IfOk};
ghost use Rattle.cm_base.specs.Judged.{Meets};
ghost use Rattle.bind_readings.specs.Query.{query_of, statement_given, statement_of};

use crate::includes::includes_of;
use crate::words::{INCLUDE_PATH_SEGMENT, INCLUDE_RELATIVE_PATH_SEGMENT, MAX_ITEMS, SKIP_COUNT};
use bind_parts::asking::Asking;
use cm_base::argument::Argument;
use cm_base::cause::Cause;
use cm_base::copies::Copies;
use cm_base::fail::Fail;
use cm_base::text::Text;
use form_args::choice::flag;
use form_args::number::number;
use form_args::pairs::Pairs;
use form_args::words::SUCCINCT;
use query_parts::readings::ReadQuery;
use std::alloc::Global;

const QUERY: &str = "q";

const SEARCH_ALL_VERSIONS: &str = "searchAllVersions";

const STATEMENT: &str = "statement";

fn statement_given(pairs: &Pairs) -> Option<&Text>
    ensures { option_copied result ≡ statement_given pairs.now }
{
    match pairs.first(STATEMENT) {
        Some(text) => Some(text),
        None => pairs.first(QUERY),
    }
}

fn statement_of(alloc: Global, pairs: &Pairs) -> Result<Text, Fail>
    ensures { Meets (λ t. t) result (statement_of pairs.now) }
{
    match statement_given(pairs) {
        None => Err(Fail::Refused(Cause::MissingArgument(Argument::named(STATEMENT)))),
        Some(text) => {
            let text = text.copied(alloc)?;
            Ok(text)
        }
    }
}

/// The question of the selector or action query, or the first cause of its arguments (CMIS 1.1, sections 5.4.2.12 and 5.4.3.1). Path
/// segments are judged, since they are arguments of lists too, and mean nothing here.
#[tactic(auto, using(cm_types::proofs::Exits::fails_bind))]
pub fn query_of(alloc: Global, asking: &Asking) -> Result<ReadQuery, Fail>
    ensures { Meets (λ c. c) result (query_of asking.now) }
{
    let pairs = &asking.form.pairs;
    let succinct = flag(pairs, SUCCINCT, false)?;
    let includes = includes_of(alloc, pairs)?;
    let max_items = number(pairs, MAX_ITEMS, 100)?;
    let skip_count = number(pairs, SKIP_COUNT, 0)?;
    let _judged = flag(pairs, INCLUDE_PATH_SEGMENT, false)?;
    let _relative = flag(pairs, INCLUDE_RELATIVE_PATH_SEGMENT, false)?;
    let statement = statement_of(alloc, pairs)?;
    let all_versions = flag(pairs, SEARCH_ALL_VERSIONS, false)?;
    Ok(ReadQuery {
        statement,
        all_versions,
        max_items,
        skip_count,
        succinct,
        includes,
    })
}
