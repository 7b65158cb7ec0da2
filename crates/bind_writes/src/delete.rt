//! The arguments of delete.
ghost use Rattle.std.specs.Prelude.{◌≡◌};
ghost use Rattle.cm_base.specs.Judged.{Meets};
ghost use Rattle.bind_writes.specs.Documents.{is_unfiling, unfiling, delete_of};

use crate::words::{ALL_VERSIONS, CONTINUE_ON_FAILURE, UNFILE_OBJECTS};
use bind_parts::asking::Asking;
use bind_parts::parts::place_of;
use call_parts::versions::Delete;
use cm_base::argument::Argument;
use cm_base::cause::Cause;
use cm_base::fail::Fail;
use form_args::choice::flag;
use form_args::pairs::Pairs;
use std::alloc::Global;

fn is_unfiling(word: &str) -> bool
    ensures { result ≡ is_unfiling word.now }
{
    word == "delete" || (word == "unfile" || word == "deletesinglefiled")
}

fn unfiling(pairs: &Pairs) -> Result<(), Cause>
    ensures { result ≡ unfiling pairs.now }
{
    match pairs.first(UNFILE_OBJECTS) {
        None => Ok(()),
        Some(word) => {
            if is_unfiling(word.as_str()) {
                Ok(())
            } else {
                Err(Cause::BadArgument(Argument::named(UNFILE_OBJECTS)))
            }
        }
    }
}

/// The delete that the arguments make, or the first of their causes. unfileObjects and continueOnFailure are judged, since they are
/// arguments of deleteTree too, and mean nothing here.
#[tactic(auto, using(cm_types::proofs::Exits::fails_bind, cm_types::proofs::Exits::fails_then))]
pub fn delete_of(alloc: Global, asking: &Asking) -> Result<Delete, Fail>
    ensures { Meets (λ c. c) result (delete_of asking.now) }
{
    let pairs = &asking.form.pairs;
    let all_versions = flag(pairs, ALL_VERSIONS, true)?;
    unfiling(pairs)?;
    let _judged = flag(pairs, CONTINUE_ON_FAILURE, false)?;
    let place = place_of(alloc, asking)?;
    Ok(Delete {
        place,
        all_versions,
    })
}
