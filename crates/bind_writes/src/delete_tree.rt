//! The arguments of deleteTree.
ghost use Rattle.std.specs.Prelude.{◌≡◌, codes, IfOk};
ghost use Rattle.cm_base.specs.Judged.{Meets};
ghost use Rattle.cm_base.specs.declared.cause.Cause.TheVariants as causes;
ghost use Rattle.bind_writes.specs.DeleteTree.{delete_tree_of, unfiling_named, unfiling_of, whole_series};

use crate::words::{ALL_VERSIONS, CONTINUE_ON_FAILURE, UNFILE_OBJECTS};
use bind_parts::asking::Asking;
use bind_parts::parts::place_of;
use cm_base::argument::Argument;
use cm_base::cause::Cause;
use cm_base::fail::Fail;
use cm_base::text::Text;
use delete_tree_parts::writes::{DeleteTree, UnfileObjects};
use form_args::choice::flag;
use form_args::pairs::Pairs;
use std::alloc::{AllocError, Global};

fn unfiling_named(word: &str) -> Option<UnfileObjects>
    ensures { result ≡ unfiling_named word.now }
{
    if word == "unfile" {
        Some(UnfileObjects::Unfile)
    } else if word == "deletesinglefiled" {
        Some(UnfileObjects::DeleteSingleFiled)
    } else if word == "delete" {
        Some(UnfileObjects::Delete)
    } else {
        None
    }
}

fn unfiling_of(pairs: &Pairs) -> Result<UnfileObjects, Cause>
    ensures { result ≡ unfiling_of pairs.now }
{
    match pairs.first(UNFILE_OBJECTS) {
        None => Ok(UnfileObjects::Delete),
        Some(word) => match unfiling_named(word.as_str()) {
            Some(unfiling) => Ok(unfiling),
            None => Err(Cause::BadArgument(Argument::named(UNFILE_OBJECTS))),
        },
    }
}

// The cause that tells of the action.
fn not_served(alloc: Global) -> Result<Cause, AllocError>
    ensures { IfOk result (λ c. c ≡ causes.NotServed (codes "deleteTree")) }
{
    let word = Text::from_str(alloc, "deleteTree")?;
    Ok(Cause::NotServed(word))
}

// Single versions of documents can't be deleted.
fn whole_series(alloc: Global, pairs: &Pairs) -> Result<(), Fail>
    ensures { Meets (λ x. x) result (whole_series pairs.now) }
{
    let all_versions = flag(pairs, ALL_VERSIONS, true)?;
    if !all_versions {
        return Err(Fail::Refused(not_served(alloc)?));
    }
    Ok(())
}

/// The deleteTree that the arguments make, or the first of their causes. Documents are deleted by their whole series alone, so
/// allVersions can't be false.
#[tactic(auto, using(cm_types::proofs::Exits::fails_bind, cm_types::proofs::Exits::fails_then))]
pub fn delete_tree_of(alloc: Global, asking: &Asking) -> Result<DeleteTree, Fail>
    ensures { Meets (λ c. c) result (delete_tree_of asking.now) }
{
    let pairs = &asking.form.pairs;
    whole_series(alloc, pairs)?;
    let unfile_objects = unfiling_of(pairs)?;
    let continue_on_failure = flag(pairs, CONTINUE_ON_FAILURE, false)?;
    let place = place_of(alloc, asking)?;
    Ok(DeleteTree {
        place,
        unfile_objects,
        continue_on_failure,
    })
}
