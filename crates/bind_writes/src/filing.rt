//! The arguments of move, addObjectToFolder and removeObjectFromFolder.
ghost use Rattle.std.specs.Prelude.{◌≡◌};
ghost use Rattle.cm_base.specs.Judged.{Meets};
ghost use Rattle.form_args.specs.Single.{needed};
ghost use Rattle.bind_writes.specs.Filing.{move_of, add_to_folder_of, remove_from_folder_of};

use bind_parts::asking::Asking;
use bind_parts::parts::{place_of, text_of};
use call_parts::changes::{AddToFolder, MoveObject, RemoveFromFolder};
use cm_base::argument::Argument;
use cm_base::cause::Cause;
use cm_base::copies::Copies;
use cm_base::fail::Fail;
use cm_base::text::Text;
use form_args::choice::flag;
use form_args::pairs::Pairs;
use form_args::words::SUCCINCT;
use std::alloc::Global;

const FOLDER_ID: &str = "folderId";

const SOURCE_FOLDER_ID: &str = "sourceFolderId";

const TARGET_FOLDER_ID: &str = "targetFolderId";

// The value of an argument that must be given.
fn needed(alloc: Global, pairs: &Pairs, name: &'static str) -> Result<Text, Fail>
    ensures { Meets (λ t. t) result (needed pairs.now name.now) }
{
    match pairs.first(name) {
        None => Err(Fail::Refused(Cause::MissingArgument(Argument::named(name)))),
        Some(value) => {
            let value = value.copied(alloc)?;
            Ok(value)
        }
    }
}

/// The move that the arguments make, or the first of their causes.
#[tactic(auto, using(cm_types::proofs::Exits::fails_bind))]
pub fn move_of(alloc: Global, asking: &Asking) -> Result<MoveObject, Fail>
    ensures { Meets (λ c. c) result (move_of asking.now) }
{
    let pairs = &asking.form.pairs;
    let succinct = flag(pairs, SUCCINCT, false)?;
    let source = needed(alloc, pairs, SOURCE_FOLDER_ID)?;
    let target = needed(alloc, pairs, TARGET_FOLDER_ID)?;
    Ok(MoveObject {
        place: place_of(alloc, asking)?,
        source,
        target,
        succinct,
    })
}

/// The addObjectToFolder that the arguments make, or the first of their causes.
#[tactic(auto, using(cm_types::proofs::Exits::fails_bind))]
pub fn add_to_folder_of(alloc: Global, asking: &Asking) -> Result<AddToFolder, Fail>
    ensures { Meets (λ c. c) result (add_to_folder_of asking.now) }
{
    let pairs = &asking.form.pairs;
    let succinct = flag(pairs, SUCCINCT, false)?;
    let folder = needed(alloc, pairs, FOLDER_ID)?;
    Ok(AddToFolder {
        place: place_of(alloc, asking)?,
        folder,
        succinct,
    })
}

/// The removeObjectFromFolder that the arguments make, or the first of their causes.
#[tactic(auto, using(cm_types::proofs::Exits::fails_bind))]
pub fn remove_from_folder_of(alloc: Global, asking: &Asking) -> Result<RemoveFromFolder, Fail>
    ensures { Meets (λ c. c) result (remove_from_folder_of asking.now) }
{
    let pairs = &asking.form.pairs;
    let succinct = flag(pairs, SUCCINCT, false)?;
    Ok(RemoveFromFolder {
        place: place_of(alloc, asking)?,
        folder: text_of(alloc, pairs, FOLDER_ID)?,
        succinct,
    })
}
