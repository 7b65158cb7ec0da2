//! The objects that a form names, each with the change token that stands beside it.
ghost use Rattle.std.specs.Prelude.{◌≡◌, IfOk, codes};
ghost use Rattle.std.specs.Option.{option_copied};
ghost use Rattle.cm_base.specs.Judged.{Meets};
ghost use Rattle.form_args.specs.Pairs.{first_of, indexed};
ghost use Rattle.bind_writes.specs.Bulk.{most_objects, object_at, objects_from, objects_of};

use crate::words::CHANGE_TOKEN;
use bulk_parts::writes::{ObjectIdAndChangeToken, ObjectIdsAndChangeTokens};
use cm_base::argument::Argument;
use cm_base::cause::Cause;
use cm_base::copies::Copies;
use cm_base::fail::Fail;
use cm_base::items::Items;
use cm_base::text::Text;
use form_args::lists::{indexed, texts};
use form_args::pairs::Pairs;
use form_args::words::OBJECT_ID;
use std::alloc::{AllocError, Global};

// A call names at most so many objects.
#[tactic(auto, unfolding(crate::specs::Bulk::most_objects))]
fn most_objects() -> usize
    ensures { result ≡ most_objects }
{
    1000
}

// The token at this place, where it is given.
fn token_at(alloc: Global, pairs: &Pairs, i: usize) -> Result<Option<Text>, AllocError>
    ensures { IfOk result (λ t. t ≡ first_of pairs.now (indexed (codes "changeToken") i)) }
{
    let key = indexed(alloc, CHANGE_TOKEN, i)?;
    match pairs.first(key.as_str()) {
        Some(value) => {
            let value = value.copied(alloc)?;
            Ok(Some(value))
        }
        None => Ok(None),
    }
}

fn object_at(
    alloc: Global,
    pairs: &Pairs,
    i: usize,
    id: &Text,
) -> Result<ObjectIdAndChangeToken, AllocError>
    ensures { IfOk result (λ o. o ≡ object_at pairs.now i id.now) }
{
    let token = token_at(alloc, pairs, i)?;
    let id = id.copied(alloc)?;
    Ok(ObjectIdAndChangeToken { id, token })
}

fn objects(
    alloc: Global,
    pairs: &Pairs,
    ids: &[Text],
) -> Result<ObjectIdsAndChangeTokens, AllocError>
    ensures { IfOk result (λ all. all ≡ objects_from pairs.now 0 ids.now) }
{
    let mut all = Vec::new(alloc);
    for (i, id) in ids.iter().enumerate() {
        all.push(object_at(alloc, pairs, i, id)?)?;
    }
    Ok(Items::from_vec(all))
}

/// The objects that a form names, in their order. More than 1000 are BadArgument `objectId`.
pub(crate) fn objects_of(alloc: Global, pairs: &Pairs) -> Result<ObjectIdsAndChangeTokens, Fail>
    ensures { Meets (λ all. all) result (objects_of pairs.now) }
{
    let ids = texts(alloc, pairs, OBJECT_ID)?;
    if most_objects() < ids.len() {
        return Err(Fail::Refused(Cause::BadArgument(Argument::named(OBJECT_ID))));
    }
    let objects = objects(alloc, pairs, ids.as_slice())?;
    Ok(objects)
}
