//! What many calls have: the place, and the text of an argument.
ghost use Rattle.std.specs.Prelude.{◌≡◌, IfOk};
ghost use Rattle.form_args.specs.Pairs.{first_of};
ghost use Rattle.bind_parts.specs.Parts.{names_in, place_of};

use crate::asking::Asking;
use call_parts::place::Place;
use cm_base::copies::Copies;
use cm_base::items::Items;
use cm_base::text::{Text, Texts};
use form_args::pairs::Pairs;
use form_args::words::OBJECT_ID;
use request_target::target::Target;
use std::alloc::{AllocError, Global};

fn names_in(alloc: Global, target: &Target) -> Result<Texts, AllocError>
    ensures { IfOk result (λ names. names ≡ names_in target.now) }
{
    match target {
        Target::Service => Ok(Items::new(alloc)),
        Target::Repository => Ok(Items::new(alloc)),
        Target::Object(names) => names.copied(alloc),
    }
}

/// The text of an argument, where it is given.
pub fn text_of(alloc: Global, pairs: &Pairs, name: &str) -> Result<Option<Text>, AllocError>
    ensures { IfOk result (λ t. t ≡ first_of pairs.now name.now) }
{
    match pairs.first(name) {
        None => Ok(None),
        Some(text) => Ok(Some(text.copied(alloc)?)),
    }
}

/// The object that is addressed: by its id where one is given, else by the names on its path.
pub fn place_of(alloc: Global, asking: &Asking) -> Result<Place, AllocError>
    ensures { IfOk result (λ p. p ≡ place_of asking.now) }
{
    match asking.form.pairs.first(OBJECT_ID) {
        None => Ok(Place::Path(names_in(alloc, &asking.address)?)),
        Some(id) => Ok(Place::Id(id.copied(alloc)?)),
    }
}
