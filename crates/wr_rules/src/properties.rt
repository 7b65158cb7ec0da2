//! What a call gives for the properties that every object has.
ghost use Rattle.std.specs.Prelude.{◌≡◌, [], ◌∷◌, IfOk, is_some};
ghost use Rattle.std.specs.Option.{option_copied};
ghost use Rattle.cm_types.specs.Properties.{given_of, given_texts};
ghost use Rattle.wr_rules.specs.Rules.{first_text, given_text, name_in, type_id_in, secondary_in};

use crate::firsts::distinct;
use cm_base::copies::Copies;
use cm_base::text::{Text, Texts};
use cm_types::given::Given;
use std::alloc::{AllocError, Global};

fn find_given<'a>(given: &'a [Given], id: &str) -> Option<&'a Given>
    ensures { option_copied result ≡ given_of given.now id.now }
{
    given.iter().find(|g| g.id.is_str(id))
}

/// Whether something is given for the property of this id.
pub fn is_given(given: &[Given], id: &str) -> bool
    ensures { result ≡ is_some (given_of given.now id.now) }
{
    find_given(given, id).is_some()
}

/// The texts that are given for the property of this id.
pub fn given_texts<'a>(given: &'a [Given], id: &str) -> &'a [Text]
    ensures { result.now ≡ given_texts given.now id.now }
{
    match find_given(given, id) {
        Some(one) => one.texts.as_slice(),
        None => &[],
    }
}

fn first_text(alloc: Global, texts: &[Text]) -> Result<Text, AllocError>
    ensures { IfOk result (λ t. t ≡ first_text texts.now) }
{
    match texts {
        [] => Ok(Text::empty(alloc)),
        [first, ..] => first.copied(alloc),
    }
}

fn given_text(alloc: Global, given: &[Given], id: &str) -> Result<Text, AllocError>
    ensures { IfOk result (λ t. t ≡ given_text given.now id.now) }
{
    first_text(alloc, given_texts(given, id))
}

/// The name that is given, or the empty text.
pub fn name_in(alloc: Global, given: &[Given]) -> Result<Text, AllocError>
    ensures { IfOk result (λ t. t ≡ name_in given.now) }
{
    given_text(alloc, given, "cmis:name")
}

/// The id of the type that is given, or the empty text.
pub fn type_id_in(alloc: Global, given: &[Given]) -> Result<Text, AllocError>
    ensures { IfOk result (λ t. t ≡ type_id_in given.now) }
{
    given_text(alloc, given, "cmis:objectTypeId")
}

/// The ids of the secondary types that are given (CMIS 1.1, section 2.1.9), each where it stands first.
pub fn secondary_in(alloc: Global, given: &[Given]) -> Result<Texts, AllocError>
    ensures { IfOk result (λ ts. ts ≡ secondary_in given.now) }
{
    distinct(alloc, given_texts(given, "cmis:secondaryObjectTypeIds"))
}
