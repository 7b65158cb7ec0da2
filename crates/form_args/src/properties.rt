//! The properties that a form gives.
ghost use Rattle.std.specs.Prelude.{◌≡◌, [], ◌∷◌, bytes_eq, IfOk};
ghost use Rattle.std.specs.List.{list_any};
ghost use Rattle.cm_base.specs.Judged.{Meets};
ghost use Rattle.form_args.specs.Properties.{most_properties, most_values, has_some, given_under, given_at, givens_from, repeats, is_long, properties_of, names_type, typed};

use crate::lists::{indexed, texts};
use crate::pairs::Pairs;
use cm_base::argument::Argument;
use cm_base::cause::Cause;
use cm_base::copies::Copies;
use cm_base::fail::Fail;
use cm_base::items::Items;
use cm_base::text::{Text, Texts};
use cm_types::given::{Given, Givens};
use std::alloc::{AllocError, Global};

const OBJECT_TYPE_ID: &str = "cmis:objectTypeId";

const PROPERTY_ID: &str = "propertyId";

const PROPERTY_VALUE: &str = "propertyValue";

// A call gives at most so many properties.
#[tactic(auto, unfolding(crate::specs::Properties::most_properties))]
fn most_properties() -> usize
    ensures { result ≡ most_properties }
{
    16
}

// One property has at most so many values.
#[tactic(auto, unfolding(crate::specs::Properties::most_values))]
fn most_values() -> usize
    ensures { result ≡ most_values }
{
    1024
}

fn has_some(texts: &[Text]) -> bool
    ensures { result ≡ has_some texts.now }
{
    match texts {
        [] => false,
        [_, ..] => true,
    }
}

fn one(alloc: Global, value: &Text) -> Result<Texts, AllocError>
    ensures { IfOk result (λ v. v ≡ value.now ∷ []) }
{
    let mut texts = Vec::new(alloc);
    texts.push(value.copied(alloc)?)?;
    Ok(Items::from_vec(texts))
}

fn given_under(
    alloc: Global,
    pairs: &Pairs,
    name: &str,
    i: usize,
    id: &Text,
) -> Result<Given, AllocError>
    ensures { IfOk result (λ g. g ≡ given_under pairs.now name.now i id.now) }
{
    let key = indexed(alloc, name, i)?;
    let id = id.copied(alloc)?;
    match pairs.first(key.as_str()) {
        Some(value) => Ok(Given {
            id,
            texts: one(alloc, value)?,
            several: false,
        }),
        None => {
            let texts = texts(alloc, pairs, key.as_str())?;
            let several = has_some(texts.as_slice());
            Ok(Given { id, texts, several })
        }
    }
}

fn given_at(alloc: Global, pairs: &Pairs, i: usize, id: &Text) -> Result<Given, AllocError>
    ensures { IfOk result (λ g. g ≡ given_at pairs.now i id.now) }
{
    let given = given_under(alloc, pairs, PROPERTY_VALUE, i, id)?;
    Ok(given)
}

fn givens(alloc: Global, pairs: &Pairs, ids: &[Text]) -> Result<Givens, AllocError>
    ensures { IfOk result (λ v. v ≡ givens_from pairs.now 0 ids.now) }
{
    let mut givens = Vec::new(alloc);
    for (i, id) in ids.iter().enumerate() {
        givens.push(given_at(alloc, pairs, i, id)?)?;
    }
    Ok(Items::from_vec(givens))
}

fn is_in(id: &Text, ids: &[Text]) -> bool
    ensures { result ≡ list_any (λ y. bytes_eq y id.now) ids.now }
{
    ids.iter().any(|y| y.as_str() == id.as_str())
}

fn repeats(ids: &[Text]) -> bool
    ensures { result ≡ repeats ids.now }
{
    match ids {
        [] => false,
        [id, rest @ ..] => is_in(id, rest) || repeats(rest),
    }
}

fn is_long(given: &Given) -> bool
    ensures { result ≡ is_long given.now }
{
    most_values() < given.texts.len()
}

fn has_long(givens: &[Given]) -> bool
    ensures { result ≡ list_any is_long givens.now }
{
    givens.iter().any(|g| is_long(g))
}

/// The properties that a form gives, in their order. More than 16, or one id twice, is BadArgument `propertyId`;
/// more than 1024 values of one is BadArgument `propertyValue`.
pub fn properties(alloc: Global, pairs: &Pairs) -> Result<Givens, Fail>
    ensures { Meets (λ g. g) result (properties_of pairs.now) }
{
    let ids = texts(alloc, pairs, PROPERTY_ID)?;
    if most_properties() < ids.len() {
        return Err(Fail::Refused(Cause::BadArgument(Argument::named(PROPERTY_ID))));
    }
    if repeats(ids.as_slice()) {
        return Err(Fail::Refused(Cause::BadArgument(Argument::named(PROPERTY_ID))));
    }
    let givens = givens(alloc, pairs, ids.as_slice())?;
    if has_long(givens.as_slice()) {
        return Err(Fail::Refused(Cause::BadArgument(Argument::named(PROPERTY_VALUE))));
    }
    Ok(givens)
}

fn names_type(given: &Given) -> bool
    ensures { result ≡ names_type given.now }
{
    given.id.is_str("cmis:objectTypeId") && has_some(given.texts.as_slice())
}

fn names_types(properties: &[Given]) -> bool
    ensures { result ≡ list_any names_type properties.now }
{
    properties.iter().any(|g| names_type(g))
}

/// Whether the properties of a create name a type; else MissingArgument `cmis:objectTypeId`.
pub fn typed(properties: &[Given]) -> Result<(), Cause>
    ensures { result ≡ typed properties.now }
{
    if names_types(properties) {
        Ok(())
    } else {
        Err(Cause::MissingArgument(Argument::named(OBJECT_TYPE_ID)))
    }
}
