//! Pairs of names and values, with an index by name where there are many.
ghost use Rattle.std.specs.Prelude.{◌≡◌, ◌<◌, IfOk, Option, option_map, length, ◌++◌, ◌∷◌, []};
ghost use Rattle.std.specs.List.{slice_index_or};
ghost use Rattle.std.specs.Option.{is_some, IfSome};
ghost use Rattle.form_args.specs.Pairs.{first_of, is_given};
ghost use Rattle.form_args.specs.declared.pairs.Pair.{Pair};
ghost use Rattle.form_args.specs.Index.{FindsFirst};
ghost use Rattle.std.specs.BTreeMap.{get_by_text};

use cm_base::text::Text;
use std::alloc::{AllocError, Global};
use std::collections::BTreeMap;
use std::marker::Model;

/// A name and its value.
#[derive(Drop)]
pub struct Pair {
    pub name: Text,
    pub value: Text,
}

/// Pairs in their order. Where there are more than 16, a name is found without going through all of them.
#[derive(Drop)]
pub struct Pairs {
    list: Vec<Pair>,
    // The place of the first pair of each name, where there are many pairs.
    places: Option<BTreeMap<String, usize>>,
}

impl Model for Pairs {
    ghost use Rattle.std.specs.Prelude.{List};
    ghost use Rattle.form_args.specs.declared.pairs.Pair.{Pair};

    ghost Value = { List Pair };

    ghost use Rattle.std.specs.Option.{IfSome};
    ghost use Rattle.std.specs.BTreeMap.{get_by_text};
    ghost use Rattle.form_args.specs.Index.{FindsFirst};

    ghost view = { λ p. p.list.items };

    ghost invariant = { λ p. IfSome p.places (λ m. FindsFirst (get_by_text m) p.list.items) };
}

// Notes the place of a name that has none yet.
fn note(
    alloc: Global,
    places: &mut BTreeMap<String, usize>,
    done: &[Pair],
    pair: &Pair,
) -> Result<(), AllocError>
    requires { FindsFirst (get_by_text places.old) done.now }
    ensures { IfOk result (λ _. FindsFirst (get_by_text places.new) (done.now ++ pair.now ∷ [])) }
{
    if places.get(pair.name.as_str()).is_some() {
        return Ok(());
    }
    let name = String::from_str(alloc, pair.name.as_str())?;
    places.insert(name, done.len())?;
    Ok(())
}

fn places_of(alloc: Global, list: &[Pair]) -> Result<BTreeMap<String, usize>, AllocError>
    ensures { IfOk result (λ m. FindsFirst (get_by_text m) list.now) }
{
    let mut places = BTreeMap::new(alloc);
    for i in 0..list.len() {
        note(alloc, &mut places, &list[..i], &list[i])?;
    }
    Ok(places)
}

// So many pairs are searched one after another: an index of them would take longer to make.
const MOST_SEARCHED: usize = 16;

// The index, where there are many pairs.
fn index_of(alloc: Global, list: &[Pair]) -> Result<Option<BTreeMap<String, usize>>, AllocError>
    ensures { IfOk result (λ o. IfSome o (λ m. FindsFirst (get_by_text m) list.now)) }
{
    if list.len() <= MOST_SEARCHED {
        return Ok(None);
    }
    let places = places_of(alloc, list)?;
    Ok(Some(places))
}

// The value of the pair at a place.
fn value_at(list: &[Pair], place: usize) -> &Text
    requires { place < length list.now }
    ensures { (d : Pair) → result.now ≡ (slice_index_or list.now place d).value }
{
    &list[place].value
}

// The value of the first pair of this name, by the index.
fn first_by<'a>(places: &BTreeMap<String, usize>, list: &'a [Pair], name: &str) -> Option<&'a Text>
    requires { FindsFirst (get_by_text places.now) list.now }
    ensures { option_map (λ t. t.now) result ≡ first_of list.now name.now }
{
    match places.get(name) {
        Some(place) => Some(value_at(list, *place)),
        None => None,
    }
}

// The value of the first pair of this name, one pair after another.
fn first_in<'a>(list: &'a [Pair], name: &str) -> Option<&'a Text>
    ensures { option_map (λ t. t.now) result ≡ first_of list.now name.now }
{
    match list {
        [] => None,
        [pair, rest @ ..] => {
            if pair.name.as_str() == name {
                Some(&pair.value)
            } else {
                first_in(rest, name)
            }
        }
    }
}

impl Pairs {
    /// These pairs.
    pub fn from_vec(alloc: Global, list: Vec<Pair>) -> Result<Pairs, AllocError>
        ensures { IfOk result (λ p. p ≡ list.items) }
    {
        let places = index_of(alloc, &list)?;
        Ok(Pairs { list, places })
    }

    /// How many there are.
    pub fn len(&self) -> usize
        ensures { result ≡ length self.now }
    {
        self.list.len()
    }

    /// The value of the first pair of this name.
    pub fn first(&self, name: &str) -> Option<&Text>
        ensures { option_map (λ t. t.now) result ≡ first_of self.now name.now }
    {
        match &self.places {
            Some(places) => first_by(places, &self.list, name),
            None => first_in(&self.list, name),
        }
    }

    /// Whether an argument is given.
    pub fn has(&self, name: &str) -> bool
        ensures { result ≡ is_given self.now name.now }
    {
        self.first(name).is_some()
    }
}
