//! The property filter.
ghost use Rattle.std.specs.Prelude.{◌≡◌, ◌++◌, ◌∷◌, [], map, filter, Some, None, option_map, IfOk};
ghost use Rattle.std.specs.List.{flat_map};
ghost use Rattle.std.specs.Result.{OnOk};
ghost use Rattle.cm_base.specs.Judged.{Meets};
ghost use Rattle.form_args.specs.Filter.{commas, spaces, tabs, has_bytes, words, one_word, each_onto, name_in, is_star, read_filter, filter_by, filter_of};

use crate::pairs::Pairs;
use call_parts::names::Names;
use call_parts::readings::PropertyFilter;
use cm_base::cause::Cause;
use cm_base::fail::Fail;
use cm_base::items::Items;
use cm_base::text::{Text, Texts};
use std::alloc::{AllocError, Global};

const FILTER: &str = "filter";

/// What stands between the commas of a text.
pub fn commas<'a>(alloc: Global, text: &'a str) -> Result<Vec<&'a str>, AllocError>
    ensures { IfOk result (λ v. map (λ x. x.now) v.items ≡ commas text.now) }
{
    text.split(',').collect(alloc)
}

fn spaces<'a>(alloc: Global, text: &'a str) -> Result<Vec<&'a str>, AllocError>
    ensures { IfOk result (λ v. map (λ x. x.now) v.items ≡ spaces text.now) }
{
    text.split(' ').collect(alloc)
}

fn tabs<'a>(alloc: Global, text: &'a str) -> Result<Vec<&'a str>, AllocError>
    ensures { IfOk result (λ v. map (λ x. x.now) v.items ≡ tabs text.now) }
{
    text.split('\t').collect(alloc)
}

fn add_word<'a>(words: &mut Vec<&'a str>, word: &'a str) -> Result<(), AllocError>
    ensures { OnOk result (map (λ x. x.now) words.new.items
        ≡ map (λ x. x.now) words.old.items ++ filter has_bytes (word.now ∷ [])) }
{
    if !word.is_empty() {
        words.push(word)?;
    }
    Ok(())
}

fn add_words<'a>(words: &mut Vec<&'a str>, more: &[&'a str]) -> Result<(), AllocError>
    ensures { OnOk result (map (λ x. x.now) words.new.items
        ≡ map (λ x. x.now) words.old.items ++ filter has_bytes (map (λ x. x.now) more.now)) }
{
    for word in more {
        add_word(words, word)?;
    }
    Ok(())
}

fn words_in<'a>(alloc: Global, parts: &[&'a str]) -> Result<Vec<&'a str>, AllocError>
    ensures { IfOk result (λ v. map (λ x. x.now) v.items
        ≡ filter has_bytes (flat_map tabs (map (λ x. x.now) parts.now))) }
{
    let mut words = Vec::new(alloc);
    for part in parts {
        let more = tabs(alloc, part)?;
        add_words(&mut words, &more)?;
    }
    Ok(words)
}

/// The words of a text: what stands between its blanks, which are spaces and tabs.
pub fn words<'a>(alloc: Global, text: &'a str) -> Result<Vec<&'a str>, AllocError>
    ensures { IfOk result (λ v. map (λ x. x.now) v.items ≡ words text.now) }
{
    let parts = spaces(alloc, text)?;
    words_in(alloc, &parts)
}

fn one_word(alloc: Global, words: &[&str]) -> Result<Text, Fail>
    ensures { Meets (λ t. t) result (one_word (map (λ x. x.now) words.now)) }
{
    match words {
        [word] => {
            let word = Text::from_str(alloc, word)?;
            Ok(word)
        }
        _ => Err(Fail::Refused(Cause::BadFilter)),
    }
}

fn name_in(alloc: Global, piece: &str) -> Result<Text, Fail>
    ensures { Meets (λ t. t) result (name_in piece.now) }
{
    let words = words(alloc, piece)?;
    one_word(alloc, &words)
}

fn names_in(alloc: Global, pieces: &[&str]) -> Result<Texts, Fail>
    ensures { Meets (λ v. v) result (each_onto name_in [] (map (λ x. x.now) pieces.now)) }
{
    let mut names = Vec::new(alloc);
    for piece in pieces {
        let name = name_in(alloc, piece)?;
        names.push(name)?;
    }
    Ok(Items::from_vec(names))
}

fn is_star(words: &[&str]) -> bool
    ensures { result ≡ is_star (map (λ x. x.now) words.now) }
{
    match words {
        [word] => *word == "*",
        _ => false,
    }
}

fn has_star(alloc: Global, text: &str) -> Result<bool, AllocError>
    ensures { IfOk result (λ b. b ≡ is_star (words text.now)) }
{
    let words = words(alloc, text)?;
    Ok(is_star(&words))
}

fn read_filter(alloc: Global, text: &str) -> Result<PropertyFilter, Fail>
    ensures { Meets (λ f. f) result (read_filter text.now) }
{
    if has_star(alloc, text)? {
        return Ok(PropertyFilter::All);
    }
    let pieces = commas(alloc, text)?;
    let names = names_in(alloc, &pieces)?;
    let names = Names::from_texts(alloc, names)?;
    Ok(PropertyFilter::QueryNames(names))
}

fn filter_by(alloc: Global, given: Option<&Text>) -> Result<PropertyFilter, Fail>
    ensures { Meets (λ f. f) result (filter_by (option_map (λ t. t.now) given.entry)) }
{
    match given {
        None => Ok(PropertyFilter::All),
        Some(text) => read_filter(alloc, text.as_str()),
    }
}

/// The properties that a reply is to show: all without a filter or with `*`, else those of a comma list of query names, blanks
/// around them dropped. An empty name, or a blank inside one, is BadFilter.
pub fn property_filter(alloc: Global, pairs: &Pairs) -> Result<PropertyFilter, Fail>
    ensures { Meets (λ f. f) result (filter_of pairs.now) }
{
    filter_by(alloc, pairs.first(FILTER))
}
