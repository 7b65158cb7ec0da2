//! The argument orderBy.
ghost use Rattle.std.specs.Prelude.{◌≡◌, [], map, IfOk, option_and_then, option_map};
ghost use Rattle.cm_base.specs.Judged.{Meets};
ghost use Rattle.form_args.specs.Filter.{commas, each_onto, words};
ghost use Rattle.bind_readings.specs.Order.{direction_of, has_blank_at, has_blank_end, is_blank, is_descending, named, order_by, order_of, read_order, read_specification, specification_in};

use cm_base::argument::Argument;
use cm_base::cause::Cause;
use cm_base::fail::Fail;
use cm_base::items::Items;
use cm_base::text::Text;
use form_args::filter::{commas, words};
use form_args::pairs::Pairs;
use order_parts::readings::{ORDER_BY, SortSpecification, SortSpecifications};
use ql_lex::word::{Word, keyword_of};
use std::alloc::{AllocError, Global};
use type_keys::word::is_query_name;

fn is_blank(byte: u8) -> bool
    ensures { result ≡ is_blank byte }
{
    byte == b' ' || byte == b'\t'
}

fn has_blank_at(bytes: &[u8], place: usize) -> bool
    ensures { result ≡ has_blank_at bytes.now place }
{
    match bytes.get(place) {
        Some(byte) => is_blank(*byte),
        None => false,
    }
}

fn has_blank_end(text: &str) -> bool
    ensures { result ≡ has_blank_end text.now }
{
    let bytes = text.as_bytes();
    has_blank_at(bytes, 0) || has_blank_at(bytes, bytes.len().saturating_sub(1))
}

fn is_descending(word: Word) -> Option<bool>
    ensures { result ≡ is_descending word }
{
    match word {
        Word::Asc => Some(false),
        Word::Desc => Some(true),
        _ => None,
    }
}

fn direction_of(text: &str) -> Option<bool>
    ensures { result ≡ direction_of text.now }
{
    match keyword_of(text.as_bytes()) {
        Some(word) => is_descending(word),
        None => None,
    }
}

fn named(
    alloc: Global,
    name: &str,
    descending: bool,
) -> Result<Option<SortSpecification>, AllocError>
    ensures { IfOk result (λ s. s ≡ named name.now descending) }
{
    if !is_query_name(name) {
        return Ok(None);
    }
    let query_name = Text::from_str(alloc, name)?;
    Ok(Some(SortSpecification {
        query_name,
        descending,
    }))
}

fn with_direction(
    alloc: Global,
    name: &str,
    direction: &str,
) -> Result<Option<SortSpecification>, AllocError>
    ensures { IfOk result (λ s. s ≡ option_and_then (named name.now) (direction_of direction.now)) }
{
    match direction_of(direction) {
        Some(descending) => named(alloc, name, descending),
        None => Ok(None),
    }
}

fn specification_in(alloc: Global, words: &[&str]) -> Result<Option<SortSpecification>, AllocError>
    ensures { IfOk result (λ s. s ≡ specification_in (map (λ x. x.now) words.now)) }
{
    match words {
        [name] => named(alloc, name, false),
        [name, direction] => with_direction(alloc, name, direction),
        _ => Ok(None),
    }
}

fn specification_of(alloc: Global, item: &str) -> Result<Option<SortSpecification>, AllocError>
    ensures { IfOk result (λ s. s ≡ specification_in (words item.now)) }
{
    let words = words(alloc, item)?;
    let specification = specification_in(alloc, &words)?;
    Ok(specification)
}

fn read_specification(alloc: Global, item: &str) -> Result<SortSpecification, Fail>
    ensures { Meets (λ s. s) result (read_specification item.now) }
{
    let found = specification_of(alloc, item)?;
    match found {
        Some(specification) => Ok(specification),
        None => Err(Fail::Refused(Cause::BadArgument(Argument::named(ORDER_BY)))),
    }
}

fn specifications_in(alloc: Global, texts: &[&str]) -> Result<SortSpecifications, Fail>
    ensures { Meets (λ all. all) result (each_onto read_specification [] (map (λ x. x.now) texts.now)) }
{
    let mut all = Vec::new(alloc);
    for text in texts {
        let specification = read_specification(alloc, text)?;
        all.push(specification)?;
    }
    Ok(Items::from_vec(all))
}

fn read_items(alloc: Global, text: &str) -> Result<SortSpecifications, Fail>
    ensures { Meets (λ all. all) result (each_onto read_specification [] (commas text.now)) }
{
    let items = commas(alloc, text)?;
    let all = specifications_in(alloc, &items)?;
    Ok(all)
}

fn read_order(alloc: Global, text: &str) -> Result<SortSpecifications, Fail>
    ensures { Meets (λ all. all) result (read_order text.now) }
{
    if has_blank_end(text) {
        Err(Fail::Refused(Cause::BadArgument(Argument::named(ORDER_BY))))
    } else {
        read_items(alloc, text)
    }
}

fn order_by(alloc: Global, given: Option<&Text>) -> Result<SortSpecifications, Fail>
    ensures { Meets (λ all. all) result (order_by (option_map (λ t. t.now) given.entry)) }
{
    match given {
        None => Ok(Items::new(alloc)),
        Some(text) => read_order(alloc, text.as_str()),
    }
}

/// The order that is asked for: none, or a comma list of query names, each with ASC or DESC behind it perhaps, in any case of their
/// letters. Blanks stand between a name and its direction, and around the commas. Another form is BadArgument `orderBy`.
pub fn order_of(alloc: Global, pairs: &Pairs) -> Result<SortSpecifications, Fail>
    ensures { Meets (λ all. all) result (order_of pairs.now) }
{
    order_by(alloc, pairs.first(ORDER_BY))
}
