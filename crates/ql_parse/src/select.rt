//! Reading what a query shows, and its table.
ghost use Rattle.std.specs.Prelude.{◌≡◌};
ghost use Rattle.ql_grammar.specs.Grammar as grammar;
ghost use Rattle.ql_grammar.specs.Reads.{Reads, IsStart};

use cm_base::items::Items;
use cm_base::text::Text;
use ql_grammar::names::{alias, at_alias};
use ql_grammar::parts::{ItemRest, alone};
use ql_grammar::reader::{at, at_plain, name, none_begins, past, plain};
use ql_grammar::stop::Stop;
use ql_lex::token::Token;
use ql_lex::word::Word;
use ql_tree::tree::{Column, Item, Selection, Table};
use std::alloc::Global;

/// `name [[AS] name]`, behind a point.
fn dotted<'a>(
    alloc: Global,
    tokens: &'a [Token<'a>],
) -> Result<(ItemRest, &'a [Token<'a>]), Stop<'a>>
    ensures { Reads grammar.dotted (λ x. (x.0, x.1.now)) tokens.now result }
{
    let (column, rest) = name(alloc, tokens)?;
    if at_alias(rest) {
        let (other, rest) = alias(alloc, rest)?;
        return Ok((ItemRest::Dotted(column, Some(other)), rest));
    }
    Ok((ItemRest::Dotted(column, None), rest))
}

/// `* | name [[AS] name]`, behind a point.
fn behind_dot<'a>(
    alloc: Global,
    tokens: &'a [Token<'a>],
) -> Result<(ItemRest, &'a [Token<'a>]), Stop<'a>>
    ensures { Reads grammar.behind_dot (λ x. (x.0, x.1.now)) tokens.now result }
{
    match past(tokens, Word::Star) {
        Some(rest) => Ok((ItemRest::Star, rest)),
        None => dotted(alloc, tokens),
    }
}

/// `. (* | name [[AS] name]) | [AS] name`
fn item_rest<'a>(
    alloc: Global,
    tokens: &'a [Token<'a>],
) -> Result<(ItemRest, &'a [Token<'a>]), Stop<'a>>
    ensures { Reads grammar.item_rest (λ x. (x.0, x.1.now)) tokens.now result }
{
    match past(tokens, Word::Dot) {
        Some(rest) => behind_dot(alloc, rest),
        None => {
            let (other, rest) = alias(alloc, tokens)?;
            Ok((ItemRest::Alias(other), rest))
        }
    }
}

/// Whether more of an item may stand behind its first name.
fn at_item_rest<'a>(tokens: &'a [Token<'a>]) -> bool
    ensures { IsStart grammar.item_rest.first tokens.now result }
{
    at(tokens, Word::Dot) || at_alias(tokens)
}

fn item_by(begin: Text, rest: ItemRest) -> Item
    ensures { result ≡ grammar.item_by begin rest }
{
    match rest {
        ItemRest::Star => Item::AllOf(begin),
        ItemRest::Dotted(name, alias) => Item::One(
            Column {
                qualifier: Some(begin),
                name,
            },
            alias,
        ),
        ItemRest::Alias(alias) => Item::One(
            Column {
                qualifier: None,
                name: begin,
            },
            Some(alias),
        ),
    }
}

/// `name . * | [name .] name [[AS] name]`, where a name stands at the front.
fn served_item<'a>(
    alloc: Global,
    tokens: &'a [Token<'a>],
) -> Result<(Item, &'a [Token<'a>]), Stop<'a>>
    ensures { Reads grammar.served_item (λ x. (x.0, x.1.now)) tokens.now result }
{
    let (begin, rest) = plain(alloc, tokens)?;
    if at_item_rest(rest) {
        let (more, rest) = item_rest(alloc, rest)?;
        return Ok((item_by(begin, more), rest));
    }
    Ok((
        Item::One(
            Column {
                qualifier: None,
                name: begin,
            },
            None,
        ),
        rest,
    ))
}

/// An item, or why none begins here.
fn item<'a>(alloc: Global, tokens: &'a [Token<'a>]) -> Result<(Item, &'a [Token<'a>]), Stop<'a>>
    ensures { Reads grammar.item (λ x. (x.0, x.1.now)) tokens.now result }
{
    if at_plain(tokens) {
        return served_item(alloc, tokens);
    }
    Err(Stop::At(none_begins(tokens)))
}

fn items<'a>(
    alloc: Global,
    tokens: &'a [Token<'a>],
) -> Result<(Items<Item>, &'a [Token<'a>]), Stop<'a>>
    ensures { Reads (grammar.list_of grammar.item) (λ x. (x.0, x.1.now)) tokens.now result }
{
    let (begin, mut rest) = item(alloc, tokens)?;
    let mut found = alone(alloc, begin)?;
    'commas: loop {
        match past(rest, Word::Comma) {
            Some(after) => {
                let (next, after) = item(alloc, after)?;
                found.push(next)?;
                rest = after;
            }
            None => return Ok((found, rest)),
        }
    }
}

/// `* | item {, item}`
pub fn selection<'a>(
    alloc: Global,
    tokens: &'a [Token<'a>],
) -> Result<(Selection, &'a [Token<'a>]), Stop<'a>>
    ensures { Reads grammar.selection (λ x. (x.0, x.1.now)) tokens.now result }
{
    match past(tokens, Word::Star) {
        Some(rest) => Ok((Selection::All, rest)),
        None => {
            let (found, rest) = items(alloc, tokens)?;
            Ok((Selection::Columns(found), rest))
        }
    }
}

fn served_table<'a>(
    alloc: Global,
    tokens: &'a [Token<'a>],
) -> Result<(Table, &'a [Token<'a>]), Stop<'a>>
    ensures { Reads grammar.served_table (λ x. (x.0, x.1.now)) tokens.now result }
{
    let (name, rest) = plain(alloc, tokens)?;
    if at_alias(rest) {
        let (other, rest) = alias(alloc, rest)?;
        return Ok((
            Table {
                name,
                alias: Some(other),
            },
            rest,
        ));
    }
    Ok((Table { name, alias: None }, rest))
}

/// A table, or why none begins here.
pub fn table<'a>(
    alloc: Global,
    tokens: &'a [Token<'a>],
) -> Result<(Table, &'a [Token<'a>]), Stop<'a>>
    ensures { Reads grammar.table (λ x. (x.0, x.1.now)) tokens.now result }
{
    if at_plain(tokens) {
        return served_table(alloc, tokens);
    }
    Err(Stop::At(none_begins(tokens)))
}
