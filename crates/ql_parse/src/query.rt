//! Reading queries.
ghost use Rattle.std.specs.Prelude.{◌≡◌, [], ◌∷◌, None, Some};
ghost use Rattle.ql_grammar.specs.Grammar as grammar;
ghost use Rattle.ql_grammar.specs.Reads.{Reads};
ghost use Rattle.ql_parse.specs.Wholes.{IsWhole};
ghost use Rattle.ql_parse.specs.Texts.{deepest};

use crate::condition::condition;
use crate::order::order;
use crate::select::{selection, table};
use cm_base::items::Items;
use ql_grammar::reader::{at, past, split, word};
use ql_grammar::stop::{Halt, Stop};
use ql_lex::token::Token;
use ql_lex::word::Word;
use ql_tree::tree::{Cond, Key, Query, Selection, Table};
use std::alloc::Global;

fn all_rows(alloc: Global, list: Selection, table: Table) -> Query
    ensures { result ≡ grammar.all_rows list table }
{
    Query {
        list,
        table,
        filter: None,
        keys: Items::new(alloc),
    }
}

/// `SELECT list FROM table`
fn select<'a>(alloc: Global, tokens: &'a [Token<'a>]) -> Result<(Query, &'a [Token<'a>]), Stop<'a>>
    ensures { Reads grammar.select (λ x. (x.0, x.1.now)) tokens.now result }
{
    let rest = word(tokens, Word::Select)?;
    let (list, rest) = selection(alloc, rest)?;
    let rest = word(rest, Word::From)?;
    let (named, rest) = table(alloc, rest)?;
    Ok((all_rows(alloc, list, named), rest))
}

fn filtered(query: Query, filter: Cond) -> Query
    ensures { result ≡ grammar.filtered query filter }
{
    let Query {
        list,
        table,
        filter: _,
        keys,
    } = query;
    Query {
        list,
        table,
        filter: Some(filter),
        keys,
    }
}

/// `SELECT list FROM table [WHERE cond]`
fn chosen<'a>(
    alloc: Global,
    depth: usize,
    tokens: &'a [Token<'a>],
) -> Result<(Query, &'a [Token<'a>]), Stop<'a>>
    ensures { Reads (grammar.chosen depth) (λ x. (x.0, x.1.now)) tokens.now result }
{
    let (found, rest) = select(alloc, tokens)?;
    match past(rest, Word::Where) {
        Some(rest) => {
            let (filter, rest) = condition(alloc, depth, rest)?;
            Ok((filtered(found, filter), rest))
        }
        None => Ok((found, rest)),
    }
}

fn sorted(query: Query, keys: Items<Key>) -> Query
    ensures { result ≡ grammar.sorted query keys }
{
    let Query {
        list,
        table,
        filter,
        keys: _,
    } = query;
    Query {
        list,
        table,
        filter,
        keys,
    }
}

/// `SELECT list FROM table [WHERE cond] [ORDER BY key {, key}]`
pub fn query<'a>(
    alloc: Global,
    depth: usize,
    tokens: &'a [Token<'a>],
) -> Result<(Query, &'a [Token<'a>]), Stop<'a>>
    ensures { Reads (grammar.query depth) (λ x. (x.0, x.1.now)) tokens.now result }
{
    let (found, rest) = chosen(alloc, depth, tokens)?;
    if at(rest, Word::Order) {
        let (keys, rest) = order(alloc, rest)?;
        return Ok((sorted(found, keys), rest));
    }
    Ok((found, rest))
}

/// How deep parentheses and NOT may nest in a condition.
#[tactic(auto, unfolding(crate::specs::Texts::deepest))]
fn deepest() -> usize
    ensures { result ≡ deepest }
{
    64
}

/// A query at the front of the tokens.
fn front<'a>(alloc: Global, tokens: &'a [Token<'a>]) -> Result<(Query, &'a [Token<'a>]), Stop<'a>>
    ensures { Reads (grammar.query deepest) (λ x. (x.0, x.1.now)) tokens.now result }
{
    query(alloc, deepest(), tokens)
}

/// The query that all of the tokens spell, or why they spell none.
pub fn whole<'a>(alloc: Global, tokens: &'a [Token<'a>]) -> Result<Query, Stop<'a>>
    ensures { IsWhole (grammar.query deepest) tokens.now result }
{
    let (found, rest) = front(alloc, tokens)?;
    match split(rest) {
        None => Ok(found),
        Some(_) => Err(Stop::At(Halt::Here(rest))),
    }
}
