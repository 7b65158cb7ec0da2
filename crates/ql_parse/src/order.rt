//! Reading what rows are ordered by.
ghost use Rattle.ql_grammar.specs.Grammar as grammar;
ghost use Rattle.ql_grammar.specs.Reads.{Reads, Finds, IsStart};

use cm_base::items::Items;
use ql_grammar::names::column;
use ql_grammar::parts::alone;
use ql_grammar::reader::{at, meaning, past, word};
use ql_grammar::stop::{Halt, Stop};
use ql_lex::token::Token;
use ql_lex::word::Word;
use ql_tree::tree::Key;
use std::alloc::Global;

/// `ASC | DESC`: whether DESC is said.
fn direction<'a>(tokens: &'a [Token<'a>]) -> Result<(bool, &'a [Token<'a>]), Halt<'a>>
    ensures { Finds grammar.direction (λ x. (x.0, x.1.now)) tokens.now result }
{
    match past(tokens, Word::Asc) {
        Some(rest) => Ok((false, rest)),
        None => meaning(tokens, Word::Desc, true),
    }
}

/// Whether ASC or DESC stands at the front.
fn at_direction<'a>(tokens: &'a [Token<'a>]) -> bool
    ensures { IsStart grammar.direction.first tokens.now result }
{
    at(tokens, Word::Asc) || at(tokens, Word::Desc)
}

/// `column [ASC | DESC]`
fn key<'a>(alloc: Global, tokens: &'a [Token<'a>]) -> Result<(Key, &'a [Token<'a>]), Stop<'a>>
    ensures { Reads grammar.key (λ x. (x.0, x.1.now)) tokens.now result }
{
    let (by, rest) = column(alloc, tokens)?;
    if at_direction(rest) {
        let (descending, rest) = direction(rest)?;
        return Ok((
            Key {
                column: by,
                descending,
            },
            rest,
        ));
    }
    Ok((
        Key {
            column: by,
            descending: false,
        },
        rest,
    ))
}

/// `key {, key}`
fn keys<'a>(
    alloc: Global,
    tokens: &'a [Token<'a>],
) -> Result<(Items<Key>, &'a [Token<'a>]), Stop<'a>>
    ensures { Reads (grammar.list_of grammar.key) (λ x. (x.0, x.1.now)) tokens.now result }
{
    let (begin, mut rest) = key(alloc, tokens)?;
    let mut found = alone(alloc, begin)?;
    'commas: loop {
        match past(rest, Word::Comma) {
            Some(after) => {
                let (next, after) = key(alloc, after)?;
                found.push(next)?;
                rest = after;
            }
            None => return Ok((found, rest)),
        }
    }
}

/// `ORDER BY key {, key}`
pub fn order<'a>(
    alloc: Global,
    tokens: &'a [Token<'a>],
) -> Result<(Items<Key>, &'a [Token<'a>]), Stop<'a>>
    ensures { Reads grammar.order (λ x. (x.0, x.1.now)) tokens.now result }
{
    let rest = word(tokens, Word::Order)?;
    let rest = word(rest, Word::By)?;
    let (found, rest) = keys(alloc, rest)?;
    Ok((found, rest))
}
