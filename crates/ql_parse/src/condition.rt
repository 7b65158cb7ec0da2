//! Reading conditions: AND, OR, NOT and parentheses over tests.
ghost use Rattle.std.specs.Prelude.{◌≡◌, ◌<◌, IfOk};
ghost use Rattle.ql_tree.specs.declared.tree.Cond.TheVariants as conds;
ghost use Rattle.ql_grammar.specs.Grammar as grammar;
ghost use Rattle.ql_grammar.specs.Reads.{Reads};
ghost use Rattle.ql_parse.specs.Wholes.{IsOpened};

use ql_grammar::reader::{none_begins, past, word};
use ql_grammar::stop::Stop;
use ql_grammar::tests::{at_simple, simple};
use ql_lex::token::Token;
use ql_lex::word::Word;
use ql_tree::tree::Cond;
use sqlite_items::Boxed;
use std::alloc::{AllocError, Global};

fn negation(alloc: Global, inner: Cond) -> Result<Cond, AllocError>
    ensures { IfOk result (λ x. x ≡ conds.Not inner) }
{
    Ok(Cond::Not(Boxed::new(alloc, inner)?))
}

fn conjoined(alloc: Global, left: Cond, right: Cond) -> Result<Cond, AllocError>
    ensures { IfOk result (λ x. x ≡ conds.And left right) }
{
    Ok(Cond::And(Boxed::new(alloc, left)?, Boxed::new(alloc, right)?))
}

fn disjoined(alloc: Global, left: Cond, right: Cond) -> Result<Cond, AllocError>
    ensures { IfOk result (λ x. x ≡ conds.Or left right) }
{
    Ok(Cond::Or(Boxed::new(alloc, left)?, Boxed::new(alloc, right)?))
}

/// The depth that is left, and the tokens after a word that opens one more level, if it stands at the front and there is one.
fn opened<'a>(depth: usize, tokens: &'a [Token<'a>], word: Word) -> Option<(usize, &'a [Token<'a>])>
    ensures { IsOpened word depth (λ x. (x.0, x.1.now)) tokens.now result }
{
    match past(tokens, word) {
        Some(rest) => {
            if depth > 0 {
                Some((depth - 1, rest))
            } else {
                None
            }
        }
        None => None,
    }
}

/// `(cond)` or a simple test.
#[cycle(condition)]
fn test<'a>(
    alloc: Global,
    depth: usize,
    tokens: &'a [Token<'a>],
) -> Result<(Cond, &'a [Token<'a>]), Stop<'a>>
    ensures { Reads (grammar.level depth).test (λ x. (x.0, x.1.now)) tokens.now result }
{
    match opened(depth, tokens, Word::Open) {
        Some((below, rest)) => {
            let (inner, rest) = condition(alloc, below, rest)?;
            let rest = word(rest, Word::Close)?;
            Ok((inner, rest))
        }
        None => {
            if at_simple(tokens) {
                return simple(alloc, tokens);
            }
            Err(Stop::At(none_begins(tokens)))
        }
    }
}

/// `[NOT] test`
#[cycle(condition)]
fn negated<'a>(
    alloc: Global,
    depth: usize,
    tokens: &'a [Token<'a>],
) -> Result<(Cond, &'a [Token<'a>]), Stop<'a>>
    ensures { Reads (grammar.level depth).negated (λ x. (x.0, x.1.now)) tokens.now result }
{
    match opened(depth, tokens, Word::Not) {
        Some((below, rest)) => {
            let (inner, rest) = test(alloc, below, rest)?;
            Ok((negation(alloc, inner)?, rest))
        }
        None => test(alloc, depth, tokens),
    }
}

/// `not {AND not}`
#[cycle(condition)]
fn conjunction<'a>(
    alloc: Global,
    depth: usize,
    tokens: &'a [Token<'a>],
) -> Result<(Cond, &'a [Token<'a>]), Stop<'a>>
    ensures { Reads (grammar.conjunction (grammar.level depth).negated) (λ x. (x.0, x.1.now)) tokens.now result }
{
    let (mut found, mut rest) = negated(alloc, depth, tokens)?;
    'ands: loop {
        match past(rest, Word::And) {
            Some(after) => {
                let (next, after) = negated(alloc, depth, after)?;
                found = conjoined(alloc, found, next)?;
                rest = after;
            }
            None => return Ok((found, rest)),
        }
    }
}

/// `and {OR and}`, a condition in which parentheses and NOT nest at most as deep as said.
#[cycle(condition)]
pub fn condition<'a>(
    alloc: Global,
    depth: usize,
    tokens: &'a [Token<'a>],
) -> Result<(Cond, &'a [Token<'a>]), Stop<'a>>
    ensures { Reads (grammar.cond depth) (λ x. (x.0, x.1.now)) tokens.now result }
{
    let (mut found, mut rest) = conjunction(alloc, depth, tokens)?;
    'ors: loop {
        match past(rest, Word::Or) {
            Some(after) => {
                let (next, after) = conjunction(alloc, depth, after)?;
                found = disjoined(alloc, found, next)?;
                rest = after;
            }
            None => return Ok((found, rest)),
        }
    }
}
