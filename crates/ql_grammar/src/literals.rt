//! Reading constants and lists of them.
ghost use Rattle.ql_grammar.specs.Grammar as grammar;
ghost use Rattle.ql_grammar.specs.Reads.{Reads, IsStart};

use crate::parts::alone;
use crate::reader::{at, at_number, at_quoted, digits, moment, none_begins, past, quoted, word};
use crate::stop::Stop;
use cm_base::items::Items;
use ql_lex::token::Token;
use ql_lex::word::Word;
use ql_tree::tree::Literal;
use std::alloc::Global;

/// `FALSE | TIMESTAMP text`
fn false_or_time<'a>(
    alloc: Global,
    tokens: &'a [Token<'a>],
) -> Result<(Literal, &'a [Token<'a>]), Stop<'a>>
    ensures { Reads grammar.false_or_time (λ x. (x.0, x.1.now)) tokens.now result }
{
    match past(tokens, Word::False) {
        Some(rest) => Ok((Literal::Flag(false), rest)),
        None => {
            let rest = word(tokens, Word::Timestamp)?;
            let (time, rest) = moment(alloc, rest)?;
            Ok((Literal::Time(time), rest))
        }
    }
}

/// `TRUE | FALSE | TIMESTAMP text`
fn flag_or_time<'a>(
    alloc: Global,
    tokens: &'a [Token<'a>],
) -> Result<(Literal, &'a [Token<'a>]), Stop<'a>>
    ensures { Reads grammar.flag_or_time (λ x. (x.0, x.1.now)) tokens.now result }
{
    match past(tokens, Word::True) {
        Some(rest) => Ok((Literal::Flag(true), rest)),
        None => false_or_time(alloc, tokens),
    }
}

/// `[-]digits | TRUE | FALSE | TIMESTAMP text`
fn no_text<'a>(
    alloc: Global,
    tokens: &'a [Token<'a>],
) -> Result<(Literal, &'a [Token<'a>]), Stop<'a>>
    ensures { Reads grammar.no_text (λ x. (x.0, x.1.now)) tokens.now result }
{
    if at_number(tokens) {
        let (number, rest) = digits(alloc, tokens)?;
        return Ok((Literal::Whole(number), rest));
    }
    flag_or_time(alloc, tokens)
}

/// `text | [-]digits | TRUE | FALSE | TIMESTAMP text`
pub fn served_literal<'a>(
    alloc: Global,
    tokens: &'a [Token<'a>],
) -> Result<(Literal, &'a [Token<'a>]), Stop<'a>>
    ensures { Reads grammar.served_literal (λ x. (x.0, x.1.now)) tokens.now result }
{
    if at_quoted(tokens) {
        let (text, rest) = quoted(alloc, tokens)?;
        return Ok((Literal::Words(text), rest));
    }
    no_text(alloc, tokens)
}

/// Whether TRUE, FALSE or TIMESTAMP stands at the front.
fn at_flag_or_time<'a>(tokens: &'a [Token<'a>]) -> bool
    ensures { IsStart grammar.flag_or_time.first tokens.now result }
{
    at(tokens, Word::True) || at(tokens, Word::False) || at(tokens, Word::Timestamp)
}

/// Whether a constant begins here.
pub fn at_literal<'a>(tokens: &'a [Token<'a>]) -> bool
    ensures { IsStart grammar.served_literal.first tokens.now result }
{
    at_quoted(tokens) || at_number(tokens) || at_flag_or_time(tokens)
}

/// A constant, or why none begins here.
pub fn literal<'a>(
    alloc: Global,
    tokens: &'a [Token<'a>],
) -> Result<(Literal, &'a [Token<'a>]), Stop<'a>>
    ensures { Reads grammar.literal (λ x. (x.0, x.1.now)) tokens.now result }
{
    if at_literal(tokens) {
        return served_literal(alloc, tokens);
    }
    Err(Stop::At(none_begins(tokens)))
}

fn literals<'a>(
    alloc: Global,
    tokens: &'a [Token<'a>],
) -> Result<(Items<Literal>, &'a [Token<'a>]), Stop<'a>>
    ensures { Reads (grammar.list_of grammar.literal) (λ x. (x.0, x.1.now)) tokens.now result }
{
    let (begin, mut rest) = literal(alloc, tokens)?;
    let mut found = alone(alloc, begin)?;
    'commas: loop {
        match past(rest, Word::Comma) {
            Some(after) => {
                let (next, after) = literal(alloc, after)?;
                found.push(next)?;
                rest = after;
            }
            None => return Ok((found, rest)),
        }
    }
}

/// `IN (literal {, literal})`
pub fn in_list<'a>(
    alloc: Global,
    tokens: &'a [Token<'a>],
) -> Result<(Items<Literal>, &'a [Token<'a>]), Stop<'a>>
    ensures { Reads grammar.in_list (λ x. (x.0, x.1.now)) tokens.now result }
{
    let rest = word(tokens, Word::In)?;
    let rest = word(rest, Word::Open)?;
    let (found, rest) = literals(alloc, rest)?;
    let rest = word(rest, Word::Close)?;
    Ok((found, rest))
}
