//! Reading columns and aliases.
ghost use Rattle.ql_grammar.specs.Grammar as grammar;
ghost use Rattle.ql_grammar.specs.Reads.{Reads, IsStart};

use crate::reader::{at, at_name, name, past, plain};
use crate::stop::Stop;
use cm_base::text::Text;
use ql_lex::token::Token;
use ql_lex::word::Word;
use ql_tree::tree::Column;
use std::alloc::Global;

/// `[name .] name`
pub fn column<'a>(
    alloc: Global,
    tokens: &'a [Token<'a>],
) -> Result<(Column, &'a [Token<'a>]), Stop<'a>>
    ensures { Reads grammar.column (λ x. (x.0, x.1.now)) tokens.now result }
{
    let (begin, rest) = name(alloc, tokens)?;
    match past(rest, Word::Dot) {
        Some(rest) => {
            let (column, rest) = name(alloc, rest)?;
            Ok((
                Column {
                    qualifier: Some(begin),
                    name: column,
                },
                rest,
            ))
        }
        None => Ok((
            Column {
                qualifier: None,
                name: begin,
            },
            rest,
        )),
    }
}

/// `[name .] name`, where a test begins.
pub fn test_column<'a>(
    alloc: Global,
    tokens: &'a [Token<'a>],
) -> Result<(Column, &'a [Token<'a>]), Stop<'a>>
    ensures { Reads grammar.test_column (λ x. (x.0, x.1.now)) tokens.now result }
{
    let (begin, rest) = plain(alloc, tokens)?;
    match past(rest, Word::Dot) {
        Some(rest) => {
            let (column, rest) = name(alloc, rest)?;
            Ok((
                Column {
                    qualifier: Some(begin),
                    name: column,
                },
                rest,
            ))
        }
        None => Ok((
            Column {
                qualifier: None,
                name: begin,
            },
            rest,
        )),
    }
}

/// `[AS] name`
pub fn alias<'a>(
    alloc: Global,
    tokens: &'a [Token<'a>],
) -> Result<(Text, &'a [Token<'a>]), Stop<'a>>
    ensures { Reads grammar.alias (λ x. (x.0, x.1.now)) tokens.now result }
{
    match past(tokens, Word::As) {
        Some(rest) => name(alloc, rest),
        None => name(alloc, tokens),
    }
}

/// Whether an alias may begin here.
pub fn at_alias<'a>(tokens: &'a [Token<'a>]) -> bool
    ensures { IsStart grammar.alias.first tokens.now result }
{
    at(tokens, Word::As) || at_name(tokens)
}
