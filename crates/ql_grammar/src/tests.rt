//! Reading tests: conditions without AND, OR, NOT and parentheses.
ghost use Rattle.std.specs.Prelude.{◌≡◌, true, false};
ghost use Rattle.ql_grammar.specs.Grammar as grammar;
ghost use Rattle.ql_grammar.specs.Reads.{Reads, Finds, IsStart};

use crate::literals::{at_literal, in_list, literal, served_literal};
use crate::names::{column, test_column};
use crate::parts::{Among, Placed, TestRest};
use crate::reader::{at, at_name, at_plain, meaning, name, past, pattern, quoted, word};
use crate::stop::{Halt, Stop};
use cm_base::text::Text;
use ql_lex::token::Token;
use ql_lex::word::Word;
use ql_tree::tree::{Column, Comparison, Cond};
use std::alloc::Global;

/// `LIKE text`
fn like<'a>(alloc: Global, tokens: &'a [Token<'a>]) -> Result<(Text, &'a [Token<'a>]), Stop<'a>>
    ensures { Reads grammar.like (λ x. (x.0, x.1.now)) tokens.now result }
{
    let rest = word(tokens, Word::Like)?;
    pattern(alloc, rest)
}

/// `[NOT] NULL`
fn nullness<'a>(tokens: &'a [Token<'a>]) -> Result<(bool, &'a [Token<'a>]), Halt<'a>>
    ensures { Finds grammar.nullness (λ x. (x.0, x.1.now)) tokens.now result }
{
    match past(tokens, Word::Not) {
        Some(rest) => meaning(rest, Word::Null, true),
        None => meaning(tokens, Word::Null, false),
    }
}

/// `IS [NOT] NULL`
fn is_null<'a>(tokens: &'a [Token<'a>]) -> Result<(TestRest, &'a [Token<'a>]), Halt<'a>>
    ensures { Finds grammar.is_null (λ x. (x.0, x.1.now)) tokens.now result }
{
    let rest = word(tokens, Word::Is)?;
    let (negated, rest) = nullness(rest)?;
    Ok((TestRest::Null(negated), rest))
}

/// `<= | >=`
fn at_most<'a>(tokens: &'a [Token<'a>]) -> Result<(Comparison, &'a [Token<'a>]), Halt<'a>>
    ensures { Finds grammar.at_most (λ x. (x.0, x.1.now)) tokens.now result }
{
    match past(tokens, Word::LessEqual) {
        Some(rest) => Ok((Comparison::LessEqual, rest)),
        None => meaning(tokens, Word::GreaterEqual, Comparison::GreaterEqual),
    }
}

/// `> | <= | >=`
fn greater<'a>(tokens: &'a [Token<'a>]) -> Result<(Comparison, &'a [Token<'a>]), Halt<'a>>
    ensures { Finds grammar.greater (λ x. (x.0, x.1.now)) tokens.now result }
{
    match past(tokens, Word::Greater) {
        Some(rest) => Ok((Comparison::Greater, rest)),
        None => at_most(tokens),
    }
}

/// `< | > | <= | >=`
fn less<'a>(tokens: &'a [Token<'a>]) -> Result<(Comparison, &'a [Token<'a>]), Halt<'a>>
    ensures { Finds grammar.less (λ x. (x.0, x.1.now)) tokens.now result }
{
    match past(tokens, Word::Less) {
        Some(rest) => Ok((Comparison::Less, rest)),
        None => greater(tokens),
    }
}

/// `<> | < | > | <= | >=`
fn unequal<'a>(tokens: &'a [Token<'a>]) -> Result<(Comparison, &'a [Token<'a>]), Halt<'a>>
    ensures { Finds grammar.unequal (λ x. (x.0, x.1.now)) tokens.now result }
{
    match past(tokens, Word::NotEqual) {
        Some(rest) => Ok((Comparison::NotEqual, rest)),
        None => less(tokens),
    }
}

/// `= | <> | < | > | <= | >=`
fn comparison<'a>(tokens: &'a [Token<'a>]) -> Result<(Comparison, &'a [Token<'a>]), Halt<'a>>
    ensures { Finds grammar.comparison (λ x. (x.0, x.1.now)) tokens.now result }
{
    match past(tokens, Word::Equal) {
        Some(rest) => Ok((Comparison::Equal, rest)),
        None => unequal(tokens),
    }
}

/// `cmp literal`
fn compared<'a>(
    alloc: Global,
    tokens: &'a [Token<'a>],
) -> Result<(TestRest, &'a [Token<'a>]), Stop<'a>>
    ensures { Reads grammar.compared (λ x. (x.0, x.1.now)) tokens.now result }
{
    let (by, rest) = comparison(tokens)?;
    let (constant, rest) = literal(alloc, rest)?;
    Ok((TestRest::Compare(by, constant), rest))
}

/// `IN (literal {, literal}) | LIKE text`
fn among_or_like<'a>(
    alloc: Global,
    negated: bool,
    tokens: &'a [Token<'a>],
) -> Result<(TestRest, &'a [Token<'a>]), Stop<'a>>
    ensures { Reads (grammar.among_or_like negated) (λ x. (x.0, x.1.now)) tokens.now result }
{
    if at(tokens, Word::In) {
        let (found, rest) = in_list(alloc, tokens)?;
        return Ok((TestRest::In(negated, found), rest));
    }
    let (text, rest) = like(alloc, tokens)?;
    Ok((TestRest::Like(negated, text), rest))
}

/// `IN (literal {, literal}) | LIKE text | IS [NOT] NULL`
fn positive<'a>(
    alloc: Global,
    tokens: &'a [Token<'a>],
) -> Result<(TestRest, &'a [Token<'a>]), Stop<'a>>
    ensures { Reads grammar.positive (λ x. (x.0, x.1.now)) tokens.now result }
{
    if at_among_or_like(tokens) {
        return among_or_like(alloc, false, tokens);
    }
    let (test, rest) = is_null(tokens)?;
    Ok((test, rest))
}

/// Whether IN or LIKE stands at the front.
fn at_among_or_like<'a>(tokens: &'a [Token<'a>]) -> bool
    ensures { IsStart (grammar.among_or_like false).first tokens.now result }
{
    at(tokens, Word::In) || at(tokens, Word::Like)
}

/// `[NOT] IN (literal {, literal}) | [NOT] LIKE text | IS [NOT] NULL`
fn no_comparison<'a>(
    alloc: Global,
    tokens: &'a [Token<'a>],
) -> Result<(TestRest, &'a [Token<'a>]), Stop<'a>>
    ensures { Reads grammar.no_comparison (λ x. (x.0, x.1.now)) tokens.now result }
{
    match past(tokens, Word::Not) {
        Some(rest) => among_or_like(alloc, true, rest),
        None => positive(alloc, tokens),
    }
}

/// Whether a comparison stands at the front.
fn at_comparison<'a>(tokens: &'a [Token<'a>]) -> bool
    ensures { IsStart grammar.comparison.first tokens.now result }
{
    at(tokens, Word::Equal) || at(tokens, Word::NotEqual) || at_order(tokens)
}

/// Whether `<`, `>`, `<=` or `>=` stands at the front.
fn at_order<'a>(tokens: &'a [Token<'a>]) -> bool
    ensures { IsStart grammar.less.first tokens.now result }
{
    at(tokens, Word::Less)
        || at(tokens, Word::Greater)
        || at(tokens, Word::LessEqual)
        || at(tokens, Word::GreaterEqual)
}

/// What stands behind a column in a test.
fn test_rest<'a>(
    alloc: Global,
    tokens: &'a [Token<'a>],
) -> Result<(TestRest, &'a [Token<'a>]), Stop<'a>>
    ensures { Reads grammar.test_rest (λ x. (x.0, x.1.now)) tokens.now result }
{
    if at_comparison(tokens) {
        return compared(alloc, tokens);
    }
    no_comparison(alloc, tokens)
}

fn with_column(column: Column, rest: TestRest) -> Cond
    ensures { result ≡ grammar.with_column column rest }
{
    match rest {
        TestRest::Compare(by, constant) => Cond::Compare(column, by, constant),
        TestRest::In(negated, found) => Cond::In(column, negated, found),
        TestRest::Like(negated, text) => Cond::Like(column, negated, text),
        TestRest::Null(negated) => Cond::Null(column, negated),
    }
}

/// A test that begins with its column.
fn of_column<'a>(
    alloc: Global,
    tokens: &'a [Token<'a>],
) -> Result<(Cond, &'a [Token<'a>]), Stop<'a>>
    ensures { Reads grammar.of_column (λ x. (x.0, x.1.now)) tokens.now result }
{
    let (begin, rest) = test_column(alloc, tokens)?;
    let (more, rest) = test_rest(alloc, rest)?;
    Ok((with_column(begin, more), rest))
}

/// `literal = ANY column`
fn of_literal<'a>(
    alloc: Global,
    tokens: &'a [Token<'a>],
) -> Result<(Cond, &'a [Token<'a>]), Stop<'a>>
    ensures { Reads grammar.of_literal (λ x. (x.0, x.1.now)) tokens.now result }
{
    let (constant, rest) = served_literal(alloc, tokens)?;
    let rest = word(rest, Word::Equal)?;
    let rest = word(rest, Word::Any)?;
    let (found, rest) = column(alloc, rest)?;
    Ok((Cond::EqualAny(constant, found), rest))
}

/// `[NOT] IN (literal {, literal})`
fn among_list<'a>(
    alloc: Global,
    tokens: &'a [Token<'a>],
) -> Result<(Among, &'a [Token<'a>]), Stop<'a>>
    ensures { Reads grammar.among_list (λ x. (x.0, x.1.now)) tokens.now result }
{
    match past(tokens, Word::Not) {
        Some(rest) => {
            let (literals, rest) = in_list(alloc, rest)?;
            Ok((
                Among {
                    negated: true,
                    literals,
                },
                rest,
            ))
        }
        None => {
            let (literals, rest) = in_list(alloc, tokens)?;
            Ok((
                Among {
                    negated: false,
                    literals,
                },
                rest,
            ))
        }
    }
}

fn any_in(column: Column, among: Among) -> Cond
    ensures { result ≡ grammar.any_in column among }
{
    let Among { negated, literals } = among;
    Cond::AnyIn(column, negated, literals)
}

/// `ANY column [NOT] IN (literal {, literal})`
fn of_any<'a>(alloc: Global, tokens: &'a [Token<'a>]) -> Result<(Cond, &'a [Token<'a>]), Stop<'a>>
    ensures { Reads grammar.of_any (λ x. (x.0, x.1.now)) tokens.now result }
{
    let rest = word(tokens, Word::Any)?;
    let (found, rest) = column(alloc, rest)?;
    let (among, rest) = among_list(alloc, rest)?;
    Ok((any_in(found, among), rest))
}

/// `[name ,] text`
fn arguments<'a>(
    alloc: Global,
    tokens: &'a [Token<'a>],
) -> Result<(Placed, &'a [Token<'a>]), Stop<'a>>
    ensures { Reads grammar.arguments (λ x. (x.0, x.1.now)) tokens.now result }
{
    if at_name(tokens) {
        let (table, rest) = name(alloc, tokens)?;
        let rest = word(rest, Word::Comma)?;
        let (text, rest) = quoted(alloc, rest)?;
        return Ok((
            Placed {
                table: Some(table),
                text,
            },
            rest,
        ));
    }
    let (text, rest) = quoted(alloc, tokens)?;
    Ok((Placed { table: None, text }, rest))
}

/// `([name ,] text)`
fn group_arguments<'a>(
    alloc: Global,
    tokens: &'a [Token<'a>],
) -> Result<(Placed, &'a [Token<'a>]), Stop<'a>>
    ensures { Reads (grammar.group grammar.arguments) (λ x. (x.0, x.1.now)) tokens.now result }
{
    let rest = word(tokens, Word::Open)?;
    let (found, rest) = arguments(alloc, rest)?;
    let rest = word(rest, Word::Close)?;
    Ok((found, rest))
}

fn in_folder(placed: Placed) -> Cond
    ensures { result ≡ grammar.folder (tt {0}) placed }
{
    let Placed { table, text } = placed;
    Cond::InFolder(table, text)
}

fn in_tree(placed: Placed) -> Cond
    ensures { result ≡ grammar.tree (tt {0}) placed }
{
    let Placed { table, text } = placed;
    Cond::InTree(table, text)
}

/// `IN_FOLDER ([name ,] text) | IN_TREE ([name ,] text)`
fn of_place<'a>(alloc: Global, tokens: &'a [Token<'a>]) -> Result<(Cond, &'a [Token<'a>]), Stop<'a>>
    ensures { Reads grammar.of_place (λ x. (x.0, x.1.now)) tokens.now result }
{
    match past(tokens, Word::InFolder) {
        Some(rest) => {
            let (placed, rest) = group_arguments(alloc, rest)?;
            Ok((in_folder(placed), rest))
        }
        None => {
            let rest = word(tokens, Word::InTree)?;
            let (placed, rest) = group_arguments(alloc, rest)?;
            Ok((in_tree(placed), rest))
        }
    }
}

fn any_or_place<'a>(
    alloc: Global,
    tokens: &'a [Token<'a>],
) -> Result<(Cond, &'a [Token<'a>]), Stop<'a>>
    ensures { Reads grammar.any_or_place (λ x. (x.0, x.1.now)) tokens.now result }
{
    if at(tokens, Word::Any) {
        return of_any(alloc, tokens);
    }
    of_place(alloc, tokens)
}

fn no_column<'a>(
    alloc: Global,
    tokens: &'a [Token<'a>],
) -> Result<(Cond, &'a [Token<'a>]), Stop<'a>>
    ensures { Reads grammar.no_column (λ x. (x.0, x.1.now)) tokens.now result }
{
    if at_literal(tokens) {
        return of_literal(alloc, tokens);
    }
    any_or_place(alloc, tokens)
}

/// A test that is no condition in parentheses.
pub fn simple<'a>(
    alloc: Global,
    tokens: &'a [Token<'a>],
) -> Result<(Cond, &'a [Token<'a>]), Stop<'a>>
    ensures { Reads grammar.simple (λ x. (x.0, x.1.now)) tokens.now result }
{
    if at_plain(tokens) {
        return of_column(alloc, tokens);
    }
    no_column(alloc, tokens)
}

/// Whether such a test begins here.
pub fn at_simple<'a>(tokens: &'a [Token<'a>]) -> bool
    ensures { IsStart grammar.simple.first tokens.now result }
{
    at_plain(tokens) || at_literal(tokens) || at_any_or_place(tokens)
}

/// Whether ANY, IN_FOLDER or IN_TREE stands at the front.
fn at_any_or_place<'a>(tokens: &'a [Token<'a>]) -> bool
    ensures { IsStart grammar.any_or_place.first tokens.now result }
{
    at(tokens, Word::Any) || at(tokens, Word::InFolder) || at(tokens, Word::InTree)
}
