//! The query that a text spells.
ghost use Rattle.std.specs.Prelude.{◌≡◌, true, false, min, ◌^◌, ◌<◌, ◌≤◌, [], ◌∷◌, length, Ok, IfOk, IfErr};
ghost use Rattle.cm_base.specs.Judged.{Judged, Meets};
ghost use Rattle.cm_base.specs.declared.cause.Cause.TheVariants as causes;
ghost use Rattle.cm_base.specs.declared.fail.Fail.TheVariants as fails;
ghost use Rattle.ql_lex.specs.Lexes.{Lexes};
ghost use Rattle.ql_tree.specs.declared.tree.Query.{Query};
ghost use Rattle.ql_parse.specs.Texts as spec;
ghost use Rattle.ql_parse.specs.Wholes.{IsLeftWord, IsRefusal};

use crate::query::whole;
use cm_base::cause::Cause;
use cm_base::fail::Fail;
use cm_base::text::Text;
use ql_grammar::stop::{Halt, Stop};
use ql_lex::token::{Kind, Token};
use ql_lex::tokens::tokens;
use ql_tree::tree::Query;
use std::alloc::{AllocError, Global};

/// The most bytes that the text of a query has.
#[tactic(auto, unfolding(crate::specs::Texts::longest))]
fn longest() -> usize
    ensures value { result ≡ spec.longest }
    ensures room { result < 2 ^ 62 }
{
    65_536
}

/// The offset of the first token, and where there is none, that of the end.
fn offset(end: usize, tokens: &[Token<'_>]) -> usize
    ensures { result ≡ spec.offset end tokens.now }
{
    match tokens {
        [token, ..] => token.at,
        [] => end,
    }
}

/// The place of a fault with the first of these tokens, or at the end.
fn place(end: usize, tokens: &[Token<'_>]) -> u64
    ensures { result ≡ min (spec.offset end tokens.now) spec.longest }
{
    offset(end, tokens).min(longest()) as u64
}

/// How a token that the language leaves out is written.
fn left_word<'a>(token: &'a Token<'a>) -> &'a str
    ensures { result.now ≡ spec.left_word token.now.kind }
{
    match &token.kind {
        Kind::Name(name) => name.text(),
        Kind::Decimal(digits) => digits.text(),
        Kind::Word(_) | Kind::Quoted(_) | Kind::Number(_) | Kind::Wrong => "",
    }
}

fn left_out_word(alloc: Global, tokens: &[Token<'_>]) -> Result<Text, AllocError>
    ensures { IfOk result (λ word. IsLeftWord word tokens.now) }
{
    match tokens {
        [token, ..] => Text::from_str(alloc, left_word(token)),
        [] => Ok(Text::empty(alloc)),
    }
}

/// Why the text is refused.
fn refusal(alloc: Global, text: &Text, stop: Stop<'_>) -> Fail
    ensures { IsRefusal (length text.now) stop.entry result }
{
    match stop {
        Stop::Memory => Fail::Memory,
        Stop::At(Halt::Here(rest)) => Fail::Refused(Cause::QueryText(place(text.len(), rest))),
        Stop::At(Halt::LeftOut(rest)) => match left_out_word(alloc, rest) {
            Ok(word) => Fail::Refused(Cause::QueryLeft(word)),
            Err(_) => Fail::Memory,
        },
    }
}

/// Whether the text has more bytes than a query may have.
fn is_long(text: &Text) -> bool
    ensures long { result ≡ true → spec.longest < length text.now }
    ensures short { result ≡ false → length text.now ≤ spec.longest }
{
    text.len() > longest()
}

/// The text is refused for its length.
fn too_long() -> Fail
    ensures { result ≡ fails.Refused (causes.QueryText spec.longest) }
{
    Fail::Refused(Cause::QueryText(longest() as u64))
}

/// What a text says by its tokens.
fn spelled<'a>(alloc: Global, text: &Text, tokens: &'a [Token<'a>]) -> Result<Query, Fail>
    requires { Lexes spec.longest 0 text.now tokens.now }
    ensures found { IfOk result (λ q. spec.Says text.now (Ok q)) }
    ensures refused { IfErr result (λ e. spec.Refuses text.now e) }
    ensures alone { (judged : Judged Query) → spec.Says text.now judged → Meets (λ q. q) result judged }
{
    match whole(alloc, tokens) {
        Ok(query) => {
            if is_long(text) {
                return Err(too_long());
            }
            Ok(query)
        }
        Err(stop) => Err(refusal(alloc, text, stop)),
    }
}

/// Reads a query (CMIS 1.1, section 2.1.14.2.1). Refused are texts that spell none or have more than 65,536 bytes: with
/// `QueryText` and the least offset from 0 at which no query can go on, or with `QueryLeft` and the word where that is a function, a join
/// or a number with a point, which the language leaves out.
pub fn parse(alloc: Global, text: &Text) -> Result<Query, Fail>
    ensures found { IfOk result (λ q. spec.Says text.now (Ok q)) }
    ensures refused { IfErr result (λ e. spec.Refuses text.now e) }
    ensures alone { (judged : Judged Query) → spec.Says text.now judged → Meets (λ q. q) result judged }
{
    let all = tokens(alloc, text.as_str(), longest())?;
    let query = spelled(alloc, text, &all)?;
    Ok(query)
}
