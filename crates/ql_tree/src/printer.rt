//! Printing tokens, each with a blank before it.
ghost use Rattle.std.specs.Prelude.{◌≡◌, ℕ, List, [], ◌∷◌, ◌++◌, OnOk, IfOk, string_bytes, length, take, drop, slice_index, not, ◌+◌, ◌-◌, ◌*◌, ◌<◌, ◌≤◌};
ghost use Rattle.std.specs.List.{prefix_len};
ghost use Rattle.std.specs.Str.{IsCharBoundary};
ghost use Rattle.ql_lex.specs.Words.{word_text};
ghost use Rattle.ql_lex.specs.declared.token.Kind.TheVariants as kinds;
ghost use Rattle.ql_tree.specs.Printed as printed;
ghost use Rattle.ql_tree.specs.Texts as texts;

use cm_base::text::Text;
use ql_lex::word::Word;
use std::alloc::{AllocError, Global};
use std::marker::Model;

/// What is printed so far, seen as its bytes.
#[derive(Drop)]
pub struct Printer {
    text: String,
}

impl Model for Printer {
    ghost use Rattle.std.specs.Prelude.{List, ℕ, string_bytes};

    ghost Value = { List ℕ };

    ghost view = { λ p. string_bytes p.text };
}

/// Whether a backslash stands before the byte in a text.
fn is_special(b: u8) -> bool
    ensures { result ≡ texts.is_special b }
{
    b == b'\'' || b == b'\\'
}

fn plain_bytes(text: &[u8]) -> usize
    ensures { result ≡ prefix_len (λ b. not (texts.is_special b)) text.now }
{
    text.iter().take_while(|b| !is_special(**b)).count()
}

/// How many bytes at the front are written as they are. A backslash stands before the next one, if there is one.
fn plain_len(text: &str) -> usize
    ensures cut { IsCharBoundary text.now result }
    ensures run { texts.escaped text.now ≡ take result text.now ++ texts.escaped (drop result text.now) }
    ensures special { result < length text.now → slice_index text.now result < 128 }
    ensures behind { result < length text.now → IsCharBoundary text.now (result + 1) }
    ensures next { result < length text.now → texts.escaped (drop result text.now)
        ≡ 92 ∷ slice_index text.now result ∷ texts.escaped (drop (result + 1) text.now) }
{
    plain_bytes(text.as_bytes())
}

impl Printer {
    /// A printer that has printed one word, with no blank before it.
    pub fn new(alloc: Global, word: Word) -> Result<Printer, AllocError>
        ensures { IfOk result (λ p. p ≡ word_text word) }
    {
        Ok(Printer {
            text: String::from_str(alloc, word.text())?,
        })
    }

    /// What is printed.
    pub fn into_text(self) -> Text
        ensures { result ≡ self }
    {
        Text::from_string(self.text)
    }

    /// A blank and these characters.
    fn piece(&mut self, text: &str) -> Result<(), AllocError>
        ensures { OnOk result (self.new ≡ self.old ++ 32 ∷ text.now) }
    {
        self.text.push(' ')?;
        self.text.push_str(text)?;
        Ok(())
    }

    pub fn word(&mut self, word: Word) -> Result<(), AllocError>
        ensures { OnOk result (self.new ≡ self.old ++ printed.spaced (printed.word word)) }
    {
        self.piece(word.text())
    }

    pub fn name(&mut self, name: &Text) -> Result<(), AllocError>
        ensures { OnOk result (self.new ≡ self.old ++ printed.spaced (printed.name name.now)) }
    {
        self.piece(name.as_str())
    }

    pub fn number(&mut self, number: &Text) -> Result<(), AllocError>
        ensures { OnOk result (self.new ≡ self.old ++ printed.spaced (kinds.Number number.now ∷ [])) }
    {
        self.piece(number.as_str())
    }

    /// A text that is kept with its backslashes.
    pub fn kept(&mut self, text: &Text) -> Result<(), AllocError>
        ensures { OnOk result (self.new ≡ self.old ++ printed.spaced (kinds.Quoted text.now ∷ [])) }
    {
        self.text.push_str(" '")?;
        self.text.push_str(text.as_str())?;
        self.text.push('\'')?;
        Ok(())
    }

    /// A text by the bytes that it stands for.
    pub fn quoted(&mut self, text: &Text) -> Result<(), AllocError>
        ensures { OnOk result (self.new ≡ self.old ++ printed.spaced (printed.quoted text.now)) }
    {
        self.text.push_str(" '")?;
        push_escaped(&mut self.text, text.as_str())?;
        self.text.push('\'')?;
        Ok(())
    }
}

/// The first bytes of a text.
fn front<'a>(text: &'a str, n: usize) -> &'a str
    requires { IsCharBoundary text.now n }
    ensures { result.now ≡ take n text.now }
{
    &text[..n]
}

/// The bytes after the first ones.
fn after<'a>(text: &'a str, n: usize) -> &'a str
    requires { IsCharBoundary text.now n }
    ensures { result.now ≡ drop n text.now }
{
    &text[n..]
}

/// The byte at a place, or 0 behind the end.
fn byte_at(text: &str, n: usize) -> u8
    ensures { result ≡ slice_index text.now n }
{
    match text.as_bytes().get(n) {
        Some(b) => *b,
        None => 0,
    }
}

/// Writes one byte below 128 with a backslash before it.
fn push_special(out: &mut String, b: u8) -> Result<(), AllocError>
    requires { b < 128 }
    ensures { OnOk result (string_bytes out.new ≡ string_bytes out.old ++ 92 ∷ b ∷ []) }
{
    out.push('\\')?;
    out.push(b as char)?;
    Ok(())
}

/// Writes a text with a backslash before each quote and each backslash.
fn push_escaped(out: &mut String, text: &str) -> Result<(), AllocError>
    ensures { OnOk result (string_bytes out.new ≡ string_bytes out.old ++ texts.escaped text.now) }
{
    let mut rest = text;
    'runs: loop {
        let n = plain_len(rest);
        out.push_str(front(rest, n))?;
        if n == rest.len() {
            return Ok(());
        }
        push_special(out, byte_at(rest, n))?;
        rest = after(rest, n + 1);
    }
}
