//! The bytes that a text stands for.
ghost use Rattle.std.specs.Prelude.{◌≡◌, [], ◌∷◌, ◌++◌, true, false, not, ◌==◌, OnOk, IfOk, string_bytes, length, take, drop, slice_index, ◌+◌, ◌-◌, ◌*◌, ◌<◌, ◌≤◌};
ghost use Rattle.std.specs.List.{prefix_len};
ghost use Rattle.std.specs.Str.{IsCharBoundary};
ghost use Rattle.ql_tree.specs.Texts.{unescaped};

use cm_base::text::Text;
use std::alloc::{AllocError, Global};

/// The first bytes of a text.
fn front<'a>(text: &'a str, n: usize) -> &'a str
    requires { IsCharBoundary text.now n }
    ensures { result.now ≡ take n text.now }
{
    &text[..n]
}

/// The bytes after the first ones.
fn after<'a>(text: &'a str, n: usize) -> &'a str
    requires { IsCharBoundary text.now n }
    ensures { result.now ≡ drop n text.now }
{
    &text[n..]
}

/// The byte at a place, or 0 behind the end.
fn byte_at(text: &str, n: usize) -> u8
    ensures { result ≡ slice_index text.now n }
{
    match text.as_bytes().get(n) {
        Some(b) => *b,
        None => 0,
    }
}

fn run_bytes(text: &[u8]) -> usize
    ensures { result ≡ prefix_len (λ b. not (b == 92)) text.now }
{
    text.iter().take_while(|b| !(**b == b'\\')).count()
}

/// How many bytes stand before the first backslash.
fn run_len(text: &str) -> usize
    ensures cut { IsCharBoundary text.now result }
    ensures run { unescaped false text.now ≡ take result text.now ++ unescaped false (drop result text.now) }
    ensures behind { result < length text.now → IsCharBoundary text.now (result + 1) }
    ensures next { result < length text.now → unescaped false (drop result text.now)
        ≡ unescaped true (drop (result + 1) text.now) }
{
    run_bytes(text.as_bytes())
}

/// Writes what a backslash before these bytes stands for, as far as they don't stand for themselves, and gives the rest.
fn push_escape<'a>(out: &mut String, rest: &'a str) -> Result<&'a str, AllocError>
    ensures same { IfOk result (λ left. string_bytes out.new ++ unescaped false left.now
        ≡ string_bytes out.old ++ unescaped true rest.now) }
    ensures shorter { IfOk result (λ left. length left.now ≤ length rest.now) }
{
    let b = byte_at(rest, 0);
    if b == b'\\' {
        out.push('\\')?;
        return Ok(after(rest, 1));
    }
    if b == b'%' || b == b'_' {
        out.push('\\')?;
        return Ok(rest);
    }
    Ok(rest)
}

fn push_plain(out: &mut String, text: &str) -> Result<(), AllocError>
    ensures { OnOk result (string_bytes out.new ≡ string_bytes out.old ++ unescaped false text.now) }
{
    let mut rest = text;
    'runs: loop {
        let n = run_len(rest);
        out.push_str(front(rest, n))?;
        if n == rest.len() {
            return Ok(());
        }
        rest = push_escape(out, after(rest, n + 1))?;
    }
}

/// The bytes that a text stands for, which stands between quotes like this.
pub fn plain_text(alloc: Global, text: &str) -> Result<Text, AllocError>
    ensures { IfOk result (λ t. t ≡ unescaped false text.now) }
{
    let mut out = String::new(alloc);
    push_plain(&mut out, text)?;
    Ok(Text::from_string(out))
}
