//! The forms of a target, and its path and query.
ghost use Rattle.std.specs.Prelude.{◌≡◌, ◌+◌, ◌==◌, option_map};
ghost use Rattle.std.specs.List.{position_or_len};
ghost use Rattle.request_target.specs.Form.{is_origin, is_absolute, ends_authority, behind_authority, locator, path_in, query_in};

use http_grammar::{behind, front};

fn is_origin(target: &[u8]) -> bool
    ensures { result ≡ is_origin target.now }
{
    match target {
        [] => false,
        [b, ..] => *b == b'/',
    }
}

fn is_absolute(target: &[u8]) -> bool
    ensures { result ≡ is_absolute target.now }
{
    front(target, 7).eq_ignore_ascii_case(b"http://")
}

fn ends_authority(b: u8) -> bool
    ensures { result ≡ ends_authority b }
{
    b == b'/' || (b == b'?' || b == b'#')
}

fn end_of_authority(text: &[u8]) -> usize
    ensures { result ≡ position_or_len ends_authority text.now }
{
    match text.iter().position(|b| ends_authority(*b)) {
        Some(i) => i,
        None => text.len(),
    }
}

fn behind_authority(text: &[u8]) -> &[u8]
    ensures { result.now ≡ behind_authority text.now }
{
    behind(text, end_of_authority(text))
}

/// The path with the query; none where the target has neither the origin form nor the absolute form.
pub fn locator(target: &[u8]) -> Option<&[u8]>
    ensures { option_map (λ t. t.now) result ≡ locator target.now }
{
    if is_origin(target) {
        Some(target)
    } else if is_absolute(target) {
        Some(behind_authority(behind(target, 7)))
    } else {
        None
    }
}

fn place_of_query(text: &[u8]) -> usize
    ensures { result ≡ position_or_len (λ b. b == 63) text.now }
{
    match text.iter().position(|b| *b == b'?') {
        Some(i) => i,
        None => text.len(),
    }
}

/// What stands before the first question mark.
pub fn path_in(text: &[u8]) -> &[u8]
    ensures { result.now ≡ path_in text.now }
{
    front(text, place_of_query(text))
}

/// What stands after the first question mark.
pub fn query_in(text: &[u8]) -> &[u8]
    ensures { result.now ≡ query_in text.now }
{
    let place = place_of_query(text);
    if place < text.len() {
        behind(text, place + 1)
    } else {
        &[]
    }
}
