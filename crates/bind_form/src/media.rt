//! Media types.
ghost use Rattle.std.specs.Prelude.{◌≡◌};
ghost use Rattle.bind_form.specs.Media.{is_blank, ends_type, is_of_type};

use http_grammar::{behind, front};

fn is_blank(b: u8) -> bool
    ensures { result ≡ is_blank b }
{
    b == b' ' || b == b'\t'
}

fn ends_type(text: &[u8]) -> bool
    ensures { result ≡ ends_type text.now }
{
    match text {
        [] => true,
        [b, rest @ ..] => {
            if is_blank(*b) {
                ends_type(rest)
            } else {
                *b == b';'
            }
        }
    }
}

/// Whether a Content-Type value is of this media type, in any case; its parameters are ignored.
pub fn is_of_type(name: &[u8], value: &[u8]) -> bool
    ensures { result ≡ is_of_type name.now value.now }
{
    front(value, name.len()).eq_ignore_ascii_case(name) && ends_type(behind(value, name.len()))
}
