//! Blanks: spaces and tabs.
ghost use Rattle.std.specs.Prelude.{◌≡◌, ◌≤◌, length};
ghost use Rattle.std.specs.List.{list_all};
ghost use Rattle.field_params.specs.Blanks.{is_blank, off_blanks, off_end, trimmed};

/// Whether a byte is a space or a tab.
pub fn is_blank(b: u8) -> bool
    ensures { result ≡ is_blank b }
{
    b == b' ' || b == b'\t'
}

/// Whether all bytes are blanks.
pub fn are_blank(text: &[u8]) -> bool
    ensures { result ≡ list_all is_blank text.now }
{
    text.iter().all(|b| is_blank(*b))
}

/// What stands behind the blanks at the front.
pub fn off_blanks(text: &[u8]) -> &[u8]
    ensures value { result.now ≡ off_blanks text.now }
    ensures shorter { length result.now ≤ length text.now }
{
    let mut rest = text;
    while let [b, later @ ..] = rest {
        if !is_blank(*b) {
            return rest;
        }
        rest = later;
    }
    rest
}

// What stands before the blanks at the end.
fn off_end(text: &[u8]) -> &[u8]
    ensures { result.now ≡ off_end text.now }
{
    let mut rest = text;
    while let [earlier @ .., b] = rest {
        if !is_blank(*b) {
            return rest;
        }
        rest = earlier;
    }
    rest
}

/// A text without the blanks at its two ends.
pub fn trimmed(text: &[u8]) -> &[u8]
    ensures { result.now ≡ trimmed text.now }
{
    off_end(off_blanks(text))
}
