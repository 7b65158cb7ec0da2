//! Delimiter lines.
ghost use Rattle.std.specs.Prelude.{◌≡◌, option_map};
ghost use Rattle.form_parts.specs.Marks.{rest_after, mark_of_rest, mark_of};

use field_params::blanks::are_blank;

/// What a line of a body in parts is: content, a delimiter, or the last delimiter.
#[derive(Clone, Copy, Debug, PartialEq, Eq)]
pub enum Mark {
    Plain,
    Open,
    Last,
}

// What stands behind a prefix.
fn after<'a>(prefix: &[u8], line: &'a [u8]) -> Option<&'a [u8]>
    ensures { option_map (λ x. x.now) result ≡ rest_after prefix.now line.now }
{
    match prefix {
        [] => Some(line),
        [p, ps @ ..] => match line {
            [] => None,
            [x, xs @ ..] => { if *p == *x { after(ps, xs) } else { None } }
        },
    }
}

fn mark_of_rest(rest: &[u8]) -> Mark
    ensures { result ≡ mark_of_rest rest.now }
{
    if are_blank(rest) {
        return Mark::Open;
    }
    match after(b"--", rest) {
        None => Mark::Plain,
        Some(more) => {
            if are_blank(more) {
                Mark::Last
            } else {
                Mark::Plain
            }
        }
    }
}

/// What a line is.
pub fn line_mark(boundary: &[u8], line: &[u8]) -> Mark
    ensures { result ≡ mark_of boundary.now line.now }
{
    match after(b"--", line) {
        None => Mark::Plain,
        Some(named) => match after(boundary, named) {
            None => Mark::Plain,
            Some(rest) => mark_of_rest(rest),
        },
    }
}
