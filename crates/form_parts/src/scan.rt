//! The next delimiter.
ghost use Rattle.std.specs.Prelude.{◌≡◌, ◌⊎◌, ◌+◌, ◌-◌, ◌<◌, ◌≤◌, ◌==◌, ◌∷◌, ◌++◌, [], length, take, drop, Some, None, IfSome, IfNone, if◌then◌else◌};
ghost use Rattle.form_parts.specs.Reading.{lines_of, inside, outside, parts_after, part_before};

use crate::mark::{Mark, line_mark};
use memchr::memmem;

/// The bytes from a place on.
pub fn tail(body: &[u8], place: usize) -> &[u8]
    requires { place ≤ length body.now }
    ensures { result.now ≡ drop place body.now }
{
    body.split_at(place).1
}

// Where the first line ends, if a line end stands there.
fn line_end(text: &[u8]) -> Option<usize>
    ensures within { IfSome result (λ end. end + 2 ≤ length text.now) }
    ensures split { IfSome result (λ end. text.now ≡ take end text.now ++ (13 ∷ (10 ∷ drop (end + 2) text.now))) }
    ensures found { IfSome result (λ end. lines_of text.now ≡ take end text.now ∷ lines_of (drop (end + 2) text.now)) }
    ensures none { IfNone result (lines_of text.now ≡ text.now ∷ []) }
{
    memmem::find(text, b"\r\n")
}

/// A delimiter line, and where the line after it begins.
#[derive(Clone, Copy, Debug, PartialEq, Eq)]
pub struct Found {
    pub place: usize,
    pub mark: Mark,
    pub next: usize,
}

/// The first delimiter line from a place on.
pub fn scan(boundary: &[u8], body: &[u8], from: usize) -> Option<Found>
    requires { from ≤ length body.now }
    ensures within { IfSome result (λ f. (from ≤ f.place) × (f.place ≤ length body.now) × (f.next ≤ length body.now)) }
    ensures further { IfSome result (λ f. f.mark ≡ Mark.Open → from < f.next) }
    ensures room { IfSome result (λ f. (f.place ≡ from) ⊎ (from + 2 ≤ f.place)) }
    ensures front { IfSome result (λ f. outside boundary.now (lines_of (drop from body.now))
        ≡ parts_after boundary.now body.now f.mark f.next) }
    ensures part { IfSome result (λ f. inside boundary.now [] (lines_of (drop from body.now))
        ≡ part_before body.now from f.place (parts_after boundary.now body.now f.mark f.next)) }
    ensures no_front { IfNone result (outside boundary.now (lines_of (drop from body.now)) ≡ None) }
    ensures no_part { IfNone result (inside boundary.now [] (lines_of (drop from body.now)) ≡ None) }
{
    let mut place = from;
    loop {
        let rest = tail(body, place);
        let Some(end) = line_end(rest) else {
            return match line_mark(boundary, rest) {
                Mark::Last => Some(Found {
                    place,
                    mark: Mark::Last,
                    next: body.len(),
                }),
                _ => None,
            };
        };
        match line_mark(boundary, &rest[..end]) {
            Mark::Plain => place = place + end + 2,
            mark => return Some(Found {
                place,
                mark,
                next: place + end + 2,
            }),
        }
    }
}
