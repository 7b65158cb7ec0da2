//! Numbers of queries.
ghost use Rattle.std.specs.Prelude.{◌≡◌, drop};
ghost use Rattle.std.specs.Char.{is_ascii_digit};
ghost use Rattle.std.specs.List.{list_all};
ghost use Rattle.cm_base.specs.Decimals.{from_zero, is_minus};
ghost use Rattle.ql_bind.specs.Numbers.{digits_u64, is_digits, upto_zero, whole_number};

use std::str;

fn is_all_digits(text: &[u8]) -> bool
    ensures { result ≡ list_all is_ascii_digit text.now }
{
    text.iter().all(|b| b.is_ascii_digit())
}

fn is_digits(text: &[u8]) -> bool
    ensures { result ≡ is_digits text.now }
{
    match text {
        [] => false,
        [_, ..] => is_all_digits(text),
    }
}

fn parsed(text: &str) -> Option<u64>
    ensures { result ≡ digits_u64 text.now }
{
    if !is_digits(text.as_bytes()) {
        return None;
    }
    match text.parse::<u64>() {
        Ok(number) => Some(number),
        Err(_) => None,
    }
}

fn digits_u64(text: &[u8]) -> Option<u64>
    ensures { result ≡ digits_u64 text.now }
{
    match str::from_utf8(text) {
        Ok(text) => parsed(text),
        Err(_) => None,
    }
}

fn is_minus(text: &[u8]) -> bool
    ensures { result ≡ is_minus text.now }
{
    match text {
        [] => false,
        [b, ..] => *b == b'-',
    }
}

fn from_zero(number: Option<u64>) -> Option<i64>
    ensures { result ≡ from_zero number }
{
    match number {
        None => None,
        Some(n) => {
            if n < 9223372036854775808 {
                Some(n as i64)
            } else {
                None
            }
        }
    }
}

fn upto_zero(number: Option<u64>) -> Option<i64>
    ensures { result ≡ upto_zero number }
{
    match number {
        None => None,
        Some(0) => Some(0),
        Some(n) => {
            if n <= 9223372036854775808 {
                Some(-((n - 1) as i64) - 1)
            } else {
                None
            }
        }
    }
}

fn behind_minus(text: &[u8]) -> Option<u64>
    ensures { result ≡ digits_u64 (drop 1 text.now) }
{
    match text {
        [] => None,
        [_, rest @ ..] => digits_u64(rest),
    }
}

/// The number that digits state, a minus before them or none. Takes no memory.
pub(crate) fn whole_number(text: &[u8]) -> Option<i64>
    ensures { result ≡ whole_number text.now }
{
    if is_minus(text) {
        upto_zero(behind_minus(text))
    } else {
        from_zero(digits_u64(text))
    }
}
