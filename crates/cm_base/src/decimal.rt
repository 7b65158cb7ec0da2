//! Decimal numbers, read from bytes without taking memory.
ghost use Rattle.std.specs.Prelude.{◌≡◌, ◌∷◌, drop};
ghost use Rattle.std.specs.Char.{is_ascii_digit};
ghost use Rattle.std.specs.List.{list_all};
ghost use Rattle.cm_base.specs.Decimals.{is_led, is_decimal, decimal_u64, is_minus, from_zero, below_zero, decimal_i64};

use std::str;

fn is_led(text: &[u8]) -> bool
    ensures { result ≡ is_led text.now }
{
    match text {
        [] => false,
        [_] => true,
        [d, _, ..] => *d != b'0',
    }
}

fn is_all_digits(text: &[u8]) -> bool
    ensures { result ≡ list_all is_ascii_digit text.now }
{
    text.iter().all(|b| b.is_ascii_digit())
}

fn is_decimal(text: &[u8]) -> bool
    ensures { result ≡ is_decimal text.now }
{
    is_led(text) && is_all_digits(text)
}

fn parsed(text: &str) -> Option<u64>
    ensures { result ≡ decimal_u64 text.now }
{
    if !is_decimal(text.as_bytes()) {
        return None;
    }
    match text.parse::<u64>() {
        Ok(number) => Some(number),
        Err(_) => None,
    }
}

/// Decimal digits without a sign or a leading zero, below 2^64.
pub fn read_u64(text: &[u8]) -> Option<u64>
    ensures { result ≡ decimal_u64 text.now }
{
    match str::from_utf8(text) {
        Ok(text) => parsed(text),
        Err(_) => None,
    }
}

fn is_minus(text: &[u8]) -> bool
    ensures { result ≡ is_minus text.now }
{
    match text {
        [] => false,
        [b, ..] => *b == b'-',
    }
}

fn from_zero(number: Option<u64>) -> Option<i64>
    ensures { result ≡ from_zero number }
{
    match number {
        None => None,
        Some(n) => {
            if n < 9223372036854775808 {
                Some(n as i64)
            } else {
                None
            }
        }
    }
}

fn below_zero(number: Option<u64>) -> Option<i64>
    ensures { result ≡ below_zero number }
{
    match number {
        None => None,
        Some(n) => {
            if 0 < n && n <= 9223372036854775808 {
                let least = (n - 1) as i64;
                Some(-1 - least)
            } else {
                None
            }
        }
    }
}

fn read_behind_minus(text: &[u8]) -> Option<u64>
    ensures { result ≡ decimal_u64 (drop 1 text.now) }
{
    match text {
        [] => None,
        [_, rest @ ..] => read_u64(rest),
    }
}

/// The same, a minus before it where it is below zero, from -2^63 to 2^63 - 1. `-0` is none.
pub fn read_i64(text: &[u8]) -> Option<i64>
    ensures { result ≡ decimal_i64 text.now }
{
    if is_minus(text) {
        below_zero(read_behind_minus(text))
    } else {
        from_zero(read_u64(text))
    }
}
