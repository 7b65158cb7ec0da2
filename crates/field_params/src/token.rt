//! Tokens, and single bytes.
ghost use Rattle.std.specs.Prelude.{◌≡◌, ◌<◌, option_map, length, take_while, IfSome};
ghost use Rattle.http_header.specs.Token.{is_token_byte};
ghost use Rattle.field_params.specs.Params.{token, after_byte};

use http_header::is_token_char;

// How many bytes at the front are a token's.
fn token_len(text: &[u8]) -> usize
    ensures { result ≡ length (take_while is_token_byte text.now) }
{
    text.iter().take_while(|b| is_token_char(**b)).count()
}

/// A token of one byte or more, and what stands behind it.
pub fn token(text: &[u8]) -> Option<(&[u8], &[u8])>
    ensures value { option_map (λ t. (t.0.now, t.1.now)) result ≡ token text.now }
    ensures shorter { IfSome result (λ t. length t.1.now < length text.now) }
{
    let len = token_len(text);
    if len == 0 {
        return None;
    }
    Some(text.split_at(len))
}

/// What stands behind a byte.
pub fn after_byte(byte: u8, text: &[u8]) -> Option<&[u8]>
    ensures value { option_map (λ t. t.now) result ≡ after_byte byte text.now }
    ensures shorter { IfSome result (λ t. length t.now < length text.now) }
{
    match text {
        [b, rest @ ..] => { if *b == byte { Some(rest) } else { None } }
        [] => None,
    }
}
