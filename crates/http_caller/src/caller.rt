//! Who calls.
ghost use Rattle.std.specs.Prelude.{◌≡◌, ◌+◌, find};
ghost use Rattle.std.specs.Option.{option_copied};
ghost use Rattle.std.specs.List.{list_any, position_or_len};
ghost use Rattle.cm_base.specs.Judged.{Meets};
ghost use Rattle.http_grammar.specs.Fields.{same_word};
ghost use Rattle.http_caller.specs.Callers.{after_blank, after_scheme, is_colon, is_caller, user_of, name_of, by_rest, caller_of};

use base64::DecodeAllocError;
use base64::engine::general_purpose::STANDARD;
use cm_base::cause::Cause;
use cm_base::copies::Copies;
use cm_base::fail::Fail;
use cm_base::text::Text;
use cm_base::user::{User, Users};
use http_grammar::{behind, front, same_word};
use http_wire::{Head, Named};
use std::alloc::Global;

fn after_blank(value: &[u8]) -> Option<&[u8]>
    ensures { option_copied result ≡ after_blank value.now }
{
    match value {
        [] => None,
        [b, rest @ ..] => {
            if *b == b' ' || *b == b'\t' {
                Some(rest)
            } else {
                None
            }
        }
    }
}

fn after_scheme(value: &[u8]) -> Option<&[u8]>
    ensures { option_copied result ≡ after_scheme value.now }
{
    if same_word(front(value, 5), b"basic") {
        after_blank(behind(value, 5))
    } else {
        None
    }
}

fn has_colon(text: &[u8]) -> bool
    ensures { result ≡ list_any is_colon text.now }
{
    text.iter().any(|b| *b == b':')
}

// Where the first colon stands, or the length.
fn colon(text: &[u8]) -> usize
    ensures { result ≡ position_or_len is_colon text.now }
{
    match text.iter().position(|b| *b == b':') {
        Some(place) => place,
        None => text.len(),
    }
}

fn is_caller(text: &[u8], at: usize, user: &User) -> bool
    requires { at ≡ position_or_len is_colon text.now }
    ensures { result ≡ is_caller text.now user.now }
{
    user.name.bytes() == front(text, at) && user.secret.bytes() == behind(text, at + 1)
}

fn find_user<'a>(text: &[u8], users: &'a [User]) -> Option<&'a User>
    ensures { option_copied result ≡ find (is_caller text.now) users.now }
{
    let at = colon(text);
    users.iter().find(|user| is_caller(text, at, user))
}

fn user_of<'a>(text: &[u8], users: &'a [User]) -> Option<&'a User>
    ensures { option_copied result ≡ user_of users.now text.now }
{
    if has_colon(text) {
        find_user(text, users)
    } else {
        None
    }
}

fn name_of(alloc: Global, user: Option<&User>) -> Result<Text, Fail>
    ensures { Meets (λ t. t) result (name_of (option_copied user.entry)) }
{
    match user {
        None => Err(Fail::Refused(Cause::WrongSecret)),
        Some(user) => {
            let name = user.name.copied(alloc)?;
            Ok(name)
        }
    }
}

fn by_rest(alloc: Global, rest: Option<&[u8]>, users: &[User]) -> Result<Text, Fail>
    ensures { Meets (λ t. t) result (by_rest users.now (option_copied rest.entry)) }
{
    match rest {
        None => Err(Fail::Refused(Cause::WrongSecret)),
        Some(rest) => match STANDARD.decode(alloc, rest) {
            Ok(text) => name_of(alloc, user_of(&text, users)),
            Err(DecodeAllocError::OutOfMemory) => Err(Fail::Memory),
            Err(_) => Err(Fail::Refused(Cause::WrongSecret)),
        },
    }
}

/// The caller of a request with this head: the user whose credentials it has, or `anonymous` where it has no field for them (RFC 7617).
/// WrongSecret is answered for several fields, and for one that isn't `Basic` with the name and the secret of a user.
pub fn caller_of(alloc: Global, head: &Head, users: &Users) -> Result<Text, Fail>
    ensures { Meets (λ t. t) result (caller_of head.now users.now) }
{
    match head.named(b"authorization") {
        Named::Absent => {
            let name = Text::from_str(alloc, "anonymous")?;
            Ok(name)
        }
        Named::One(value) => by_rest(alloc, after_scheme(value), users.as_slice()),
        Named::Several => Err(Fail::Refused(Cause::WrongSecret)),
    }
}
