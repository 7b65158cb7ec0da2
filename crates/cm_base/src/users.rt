//! The list of users that the program is given: `NAME:SECRET` at each place between commas.
ghost use Rattle.std.specs.Prelude.{◌≡◌, IfOk, map};
ghost use Rattle.std.specs.List.{list_all, list_any};
ghost use Rattle.cm_base.specs.declared.users.UsersStop.TheVariants.{Memory};
ghost use Rattle.cm_base.specs.UserLists.{ReadsUsers, all_differ, has_user_length, is_colon, is_reserved_name, is_secret, is_secret_byte, is_user, is_user_byte, is_user_name, name_part, pieces, secret_part, texts_of, user_of};

use crate::items::Items;
use crate::text::Text;
use crate::user::{User, Users};
use std::alloc::{AllocError, AllocFailed, Global};
use std::collections::BTreeSet;

/// The most users of a list.
pub const MOST_USERS: usize = 1000;

/// The most bytes of a user's name, and of a secret.
pub const LONGEST_USER_NAME: usize = 64;

/// Why a list of users is not read.
#[derive(Clone, Copy, Debug, PartialEq, Eq)]
pub enum UsersStop {
    /// It is not of its form.
    Words,
    /// There was no memory.
    Memory,
}

impl From<AllocError> for UsersStop {
    ghost from_gives = { λ _ e. e ≡ Memory };

    fn from(_e: AllocError) -> UsersStop {
        UsersStop::Memory
    }
}

impl<T: Drop> From<AllocFailed<T>> for UsersStop {
    ghost from_gives = { λ _ e. e ≡ Memory };

    fn from(_e: AllocFailed<T>) -> UsersStop {
        UsersStop::Memory
    }
}

fn is_user_byte(b: u8) -> bool
    ensures { result ≡ is_user_byte b }
{
    b.is_ascii_lowercase()
        || b.is_ascii_uppercase()
        || b.is_ascii_digit()
        || b == b'.'
        || b == b'-'
        || b == b'_'
}

fn is_secret_byte(b: u8) -> bool
    ensures { result ≡ is_secret_byte b }
{
    b'!' <= b && b <= b'~'
}

fn has_user_length(bytes: &[u8]) -> bool
    ensures { result ≡ has_user_length bytes.now }
{
    0 < bytes.len() && bytes.len() <= LONGEST_USER_NAME
}

fn is_reserved_name(name: &[u8]) -> bool
    ensures { result ≡ is_reserved_name name.now }
{
    name == "anonymous".as_bytes() || name == "anyone".as_bytes()
}

fn are_user_bytes(name: &[u8]) -> bool
    ensures { result ≡ list_all is_user_byte name.now }
{
    name.iter().all(|b| is_user_byte(*b))
}

fn is_user_name(name: &[u8]) -> bool
    ensures { result ≡ is_user_name name.now }
{
    has_user_length(name) && are_user_bytes(name) && !is_reserved_name(name)
}

fn are_secret_bytes(secret: &[u8]) -> bool
    ensures { result ≡ list_all is_secret_byte secret.now }
{
    secret.iter().all(|b| is_secret_byte(*b))
}

fn is_secret(secret: &[u8]) -> bool
    ensures { result ≡ is_secret secret.now }
{
    has_user_length(secret) && are_secret_bytes(secret)
}

fn has_colon(piece: &str) -> bool
    ensures { result ≡ list_any is_colon piece.now }
{
    piece.as_bytes().iter().any(|b| *b == b':')
}

fn name_part(piece: &str) -> &str
    ensures { result.now ≡ name_part piece.now }
{
    match piece.split_once(':') {
        Some((name, _)) => name,
        None => piece,
    }
}

fn secret_part(piece: &str) -> &str
    ensures { result.now ≡ secret_part piece.now }
{
    match piece.split_once(':') {
        Some((_, secret)) => secret,
        None => "",
    }
}

fn is_user(piece: &str) -> bool
    ensures { result ≡ is_user piece.now }
{
    has_colon(piece)
        && is_user_name(name_part(piece).as_bytes())
        && is_secret(secret_part(piece).as_bytes())
}

fn cut(alloc: Global, list: &str) -> Result<Vec<&str>, AllocError>
    ensures { IfOk result (λ v. texts_of v.items ≡ pieces list.now) }
{
    list.split(',').collect(alloc)
}

fn are_users(list: &[&str]) -> bool
    ensures { result ≡ list_all is_user (texts_of list.now) }
{
    for piece in list {
        if !is_user(piece) {
            return false;
        }
    }
    true
}

fn names_differ(alloc: Global, list: &[&str]) -> Result<bool, AllocError>
    ensures { IfOk result (λ b. b ≡ all_differ (map name_part (texts_of list.now))) }
{
    let mut seen = BTreeSet::new(alloc);
    for piece in list {
        let name = name_part(piece);
        if !seen.insert(name)? {
            return Ok(false);
        }
    }
    Ok(true)
}

fn user(alloc: Global, piece: &str) -> Result<User, AllocError>
    ensures { IfOk result (λ u. u ≡ user_of piece.now) }
{
    Ok(User {
        name: Text::from_str(alloc, name_part(piece))?,
        secret: Text::from_str(alloc, secret_part(piece))?,
    })
}

fn users(alloc: Global, list: &[&str]) -> Result<Vec<User>, AllocError>
    ensures { IfOk result (λ v. v.items ≡ map user_of (texts_of list.now)) }
{
    let mut all = Vec::new(alloc);
    for piece in list {
        all.push(user(alloc, piece)?)?;
    }
    Ok(all)
}

/// The users of a list such as `admin:pw,ann:a`, in their order: 1 to 1000 pairs `NAME:SECRET` between commas. A name has 1 to 64 letters,
/// digits, dots, dashes and underscores; names differ, and none is `anonymous` or `anyone`. A secret has 1 to 64 bytes from 0x21 to 0x7E, no comma.
pub fn read_users(alloc: Global, list: &str) -> Result<Users, UsersStop>
    ensures { ReadsUsers result list.now }
{
    let list = cut(alloc, list)?;
    if MOST_USERS < list.len() {
        return Err(UsersStop::Words);
    }
    if !are_users(&list) {
        return Err(UsersStop::Words);
    }
    if !names_differ(alloc, &list)? {
        return Err(UsersStop::Words);
    }
    let users = users(alloc, &list)?;
    Ok(Items::from_vec(users))
}
