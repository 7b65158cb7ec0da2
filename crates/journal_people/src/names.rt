//! Names of users, as they are told apart.
ghost use Rattle.std.specs.Prelude.{◌≡◌, find, not};
ghost use Rattle.std.specs.List.{list_all};
ghost use Rattle.std.specs.Option.{option_copied};
ghost use Rattle.cm_base.specs.UserLists.{all_differ, has_user_length, is_reserved_name, is_user_byte, is_user_name};
ghost use Rattle.cmis_spec.specs.Repository.{administrator_of};
ghost use Rattle.cmis_spec.specs.Well.{is_user};
ghost use Rattle.journal_people.specs.Meetings.{same_names};

use cm_base::text::Text;
use cm_base::users::LONGEST_USER_NAME;

fn is_user_byte(b: u8) -> bool
    ensures { result ≡ is_user_byte b }
{
    b.is_ascii_lowercase()
        || b.is_ascii_uppercase()
        || b.is_ascii_digit()
        || b == b'.'
        || b == b'-'
        || b == b'_'
}

fn has_user_length(name: &[u8]) -> bool
    ensures { result ≡ has_user_length name.now }
{
    0 < name.len() && name.len() <= LONGEST_USER_NAME
}

fn are_user_bytes(name: &[u8]) -> bool
    ensures { result ≡ list_all is_user_byte name.now }
{
    name.iter().all(|b| is_user_byte(*b))
}

/// Whether the name stands for a caller without credentials, or for every caller.
pub(crate) fn is_reserved_name(name: &[u8]) -> bool
    ensures { result ≡ is_reserved_name name.now }
{
    name == "anonymous".as_bytes() || name == "anyone".as_bytes()
}

/// Whether the name is formed like a user's.
pub(crate) fn is_user_name(name: &[u8]) -> bool
    ensures { result ≡ is_user_name name.now }
{
    has_user_length(name) && are_user_bytes(name) && !is_reserved_name(name)
}

/// Whether the name is one of these users'.
pub(crate) fn is_user(users: &[Text], name: &Text) -> bool
    ensures { result ≡ is_user users.now name.now }
{
    let mut rest = users;
    while let [first, later @ ..] = rest {
        if name.is(first) {
            return true;
        }
        rest = later;
    }
    false
}

/// Whether no two of the names are the same.
pub(crate) fn all_differ(names: &[Text]) -> bool
    ensures { result ≡ all_differ names.now }
{
    let mut rest = names;
    while let [first, later @ ..] = rest {
        if is_user(later, first) {
            return false;
        }
        rest = later;
    }
    true
}

/// Whether the names are the same, in the same order.
pub(crate) fn same_names(names: &[Text], others: &[Text]) -> bool
    ensures { result ≡ same_names names.now others.now }
{
    let mut left = names;
    let mut right = others;
    while let [first, later @ ..] = left {
        let [other, behind @ ..] = right else {
            return false;
        };
        if !first.is(other) {
            return false;
        }
        left = later;
        right = behind;
    }
    right.is_empty()
}

/// The first of the names that none of these users has.
pub(crate) fn first_lacking<'a>(names: &'a [Text], users: &[Text]) -> Option<&'a Text>
    ensures { option_copied result ≡ find (λ name. not (is_user users.now name)) names.now }
{
    let mut rest = names;
    while let [name, later @ ..] = rest {
        if !is_user(users, name) {
            return Some(name);
        }
        rest = later;
    }
    None
}

/// The name of the administrator, who is the first user.
pub(crate) fn administrator_of(names: &[Text]) -> &str
    ensures { result.now ≡ administrator_of names.now }
{
    match names {
        [] => "",
        [first, ..] => first.as_str(),
    }
}
