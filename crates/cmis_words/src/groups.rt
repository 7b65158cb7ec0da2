//! The list of groups that the program is given: `NAME:MEMBER+MEMBER` at each place between commas.
ghost use Rattle.std.specs.Prelude.{◌≡◌, ◌≤◌, ◌&&◌, not, map, length, bytes_eq, IfOk};
ghost use Rattle.std.specs.List.{list_all, list_any, slice_split, insert, after_first};
ghost use Rattle.cm_base.specs.declared.user.Group.{Group};
ghost use Rattle.cm_base.specs.UserLists.{all_differ, has_user_length, is_colon, is_reserved_name, is_user_byte, is_user_name, name_part, pieces, texts_of};
ghost use Rattle.cmis_spec.specs.Well.{is_user};
ghost use Rattle.cmis_words.specs.GroupLists.{ReadsEach, ReadsGroup, ReadsGroups, is_plus, put_group};

use crate::words::WordsStop;
use call_parts::names::Names;
use cm_base::copies::Copies;
use cm_base::items::Items;
use cm_base::text::{Text, Texts};
use cm_base::user::{Group, Groups, User};
use cm_base::users::LONGEST_USER_NAME;
use std::alloc::{AllocError, Global};
use std::collections::BTreeSet;

/// The most groups of a list.
pub const MOST_GROUPS: usize = 100;

fn is_user_byte(b: u8) -> bool
    ensures { result ≡ is_user_byte b }
{
    b.is_ascii_lowercase()
        || b.is_ascii_uppercase()
        || b.is_ascii_digit()
        || b == b'.'
        || b == b'-'
        || b == b'_'
}

fn has_user_length(bytes: &[u8]) -> bool
    ensures { result ≡ has_user_length bytes.now }
{
    0 < bytes.len() && bytes.len() <= LONGEST_USER_NAME
}

fn is_reserved_name(name: &[u8]) -> bool
    ensures { result ≡ is_reserved_name name.now }
{
    name == "anonymous".as_bytes() || name == "anyone".as_bytes()
}

fn are_user_bytes(name: &[u8]) -> bool
    ensures { result ≡ list_all is_user_byte name.now }
{
    name.iter().all(|b| is_user_byte(*b))
}

// Whether the name is formed like a user's.
fn is_user_name(name: &[u8]) -> bool
    ensures { result ≡ is_user_name name.now }
{
    has_user_length(name) && are_user_bytes(name) && !is_reserved_name(name)
}

fn has_colon(piece: &str) -> bool
    ensures { result ≡ list_any is_colon piece.now }
{
    piece.as_bytes().iter().any(|b| *b == b':')
}

fn name_part(piece: &str) -> &str
    ensures { result.now ≡ name_part piece.now }
{
    match piece.split_once(':') {
        Some((name, _)) => name,
        None => piece,
    }
}

fn behind_colon(piece: &str) -> &str
    ensures { result.now ≡ after_first is_colon piece.now }
{
    match piece.split_once(':') {
        Some((_, members)) => members,
        None => "",
    }
}

fn cut(alloc: Global, list: &str) -> Result<Vec<&str>, AllocError>
    ensures { IfOk result (λ v. texts_of v.items ≡ pieces list.now) }
{
    list.split(',').collect(alloc)
}

fn cut_members(alloc: Global, members: &str) -> Result<Vec<&str>, AllocError>
    ensures { IfOk result (λ v. texts_of v.items ≡ slice_split is_plus members.now) }
{
    members.split('+').collect(alloc)
}

fn texts(alloc: Global, words: &[&str]) -> Result<Texts, AllocError>
    ensures { IfOk result (λ all. all ≡ texts_of words.now) }
{
    let mut all = Items::new(alloc);
    for word in words {
        all.push(Text::from_str(alloc, word)?)?;
    }
    Ok(all)
}

fn group_names(alloc: Global, list: &[&str]) -> Result<Texts, AllocError>
    ensures { IfOk result (λ all. all ≡ map name_part (texts_of list.now)) }
{
    let mut all = Items::new(alloc);
    for piece in list {
        all.push(Text::from_str(alloc, name_part(piece))?)?;
    }
    Ok(all)
}

fn user_names(alloc: Global, users: &[User]) -> Result<Texts, AllocError>
    ensures { IfOk result (λ all. all ≡ map (λ u. u.name) users.now) }
{
    let mut all = Items::new(alloc);
    for user in users {
        all.push(user.name.copied(alloc)?)?;
    }
    Ok(all)
}

// Whether no two of the names are the same.
fn differ(alloc: Global, names: &[Text]) -> Result<bool, AllocError>
    ensures { IfOk result (λ b. b ≡ all_differ names.now) }
{
    let mut seen = BTreeSet::new(alloc);
    for name in names {
        if !seen.insert(name.as_str())? {
            return Ok(false);
        }
    }
    Ok(true)
}

fn are_users(users: &Names, members: &[Text]) -> bool
    ensures { result ≡ list_all (is_user users.now) members.now }
{
    members.iter().all(|member| users.has(member))
}

fn is_group_name(users: &Names, name: &Text) -> bool
    ensures { result ≡ (is_user_name name.now && not (is_user users.now name.now)) }
{
    is_user_name(name.bytes()) && !users.has(name)
}

fn group(alloc: Global, users: &Names, piece: &str) -> Result<Group, WordsStop>
    ensures { ReadsGroup result users.now piece.now }
{
    if !has_colon(piece) {
        return Err(WordsStop::NotValid);
    }
    let name = Text::from_str(alloc, name_part(piece))?;
    if !is_group_name(users, &name) {
        return Err(WordsStop::NotValid);
    }
    let members = cut_members(alloc, behind_colon(piece))?;
    let members = texts(alloc, &members)?;
    if !are_users(users, members.as_slice()) {
        return Err(WordsStop::NotValid);
    }
    if !differ(alloc, members.as_slice())? {
        return Err(WordsStop::NotValid);
    }
    Ok(Group { name, members })
}

// The place of a group with this name among others in byte order of their names.
#[tactic(auto, using(crate::proofs::Placed::placed_here, crate::proofs::Placed::placed_later))]
fn place(sorted: &[Group], name: &Text) -> usize
    ensures within { result ≤ length sorted.now }
    ensures place { (g : Group) → g.name ≡ name.now → put_group sorted.now g ≡ insert sorted.now result g }
{
    match sorted {
        [] => 0,
        [first, rest @ ..] => if name.cmp(&first.name).is_lt() {
            0
        } else {
            place(rest, name) + 1
        },
    }
}

fn put_group(sorted: &mut Vec<Group>, group: Group) -> Result<(), AllocError>
    ensures { IfOk result (λ _. sorted.new.items ≡ put_group sorted.old.items group) }
{
    let at = place(sorted, &group.name);
    sorted.insert(at, group)?;
    Ok(())
}

fn groups(alloc: Global, users: &Names, list: &[&str]) -> Result<Groups, WordsStop>
    ensures { ReadsEach result users.now (texts_of list.now) }
{
    let mut all = Vec::new(alloc);
    for piece in list {
        match group(alloc, users, piece) {
            Ok(group) => put_group(&mut all, group)?,
            Err(stop) => {
                return Err(stop);
            }
        }
    }
    Ok(Items::from_vec(all))
}

/// The groups of a list such as `staff:ann+bob,clerks:bob`, in byte order of their names: 1 to 100 items `NAME:MEMBER+MEMBER` between commas.
/// A name is formed like a user's; names differ, and none is a user's. Members are users, each at most once in a group, and at least one.
pub fn read_groups(alloc: Global, users: &[User], list: &str) -> Result<Groups, WordsStop>
    ensures { ReadsGroups result (map (λ u. u.name) users.now) list.now }
{
    let list = cut(alloc, list)?;
    if MOST_GROUPS < list.len() {
        return Err(WordsStop::NotValid);
    }
    let names = group_names(alloc, &list)?;
    if !differ(alloc, names.as_slice())? {
        return Err(WordsStop::NotValid);
    }
    let users = Names::from_texts(alloc, user_names(alloc, users)?)?;
    let groups = groups(alloc, &users, &list)?;
    Ok(groups)
}
