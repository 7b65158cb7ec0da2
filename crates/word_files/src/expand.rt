//! Words with what the files that they name list.
ghost use Rattle.std.specs.Prelude.{◌≡◌, ◌∷◌, ◌++◌, Ok, codes, map, string_bytes, IfOk, IfErr};
ghost use Rattle.std.specs.List.{flat_map};
ghost use Rattle.cm_base.specs.UserLists.{users_of};
ghost use Rattle.word_files.specs.declared.listed.Kind.TheVariants.{Groups};
ghost use Rattle.word_files.specs.Lines.{list_in};
ghost use Rattle.word_files.specs.Expanding.{Stops, expanded, group_options, options_by, options_for, options_with, users_by, with_users};

use crate::files::FileTexts;
use crate::lines::list_in;
use crate::listed::{FileStop, Kind};
use crate::named::file_of_option;
use cm_base::text::Text;
use cm_base::user::Users;
use cm_base::users::{UsersStop, read_users};
use std::alloc::{AllocError, Global};

fn users_by(alloc: Global, text: &Option<Text>, list: &str) -> Result<Text, FileStop>
    ensures ok { IfOk result (λ l. users_by text.now list.now ≡ Ok l) }
    ensures stop { IfErr result (λ stop. Stops stop (users_by text.now list.now)) }
{
    match text {
        None => {
            let list = Text::from_str(alloc, list)?;
            Ok(list)
        }
        Some(text) => list_in(alloc, &Kind::Users, text.as_str()),
    }
}

fn groups_word(alloc: Global, list: &Text) -> Result<String, AllocError>
    ensures { IfOk result (λ word. string_bytes word ≡ codes "groups=" ++ list.now) }
{
    let mut word = String::from_str(alloc, "groups=")?;
    word.push_str(list.as_str())?;
    Ok(word)
}

// The option for a list of groups, and none where the list is empty.
fn push_groups(alloc: Global, all: &mut Vec<String>, list: &Text) -> Result<(), AllocError>
    ensures { IfOk result (λ _. map string_bytes all.new.items
        ≡ map string_bytes all.old.items ++ group_options list.now) }
{
    match list.bytes() {
        [] => Ok(()),
        [_, ..] => {
            all.push(groups_word(alloc, list)?)?;
            Ok(())
        }
    }
}

fn push_option(
    alloc: Global,
    all: &mut Vec<String>,
    list: &Text,
    option: &str,
) -> Result<(), AllocError>
    ensures { IfOk result (λ _. map string_bytes all.new.items
        ≡ map string_bytes all.old.items ++ options_for list.now option.now) }
{
    match file_of_option(option) {
        None => {
            all.push(String::from_str(alloc, option)?)?;
            Ok(())
        }
        Some(_) => push_groups(alloc, all, list),
    }
}

fn options_by_list(
    alloc: Global,
    list: &Text,
    options: &[String],
) -> Result<Vec<String>, AllocError>
    ensures { IfOk result (λ all. map string_bytes all.items
        ≡ flat_map (options_for list.now) (map string_bytes options.now)) }
{
    let mut all = Vec::new(alloc);
    for option in options {
        push_option(alloc, &mut all, list, option.as_str())?;
    }
    Ok(all)
}

fn copies(alloc: Global, words: &[String]) -> Result<Vec<String>, AllocError>
    ensures { IfOk result (λ all. map string_bytes all.items ≡ map string_bytes words.now) }
{
    let mut all = Vec::new(alloc);
    for word in words {
        all.push(String::from_str(alloc, word.as_str())?)?;
    }
    Ok(all)
}

#[tactic(auto, using(crate::proofs::Stopped::stops_options))]
fn options_of(
    alloc: Global,
    users: Users,
    text: &Text,
    options: &[String],
) -> Result<Vec<String>, FileStop>
    ensures ok { IfOk result (λ all. options_with (list_in (Groups users) text.now) (map string_bytes options.now)
        ≡ Ok (map string_bytes all.items)) }
    ensures stop { IfErr result (λ stop. Stops stop
        (options_with (list_in (Groups users) text.now) (map string_bytes options.now))) }
{
    match list_in(alloc, &Kind::Groups(users), text.as_str()) {
        Ok(list) => {
            let all = options_by_list(alloc, &list, options)?;
            Ok(all)
        }
        Err(stop) => Err(stop),
    }
}

fn options_by(
    alloc: Global,
    text: &Option<Text>,
    list: &Text,
    options: &[String],
) -> Result<Vec<String>, FileStop>
    ensures ok { IfOk result (λ all. options_by text.now (users_of list.now) (map string_bytes options.now)
        ≡ Ok (map string_bytes all.items)) }
    ensures stop { IfErr result (λ stop. Stops stop
        (options_by text.now (users_of list.now) (map string_bytes options.now))) }
{
    match text {
        None => {
            let all = copies(alloc, options)?;
            Ok(all)
        }
        Some(text) => match read_users(alloc, list.as_str()) {
            Ok(users) => options_of(alloc, users, text, options),
            Err(UsersStop::Words) => {
                let all = copies(alloc, options)?;
                Ok(all)
            }
            Err(UsersStop::Memory) => Err(FileStop::Memory),
        },
    }
}

fn joined(
    alloc: Global,
    command: &String,
    list: Text,
    options: Vec<String>,
) -> Result<Vec<String>, AllocError>
    ensures { IfOk result (λ all. map string_bytes all.items
        ≡ string_bytes command.now ∷ list ∷ map string_bytes options.items) }
{
    let mut all = options;
    all.insert(0, list.into_string())?;
    all.insert(0, String::from_str(alloc, command.as_str())?)?;
    Ok(all)
}

// The words of a command with its list of users.
#[tactic(auto, using(crate::proofs::Stopped::stops_beside, crate::proofs::Stopped::stops_users))]
fn with_users(
    alloc: Global,
    command: &String,
    list: &str,
    options: &[String],
    texts: &FileTexts,
) -> Result<Vec<String>, FileStop>
    ensures ok { IfOk result (λ all. with_users (string_bytes command.now) (users_by texts.now.users list.now)
        texts.now.groups (map string_bytes options.now) ≡ Ok (map string_bytes all.items)) }
    ensures stop { IfErr result (λ stop. Stops stop (with_users (string_bytes command.now)
        (users_by texts.now.users list.now) texts.now.groups (map string_bytes options.now))) }
{
    match users_by(alloc, &texts.users, list) {
        Ok(list) => match options_by(alloc, &texts.groups, &list, options) {
            Ok(options) => {
                let all = joined(alloc, command, list, options)?;
                Ok(all)
            }
            Err(stop) => Err(stop),
        },
        Err(stop) => Err(stop),
    }
}

/// The words with what the files that they name list, whose texts these are: in place of USERS, and of each option `groups=@FILE`, the lines of the
/// file between commas, without blank ones and comments. A line is a user, or a group of the users of the words. An option whose file lists no group
/// is left out.
pub fn expanded(alloc: Global, words: &[String], texts: &FileTexts) -> Result<Vec<String>, FileStop>
    ensures ok { IfOk result (λ all. expanded texts.now.users texts.now.groups (map string_bytes words.now)
        ≡ Ok (map string_bytes all.items)) }
    ensures stop { IfErr result (λ stop. Stops stop
        (expanded texts.now.users texts.now.groups (map string_bytes words.now))) }
{
    match words {
        [] => Ok(Vec::new(alloc)),
        [_] => {
            let all = copies(alloc, words)?;
            Ok(all)
        }
        [command, list, options @ ..] => {
            match with_users(alloc, command, list.as_str(), options, texts) {
                Ok(all) => Ok(all),
                Err(stop) => Err(stop),
            }
        }
    }
}
