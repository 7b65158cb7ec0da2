//! The lines of a file, and the list that they make.
ghost use Rattle.std.specs.Prelude.{◌≡◌, ◌<◌, Ok, [], map, fold, suc, length, option_map, string_bytes, IfOk, IfErr, IfSome};
ghost use Rattle.std.specs.List.{list_all, list_any, position};
ghost use Rattle.cm_base.specs.UserLists.{is_comma, texts_of};
ghost use Rattle.word_files.specs.declared.listed.FileStop.TheVariants.{Memory};
ghost use Rattle.word_files.specs.Lines.{bad_line, is_bad, is_blank, is_comment, is_group_line, is_line, is_user_line, lines, list_in, list_of, says, with_item, with_line};
ghost use Rattle.word_files.specs.Expanding.{Stops};

use crate::listed::{FileStop, Kind};
use cm_base::text::Text;
use cm_base::user::User;
use cm_base::users::{UsersStop, read_users};
use cmis_words::groups::read_groups;
use cmis_words::words::WordsStop;
use std::alloc::{AllocError, Global};

fn cut(alloc: Global, text: &str) -> Result<Vec<&str>, AllocError>
    ensures { IfOk result (λ v. texts_of v.items ≡ lines text.now) }
{
    text.split('\n').collect(alloc)
}

fn is_blank(b: u8) -> bool
    ensures { result ≡ is_blank b }
{
    b == b' ' || b == b'\t'
}

fn are_blanks(line: &str) -> bool
    ensures { result ≡ list_all is_blank line.now }
{
    line.as_bytes().iter().all(|b| is_blank(*b))
}

fn is_comment(line: &str) -> bool
    ensures { result ≡ is_comment line.now }
{
    match line.as_bytes() {
        [] => false,
        [first, ..] => *first == b'#',
    }
}

fn says(line: &str) -> bool
    ensures { result ≡ says line.now }
{
    !(are_blanks(line) || is_comment(line))
}

fn has_comma(line: &str) -> bool
    ensures { result ≡ list_any is_comma line.now }
{
    line.as_bytes().iter().any(|b| *b == b',')
}

fn is_user_line(alloc: Global, line: &str) -> Result<bool, FileStop>
    ensures ok { IfOk result (λ b. b ≡ is_user_line line.now) }
    ensures memory { IfErr result (λ stop. stop ≡ Memory) }
{
    if has_comma(line) {
        return Ok(false);
    }
    match read_users(alloc, line) {
        Ok(_) => Ok(true),
        Err(UsersStop::Words) => Ok(false),
        Err(UsersStop::Memory) => Err(FileStop::Memory),
    }
}

fn is_group_line(alloc: Global, users: &[User], line: &str) -> Result<bool, FileStop>
    ensures ok { IfOk result (λ b. b ≡ is_group_line (map (λ u. u.name) users.now) line.now) }
    ensures memory { IfErr result (λ stop. stop ≡ Memory) }
{
    if has_comma(line) {
        return Ok(false);
    }
    match read_groups(alloc, users, line) {
        Ok(_) => Ok(true),
        Err(WordsStop::NotValid) => Ok(false),
        Err(WordsStop::Memory) => Err(FileStop::Memory),
    }
}

fn is_line(alloc: Global, kind: &Kind, line: &str) -> Result<bool, FileStop>
    ensures ok { IfOk result (λ b. b ≡ is_line kind.now line.now) }
    ensures memory { IfErr result (λ stop. stop ≡ Memory) }
{
    match kind {
        Kind::Users => is_user_line(alloc, line),
        Kind::Groups(users) => is_group_line(alloc, users.as_slice(), line),
    }
}

fn is_bad(alloc: Global, kind: &Kind, line: &str) -> Result<bool, FileStop>
    ensures ok { IfOk result (λ b. b ≡ is_bad kind.now line.now) }
    ensures memory { IfErr result (λ stop. stop ≡ Memory) }
{
    if !says(line) {
        return Ok(false);
    }
    match is_line(alloc, kind, line) {
        Ok(valid) => Ok(!valid),
        Err(stop) => Err(stop),
    }
}

fn bads(alloc: Global, kind: &Kind, lines: &[&str]) -> Result<Vec<bool>, FileStop>
    ensures ok { IfOk result (λ all. all.items ≡ map (is_bad kind.now) (texts_of lines.now)) }
    ensures memory { IfErr result (λ stop. stop ≡ Memory) }
{
    let mut all = Vec::new(alloc);
    for line in lines {
        all.push(is_bad(alloc, kind, line)?)?;
    }
    Ok(all)
}

fn place(bads: &[bool]) -> Option<usize>
    ensures value { result ≡ position (λ bad. bad) bads.now }
    ensures bound { IfSome result (λ place. place < length bads.now) }
{
    bads.iter().position(|bad| *bad)
}

// The number of the first that is, counted from 1.
fn first(bads: &[bool]) -> Option<u64>
    ensures { result ≡ option_map suc (position (λ bad. bad) bads.now) }
{
    match place(bads) {
        Some(place) => Some(place as u64 + 1),
        None => None,
    }
}

#[tactic(auto, using(crate::proofs::Places::position_of_map))]
fn bad_line(alloc: Global, kind: &Kind, lines: &[&str]) -> Result<Option<u64>, FileStop>
    ensures ok { IfOk result (λ n. n ≡ option_map suc (position (is_bad kind.now) (texts_of lines.now))) }
    ensures memory { IfErr result (λ stop. stop ≡ Memory) }
{
    let bads = bads(alloc, kind, lines)?;
    Ok(first(&bads))
}

fn with_item(list: &mut String, item: &str) -> Result<(), AllocError>
    ensures { IfOk result (λ _. string_bytes list.new ≡ with_item (string_bytes list.old) item.now) }
{
    if list.is_empty() {
        list.push_str(item)
    } else {
        list.push_str(",")?;
        list.push_str(item)
    }
}

fn with_line(list: &mut String, line: &str) -> Result<(), AllocError>
    ensures { IfOk result (λ _. string_bytes list.new ≡ with_line (string_bytes list.old) line.now) }
{
    if says(line) {
        with_item(list, line)
    } else {
        Ok(())
    }
}

fn list_of(alloc: Global, lines: &[&str]) -> Result<String, AllocError>
    ensures { IfOk result (λ list. string_bytes list ≡ fold with_line [] (texts_of lines.now)) }
{
    let mut list = String::new(alloc);
    for line in lines {
        with_line(&mut list, line)?;
    }
    Ok(list)
}

/// The list of a file with this text, or the number of its first line that is not valid.
pub(crate) fn list_in(alloc: Global, kind: &Kind, text: &str) -> Result<Text, FileStop>
    ensures ok { IfOk result (λ list. list_in kind.now text.now ≡ Ok list) }
    ensures stop { IfErr result (λ stop. Stops stop (list_in kind.now text.now)) }
{
    let lines = cut(alloc, text)?;
    match bad_line(alloc, kind, &lines) {
        Ok(Some(number)) => Err(FileStop::Line(kind.listed(), number)),
        Ok(None) => {
            let list = list_of(alloc, &lines)?;
            Ok(Text::from_string(list))
        }
        Err(stop) => Err(stop),
    }
}
