//! Files whose texts words name, and those in memory.
ghost use Rattle.std.specs.Prelude.{◌≡◌, Some, List, Option, IfSome, map, option_map, string_bytes, bytes_eq, IfOk, IfErr};
ghost use Rattle.std.specs.List.{find};
ghost use Rattle.word_files.specs.declared.files.MemFile.{MemFile};
ghost use Rattle.word_files.specs.Files.{AreTexts, Faults, Gives, Holds, IsUnread, stop_of, text_at, text_in};

use crate::listed::{FileStop, Listed};
use crate::named::{groups_file, users_file};
use cm_base::copies::Copies;
use cm_base::text::Text;
use std::alloc::Global;

/// Why the text of a file is not read.
#[derive(Clone, Copy, Debug, PartialEq, Eq)]
pub enum FileFault {
    /// It is not there, could not be read, is too long, or is no text.
    NotRead,
    /// Others than its owner may do something with it.
    Shared,
    /// There was no memory.
    Memory,
}

/// A file in memory.
#[derive(Drop)]
pub struct MemFile {
    pub name: Text,
    pub text: Text,
    /// Whether others than its owner may do something with it.
    pub shared: bool,
}

/// Files whose texts words name.
pub trait TextFiles {
    /// Its files, where it tells them. A real one doesn't.
    ghost told: { Self → Option (List MemFile) };

    /// The text of the file of this name.
    fn text(&self, alloc: Global, name: &str) -> Result<Text, FileFault>
        ensures { IfSome (told self.now) (λ files. Gives result (text_in files name.now)) };
}

/// Files in memory. Of several with the same name the first counts.
#[derive(Drop)]
pub struct MemFiles {
    pub files: Vec<MemFile>,
}

fn named<'a>(files: &'a [MemFile], name: &str) -> Option<&'a MemFile>
    ensures { option_map (λ f. f.now) result ≡ find (λ file. bytes_eq file.name name.now) files.now }
{
    files.iter().find(|file| file.name.is_str(name))
}

impl TextFiles for MemFiles {
    ghost told = { λ f. Some f.files.items };

    fn text(&self, alloc: Global, name: &str) -> Result<Text, FileFault> {
        match named(&self.files, name) {
            None => Err(FileFault::NotRead),
            Some(file) => if file.shared {
                Err(FileFault::Shared)
            } else {
                match file.text.copied(alloc) {
                    Ok(text) => Ok(text),
                    Err(_) => Err(FileFault::Memory),
                }
            },
        }
    }
}

/// The texts of the files that words name: of users, and of groups.
#[derive(Drop)]
pub struct FileTexts {
    pub users: Option<Text>,
    pub groups: Option<Text>,
}

fn stop_of(listed: Listed, fault: FileFault) -> FileStop
    ensures { result ≡ stop_of listed fault }
{
    match fault {
        FileFault::NotRead => FileStop::NotRead(listed),
        FileFault::Shared => FileStop::Shared(listed),
        FileFault::Memory => FileStop::Memory,
    }
}

fn text_at<F: TextFiles>(
    alloc: Global,
    files: &F,
    name: Option<&str>,
) -> Result<Option<Text>, FileFault>
    ensures ok { IfSome (F.told files.now)
        (λ held. IfOk result (λ text. Holds held (option_map (λ n. n.now) name.entry) text)) }
    ensures fault { IfSome (F.told files.now)
        (λ held. IfErr result (λ fault. Faults fault (text_at held (option_map (λ n. n.now) name.entry)))) }
{
    match name {
        None => Ok(None),
        Some(name) => match files.text(alloc, name) {
            Ok(text) => Ok(Some(text)),
            Err(fault) => Err(fault),
        },
    }
}

/// The texts of the files that the words name, each of which is read once.
pub fn read_texts<F: TextFiles>(
    alloc: Global,
    files: &F,
    words: &[String],
) -> Result<FileTexts, FileStop>
    ensures ok { IfSome (F.told files.now)
        (λ held. IfOk result (λ texts. AreTexts held (map string_bytes words.now) texts)) }
    ensures stop { IfSome (F.told files.now)
        (λ held. IfErr result (λ stop. IsUnread held (map string_bytes words.now) stop)) }
{
    match text_at(alloc, files, users_file(words)) {
        Ok(users) => match text_at(alloc, files, groups_file(words)) {
            Ok(groups) => Ok(FileTexts { users, groups }),
            Err(fault) => Err(stop_of(Listed::Groups, fault)),
        },
        Err(fault) => Err(stop_of(Listed::Users, fault)),
    }
}
