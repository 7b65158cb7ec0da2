//! Files of users and of groups in memory and of the system, and what words that name them stand for.
use crate::SystemFiles;
use crate::expand::expanded;
use crate::files::{FileFault, FileTexts, MemFile, MemFiles, TextFiles, read_texts};
use crate::listed::{FileStop, Listed};
use cm_base::text::Text;
use std::alloc::{AllocError, Global};
use std::fs::{self, Permissions};
use std::os::unix::fs::PermissionsExt;

fn text(alloc: Global, users: &str, groups: &str) -> Result<FileTexts, AllocError> {
    let users = Some(Text::from_str(alloc, users)?);
    let groups = Some(Text::from_str(alloc, groups)?);
    Ok(FileTexts { users, groups })
}

fn words(alloc: Global) -> Result<Vec<String>, AllocError> {
    let mut all = Vec::new(alloc);
    for word in ["pipe", "@u", "groups=@g"] {
        all.push(String::from_str(alloc, word)?)?;
    }
    Ok(all)
}

// The words that these texts of users and groups stand for, with a blank between them.
fn told(alloc: Global, users: &str, groups: &str) -> Result<String, FileStop> {
    let texts = text(alloc, users, groups)?;
    let words = expanded(alloc, &words(alloc)?, &texts)?;
    Ok(words.join(alloc, " ")?)
}

#[test]
fn lines_are_a_list(rt: HostRuntime) -> Result<(), FileStop> {
    let words = told(
        rt.alloc(),
        "# ours\nadmin:pw\n \t\nann:a:b\n",
        "all:ann+admin",
    )?;
    assert_eq!(rt;
        words.as_str(),
        "pipe admin:pw,ann:a:b groups=all:ann+admin"
    );
    Ok(())
}

#[test]
fn file_without_groups_is_no_option(rt: HostRuntime) -> Result<(), FileStop> {
    let words = told(rt.alloc(), "admin:pw", "# none yet\n")?;
    assert_eq!(rt; words.as_str(), "pipe admin:pw");
    Ok(())
}

#[test]
fn first_bad_line_is_told(rt: HostRuntime) {
    let cases = [
        ("admin:pw\n\nann\nbob", "", Listed::Users, 3),
        ("admin:pw\nann:a,bob:b", "", Listed::Users, 2),
        (" admin:pw", "", Listed::Users, 1),
        ("admin:pw", "#\nall:ann", Listed::Groups, 2),
    ];
    for (users, groups, listed, number) in cases {
        assert!(rt; told(rt.alloc(), users, groups).err() == Some(FileStop::Line(listed, number)));
    }
}

// The file of users, and whether others may do something with it.
fn users_file(alloc: Global, shared: bool) -> Result<MemFiles, AllocError> {
    let mut files = Vec::new(alloc);
    files.push(MemFile {
        name: Text::from_str(alloc, "u")?,
        text: Text::from_str(alloc, "admin:pw")?,
        shared,
    })?;
    Ok(MemFiles { files })
}

#[test]
fn shared_file_is_refused(rt: HostRuntime) -> Result<(), FileStop> {
    let files = users_file(rt.alloc(), true)?;
    let read = read_texts(rt.alloc(), &files, &words(rt.alloc())?);
    assert!(rt; read.err() == Some(FileStop::Shared(Listed::Users)));
    Ok(())
}

#[test]
fn absent_file_is_refused(rt: HostRuntime) -> Result<(), FileStop> {
    let files = users_file(rt.alloc(), false)?;
    let read = read_texts(rt.alloc(), &files, &words(rt.alloc())?);
    assert!(rt; read.err() == Some(FileStop::NotRead(Listed::Groups)));
    Ok(())
}

// Makes a file of the system with this mode, and reads it.
fn text_of_system(rt: &HostRuntime, name: &str, mode: u32) -> Result<Text, FileFault> {
    let made = fs::write(rt, name, "admin:pw\n").is_ok()
        && fs::set_permissions(rt, name, Permissions::from_mode(mode)).is_ok();
    let read = SystemFiles::new(rt).text(rt.alloc(), name);
    if made && fs::remove_file(rt, name).is_ok() {
        read
    } else {
        Err(FileFault::NotRead)
    }
}

#[test]
fn file_of_its_owner_is_read(rt: HostRuntime) -> Result<(), FileFault> {
    let text = text_of_system(&rt, "users-of-the-owner", 0o600)?;
    assert!(rt; text.is_str("admin:pw\n"));
    Ok(())
}

#[test]
fn file_that_a_group_reads_is_refused(rt: HostRuntime) {
    let read = text_of_system(&rt, "users-of-a-group", 0o640);
    assert!(rt; read.err() == Some(FileFault::Shared));
}

#[test]
fn file_that_is_not_there_is_not_read(rt: HostRuntime) {
    let read = SystemFiles::new(&rt).text(rt.alloc(), "users-that-are-not-there");
    assert!(rt; read.err() == Some(FileFault::NotRead));
}
