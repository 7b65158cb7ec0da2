//! What is asked of the system for an open file.
use crate::folder::folder_of;
use crate::reason::Reason;
use std::fs::{File, OpenOptions, TryLockError};
use std::io;
use std::os::fd::AsRawFd;
use std::os::unix::fs::{FileExt, OpenOptionsExt};
use std::rt::Files;

// The file of this name, which is made where there is none, and then for its owner alone.
fn opened<R: Files<File = File>>(rt: &R, name: &str) -> io::Result<File> {
    OpenOptions::new()
        .read(true)
        .write(true)
        .create(true)
        .mode(0o600)
        .open(rt, name)
}

// Brings the file and its name in its folder to the device.
fn sync_with_folder<R: Files<File = File>>(rt: &R, name: &str, file: &File) -> io::Result<()> {
    file.sync_all()?;
    File::open(rt, folder_of(name))?.sync_all()
}

// Has the system drop what it holds of the file in memory, so that what is read is on the device: of what an earlier process failed to sync, it would
// say nothing any more.
fn forget_pages(file: &File) {
    let _ = libc::posix_fadvise(file.as_raw_fd(), 0, 0, libc::POSIX_FADV_DONTNEED);
}

// Takes the file's lock.
fn take_lock(file: &File) -> Result<(), Reason> {
    match file.try_lock() {
        Ok(()) => Ok(()),
        Err(TryLockError::WouldBlock) => Err(Reason::InUse),
        Err(TryLockError::Error(_)) => Err(Reason::NotOpened),
    }
}

/// The file of this name with its lock, which the system drops with the process. It is made where there is none, and it and its name in
/// its folder are on the device.
pub(crate) fn open_locked<R: Files<File = File>>(rt: &R, name: &str) -> Result<File, Reason> {
    let file = match opened(rt, name) {
        Ok(file) => file,
        Err(_) => return Err(Reason::NotOpened),
    };
    take_lock(&file)?;
    match sync_with_folder(rt, name, &file) {
        Ok(()) => {}
        Err(_) => return Err(Reason::NotSynced),
    }
    forget_pages(&file);
    Ok(file)
}

/// The length of an open file.
pub(crate) fn len_of(file: &Option<File>) -> Option<u64> {
    match file {
        Some(file) => match file.metadata() {
            Ok(told) => Some(told.len()),
            Err(_) => None,
        },
        None => None,
    }
}

/// Fills room with the bytes from `at` on, and says whether it did.
pub(crate) fn read_from(file: &Option<File>, at: u64, room: &mut [u8]) -> bool {
    match file {
        Some(file) => file.read_exact_at(room, at).is_ok(),
        None => false,
    }
}

/// Writes the piece from `at` on, and says whether it did.
pub(crate) fn write_to(file: &Option<File>, at: u64, piece: &[u8]) -> bool {
    match file {
        Some(file) => file.write_all_at(piece, at).is_ok(),
        None => false,
    }
}

/// Brings what was written to the device, with the length, and says whether it did.
pub(crate) fn sync_to_disk(file: &Option<File>) -> bool {
    match file {
        Some(file) => file.sync_data().is_ok(),
        None => false,
    }
}
