//! The files of the system.
ghost use Rattle.std.specs.Prelude.{◌≡◌, None};

use crate::files::{FileFault, TextFiles};
use cm_base::text::Text;
use std::alloc::Global;
use std::fs::{File, OpenFile};
use std::io::{ErrorKind, Read};
use std::os::unix::fs::PermissionsExt;
use std::rt::Files;

/// The most bytes of a file.
pub const LONGEST_FILE: usize = 16_777_216;

// What others than the owner may do: read, write and run.
const OTHERS: u32 = 0o077;

/// The files of the system, which only their owner may read or write, and which have at most `LONGEST_FILE` bytes.
#[derive(Drop)]
pub struct SystemFiles<'a, R: Files> {
    rt: &'a R,
}

impl<'a, R: Files> SystemFiles<'a, R> {
    /// The files that this runtime reaches.
    pub fn new(rt: &'a R) -> SystemFiles<'a, R> {
        SystemFiles { rt }
    }
}

// All bytes of a file. It gives up after so many reads as a file of the greatest length may take.
fn bytes<F: Read>(alloc: Global, file: &mut F) -> Result<Vec<u8>, FileFault> {
    let mut all = Vec::new(alloc);
    let mut room = [0u8; 4096];
    for _ in 0..=LONGEST_FILE {
        match file.read(&mut room) {
            Ok(0) => return Ok(all),
            Ok(count) => {
                if LONGEST_FILE < all.len() {
                    return Err(FileFault::NotRead);
                }
                if all.extend_from_slice(&room[..count]).is_err() {
                    return Err(FileFault::Memory);
                }
            }
            Err(error) if error.kind() == ErrorKind::Interrupted => {}
            Err(_) => return Err(FileFault::NotRead),
        }
    }
    Err(FileFault::NotRead)
}

impl<'a, R: Files> TextFiles for SystemFiles<'a, R> {
    ghost told = { λ _. None };

    fn text(&self, alloc: Global, name: &str) -> Result<Text, FileFault> {
        let Ok(mut file) = File::open(self.rt, name) else {
            return Err(FileFault::NotRead);
        };
        let Ok(metadata) = file.metadata() else {
            return Err(FileFault::NotRead);
        };
        if metadata.permissions().mode() & OTHERS != 0 {
            return Err(FileFault::Shared);
        }
        match String::from_utf8(bytes(alloc, &mut file)?) {
            Ok(text) => Ok(Text::from_string(text)),
            Err(_) => Err(FileFault::NotRead),
        }
    }
}
