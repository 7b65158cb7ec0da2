//! Reading into a window, which grows with what has come.
ghost use Rattle.std.specs.Prelude.{◌≡◌, ◌+◌, ◌-◌, ◌≤◌, ◌<◌, [], length, take, drop, IfOk, OnOk};
ghost use Rattle.outside.specs.Outside.{Reads, HasCause};
ghost use Rattle.http_wire.specs.Windows.{held, More};

use crate::fault::WireStop;
use crate::window::Window;
use outside::{Failed, Source};
use std::alloc::{AllocError, Global};

/// The least room that a read has.
const LEAST_ROOM: usize = 4096;

/// Reads once into the bytes from end on.
pub fn read_at<S: Source>(source: &mut S, bytes: &mut Vec<u8>, end: usize) -> Result<usize, Failed>
    requires { end < length bytes.old.items }
    ensures front { take end bytes.new.items ≡ take end bytes.old.items }
    ensures len { length bytes.new.items ≡ length bytes.old.items }
    ensures bound { IfOk result (λ n. end + n ≤ length bytes.new.items) }
    ensures bytes { Reads (S.told source.old) (S.told source.new) result (drop end bytes.new.items) }
    ensures aside { S.aside source.new ≡ S.aside source.old }
    ensures cause { HasCause (S.told source.old).faults (S.told source.new).faults result }
{
    source.read(&mut bytes[end..])
}

/// Grows a vector to more bytes than it has: by half of them or more.
pub fn grow(bytes: &mut Vec<u8>) -> Result<(), AllocError>
    ensures room { OnOk result (length bytes.old.items < length bytes.new.items) }
    ensures front { take (length bytes.old.items) bytes.new.items ≡ bytes.old.items }
{
    let len = bytes.len();
    bytes.resize(len + len.max(LEAST_ROOM), 0)
}

impl Window {
    /// No bytes.
    pub fn new(alloc: Global) -> Window
        ensures { held result ≡ [] }
    {
        Window {
            bytes: Vec::new(alloc),
            start: 0,
            end: 0,
        }
    }

    /// Its bytes.
    pub fn as_slice(&self) -> &[u8]
        ensures { result.now ≡ held self.now }
    {
        &self.bytes[self.start..self.end]
    }

    /// Drops bytes from the front.
    pub fn drop_front(&mut self, count: usize)
        requires { count ≤ length (held self.old) }
        ensures { held self.new ≡ drop count (held self.old) }
    {
        self.start += count;
    }

    // Moves the bytes to the front of the vector.
    fn shift(&mut self)
        requires { 0 < self.old.start }
        ensures held { held self.new ≡ held self.old }
        ensures room { self.new.end < length self.new.bytes.items }
    {
        self.bytes.copy_within(self.start..self.end, 0);
        self.end -= self.start;
        self.start = 0;
    }

    // Makes room behind the bytes.
    fn make_room(&mut self) -> Result<(), AllocError>
        ensures held { held self.new ≡ held self.old }
        ensures room { OnOk result (self.new.end < length self.new.bytes.items) }
    {
        if self.end < self.bytes.len() {
            return Ok(());
        }
        if self.start > 0 {
            self.shift();
            return Ok(());
        }
        grow(&mut self.bytes)
    }

    /// Reads once, and adds what came. False is the end.
    pub fn read_more<S: Source>(&mut self, source: &mut S) -> Result<bool, WireStop>
        ensures more { More (held self.old) (held self.new) (S.told source.old) (S.told source.new) result }
        ensures aside { S.aside source.new ≡ S.aside source.old }
    {
        let Ok(()) = self.make_room() else {
            return Err(WireStop::Memory);
        };
        match read_at(source, &mut self.bytes, self.end) {
            Ok(0) => Ok(false),
            Ok(count) => {
                self.end += count;
                Ok(true)
            }
            Err(_) => Err(WireStop::ReadFault),
        }
    }
}
