//! When another look at unfinished bytes is worth it. A look costs as much as there are bytes; so one comes where a line that can finish
//! them has ended, where they have doubled since the last look, or at their limit. Only new bytes are looked at for the line ends.
ghost use Rattle.std.specs.Prelude.{◌≡◌, ◌≤◌, length, true};

/// How far the bytes were looked at.
#[derive(Clone, Copy)]
pub struct Pace {
    scanned: usize,
    examined: usize,
    begun: bool,
    blank: bool,
    each_line: bool,
}

impl Pace {
    /// For a head: an empty line behind other lines finishes it.
    pub fn for_head() -> Pace {
        Pace {
            scanned: 0,
            examined: 0,
            begun: false,
            blank: true,
            each_line: false,
        }
    }

    /// For the trailers: an empty line finishes them.
    pub fn for_trailers() -> Pace {
        Pace {
            scanned: 0,
            examined: 0,
            begun: true,
            blank: true,
            each_line: false,
        }
    }

    /// For the line before a chunk.
    pub fn for_line() -> Pace {
        Pace {
            scanned: 0,
            examined: 0,
            begun: true,
            blank: true,
            each_line: true,
        }
    }

    // Whether a line ends with the next byte that can finish the bytes.
    fn step(&mut self, b: u8) -> bool {
        match b {
            b'\n' => {
                let ends = self.begun && (self.each_line || self.blank);
                self.blank = true;
                ends
            }
            b'\r' => false,
            _ => {
                self.begun = true;
                self.blank = false;
                false
            }
        }
    }

    // Whether such a line ends among the new bytes, which are looked at up to its end.
    fn scan(&mut self, bytes: &[u8]) -> bool {
        if let Some(new) = bytes.get(self.scanned..) {
            for b in new {
                self.scanned = self.scanned.saturating_add(1);
                if self.step(*b) {
                    return true;
                }
            }
        }
        false
    }

    /// Whether another look at the bytes is worth it. At the limit it always is.
    pub fn is_worth(&mut self, bytes: &[u8], limit: usize) -> bool
        ensures { limit ≤ length bytes.now → result ≡ true }
    {
        let ended = self.scan(bytes);
        let worth = ended || limit <= bytes.len() || self.examined <= bytes.len() / 2;
        if worth {
            self.examined = bytes.len();
        }
        worth
    }
}
