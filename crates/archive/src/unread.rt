//! Bytes that could not be read.

/// A read of an archive failed, or bytes were to be known that the archive doesn't tell. None is made but by such a read.
#[derive(Debug, Drop)]
pub struct Unread {
    place: u64,
}

impl Unread {
    // A read at this place.
    pub(crate) fn at(place: u64) -> Unread {
        Unread { place }
    }

    /// Where the read began.
    pub fn place(&self) -> u64 {
        self.place
    }
}
