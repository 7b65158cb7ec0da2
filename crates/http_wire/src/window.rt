//! The bytes that were read and not used yet. They stand between two offsets of one vector.
ghost use Rattle.std.specs.Prelude.{◌≤◌, length};

/// The bytes from start to end.
#[derive(Drop)]
pub struct Window {
    pub(crate) bytes: Vec<u8>,
    pub(crate) start: usize,
    pub(crate) end: usize,
    ghost in_range: { (start ≤ end) × (end ≤ length bytes.items) },
}
