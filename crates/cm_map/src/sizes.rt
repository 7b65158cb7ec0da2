//! How many members a block has.

/// The most members of a block.
pub const FULL: usize = 16;

/// How many members stay in a block that is split in the middle.
pub const HALF: usize = 8;

/// Two neighbouring blocks have together more members than this.
pub const FEW: usize = 12;
