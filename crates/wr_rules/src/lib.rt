//! What the refusals and effects of writes share.
#![tactic(auto)]

ghost use Rattle.std.specs.Prelude.{◌≡◌};

pub mod content;
pub mod copied;
pub mod costs;
pub mod entries;
pub mod firsts;
pub mod kinds;
pub mod made;
pub mod policies;
pub mod properties;
pub mod retention;
pub mod storage;
pub mod token;
pub mod versions;
pub mod wanted;
