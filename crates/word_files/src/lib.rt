//! Words of the program that name a file: `@FILE` where USERS stands, and `groups=@FILE`. Each holds a user or a group on each line.
#![tactic(auto)]

ghost use Rattle.std.specs.Prelude.{◌≡◌};

pub mod expand;
pub mod files;
mod lines;
pub mod listed;
pub mod messages;
pub mod named;
mod system;
#[cfg(test)]
mod tests;

pub use system::SystemFiles;
