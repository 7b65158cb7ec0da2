//! The words that every crate uses: texts, numbers, values, the plain records of a repository, causes of refusals.
#![tactic(auto)]

ghost use Rattle.std.specs.Prelude.{◌≡◌};

pub mod access;
pub mod argument;
pub mod asked;
pub mod body;
pub mod cause;
pub mod content;
pub mod copies;
pub mod decimal;
pub mod exception;
pub mod fail;
pub mod filing;
pub mod items;
pub mod limits;
pub mod log;
pub mod media;
pub mod name;
pub mod number;
pub mod object;
pub mod piece;
pub mod pieces;
pub mod series;
pub mod shared;
pub mod shown;
pub mod steps;
pub mod text;
pub mod user;
pub mod users;
pub mod value;
