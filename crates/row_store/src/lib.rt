//! What queries read: a repository by its types, its folders and one object at a time.
#![tactic(auto)]

ghost use Rattle.std.specs.Prelude.{◌≡◌};

pub mod search;
pub mod store;
