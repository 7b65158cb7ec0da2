//! Writes on the filing of objects: moving, adding to a folder and removing from folders.
#![tactic(auto)]

ghost use Rattle.std.specs.Prelude.{◌≡◌};

pub mod add_to_folder;
pub mod filing;
pub mod move_object;
pub mod remove_from_folder;
mod shift;
