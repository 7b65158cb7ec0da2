//! Laws of limits: each as a clause of a function that does nothing. What a repository takes under its limits it takes under greater ones, with the
//! same answer, and becomes the same but for the limits; so a journal that was written under some limits can be read under greater ones, and a
//! run can go on under others. What a question is answered does not depend on them.
#![tactic(auto)]

ghost use Rattle.std.specs.Prelude.{◌≡◌};

pub mod answer;
pub mod entry;
pub mod history;
