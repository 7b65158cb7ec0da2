//! Pages of lists; and the answers about objects and children that are shown with their properties alone, as definitions.
#![tactic(auto)]

ghost use Rattle.std.specs.Prelude.{◌≡◌};

pub mod page;
