//! What is answered about objects and children with what is shown beside their properties, as text. Where nothing is asked for, the text
//! is written from the state.
#![tactic(auto)]

ghost use Rattle.std.specs.Prelude.{◌≡◌};

mod bare;
pub mod children;
pub mod object;
