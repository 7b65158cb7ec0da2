//! What requests for types make of single definitions and of lists of property definitions, what they change in them, and which rules
//! they break (CMIS 1.1, sections 2.1.3 and 2.2.2.6 to 2.2.2.7).
#![tactic(auto)]

ghost use Rattle.std.specs.Prelude.{◌≡◌};

pub mod changes;
pub mod clash;
pub mod made;
pub mod placed;
pub mod rules;
pub mod same;
