//! The rules of properties: what is wrong with given ones, and the values that are kept (CMIS 1.1, section 2.1.3.3).
#![tactic(auto)]

ghost use Rattle.std.specs.Prelude.{◌≡◌};

pub mod check;
pub mod fault;
pub mod kept;
pub mod lookup;
pub mod text;
