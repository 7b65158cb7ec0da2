//! Parameters of a field's value: `; name=value`, where a value is a token or quoted (RFC 2045, section 5.1; RFC 9110, section 5.6.6).
#![tactic(auto)]

ghost use Rattle.std.specs.Prelude.{◌≡◌};

pub mod blanks;
pub mod one;
pub mod params;
pub mod quoted;
pub mod token;
