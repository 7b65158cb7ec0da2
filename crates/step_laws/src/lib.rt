//! Laws of all writes together, and of what is sent: each as a clause of a function that does nothing. A step, and so a replay, keeps what is
//! well formed; what is sent of an answer follows from what the caller sees; and why a write is refused is the same at each moment, but for
//! retention.
#![tactic(auto)]

ghost use Rattle.std.specs.Prelude.{◌≡◌};

pub mod alike;
pub mod refused;
pub mod well;
