//! The runs of the program over a repository, whatever calls it has: one session, many at once, loads and schedules. It is generic in the machine.
#![tactic(auto)]

ghost use Rattle.std.specs.Prelude.{◌≡◌};

mod loaded;
mod made;
mod many;
mod once;
mod running;
mod scheduled;
pub mod scripting;
mod start;
mod summary;

pub use loaded::load;
pub use many::serve;
pub use once::run_once;
pub use running::{Ran, run};
pub use scheduled::schedule;
