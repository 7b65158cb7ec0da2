//! Scripts: lines that each ask for one step of a session, read one after the other from a source.
#![tactic(auto)]

ghost use Rattle.std.specs.Prelude.{◌≡◌};

mod ahead;
mod laws;
mod line;
mod reader;
mod step;

pub use laws::script_is_kept;
pub use reader::{ScriptReader, ScriptStop};
pub use step::{Act, Step};
