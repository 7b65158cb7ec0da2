//! The repository of one thread, its writes and its questions, and the machine of the server, which makes replies as bytes.
#![tactic(auto)]

ghost use Rattle.std.specs.Prelude.{◌≡◌};

pub mod calls;
pub mod law;
pub mod repository_machine;
pub mod restarts;
pub mod served;
pub mod server_machine;
