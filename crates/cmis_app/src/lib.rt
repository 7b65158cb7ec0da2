//! The top call of the program: the runs of `cmis_runs` over the repository with all its calls.
#![tactic(auto)]

ghost use Rattle.std.specs.Prelude.{◌≡◌};

mod alike;
mod calls;
mod folders;
mod kept;
mod program;

pub use alike::replies_of_seen;
pub use cmis_kept::Ran as RanKept;
pub use cmis_runs::Ran;
pub use kept::run_kept;
pub use program::run;
