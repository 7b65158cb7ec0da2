//! What a repository takes in all, and how it starts.
ghost use Rattle.std.specs.Prelude.{◌≡◌};
ghost use Rattle.cm_base.specs.Limits.{usual_limits, greatest_limits, AreLimits};

use crate::number::Moment;

/// The most steps that a repository takes, and the most bytes that these may cost. A repository that has taken as much refuses each
/// write. Each limit is at most `GREATEST_LIMIT`.
#[derive(Clone, Copy, Debug, PartialEq, Eq)]
pub struct Limits {
    pub most_steps: u64,
    pub most_bytes: u64,
}

/// The greatest number that a limit may be: 2^53 - 1, up to which readers of JSON keep each whole number as it is.
pub const GREATEST_LIMIT: u64 = 9_007_199_254_740_991;

impl Limits {
    /// The limits where nothing else is said: 1,048,576 steps and 2,147,483,648 bytes.
    #[tactic(auto, unfolding(crate::specs::Limits::usual_limits, crate::specs::Limits::greatest_limit))]
    pub fn usual() -> Limits
        ensures value { result ≡ usual_limits }
        ensures within { AreLimits result }
    {
        Limits {
            most_steps: 1_048_576,
            most_bytes: 2_147_483_648,
        }
    }

    /// The greatest limits.
    #[tactic(auto, unfolding(crate::specs::Limits::greatest_limit))]
    pub fn greatest() -> Limits
        ensures value { result ≡ greatest_limits }
        ensures within { AreLimits result }
    {
        Limits {
            most_steps: GREATEST_LIMIT,
            most_bytes: GREATEST_LIMIT,
        }
    }
}

/// How a repository starts: the moment at which its root is made, the step number that it starts with, and its limits.
#[derive(Clone, Copy, Debug, PartialEq, Eq)]
pub struct Start {
    pub moment: Moment,
    pub first_step: u64,
    pub limits: Limits,
}
