//! What a repository takes in all, where a run begins.
ghost use Rattle.std.specs.Prelude.{◌≡◌, IfOk};
ghost use Rattle.cm_base.specs.Limits.{AreLimits};

use cm_base::limits::Limits;
use cm_state::state::State;
use std::alloc::{AllocError, Global};

/// Limits of states. The words of a run tell them, and the file of a journal doesn't.
pub trait LimitsOf<S>: Drop {
    /// Limits that a state may have.
    ghost are: { Self → Type 0 };

    /// The state under these limits.
    ghost under: { Self → S → S };

    /// The same state under these limits.
    fn under(self, alloc: Global, state: &S) -> Result<S, AllocError>
        requires { are self }
        ensures { IfOk result (λ s. s ≡ under self state.now) };
}

impl LimitsOf<State> for Limits {
    ghost are = { AreLimits };

    ghost under = { λ limits state. record state { limits = limits } };

    fn under(self, alloc: Global, state: &State) -> Result<State, AllocError> {
        state.under(alloc, self)
    }
}
