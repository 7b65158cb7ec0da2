//! A repository in the making.
ghost use Rattle.std.specs.Prelude.{◌≡◌, IfOk};
ghost use Rattle.cmis_spec.specs.Well.{IsWellFormed};

use cm_state::parts::Parts;
use cm_state::state::State;
use std::alloc::{AllocError, Global};
use std::marker::Model;

/// A repository in the making, which need not be well formed, seen as the record of its lists. A change takes the draft and gives it back changed.
#[derive(Drop)]
pub struct Draft {
    pub parts: Parts,
}

impl Model for Draft {
    ghost use Rattle.cmis_spec.specs.Repository.{Repository};

    ghost Value = { Repository };

    ghost view = { λ s. s.parts };
}

impl Draft {
    /// A draft of what the state is now, which shares all with it.
    pub fn of(alloc: Global, state: &State) -> Result<Draft, AllocError>
        ensures { IfOk result (λ d. d ≡ state.now) }
    {
        let parts = state.parts().share(alloc)?;
        Ok(Draft { parts })
    }

    /// The parts of the draft.
    pub fn parts(&self) -> &Parts
        ensures { result.now ≡ self.now }
    {
        &self.parts
    }

    /// The state that the draft is, where it is well formed.
    pub fn seal(self) -> State
        requires well { IsWellFormed self }
        ensures { result ≡ self }
    {
        self.parts.seal()
    }
}
