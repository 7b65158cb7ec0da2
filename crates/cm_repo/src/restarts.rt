//! How the server's machine begins from a journal, and goes on with other people.
ghost use Rattle.std.specs.Prelude.{◌≡◌, IfOk, refl};

use crate::server_machine::ServerMachine;
use cm_people::{adopted, begun};
use cm_state::state::State;
use journal_people::People;
use journal_replay::{Restarts, Root, Unnumbered};
use std::alloc::{AllocError, Global};

impl Restarts<People> for ServerMachine {
    ghost use Rattle.cm_people.specs.Adopted.{adopted};
    ghost use Rattle.cm_repo.specs.Restarting.{begun_at};

    ghost opening = { begun_at };

    ghost adopt = { adopted };

    fn opening(alloc: Global, root: &Root<People>) -> Result<State, AllocError> {
        begun(alloc, root.moment, &root.people)
    }

    fn adopt(alloc: Global, state: &State, people: &People) -> Result<State, AllocError> {
        adopted(alloc, state, people)
    }
}

impl Unnumbered for ServerMachine {
    ghost same_step = { λ s e session. refl };
}
