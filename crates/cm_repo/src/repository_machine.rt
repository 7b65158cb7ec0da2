//! The repository as a machine whose answers are replies.
ghost use Rattle.std.specs.Prelude.{◌≡◌, Result};

use crate::calls::{advance, answer};
use cm_base::cause::Cause;
use cm_base::text::Text;
use cm_call::question::Question;
use cm_call::reply::Reply;
use cm_call::write::Write;
use cm_state::state::State;
use desk_model::{Entry, Halt, Machine};
use std::alloc::Global;

/// The machine of the repository. The number of a state is that of its accepted writes.
pub struct RepositoryMachine;

impl Machine for RepositoryMachine {
    type State = State;

    type Call = Write;

    type Question = Question;

    type Shown = Reply;

    type Cause = Cause;

    ghost use Rattle.cm_repo.specs.Calls.{step_of, answer_of};

    ghost next = { step_of };

    ghost answer = { answer_of };

    ghost number = { λ r. r.step };

    fn next(
        alloc: Global,
        state: &State,
        entry: &Entry<Write>,
    ) -> Result<(State, Reply), Halt<Cause>> {
        advance(alloc, state, entry)
    }

    fn answer(
        alloc: Global,
        state: &State,
        user: &Text,
        question: &Question,
    ) -> Result<Reply, Halt<Cause>> {
        answer(alloc, state, user, question)
    }

    fn number(state: &State) -> u64 {
        state.step()
    }
}
