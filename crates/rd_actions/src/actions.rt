//! The actions that the caller is allowed on an object (CMIS 1.1, section 2.2.4.7).
ghost use Rattle.std.specs.Prelude.{◌≡◌, IfOk};
ghost use Rattle.cm_base.specs.Judged.{Meets};
ghost use Rattle.rd_actions.specs.ReadActions.{actions_reply, answer_actions};

use action_parts::readings::ReadActions;
use action_parts::replies::ActionsReply;
use cm_actions::allowed::actions;
use cm_base::cause::Cause;
use cm_base::fail::Fail;
use cm_base::object::Object;
use cm_base::text::Text;
use cm_see::address::addressed;
use cm_state::state::State;
use std::alloc::{AllocError, Global};

fn actions_reply(
    alloc: Global,
    state: &State,
    user: &Text,
    x: &Object,
) -> Result<ActionsReply, AllocError>
    ensures { IfOk result (λ reply. reply ≡ actions_reply state.now user.now x.now) }
{
    let actions = actions(alloc, state, user, x)?;
    Ok(ActionsReply { actions })
}

/// Each action on the object, and whether the caller may do it. What he doesn't read is not found.
pub fn allowable_actions(
    alloc: Global,
    state: &State,
    user: &Text,
    q: &ReadActions,
) -> Result<ActionsReply, Fail>
    ensures { Meets (λ y. y) result (answer_actions state.now user.now q.now) }
{
    match addressed(state, user, &q.place) {
        Some(x) => {
            let reply = actions_reply(alloc, state, user, x)?;
            Ok(reply)
        }
        None => Err(Fail::Refused(Cause::NotFound)),
    }
}
