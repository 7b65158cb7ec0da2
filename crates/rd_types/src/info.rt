//! The information of the repository (CMIS 1.1, section 2.2.2.2).
ghost use Rattle.std.specs.Prelude.{◌≡◌};
ghost use Rattle.cm_base.specs.Judged.{Meets};
ghost use Rattle.rd_types.specs.ReadInfo.{answer_info};

use crate::latest::latest_event;
use cm_base::copies::Copies;
use cm_base::fail::Fail;
use cm_base::text::Text;
use cm_state::state::State;
use std::alloc::Global;
use type_parts::readings::ReadInfo;
use type_parts::replies::InfoReply;

/// The information of the repository as the caller sees it: with the last event that is visible to him.
pub fn info(alloc: Global, state: &State, user: &Text, q: &ReadInfo) -> Result<InfoReply, Fail>
    ensures { Meets (λ x. x) result (answer_info state.now user.now q.now) }
{
    let latest_event = latest_event(state, user);
    let host = q.host.copied(alloc)?;
    Ok(InfoReply {
        host,
        latest_event,
        all: q.all,
    })
}
