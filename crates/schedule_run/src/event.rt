//! The events of steps.
ghost use Rattle.std.specs.Prelude.{◌≡◌, IfOk};
ghost use Rattle.schedule_run.specs.Events.{event_of, user};

use crate::scripted::Scripted;
use cm_base::number::Moment;
use cm_base::text::Text;
use desk_core::Event;
use desk_model::Machine;
use schedule_lines::{Act, Step};
use std::alloc::{AllocError, Global};

fn user(alloc: Global) -> Result<Text, AllocError>
    ensures { IfOk result (λ name. name ≡ user) }
{
    Text::from_str(alloc, "admin")
}

/// The event of a step.
pub(crate) fn event<P: Scripted>(
    alloc: Global,
    step: Step,
) -> Result<Event<<P::Kind as Machine>::Call, <P::Kind as Machine>::Question>, AllocError>
    ensures { IfOk result (λ event. event ≡ event_of P.asks step) }
{
    let Step { session, act } = step;
    match act {
        Act::Open => Ok(Event::Enter { session }),
        Act::Write(name) => {
            let call = P::folder(alloc, name)?;
            let user = user(alloc)?;
            Ok(Event::Write {
                session,
                user,
                moment: Moment(0),
                call,
            })
        }
        Act::Look => Ok(Event::Look { session }),
        Act::Ask => {
            let user = user(alloc)?;
            Ok(Event::Ask {
                session,
                user,
                question: P::children(alloc),
            })
        }
    }
}
