//! Runs: lists of events, one after the other.
ghost use Rattle.std.specs.Prelude.{◌≡◌, ◌∷◌, [], OnErr, OnOk, IfOk};
ghost use Rattle.desk_core.specs.Interleaving.{run, answers, happens, told};
ghost use Rattle.desk_core.specs.Steps.{StoodAfter};

use crate::event::{CoreStop, Done, Event};
use crate::turns::Core;
use cm_base::items::Items;
use desk_model::Machine;
use std::alloc::{AllocError, Global};

/// The answers of a run, one for each event.
pub type Dones<A, X> = Items<Result<Done<A>, CoreStop<X>>>;

// Makes the step of an event, and answers what is told of it.
fn told_step<M: Machine>(
    alloc: Global,
    core: &mut Core<M>,
    event: Event<M::Call, M::Question>,
) -> Result<Result<Done<M::Shown>, CoreStop<M::Cause>>, AllocError>
    ensures told { IfOk result (λ done. done
        ≡ told (record { next = M.next; answer = M.answer; number = M.number }) core.old event) }
    ensures world { OnOk result (core.new ≡ happens
        (record { next = M.next; answer = M.answer; number = M.number }) core.old event) }
    ensures memory { OnErr result (core.new ≡ core.old) }
{
    match core.step(alloc, event) {
        Ok(done) => Ok(Ok(done)),
        Err(CoreStop::Unknown) => Ok(Err(CoreStop::Unknown)),
        Err(CoreStop::Known) => Ok(Err(CoreStop::Known)),
        Err(CoreStop::Refused { cause, number }) => Ok(Err(CoreStop::Refused { cause, number })),
        Err(CoreStop::Memory) => Err(AllocError),
    }
}

/// Makes the steps of the events in order, and answers what each did or why it did nothing.
/// Where memory was wanted, the core stands after a front of the events.
pub fn run_events<M: Machine>(
    alloc: Global,
    core: &mut Core<M>,
    events: Items<Event<M::Call, M::Question>>,
) -> Result<Dones<M::Shown, M::Cause>, AllocError>
    ensures answers { IfOk result (λ dones. dones
        ≡ answers (record { next = M.next; answer = M.answer; number = M.number }) core.old events) }
    ensures world { IfOk result (λ _. core.new
        ≡ run (record { next = M.next; answer = M.answer; number = M.number }) core.old events) }
    ensures memory { OnErr result (StoodAfter
        (record { next = M.next; answer = M.answer; number = M.number }) core.old events core.new) }
{
    let mut dones = Items::new(alloc);
    for event in events.into_vec() {
        let done = told_step(alloc, core, event)?;
        dones.push(done)?;
    }
    Ok(dones)
}
