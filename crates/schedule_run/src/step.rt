//! One step of a script.
ghost use Rattle.std.specs.Prelude.{◌≡◌, string_bytes, IfOk};
ghost use Rattle.desk_core.specs.Interleaving.{happens, told};
ghost use Rattle.schedule_run.specs.Events.{event_of};
ghost use Rattle.schedule_run.specs.Printed.{line_of};
ghost use Rattle.schedule_run.specs.Runs.{Performs, Refuses};

use crate::end::End;
use crate::event::event;
use crate::print::{bad_line, done_line, known_line, refused_line, unknown_line};
use crate::scripted::Scripted;
use desk_core::{Core, CoreStop, Event};
use desk_model::Machine;
use http_reply::send;
use outside::Sink;
use schedule_lines::Step;
use std::alloc::{AllocError, Global};

// Makes the step of an event, and answers the line of the session.
#[tactic(auto, using(crate::proofs::Lines::line_as, crate::proofs::Lines::true_anyway))]
fn line_of<P: Scripted>(
    alloc: Global,
    core: &mut Core<P::Kind>,
    session: u32,
    event: Event<<P::Kind as Machine>::Call, <P::Kind as Machine>::Question>,
) -> Result<String, AllocError>
    ensures line { IfOk result (λ line. string_bytes line ≡ line_of P.asks session
        (told (record { next = P.Kind.next; answer = P.Kind.answer; number = P.Kind.number }) core.old event)) }
    ensures world { IfOk result (λ _. core.new
        ≡ happens (record { next = P.Kind.next; answer = P.Kind.answer; number = P.Kind.number }) core.old event) }
{
    match core.step(alloc, event) {
        Ok(done) => done_line::<P>(alloc, session, &done),
        Err(CoreStop::Unknown) => unknown_line(alloc, session),
        Err(CoreStop::Known) => known_line(alloc, session),
        Err(CoreStop::Refused { cause, number }) => {
            refused_line::<P>(alloc, session, &cause, number)
        }
        Err(CoreStop::Memory) => Err(AllocError),
    }
}

// Makes the step of an event, and writes the line of the session.
fn write_line<P: Scripted, K: Sink>(
    alloc: Global,
    core: &mut Core<P::Kind>,
    sink: &mut K,
    session: u32,
    event: Event<<P::Kind as Machine>::Call, <P::Kind as Machine>::Question>,
) -> Option<End>
    ensures { Performs (record { next = P.Kind.next; answer = P.Kind.answer; number = P.Kind.number }) P.asks session
        event core.old core.new (K.told sink.old) (K.told sink.new) result }
{
    match line_of::<P>(alloc, core, session, event) {
        Ok(line) => match send(sink, line.as_bytes()) {
            Ok(()) => None,
            Err(_) => Some(End::WriteFault),
        },
        Err(_) => Some(End::Starved),
    }
}

/// Makes the step, and writes its line. None: the next one may come.
pub(crate) fn perform<P: Scripted, K: Sink>(
    alloc: Global,
    core: &mut Core<P::Kind>,
    sink: &mut K,
    step: Step,
) -> Option<End>
    ensures { Performs (record { next = P.Kind.next; answer = P.Kind.answer; number = P.Kind.number }) P.asks
        step.session (event_of P.asks step) core.old core.new (K.told sink.old) (K.told sink.new) result }
{
    let session = step.session;
    match event::<P>(alloc, step) {
        Ok(event) => write_line::<P, K>(alloc, core, sink, session, event),
        Err(_) => Some(End::Starved),
    }
}

/// Writes that the line with this number is not valid. It ends so also where that could not be written.
pub(crate) fn refuse<K: Sink>(alloc: Global, sink: &mut K, number: u64) -> End
    ensures { Refuses number (K.told sink.old) (K.told sink.new) result }
{
    match bad_line(alloc, number) {
        Ok(message) => match send(sink, message.as_bytes()) {
            Ok(()) => End::NotValid(number),
            Err(_) => End::NotValid(number),
        },
        Err(_) => End::Starved,
    }
}
