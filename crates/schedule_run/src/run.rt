//! The run of a script.
ghost use Rattle.std.specs.Prelude.{◌≡◌, IfOk};
ghost use Rattle.schedule_run.specs.Runs.{Scheduled, world_at};

use crate::end::End;
use crate::scripted::Scripted;
use crate::step::{perform, refuse};
use desk_core::Core;
use desk_model::{Machine, Version};
use outside::{Sink, Source};
use schedule_lines::{ScriptReader, ScriptStop};
use std::alloc::{AllocError, Global};

fn core_at<M: Machine>(alloc: Global, opening: M::State) -> Result<Core<M>, AllocError>
    ensures { IfOk result (λ core. core ≡ world_at opening) }
{
    let version = Version::opening(alloc, opening)?;
    let core = Core::new(alloc, version)?;
    Ok(core)
}

// Makes the step of each line over a core, and writes a line for it, before the next line is read.
fn run_lines<P: Scripted, S: Source, K: Sink>(
    alloc: Global,
    core: &mut Core<P::Kind>,
    source: &mut S,
    sink: &mut K,
) -> End
    ensures { Scheduled (record { next = P.Kind.next; answer = P.Kind.answer; number = P.Kind.number }) P.asks core.old
        (S.told source.old) (K.told sink.old) (S.told source.new) (K.told sink.new) result }
{
    let mut reader = ScriptReader::new(alloc);
    'lines: loop {
        match reader.next(alloc, source) {
            Ok(Some(step)) => match perform::<P, K>(alloc, core, sink, step) {
                Some(end) => return end,
                None => {}
            },
            Ok(None) => return End::Over,
            Err(ScriptStop::NotValid(number)) => return refuse(alloc, sink, number),
            Err(ScriptStop::ReadFault) => return End::ReadFault,
            Err(ScriptStop::Memory) => return End::Starved,
        }
    }
}

/// Reads a script from a source, makes the step of each line by the session that it names, all of them over one history that begins with the
/// opening, and writes a line for it, before the next line is read.
pub fn run_script<P: Scripted, S: Source, K: Sink>(
    alloc: Global,
    opening: <P::Kind as Machine>::State,
    source: &mut S,
    sink: &mut K,
) -> End
    ensures { Scheduled (record { next = P.Kind.next; answer = P.Kind.answer; number = P.Kind.number }) P.asks
        (world_at opening) (S.told source.old) (K.told sink.old) (S.told source.new) (K.told sink.new) result }
{
    match core_at::<P::Kind>(alloc, opening) {
        Ok(mut core) => run_lines::<P, S, K>(alloc, &mut core, source, sink),
        Err(_) => End::Starved,
    }
}
