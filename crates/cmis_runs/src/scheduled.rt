//! A schedule: a script whose sessions take turns over a repository in memory.
ghost use Rattle.std.specs.Prelude.{◌≡◌, IfOk};
ghost use Rattle.cmis_program.specs.Kinds.{rules_of};
ghost use Rattle.cmis_runs.specs.Loads.{beginning};
ghost use Rattle.cmis_runs.specs.Schedules.{Schedules, status_at};

use crate::made::{beginning, users};
use cm_state::state::State;
use cmis_program::Program;
use outside::{Sink, Source};
use schedule_run::{End, run_script};
use std::alloc::{AllocError, Global};

/// The status where memory is wanted.
const WANTS_MEMORY: u8 = 7;

fn opening(alloc: Global) -> Result<State, AllocError>
    ensures { IfOk result (λ state. state ≡ beginning) }
{
    let users = users(alloc)?;
    let state = beginning(alloc, &users)?;
    Ok(state)
}

fn status_at(end: End) -> u8
    ensures { result ≡ status_at end }
{
    match end {
        End::Over => 0,
        End::NotValid(_) => 6,
        End::ReadFault => 3,
        End::WriteFault => 4,
        End::Starved => WANTS_MEMORY,
    }
}

/// Runs the script that the input gives, over a repository with the root alone: each line is a step of one of its sessions, and a line is
/// written for it.
///
/// 0: the script was read to its end. 3, 4: the input, the output failed. 6: a line is not valid. 7: memory was wanted.
pub fn schedule<P: Program, I: Source, O: Sink>(alloc: Global, input: &mut I, output: &mut O) -> u8
    ensures { Schedules (rules_of P.Plain.next P.Plain.answer P.Plain.number) P.Folders.asks
        (I.told input.old) (O.told output.old) (I.told input.new) (O.told output.new) result }
{
    match opening(alloc) {
        Ok(opening) => status_at(run_script::<P::Folders, I, O>(alloc, opening, input, output)),
        Err(_) => WANTS_MEMORY,
    }
}
