//! A load.
ghost use Rattle.std.specs.Prelude.{◌≡◌, ◌≤◌, string_bytes, IfOk};
ghost use Rattle.cmis_spec.specs.Repository.{Repository};
ghost use Rattle.cmis_program.specs.Kinds.{kind_of};
ghost use Rattle.cmis_runs.specs.Loads.{IsMade, IsWritten, Loaded, summary};

use crate::made::made;
use crate::summary::summary;
use cmis_program::Program;
use http_reply::send;
use outside::Sink;
use std::alloc::{AllocError, Global};

/// The status where the output fails.
const OUTPUT_FAILED: u8 = 4;

/// The status where memory is wanted.
const WANTS_MEMORY: u8 = 7;

// The line of a load of so many requests.
fn line_of<P: Program>(alloc: Global, n: u64) -> Result<String, AllocError>
    ensures { IfOk result (λ line. (r : Repository) × IsMade
        (kind_of P.Face.next P.Face.answer P.Face.number P.Face.call P.Face.user P.Face.least P.Face.closes)
        n r
        × (string_bytes line ≡ summary r)) }
{
    let state = made::<P>(alloc, n)?;
    let line = summary(alloc, &state)?;
    Ok(line)
}

// Writes the line, and answers the status.
fn write_line<O: Sink>(output: &mut O, line: &[u8]) -> u8
    ensures { IsWritten line.now (O.told output.old) (O.told output.new) result }
{
    match send(output, line) {
        Ok(()) => 0,
        Err(_) => OUTPUT_FAILED,
    }
}

/// Makes so many requests, runs them through sessions of a thousand, one after the other, asks one query, and writes a line: how many steps
/// the repository has taken, how many objects it has, the root among them, and how many rows the query finds.
///
/// 0: the line was written. 4: the output failed. 7: memory was wanted, and nothing was written.
#[tactic(auto, using(crate::proofs::Asking::loaded))]
pub fn load<P: Program, O: Sink>(alloc: Global, n: u64, output: &mut O) -> u8
    ensures { Loaded
        (kind_of P.Face.next P.Face.answer P.Face.number P.Face.call P.Face.user P.Face.least P.Face.closes)
        n (O.told output.old) (O.told output.new) result }
{
    match line_of::<P>(alloc, n) {
        Err(_) => WANTS_MEMORY,
        Ok(line) => write_line(output, line.as_bytes()),
    }
}
