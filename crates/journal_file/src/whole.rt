//! Opens a journal with all its payloads.
ghost use Rattle.std.specs.Prelude.{◌≡◌, ◌≤◌, [], ◌∷◌, ◌++◌, IsTrue, List, ℕ, length, IfOk, OnOk, IfErr};
ghost use Rattle.outside.specs.Outside.{Rose};
ghost use Rattle.disk.specs.Disks.{IsUnchanged};
ghost use Rattle.journal_file.specs.Records.{BeginsWith, IsClosedAt};
ghost use Rattle.journal_file.specs.Stops.{IsDamagedBehind, DamageIs};
ghost use Rattle.journal_file.specs.Journals.{disk_opened};

use crate::journal::Journal;
use crate::open_stop::OpenStop;
use crate::opening::{Next, Opening};
use bytes::Bytes;
use cm_base::items::Items;
use disk::Disk;
use std::alloc::{AllocError, Global};

/// Payloads of records, in their order.
pub type Payloads = Items<Bytes>;

// Adds a payload.
fn add(payloads: &mut Payloads, payload: Vec<u8>) -> Result<(), AllocError>
    ensures { OnOk result (payloads.new ≡ payloads.old ++ payload.items ∷ []) }
{
    payloads.push(Bytes::from_vec(payload)?)?;
    Ok(())
}

// All payloads that an opening hands out, and the journal.
pub(crate) fn open_whole<K: Disk>(
    alloc: Global,
    opening: Opening<K>,
) -> Result<(Journal<K>, Payloads), (OpenStop, K)>
    ensures closed { IsTrue K.tells → BeginsWith [] opening.place (K.told opening.disk).file.seen
        → IfOk result (λ x. IsClosedAt x.1 x.0.end (K.told opening.disk).file.seen) }
    ensures damaged { IsTrue K.tells → BeginsWith [] opening.place (K.told opening.disk).file.seen
        → IfErr result (λ x. DamageIs x.0 (λ count. IsDamagedBehind count (K.told opening.disk).file.seen)) }
    ensures file { IsTrue K.tells → IsUnchanged (K.told opening.disk) (K.told (disk_opened result)) }
    ensures stands_for { K.stands_for (disk_opened result) ≡ K.stands_for opening.disk }
    ensures later { (K.told opening.disk).faults ≤ (K.told (disk_opened result)).faults }
    ensures fault { IfErr result (λ x. x.0 ≡ OpenStop.Fault → Rose (K.told opening.disk).faults (K.told x.1).faults) }
{
    let mut payloads = Payloads::new(alloc);
    let mut opening = opening;
    loop {
        match opening.next(alloc) {
            Ok(next) => match next {
                Next::Payload(_, payload, rest) => {
                    match add(&mut payloads, payload) {
                        Ok(()) => {}
                        Err(_) => return Err((OpenStop::Memory, rest.into_disk())),
                    }
                    opening = rest;
                }
                Next::End(journal) => return Ok((journal, payloads)),
            },
            Err(stop) => return Err(stop),
        }
    }
}
