//! Adds records to the file of a journal.
ghost use Rattle.std.specs.Prelude.{◌≡◌, ◌+◌, ◌-◌, ◌^◌, ◌<◌, ◌++◌, IsTrue, ℕ, List, length, OnOk};
ghost use Rattle.outside.specs.Outside.{HasCause};
ghost use Rattle.disk.specs.Crashes.{LeavesSince};
ghost use Rattle.journal_file.specs.Records.{IsBeforeOrAfter, RestsAfter};
ghost use Rattle.journal_file.specs.Readings.{IsFrameOf};

use crate::writing::behind_gate;
use disk::Disk;
use outside::Failed;

// Writes the records of a frame behind the closed gate at this place, and opens the gate once they are on the disk.
pub(crate) fn append<K: Disk>(disk: &mut K, gate: u64, frame: &[u8]) -> Result<(), Failed>
    requires frame { 1 < length frame.now }
    requires fits { gate < 2 ^ 63 }
    requires within { IsTrue K.tells → gate < length (K.told disk.old).file.seen }
    ensures any_moment { IsTrue K.tells → (before new : List (List ℕ)) → RestsAfter before gate (K.told disk.old).file
        → IsFrameOf new frame.now
        → LeavesSince (IsBeforeOrAfter before new) (K.told disk.old) (K.told disk.new) }
    ensures rests { IsTrue K.tells → (before new : List (List ℕ)) → RestsAfter before gate (K.told disk.old).file
        → IsFrameOf new frame.now
        → OnOk result (RestsAfter (before ++ new) (gate + (length frame.now - 1)) (K.told disk.new).file) }
    ensures ends { OnOk result (gate + length frame.now < 2 ^ 63) }
    ensures stands_for { K.stands_for disk.new ≡ K.stands_for disk.old }
    ensures cause { HasCause (K.told disk.old).faults (K.told disk.new).faults result }
{
    disk.write_at(gate + 1, behind_gate(frame))?;
    // The records have to be on the disk first: behind a gate that is torn open, whatever stands there would count.
    disk.sync()?;
    disk.write_at(gate, &[1])?;
    disk.sync()?;
    Ok(())
}
