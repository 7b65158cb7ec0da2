//! Makes the file of a journal ready to be read.
ghost use Rattle.std.specs.Prelude.{◌≡◌, ◌^◌, ◌<◌, IsTrue, length, IfOk, OnOk};
ghost use Rattle.outside.specs.Outside.{HasCause};
ghost use Rattle.disk.specs.Crashes.{IsSynced, LeavesSince};
ghost use Rattle.journal_file.specs.Records.{IsAsBefore};
ghost use Rattle.journal_file.specs.Readings.{IsPrepared};

use disk::Disk;
use outside::Failed;

// Sees to it that what is read is what is on the disk, and that a closed gate stands in an empty file. Says how long the file is.
pub(crate) fn prepare<K: Disk>(disk: &mut K) -> Result<u64, Failed>
    ensures any_moment { IsTrue K.tells
        → LeavesSince (IsAsBefore (K.told disk.old).file.seen) (K.told disk.old) (K.told disk.new) }
    ensures synced { IsTrue K.tells → OnOk result (IsSynced (K.told disk.new).file) }
    ensures seen { IsTrue K.tells → OnOk result (IsPrepared (K.told disk.old).file.seen (K.told disk.new).file.seen) }
    ensures len { IsTrue K.tells → IfOk result (λ len. len ≡ length (K.told disk.new).file.seen) }
    ensures some { IfOk result (λ len. 0 < len) }
    ensures fits { IfOk result (λ len. len < 2 ^ 63) }
    ensures stands_for { K.stands_for disk.new ≡ K.stands_for disk.old }
    ensures cause { HasCause (K.told disk.old).faults (K.told disk.new).faults result }
{
    disk.sync()?;
    let len = disk.len()?;
    if len > 1 {
        return Ok(len);
    }
    disk.write_at(0, &[0])?;
    disk.sync()?;
    Ok(1)
}
