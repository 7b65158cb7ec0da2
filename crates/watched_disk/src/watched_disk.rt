//! A disk that raises an alarm.
ghost use Rattle.std.specs.Prelude.{◌≡◌};

use archive::Archive;
use cm_base::text::Text;
use disk::Disk;
use journal_runs::Explains;
use keep_status::WhyUnkept;
use outside::Failed;
use real_edge::Alarm;
use std::net::Net;
use std::sync::Arc;

/// Another disk, each of whose calls that fails raises an alarm. It tells what that disk tells.
#[derive(Drop)]
pub struct WatchedDisk<'a, K, R> {
    rt: &'a R,
    alarm: &'a Alarm,
    disk: K,
}

impl<'a, K: Disk, R: Net> WatchedDisk<'a, K, R> {
    /// This disk, whose faults raise this alarm.
    pub fn new(rt: &'a R, alarm: &'a Alarm, disk: K) -> WatchedDisk<'a, K, R>
        ensures told { ⟦<WatchedDisk<'a, K, R> as Disk>⟧.told result ≡ K.told disk }
        ensures stands_for { ⟦<WatchedDisk<'a, K, R> as Disk>⟧.stands_for result ≡ K.stands_for disk }
    {
        WatchedDisk { rt, alarm, disk }
    }
}

// Raises the alarm where a call failed.
fn watch<T, R: Net>(rt: &R, alarm: &Alarm, done: &Result<T, Failed>) {
    if done.is_err() {
        alarm.raise(rt);
    }
}

impl<'a, K: Disk, R: Net> Disk for WatchedDisk<'a, K, R> {
    ghost tells = { K.tells };

    ghost told = { λ d. K.told d.disk };

    ghost stands_for = { λ d. K.stands_for d.disk };

    fn begin(&mut self, name: &Text) -> Result<(), Failed> {
        let done = self.disk.begin(name);
        watch(self.rt, self.alarm, &done);
        done
    }

    fn len(&mut self) -> Result<u64, Failed> {
        let done = self.disk.len();
        watch(self.rt, self.alarm, &done);
        done
    }

    fn read(&mut self, at: u64, room: &mut [u8]) -> Result<(), Failed> {
        let done = self.disk.read(at, room);
        watch(self.rt, self.alarm, &done);
        done
    }

    fn archive(&mut self) -> Result<Arc<Archive>, Failed> {
        let done = self.disk.archive();
        watch(self.rt, self.alarm, &done);
        done
    }

    fn write_at(&mut self, at: u64, piece: &[u8]) -> Result<(), Failed> {
        let done = self.disk.write_at(at, piece);
        watch(self.rt, self.alarm, &done);
        done
    }

    fn sync(&mut self) -> Result<(), Failed> {
        let done = self.disk.sync();
        watch(self.rt, self.alarm, &done);
        done
    }
}

impl<'a, K: Explains, R> Explains for WatchedDisk<'a, K, R> {
    fn why(&self) -> WhyUnkept {
        self.disk.why()
    }
}
