//! The system's clock.
ghost use Rattle.std.specs.Prelude.{◌≡◌, ◌≤◌, None, IfSome};
ghost use Rattle.real_edge.specs.declared.clock.TheConstants.{LATEST_MS};

use outside::Clock;
use std::rt::Clock as System;

/// The last moment that is given, in milliseconds since 1970: the end of the year 9999.
pub const LATEST_MS: u64 = 253_402_300_799_999;

/// The system's clock. Where the system refuses a word it gives the last one again, or 0.
#[derive(Drop)]
pub struct SystemClock<S: System> {
    system: S,
    last: u64,
    ghost in_range: { last ≤ LATEST_MS },
}

impl<S: System> SystemClock<S> {
    /// The clock of this runtime.
    pub fn new(system: S) -> SystemClock<S> {
        SystemClock { system, last: 0 }
    }
}

impl<S: System> Clock for SystemClock<S> {
    ghost words = { λ _. None };

    fn now(&mut self) -> u64
        ensures { result ≤ LATEST_MS }
    {
        if let Ok(time) = self.system.since_1970() {
            self.last = time
                .as_secs()
                .saturating_mul(1000)
                .saturating_add(u64::from(time.subsec_millis()))
                .min(LATEST_MS);
        }
        self.last
    }
}
