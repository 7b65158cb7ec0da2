//! A sign for threads that serve to stop.

use std::net::{IpAddr, Ipv4Addr, Net, SocketAddr};
use std::sync::atomic::{AtomicBool, AtomicU16, Ordering};
use std::time::Duration;

// How many milliseconds the connection that wakes the host is waited for. Where as many wait for the host as may, none is made, and none is needed.
const LONGEST_WAKE_MS: u64 = 1000;

/// A sign that is raised once and stays: a host that heeds it gives no more links, and each link that it gave reads and writes no more.
#[derive(Drop)]
pub struct Alarm {
    raised: AtomicBool,
    port: AtomicU16,
}

impl Alarm {
    /// An alarm that is not raised.
    pub fn new() -> Alarm {
        Alarm {
            raised: AtomicBool::new(false),
            port: AtomicU16::new(0),
        }
    }

    /// Raises it, and wakes the host that waits for a link: by a connection that is given up at once.
    pub fn raise<R: Net>(&self, rt: &R) {
        if self.raised.swap(true, Ordering::SeqCst) {
            return;
        }
        let port = self.port.load(Ordering::SeqCst);
        let _ = rt.connect_timeout(
            SocketAddr::new(IpAddr::V4(Ipv4Addr::LOCALHOST), port),
            Duration::from_millis(LONGEST_WAKE_MS),
        );
    }

    /// Whether it was raised.
    pub fn is_raised(&self) -> bool {
        self.raised.load(Ordering::SeqCst)
    }

    /// Notes where the host listens.
    pub(crate) fn listens_at(&self, port: u16) {
        self.port.store(port, Ordering::SeqCst);
    }
}

/// Whether there is an alarm, and it was raised.
pub(crate) fn is_raised(alarm: Option<&Alarm>) -> bool {
    match alarm {
        Some(alarm) => alarm.is_raised(),
        None => false,
    }
}
