//! Connections on loopback, and where they come from.
ghost use Rattle.std.specs.Prelude.{◌≡◌, ◌≤◌, [], None, false, refl};

use crate::again::{read_some, write_some};
use crate::alarm::{Alarm, is_raised};
use archive::Unread;
use outside::{Failed, Host, Link, Sink, Source};
use std::io::{Read, Write};
use std::net::{IpAddr, Ipv4Addr, Net, OpenListener, OpenStream, Shutdown, SocketAddr};
use std::time::Duration;

/// How many seconds a connection may keep its session waiting: a read or a write that waits longer is a fault, which ends the session.
pub const LONGEST_WAIT_S: u64 = 60;

/// A connection. A write that takes nothing is a fault. Once it has ended it reads no more, and once it is finished it keeps nothing of the
/// system's open, and each further read and write is a fault; so is each that begins once its host's alarm is raised.
#[derive(Drop)]
pub struct TcpLink<'a, S: Read + Write + OpenStream + Drop> {
    stream: Option<S>,
    alarm: Option<&'a Alarm>,
    ended: bool,
    read_faults: u64,
    write_faults: u64,
}

impl<'a, S: Read + Write + OpenStream + Drop> TcpLink<'a, S> {
    /// A connection that has just come, to a host with this alarm. A reply goes out as soon as it is written, and no wait is longer than
    /// `LONGEST_WAIT_S`.
    pub fn new(stream: S, alarm: Option<&'a Alarm>) -> TcpLink<'a, S>
        ensures source { ⟦<TcpLink<'a, S> as Source>⟧.told result
            ≡ record { left = None; given = None; ended = false; faults = 0 } }
        ensures sink { ⟦<TcpLink<'a, S> as Sink>⟧.told result ≡ record { held = None; faults = 0 } }
    {
        let _ = stream.set_nodelay(true);
        let _ = stream.set_read_timeout(Some(Duration::from_secs(LONGEST_WAIT_S)));
        let _ = stream.set_write_timeout(Some(Duration::from_secs(LONGEST_WAIT_S)));
        TcpLink {
            stream: Some(stream),
            alarm,
            ended: false,
            read_faults: 0,
            write_faults: 0,
        }
    }
}

impl<'a, S: Read + Write + OpenStream + Drop> Source for TcpLink<'a, S> {
    ghost told = { λ l. record { left = None; given = None; ended = l.ended; faults = l.read_faults } };

    ghost aside = { λ l. record { sink = record { held = None; faults = l.write_faults }; stands_for = [] } };

    ghost end_is_empty = { λ _ _. tt };

    fn read(&mut self, room: &mut [u8]) -> Result<usize, Failed> {
        if self.ended {
            return Ok(0);
        }
        let count = match &mut self.stream {
            Some(stream) if !is_raised(self.alarm) => read_some(stream, room),
            _ => None,
        };
        match count {
            Some(count) => {
                self.ended = count == 0;
                Ok(count)
            }
            None => {
                self.read_faults = self.read_faults.saturating_add(1);
                Err(Failed)
            }
        }
    }
}

impl<'a, S: Read + Write + OpenStream + Drop> Sink for TcpLink<'a, S> {
    ghost told = { λ l. record { held = None; faults = l.write_faults } };

    ghost aside = { λ l. record {
      source = record {
        left = None;
        given = None;
        ended = l.ended;
        faults = l.read_faults;
      };
      stands_for = [];
    } };

    fn tells(&self) -> bool {
        false
    }

    fn unread(&mut self, _unread: Unread) -> Failed {
        self.write_faults = self.write_faults.saturating_add(1);
        Failed
    }

    fn write(&mut self, piece: &[u8]) -> Result<usize, Failed> {
        let count = match &mut self.stream {
            Some(stream) if !is_raised(self.alarm) => write_some(stream, piece),
            _ => None,
        };
        match count {
            Some(count) if count > 0 => Ok(count),
            _ => {
                self.write_faults = self.write_faults.saturating_add(1);
                Err(Failed)
            }
        }
    }
}

impl<'a, S: Read + Write + OpenStream + Drop> Link for TcpLink<'a, S> {
    ghost stands_for = { λ _. [] };

    ghost reads_keep = { λ _. refl };

    ghost writes_keep = { λ _. refl };

    fn finish(&mut self) {
        if let Some(stream) = &self.stream {
            let _ = stream.shutdown(Shutdown::Both);
        }
        self.stream = None;
    }
}

/// Connections to a port on loopback. An accept before the first begin gives none; one after a begin that failed is a fault, and one that ends
/// once its alarm is raised.
#[derive(Drop)]
pub struct TcpHost<'a, R: Net> {
    rt: &'a R,
    alarm: Option<&'a Alarm>,
    listener: Option<R::Listener>,
    port: u16,
    given: u64,
    bound: u64,
    faults: u64,
    ghost in_bound: { given ≤ bound },
}

impl<'a, R: Net> TcpHost<'a, R> {
    /// A host of this runtime, which has not begun and heeds no alarm.
    pub fn new(rt: &'a R) -> TcpHost<'a, R>
        ensures { ⟦<TcpHost<'a, R> as Host>⟧.told result ≡ record { port = 0; given = 0; bound = 0; faults = 0 } }
    {
        TcpHost::made(rt, None)
    }

    /// A host of this runtime, which has not begun and heeds this alarm.
    pub fn heeding(rt: &'a R, alarm: &'a Alarm) -> TcpHost<'a, R>
        ensures { ⟦<TcpHost<'a, R> as Host>⟧.told result ≡ record { port = 0; given = 0; bound = 0; faults = 0 } }
    {
        TcpHost::made(rt, Some(alarm))
    }

    fn made(rt: &'a R, alarm: Option<&'a Alarm>) -> TcpHost<'a, R>
        ensures { ⟦<TcpHost<'a, R> as Host>⟧.told result ≡ record { port = 0; given = 0; bound = 0; faults = 0 } }
    {
        TcpHost {
            rt,
            alarm,
            listener: None,
            port: 0,
            given: 0,
            bound: 0,
            faults: 0,
        }
    }
}

impl<'a, R: Net> Host for TcpHost<'a, R> {
    type Link = TcpLink<'a, R::Stream>;

    ghost told = { λ h. record { port = h.port; given = h.given; bound = h.bound; faults = h.faults } };

    ghost left = { λ h. None };

    fn begin(&mut self, port: u16, links: Option<u64>) -> Result<(), Failed> {
        self.port = port;
        self.given = 0;
        self.bound = links.unwrap_or(u64::MAX);
        self.listener = None;
        if let Some(alarm) = self.alarm {
            alarm.listens_at(port);
        }
        match self
            .rt
            .bind(SocketAddr::new(IpAddr::V4(Ipv4Addr::LOCALHOST), port))
        {
            Ok(listener) => {
                self.listener = Some(listener);
                Ok(())
            }
            Err(_) => {
                self.faults = self.faults.saturating_add(1);
                Err(Failed)
            }
        }
    }

    fn accept(&mut self) -> Result<Option<TcpLink<'a, R::Stream>>, Failed> {
        if self.given == self.bound {
            return Ok(None);
        }
        let stream = match &self.listener {
            Some(listener) if !is_raised(self.alarm) => match listener.accept() {
                Ok((stream, _)) => Some(stream),
                Err(_) => None,
            },
            _ => None,
        };
        match stream {
            Some(stream) if !is_raised(self.alarm) => {
                self.given += 1;
                Ok(Some(TcpLink::new(stream, self.alarm)))
            }
            _ => {
                self.faults = self.faults.saturating_add(1);
                Err(Failed)
            }
        }
    }
}
