//! One test for each: what a reader, a writer and a clock do, seen through the traits; and the system's own once.
use crate::{Alarm, LATEST_MS, StdSink, StdSource, SystemClock, TcpHost, TcpLink};
use outside::{Clock, Failed, Host, Link, Sink, Source};
use std::io::{self, Error, ErrorKind, Read, Write};
use std::net::{IpAddr, Ipv4Addr, Net, OpenListener, OpenStream, SocketAddr};
use std::os::fd::{AsRawFd, RawFd};
use std::rt::Clock as System;
use std::time::Duration;

// A reader whose every read fails.
#[derive(Drop)]
struct Broken;

impl Read for Broken {
    fn read(&mut self, _room: &mut [u8]) -> io::Result<usize> {
        Err(Error::from(ErrorKind::BrokenPipe))
    }
}

// A system whose clock always says the same, or refuses.
#[derive(Drop)]
struct FixedSystem(Option<u64>);

impl System for FixedSystem {
    fn monotonic(&self) -> io::Result<Duration> {
        self.since_1970()
    }

    fn since_1970(&self) -> io::Result<Duration> {
        match self.0 {
            Some(ms) => Ok(Duration::from_millis(ms)),
            None => Err(Error::from(ErrorKind::Unsupported)),
        }
    }
}

// A stream that ends at once, takes three bytes at most of a piece, and can't be set or shut.
#[derive(Drop)]
struct Short;

impl Read for Short {
    fn read(&mut self, _room: &mut [u8]) -> io::Result<usize> {
        Ok(0)
    }
}

impl Write for Short {
    fn write(&mut self, piece: &[u8]) -> io::Result<usize> {
        if piece.len() < 3 {
            return Ok(0);
        }
        Ok(3)
    }

    fn flush(&mut self) -> io::Result<()> {
        Ok(())
    }
}

impl AsRawFd for Short {
    fn as_raw_fd(&self) -> RawFd {
        0
    }
}

impl OpenStream for Short {}

// A listener to which such streams come.
#[derive(Drop)]
struct Shorts;

impl AsRawFd for Shorts {
    fn as_raw_fd(&self) -> RawFd {
        0
    }
}

impl OpenListener for Shorts {
    type Stream = Short;

    fn accept(&self) -> io::Result<(Short, SocketAddr)> {
        Ok((Short, SocketAddr::new(IpAddr::V4(Ipv4Addr::LOCALHOST), 1)))
    }
}

// A network in which only this port is free.
#[derive(Drop)]
struct Free(u16);

impl Net for Free {
    type Stream = Short;

    type Listener = Shorts;

    fn bind(&self, address: SocketAddr) -> io::Result<Shorts> {
        if address.port() == self.0 {
            Ok(Shorts)
        } else {
            Err(Error::from(ErrorKind::AddrInUse))
        }
    }

    fn connect(&self, _address: SocketAddr) -> io::Result<Short> {
        Err(Error::from(ErrorKind::ConnectionRefused))
    }
}

#[test]
fn link_ends_and_counts(rt: HostRuntime) {
    let mut room = [0; 4];
    let mut link = TcpLink::new(Short, None);
    assert_eq!(rt; link.read(&mut room), Ok(0));
    assert_eq!(rt; link.write(b"abcd"), Ok(3));
    assert_eq!(rt; link.write(b"d"), Err(Failed));
    link.finish();
    assert_eq!(rt; link.write(b"abcd"), Err(Failed));
}

#[test]
fn host_gives_its_bound(rt: HostRuntime) {
    let net = Free(80);
    let mut host = TcpHost::new(&net);
    assert_eq!(rt; host.begin(80, Some(1)), Ok(()));
    assert!(rt; matches!(host.accept(), Ok(Some(_))));
    assert!(rt; matches!(host.accept(), Ok(None)));
}

#[test]
fn host_fails_where_its_port_is_taken(rt: HostRuntime) {
    let net = Free(80);
    let mut host = TcpHost::new(&net);
    assert_eq!(rt; host.begin(81, None), Err(Failed));
    assert!(rt; host.accept().is_err());
}

#[test]
fn alarm_ends_host_and_links(rt: HostRuntime) {
    let mut room = [0; 4];
    let net = Free(80);
    let alarm = Alarm::new();
    let mut host = TcpHost::heeding(&net, &alarm);
    assert_eq!(rt; host.begin(80, None), Ok(()));
    let mut link = match host.accept() {
        Ok(Some(link)) => link,
        _ => panic!(rt; "no link"),
    };
    assert_eq!(rt; link.write(b"abcd"), Ok(3));
    alarm.raise(&net);
    assert_eq!(rt; link.write(b"abcd"), Err(Failed));
    assert_eq!(rt; link.read(&mut room), Err(Failed));
    assert!(rt; host.accept().is_err());
}

#[test]
fn source_ends_and_counts(rt: HostRuntime) {
    let mut room = [0; 4];
    let mut source = StdSource::new(b"abc".as_slice());
    assert_eq!(rt; source.read(&mut room), Ok(3));
    assert_eq!(rt; room, *b"abc\0");
    assert_eq!(rt; source.read(&mut room), Ok(0));
    let mut broken = StdSource::new(Broken);
    assert_eq!(rt; broken.read(&mut room), Err(Failed));
    assert_eq!(rt; (source.faults(), broken.faults()), (0, 1));
}

#[test]
fn sink_counts_a_write_that_takes_nothing(rt: HostRuntime) {
    let mut room = [0; 2];
    let mut sink = StdSink::new(&mut room[..]);
    assert_eq!(rt; sink.write(b"abc"), Ok(2));
    assert_eq!(rt; sink.write(b"c"), Err(Failed));
    assert_eq!(rt; sink.faults(), 1);
    let mut output = StdSink::new(rt.stdout());
    assert_eq!(rt; output.write(b"\n"), Ok(1));
}

#[test]
fn clock_stops_at_its_last_moment(rt: HostRuntime) {
    assert_eq!(rt; SystemClock::new(FixedSystem(None)).now(), 0);
    assert_eq!(rt; SystemClock::new(FixedSystem(Some(1999))).now(), 1999);
    assert_eq!(rt;
        SystemClock::new(FixedSystem(Some(LATEST_MS + 1))).now(),
        LATEST_MS
    );
    let mut system = SystemClock::new(&rt);
    assert!(rt; system.now() > 1_600_000_000_000);
}
