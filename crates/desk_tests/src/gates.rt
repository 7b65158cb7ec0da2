//! Two links that are served at the same time.
ghost use Rattle.std.specs.Prelude.{All, IfOk};
ghost use Rattle.outside.specs.Hosts.{is_new};

use crate::locks::waited;
use crate::replies::ShownSums;
use cm_base::items::Items;
use desk_model::Nowhere;
use desk_serve::{Ended, serve};
use outside::{FixedClock, Gate, Host, MemHost, MemLink};
use std::alloc::{AllocError, Global};
use std::sync::atomic::AtomicU64;
use std::sync::atomic::Ordering::SeqCst;
use std::sync::{Arc, Wait};
use std::test::Fail;
use std::thread::Threads;
use talk::End;

/// Holds the first session that passes until another one passes with serial 1, for a bounded number of turns.
#[derive(Drop)]
struct Holding {
    /// The first session's number and 1, once there is one.
    first: AtomicU64,
    /// 1 once another session has passed with serial 1.
    passed: Arc<AtomicU64>,
    /// 1 once the bound was reached.
    is_late: AtomicU64,
}

impl Gate for Holding {
    fn pass(&self, session: u32, serial: u64) {
        let number = session as u64 + 1;
        match self.first.compare_exchange(0, number, SeqCst, SeqCst) {
            Ok(_) => {
                if !waited(&self.passed) {
                    self.is_late.store(1, SeqCst);
                }
            }
            Err(first) => {
                if first != number && serial == 1 {
                    self.passed.store(1, SeqCst);
                }
            }
        }
    }
}

/// A link with two requests, each of which adds 1.
pub fn link(alloc: Global) -> Result<MemLink, AllocError>
    ensures { IfOk result is_new }
{
    MemLink::new(
        alloc,
        b"POST / HTTP/1.1\r\nHost: a\r\nContent-Length: 1\r\n\r\n\x01POST / HTTP/1.1\r\nHost: a\r\nContent-Length: 1\r\n\r\n\x01",
        &[],
        &[],
    )
}

fn links(alloc: Global) -> Result<Vec<MemLink>, AllocError>
    ensures { IfOk result (λ links. All is_new links.items) }
{
    let first = link(alloc)?;
    let second = link(alloc)?;
    let mut links = Vec::new(alloc);
    links.push(first)?;
    links.push(second)?;
    Ok(links)
}

fn count_of_ended(all: &Items<Ended<MemLink>>) -> usize {
    all.as_slice()
        .iter()
        .filter(|it| it.outcome == End::Ended)
        .count()
}

// How many sessions are ended, and the sum.
fn served<R: Threads + Wait + Sync>(
    rt: &R,
    alloc: Global,
    gate: &Holding,
) -> Result<(usize, u64), AllocError> {
    let links = links(alloc)?;
    let mut host = MemHost::new(alloc, links, &[], &[])?;
    drop(host.begin(8080, None));
    let users = Items::new(alloc);
    let clock = FixedClock::new(5);
    let closing = serve::<ShownSums, MemHost, FixedClock, Nowhere, Holding, R>(
        rt, alloc, 0, clock, &users, 2, &mut host, gate, Nowhere, false,
    )?;
    Ok((count_of_ended(&closing.ended), closing.last.number()))
}

#[test]
fn gate_beside(rt: HostRuntime) -> Result<(), Fail> {
    let gate = Holding {
        first: AtomicU64::new(0),
        passed: Arc::new(rt.alloc(), AtomicU64::new(0))?,
        is_late: AtomicU64::new(0),
    };
    assert_eq!(rt; served(&rt, rt.alloc(), &gate)?, (2, 4));
    assert_eq!(rt; gate.is_late.load(SeqCst), 0);
    Ok(())
}
