//! The moments that a clock gives: each write has one of its own.
ghost use Rattle.std.specs.Prelude.{All, IfOk};
ghost use Rattle.outside.specs.Hosts.{is_new};

use crate::gates::link;
use crate::replies::ShownSums;
use cm_base::items::Items;
use cm_base::number::Moment;
use desk_model::{Nowhere, Snapshot};
use desk_serve::serve;
use outside::{Host, ListClock, MemHost, MemLink, OpenGate};
use std::alloc::{AllocError, Global};
use std::sync::Wait;
use std::test::Fail;
use std::thread::Threads;

fn links(alloc: Global) -> Result<Vec<MemLink>, AllocError>
    ensures { IfOk result (λ links. All is_new links.items) }
{
    let link = link(alloc)?;
    let mut links = Vec::new(alloc);
    links.push(link)?;
    Ok(links)
}

fn moment_at(last: &Snapshot<ShownSums>, place: u64) -> Option<Moment> {
    match last.entry(place) {
        Some(entry) => Some(entry.moment),
        None => None,
    }
}

// The journal once a link is served, with these words of the clock.
fn served<R: Threads + Wait + Sync>(
    rt: &R,
    alloc: Global,
    words: &[u64],
) -> Result<Snapshot<ShownSums>, AllocError> {
    let links = links(alloc)?;
    let clock = ListClock::new(alloc, words)?;
    let mut host = MemHost::new(alloc, links, &[], &[])?;
    drop(host.begin(8080, None));
    let users = Items::new(alloc);
    let closing = serve::<ShownSums, MemHost, ListClock, Nowhere, OpenGate, R>(
        rt, alloc, 0, clock, &users, 1, &mut host, &OpenGate, Nowhere, true,
    )?;
    Ok(closing.last)
}

#[test]
fn moments_kept(rt: HostRuntime) -> Result<(), Fail> {
    let last = served(&rt, rt.alloc(), &[6, 7])?;
    assert_eq!(rt; moment_at(&last, 0), Some(Moment(6)));
    assert_eq!(rt; moment_at(&last, 1), Some(Moment(7)));
    assert_eq!(rt; moment_at(&last, 2), None);
    Ok(())
}
