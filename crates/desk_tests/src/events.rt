//! Sessions that take turns.
use crate::sums::Sums;
use cm_base::items::Items;
use cm_base::number::Moment;
use cm_base::text::Text;
use desk_core::{Core, CoreStop, Done, Event, run_events};
use desk_model::Version;
use std::alloc::{AllocError, Global};
use std::test::Fail;

/// What a session does.
#[derive(Clone, Copy)]
enum Turn {
    Enter,
    Look,
    Write(u64),
    Ask(u64),
}

fn event(alloc: Global, session: u32, turn: Turn) -> Result<Event<u64, u64>, AllocError> {
    let user = Text::from_str(alloc, "ann")?;
    Ok(match turn {
        Turn::Enter => Event::Enter { session },
        Turn::Look => Event::Look { session },
        Turn::Write(call) => Event::Write {
            session,
            user,
            moment: Moment(7),
            call,
        },
        Turn::Ask(question) => Event::Ask {
            session,
            user,
            question,
        },
    })
}

// What a step did, what it shows or is refused by, and the number of the version.
fn told(done: &Result<Done<u64>, CoreStop<u64>>) -> (&'static str, u64, u64) {
    match done {
        Ok(Done::Entered(n)) => ("entered", 0, *n),
        Ok(Done::Wrote(shown, n)) => ("wrote", *shown, *n),
        Ok(Done::Looked(n)) => ("looked", 0, *n),
        Ok(Done::Said(shown, n)) => ("said", *shown, *n),
        Err(CoreStop::Refused { cause, number }) => ("refused", *cause, *number),
        Err(CoreStop::Known) => ("known", 0, 0),
        Err(CoreStop::Unknown) => ("unknown", 0, 0),
        Err(CoreStop::Memory) => ("memory", 0, 0),
    }
}

// Two sessions of which the second holds the beginning until it looks.
#[test]
fn sessions_take_turns(rt: HostRuntime) -> Result<(), Fail> {
    let alloc = rt.alloc();
    let version: Version<Sums> = Version::opening(alloc, 1)?;
    let mut core = Core::new(alloc, version)?;
    let script = [
        (3, Turn::Enter, ("entered", 0, 1)),
        (4, Turn::Enter, ("entered", 0, 1)),
        (3, Turn::Write(40), ("wrote", 41, 41)),
        (4, Turn::Ask(1), ("said", 1, 1)),
        (4, Turn::Look, ("looked", 0, 41)),
        (4, Turn::Ask(1), ("refused", 1, 41)),
        (4, Turn::Write(59), ("refused", 41, 41)),
        (3, Turn::Enter, ("known", 0, 0)),
        (5, Turn::Look, ("unknown", 0, 0)),
    ];
    for (session, turn, want) in script {
        let event = event(alloc, session, turn)?;
        let done = core.step(alloc, event);
        assert_eq!(rt; told(&done), want);
    }
    Ok(())
}

// How many answers there are to two events, and how long the journal is then.
fn ran(alloc: Global) -> Result<(usize, u64), AllocError> {
    let version: Version<Sums> = Version::opening(alloc, 1)?;
    let mut core = Core::new(alloc, version)?;
    let mut events = Items::new(alloc);
    events.push(event(alloc, 3, Turn::Enter)?)?;
    events.push(event(alloc, 3, Turn::Write(40))?)?;
    let dones = run_events(alloc, &mut core, events)?;
    Ok((dones.len(), core.snapshot()?.len()))
}

#[test]
fn each_event_is_answered(rt: HostRuntime) -> Result<(), Fail> {
    assert_eq!(rt; ran(rt.alloc())?, (2, 1));
    Ok(())
}
