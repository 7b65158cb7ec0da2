//! Sources, sinks, links and clocks in memory: each call that fails by its list, and that the two sides of a link are apart.
use outside::{
    Clock, Drip, Failed, FixedClock, Gate, Link, ListClock, MemLink, MemSink, MemSource, OpenGate,
    Sink, Source,
};
use std::test::Fail;

// Reads once into room for two bytes.
fn read_two<S: Source>(source: &mut S) -> Result<[u8; 2], Failed> {
    let mut room = [0; 2];
    let _count = source.read(&mut room)?;
    Ok(room)
}

// What is read from a source whose second read fails.
fn is_read(source: &mut MemSource) -> bool {
    read_two(source) == Ok(*b"ab")
        && read_two(source) == Err(Failed)
        && read_two(source) == Ok(*b"c\0")
        && read_two(source) == Ok(*b"\0\0")
}

#[test]
fn reads_fail_by_the_list(rt: HostRuntime) -> Result<(), Fail> {
    let mut source = MemSource::new(rt.alloc(), b"abc", &[1])?;
    assert!(rt; is_read(&mut source));
    Ok(())
}

// What is read from a source that gives one byte at a time.
fn is_dripped(source: &mut Drip) -> bool {
    read_two(source) == Ok(*b"a\0")
        && read_two(source) == Ok(*b"b\0")
        && read_two(source) == Ok(*b"\0\0")
}

#[test]
fn drips_give_so_many_at_most(rt: HostRuntime) -> Result<(), Fail> {
    let mut source = Drip::new(rt.alloc(), b"ab", 1)?;
    assert!(rt; is_dripped(&mut source));
    Ok(())
}

// Whether a sink whose first write fails holds the second one.
fn is_written(sink: &mut MemSink) -> bool {
    sink.write(b"no") == Err(Failed)
        && sink.write(b"yes") == Ok(3)
        && sink.held() == b"yes".as_slice()
}

#[test]
fn writes_fail_by_the_list(rt: HostRuntime) -> Result<(), Fail> {
    let mut sink = MemSink::new(rt.alloc(), &[0])?;
    assert!(rt; is_written(&mut sink));
    Ok(())
}

// Whether a link whose second write fails gives what it was given to read, and holds what was written.
fn is_apart(link: &mut MemLink) -> bool {
    let written = link.write(b"out") == Ok(3) && link.write(b"out") == Err(Failed);
    let read = read_two(link) == Ok(*b"in");
    link.finish();
    written
        && read
        && link.sink().held() == b"out".as_slice()
        && link.source().left() == b"".as_slice()
}

#[test]
fn sides_of_a_link_are_apart(rt: HostRuntime) -> Result<(), Fail> {
    let mut link = MemLink::new(rt.alloc(), b"in", &[], &[1])?;
    assert!(rt; is_apart(&mut link));
    Ok(())
}

fn gives<C: Clock>(clock: &mut C, words: &[u64; 3]) -> bool {
    let [first, second, third] = *words;
    clock.now() == first && clock.now() == second && clock.now() == third
}

#[test]
fn a_fixed_clock_gives_its_word(rt: HostRuntime) {
    assert!(rt; gives(&mut FixedClock::new(7), &[7, 7, 7]));
    OpenGate.pass(0, 0);
}

#[test]
fn a_list_gives_its_words(rt: HostRuntime) -> Result<(), Fail> {
    let mut list = ListClock::new(rt.alloc(), &[5, 3])?;
    assert!(rt; gives(&mut list, &[5, 3, 3]));
    Ok(())
}

#[test]
fn an_empty_list_gives_none(rt: HostRuntime) -> Result<(), Fail> {
    let mut empty = ListClock::new(rt.alloc(), &[])?;
    assert!(rt; gives(&mut empty, &[0, 0, 0]));
    Ok(())
}
