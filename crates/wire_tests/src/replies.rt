//! The reply where memory is wanted.
use http_reply::send_memory;
use outside::{Failed, MemSink};
use std::test::Fail;

// The reply to a sink whose first write fails, and then whole.
fn is_told(sink: &mut MemSink) -> bool {
    send_memory(sink) == Err(Failed)
        && send_memory(sink) == Ok(())
        && sink.held()
            == b"HTTP/1.1 500 Internal Server Error\r\nContent-Type: application/json\r\nContent-Length: 52\r\nConnection: close\r\n\r\n{\"exception\":\"runtime\",\"message\":\"memory is wanted\"}".as_slice()
}

#[test]
fn want_of_memory_is_told(rt: HostRuntime) -> Result<(), Fail> {
    let mut sink = MemSink::new(rt.alloc(), &[0])?;
    assert!(rt; is_told(&mut sink));
    Ok(())
}
