//! A journal over a disk in memory: what stands after puts, over damage, and where the disk fails at each of its calls.
use crate::{Journal, OpenStop};
use bytes::Bytes;
use disk::MemDisk;
use std::test::Fail;

// One payload of one byte, as the file's form says.
const ONE: [u8; 11] = [1, 0, 0, 0, 0, 0, 0, 0, 1, 7, 0];

#[test]
fn an_empty_file_gets_a_closed_gate(rt: HostRuntime) -> Result<(), Fail> {
    let alloc = rt.alloc();
    let mut disk = MemDisk::new(alloc, &[], &[])?;
    assert!(rt; Journal::open(alloc, &mut disk).is_ok());
    assert_eq!(rt; disk.file(), [0].as_slice());
    Ok(())
}

#[test]
fn a_payload_is_put(rt: HostRuntime) -> Result<(), Fail> {
    let alloc = rt.alloc();
    let journal = match Journal::open(alloc, MemDisk::new(alloc, &[0], &[])?) {
        Ok((journal, _)) => journal,
        Err(_) => return Err(Fail::from("a closed gate is a journal")),
    };
    let payload = Bytes::copy_from_slice(alloc, &[7])?;
    match journal.put(alloc, &payload) {
        Ok(journal) => assert_eq!(rt; journal.disk().file(), ONE.as_slice()),
        Err(_) => return Err(Fail::from("no call of the disk fails")),
    }
    Ok(())
}

#[test]
fn damage_is_told(rt: HostRuntime) -> Result<(), Fail> {
    let alloc = rt.alloc();
    let mut disk = MemDisk::new(alloc, &ONE[..10], &[])?;
    match Journal::open(alloc, &mut disk) {
        Err((stop, _)) => assert_eq!(rt; stop, OpenStop::Damaged(0)),
        Ok(_) => return Err(Fail::from("no byte stands behind the payload")),
    }
    Ok(())
}
