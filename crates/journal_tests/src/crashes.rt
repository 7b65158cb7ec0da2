//! A session of puts is stopped at each call of its disk that writes or syncs, and what a crash then leaves is opened again.
ghost use Rattle.std.specs.Prelude.{◌<◌};

use bytes::Bytes;
use crash_disk::CrashDisk;
use journal_file::{Journal, Payloads, PutStop};
use std::alloc::{AllocError, Global};
use std::test::Fail;

// How many batches are put.
const BATCHES: u64 = 4;

// What is put, each payload with the number of its batch. One is a record with an open gate behind it, and some are empty.
const PAYLOADS: [(u64, &[u8]); 7] = [
    (0, b"\x07"),
    (1, b"\x01\x02\x03"),
    (1, b""),
    (2, b"\x01\0\0\0\0\0\0\0\x01\x07\x01"),
    (3, b""),
    (3, b"\x01"),
    (3, b"\0\0"),
];

// The calls of a whole session that write or sync: three where an empty file is opened, and four for each batch.
const CALLS: u64 = 3 + 4 * BATCHES;

// The bytes that a write leaves at which the disk stops: gates that are open.
const TORN: [u8; 16] = [1; 16];

// What is chosen where a crash may leave any bytes.
const CHOICES: [Choice; 6] = [
    Choice::Synced,
    Choice::Written,
    Choice::Half,
    Choice::Mixed,
    Choice::Open,
    Choice::Closed,
];

#[derive(Clone, Copy)]
enum Choice {
    // Nothing of what was written since the last sync.
    Synced,
    // All of it.
    Written,
    // The first half of the file.
    Half,
    // Each second byte of it, and gates that are open between.
    Mixed,
    // Gates that are open, and more of them than were written.
    Open,
    // Gates that are closed.
    Closed,
}

impl Choice {
    fn bytes(self, alloc: Global, disk: &CrashDisk) -> Result<Vec<u8>, AllocError> {
        let file = disk.file();
        match self {
            Choice::Synced => Vec::from_slice(alloc, disk.synced()),
            Choice::Written => Vec::from_slice(alloc, file),
            Choice::Half => Vec::from_slice(alloc, &file[..file.len() / 2]),
            Choice::Mixed => mixed(alloc, file),
            Choice::Open => Vec::from_elem(alloc, 1, 200),
            Choice::Closed => Vec::from_elem(alloc, 0, 200),
        }
    }
}

// Each second byte, and open gates between.
fn mixed(alloc: Global, file: &[u8]) -> Result<Vec<u8>, AllocError> {
    let mut all = Vec::from_slice(alloc, file)?;
    for byte in all.iter_mut().step_by(2) {
        *byte = 1;
    }
    Ok(all)
}

// The payloads of a batch.
fn batch(alloc: Global, number: u64) -> Result<Vec<Bytes>, AllocError> {
    let mut all = Vec::new(alloc);
    for payload in &PAYLOADS {
        if payload.0 == number {
            all.push(Bytes::copy_from_slice(alloc, payload.1)?)?;
        }
    }
    Ok(all)
}

// Puts a batch, or the one payload that it has.
fn put_batch(
    alloc: Global,
    journal: Journal<CrashDisk>,
    batch: &[Bytes],
) -> Result<Journal<CrashDisk>, PutStop<CrashDisk>> {
    match batch {
        [payload] => journal.put(alloc, payload),
        _ => journal.put_all(alloc, batch),
    }
}

// The disk that is handed back.
fn disk_of(stop: PutStop<CrashDisk>) -> CrashDisk {
    match stop {
        PutStop::Fault(disk) => disk,
        PutStop::Memory(journal) => journal.into_disk(),
    }
}

// Opens the journal and puts the batches one after the other, and says how many of them were acknowledged.
fn acknowledged(alloc: Global, disk: CrashDisk) -> Result<(u64, CrashDisk), AllocError> {
    let mut journal = match Journal::open(alloc, disk) {
        Ok((journal, _payloads)) => journal,
        Err((_stop, disk)) => return Ok((0, disk)),
    };
    for number in 0..BATCHES {
        let batch = batch(alloc, number)?;
        journal = match put_batch(alloc, journal, &batch) {
            Ok(journal) => journal,
            Err(stop) => return Ok((number, disk_of(stop))),
        };
    }
    Ok((BATCHES, journal.into_disk()))
}

// How many payloads the first batches have.
fn payloads_of(batches: u64) -> usize {
    PAYLOADS
        .iter()
        .filter(|payload| payload.0 < batches)
        .count()
}

// Whether these are the payloads of so many batches, or of one more.
fn are_whole(payloads: &Payloads, batches: u64) -> bool {
    let found = payloads.as_slice();
    let is_front = found
        .iter()
        .zip(&PAYLOADS)
        .all(|(one, other)| one.as_slice() == other.1);
    let count = found.len();
    is_front && (count == payloads_of(batches) || count == payloads_of(batches.saturating_add(1)))
}

// Whether a file has the payloads of so many batches, or of one more.
fn has_whole(alloc: Global, file: &[u8], batches: u64) -> Result<bool, AllocError> {
    let mut disk = CrashDisk::new(alloc, file, u64::MAX, &[])?;
    match Journal::open(alloc, &mut disk) {
        Ok((_, payloads)) => Ok(are_whole(&payloads, batches)),
        Err(_) => Ok(false),
    }
}

// A session that is stopped at this call: what a crash leaves, and how many batches were acknowledged.
fn left_at(alloc: Global, stop: u64, choice: Choice) -> Result<(Vec<u8>, u64), AllocError> {
    let disk = CrashDisk::new(alloc, &[], stop, &TORN)?;
    let (batches, disk) = acknowledged(alloc, disk)?;
    let chosen = choice.bytes(alloc, &disk)?;
    Ok((disk.left(alloc, &chosen)?, batches))
}

// The file is opened by a journal that is stopped at this call: what a crash leaves.
fn left_of_open(
    alloc: Global,
    file: &[u8],
    stop: u64,
    choice: Choice,
) -> Result<Vec<u8>, AllocError> {
    let mut disk = CrashDisk::new(alloc, file, stop, &TORN)?;
    let _ = Journal::open(alloc, &mut disk).is_ok();
    let chosen = choice.bytes(alloc, &disk)?;
    disk.left(alloc, &chosen)
}

// Whether each choice of a crash at this call of a session leaves what was acknowledged.
fn keeps_at(alloc: Global, stop: u64) -> Result<bool, AllocError> {
    for choice in CHOICES {
        let (file, batches) = left_at(alloc, stop, choice)?;
        if !has_whole(alloc, &file, batches)? {
            return Ok(false);
        }
    }
    Ok(true)
}

// Whether each choice of a crash at a call of the open that follows still leaves it.
fn keeps_opened(alloc: Global, stop: u64, choice: Choice) -> Result<bool, AllocError> {
    let (file, batches) = left_at(alloc, stop, choice)?;
    for again in 0..4 {
        for other in CHOICES {
            let left = left_of_open(alloc, &file, again, other)?;
            if !has_whole(alloc, &left, batches)? {
                return Ok(false);
            }
        }
    }
    Ok(true)
}

#[test]
fn a_whole_session_is_acknowledged(rt: HostRuntime) -> Result<(), Fail> {
    let alloc = rt.alloc();
    let disk = CrashDisk::new(alloc, &[], u64::MAX, &[])?;
    let (batches, disk) = acknowledged(alloc, disk)?;
    assert_eq!(rt; batches, BATCHES);
    assert_eq!(rt; disk.calls(), CALLS);
    Ok(())
}

#[test]
fn a_crash_keeps_what_was_acknowledged(rt: HostRuntime) -> Result<(), Fail> {
    let alloc = rt.alloc();
    for stop in 0..=CALLS {
        assert!(rt; keeps_at(alloc, stop)?, "stopped at {stop}");
    }
    Ok(())
}

#[test]
fn a_crash_while_it_is_opened_keeps_it_too(rt: HostRuntime) -> Result<(), Fail> {
    let alloc = rt.alloc();
    for stop in 0..=CALLS {
        for choice in CHOICES {
            assert!(rt; keeps_opened(alloc, stop, choice)?, "stopped at {stop}");
        }
    }
    Ok(())
}
