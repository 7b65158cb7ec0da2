//! Writes records to bytes.
ghost use Rattle.std.specs.Prelude.{◌≡◌, ◌<◌, ◌∷◌, [], ◌++◌, length, drop, OnOk, IfOk};
ghost use Rattle.journal_file.specs.Records.{length_bytes, IsShort};
ghost use Rattle.journal_file.specs.Readings.{IsFrameOf};

use bytes::Bytes;
use std::alloc::{AllocError, Global};

// Adds a record.
#[tactic(auto, unfolding(crate::specs::Records::length_bytes))]
fn add_record(frame: &mut Vec<u8>, payload: &[u8]) -> Result<(), AllocError>
    ensures added { OnOk result (frame.new.items
        ≡ frame.old.items ++ (1 ∷ length_bytes (length payload.now) ++ payload.now)) }
    ensures short { OnOk result (IsShort payload.now) }
{
    frame.push(1)?;
    frame.extend_from_slice(&(payload.len() as u64).to_be_bytes())?;
    frame.extend_from_slice(payload)?;
    Ok(())
}

/// The records of these payloads, and a closed gate.
pub(crate) fn frame_of(alloc: Global, payloads: &[Bytes]) -> Result<Vec<u8>, AllocError>
    ensures { IfOk result (λ frame. IsFrameOf payloads.now frame.items) }
{
    let mut frame = Vec::new(alloc);
    for payload in payloads {
        add_record(&mut frame, payload.as_slice())?;
    }
    frame.push(0)?;
    Ok(frame)
}

/// The record of this payload, and a closed gate.
pub(crate) fn frame_of_one(alloc: Global, payload: &[u8]) -> Result<Vec<u8>, AllocError>
    ensures { IfOk result (λ frame. IsFrameOf (payload.now ∷ []) frame.items) }
{
    let mut frame = Vec::new(alloc);
    add_record(&mut frame, payload)?;
    frame.push(0)?;
    Ok(frame)
}

// What stands behind the first gate of a frame.
pub(crate) fn behind_gate(frame: &[u8]) -> &[u8]
    requires { 0 < length frame.now }
    ensures { result.now ≡ drop 1 frame.now }
{
    &frame[1..]
}
