//! Reads what stands at a gate, and the bytes of a payload.
ghost use Rattle.std.specs.Prelude.{◌≡◌, ◌+◌, ◌^◌, ◌<◌, ◌≤◌, ◌∷◌, ◌++◌, IsTrue, List, ℕ, length, take, drop, IfOk, IfErr};
ghost use Rattle.std.specs.Int.{w64, from_be_bytes};
ghost use Rattle.outside.specs.Outside.{HasCause};
ghost use Rattle.disk.specs.Disks.{IsUnchanged};
ghost use Rattle.journal_file.specs.Records.{length_bytes};
ghost use Rattle.journal_file.specs.Heads.{IsHead, EndsWithin};
ghost use Rattle.journal_file.specs.Stops.{FaultHasCause, DamageIs};

use crate::open_stop::OpenStop;
use disk::Disk;
use outside::Failed;
use std::alloc::Global;

/// What stands at a gate.
#[derive(Clone, Copy, Drop)]
pub(crate) enum Head {
    /// It is closed.
    Closed,
    /// It is open, and behind it stands the length of a payload, with more bytes than that behind it.
    Payload(u64),
    /// It is open, and no whole payload with a byte behind it follows.
    Broken,
}

// The number of the first eight bytes, the most significant first.
fn number_of(bytes: &[u8]) -> u64
    requires { 8 ≤ length bytes.now }
    ensures { result ≡ from_be_bytes w64 (take 8 bytes.now) }
{
    u64::from_be_bytes([
        bytes[0], bytes[1], bytes[2], bytes[3], bytes[4], bytes[5], bytes[6], bytes[7],
    ])
}

// A gate and the length behind it.
fn split_head(head: &[u8]) -> (u8, u64)
    requires { length head.now ≡ 9 }
    ensures { head.now ≡ result.0 ∷ length_bytes result.1 }
{
    let (gate, len) = head.split_at(1);
    (gate[0], number_of(len))
}

// What stands at a gate, where nine bytes were read there, and so many are left from the gate on.
fn head_of(head: &[u8], left: u64) -> Head
    requires nine { length head.now ≡ 9 }
    requires more { 10 ≤ left }
    ensures is { (behind : List ℕ) → 9 + length behind ≡ left → IsHead result (head.now ++ behind) }
    ensures within { EndsWithin result left }
{
    let (gate, len) = split_head(head);
    if gate != 1 {
        return Head::Closed;
    }
    if len > left - 10 {
        return Head::Broken;
    }
    Head::Payload(len)
}

// What stands at a gate that fewer than nine bytes follow.
fn last_head_of(gate: u8) -> Head
    ensures is { (behind : List ℕ) → length behind < 9 → IsHead result (gate ∷ behind) }
    ensures within { (left : ℕ) → EndsWithin result left }
{
    if gate != 1 {
        return Head::Closed;
    }
    Head::Broken
}

// What stands at a gate that fewer than nine bytes follow.
fn last_head_at<K: Disk>(disk: &mut K, place: u64) -> Result<Head, Failed>
    requires within { IsTrue K.tells → place < length (K.told disk.old).file.seen }
    requires last { IsTrue K.tells → length (K.told disk.old).file.seen < place + 10 }
    ensures head { IsTrue K.tells → IfOk result (λ head. IsHead head (drop place (K.told disk.old).file.seen)) }
    ensures ends { (left : ℕ) → IfOk result (λ head. EndsWithin head left) }
    ensures file { IsTrue K.tells → IsUnchanged (K.told disk.old) (K.told disk.new) }
    ensures stands_for { K.stands_for disk.new ≡ K.stands_for disk.old }
    ensures cause { HasCause (K.told disk.old).faults (K.told disk.new).faults result }
{
    let mut gate = [0; 1];
    disk.read(place, &mut gate)?;
    Ok(last_head_of(gate[0]))
}

// What stands at this gate, from which on the file has so many bytes.
pub(crate) fn head_at<K: Disk>(disk: &mut K, place: u64, left: u64) -> Result<Head, Failed>
    requires some { 0 < left }
    requires whole { IsTrue K.tells → place + left ≡ length (K.told disk.old).file.seen }
    ensures head { IsTrue K.tells → IfOk result (λ head. IsHead head (drop place (K.told disk.old).file.seen)) }
    ensures ends { IfOk result (λ head. EndsWithin head left) }
    ensures file { IsTrue K.tells → IsUnchanged (K.told disk.old) (K.told disk.new) }
    ensures stands_for { K.stands_for disk.new ≡ K.stands_for disk.old }
    ensures cause { HasCause (K.told disk.old).faults (K.told disk.new).faults result }
{
    if left < 10 {
        return last_head_at(disk, place);
    }
    let mut head = [0; 9];
    disk.read(place, &mut head)?;
    Ok(head_of(&head, left))
}

// So many bytes of the file, from this place on.
pub(crate) fn bytes_at<K: Disk>(
    alloc: Global,
    disk: &mut K,
    place: u64,
    len: u64,
) -> Result<Vec<u8>, OpenStop>
    requires { IsTrue K.tells → place + len ≤ length (K.told disk.old).file.seen }
    ensures bytes { IsTrue K.tells
        → IfOk result (λ bytes. bytes.items ≡ take len (drop place (K.told disk.old).file.seen)) }
    ensures len { IfOk result (λ bytes. length bytes.items ≡ len) }
    ensures file { IsTrue K.tells → IsUnchanged (K.told disk.old) (K.told disk.new) }
    ensures stands_for { K.stands_for disk.new ≡ K.stands_for disk.old }
    ensures not_damaged { IfErr result (λ stop. DamageIs stop (λ _. ⊥)) }
    ensures cause { FaultHasCause (K.told disk.old).faults (K.told disk.new).faults result }
{
    let mut bytes = vec![in alloc; 0; len as usize]?;
    disk.read(place, &mut bytes)?;
    Ok(bytes)
}
