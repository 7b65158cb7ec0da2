//! Entries as payloads.
ghost use Rattle.std.specs.Prelude.{◌≡◌, ◌≢◌, ◌≤◌, drop, length, IfOk, IfErr};
ghost use Rattle.byte_codec.specs.Payloads.{Encodes};
ghost use Rattle.journal_keeper.specs.declared.lost.Lost.TheVariants.{Disk};
ghost use Rattle.journal_keeper.specs.Recorded.{shifted, payloads, HaveCodes};

use crate::entry_code::EntryCode;
use crate::lost::Lost;
use bytes::Bytes;
use desk_model::{Entry, Machine, Version};
use journal_file::Payloads;
use std::alloc::Global;

// The payload of an entry.
fn payload_of<C, F: EntryCode<C>>(
    alloc: Global,
    offset: u32,
    entry: &Entry<C>,
) -> Result<Bytes, Lost>
    ensures bytes { IfOk result (λ bytes. Encodes F.codec (shifted offset entry.now) bytes) }
    ensures lost { IfErr result (λ lost. lost ≢ Disk) }
{
    let Some(session) = entry.session.checked_add(offset) else {
        return Err(Lost::Session);
    };
    let bytes = F::encode(alloc, session, entry)?;
    let payload = Bytes::from_vec(bytes)?;
    Ok(payload)
}

/// The payloads of a version's entries from this place on.
pub(crate) fn payloads_from<M: Machine, F: EntryCode<M::Call>>(
    alloc: Global,
    offset: u32,
    version: &Version<M>,
    from: u64,
) -> Result<Payloads, Lost>
    requires { from ≤ length version.now.journal }
    ensures payloads { IfOk result (λ all. all ≡ payloads F.codec offset (drop from version.now.journal)) }
    ensures have_codes { IfOk result (λ _. HaveCodes F.codec offset (drop from version.now.journal)) }
    ensures lost { IfErr result (λ lost. lost ≢ Disk) }
{
    let mut all = Payloads::new(alloc);
    let _len = version.len();
    let mut place = from;
    'places: while let Some(entry) = version.entry(place) {
        let payload = payload_of::<M::Call, F>(alloc, offset, entry)?;
        all.push(payload)?;
        place += 1;
    }
    Ok(all)
}
