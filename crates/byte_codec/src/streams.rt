//! The bytes of streams behind their number.
ghost use Rattle.std.specs.Prelude.{◌≡◌, ◌+◌, ◌≤◌, ◌++◌, length, take, drop, OnOk};
ghost use Rattle.cm_base.specs.Whole.{whole};
ghost use Rattle.byte_codec.specs.Codecs.{Codec, Writes, Reads};
ghost use Rattle.byte_codec.specs.Numbers.{bytes};

use crate::coded::Coded;
use crate::numbers::write_number;
use crate::reader::Reader;
use crate::stop::{DecodeStop, EncodeStop};
use archive::Extent;
use cm_base::piece::{Piece, Place};
use cm_base::pieces::Pieces;
use std::alloc::{AllocError, Global};

// Adds room for so many bytes.
fn add_room(out: &mut Vec<u8>, count: usize) -> Result<(), AllocError>
    ensures room { OnOk result (length out.new.items ≡ length out.old.items + count) }
    ensures front { OnOk result (take (length out.old.items) out.new.items ≡ out.old.items) }
{
    let len = out.len();
    match len.checked_add(count) {
        Some(len) => out.resize(len, 0),
        None => Err(AllocError),
    }
}

// Fills the bytes from `at` on with those of an extent, which are to be known.
fn fill(out: &mut Vec<u8>, at: usize, extent: &Extent) -> Result<(), EncodeStop>
    requires { length out.old.items ≡ at + length extent.now }
    ensures { OnOk result (out.new.items ≡ take at out.old.items ++ extent.now) }
{
    match extent.read(true, 0, &mut out[at..]) {
        Ok(()) => Ok(()),
        Err(unread) => Err(EncodeStop::Unread(unread)),
    }
}

// Puts bytes that stand in an archive.
fn put_extent(extent: &Extent, out: &mut Vec<u8>) -> Result<(), EncodeStop>
    ensures { OnOk result (out.new.items ≡ out.old.items ++ extent.now) }
{
    let at = out.len();
    add_room(out, extent.len() as usize)?;
    fill(out, at, extent)
}

// Puts the bytes of a piece, wherever they are.
fn put_piece(piece: &Piece, out: &mut Vec<u8>) -> Result<(), EncodeStop>
    ensures { OnOk result (out.new.items ≡ out.old.items ++ piece.now) }
{
    match piece.place() {
        Place::Held(bytes) => {
            out.extend_from_slice(bytes.as_slice())?;
            Ok(())
        }
        Place::Kept(extent) => put_extent(extent, out),
    }
}

fn put_pieces(list: &[Piece], out: &mut Vec<u8>) -> Result<(), EncodeStop>
    ensures { OnOk result (out.new.items ≡ out.old.items ++ whole list.now) }
{
    for piece in list {
        put_piece(piece, out)?;
    }
    Ok(())
}

impl<F> Coded<F> for Pieces {
    ghost codec = { bytes };

    #[tactic(auto, unfolding(crate::specs::Numbers::bytes_code))]
    fn write(&self, out: &mut Vec<u8>) -> Result<(), EncodeStop> {
        write_number(self.len(), out)?;
        put_pieces(self.list(), out)?;
        Ok(())
    }

    #[tactic(auto, unfolding(crate::specs::Numbers::bytes_reads))]
    fn read(alloc: Global, from: &mut Reader<'_>) -> Result<Pieces, DecodeStop> {
        match from.number() {
            Some(count) => from.stream(alloc, count),
            None => Err(DecodeStop::NotAnEntry),
        }
    }
}
