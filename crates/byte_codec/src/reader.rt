//! Bytes that are read from the front.
ghost use Rattle.std.specs.Prelude.{◌≡◌, ◌+◌, ◌≤◌, length, take, drop, Some, None, MatchOption, IfOk, IfSome, [], ◌∷◌};
ghost use Rattle.std.specs.Arc.{arc_value};
ghost use Rattle.archive.specs.Extents.{Stands};
ghost use Rattle.byte_codec.specs.Numbers.{front_reads, FrontReads, number_of, number_reads, bytes_reads, text};
ghost use Rattle.byte_codec.specs.Standings.{IsStanding};

use crate::stop::DecodeStop;
use archive::{Archive, Extent};
use cm_base::piece::Piece;
use cm_base::pieces::Pieces;
use std::alloc::{AllocError, Global};
use std::marker::Model;
use std::sync::Arc;

// The number of eight bytes, the most significant first.
fn number_of(front: &[u8]) -> u64
    requires { length front.now ≡ 8 }
    ensures { number_of front.now ≡ Some result }
{
    u64::from_be_bytes([
        front[0], front[1], front[2], front[3], front[4], front[5], front[6], front[7],
    ])
}

/// Streams of fewer bytes are held in memory, also where their payload stands in an archive.
pub const KEPT_FROM: u64 = 4_096;

/// A payload that stands in an archive too, and where.
#[derive(Drop)]
pub(crate) struct Standing<'a> {
    pub(crate) payload: &'a Arc<Vec<u8>>,
    pub(crate) archive: Arc<Archive>,
    pub(crate) place: u64,
}

/// Bytes that are not owned, read from the front, and seen as what is left of them.
#[derive(Drop)]
pub struct Reader<'a> {
    bytes: &'a [u8],
    at: usize,
    standing: Option<Standing<'a>>,
}

impl<'a> Model for Reader<'a> {
    ghost use Rattle.std.specs.Prelude.{ℕ, List, drop};

    ghost Value = { List ℕ };

    ghost use Rattle.byte_codec.specs.Standings.{IsReader};

    ghost view = { λ r. drop r.at r.bytes.now };

    ghost invariant = { λ r. IsReader r.bytes.now r.at r.standing };
}

impl<'a> Reader<'a> {
    /// Before the first of these bytes.
    pub fn new(bytes: &'a [u8]) -> Reader<'a>
        ensures { result ≡ bytes.now }
    {
        Reader {
            bytes,
            at: 0,
            standing: None,
        }
    }

    /// Before the first byte of a payload that stands in an archive from this place on.
    pub fn standing(payload: &'a Arc<Vec<u8>>, archive: Arc<Archive>, place: u64) -> Reader<'a>
        requires { Stands (arc_value archive) place (length payload.now.value.items) payload.now.value.items }
        ensures { result ≡ payload.now.value.items }
    {
        Reader {
            bytes: payload.as_slice(),
            at: 0,
            standing: Some(Standing {
                payload,
                archive,
                place,
            }),
        }
    }

    /// The bytes that are left.
    pub fn left(&self) -> &'a [u8]
        ensures { result.now ≡ self.now }
    {
        &self.bytes[self.at..]
    }

    // Goes on behind so many bytes.
    fn skip(&mut self, count: usize)
        requires { count ≤ length self.old }
        ensures { self.new ≡ drop count self.old }
    {
        self.at += count;
    }

    /// The next bytes, of this number; none exactly where fewer are left.
    pub fn front(&mut self, count: u64) -> Option<&'a [u8]>
        ensures { MatchOption result (front_reads count self.old ≡ None)
            (λ s. front_reads count self.old ≡ Some (s.now, self.new)) }
    {
        let left = self.left();
        if (left.len() as u64) < count {
            return None;
        }
        let (front, _) = left.split_at(count as usize);
        self.skip(count as usize);
        Some(front)
    }

    /// The next byte, where one is left.
    pub fn byte(&mut self) -> Option<u8>
        ensures { MatchOption result (self.old ≡ []) (λ b. self.old ≡ b ∷ self.new) }
    {
        match self.left() {
            [] => None,
            [byte, ..] => {
                let byte = *byte;
                self.skip(1);
                Some(byte)
            }
        }
    }

    /// The next bytes as a stream, of this number. It stays in the archive where the payload stands in one, and is not small.
    pub fn stream(&mut self, alloc: Global, count: u64) -> Result<Pieces, DecodeStop>
        ensures { FrontReads count result self.old self.new }
    {
        if (self.left().len() as u64) < count {
            return Err(DecodeStop::NotAnEntry);
        }
        let count = count as usize;
        let pieces = part_of(alloc, self.bytes, self.at, count, &self.standing)?;
        self.skip(count);
        Ok(pieces)
    }

    /// The number of the next eight bytes; none exactly where fewer are left.
    #[tactic(auto, using(crate::proofs::EightBytes::front_length), unfolding(crate::specs::Numbers::number_reads))]
    pub fn number(&mut self) -> Option<u64>
        ensures { MatchOption result (number_reads self.old ≡ None)
            (λ n. number_reads self.old ≡ Some (n, self.new)) }
    {
        match self.front(8) {
            Some(front) => Some(number_of(front)),
            None => None,
        }
    }

    /// The bytes behind their length; none exactly where no such bytes stand at the front.
    #[tactic(auto, unfolding(crate::specs::Numbers::bytes_reads))]
    pub fn bytes(&mut self) -> Option<&'a [u8]>
        ensures { MatchOption result (bytes_reads self.old ≡ None)
            (λ s. bytes_reads self.old ≡ Some (s.now, self.new)) }
    {
        match self.number() {
            Some(count) => self.front(count),
            None => None,
        }
    }

    /// The text behind its length; none exactly where no such text stands at the front.
    pub fn text(&mut self) -> Option<&'a str>
        ensures { MatchOption result (text.reads self.old ≡ None)
            (λ s. text.reads self.old ≡ Some (s.now, self.new)) }
    {
        match self.bytes() {
            Some(bytes) => match str::from_utf8(bytes) {
                Ok(text) => Some(text),
                Err(_) => None,
            },
            None => None,
        }
    }
}

// A part of bytes as a stream.
fn part_of(
    alloc: Global,
    bytes: &[u8],
    at: usize,
    count: usize,
    standing: &Option<Standing<'_>>,
) -> Result<Pieces, AllocError>
    requires within { at + count ≤ length bytes.now }
    requires stands { IfSome standing.now (IsStanding bytes.now) }
    ensures { IfOk result (λ p. p ≡ take count (drop at bytes.now)) }
{
    match standing {
        Some(standing) if KEPT_FROM <= count as u64 => kept(alloc, standing, at, count),
        _ => {
            let part = Vec::from_slice(alloc, &bytes[at..at + count])?;
            let part = Arc::new(alloc, part)?;
            Ok(Pieces::of(part))
        }
    }
}

// A part of a payload, where it stands.
fn kept(
    alloc: Global,
    standing: &Standing<'_>,
    at: usize,
    count: usize,
) -> Result<Pieces, AllocError>
    requires within { at + count ≤ length standing.now.payload.now.value.items }
    requires stands { IsStanding standing.now.payload.now.value.items standing.now }
    ensures { IfOk result (λ p. p ≡ take count (drop at standing.now.payload.now.value.items)) }
{
    let archive = Arc::try_clone(&standing.archive)?;
    let extent = Extent::of_part(archive, standing.place, standing.payload, at, at + count)?;
    let extent = Arc::new(alloc, extent)?;
    Ok(Pieces::one(Piece::kept(extent)))
}
