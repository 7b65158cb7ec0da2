//! The names in a path.
ghost use Rattle.std.specs.Prelude.{◌≡◌, ◌++◌, ◌+◌, ◌<◌, ◌==◌, ◌⊎◌, take, drop, length, All, IfOk, OnOk, IsUtf8};
ghost use Rattle.std.specs.List.{position_or_len};
ghost use Rattle.percent_encoding.specs.Percent.{percent_decode};
ghost use Rattle.request_target.specs.Path.{names_of, piece_names};

use cm_base::text::Text;
use percent_encoding::DecodeError;
use std::alloc::{AllocError, Global};

/// Why a path has no names.
#[derive(Debug, Drop)]
pub enum PathStop {
    /// A segment is no UTF-8.
    Bad,
    /// There was no memory.
    Memory,
}

impl From<AllocError> for PathStop {
    ghost use Rattle.request_target.specs.declared.path.PathStop.TheVariants.{Memory};

    ghost from_gives = { λ _ e. e ≡ Memory };

    fn from(_error: AllocError) -> PathStop {
        PathStop::Memory
    }
}

// The bytes before the first slash, and those after it.
fn cut(path: &[u8]) -> (&[u8], &[u8])
    ensures before { result.0.now ≡ take (position_or_len (λ b. b == 47) path.now) path.now }
    ensures after { result.1.now ≡ drop (position_or_len (λ b. b == 47) path.now + 1) path.now }
    ensures shorter { 0 < length path.now → length result.1.now < length path.now }
{
    match path.iter().position(|&b| b == b'/') {
        Some(i) => (&path[..i], &path[i + 1..]),
        None => (path, &[]),
    }
}

fn name(alloc: Global, piece: &[u8]) -> Result<Text, PathStop>
    ensures ok { IfOk result (λ t. (t ≡ percent_decode piece.now) × IsUtf8 (percent_decode piece.now)) }
    ensures bad { result ≡ Err PathStop.Bad → ¬ IsUtf8 (percent_decode piece.now) }
{
    match percent_encoding::percent_decode(piece).decode_utf8(alloc) {
        Ok(text) => Ok(Text::from_string(text.into_owned(alloc)?)),
        Err(DecodeError::Utf8(_)) => Err(PathStop::Bad),
        Err(DecodeError::OutOfMemory) => Err(PathStop::Memory),
    }
}

// Adds the name of a piece, which has none where it is empty.
fn add(alloc: Global, names: &mut Vec<Text>, piece: &[u8]) -> Result<(), PathStop>
    ensures ok { OnOk result ((names.new.items ≡ names.old.items ++ piece_names piece.now)
        × All IsUtf8 (piece_names piece.now)) }
    ensures bad { result ≡ Err PathStop.Bad → ¬ (All IsUtf8 (piece_names piece.now)) }
{
    if piece.is_empty() {
        return Ok(());
    }
    let text = name(alloc, piece)?;
    match names.push(text) {
        Ok(()) => Ok(()),
        Err(_) => Err(PathStop::Memory),
    }
}

/// The names in a path: its segments that have bytes, decoded.
pub fn path(alloc: Global, path: &[u8]) -> Result<Vec<Text>, PathStop>
    ensures ok { IfOk result (λ v. (v.items ≡ names_of path.now) × All IsUtf8 (names_of path.now)) }
    ensures bad { result ≡ Err PathStop.Bad → ¬ (All IsUtf8 (names_of path.now)) }
{
    let mut names = Vec::new(alloc);
    let mut rest = path;
    while !rest.is_empty() {
        let (piece, later) = cut(rest);
        add(alloc, &mut names, piece)?;
        rest = later;
    }
    Ok(names)
}
