//! Sources, sinks, and links of both.
ghost use Rattle.std.specs.Prelude.{◌≡◌, ◌<◌, ◌≤◌, ℕ, List, [], ◌∷◌, Bool, true, length, IfOk, None, is_some};
ghost use Rattle.std.specs.declared.option.Option.{Option};
ghost use Rattle.std.specs.Io.KnownBytes.{IsAtEnd};
ghost use Rattle.outside.specs.Outside.{Rose, HasCause, KeptByReads, KeptByWrites, Reads, Writes, SinkTold, SourceTold, with_pieces};

use archive::Unread;

/// The outside failed, and has counted it.
#[derive(Clone, Copy, Debug, PartialEq, Eq)]
pub struct Failed;

/// Where bytes come from.
pub trait Source {
    /// What is left and was given since it was made, where the source tells it, whether it has ended, and its count of faults.
    ghost told: { Self → SourceTold };

    /// What no read changes: at a link, what its sink tells; and the references that the source holds, which stay the same ones.
    ghost aside: { Self → KeptByReads };

    /// Reads the next bytes into room. 0 is the end, and stays so. A read that fails gives nothing.
    fn read(&mut self, room: &mut [u8]) -> Result<usize, Failed>
        requires { 0 < length room.old }
        ensures bound { IfOk result (λ n. n ≤ length room.new) }
        ensures bytes { Reads (told self.old) (told self.new) result room.new }
        ensures aside { aside self.new ≡ aside self.old }
        ensures cause { HasCause (told self.old).faults (told self.new).faults result };

    /// What has ended has nothing left.
    ghost end_is_empty: { (source : Self) → (told source).ended ≡ true → IsAtEnd (told source).left };
}

/// Where bytes go.
pub trait Sink {
    /// What it holds, where it tells it, and its count of faults.
    ghost told: { Self → SinkTold };

    /// What no write changes: at a link, what its source tells; and the references that the sink holds, which stay the same ones.
    ghost aside: { Self → KeptByWrites };

    /// The pieces that its writes were given, in their order, where the sink tells them.
    ghost offered: { Self → Option (List (List ℕ)) } = { λ _. None };

    /// Whether it tells what it holds.
    fn tells(&self) -> bool
        ensures { result ≡ is_some (told self.now).held };

    /// Counts a fault: what was to be written could not be read.
    fn unread(&mut self, unread: Unread) -> Failed
        ensures held { (told self.new).held ≡ (told self.old).held }
        ensures rose { Rose (told self.old).faults (told self.new).faults }
        ensures later { (told self.old).faults ≤ (told self.new).faults }
        ensures offered { offered self.new ≡ offered self.old }
        ensures aside { aside self.new ≡ aside self.old };

    /// Writes the front of the piece, and answers how many bytes of it were taken: at least one. A write that fails takes nothing.
    fn write(&mut self, piece: &[u8]) -> Result<usize, Failed>
        requires { 0 < length piece.now }
        ensures bytes { Writes (told self.old) (told self.new) result piece.now }
        ensures offered { offered self.new ≡ with_pieces (offered self.old) (piece.now ∷ []) }
        ensures aside { aside self.new ≡ aside self.old }
        ensures cause { HasCause (told self.old).faults (told self.new).faults result };
}

/// Both in one: neither side changes what the other tells, nor what the link stands for.
pub trait Link: Source + Sink {
    /// The references that it holds, by their ghost names. While they stay the same ones, what is read and written here
    /// is read and written behind them.
    ghost stands_for: { Self → List ℕ };

    /// Closes it, and changes nothing that is told.
    fn finish(&mut self)
        ensures source { Self.Source.told self.new ≡ Self.Source.told self.old }
        ensures sink { Self.Sink.told self.new ≡ Self.Sink.told self.old }
        ensures stands_for { stands_for self.new ≡ stands_for self.old };

    /// A read changes neither what the sink tells nor the references.
    ghost reads_keep: { (link : Self) → Self.Source.aside link
        ≡ record { sink = Self.Sink.told link; stands_for = stands_for link } };

    /// A write changes neither what the source tells nor the references.
    ghost writes_keep: { (link : Self) → Self.Sink.aside link
        ≡ record { source = Self.Source.told link; stands_for = stands_for link } };
}

impl<S: Source> Source for &mut S {
    ghost told = { λ s. S.told s.now };

    ghost aside = { λ s. record {
      sink = (S.aside s.now).sink;
      stands_for = s.ghost_name
          ∷ (S.aside s.now).stands_for;
    } };

    ghost end_is_empty = { λ s. S.end_is_empty s.now };

    fn read(&mut self, room: &mut [u8]) -> Result<usize, Failed> {
        Source::read(&mut **self, room)
    }
}

impl<K: Sink> Sink for &mut K {
    ghost told = { λ s. K.told s.now };

    ghost aside = { λ s. record {
      source = (K.aside s.now).source;
      stands_for = s.ghost_name
          ∷ (K.aside s.now).stands_for;
    } };

    ghost offered = { λ s. K.offered s.now };

    fn tells(&self) -> bool {
        Sink::tells(&**self)
    }

    fn unread(&mut self, unread: Unread) -> Failed {
        Sink::unread(&mut **self, unread)
    }

    fn write(&mut self, piece: &[u8]) -> Result<usize, Failed> {
        Sink::write(&mut **self, piece)
    }
}
