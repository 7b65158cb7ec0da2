//! A source and a sink that are lent, as the two sides of one link.
ghost use Rattle.std.specs.Prelude.{◌≡◌, [], ◌∷◌, refl};

use archive::Unread;
use outside::{Failed, Link, Sink, Source};

/// What is read from the one, and written to the other. It stands for these two for as long as it holds the same references.
#[derive(Drop)]
pub struct Lent<'a, I, O> {
    pub input: &'a mut I,
    pub output: &'a mut O,
}

impl<'a, I: Source, O: Sink> Source for Lent<'a, I, O> {
    ghost told = { λ l. I.told l.input.now };

    ghost aside = { λ l. record {
      sink = O.told l.output.now;
      stands_for = l.input.ghost_name ∷ l.output.ghost_name ∷ [];
    } };

    ghost end_is_empty = { λ l. I.end_is_empty l.input.now };

    fn read(&mut self, room: &mut [u8]) -> Result<usize, Failed> {
        self.input.read(room)
    }
}

impl<'a, I: Source, O: Sink> Sink for Lent<'a, I, O> {
    ghost told = { λ l. O.told l.output.now };

    ghost aside = { λ l. record {
      source = I.told l.input.now;
      stands_for = l.input.ghost_name ∷ l.output.ghost_name ∷ [];
    } };

    fn tells(&self) -> bool {
        self.output.tells()
    }

    fn unread(&mut self, unread: Unread) -> Failed {
        self.output.unread(unread)
    }

    fn write(&mut self, piece: &[u8]) -> Result<usize, Failed> {
        self.output.write(piece)
    }
}

impl<'a, I: Source, O: Sink> Link for Lent<'a, I, O> {
    ghost stands_for = { λ l. l.input.ghost_name ∷ l.output.ghost_name ∷ [] };

    ghost reads_keep = { λ _. refl };

    ghost writes_keep = { λ _. refl };

    fn finish(&mut self) {}
}
