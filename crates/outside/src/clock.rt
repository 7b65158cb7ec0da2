//! Clocks, and the two that tell their words.
ghost use Rattle.std.specs.Prelude.{◌≡◌, [], ◌∷◌, ℕ, List, Some, IfSome, IfOk, drop};
ghost use Rattle.std.specs.declared.option.Option.{Option};
ghost use Rattle.outside.specs.Clocks.{Words, first_word, rest_words, words_of};

use std::alloc::{AllocError, Global};
use std::marker::Model;

/// A clock: milliseconds since the beginning of 1970. It can't fail.
pub trait Clock {
    /// The words that are still to come, where the clock tells them.
    ghost words: { Self → Option Words };

    /// The references that it holds, by their ghost names. They stay the same ones.
    ghost stands_for: { Self → List ℕ } = { λ _. [] };

    /// The moment now: the next word.
    fn now(&mut self) -> u64
        ensures word { IfSome (words self.old) (λ w. (result ≡ first_word w) × (words self.new ≡ Some (rest_words w))) }
        ensures stands_for { stands_for self.new ≡ stands_for self.old };
}

impl<C: Clock> Clock for &mut C {
    ghost words = { λ c. C.words c.now };

    ghost stands_for = { λ c. c.ghost_name ∷ C.stands_for c.now };

    fn now(&mut self) -> u64 {
        Clock::now(&mut **self)
    }
}

/// A clock whose every word is one number.
#[derive(Drop)]
pub struct FixedClock {
    word: u64,
}

impl Model for FixedClock {
    ghost use Rattle.std.specs.Prelude.{ℕ};

    ghost Value = { ℕ };

    ghost view = { λ c. c.word };
}

impl FixedClock {
    /// A clock that always gives this word.
    pub fn new(word: u64) -> FixedClock
        ensures { result ≡ word }
    {
        FixedClock { word }
    }
}

impl Clock for FixedClock {
    ghost words = { λ c. Some (record { coming = []; last = c }) };

    fn now(&mut self) -> u64 {
        self.word
    }
}

/// A clock that gives the words of a list, and then the last one again, or 0 if the list is empty.
#[derive(Drop)]
pub struct ListClock {
    words: Vec<u64>,
    at: usize,
    last: u64,
}

impl Model for ListClock {
    ghost use Rattle.std.specs.Prelude.{◌≤◌, length, drop};
    ghost use Rattle.outside.specs.Clocks.{Words};

    ghost Value = { Words };

    ghost view = { λ c. record { coming = drop c.at c.words.items; last = c.last } };

    ghost invariant = { λ c. c.at ≤ length c.words.items };
}

impl ListClock {
    /// A clock with these words.
    pub fn new(alloc: Global, words: &[u64]) -> Result<ListClock, AllocError>
        ensures { IfOk result (λ clock. clock ≡ words_of words.now) }
    {
        let copy = Vec::from_slice(alloc, words)?;
        Ok(ListClock {
            words: copy,
            at: 0,
            last: last_of(words),
        })
    }
}

// The last word, or 0.
fn last_of(words: &[u64]) -> u64
    ensures { result ≡ (words_of words.now).last }
{
    words.last().copied().unwrap_or(0)
}

impl Clock for ListClock {
    ghost words = { λ c. Some c };

    fn now(&mut self) -> u64 {
        match self.words.get(self.at) {
            Some(word) => {
                self.at += 1;
                *word
            }
            None => self.last,
        }
    }
}
