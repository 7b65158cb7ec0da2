//! The names of arguments (CMIS 1.1, section 5.4).
ghost use Rattle.std.specs.Prelude.{◌≡◌};

use std::marker::Model;

/// The word by which a cause names an argument of a call, a field of the request's head, or a part of its target. Which words
/// there are is said where they are read.
#[derive(Drop)]
pub struct Argument {
    word: &'static str,
}

impl Model for Argument {
    ghost use Rattle.std.specs.Prelude.{ℕ, List};

    ghost Value = { List ℕ };

    ghost view = { λ a. a.word.now };
}

impl Argument {
    /// The argument of this word.
    pub fn named(word: &'static str) -> Argument
        ensures { result ≡ word.now }
    {
        Argument { word }
    }

    /// The word that a request has for it.
    pub fn word(&self) -> &'static str
        ensures { result.now ≡ self.now }
    {
        self.word
    }
}
