//! Arguments that are words of a few choices.
ghost use Rattle.std.specs.Prelude.{◌≡◌};
ghost use Rattle.form_args.specs.Single.{chosen, flag_of};

use crate::pairs::Pairs;
use cm_base::argument::Argument;
use cm_base::cause::Cause;

/// A value that a word may mean.
pub trait Choice: Copy {
    ghost use Rattle.std.specs.Prelude.{ℕ, List, Option};

    ghost meaning: { List ℕ → Option Self };

    /// What a word means, if anything.
    fn read(word: &str) -> Option<Self>
        ensures { result ≡ meaning word.now };
}

impl Choice for bool {
    ghost use Rattle.cm_types.specs.Properties.{flag_of_text};

    ghost meaning = { flag_of_text };

    fn read(word: &str) -> Option<bool> {
        if word == "true" {
            Some(true)
        } else if word == "false" {
            Some(false)
        } else {
            None
        }
    }
}

/// The choice that is given, or the default. A word that means none is BadArgument.
pub fn chosen<C: Choice>(pairs: &Pairs, name: &'static str, default: C) -> Result<C, Cause>
    ensures { result ≡ chosen C.meaning pairs.now name.now default }
{
    match pairs.first(name) {
        None => Ok(default),
        Some(word) => match C::read(word.as_str()) {
            Some(choice) => Ok(choice),
            None => Err(Cause::BadArgument(Argument::named(name))),
        },
    }
}

/// `true` or `false`, or the default. Another word is BadArgument.
pub fn flag(pairs: &Pairs, name: &'static str, default: bool) -> Result<bool, Cause>
    ensures { result ≡ flag_of pairs.now name.now default }
{
    chosen(pairs, name, default)
}
