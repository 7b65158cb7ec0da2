//! The moments of a clock's words.
ghost use Rattle.std.specs.Prelude.{◌≡◌};
ghost use Rattle.desk_model.specs.Clocks.{moment_of, IsOfWord};

use cm_base::number::{LAST_MOMENT_MS, Moment};

// The moment of a word.
#[tactic(auto, unfolding(cm_base::specs::Moments::last_moment))]
fn capped(word: u64) -> Moment
    ensures { result ≡ moment_of word }
{
    Moment(word.min(LAST_MOMENT_MS) as i64)
}

/// The moment of a clock's word, which is in milliseconds since 1970; a later one counts as the last moment.
pub fn moment_of_word(word: u64) -> Moment
    ensures value { result ≡ moment_of word }
    ensures of_word { IsOfWord result }
{
    capped(word)
}
