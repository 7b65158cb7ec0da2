//! A machine that adds numbers.
use cm_base::text::Text;
use desk_model::{Entry, Halt, Machine};
use std::alloc::Global;

/// A sum that stays below 100. A call adds to it; a question asks whether it is a number.
pub struct Sums;

impl Machine for Sums {
    type State = u64;

    type Call = u64;

    type Question = u64;

    type Shown = u64;

    type Cause = u64;

    ghost use Rattle.std.specs.Prelude.{Ok, Err, ◌+◌, ◌==◌, nat_lt, if◌then◌else◌};

    ghost next = { λ s e. if nat_lt e.call 100
        then (if nat_lt (s + e.call) 100 then Ok (s + e.call, s + e.call) else Err s)
        else Err 100 };

    ghost answer = { λ s u q. if s == q then Ok s else Err q };

    ghost number = { λ s. s };

    fn next(_alloc: Global, state: &u64, entry: &Entry<u64>) -> Result<(u64, u64), Halt<u64>> {
        if entry.call >= 100 {
            return Err(Halt::Refused(100));
        }
        match state.checked_add(entry.call) {
            Some(sum) if sum < 100 => Ok((sum, sum)),
            _ => Err(Halt::Refused(*state)),
        }
    }

    fn answer(_alloc: Global, state: &u64, _user: &Text, question: &u64) -> Result<u64, Halt<u64>> {
        if *state == *question {
            Ok(*state)
        } else {
            Err(Halt::Refused(*question))
        }
    }

    fn number(state: &u64) -> u64 {
        *state
    }
}
