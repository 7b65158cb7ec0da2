//! A machine that adds numbers, and makes replies of the sums.
ghost use Rattle.std.specs.Prelude.{◌≡◌, ◌+◌, ◌&&◌, nat_lt, [], ◌∷◌, Some, Ok, Err, if◌then◌else◌, false};
ghost use Rattle.std.proofs.Common.{rules};
ghost use Rattle.cm_base.specs.declared.cause.Cause.TheVariants as causes;
ghost use Rattle.cm_base.specs.declared.asked.Asked.TheVariants.{Write, Question};

use bytes::Bytes;
use cm_base::asked::Asked;
use cm_base::body::Body;
use cm_base::cause::Cause;
use cm_base::fail::Fail;
use cm_base::media::MediaType;
use cm_base::shown::Shown;
use cm_base::text::Text;
use cm_base::user::Users;
use desk_model::{Entry, Halt, Machine};
use http_wire::{Head, Request};
use std::alloc::Global;
use talk::Served;

/// A sum that stays below 100. A call adds to it; the question asks for it.
pub struct ShownSums;

// A reply without a body.
fn bare(alloc: Global, status: u16, number: u64) -> Shown
    ensures { result ≡ record { status = status; kind = []; body = []; number = Some number } }
{
    match MediaType::from_text(Text::empty(alloc)) {
        Some(kind) => Shown {
            status,
            kind,
            body: Body::of(Bytes::new()),
            number: Some(number),
        },
        None => unreachable!(),
    }
}

impl Machine for ShownSums {
    type State = u64;

    type Call = u64;

    type Question = ();

    type Shown = Shown;

    type Cause = Cause;

    ghost next = { λ s e. if nat_lt e.call 100
        && nat_lt (s + e.call) 100 then Ok (
          s + e.call,
          record {
            status = 201;
            kind = [];
            body = [];
            number = Some (s + e.call);
          },
        ) else Err causes.NotFound };

    ghost answer = { λ s u q. Ok (record { status = 200; kind = []; body = []; number = Some s }) };

    ghost number = { λ s. s };

    fn next(alloc: Global, state: &u64, entry: &Entry<u64>) -> Result<(u64, Shown), Halt<Cause>> {
        if entry.call < 100 && *state < 100 - entry.call {
            let sum = *state + entry.call;
            Ok((sum, bare(alloc, 201, sum)))
        } else {
            Err(Halt::Refused(Cause::NotFound))
        }
    }

    fn answer(
        alloc: Global,
        state: &u64,
        _user: &Text,
        _question: &(),
    ) -> Result<Shown, Halt<Cause>> {
        Ok(bare(alloc, 200, *state))
    }

    fn number(state: &u64) -> u64 {
        *state
    }
}

impl Served for ShownSums {
    ghost call = { λ r. elim r.body [ [] ↦ Ok (Question tt) | b ∷ bs ↦ Ok (Write b) ] };

    ghost user = { λ head users. Ok [] };

    ghost least = { λ head. 0 };

    ghost closes = { λ head. false };

    fn call_of(_alloc: Global, request: &Request) -> Result<Asked<u64, ()>, Fail> {
        match request.body().first() {
            Some(byte) => Ok(Asked::Write(*byte as u64)),
            None => Ok(Asked::Question(())),
        }
    }

    fn user_of(alloc: Global, _head: &Head, _users: &Users) -> Result<Text, Fail> {
        Ok(Text::empty(alloc))
    }

    fn least_of(_head: &Head) -> u64 {
        0
    }

    fn closes(_head: &Head) -> bool {
        false
    }

    ghost entry_has_number = { Prim.search rules };

    ghost answer_has_number = { Prim.search rules };
}
