//! Which requests a session has.
ghost use Rattle.std.specs.Prelude.{◌≡◌, ◌≤◌, ◌<◌, ◌+◌, ◌^◌, IfOk};
ghost use Rattle.std.specs.List.{range_with_len};
ghost use Rattle.load_sessions.specs.Sessions.{numbers_in, sessions_of};

use std::alloc::{AllocError, Global};

/// The most requests of a session.
const IN_A_SESSION: u64 = 1000;

/// How many sessions so many requests make.
pub fn sessions_of(n: u64) -> u64
    ensures { result ≡ sessions_of n }
{
    n.div_ceil(IN_A_SESSION)
}

// So many numbers, from the first on.
#[tactic(auto, using(crate::proofs::Longer::one_more))]
fn numbers(alloc: Global, first: u64, count: u64) -> Result<Vec<u64>, AllocError>
    requires { first + count < 2 ^ 64 }
    ensures { IfOk result (λ all. all.items ≡ range_with_len first count) }
{
    let mut all = Vec::new(alloc);
    for i in 0..count {
        all.push(first + i)?;
    }
    Ok(all)
}

/// The numbers of the requests of session k, counted from 0, of n requests in all.
pub fn numbers_in(alloc: Global, n: u64, k: u64) -> Result<Vec<u64>, AllocError>
    ensures { IfOk result (λ all. all.items ≡ numbers_in n k) }
{
    let first = k.saturating_mul(IN_A_SESSION);
    let count = n.saturating_sub(first).min(IN_A_SESSION);
    numbers(alloc, first, count)
}
