//! How many steps a repository takes, and what they may cost.
ghost use Rattle.std.specs.Prelude.{◌≡◌, ◌+◌, nat_lt};
ghost use Rattle.wr_rules.specs.Rules.{judge_storage};

use cm_base::cause::Cause;
use cm_state::state::State;

// So much more than was used is above the most.
fn is_above(used: u64, more: u64, most: u64) -> bool
    ensures { result ≡ nat_lt most (used + more) }
{
    match used.checked_add(more) {
        Some(all) => all > most,
        None => true,
    }
}

/// Whether one more step, at this cost, stays within what the repository takes. Takes no memory.
pub fn judge_storage(state: &State, cost: u64) -> Result<(), Cause>
    ensures { result ≡ judge_storage state.now cost }
{
    let limits = state.limits();
    if is_above(state.step(), 1, limits.most_steps) {
        return Err(Cause::Storage(state.step(), 1, limits.most_steps));
    }
    if is_above(state.cost(), cost, limits.most_bytes) {
        return Err(Cause::Storage(state.cost(), cost, limits.most_bytes));
    }
    Ok(())
}
