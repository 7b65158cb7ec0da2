//! The arguments of contentChanges.
ghost use Rattle.std.specs.Prelude.{◌≡◌};
ghost use Rattle.bind_readings.specs.Log.{changes_of};

use crate::words::MAX_ITEMS;
use bind_parts::asking::Asking;
use cm_base::cause::Cause;
use form_args::choice::flag;
use form_args::number::number;
use form_args::words::SUCCINCT;
use log_parts::readings::ReadChanges;

const CHANGE_LOG_TOKEN: &str = "changeLogToken";

/// The question of the selector contentChanges, or the first cause of its arguments (CMIS 1.1, section 5.4.3.2). It takes no memory.
#[tactic(auto, using(cm_types::proofs::Exits::fails_bind))]
pub fn changes_of(asking: &Asking) -> Result<ReadChanges, Cause>
    ensures { result ≡ changes_of asking.now }
{
    let pairs = &asking.form.pairs;
    let succinct = flag(pairs, SUCCINCT, false)?;
    let token = number(pairs, CHANGE_LOG_TOKEN, 0)?;
    let max_items = number(pairs, MAX_ITEMS, 100)?;
    Ok(ReadChanges {
        token,
        max_items,
        succinct,
    })
}
