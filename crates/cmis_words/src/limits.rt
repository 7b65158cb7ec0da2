//! The limits of what a repository takes, by the options `steps=N` and `bytes=N`.
ghost use Rattle.std.specs.Prelude.{◌≡◌, ◌≤◌, map, string_bytes, IfSome};
ghost use Rattle.cm_base.specs.Limits.{greatest_limit, AreLimits};
ghost use Rattle.cmis_words.specs.Options.{option_of};
ghost use Rattle.cmis_words.specs.Limiting.{limit_by, limits_of};

use crate::options::option;
use crate::words::within;
use cm_base::decimal::read_u64;
use cm_base::limits::{GREATEST_LIMIT, Limits};

// The limit that the option of this name gives, or the usual one.
#[tactic(auto, unfolding(cm_base::specs::Limits::greatest_limit))]
fn limit(options: &[String], named: &str, usual: u64) -> Option<u64>
    requires usual { usual ≤ greatest_limit }
    ensures value { result ≡ limit_by usual (option_of named.now (map string_bytes options.now)) }
    ensures bound { IfSome result (λ n. n ≤ greatest_limit) }
{
    match option(options, named) {
        None => Some(usual),
        Some(digits) => within(1, GREATEST_LIMIT, read_u64(digits.as_bytes())),
    }
}

/// The limits that the options `steps=N` and `bytes=N` give, N from 1 to 9,007,199,254,740,991, decimal without sign or leading zeros; the
/// usual ones where they are absent.
pub(crate) fn limits(options: &[String]) -> Option<Limits>
    ensures value { result ≡ limits_of (map string_bytes options.now) }
    ensures within { IfSome result AreLimits }
{
    let usual = Limits::usual();
    let Some(most_steps) = limit(options, "steps", usual.most_steps) else {
        return None;
    };
    let Some(most_bytes) = limit(options, "bytes", usual.most_bytes) else {
        return None;
    };
    Some(Limits {
        most_steps,
        most_bytes,
    })
}
