//! Change tokens (CMIS 1.1, section 2.2.1.3).
ghost use Rattle.std.specs.Prelude.{◌≡◌};
ghost use Rattle.cm_base.specs.Judged.{Meets};
ghost use Rattle.wr_rules.specs.Rules.{is_token, judge_token};

use cm_base::cause::Cause;
use cm_base::copies::Copies;
use cm_base::decimal::read_u64;
use cm_base::fail::Fail;
use cm_base::object::Object;
use cm_base::text::Text;
use std::alloc::Global;

fn is_token(x: &Object, text: &Text) -> bool
    ensures { result ≡ is_token x.now text.now }
{
    match read_u64(text.bytes()) {
        Some(number) => number == x.token,
        None => false,
    }
}

/// Whether the token that a call gives, if any, is the one that the object keeps.
pub fn judge_token(alloc: Global, x: &Object, token: &Option<Text>) -> Result<(), Fail>
    ensures { Meets (λ u. u) result (judge_token x.now token.now) }
{
    match token {
        None => Ok(()),
        Some(text) => {
            if is_token(x, text) {
                Ok(())
            } else {
                Err(Fail::Refused(Cause::Token(text.copied(alloc)?, x.token)))
            }
        }
    }
}
