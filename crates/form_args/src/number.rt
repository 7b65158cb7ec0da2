//! Arguments that are numbers.
ghost use Rattle.std.specs.Prelude.{◌≡◌};
ghost use Rattle.form_args.specs.Single.{number_of};

use crate::pairs::Pairs;
use cm_base::argument::Argument;
use cm_base::cause::Cause;
use cm_base::decimal::read_u64;

/// The number that is given, or the default. Anything but decimal digits without a sign or a leading zero, below 2^64, is BadArgument.
pub fn number(pairs: &Pairs, name: &'static str, default: u64) -> Result<u64, Cause>
    ensures { result ≡ number_of pairs.now name.now default }
{
    match pairs.first(name) {
        None => Ok(default),
        Some(word) => match read_u64(word.bytes()) {
            Some(number) => Ok(number),
            None => Err(Cause::BadArgument(Argument::named(name))),
        },
    }
}
