//! What the readings of types have in common.
ghost use Rattle.std.specs.Prelude.{◌≡◌};
ghost use Rattle.bind_readings.specs.Types.{levels, depth_of_word, depth_of, options_of};

use crate::words::{DEPTH, MAX_ITEMS, SKIP_COUNT};
use cm_base::argument::Argument;
use cm_base::cause::Cause;
use cm_base::decimal::read_u64;
use form_args::choice::flag;
use form_args::number::number;
use form_args::pairs::Pairs;
use type_parts::readings::Depth;

const INCLUDE_PROPERTY_DEFINITIONS: &str = "includePropertyDefinitions";

/// What is given beside the type's id.
#[derive(Clone, Copy, Debug, PartialEq, Eq)]
pub struct TypeOptions {
    pub property_definitions: bool,
    pub max_items: u64,
    pub skip_count: u64,
    pub depth: Depth,
}

fn levels(number: u64) -> Option<Depth>
    ensures { result ≡ levels number }
{
    if number == 0 {
        None
    } else {
        Some(Depth::Levels(number))
    }
}

/// The depth that a word names: -1, or a number of levels that is at least 1.
pub fn depth_of_word(word: &str) -> Option<Depth>
    ensures { result ≡ depth_of_word word.now }
{
    if word == "-1" {
        return Some(Depth::All);
    }
    match read_u64(word.as_bytes()) {
        None => None,
        Some(number) => levels(number),
    }
}

fn depth_of(pairs: &Pairs) -> Result<Depth, Cause>
    ensures { result ≡ depth_of pairs.now }
{
    match pairs.first(DEPTH) {
        None => Ok(Depth::All),
        Some(word) => match depth_of_word(word.as_str()) {
            Some(depth) => Ok(depth),
            None => Err(Cause::BadArgument(Argument::named(DEPTH))),
        },
    }
}

/// What is given beside the type's id, or the first cause of these arguments.
#[tactic(auto, using(cm_types::proofs::Exits::fails_bind))]
pub fn options_of(pairs: &Pairs) -> Result<TypeOptions, Cause>
    ensures { result ≡ options_of pairs.now }
{
    let property_definitions = flag(pairs, INCLUDE_PROPERTY_DEFINITIONS, false)?;
    let max_items = number(pairs, MAX_ITEMS, 100)?;
    let skip_count = number(pairs, SKIP_COUNT, 0)?;
    let depth = depth_of(pairs)?;
    Ok(TypeOptions {
        property_definitions,
        max_items,
        skip_count,
        depth,
    })
}
