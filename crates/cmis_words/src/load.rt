//! The words of the program for a load: `load N`.
ghost use Rattle.std.specs.Prelude.{◌≡◌, codes, bytes_eq, map, string_bytes};
ghost use Rattle.cmis_words.specs.Loading.{requests_of, load_of};

use crate::words::within;
use cm_base::decimal::read_u64;

/// The most requests of a load.
pub const MOST_REQUESTS: u64 = 10_000;

fn requests(word: &[u8]) -> Option<u64>
    ensures { result ≡ requests_of word.now }
{
    within(1, MOST_REQUESTS, read_u64(word))
}

fn is_load(word: &String) -> bool
    ensures { result ≡ bytes_eq (string_bytes word.now) (codes "load") }
{
    word.as_bytes() == "load".as_bytes()
}

/// How many requests the words ask for, if they are `load N`. N is 1 to 10000, decimal without sign or leading zeros. It takes no memory.
pub fn read_load(words: &[String]) -> Option<u64>
    ensures { result ≡ load_of (map string_bytes words.now) }
{
    match words {
        [] => None,
        [_] => None,
        [word, number] => {
            if is_load(word) {
                requests(number.as_bytes())
            } else {
                None
            }
        }
        _ => None,
    }
}
