//! The words of the program for a script: `schedule`.
ghost use Rattle.std.specs.Prelude.{◌≡◌, codes, bytes_eq, map, string_bytes};
ghost use Rattle.cmis_words.specs.Scheduling.{are_schedule};

fn is_schedule(word: &String) -> bool
    ensures { result ≡ bytes_eq (string_bytes word.now) (codes "schedule") }
{
    word.as_bytes() == "schedule".as_bytes()
}

/// Whether the words are `schedule` alone. It takes no memory.
pub fn are_schedule(words: &[String]) -> bool
    ensures { result ≡ are_schedule (map string_bytes words.now) }
{
    match words {
        [] => false,
        [word] => is_schedule(word),
        [_, _, ..] => false,
    }
}
