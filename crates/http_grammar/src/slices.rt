//! Fronts of texts, and words in any case.
ghost use Rattle.std.specs.Prelude.{◌≡◌, take, drop};
ghost use Rattle.http_grammar.specs.Fields.{same_word};

/// The first bytes, so many at most.
pub fn front(bytes: &[u8], count: usize) -> &[u8]
    ensures { result.now ≡ take count bytes.now }
{
    if bytes.len() > count {
        &bytes[..count]
    } else {
        bytes
    }
}

/// The bytes behind so many.
pub fn behind(bytes: &[u8], count: usize) -> &[u8]
    ensures { result.now ≡ drop count bytes.now }
{
    if bytes.len() > count {
        &bytes[count..]
    } else {
        &[]
    }
}

/// Whether two texts are one in any case.
pub fn same_word(a: &[u8], b: &[u8]) -> bool
    ensures { result ≡ same_word a.now b.now }
{
    a.eq_ignore_ascii_case(b)
}
