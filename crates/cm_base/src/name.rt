//! Names of objects; a request with another name is refused with nameConstraintViolation (CMIS 1.1, section 2.2.1.4.2).
ghost use Rattle.std.specs.Prelude.{◌≡◌};
ghost use Rattle.std.specs.List.{list_any};
ghost use Rattle.cm_base.specs.Names.{has_name_length, is_barred, is_name};

/// The most bytes of a name.
pub const LONGEST_NAME: usize = 255;

fn has_name_length(bytes: &[u8]) -> bool
    ensures { result ≡ has_name_length bytes.now }
{
    0 < bytes.len() && bytes.len() <= LONGEST_NAME
}

fn has_barred(bytes: &[u8]) -> bool
    ensures { result ≡ list_any is_barred bytes.now }
{
    bytes.iter().any(|b| *b == b'/' || *b == 0)
}

/// Whether the bytes of a text are a name: 1 to 255 of them, and neither a slash nor NUL.
pub fn name_ok(bytes: &[u8]) -> bool
    ensures { result ≡ is_name bytes.now }
{
    has_name_length(bytes) && !has_barred(bytes)
}
