//! Objects by their types.
ghost use Rattle.std.specs.Prelude.{◌≡◌, bytes_eq};
ghost use Rattle.std.specs.List.{list_any};
ghost use Rattle.row_store.specs.Rows.{is_of_types};

use cm_base::object::Object;
use cm_base::text::{Text, Texts};

fn is_among(texts: &Texts, text: &Text) -> bool
    ensures { result ≡ list_any (bytes_eq text.now) texts.now }
{
    texts.as_slice().iter().any(|other| text.is(other))
}

fn is_any_among(texts: &Texts, others: &[Text]) -> bool
    ensures { result ≡ list_any (λ s. list_any (bytes_eq s) texts.now) others.now }
{
    others.iter().any(|text| is_among(texts, text))
}

/// Whether the object is of one of the types, or has one of them as a secondary type. Takes no memory.
pub(crate) fn is_of_types(kinds: &Texts, x: &Object) -> bool
    ensures { result ≡ is_of_types kinds.now x.now }
{
    is_among(kinds, &x.kind) || is_any_among(kinds, x.secondary.as_slice())
}
