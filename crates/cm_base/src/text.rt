//! Texts: UTF-8, seen as a list of bytes and ordered by them.
ghost use Rattle.std.specs.Prelude.{◌≡◌, ℕ, List, [], IfOk, bytes_eq, string_bytes, length, refl};
ghost use Rattle.core.specs.Ordering.{nat_cmp, eq_by_cmp, as_partial_cmp};
ghost use Rattle.core.specs.Cmp.{partial_equiv_from_equiv, eq_by_cmp_equiv, partial_order_from_total};
ghost use Rattle.core.specs.Cmp.Lexicographic.{slice_cmp, nat_list_cmp_total};

use crate::copies::Copies;
use crate::items::Items;
use std::alloc::{AllocError, Global};
use std::cmp::Ordering;
use std::marker::Model;

/// UTF-8 text, seen as its bytes.
#[derive(Drop)]
pub struct Text {
    text: String,
}

impl Model for Text {
    ghost use Rattle.std.specs.Prelude.{ℕ, List, string_bytes};

    ghost Value = { List ℕ };

    ghost view = { λ t. string_bytes t.text };
}

/// A list of texts.
pub type Texts = Items<Text>;

impl Text {
    /// A text of its own with these characters.
    pub fn from_str(alloc: Global, text: &str) -> Result<Text, AllocError>
        ensures { IfOk result (λ t. t ≡ text.now) }
    {
        Ok(Text {
            text: String::from_str(alloc, text)?,
        })
    }

    /// The same characters, without taking memory.
    pub fn from_string(text: String) -> Text
        ensures { result ≡ string_bytes text }
    {
        Text { text }
    }

    /// The empty text, which takes no memory.
    pub fn empty(alloc: Global) -> Text
        ensures { result ≡ [] }
    {
        Text {
            text: String::new(alloc),
        }
    }

    /// The characters, given back without taking memory.
    pub fn into_string(self) -> String
        ensures { string_bytes result ≡ self }
    {
        self.text
    }

    /// The characters.
    pub fn as_str(&self) -> &str
        ensures { result.now ≡ self.now }
    {
        self.text.as_str()
    }

    /// The bytes.
    pub fn bytes(&self) -> &[u8]
        ensures { result.now ≡ self.now }
    {
        self.text.as_str().as_bytes()
    }

    /// The number of bytes.
    pub fn len(&self) -> usize
        ensures { result ≡ length self.now }
    {
        self.text.len()
    }

    /// Whether both have the same bytes.
    pub fn is(&self, other: &Text) -> bool
        ensures { result ≡ bytes_eq self.now other.now }
    {
        self.bytes() == other.bytes()
    }

    /// Whether its bytes are these characters.
    pub fn is_str(&self, other: &str) -> bool
        ensures { result ≡ bytes_eq self.now other.now }
    {
        self.bytes() == other.as_bytes()
    }
}

impl Copies for Text {
    fn copied(&self, alloc: Global) -> Result<Text, AllocError> {
        Text::from_str(alloc, self.as_str())
    }
}

impl PartialEq for Text {
    ghost eq = { eq_by_cmp (slice_cmp nat_cmp) };

    ghost laws = { partial_equiv_from_equiv (eq_by_cmp_equiv nat_list_cmp_total) };

    fn eq(&self, other: &Text) -> bool {
        self.bytes().cmp(&other.bytes()).is_eq()
    }
}

impl Eq for Text {
    ghost laws = { eq_by_cmp_equiv nat_list_cmp_total };
}

impl PartialOrd for Text {
    ghost partial_cmp = { as_partial_cmp (slice_cmp nat_cmp) };

    ghost laws = { partial_order_from_total nat_list_cmp_total };

    fn partial_cmp(&self, other: &Text) -> Option<Ordering> {
        Some(self.bytes().cmp(&other.bytes()))
    }
}

impl Ord for Text {
    ghost cmp = { slice_cmp nat_cmp };

    ghost total = { nat_list_cmp_total };

    ghost matches_partial_cmp = { λ x y. refl };

    ghost matches_eq = { λ x y. refl };

    fn cmp(&self, other: &Text) -> Ordering {
        self.bytes().cmp(&other.bytes())
    }
}
