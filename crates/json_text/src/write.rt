//! JSON that is written from front to back, with no tree in memory.
ghost use Rattle.std.specs.Prelude.{◌≡◌, ℕ, List, [], ◌∷◌, ◌++◌, decimal, IfOk, OnOk};
ghost use Rattle.json.specs.Token.{Token};
ghost use Rattle.serde_json.specs.Data.{Data, unsigned, null, boolean, number, string};
ghost use Rattle.serde_json.specs.Find.{of_integer};
ghost use Rattle.serde_json.specs.Written.{compact_text};
ghost use Rattle.json_text.specs.Tokens.{tokens_of};

use std::alloc::{AllocError, Global};
use std::marker::Model;

/// What is written so far, seen as tokens. Contracts say `tokens_of` for those of a value. A call that fails has written nothing.
#[derive(Drop)]
pub struct Writer {
    out: json::Writer,
}

impl Model for Writer {
    ghost use Rattle.std.specs.Prelude.{◌≡◌, List, []};
    ghost use Rattle.json.specs.Token.{Token, tokens_code};

    ghost Value = { List Token };

    ghost coded = { tokens_code };

    ghost view = { λ w. w.out.tokens };

    ghost invariant = { λ w. w.out.before ≡ [] };
}

impl Writer {
    /// Nothing is written.
    pub fn new(alloc: Global) -> Writer
        ensures { result ≡ [] }
    {
        Writer {
            out: json::Writer::new(Vec::new(alloc)),
        }
    }

    /// Nothing is written, and there is room for so many bytes before more memory is asked for.
    pub fn with_room(alloc: Global, bytes: usize) -> Result<Writer, AllocError>
        ensures { IfOk result (λ w. w ≡ []) }
    {
        let room = Vec::with_capacity(alloc, bytes)?;
        Ok(Writer {
            out: json::Writer::new(room),
        })
    }

    /// `{`
    pub fn begin_object(&mut self) -> Result<(), AllocError>
        ensures { OnOk result (self.new ≡ self.old ++ Token.begin_object ∷ []) }
    {
        self.out.begin_object()
    }

    /// `}`
    pub fn end_object(&mut self) -> Result<(), AllocError>
        ensures { OnOk result (self.new ≡ self.old ++ Token.end_object ∷ []) }
    {
        self.out.end_object()
    }

    /// `[`
    pub fn begin_array(&mut self) -> Result<(), AllocError>
        ensures { OnOk result (self.new ≡ self.old ++ Token.begin_array ∷ []) }
    {
        self.out.begin_array()
    }

    /// `]`
    pub fn end_array(&mut self) -> Result<(), AllocError>
        ensures { OnOk result (self.new ≡ self.old ++ Token.end_array ∷ []) }
    {
        self.out.end_array()
    }

    /// The name of a member.
    pub fn key(&mut self, name: &str) -> Result<(), AllocError>
        ensures { OnOk result (self.new ≡ self.old ++ Token.key name.now ∷ []) }
    {
        self.out.key(name)
    }

    /// null
    pub fn null(&mut self) -> Result<(), AllocError>
        ensures { OnOk result (self.new ≡ self.old ++ tokens_of null) }
    {
        self.out.null()
    }

    /// true or false
    pub fn flag(&mut self, b: bool) -> Result<(), AllocError>
        ensures { OnOk result (self.new ≡ self.old ++ tokens_of (boolean b)) }
    {
        self.out.boolean(b)
    }

    /// An integer.
    pub fn whole(&mut self, n: i64) -> Result<(), AllocError>
        ensures { OnOk result (self.new ≡ self.old ++ tokens_of (number (of_integer n))) }
    {
        self.out.i64(n)
    }

    /// A number that is not below zero.
    pub fn count(&mut self, n: u64) -> Result<(), AllocError>
        ensures { OnOk result (self.new ≡ self.old ++ tokens_of (number (unsigned n))) }
    {
        self.out.u64(n)
    }

    /// A string.
    pub fn text(&mut self, text: &str) -> Result<(), AllocError>
        ensures { OnOk result (self.new ≡ self.old ++ tokens_of (string text.now)) }
    {
        self.out.string(text)
    }

    /// A number's digits as a string.
    pub fn digits(&mut self, n: u64) -> Result<(), AllocError>
        ensures { OnOk result (self.new ≡ self.old ++ tokens_of (string (decimal n))) }
    {
        self.out.quoted_u64(n)
    }

    /// The text: of the tokens of one value, its compact text. Takes no memory.
    pub fn into_vec(self) -> Vec<u8>
        ensures { (d : Data) → self ≡ tokens_of d → result.items ≡ compact_text d }
    {
        self.out.into_inner()
    }
}
