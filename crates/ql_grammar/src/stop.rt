//! Why reading stops.
use ql_lex::token::Token;
use std::alloc::AllocError;

/// The token with which reading can't go on. A reader that takes no memory stops for nothing else.
#[derive(Drop)]
pub enum Halt<'a> {
    /// With the first of these tokens, or at the end where there is none, nothing can go on.
    Here(&'a [Token<'a>]),
    /// The first of these tokens stands where a test, an item, a table or a literal could begin, and is one that the language leaves out.
    LeftOut(&'a [Token<'a>]),
}

/// Why reading stopped.
#[derive(Drop)]
pub enum Stop<'a> {
    Memory,
    At(Halt<'a>),
}

impl From<AllocError> for Stop<'_> {
    ghost use Rattle.std.specs.Prelude.{◌≡◌};
    ghost use Rattle.ql_grammar.specs.declared.stop.Stop.TheVariants.{Memory};

    ghost from_gives = { λ _ e. e ≡ Memory };

    fn from(_: AllocError) -> Self {
        Stop::Memory
    }
}

impl<'a> From<Halt<'a>> for Stop<'a> {
    ghost use Rattle.std.specs.Prelude.{◌≡◌};
    ghost use Rattle.ql_grammar.specs.declared.stop.Stop.TheVariants.{At};

    ghost from_gives = { λ halt e. e ≡ At halt };

    fn from(halt: Halt<'a>) -> Self {
        Stop::At(halt)
    }
}
