//! Each text says something: a query, the place of a fault, or a word that is left out. With the law that it says one thing, what a
//! text says is a function of the text.
//!
//! `proofs/Totals` has a law for each word of a grammar, `Outcomes` states it of each rule of the grammar of queries, `Lexed` says that
//! each text has tokens.
#![tactic(auto)]

ghost use Rattle.std.specs.Prelude.{ℕ, List};
ghost use Rattle.cm_base.specs.Judged.{Judged};
ghost use Rattle.ql_parse.specs.Texts.{Says};
ghost use Rattle.ql_tree.specs.declared.tree.Query.{Query};

/// Each text says something (CMIS 1.1, section 2.1.14.2.1).
pub fn says_something()
    ensures { (text : List ℕ) → (judged : Judged Query) × Says text judged }
{}
