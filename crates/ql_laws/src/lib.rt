//! Laws of queries: a text says one thing, and the printed form of a query spells it. Definitions stand in `ql_tree`, `ql_grammar` and `ql_parse`; here are proofs, and laws with no code.
//!
//! `proofs/Tellings` says of each rule of the grammar that a text has one tree. `Reprints` has a law for each word of a grammar: what a rule spells is spelled again by
//! the tokens of its printed form; `Parts`, `Rules`, `TestRules`, `Conditions` and `Queries` state it of each rule, `Written` and `Sources` that each token is read as it is written.
#![tactic(auto)]

ghost use Rattle.std.specs.Prelude.{◌≡◌, ℕ, List};
ghost use Rattle.cm_base.specs.Judged.{Judged};
ghost use Rattle.ql_tree.specs.Printed.{printed};
ghost use Rattle.ql_tree.specs.Stripped.{stripped};
ghost use Rattle.ql_tree.specs.declared.tree.Query.{Query};
ghost use Rattle.ql_parse.specs.Texts.{Spells, Says};

/// A text says one thing: one query, one place of a fault, or one word that is left out.
pub fn says_one_thing()
    ensures { (text : List ℕ) (a b : Judged Query) → Says text a → Says text b → a ≡ b }
{}

/// The printed form of a query that some text spells is a text that spells this query, and no other, but for the offsets of its timestamps.
pub fn printed_again()
    ensures again { (text : List ℕ) (q : Query) → Spells text q → (r : Query) × Spells (printed q) r
        × (stripped r ≡ stripped q) }
    ensures alone { (text : List ℕ) (q r : Query) → Spells text q → Spells (printed q) r → stripped r ≡ stripped q }
{}
