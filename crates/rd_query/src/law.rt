//! The answer follows from what the caller sees: laws, as functions that do nothing.
ghost use Rattle.std.specs.Prelude.{ℕ, Bool, List};
ghost use Rattle.cmis_spec.specs.Repository.{Repository};
ghost use Rattle.cmis_spec.specs.Seen.{OfSeen};
ghost use Rattle.cmis_spec.specs.Well.{IsWellFormed};
ghost use Rattle.ql_bind.specs.declared.bound.Bound.{Bound};
ghost use Rattle.ql_parse.specs.Texts.{Says};
ghost use Rattle.ql_plan.specs.Found.{found};
ghost use Rattle.query_parts.specs.declared.readings.ReadQuery.{ReadQuery};
ghost use Rattle.rd_query.specs.Said.{said};
ghost use Rattle.rd_query.specs.ReadQuery.{answer_query};

/// In two repositories in which the caller sees the same, a query finds the same rows for him.
pub fn found_of_seen()
    ensures { (r : Repository) (u : List ℕ) (bound : Bound) (versions : Bool) → IsWellFormed r
        → OfSeen (λ s. found s u bound versions) r u (found r u bound versions) }
{}

/// In two repositories in which the caller sees the same, a query is answered the same.
pub fn query_of_seen()
    ensures { (r : Repository) (u : List ℕ) (q : ReadQuery) → IsWellFormed r
        → OfSeen (λ s. answer_query s u q) r u (answer_query r u q) }
{}

/// What a statement is taken to say is what it says by the grammar.
pub fn says_what_is_said()
    ensures { (text : List ℕ) → Says text (said text) }
{}
