//! The answer follows from what the caller sees: a law, as a function that does nothing.
ghost use Rattle.std.specs.Prelude.{ℕ, List};
ghost use Rattle.log_parts.specs.declared.readings.ReadChanges.{ReadChanges};
ghost use Rattle.cmis_spec.specs.Repository.{Repository};
ghost use Rattle.cmis_spec.specs.Seen.{OfSeen};
ghost use Rattle.cmis_spec.specs.Well.{IsWellFormed};
ghost use Rattle.rd_log.specs.ReadChanges.{answer_changes};

/// In two repositories in which the caller sees the same, he is answered the same about the change log.
pub fn changes_of_seen()
    ensures { (r : Repository) (u : List ℕ) (q : ReadChanges) → IsWellFormed r
        → OfSeen (λ s. answer_changes s u q) r u (answer_changes r u q) }
{}
