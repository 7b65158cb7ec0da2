//! The answer follows from what the caller sees: a law, as a function that does nothing.
ghost use Rattle.std.specs.Prelude.{ℕ, List};
ghost use Rattle.call_parts.specs.declared.readings.ReadParent.{ReadParent};
ghost use Rattle.cmis_spec.specs.Repository.{Repository};
ghost use Rattle.cmis_spec.specs.Seen.{OfSeen};
ghost use Rattle.cmis_spec.specs.Well.{IsWellFormed};
ghost use Rattle.rd_lists.specs.ReadParent.{answer_parent};

/// In two repositories in which the caller sees the same, he is answered the same about the parent of a folder.
pub fn parent_of_seen()
    ensures { (r : Repository) (u : List ℕ) (q : ReadParent) → IsWellFormed r
        → OfSeen (λ s. answer_parent s u q) r u (answer_parent r u q) }
{}
