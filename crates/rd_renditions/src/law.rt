//! The answer follows from what the caller sees: a law, as a function that does nothing.
ghost use Rattle.std.specs.Prelude.{ℕ, List};
ghost use Rattle.cmis_spec.specs.Repository.{Repository};
ghost use Rattle.cmis_spec.specs.Seen.{OfSeen};
ghost use Rattle.cmis_spec.specs.Well.{IsWellFormed};
ghost use Rattle.rendition_parts.specs.declared.readings.ReadRenditions.{ReadRenditions};
ghost use Rattle.rd_renditions.specs.ReadRenditions.{answer_renditions};

/// In two repositories in which the caller sees the same, he is answered the same about the renditions of an object.
pub fn renditions_of_seen()
    ensures { (r : Repository) (u : List ℕ) (q : ReadRenditions) → IsWellFormed r
        → OfSeen (λ s. answer_renditions s u q) r u (answer_renditions r u q) }
{}
