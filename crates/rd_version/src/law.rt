//! The answer follows from what the caller sees: a law, as a function that does nothing.
ghost use Rattle.std.specs.Prelude.{ℕ, List, Option};
ghost use Rattle.call_parts.specs.declared.place.Place.{Place};
ghost use Rattle.cmis_spec.specs.Repository.{Repository};
ghost use Rattle.cmis_spec.specs.Seen.{OfSeen};
ghost use Rattle.cmis_spec.specs.Well.{IsWellFormed};
ghost use Rattle.rd_version.specs.Content.{answer_stream};

/// In two repositories in which the caller sees the same, he is answered the same bytes of a content.
pub fn stream_of_seen()
    ensures { (r : Repository) (u : List ℕ) (place : Place) (stream : Option (List ℕ)) → IsWellFormed r
        → OfSeen (λ s. answer_stream s u place stream) r u (answer_stream r u place stream) }
{}
