//! What is read and what is answered follow from what the caller sees: a law for each, as a function that does nothing.
ghost use Rattle.std.specs.Prelude.{ℕ, List};
ghost use Rattle.cm_base.specs.declared.number.Oid.{Oid};
ghost use Rattle.cm_relationships.specs.Found.{relationships_of};
ghost use Rattle.relationship_parts.specs.declared.readings.Direction.{Direction};
ghost use Rattle.include_parts.specs.declared.readings.ShowRelationships.{ShowRelationships};
ghost use Rattle.cmis_spec.specs.Repository.{Repository};
ghost use Rattle.cmis_spec.specs.Seen.{OfSeen};
ghost use Rattle.cmis_spec.specs.Well.{IsWellFormed};
ghost use Rattle.rd_relationships.specs.ReadRelationships.{answer_relationships};

/// In two repositories in which the caller sees the same, he reads the same relationships of each object.
pub fn read_of_seen()
    ensures { (r : Repository) (u : List ℕ) (direction : Direction) (n : Oid) → IsWellFormed r
        → OfSeen (λ s. relationships_of s u direction n) r u (relationships_of r u direction n) }
{}

/// In two repositories in which the caller sees the same, he is answered the same about the relationships of an object.
pub fn relationships_of_seen()
    ensures { (r : Repository) (u : List ℕ) (q : ShowRelationships) → IsWellFormed r
        → OfSeen (λ s. answer_relationships s u q) r u (answer_relationships r u q) }
{}
