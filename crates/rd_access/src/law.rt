//! The answers follow from what the caller sees: a law for each, as a function that does nothing.
ghost use Rattle.std.specs.Prelude.{ℕ, List};
ghost use Rattle.call_parts.specs.declared.readings.ReadAcl.{ReadAcl};
ghost use Rattle.call_parts.specs.declared.readings.ReadPolicies.{ReadPolicies};
ghost use Rattle.cmis_spec.specs.Repository.{Repository};
ghost use Rattle.cmis_spec.specs.Seen.{OfSeen};
ghost use Rattle.cmis_spec.specs.Well.{IsWellFormed};
ghost use Rattle.rd_access.specs.ReadAcl.{answer_acl};
ghost use Rattle.rd_access.specs.ReadPolicies.{answer_policies};

/// In two repositories in which the caller sees the same, he is answered the same about the policies of an object.
pub fn policies_of_seen()
    ensures { (r : Repository) (u : List ℕ) (q : ReadPolicies) → IsWellFormed r
        → OfSeen (λ s. answer_policies s u q) r u (answer_policies r u q) }
{}

/// In two repositories in which the caller sees the same, he is answered the same about the access control list of an object.
pub fn acl_of_seen()
    ensures { (r : Repository) (u : List ℕ) (q : ReadAcl) → IsWellFormed r
        → OfSeen (λ s. answer_acl s u q) r u (answer_acl r u q) }
{}
