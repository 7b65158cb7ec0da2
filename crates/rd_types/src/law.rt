//! The answers follow from what the caller sees: laws, as functions that do nothing.
ghost use Rattle.std.specs.Prelude.{ℕ, List};
ghost use Rattle.type_parts.specs.declared.readings.ReadInfo.{ReadInfo};
ghost use Rattle.type_parts.specs.declared.readings.ReadTypeChildren.{ReadTypeChildren};
ghost use Rattle.type_parts.specs.declared.readings.ReadTypeDefinition.{ReadTypeDefinition};
ghost use Rattle.type_parts.specs.declared.readings.ReadTypeDescendants.{ReadTypeDescendants};
ghost use Rattle.cmis_spec.specs.Repository.{Repository};
ghost use Rattle.cmis_spec.specs.Seen.{OfSeen};
ghost use Rattle.cmis_spec.specs.Well.{IsWellFormed};
ghost use Rattle.rd_types.specs.ReadInfo.{answer_info};
ghost use Rattle.rd_types.specs.ReadTypes.{answer_type_children, answer_type_definition, answer_type_descendants};

/// In two repositories in which the caller sees the same, he is answered the same about the repository.
pub fn info_of_seen()
    ensures { (r : Repository) (u : List ℕ) (q : ReadInfo) → IsWellFormed r
        → OfSeen (λ s. answer_info s u q) r u (answer_info r u q) }
{}

/// In two repositories in which the caller sees the same, he is answered the same about the types right below a type.
pub fn type_children_of_seen()
    ensures { (r : Repository) (u : List ℕ) (q : ReadTypeChildren) → IsWellFormed r
        → OfSeen (λ s. answer_type_children s u q) r u (answer_type_children r u q) }
{}

/// In two repositories in which the caller sees the same, he is answered the same about the tree of types below a type.
pub fn type_descendants_of_seen()
    ensures { (r : Repository) (u : List ℕ) (q : ReadTypeDescendants) → IsWellFormed r
        → OfSeen (λ s. answer_type_descendants s u q) r u (answer_type_descendants r u q) }
{}

/// In two repositories in which the caller sees the same, he is answered the same about a type.
pub fn type_definition_of_seen()
    ensures { (r : Repository) (u : List ℕ) (q : ReadTypeDefinition) → IsWellFormed r
        → OfSeen (λ s. answer_type_definition s u q) r u (answer_type_definition r u q) }
{}
