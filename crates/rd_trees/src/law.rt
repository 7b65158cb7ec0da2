//! The answers follow from what the caller sees: a law for each, as a function that does nothing.
ghost use Rattle.std.specs.Prelude.{ℕ, List};
ghost use Rattle.include_parts.specs.declared.readings.ShowCheckedOut.{ShowCheckedOut};
ghost use Rattle.include_parts.specs.declared.readings.ShowTree.{ShowTree};
ghost use Rattle.cmis_spec.specs.Repository.{Repository};
ghost use Rattle.cmis_spec.specs.Seen.{OfSeen};
ghost use Rattle.cmis_spec.specs.Well.{IsWellFormed};
ghost use Rattle.rd_trees.specs.ReadCheckedOut.{answer_checked_out};
ghost use Rattle.rd_trees.specs.ReadTree.{answer_tree};

/// In two repositories in which the caller sees the same, he is answered the same about the working copies.
pub fn checked_out_of_seen()
    ensures { (r : Repository) (u : List ℕ) (q : ShowCheckedOut) → IsWellFormed r
        → OfSeen (λ s. answer_checked_out s u q) r u (answer_checked_out r u q) }
{}

/// In two repositories in which the caller sees the same, he is answered the same about the tree below a folder.
pub fn tree_of_seen()
    ensures { (r : Repository) (u : List ℕ) (q : ShowTree) → IsWellFormed r
        → OfSeen (λ s. answer_tree s u q) r u (answer_tree r u q) }
{}
