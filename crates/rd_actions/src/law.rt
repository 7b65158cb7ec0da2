//! The answer follows from what the caller sees: a law, as a function that does nothing.
ghost use Rattle.std.specs.Prelude.{ℕ, List};
ghost use Rattle.action_parts.specs.declared.readings.ReadActions.{ReadActions};
ghost use Rattle.cmis_spec.specs.Repository.{Repository};
ghost use Rattle.cmis_spec.specs.Seen.{OfSeen};
ghost use Rattle.cmis_spec.specs.Well.{IsWellFormed};
ghost use Rattle.rd_actions.specs.ReadActions.{answer_actions};

/// In two repositories in which the caller sees the same, he is answered the same about the actions on an object.
pub fn actions_of_seen()
    ensures { (r : Repository) (u : List ℕ) (q : ReadActions) → IsWellFormed r
        → OfSeen (λ s. answer_actions s u q) r u (answer_actions r u q) }
{}
