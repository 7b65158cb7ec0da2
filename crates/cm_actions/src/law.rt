//! The allowed actions follow from what the caller sees, as a function that does nothing.
ghost use Rattle.std.specs.Prelude.{◌≡◌, ℕ, List, true, Some};
ghost use Rattle.cm_base.specs.declared.object.Object.{Object};
ghost use Rattle.cmis_spec.specs.Access.{reads};
ghost use Rattle.cmis_spec.specs.Repository.{Repository, object_at};
ghost use Rattle.cmis_spec.specs.Seen.{OfSeen};
ghost use Rattle.cmis_spec.specs.Well.{IsWellFormed};
ghost use Rattle.cm_actions.specs.Allowed.{actions_of};

/// In two repositories in which the caller sees the same, he is allowed the same actions on an object that he reads.
pub fn actions_of_seen()
    ensures { (r : Repository) (u : List ℕ) (x : Object) → IsWellFormed r → object_at r x.id ≡ Some x → reads r u x
        ≡ true
        → OfSeen (λ s. actions_of s u x) r u (actions_of r u x) }
{}
