//! What a caller finds by an id, by a path, and in a folder.
ghost use Rattle.std.specs.Prelude.{ℕ, List};
ghost use Rattle.cm_base.specs.declared.object.Object.{Object};
ghost use Rattle.call_parts.specs.declared.place.Place.{Place};
ghost use Rattle.call_parts.specs.declared.readings.PropertyFilter.{PropertyFilter};
ghost use Rattle.std.specs.Prelude.{◌≡◌, Bool, Some};
ghost use Rattle.cmis_spec.specs.Repository.{Repository};
ghost use Rattle.cmis_spec.specs.Access.{at_path, children_of, read_named};
ghost use Rattle.cmis_spec.specs.Seen.{OfSeen};
ghost use Rattle.cmis_spec.specs.Well.{IsWellFormed};
ghost use Rattle.cm_see.specs.Addressed.{addressed};
ghost use Rattle.cm_see.specs.Shown.{shown_object};

/// In two repositories in which the caller sees the same, an id names the same object for him.
pub fn named_of_seen()
    ensures { (r : Repository) (u id : List ℕ) → IsWellFormed r
        → OfSeen (λ s. read_named s u id) r u (read_named r u id) }
{}

/// In two repositories in which the caller sees the same, a path leads him to the same object.
pub fn path_of_seen()
    ensures { (r : Repository) (u : List ℕ) (names : List (List ℕ)) → IsWellFormed r
        → OfSeen (λ s. at_path s u names) r u (at_path r u names) }
{}

/// In two repositories in which the caller sees the same, a folder that he reads has the same children for him.
pub fn children_of_seen()
    ensures { (r : Repository) (u : List ℕ) (place : Place) (f : Object) → IsWellFormed r → addressed r u place ≡ Some f
        → OfSeen (λ s. children_of s u f.id) r u (children_of r u f.id) }
{}

/// In two repositories in which the caller sees the same, an object that he reads is shown to him with the same properties.
pub fn shown_of_seen()
    ensures { (r : Repository) (u : List ℕ) (place : Place) (f : PropertyFilter) (succinct : Bool) (x : Object)
        → IsWellFormed r → addressed r u place ≡ Some x
        → OfSeen (λ s. shown_object s u f succinct x) r u (shown_object r u f succinct x) }
{}
