//! What is shown of an object follows from what the caller sees: a law, as a function that does nothing.
ghost use Rattle.std.specs.Prelude.{◌≡◌, ℕ, Bool, List, Some};
ghost use Rattle.cm_base.specs.declared.object.Object.{Object};
ghost use Rattle.call_parts.specs.declared.place.Place.{Place};
ghost use Rattle.call_parts.specs.declared.readings.PropertyFilter.{PropertyFilter};
ghost use Rattle.include_parts.specs.declared.readings.Includes.{Includes};
ghost use Rattle.cmis_spec.specs.Repository.{Repository};
ghost use Rattle.cmis_spec.specs.Seen.{OfSeen};
ghost use Rattle.cmis_spec.specs.Well.{IsWellFormed};
ghost use Rattle.cm_include.specs.Included.{included_object};
ghost use Rattle.cm_see.specs.Addressed.{addressed};

/// In two repositories in which the caller sees the same, an object that he reads is shown to him with the same things.
pub fn included_of_seen()
    ensures { (r : Repository) (u : List ℕ) (place : Place) (f : PropertyFilter)
        (succinct : Bool) (i : Includes) (x : Object) → IsWellFormed r → addressed r u place ≡ Some x
        → OfSeen (λ s. included_object s u f succinct i x) r u (included_object r u f succinct i x) }
{}
