//! The order of objects follows from what the caller sees of them: a law, as a function that does nothing.
ghost use Rattle.std.specs.Prelude.{◌≡◌, ℕ, List, Some};
ghost use Rattle.cm_base.specs.declared.object.Object.{Object};
ghost use Rattle.call_parts.specs.declared.place.Place.{Place};
ghost use Rattle.order_parts.specs.declared.readings.SortSpecification.{SortSpecification};
ghost use Rattle.cmis_spec.specs.Access.{children_of};
ghost use Rattle.cmis_spec.specs.Repository.{Repository};
ghost use Rattle.cmis_spec.specs.Seen.{OfSeen};
ghost use Rattle.cmis_spec.specs.Well.{IsWellFormed};
ghost use Rattle.cm_see.specs.Addressed.{addressed};
ghost use Rattle.rd_order.specs.Ordered.{ordered};

/// In two repositories in which the caller sees the same, the children of an object that he reads stand in the same order for him.
pub fn ordered_of_seen()
    ensures { (r : Repository) (u : List ℕ) (place : Place) (x : Object) (order : List SortSpecification)
        → IsWellFormed r
        → addressed r u place ≡ Some x
        → OfSeen (λ s. ordered s u order (children_of s u x.id)) r u (ordered r u order (children_of r u x.id)) }
{}
