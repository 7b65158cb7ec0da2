//! The renditions that are shown follow from what the caller sees: a law, as a function that does nothing.
ghost use Rattle.std.specs.Prelude.{◌≡◌, ℕ, List, Some};
ghost use Rattle.cm_base.specs.declared.object.Object.{Object};
ghost use Rattle.call_parts.specs.declared.place.Place.{Place};
ghost use Rattle.cmis_spec.specs.Repository.{Repository};
ghost use Rattle.cmis_spec.specs.Seen.{OfSeen};
ghost use Rattle.cmis_spec.specs.Well.{IsWellFormed};
ghost use Rattle.cm_see.specs.Addressed.{addressed};
ghost use Rattle.rendition_parts.specs.declared.filter.RenditionFilter.{RenditionFilter};
ghost use Rattle.cm_renditions.specs.Shown.{shown_renditions};

/// In two repositories in which the caller sees the same, he is shown the same renditions of an object that he reads.
pub fn renditions_of_seen()
    ensures { (r : Repository) (u : List ℕ) (place : Place) (f : RenditionFilter) (x : Object)
        → IsWellFormed r → addressed r u place ≡ Some x
        → OfSeen (λ s. shown_renditions s f x) r u (shown_renditions r f x) }
{}
