//! The answers follow from what the caller sees: a law for each, as a function that does nothing.
ghost use Rattle.std.specs.Prelude.{ℕ, Bool, List};
ghost use Rattle.call_parts.specs.declared.place.Place.{Place};
ghost use Rattle.call_parts.specs.declared.readings.PropertyFilter.{PropertyFilter};
ghost use Rattle.include_parts.specs.declared.readings.Includes.{Includes};
ghost use Rattle.include_parts.specs.declared.readings.ShowChildren.{ShowChildren};
ghost use Rattle.include_parts.specs.declared.readings.ShowObject.{ShowObject};
ghost use Rattle.include_parts.specs.declared.readings.ShowParents.{ShowParents};
ghost use Rattle.include_parts.specs.declared.readings.ShowProperties.{ShowProperties};
ghost use Rattle.include_parts.specs.declared.readings.ShowVersions.{ShowVersions};
ghost use Rattle.cmis_spec.specs.Repository.{Repository};
ghost use Rattle.cmis_spec.specs.Seen.{OfSeen};
ghost use Rattle.cmis_spec.specs.Well.{IsWellFormed};
ghost use Rattle.rd_include.specs.ShowChildren.{answer_show_children};
ghost use Rattle.rd_include.specs.ShowObject.{answer_included, answer_show_object, answer_show_properties};
ghost use Rattle.rd_include.specs.ShowParents.{answer_show_parents};
ghost use Rattle.rd_include.specs.ShowVersions.{answer_show_versions};

/// In two repositories in which the caller sees the same, he is answered the same about an object that he addresses.
pub fn included_of_seen()
    ensures { (r : Repository) (u : List ℕ) (place : Place) (f : PropertyFilter)
        (succinct : Bool) (i : Includes) → IsWellFormed r
        → OfSeen (λ s. answer_included s u place f succinct i) r u (answer_included r u place f succinct i) }
{}

/// In two repositories in which the caller sees the same, he is answered the same about an object and its versions.
pub fn object_of_seen()
    ensures { (r : Repository) (u : List ℕ) (q : ShowObject) → IsWellFormed r
        → OfSeen (λ s. answer_show_object s u q) r u (answer_show_object r u q) }
{}

/// In two repositories in which the caller sees the same, he is answered the same about an object's properties.
pub fn properties_of_seen()
    ensures { (r : Repository) (u : List ℕ) (q : ShowProperties) → IsWellFormed r
        → OfSeen (λ s. answer_show_properties s u q) r u (answer_show_properties r u q) }
{}

/// In two repositories in which the caller sees the same, he is answered the same about the children of a folder.
pub fn children_of_seen()
    ensures { (r : Repository) (u : List ℕ) (q : ShowChildren) → IsWellFormed r
        → OfSeen (λ s. answer_show_children s u q) r u (answer_show_children r u q) }
{}

/// In two repositories in which the caller sees the same, he is answered the same about the versions of a document.
pub fn versions_of_seen()
    ensures { (r : Repository) (u : List ℕ) (q : ShowVersions) → IsWellFormed r
        → OfSeen (λ s. answer_show_versions s u q) r u (answer_show_versions r u q) }
{}

/// In two repositories in which the caller sees the same, he is answered the same about the folders of an object.
pub fn parents_of_seen()
    ensures { (r : Repository) (u : List ℕ) (q : ShowParents) → IsWellFormed r
        → OfSeen (λ s. answer_show_parents s u q) r u (answer_show_parents r u q) }
{}
