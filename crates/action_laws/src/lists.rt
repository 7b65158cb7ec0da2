//! Of the readings of children, parents and versions.
ghost use Rattle.std.specs.Prelude.{ℕ, List};
ghost use Rattle.action_parts.specs.declared.action.Action.TheVariants as actions;
ghost use Rattle.include_parts.specs.declared.readings.ShowChildren.{ShowChildren};
ghost use Rattle.call_parts.specs.declared.readings.ReadParent.{ReadParent};
ghost use Rattle.include_parts.specs.declared.readings.ShowParents.{ShowParents};
ghost use Rattle.include_parts.specs.declared.readings.ShowVersions.{ShowVersions};
ghost use Rattle.cmis_spec.specs.Repository.{Repository};
ghost use Rattle.cmis_spec.specs.Well.{IsWellFormed};
ghost use Rattle.rd_lists.specs.ReadParent.{answer_parent};
ghost use Rattle.rd_include.specs.ShowParents.{answer_show_parents};
ghost use Rattle.rd_include.specs.ShowVersions.{answer_show_versions};
ghost use Rattle.rd_include.specs.ShowChildren.{answer_show_children};
ghost use Rattle.action_laws.specs.Refused.{IsBarred, IsRefused, MayDo, NoneComes};

/// Where a caller may not ask for the children, the parent or the parents of an object, or for its versions, that reading is refused.
pub fn lists_refused()
    ensures children { (r : Repository) (u : List ℕ) (q : ShowChildren)
        → IsBarred r u q.children.place actions.GetChildren → IsRefused (answer_show_children r u q) }
    ensures parent { (r : Repository) (u : List ℕ) (q : ReadParent) → IsWellFormed r
        → IsBarred r u q.place actions.GetFolderParent → IsRefused (answer_parent r u q) }
    ensures parents { (r : Repository) (u : List ℕ) (q : ShowParents)
        → IsBarred r u q.parents.place actions.GetObjectParents → IsRefused (answer_show_parents r u q) }
    ensures versions { (r : Repository) (u : List ℕ) (q : ShowVersions)
        → IsBarred r u q.versions.place actions.GetAllVersions → IsRefused (answer_show_versions r u q) }
{}

/// Where he may, it is refused neither by the kind of the object or its type, nor for a parent that is not there or not read.
pub fn lists_allowed()
    ensures children { (r : Repository) (u : List ℕ) (q : ShowChildren)
        → MayDo r u q.children.place actions.GetChildren
        → NoneComes actions.GetChildren (answer_show_children r u q) }
    ensures parent { (r : Repository) (u : List ℕ) (q : ReadParent) → IsWellFormed r
        → MayDo r u q.place actions.GetFolderParent
        → NoneComes actions.GetFolderParent (answer_parent r u q) }
    ensures parents { (r : Repository) (u : List ℕ) (q : ShowParents)
        → MayDo r u q.parents.place actions.GetObjectParents
        → NoneComes actions.GetObjectParents (answer_show_parents r u q) }
    ensures versions { (r : Repository) (u : List ℕ) (q : ShowVersions)
        → MayDo r u q.versions.place actions.GetAllVersions
        → NoneComes actions.GetAllVersions (answer_show_versions r u q) }
{}
