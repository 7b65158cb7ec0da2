//! Of the readings of trees.
ghost use Rattle.std.specs.Prelude.{ℕ, List};
ghost use Rattle.action_parts.specs.declared.action.Action.TheVariants as actions;
ghost use Rattle.include_parts.specs.declared.readings.ShowTree.{ShowTree};
ghost use Rattle.cmis_spec.specs.Repository.{Repository};
ghost use Rattle.rd_trees.specs.ReadTree.{answer_tree};
ghost use Rattle.action_laws.specs.Refused.{IsBarred, IsRefused, MayDo, NoneComes};

/// Where a caller may not ask for what stands below an object, that reading is refused.
pub fn trees_refused()
    ensures descendants { (r : Repository) (u : List ℕ) (q : ShowTree)
        → IsBarred r u q.tree.place actions.GetDescendants → IsRefused (answer_tree r u q) }
    ensures folder_tree { (r : Repository) (u : List ℕ) (q : ShowTree)
        → IsBarred r u q.tree.place actions.GetFolderTree → IsRefused (answer_tree r u q) }
{}

/// Where he may, it is not refused by the kind of the object.
pub fn trees_allowed()
    ensures descendants { (r : Repository) (u : List ℕ) (q : ShowTree)
        → MayDo r u q.tree.place actions.GetDescendants → NoneComes actions.GetDescendants (answer_tree r u q) }
    ensures folder_tree { (r : Repository) (u : List ℕ) (q : ShowTree)
        → MayDo r u q.tree.place actions.GetFolderTree → NoneComes actions.GetFolderTree (answer_tree r u q) }
{}
