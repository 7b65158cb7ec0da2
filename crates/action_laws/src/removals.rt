//! Of the calls that remove objects.
ghost use Rattle.std.specs.Prelude.{ℕ, List};
ghost use Rattle.action_parts.specs.declared.action.Action.TheVariants as actions;
ghost use Rattle.call_parts.specs.declared.versions.CancelCheckOut.{CancelCheckOut};
ghost use Rattle.call_parts.specs.declared.versions.Delete.{Delete};
ghost use Rattle.cm_base.specs.declared.cause.Cause.TheVariants as causes;
ghost use Rattle.cm_base.specs.declared.number.Moment.{Moment};
ghost use Rattle.cmis_spec.specs.Repository.{Repository};
ghost use Rattle.cmis_spec.specs.Well.{IsWellFormed};
ghost use Rattle.delete_tree_parts.specs.declared.writes.DeleteTree.{DeleteTree};
ghost use Rattle.wr_delete_tree.specs.DeleteTree.{refusal_delete_tree};
ghost use Rattle.wr_remove.specs.CancelCheckOut.{refusal_cancel};
ghost use Rattle.wr_remove.specs.Delete.{refusal_delete};
ghost use Rattle.action_laws.specs.Refused.{IsBarred, IsRefused, MayDo, NoneComes, OnlyComes, is_another_held};

/// Where a caller may not delete an object or a tree, or cancel a check-out, that call is refused.
pub fn removals_refused()
    ensures delete { (r : Repository) (u : List ℕ) (m : Moment) (cost : ℕ) (call : Delete) → IsWellFormed r
        → IsBarred r u call.place actions.DeleteObject → IsRefused (refusal_delete r u m cost call) }
    ensures cancel_check_out { (r : Repository) (u : List ℕ) (cost : ℕ) (call : CancelCheckOut)
        → IsBarred r u call.place actions.CancelCheckOut → IsRefused (refusal_cancel r u cost call) }
    ensures delete_tree { (r : Repository) (u : List ℕ) (cost : ℕ) (call : DeleteTree)
        → IsBarred r u call.place actions.DeleteTree → IsRefused (refusal_delete_tree r u cost call) }
{}

/// Where he may, it is refused neither for want of permission nor for what the object is; but a deletion is refused by a hold where
/// another version that would go is under one. What a folder has, policies in use, and retention may refuse it, too.
pub fn removals_allowed()
    ensures delete { (r : Repository) (u : List ℕ) (m : Moment) (cost : ℕ) (call : Delete) → IsWellFormed r
        → (b : MayDo r u call.place actions.DeleteObject)
        → OnlyComes actions.DeleteObject causes.Held (is_another_held r call b.object)
        (refusal_delete r u m cost call) }
    ensures cancel_check_out { (r : Repository) (u : List ℕ) (cost : ℕ) (call : CancelCheckOut) → IsWellFormed r
        → MayDo r u call.place actions.CancelCheckOut
        → NoneComes actions.CancelCheckOut (refusal_cancel r u cost call) }
    ensures delete_tree { (r : Repository) (u : List ℕ) (cost : ℕ) (call : DeleteTree)
        → MayDo r u call.place actions.DeleteTree
        → NoneComes actions.DeleteTree (refusal_delete_tree r u cost call) }
{}
