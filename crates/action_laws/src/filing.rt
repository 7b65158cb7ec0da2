//! Of the calls on where objects are filed.
ghost use Rattle.std.specs.Prelude.{◌≡◌, ℕ, true, ◌||◌, List};
ghost use Rattle.action_parts.specs.declared.action.Action.TheVariants as actions;
ghost use Rattle.call_parts.specs.declared.changes.AddToFolder.{AddToFolder};
ghost use Rattle.call_parts.specs.declared.changes.MoveObject.{MoveObject};
ghost use Rattle.call_parts.specs.declared.changes.RemoveFromFolder.{RemoveFromFolder};
ghost use Rattle.cm_base.specs.declared.cause.Cause.TheVariants as causes;
ghost use Rattle.cmis_spec.specs.Repository.{Repository};
ghost use Rattle.wr_filing.specs.AddToFolder.{refusal_add_to_folder};
ghost use Rattle.wr_filing.specs.Filing.{is_filed_kind};
ghost use Rattle.wr_filing.specs.MoveObject.{refusal_move};
ghost use Rattle.wr_filing.specs.RemoveFromFolder.{refusal_remove_from_folder};
ghost use Rattle.action_laws.specs.Refused.{IsBarred, IsRefused, MayDo, OnlyComes};
ghost use Rattle.action_laws.specs.Refused.{lacks_named, lacks_out_of};

/// Where a caller may not move an object, add it to a folder or remove it from one, that call is refused.
pub fn filing_refused()
    ensures move_object { (r : Repository) (u : List ℕ) (cost : ℕ) (call : MoveObject)
        → IsBarred r u call.place actions.MoveObject → IsRefused (refusal_move r u cost call) }
    ensures add_to_folder { (r : Repository) (u : List ℕ) (cost : ℕ) (call : AddToFolder)
        → IsBarred r u call.place actions.AddObjectToFolder → IsRefused (refusal_add_to_folder r u cost call) }
    ensures remove_from_folder { (r : Repository) (u : List ℕ) (cost : ℕ) (call : RemoveFromFolder)
        → IsBarred r u call.place actions.RemoveObjectFromFolder → IsRefused
        (refusal_remove_from_folder r u cost call) }
{}

/// Where he may, and the object is a folder, a document or an item, it is not refused by its type or its place, and for want of permission
/// only where he may not write in a folder of the call. A relationship or a policy of a fileable type is refused for its kind, though
/// the table goes by the type alone; no call makes such a type, since a type is fileable as its parent is, and the base types of
/// relationships and policies are not.
pub fn filing_allowed()
    ensures move_object { (r : Repository) (u : List ℕ) (cost : ℕ) (call : MoveObject)
        → (b : MayDo r u call.place actions.MoveObject) → is_filed_kind r b.object ≡ true
        → OnlyComes actions.MoveObject causes.Denied (lacks_named r u call.source || lacks_named r u call.target)
        (refusal_move r u cost call) }
    ensures add_to_folder { (r : Repository) (u : List ℕ) (cost : ℕ) (call : AddToFolder)
        → (b : MayDo r u call.place actions.AddObjectToFolder) → is_filed_kind r b.object ≡ true
        → OnlyComes actions.AddObjectToFolder causes.Denied (lacks_named r u call.folder)
        (refusal_add_to_folder r u cost call) }
    ensures remove_from_folder { (r : Repository) (u : List ℕ) (cost : ℕ) (call : RemoveFromFolder)
        → (b : MayDo r u call.place actions.RemoveObjectFromFolder) → is_filed_kind r b.object ≡ true
        → OnlyComes actions.RemoveObjectFromFolder causes.Denied (lacks_out_of r u b.object call.folder)
        (refusal_remove_from_folder r u cost call) }
{}
