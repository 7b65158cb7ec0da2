//! Of the calls on the content of documents.
ghost use Rattle.std.specs.Prelude.{◌≡◌, ℕ, true, List, is_some};
ghost use Rattle.action_parts.specs.declared.action.Action.TheVariants as actions;
ghost use Rattle.call_parts.specs.declared.changes.DeleteContent.{DeleteContent};
ghost use Rattle.call_parts.specs.declared.changes.SetContent.{SetContent};
ghost use Rattle.cm_base.specs.declared.number.Moment.{Moment};
ghost use Rattle.cm_state.specs.Looks.{content_at};
ghost use Rattle.cmis_spec.specs.Repository.{Repository};
ghost use Rattle.wr_content.specs.SetContent.{refusal_set_content};
ghost use Rattle.wr_content.specs.DeleteContent.{refusal_delete_content};
ghost use Rattle.action_laws.specs.Refused.{IsBarred, IsRefused, MayDo, NoneComes};

/// Where a caller may not set or delete the content of a document, that call is refused. The one exception: deleteContent does nothing to a
/// document without content.
pub fn contents_refused()
    ensures set_content { (r : Repository) (u : List ℕ) (m : Moment) (cost : ℕ) (call : SetContent)
        → IsBarred r u call.place actions.SetContentStream → IsRefused (refusal_set_content r u m cost call) }
    ensures delete_content { (r : Repository) (u : List ℕ) (m : Moment) (cost : ℕ) (call : DeleteContent)
        → (b : IsBarred r u call.place actions.DeleteContentStream) → is_some (content_at r b.object.id) ≡ true
        → IsRefused (refusal_delete_content r u m cost call) }
{}

/// Where he may, it is refused neither for want of permission, nor for what the document is, nor by a hold; but a token, the stream that is
/// given, or retention may refuse it.
pub fn contents_allowed()
    ensures set_content { (r : Repository) (u : List ℕ) (m : Moment) (cost : ℕ) (call : SetContent)
        → MayDo r u call.place actions.SetContentStream
        → NoneComes actions.SetContentStream (refusal_set_content r u m cost call) }
    ensures delete_content { (r : Repository) (u : List ℕ) (m : Moment) (cost : ℕ) (call : DeleteContent)
        → MayDo r u call.place actions.DeleteContentStream
        → NoneComes actions.DeleteContentStream (refusal_delete_content r u m cost call) }
{}
