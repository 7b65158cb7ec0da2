//! Of the reading of content.
ghost use Rattle.std.specs.Prelude.{◌≡◌, ℕ, List, None};
ghost use Rattle.action_parts.specs.declared.action.Action.TheVariants as actions;
ghost use Rattle.call_parts.specs.declared.readings.ReadContent.{ReadContent};
ghost use Rattle.cmis_spec.specs.Repository.{Repository};
ghost use Rattle.rd_version.specs.Content.{answer_content};
ghost use Rattle.action_laws.specs.Refused.{IsBarred, IsRefused, MayDo, NoneComes};

/// Where a caller may not read the content of a document, that reading is refused. The one exception: a rendition may be read where there is no
/// content.
pub fn streams_refused()
    ensures { (r : Repository) (u : List ℕ) (q : ReadContent) → q.stream ≡ None
        → IsBarred r u q.place actions.GetContentStream → IsRefused (answer_content r u q) }
{}

/// Where he may, it is refused neither by the kind of the object nor for want of content; a stream that is named may not be there.
pub fn streams_allowed()
    ensures { (r : Repository) (u : List ℕ) (q : ReadContent)
        → MayDo r u q.place actions.GetContentStream
        → NoneComes actions.GetContentStream (answer_content r u q) }
{}
