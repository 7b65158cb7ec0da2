//! Of the calls that make objects in a folder, and of the one that makes relationships.
ghost use Rattle.std.specs.Prelude.{◌≡◌, ℕ, List, Some};
ghost use Rattle.action_parts.specs.declared.action.Action.TheVariants as actions;
ghost use Rattle.call_parts.specs.declared.place.Place.{Place};
ghost use Rattle.call_parts.specs.declared.place.Place.TheVariants.{Id};
ghost use Rattle.call_parts.specs.declared.versions.CreateDocument.{CreateDocument};
ghost use Rattle.call_parts.specs.declared.writes.CreateFolder.{CreateFolder};
ghost use Rattle.cm_base.specs.declared.cause.Cause.TheVariants as causes;
ghost use Rattle.cm_base.specs.declared.number.Moment.{Moment};
ghost use Rattle.cmis_spec.specs.Repository.{Repository};
ghost use Rattle.create_parts.specs.declared.writes.CreateItem.{CreateItem};
ghost use Rattle.create_parts.specs.declared.writes.CreateRelationship.{CreateRelationship};
ghost use Rattle.wr_create.specs.CreateItem.{refusal_create_item};
ghost use Rattle.wr_object.specs.CreateDocument.{refusal_create_document};
ghost use Rattle.wr_object.specs.CreateFolder.{refusal_create_folder};
ghost use Rattle.wr_relationship.specs.CreateRelationship.{refusal_create_relationship};
ghost use Rattle.wr_rules.specs.Rules.{has_other_policy};
ghost use Rattle.action_laws.specs.Refused.{IsBarred, IsRefused, MayDo, OnlyComes};
ghost use Rattle.action_laws.specs.Refused.{names_relationship, source_in, target_in};

/// Where a caller may not make a document, a folder or an item in what is addressed, that call is refused.
pub fn creations_refused()
    ensures create_document { (r : Repository) (u : List ℕ) (cost : ℕ) (call : CreateDocument) (place : Place)
        → call.place ≡ Some place
        → IsBarred r u place actions.CreateDocument → IsRefused (refusal_create_document r u cost call) }
    ensures create_folder { (r : Repository) (u : List ℕ) (m : Moment) (cost : ℕ) (call : CreateFolder)
        → IsBarred r u call.place actions.CreateFolder → IsRefused (refusal_create_folder r u m cost call) }
    ensures create_item { (r : Repository) (u : List ℕ) (cost : ℕ) (call : CreateItem) (place : Place)
        → call.place ≡ Some place
        → IsBarred r u place actions.CreateItem → IsRefused (refusal_create_item r u cost call) }
{}

/// Where he may, it is not refused for want of permission, and by another kind only where a policy that is asked for is none.
pub fn creations_allowed()
    ensures create_document { (r : Repository) (u : List ℕ) (cost : ℕ) (call : CreateDocument) (place : Place)
        → call.place ≡ Some place → MayDo r u place actions.CreateDocument
        → OnlyComes actions.CreateDocument causes.WrongKind (has_other_policy r u call.policies)
        (refusal_create_document r u cost call) }
    ensures create_folder { (r : Repository) (u : List ℕ) (m : Moment) (cost : ℕ) (call : CreateFolder)
        → MayDo r u call.place actions.CreateFolder
        → OnlyComes actions.CreateFolder causes.WrongKind (has_other_policy r u call.policies)
        (refusal_create_folder r u m cost call) }
    ensures create_item { (r : Repository) (u : List ℕ) (cost : ℕ) (call : CreateItem) (place : Place)
        → call.place ≡ Some place → MayDo r u place actions.CreateItem
        → OnlyComes actions.CreateItem causes.WrongKind (has_other_policy r u call.object.policies)
        (refusal_create_item r u cost call) }
{}

/// Where a caller may not make relationships at an object, a call that names it as the source or the target is refused.
pub fn relationships_refused()
    ensures source { (r : Repository) (u : List ℕ) (cost : ℕ) (call : CreateRelationship) (id : List ℕ)
        → source_in call ≡ Some id
        → IsBarred r u (Id id) actions.CreateRelationship → IsRefused (refusal_create_relationship r u cost call) }
    ensures target { (r : Repository) (u : List ℕ) (cost : ℕ) (call : CreateRelationship) (id : List ℕ)
        → target_in call ≡ Some id
        → IsBarred r u (Id id) actions.CreateRelationship → IsRefused (refusal_create_relationship r u cost call) }
{}

/// Where he may, it is not refused for want of permission, and by the kind of an end only where the other end is a relationship.
pub fn relationships_allowed()
    ensures source { (r : Repository) (u : List ℕ) (cost : ℕ) (call : CreateRelationship) (id : List ℕ)
        → source_in call ≡ Some id → MayDo r u (Id id) actions.CreateRelationship
        → OnlyComes actions.CreateRelationship causes.EndKind (names_relationship r u (target_in call))
        (refusal_create_relationship r u cost call) }
    ensures target { (r : Repository) (u : List ℕ) (cost : ℕ) (call : CreateRelationship) (id : List ℕ)
        → target_in call ≡ Some id → MayDo r u (Id id) actions.CreateRelationship
        → OnlyComes actions.CreateRelationship causes.EndKind (names_relationship r u (source_in call))
        (refusal_create_relationship r u cost call) }
{}
