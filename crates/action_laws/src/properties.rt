//! Of the call that updates properties.
ghost use Rattle.std.specs.Prelude.{ℕ, List};
ghost use Rattle.action_parts.specs.declared.action.Action.TheVariants as actions;
ghost use Rattle.call_parts.specs.declared.changes.UpdateProperties.{UpdateProperties};
ghost use Rattle.cm_base.specs.declared.number.Moment.{Moment};
ghost use Rattle.cmis_spec.specs.Repository.{Repository};
ghost use Rattle.wr_change.specs.Update.{refusal_update};
ghost use Rattle.action_laws.specs.Refused.{IsBarred, IsRefused, MayDo, NoneComes};

/// Where a caller may not update the properties of an object, that call is refused.
pub fn properties_refused()
    ensures { (r : Repository) (u : List ℕ) (m : Moment) (cost : ℕ) (call : UpdateProperties)
        → IsBarred r u call.place actions.UpdateProperties → IsRefused (refusal_update r u m cost call) }
{}

/// Where he may, it is refused neither for want of permission nor for the version that the object is.
pub fn properties_allowed()
    ensures { (r : Repository) (u : List ℕ) (m : Moment) (cost : ℕ) (call : UpdateProperties)
        → MayDo r u call.place actions.UpdateProperties
        → NoneComes actions.UpdateProperties (refusal_update r u m cost call) }
{}
