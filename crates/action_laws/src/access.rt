//! Of the call that changes access control lists.
ghost use Rattle.std.specs.Prelude.{ℕ, List};
ghost use Rattle.access_parts.specs.declared.writes.ApplyAcl.{ApplyAcl};
ghost use Rattle.action_parts.specs.declared.action.Action.TheVariants as actions;
ghost use Rattle.cmis_spec.specs.Repository.{Repository};
ghost use Rattle.cmis_spec.specs.Well.{IsWellFormed};
ghost use Rattle.wr_access.specs.ApplyAcl.{refusal_apply_acl};
ghost use Rattle.action_laws.specs.Refused.{IsBarred, IsRefused, MayDo, NoneComes};

/// Where a caller may not change the access control list of an object, that call is refused.
pub fn access_refused()
    ensures { (r : Repository) (u : List ℕ) (cost : ℕ) (call : ApplyAcl) → IsWellFormed r
        → IsBarred r u call.place actions.ApplyAcl → IsRefused (refusal_apply_acl r u cost call) }
{}

/// Where he may, it is refused neither for want of permission nor by the type of the object.
pub fn access_allowed()
    ensures { (r : Repository) (u : List ℕ) (cost : ℕ) (call : ApplyAcl)
        → MayDo r u call.place actions.ApplyAcl
        → NoneComes actions.ApplyAcl (refusal_apply_acl r u cost call) }
{}
