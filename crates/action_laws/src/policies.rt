//! Of the calls that apply policies and take them off.
ghost use Rattle.std.specs.Prelude.{◌≡◌, ℕ, true, List};
ghost use Rattle.action_parts.specs.declared.action.Action.TheVariants as actions;
ghost use Rattle.cm_actions.specs.Allowed.{by_type};
ghost use Rattle.cmis_spec.specs.Repository.{Repository};
ghost use Rattle.cmis_spec.specs.Well.{IsWellFormed};
ghost use Rattle.policy_parts.specs.declared.writes.ApplyPolicy.{ApplyPolicy};
ghost use Rattle.policy_parts.specs.declared.writes.RemovePolicy.{RemovePolicy};
ghost use Rattle.wr_policy.specs.ApplyPolicy.{refusal_apply_policy};
ghost use Rattle.wr_policy.specs.RemovePolicy.{refusal_remove_policy};
ghost use Rattle.action_laws.specs.Refused.{IsBarred, IsRefused, MayDo, NoneComes};

/// Where a caller may not apply policies to an object or take them off, that call is refused. The one exception: a policy may be taken off an
/// object whose type lets none be applied.
pub fn policies_refused()
    ensures apply_policy { (r : Repository) (u : List ℕ) (cost : ℕ) (call : ApplyPolicy) → IsWellFormed r
        → IsBarred r u call.place actions.ApplyPolicy → IsRefused (refusal_apply_policy r u cost call) }
    ensures remove_policy { (r : Repository) (u : List ℕ) (cost : ℕ) (call : RemovePolicy)
        → (b : IsBarred r u call.place actions.RemovePolicy)
        → by_type r b.object (λ t. t.controllable_policy) ≡ true
        → IsRefused (refusal_remove_policy r u cost call) }
{}

/// Where he may, it is refused neither for want of permission nor by the type of the object.
pub fn policies_allowed()
    ensures apply_policy { (r : Repository) (u : List ℕ) (cost : ℕ) (call : ApplyPolicy)
        → MayDo r u call.place actions.ApplyPolicy
        → NoneComes actions.ApplyPolicy (refusal_apply_policy r u cost call) }
    ensures remove_policy { (r : Repository) (u : List ℕ) (cost : ℕ) (call : RemovePolicy)
        → MayDo r u call.place actions.RemovePolicy
        → NoneComes actions.RemovePolicy (refusal_remove_policy r u cost call) }
{}
