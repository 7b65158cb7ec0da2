//! Of the calls that check documents out and in.
ghost use Rattle.std.specs.Prelude.{ℕ, List};
ghost use Rattle.action_parts.specs.declared.action.Action.TheVariants as actions;
ghost use Rattle.call_parts.specs.declared.versions.CheckIn.{CheckIn};
ghost use Rattle.call_parts.specs.declared.versions.CheckOut.{CheckOut};
ghost use Rattle.cmis_spec.specs.Repository.{Repository};
ghost use Rattle.cmis_spec.specs.Well.{IsWellFormed};
ghost use Rattle.wr_version.specs.CheckIn.{refusal_check_in};
ghost use Rattle.wr_version.specs.CheckOut.{refusal_check_out};
ghost use Rattle.action_laws.specs.Refused.{IsBarred, IsRefused, MayDo, NoneComes};

/// Where a caller may not check a document out or in, that call is refused.
pub fn versioning_refused()
    ensures check_out { (r : Repository) (u : List ℕ) (cost : ℕ) (call : CheckOut)
        → IsBarred r u call.place actions.CheckOut → IsRefused (refusal_check_out r u cost call) }
    ensures check_in { (r : Repository) (u : List ℕ) (cost : ℕ) (call : CheckIn)
        → IsBarred r u call.place actions.CheckIn → IsRefused (refusal_check_in r u cost call) }
{}

/// Where he may, it is refused neither for want of permission nor for what the document is.
pub fn versioning_allowed()
    ensures check_out { (r : Repository) (u : List ℕ) (cost : ℕ) (call : CheckOut)
        → MayDo r u call.place actions.CheckOut
        → NoneComes actions.CheckOut (refusal_check_out r u cost call) }
    ensures check_in { (r : Repository) (u : List ℕ) (cost : ℕ) (call : CheckIn) → IsWellFormed r
        → MayDo r u call.place actions.CheckIn
        → NoneComes actions.CheckIn (refusal_check_in r u cost call) }
{}
