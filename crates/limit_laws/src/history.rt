//! Histories that are legal, under other limits.
ghost use Rattle.std.specs.Prelude.{◌≡◌, List, ◌++◌};
ghost use Rattle.cm_base.specs.declared.limits.Limits.{Limits};
ghost use Rattle.cm_call.specs.declared.write.Write.{Write};
ghost use Rattle.cm_repo.specs.Calls.{step_of};
ghost use Rattle.cm_repo.specs.ServerMachine.{shown_step};
ghost use Rattle.cmis_spec.specs.Repository.{Repository};
ghost use Rattle.desk_model.specs.declared.entry.Entry.{Entry};
ghost use Rattle.desk_model.specs.Histories.{IsLegal, replay};
ghost use Rattle.limit_laws.specs.Limited.{under, AreAsGreat};

/// A list of entries that is legal from a repository is legal from it under greater limits, and its replay there is the same but for the limits.
pub fn history_is_legal()
    ensures legal { (r : Repository) (greater : Limits) (h : List (Entry Write))
        → AreAsGreat greater r.limits → IsLegal shown_step r h → IsLegal shown_step (under greater r) h }
    ensures same { (r : Repository) (greater : Limits) (h : List (Entry Write))
        → AreAsGreat greater r.limits → IsLegal shown_step r h
        → replay shown_step (under greater r) h ≡ under greater (replay shown_step r h) }
{}

/// And so for the machine that answers without sending.
pub fn answered_history_is_legal()
    ensures legal { (r : Repository) (greater : Limits) (h : List (Entry Write))
        → AreAsGreat greater r.limits → IsLegal step_of r h → IsLegal step_of (under greater r) h }
    ensures same { (r : Repository) (greater : Limits) (h : List (Entry Write))
        → AreAsGreat greater r.limits → IsLegal step_of r h
        → replay step_of (under greater r) h ≡ under greater (replay step_of r h) }
{}

/// What is legal and then goes on under limits that are no greater is legal as a whole, without these limits; and its replay is the same
/// but for them.
pub fn history_goes_on()
    ensures legal { (r : Repository) (limits : Limits) (h more : List (Entry Write))
        → AreAsGreat r.limits limits → IsLegal shown_step r h
        → IsLegal shown_step (under limits (replay shown_step r h)) more → IsLegal shown_step r (h ++ more) }
    ensures same { (r : Repository) (limits : Limits) (h more : List (Entry Write))
        → AreAsGreat r.limits limits → IsLegal shown_step r h
        → IsLegal shown_step (under limits (replay shown_step r h)) more
        → replay shown_step r (h ++ more)
        ≡ under r.limits (replay shown_step (under limits (replay shown_step r h)) more) }
{}
