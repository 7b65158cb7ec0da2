//! An entry that is accepted, under greater limits.
ghost use Rattle.std.specs.Prelude.{◌≡◌, Ok};
ghost use Rattle.cm_base.specs.declared.limits.Limits.{Limits};
ghost use Rattle.cm_base.specs.declared.shown.Shown.{Shown};
ghost use Rattle.cm_call.specs.declared.reply.Reply.{Reply};
ghost use Rattle.cm_call.specs.declared.write.Write.{Write};
ghost use Rattle.cm_repo.specs.Calls.{step_of};
ghost use Rattle.cm_repo.specs.ServerMachine.{shown_step};
ghost use Rattle.cmis_spec.specs.Repository.{Repository};
ghost use Rattle.desk_model.specs.declared.entry.Entry.{Entry};
ghost use Rattle.limit_laws.specs.Limited.{under, AreAsGreat};

/// It is accepted under them too, is answered the same, and what is sent of the answer is the same; it leaves the same but for the limits.
pub fn entry_is_accepted()
    ensures answered { (r : Repository) (greater : Limits) (e : Entry Write) (x : Repository × Reply)
        → AreAsGreat greater r.limits → step_of r e ≡ Ok x → step_of (under greater r) e ≡ Ok (under greater x.0, x.1) }
    ensures sent { (r : Repository) (greater : Limits) (e : Entry Write) (x : Repository × Shown)
        → AreAsGreat greater r.limits → shown_step r e ≡ Ok x
        → shown_step (under greater r) e ≡ Ok (under greater x.0, x.1) }
{}
