//! A step of a repository that is well formed, and a replay from one, leave what is well formed.
ghost use Rattle.std.specs.Prelude.{◌≡◌, List, Ok};
ghost use Rattle.cm_call.specs.declared.reply.Reply.{Reply};
ghost use Rattle.cm_call.specs.declared.write.Write.{Write};
ghost use Rattle.cm_repo.specs.Calls.{step_of};
ghost use Rattle.cm_repo.specs.ServerMachine.{shown_step};
ghost use Rattle.cmis_spec.specs.Repository.{Repository};
ghost use Rattle.cmis_spec.specs.Well.{IsWellFormed};
ghost use Rattle.desk_model.specs.declared.entry.Entry.{Entry};
ghost use Rattle.desk_model.specs.Histories.{replay};

/// Whatever write it is, and whoever asks for it at whatever moment: where it is not refused, what it leaves is well formed.
pub fn step_keeps()
    ensures { (r : Repository) (e : Entry Write) (x : Repository × Reply) → IsWellFormed r → step_of r e ≡ Ok x
        → IsWellFormed x.0 }
{}

/// So is what any list of entries leaves, of which a refused one changes nothing; a legal history and each front of it are such lists.
pub fn replay_keeps()
    ensures { (r : Repository) (h : List (Entry Write)) → IsWellFormed r → IsWellFormed (replay shown_step r h) }
{}
