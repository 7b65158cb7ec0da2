//! The people of a repository that is replayed.
ghost use Rattle.std.specs.Prelude.{List};
ghost use Rattle.cm_call.specs.declared.write.Write.{Write};
ghost use Rattle.journal_people.specs.Told.{PeopleTold};
ghost use Rattle.journal_replay.specs.declared.record.Record.{Record};
ghost use Rattle.journal_replay.specs.declared.record.Root.{Root};
ghost use Rattle.journal_replay.specs.Recorded.{replayed};
ghost use Rattle.journal_replay.specs.Replayed.{at_root};
ghost use Rattle.cm_repo.specs.Restarting.{begun_at};
ghost use Rattle.people_laws.specs.Peopled.{HasItsPeople, server_steps};

/// Whatever a journal tells, the users and the groups of the repository to which it replays are those of the people that hold.
pub fn repositories_have_their_people()
    ensures { (root : Root PeopleTold) (rs : List (Record Write PeopleTold))
        → HasItsPeople (replayed server_steps (at_root begun_at root) rs) }
{}
