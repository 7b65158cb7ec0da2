//! What is told of sessions whose journal ends with the process.
ghost use Rattle.std.specs.Prelude.{◌≢◌};
ghost use Rattle.desk_model.specs.declared.keeper.Nowhere.{Nowhere};
ghost use Rattle.desk_lock.specs.Words.{HasFailed};
ghost use Rattle.talk.specs.declared.end.End.{End};
ghost use Rattle.talk.specs.declared.end.End.TheVariants.{Unkept};
ghost use Rattle.talk.specs.Talked.{IfUnkept};

/// A keeper of nothing never fails: no session ends for a reply that could not be kept.
#[tactic(auto, using(crate::proofs::Noting::all_kept))]
pub fn nowhere_keeps_all()
    ensures { (end : End) → IfUnkept end (HasFailed (λ (k : Nowhere). 0)) → end ≢ Unkept }
{}
