//! Why a write is refused, at another moment.
ghost use Rattle.std.specs.Prelude.{◌≡◌, ℕ, false, List, Err};
ghost use Rattle.cm_base.specs.declared.cause.Cause.{Cause};
ghost use Rattle.cm_base.specs.declared.number.Moment.{Moment};
ghost use Rattle.cm_call.specs.declared.write.Write.{Write};
ghost use Rattle.cm_repo.specs.Calls.{refusal_of};
ghost use Rattle.cmis_spec.specs.Repository.{Repository};
ghost use Rattle.write_laws.specs.Moments.{is_of_retention};

/// What refuses a write at one moment and is no cause of retention refuses it at each moment.
pub fn refused_at_each_moment()
    ensures { (r : Repository) (u : List ℕ) (m n : Moment) (call : Write) (cause : Cause)
        → refusal_of r u m call ≡ Err cause → is_of_retention cause ≡ false → refusal_of r u n call ≡ Err cause }
{}
