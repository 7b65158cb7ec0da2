//! The place of an entry in another folder.
ghost use Rattle.std.specs.Prelude.{◌≡◌, true, false};
ghost use Rattle.cm_base.specs.Judged.{Meets, Leaves};
ghost use Rattle.cm_folder.specs.Filings.{refusal_shift, shifted};
ghost use Rattle.cm_state.specs.Told.{entries_of};
ghost use Rattle.cmis_spec.specs.Repository.{same, root, is_filed};
ghost use Rattle.wr_filing.specs.MoveObject.{judge_place};

use cm_base::fail::Fail;
use cm_base::number::Oid;
use cm_folder::filing::Filing;
use cm_state::parts::Parts;
use cm_state::state::State;
use std::alloc::Global;

// The filing with the entry in the other folder, or the cause.
fn shifted(
    alloc: Global,
    parts: &Parts,
    child: Oid,
    source: Oid,
    target: Oid,
) -> Result<Filing, Fail>
    ensures { Leaves result
        (refusal_shift (entries_of parts.now) child source target)
        (shifted (entries_of parts.now) child source target) }
{
    parts.filing.shift(alloc, child, source, target)
}

/// There is a place in the target for the entry of the source, which is another folder.
pub(crate) fn judge_place(
    alloc: Global,
    state: &State,
    child: Oid,
    source: Oid,
    target: Oid,
) -> Result<(), Fail>
    requires no_root { same child root ≡ false }
    requires filed { is_filed state.now source child ≡ true }
    requires other { same source target ≡ false }
    requires unfiled { is_filed state.now target child ≡ false }
    ensures { Meets (λ x. x) result (judge_place state.now child target) }
{
    let _step = state.step();
    match shifted(alloc, state.parts(), child, source, target) {
        Ok(_moved) => Ok(()),
        Err(fail) => Err(fail),
    }
}
