//! The events of a deletion, and who read what goes (CMIS 1.1, section 2.1.15).
ghost use Rattle.std.specs.Prelude.{◌≡◌, [], ◌∷◌, ◌++◌, IfOk, map};
ghost use Rattle.cmis_spec.specs.Access.{reads};
ghost use Rattle.cmis_spec.specs.Removal.{readers_of, marks_at, deletion};

use cm_base::items::Items;
use cm_base::log::{ChangeKind, Marks};
use cm_base::number::{Moment, Oid};
use cm_base::object::Object;
use cm_base::text::Text;
use cm_draft::draft::Draft;
use cm_see::read::reads;
use cm_state::state::State;
use std::alloc::{AllocError, Global};

fn with_mark(marks: Marks, mark: bool) -> Result<Marks, AllocError>
    ensures { IfOk result (λ all. all ≡ marks ++ mark ∷ []) }
{
    let mut all = marks;
    all.push(mark)?;
    Ok(all)
}

fn marks_of(alloc: Global, state: &State, users: &[Text], x: &Object) -> Result<Marks, AllocError>
    ensures { IfOk result (λ all. all ≡ map (λ u. reads state.now u x.now) users.now) }
{
    let mut marks = Items::new(alloc);
    for user in users {
        marks = with_mark(marks, reads(state, user, x))?;
    }
    Ok(marks)
}

fn readers_of(alloc: Global, state: &State, x: &Object) -> Result<Marks, AllocError>
    ensures { IfOk result (λ all. all ≡ readers_of state.now x.now) }
{
    let marks = marks_of(alloc, state, state.users().as_slice(), x)?;
    let anybody = Text::from_str(alloc, "anonymous")?;
    let all = with_mark(marks, reads(state, &anybody, x))?;
    Ok(all)
}

fn marks_at(alloc: Global, state: &State, n: Oid) -> Result<Marks, AllocError>
    ensures { IfOk result (λ all. all ≡ marks_at state.now n) }
{
    match state.object(n) {
        Some(x) => readers_of(alloc, state, x),
        None => Ok(Items::new(alloc)),
    }
}

/// The draft with an event for each of these objects, which keeps who read it in the state.
pub(crate) fn noted(
    alloc: Global,
    state: &State,
    draft: Draft,
    moment: Moment,
    gone: &[Oid],
) -> Result<Draft, AllocError>
    ensures { IfOk result (λ d. d ≡ record draft { log = draft.log ++ map (deletion state.now moment) gone.now }) }
{
    let mut told = draft;
    for n in gone {
        let readers = marks_at(alloc, state, *n)?;
        told = told.noted(alloc, ChangeKind::Deleted, *n, moment, readers)?;
    }
    Ok(told)
}
