//! The events of the change log, as other users see them.
ghost use Rattle.std.specs.Prelude.{◌≡◌, ◌≤◌, [], ◌∷◌, ◌++◌, map, length, IfOk};
ghost use Rattle.cmis_spec.specs.Seen.{is_deletion, marked, place_among};
ghost use Rattle.cm_people.specs.Adopted.{event_for, marks_for};

use cm_base::copies::Copies;
use cm_base::items::Items;
use cm_base::log::{Change, ChangeKind, Marks};
use cm_base::text::Text;
use cm_log::log::Log;
use std::alloc::{AllocError, Global};

fn place_among(names: &[Text], user: &Text) -> usize
    ensures place { result ≡ place_among names.now user.now }
    ensures few { result ≤ length names.now }
{
    match names {
        [] => 0,
        [name, rest @ ..] => {
            if name.is(user) {
                0
            } else {
                place_among(rest, user) + 1
            }
        }
    }
}

fn marked(marks: &Marks, place: usize) -> bool
    ensures { result ≡ marked marks.now place }
{
    if place < marks.len() {
        marks.as_slice()[place]
    } else {
        false
    }
}

fn is_deletion(kind: ChangeKind) -> bool
    ensures { result ≡ is_deletion kind }
{
    match kind {
        ChangeKind::Deleted => true,
        _ => false,
    }
}

// The marks of users in the order of others.
fn own_marks(
    alloc: Global,
    users: &[Text],
    names: &[Text],
    marks: &Marks,
) -> Result<Marks, AllocError>
    ensures { IfOk result (λ all. all ≡ map (λ name. marked marks.now (place_among users.now name)) names.now) }
{
    let mut all = Items::new(alloc);
    for name in names {
        all.push(marked(marks, place_among(users, name)))?;
    }
    Ok(all)
}

fn marks_for(
    alloc: Global,
    users: &[Text],
    names: &[Text],
    marks: &Marks,
) -> Result<Marks, AllocError>
    ensures { IfOk result (λ all. all ≡ marks_for users.now names.now marks.now) }
{
    let mut all = own_marks(alloc, users, names, marks)?;
    all.push(marked(marks, users.len()))?;
    Ok(all)
}

fn event_for(
    alloc: Global,
    users: &[Text],
    names: &[Text],
    event: &Change,
) -> Result<Change, AllocError>
    ensures { IfOk result (λ c. c ≡ event_for users.now names.now event.now) }
{
    if is_deletion(event.kind) {
        let readers = marks_for(alloc, users, names, &event.readers)?;
        Ok(Change {
            kind: event.kind,
            object: event.object,
            moment: event.moment,
            readers,
        })
    } else {
        event.copied(alloc)
    }
}

// A log with one event more.
fn noted_for(
    alloc: Global,
    users: &[Text],
    names: &[Text],
    log: &Log,
    event: &Change,
) -> Result<Log, AllocError>
    ensures { IfOk result (λ l. l ≡ log.now ++ event_for users.now names.now event.now ∷ []) }
{
    let event = event_for(alloc, users, names, event)?;
    log.note(alloc, event)
}

/// The log with the marks of these users in the order of others.
pub(crate) fn log_for(
    alloc: Global,
    users: &[Text],
    names: &[Text],
    log: &Log,
) -> Result<Log, AllocError>
    ensures { IfOk result (λ l. l ≡ map (event_for users.now names.now) log.now) }
{
    let mut all = Log::empty(alloc);
    for entry in log.iter() {
        let at: &(u64, Change) = entry;
        all = noted_for(alloc, users, names, &all, &at.1)?;
    }
    Ok(all)
}
