//! The text of an object (CMIS 1.1, section 2.2.4.8).
ghost use Rattle.std.specs.Prelude.{◌≡◌, IfOk};
ghost use Rattle.serde_json.specs.Written.{compact_text};
ghost use Rattle.cm_base.specs.Judged.{Meets};
ghost use Rattle.include_json.specs.Pages.{reply_data};
ghost use Rattle.rd_include.specs.ShowObject.{answer_included_in, answer_show_object};
ghost use Rattle.include_text.specs.Texts.{included_text};

use crate::bare::{is_bare, is_bare_object};
use bytes::Bytes;
use call_parts::place::Place;
use cm_base::fail::Fail;
use cm_base::text::Text;
use cm_include::included::View;
use cm_state::state::State;
use include_json::pages::reply_json;
use include_parts::readings::ShowObject;
use include_parts::replies::IncludedReply;
use rd_include::object::{included, show_object};
use show_json::one::object_text;
use std::alloc::{AllocError, Global};

fn text_of(alloc: Global, reply: &IncludedReply) -> Result<Bytes, AllocError>
    ensures { IfOk result (λ b. b ≡ compact_text (reply_data reply.now)) }
{
    let json = reply_json(alloc, reply)?;
    let text = json.to_vec(alloc)?;
    let body = Bytes::from_vec(text)?;
    Ok(body)
}

// The reply is made first.
#[tactic(auto, using(cm_types::proofs::Exits::fails_bind))]
fn whole_text(alloc: Global, state: &State, user: &Text, q: &ShowObject) -> Result<Bytes, Fail>
    ensures { Meets (λ y. y) result (included_text (answer_show_object state.now user.now q.now)) }
{
    let reply = show_object(alloc, state, user, q)?;
    let text = text_of(alloc, &reply)?;
    Ok(text)
}

/// The text of an object in the version that is asked for: the compact text of what the reading of it answers.
pub fn show_object_text(
    alloc: Global,
    state: &State,
    user: &Text,
    q: &ShowObject,
) -> Result<Bytes, Fail>
    ensures { Meets (λ y. y) result (included_text (answer_show_object state.now user.now q.now)) }
{
    if is_bare_object(q) {
        let asked = &q.object;
        return object_text(
            alloc,
            state,
            user,
            &asked.place,
            &asked.filter,
            asked.succinct,
        );
    }
    whole_text(alloc, state, user, q)
}

#[tactic(auto, using(cm_types::proofs::Exits::fails_bind))]
fn whole_included(alloc: Global, view: View<'_>, place: &Place) -> Result<Bytes, Fail>
    ensures { Meets (λ y. y) result (included_text (answer_included_in view.entry place.now)) }
{
    let reply = included(alloc, view, place)?;
    let text = text_of(alloc, &reply)?;
    Ok(text)
}

/// The text of the object that is addressed: the compact text of what the reading of it answers.
pub fn included_object_text(alloc: Global, view: View<'_>, place: &Place) -> Result<Bytes, Fail>
    ensures { Meets (λ y. y) result (included_text (answer_included_in view.entry place.now)) }
{
    if is_bare(view.includes) {
        return object_text(
            alloc,
            view.state,
            view.user,
            place,
            view.filter,
            view.succinct,
        );
    }
    whole_included(alloc, view, place)
}
