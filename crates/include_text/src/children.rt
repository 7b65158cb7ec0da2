//! The text of a page of children (CMIS 1.1, section 2.2.3.1).
ghost use Rattle.std.specs.Prelude.{◌≡◌, IfOk};
ghost use Rattle.serde_json.specs.Written.{compact_text};
ghost use Rattle.cm_base.specs.Judged.{Meets};
ghost use Rattle.include_json.specs.Pages.{children_data};
ghost use Rattle.rd_include.specs.ShowChildren.{answer_show_children};
ghost use Rattle.include_text.specs.Texts.{included_children_text};

use crate::bare::are_bare_children;
use bytes::Bytes;
use cm_base::fail::Fail;
use cm_base::text::Text;
use cm_state::state::State;
use include_json::pages::children_json;
use include_parts::readings::ShowChildren;
use include_parts::replies::IncludedChildrenReply;
use rd_include::children::show_children;
use show_json::children::children_text;
use std::alloc::{AllocError, Global};

fn text_of(alloc: Global, reply: &IncludedChildrenReply) -> Result<Bytes, AllocError>
    ensures { IfOk result (λ b. b ≡ compact_text (children_data reply.now)) }
{
    let json = children_json(alloc, reply)?;
    let text = json.to_vec(alloc)?;
    let body = Bytes::from_vec(text)?;
    Ok(body)
}

// The reply is made first.
#[tactic(auto, using(cm_types::proofs::Exits::fails_bind))]
fn whole_text(alloc: Global, state: &State, user: &Text, q: &ShowChildren) -> Result<Bytes, Fail>
    ensures { Meets (λ y. y) result (included_children_text (answer_show_children state.now user.now q.now)) }
{
    let reply = show_children(alloc, state, user, q)?;
    let text = text_of(alloc, &reply)?;
    Ok(text)
}

/// The text of a page of the children that the caller reads: the compact text of what the reading of children answers.
pub fn show_children_text(
    alloc: Global,
    state: &State,
    user: &Text,
    q: &ShowChildren,
) -> Result<Bytes, Fail>
    ensures { Meets (λ y. y) result (included_children_text (answer_show_children state.now user.now q.now)) }
{
    if are_bare_children(q) {
        return children_text(alloc, state, user, &q.children);
    }
    whole_text(alloc, state, user, q)
}
