//! appendContent (CMIS 1.1, section 2.2.4.19).
ghost use Rattle.std.specs.Prelude.{◌≡◌, ◌+◌, ◌++◌, ◌<◌, ◌≤◌, ◌^◌, Ok, Some, IfOk, length};
ghost use Rattle.cm_base.specs.Judged.{Writes};
ghost use Rattle.cm_see.specs.Addressed.{addressed};
ghost use Rattle.cmis_spec.specs.Repository.{longest_stream};
ghost use Rattle.cmis_spec.specs.Well.{IsWellFormed};
ghost use Rattle.wr_content.specs.Document.{FindsOr};
ghost use Rattle.wr_content.specs.AppendContent.{cost_append_content, bytes_of, grows_too_long, with_more, content_appended, judge_growth, refusal_append_content, after_append_content, acknowledgement_append_content};

use crate::document::{changed_by, filled, is_barred, judge_document};
use crate::pieces::appended;
use call_parts::changes::AppendContent;
use call_parts::replies::ObjectReply;
use call_parts::stream::GivenStream;
use call_parts::weight::weight_of_append;
use cm_base::cause::Cause;
use cm_base::content::{Content, Stream};
use cm_base::copies::Copies;
use cm_base::fail::Fail;
use cm_base::number::Moment;
use cm_base::object::Object;
use cm_base::text::Text;
use cm_see::address::addressed;
use cm_state::state::State;
use std::alloc::{AllocError, Global};
use wr_rules::content::{content_of_stream, longest_stream};
use wr_rules::copied::name_of;
use wr_rules::made::with_changed;
use wr_rules::retention::judge_kept;
use wr_rules::storage::judge_storage;

// How many bytes the document has.
fn length_of(state: &State, x: &Object) -> u64
    ensures { result ≡ length (bytes_of state.now x.now) }
{
    match state.content(x.id) {
        Some(content) => content.stream.pieces.len(),
        None => 0,
    }
}

// Whether it would have more bytes than a content may have.
#[tactic(auto, unfolding(cmis_spec::specs::Repository::longest_stream))]
fn grows_too_long(state: &State, call: &AppendContent, x: &Object) -> bool
    ensures { result ≡ grows_too_long state.now call.now x.now }
{
    let old = length_of(state, x);
    longest_stream() < old.saturating_add(call.stream.pieces.len())
}

// Whether the document may have more bytes.
fn judge_growth(state: &State, call: &AppendContent, x: &Object) -> Result<(), Cause>
    ensures { result ≡ judge_growth state.now call.now x.now }
{
    if is_barred(state, x) {
        return Err(Cause::StreamNot);
    }
    if grows_too_long(state, call, x) {
        return Err(Cause::StreamLong);
    }
    Ok(())
}

// The document that is addressed, or the cause of the refusal.
#[tactic(auto, using(cm_types::proofs::Exits::fails_then, cm_types::proofs::Exits::fails_bind))]
fn judge<'a>(
    alloc: Global,
    state: &'a State,
    user: &Text,
    moment: Moment,
    call: &AppendContent,
) -> Result<&'a Object, Fail>
    ensures { FindsOr (λ x. x.now) result
        (refusal_append_content state.now user.now moment (cost_append_content call.now) call.now)
        (addressed state.now user.now call.now.place) }
{
    judge_storage(state, weight_of_append(call))?;
    let x = addressed(state, user, &call.place).ok_or(Cause::NotFound)?;
    judge_document(alloc, state, user, &call.token, x)?;
    judge_growth(state, call, x)?;
    judge_kept(state, moment, x)?;
    Ok(x)
}

// The same content with the bytes of the stream at its end.
fn with_more(
    alloc: Global,
    step: u64,
    stream: &GivenStream,
    content: &Content,
) -> Result<Content, AllocError>
    requires fits { length content.now.stream.pieces + length stream.now.pieces < 2 ^ 64 }
    ensures { IfOk result (λ c. c ≡ with_more step stream.now content.now) }
{
    let kind = content.stream.kind.copied(alloc)?;
    let file = content.stream.file.copied(alloc)?;
    let pieces = appended(alloc, &content.stream.pieces, &stream.pieces)?;
    Ok(Content {
        of: content.of,
        stream: Stream { kind, file, pieces },
        step,
    })
}

// A document without content takes the stream as it is.
fn content_appended(
    alloc: Global,
    state: &State,
    call: &AppendContent,
    x: &Object,
) -> Result<Content, AllocError>
    requires room { state.now.step + 1 < 2 ^ 64 }
    requires fits { length (bytes_of state.now x.now) + length call.now.stream.pieces < 2 ^ 64 }
    ensures { IfOk result (λ c. c ≡ content_appended state.now call.now x.now) }
{
    let step = state.step() + 1;
    match state.content(x.id) {
        Some(content) => with_more(alloc, step, &call.stream, content),
        None => {
            let name = Text::from_str(alloc, name_of(state, x))?;
            content_of_stream(alloc, x.id, &name, step, &call.stream)
        }
    }
}

// The state in which the document that the call addresses has more bytes.
fn with_bytes(
    alloc: Global,
    state: &State,
    user: &Text,
    moment: Moment,
    call: &AppendContent,
    x: &Object,
) -> Result<State, AllocError>
    requires allowed { refusal_append_content state.now user.now moment (cost_append_content call.now) call.now
        ≡ Ok tt }
    requires found { addressed state.now user.now call.now.place ≡ Some x.now }
    ensures { IfOk result (λ s. s
        ≡ after_append_content state.now user.now moment (cost_append_content call.now) call.now) }
{
    let _step = state.step();
    let changed = changed_by(alloc, state, user, moment, x)?;
    let content = content_appended(alloc, state, call, x)?;
    let made = filled(alloc, state, changed, content, weight_of_append(call))?;
    Ok(made)
}

/// Adds bytes at the end of the content of a document. The cost is the weight of the call.
///
/// The answer is the first cause that refuses the call, or the repository after it and the document as the caller sees it there.
pub fn append_content(
    alloc: Global,
    state: &State,
    user: &Text,
    moment: Moment,
    call: &AppendContent,
) -> Result<(State, ObjectReply), Fail>
    ensures written { Writes result
        (refusal_append_content state.now user.now moment (cost_append_content call.now) call.now)
        (after_append_content state.now user.now moment (cost_append_content call.now) call.now)
        (acknowledgement_append_content state.now user.now moment
        (cost_append_content call.now) call.now) }
    ensures well { IfOk result (λ x. IsWellFormed x.0) }
{
    let _step = state.step();
    let x = judge(alloc, state, user, moment, call)?;
    let made = with_bytes(alloc, state, user, moment, call, x)?;
    let (next, reply) = with_changed(alloc, made, user, call.succinct, x.id)?;
    let _next_step = next.step();
    Ok((next, reply))
}
