//! Each call by the crate that makes or answers it.
ghost use Rattle.std.specs.Prelude.{◌≡◌, Result, IfOk};
ghost use Rattle.cm_base.specs.Judged.{Meets, Writes};
ghost use Rattle.cmis_spec.specs.Well.{IsWellFormed};
ghost use Rattle.desk_model.specs.Halts.{Tells};
ghost use Rattle.cm_repo.specs.Calls.{refusal_of, after, acknowledgement, answer_default, answer_of, default_of, step_of};

use cm_base::cause::Cause;
use cm_base::fail::Fail;
use cm_base::number::Moment;
use cm_base::object::Object;
use cm_base::text::Text;
use cm_call::question::Question;
use cm_call::reply::Reply;
use cm_call::write::Write;
use cm_include::included::View;
use cm_see::address::addressed;
use cm_state::state::State;
use cm_types::definition::BaseType;
use desk_model::{Entry, Halt};
use include_parts::readings::ShowDefault;
use rd_access::acl::acl;
use rd_access::policies::policies;
use rd_actions::actions::allowable_actions;
use rd_include::children::show_children;
use rd_include::object::{included, show_object, show_properties};
use rd_include::parents::show_parents;
use rd_include::versions::show_versions;
use rd_lists::parent::parent;
use rd_log::changes::changes;
use rd_query::query::query;
use rd_relationships::relationships::relationships;
use rd_renditions::renditions::renditions;
use rd_trees::checked_out::checked_out;
use rd_trees::tree::tree;
use rd_types::children::type_children;
use rd_types::definition::type_definition;
use rd_types::descendants::type_descendants;
use rd_types::info::info;
use rd_version::content::{content, stream};
use std::alloc::Global;
use wr_access::apply_acl::apply_acl;
use wr_bulk::bulk_update::bulk_update;
use wr_change::update::update;
use wr_content::append_content::append_content;
use wr_content::delete_content::delete_content;
use wr_content::set_content::set_content;
use wr_create::create_item::create_item;
use wr_create::create_policy::create_policy;
use wr_delete_tree::delete_tree::delete_tree;
use wr_filing::add_to_folder::add_to_folder;
use wr_filing::move_object::move_object;
use wr_filing::remove_from_folder::remove_from_folder;
use wr_object::create_document::create_document;
use wr_object::create_folder::create_folder;
use wr_policy::apply_policy::apply_policy;
use wr_policy::remove_policy::remove_policy;
use wr_relationship::create_relationship::create_relationship;
use wr_remove::cancel_check_out::cancel_check_out;
use wr_remove::delete::delete;
use wr_rendition::add_rendition::add_rendition;
use wr_source::create_document_from_source::create_document_from_source;
use wr_types::create_type::create_type;
use wr_types::delete_type::delete_type;
use wr_types::update_type::update_type;
use wr_version::check_in::check_in;
use wr_version::check_out::check_out;

/// Makes a write: the state after it and its reply, or the first cause that refuses it.
pub(crate) fn write(
    alloc: Global,
    state: &State,
    user: &Text,
    moment: Moment,
    call: &Write,
) -> Result<(State, Reply), Fail>
    ensures { Writes result
        (refusal_of state.now user.now moment call.now)
        (after state.now user.now moment call.now)
        (acknowledgement state.now user.now moment call.now) }
{
    match call {
        Write::CreateFolder(call) => {
            let (next, reply) = create_folder(alloc, state, user, moment, call)?;
            Ok((next, Reply::Object(reply)))
        }
        Write::CreateDocument(call) => {
            let (next, reply) = create_document(alloc, state, user, moment, call)?;
            Ok((next, Reply::Object(reply)))
        }
        Write::CheckOut(call) => {
            let (next, reply) = check_out(alloc, state, user, moment, call)?;
            Ok((next, Reply::Object(reply)))
        }
        Write::CheckIn(call) => {
            let (next, reply) = check_in(alloc, state, user, moment, call)?;
            Ok((next, Reply::Object(reply)))
        }
        Write::SetContent(call) => {
            let (next, reply) = set_content(alloc, state, user, moment, call)?;
            Ok((next, Reply::Object(reply)))
        }
        Write::AppendContent(call) => {
            let (next, reply) = append_content(alloc, state, user, moment, call)?;
            Ok((next, Reply::Object(reply)))
        }
        Write::DeleteContent(call) => {
            let (next, reply) = delete_content(alloc, state, user, moment, call)?;
            Ok((next, Reply::Object(reply)))
        }
        Write::Move(call) => {
            let (next, reply) = move_object(alloc, state, user, moment, call)?;
            Ok((next, Reply::Object(reply)))
        }
        Write::AddToFolder(call) => {
            let (next, reply) = add_to_folder(alloc, state, user, moment, call)?;
            Ok((next, Reply::Object(reply)))
        }
        Write::RemoveFromFolder(call) => {
            let (next, reply) = remove_from_folder(alloc, state, user, moment, call)?;
            Ok((next, Reply::Object(reply)))
        }
        Write::Delete(call) => {
            let next = delete(alloc, state, user, moment, call)?;
            Ok((next, Reply::Nothing))
        }
        Write::CancelCheckOut(call) => {
            let next = cancel_check_out(alloc, state, user, moment, call)?;
            Ok((next, Reply::Nothing))
        }
        Write::Update(call) => {
            let (next, reply) = update(alloc, state, user, moment, call)?;
            Ok((next, Reply::Object(reply)))
        }
        Write::ApplyAcl(call) => {
            let (next, reply) = apply_acl(alloc, state, user, moment, call)?;
            Ok((next, Reply::Acl(reply)))
        }
        Write::CreateType(call) => {
            let (next, reply) = create_type(alloc, state, user, moment, call)?;
            Ok((next, Reply::Type(reply)))
        }
        Write::UpdateType(call) => {
            let (next, reply) = update_type(alloc, state, user, moment, call)?;
            Ok((next, Reply::Type(reply)))
        }
        Write::DeleteType(call) => {
            let next = delete_type(alloc, state, user, moment, call)?;
            Ok((next, Reply::Nothing))
        }
        Write::CreateItem(call) => {
            let (next, reply) = create_item(alloc, state, user, moment, call)?;
            Ok((next, Reply::Object(reply)))
        }
        Write::CreatePolicy(call) => {
            let (next, reply) = create_policy(alloc, state, user, moment, call)?;
            Ok((next, Reply::Object(reply)))
        }
        Write::CreateRelationship(call) => {
            let (next, reply) = create_relationship(alloc, state, user, moment, call)?;
            Ok((next, Reply::Object(reply)))
        }
        Write::CreateDocumentFromSource(call) => {
            let (next, reply) = create_document_from_source(alloc, state, user, moment, call)?;
            Ok((next, Reply::Object(reply)))
        }
        Write::DeleteTree(call) => {
            let (next, reply) = delete_tree(alloc, state, user, moment, call)?;
            Ok((next, Reply::DeleteTree(reply)))
        }
        Write::ApplyPolicy(call) => {
            let (next, reply) = apply_policy(alloc, state, user, moment, call)?;
            Ok((next, Reply::Object(reply)))
        }
        Write::RemovePolicy(call) => {
            let next = remove_policy(alloc, state, user, moment, call)?;
            Ok((next, Reply::Nothing))
        }
        Write::BulkUpdate(call) => {
            let (next, reply) = bulk_update(alloc, state, user, moment, call)?;
            Ok((next, Reply::Updated(reply)))
        }
        Write::AddRendition(call) => {
            let (next, reply) = add_rendition(alloc, state, user, moment, call)?;
            Ok((next, Reply::Object(reply)))
        }
    }
}

/// Makes the step of an entry: the state after it and its answer, or the first cause that refuses it. The state stays.
///
/// A state is always well formed, the one after the entry too.
pub fn advance(
    alloc: Global,
    state: &State,
    entry: &Entry<Write>,
) -> Result<(State, Reply), Halt<Cause>>
    ensures told { Tells (step_of state.now entry.now) result }
    ensures well { IfOk result (λ x. IsWellFormed x.0) }
{
    match write(alloc, state, &entry.user, entry.moment, &entry.call) {
        Ok((next, reply)) => {
            let _step = next.step();
            Ok((next, reply))
        }
        Err(Fail::Refused(cause)) => Err(Halt::Refused(cause)),
        Err(Fail::Memory) => Err(Halt::Memory),
    }
}

// What is answered without a selector about what was found.
fn default_of(
    alloc: Global,
    state: &State,
    user: &Text,
    q: &ShowDefault,
    x: &Object,
) -> Result<Reply, Fail>
    ensures { Meets (λ y. y) result (default_of state.now user.now q.now x.now) }
{
    let asked = &q.children.children;
    if state.is_a(BaseType::Folder, x) {
        let reply = show_children(alloc, state, user, &q.children)?;
        return Ok(Reply::Children(reply));
    }
    if state.is_a(BaseType::Document, x) {
        let reply = stream(alloc, state, user, &asked.place, &q.stream)?;
        return Ok(Reply::Content(reply));
    }
    let view = View {
        state,
        user,
        filter: &asked.filter,
        succinct: asked.succinct,
        includes: &q.children.includes,
    };
    let reply = included(alloc, view, &asked.place)?;
    Ok(Reply::Included(reply))
}

fn default(alloc: Global, state: &State, user: &Text, q: &ShowDefault) -> Result<Reply, Fail>
    ensures { Meets (λ y. y) result (answer_default state.now user.now q.now) }
{
    match addressed(state, user, &q.children.children.place) {
        Some(x) => default_of(alloc, state, user, q, x),
        None => Err(Fail::Refused(Cause::NotFound)),
    }
}

/// Answers a user's question at a state, or says why it is refused, or that memory is wanting.
pub fn read(alloc: Global, state: &State, user: &Text, question: &Question) -> Result<Reply, Fail>
    ensures { Meets (λ x. x) result (answer_of state.now user.now question.now) }
{
    match question {
        Question::Object(q) => {
            let reply = show_object(alloc, state, user, q)?;
            Ok(Reply::Included(reply))
        }
        Question::Properties(q) => {
            let reply = show_properties(alloc, state, user, q)?;
            Ok(Reply::Properties(reply))
        }
        Question::Children(q) => {
            let reply = show_children(alloc, state, user, q)?;
            Ok(Reply::Children(reply))
        }
        Question::Content(q) => {
            let reply = content(alloc, state, user, q)?;
            Ok(Reply::Content(reply))
        }
        Question::TypeDefinition(q) => {
            let reply = type_definition(alloc, state, user, q)?;
            Ok(Reply::Type(reply))
        }
        Question::TypeChildren(q) => {
            let reply = type_children(alloc, state, user, q)?;
            Ok(Reply::Types(reply))
        }
        Question::TypeDescendants(q) => {
            let reply = type_descendants(alloc, state, user, q)?;
            Ok(Reply::TypeTree(reply))
        }
        Question::Info(q) => {
            let reply = info(alloc, state, user, q)?;
            Ok(Reply::Info(reply))
        }
        Question::Versions(q) => {
            let reply = show_versions(alloc, state, user, q)?;
            Ok(Reply::IncludedObjects(reply))
        }
        Question::Parent(q) => {
            let reply = parent(alloc, state, user, q)?;
            Ok(Reply::Object(reply))
        }
        Question::Parents(q) => {
            let reply = show_parents(alloc, state, user, q)?;
            Ok(Reply::Parents(reply))
        }
        Question::Policies(q) => {
            let reply = policies(alloc, state, user, q)?;
            Ok(Reply::Objects(reply))
        }
        Question::Acl(q) => {
            let reply = acl(alloc, state, user, q)?;
            Ok(Reply::Acl(reply))
        }
        Question::Query(q) => {
            let reply = query(alloc, state, user, q)?;
            Ok(Reply::Query(reply))
        }
        Question::Tree(q) => {
            let reply = tree(alloc, state, user, q)?;
            Ok(Reply::Tree(reply))
        }
        Question::CheckedOut(q) => {
            let reply = checked_out(alloc, state, user, q)?;
            Ok(Reply::Page(reply))
        }
        Question::Changes(q) => {
            let reply = changes(alloc, state, user, q)?;
            Ok(Reply::Changes(reply))
        }
        Question::Renditions(q) => {
            let reply = renditions(alloc, state, user, q)?;
            Ok(Reply::Renditions(reply))
        }
        Question::Actions(q) => {
            let reply = allowable_actions(alloc, state, user, q)?;
            Ok(Reply::Actions(reply))
        }
        Question::Relationships(q) => {
            let reply = relationships(alloc, state, user, q)?;
            Ok(Reply::Page(reply))
        }
        Question::Default(q) => default(alloc, state, user, q),
    }
}

/// Answers a user's question at a state, or says why it halts.
pub fn answer(
    alloc: Global,
    state: &State,
    user: &Text,
    question: &Question,
) -> Result<Reply, Halt<Cause>>
    ensures { Tells (answer_of state.now user.now question.now) result }
{
    match read(alloc, state, user, question) {
        Ok(reply) => Ok(reply),
        Err(Fail::Refused(cause)) => Err(Halt::Refused(cause)),
        Err(Fail::Memory) => Err(Halt::Memory),
    }
}
