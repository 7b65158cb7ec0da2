//! What a request asks.
ghost use Rattle.std.specs.Prelude.{◌≡◌};
ghost use Rattle.cm_base.specs.Judged.{Meets};
ghost use Rattle.bind_read.specs.Calls.{bound, call_of_request};

use bind_form::form::{form_of, method_of};
use bind_parts::asking::{Asking, host_of, with_query};
use bind_readings::access::{acl_of, parent_of, policies_of};
use bind_readings::actions::actions_of;
use bind_readings::children::{show_children_of, show_default_of};
use bind_readings::documents::content_of;
use bind_readings::info::info_of;
use bind_readings::lists::{show_parents_of, show_versions_of};
use bind_readings::log::changes_of;
use bind_readings::objects::{show_object_of, show_properties_of};
use bind_readings::query::query_of as query_asked;
use bind_readings::relationships::relationships_of;
use bind_readings::renditions::renditions_of;
use bind_readings::trees::{checked_out_of, descendants_of, folder_tree_of};
use bind_readings::types::{type_children_of, type_definition_of, type_descendants_of};
use bind_words::words::{Service, service_of};
use bind_writes::acl::apply_acl_of;
use bind_writes::bulk::bulk_update_of;
use bind_writes::content::{append_content_of, delete_content_of, set_content_of};
use bind_writes::create::{create_item_of, create_policy_of, create_relationship_of};
use bind_writes::create_document::create_document_of;
use bind_writes::create_folder::create_folder_of;
use bind_writes::delete::delete_of;
use bind_writes::delete_tree::delete_tree_of;
use bind_writes::filing::{add_to_folder_of, move_of, remove_from_folder_of};
use bind_writes::policy::{apply_policy_of, remove_policy_of};
use bind_writes::rendition::add_rendition_of;
use bind_writes::source::create_document_from_source_of;
use bind_writes::type_change::{create_type_of, delete_type_of, update_type_of};
use bind_writes::update::update_of;
use bind_writes::versioning::{cancel_check_out_of, check_in_of, check_out_of};
use cm_base::asked::Asked;
use cm_base::fail::Fail;
use cm_call::question::Question;
use cm_call::write::Write;
use http_caller::least_of;
use http_wire::Request;
use request_target::target::{query_of, target_of};
use std::alloc::Global;

fn bound(alloc: Global, service: Service, asking: &Asking) -> Result<Asked<Write, Question>, Fail>
    ensures { Meets (λ a. a) result (bound service asking.now) }
{
    match service {
        Service::CreateFolder => {
            let call = create_folder_of(alloc, asking)?;
            Ok(Asked::Write(Write::CreateFolder(call)))
        }
        Service::CreateDocument => {
            let call = create_document_of(alloc, asking)?;
            Ok(Asked::Write(Write::CreateDocument(call)))
        }
        Service::CheckOut => {
            let call = check_out_of(alloc, asking)?;
            Ok(Asked::Write(Write::CheckOut(call)))
        }
        Service::CheckIn => {
            let call = check_in_of(alloc, asking)?;
            Ok(Asked::Write(Write::CheckIn(call)))
        }
        Service::Object => {
            let question = show_object_of(alloc, asking)?;
            Ok(Asked::Question(Question::Object(question)))
        }
        Service::Properties => {
            let question = show_properties_of(alloc, asking)?;
            Ok(Asked::Question(Question::Properties(question)))
        }
        Service::Children => {
            let question = show_children_of(alloc, asking)?;
            Ok(Asked::Question(Question::Children(question)))
        }
        Service::Content => {
            let question = content_of(alloc, asking)?;
            Ok(Asked::Question(Question::Content(question)))
        }
        Service::TypeDefinition => {
            let question = type_definition_of(alloc, asking)?;
            Ok(Asked::Question(Question::TypeDefinition(question)))
        }
        Service::TypeChildren => {
            let question = type_children_of(alloc, asking)?;
            Ok(Asked::Question(Question::TypeChildren(question)))
        }
        Service::TypeDescendants => {
            let question = type_descendants_of(alloc, asking)?;
            Ok(Asked::Question(Question::TypeDescendants(question)))
        }
        Service::Info => {
            let question = info_of(alloc, asking)?;
            Ok(Asked::Question(Question::Info(question)))
        }
        Service::SetContent => {
            let call = set_content_of(alloc, asking)?;
            Ok(Asked::Write(Write::SetContent(call)))
        }
        Service::AppendContent => {
            let call = append_content_of(alloc, asking)?;
            Ok(Asked::Write(Write::AppendContent(call)))
        }
        Service::DeleteContent => {
            let call = delete_content_of(alloc, asking)?;
            Ok(Asked::Write(Write::DeleteContent(call)))
        }
        Service::Versions => {
            let question = show_versions_of(alloc, asking)?;
            Ok(Asked::Question(Question::Versions(question)))
        }
        Service::Parent => {
            let question = parent_of(alloc, asking)?;
            Ok(Asked::Question(Question::Parent(question)))
        }
        Service::Parents => {
            let question = show_parents_of(alloc, asking)?;
            Ok(Asked::Question(Question::Parents(question)))
        }
        Service::Move => {
            let call = move_of(alloc, asking)?;
            Ok(Asked::Write(Write::Move(call)))
        }
        Service::AddToFolder => {
            let call = add_to_folder_of(alloc, asking)?;
            Ok(Asked::Write(Write::AddToFolder(call)))
        }
        Service::RemoveFromFolder => {
            let call = remove_from_folder_of(alloc, asking)?;
            Ok(Asked::Write(Write::RemoveFromFolder(call)))
        }
        Service::Policies => {
            let question = policies_of(alloc, asking)?;
            Ok(Asked::Question(Question::Policies(question)))
        }
        Service::Acl => {
            let question = acl_of(alloc, asking)?;
            Ok(Asked::Question(Question::Acl(question)))
        }
        Service::Query => {
            let question = query_asked(alloc, asking)?;
            Ok(Asked::Question(Question::Query(question)))
        }
        Service::Delete => {
            let call = delete_of(alloc, asking)?;
            Ok(Asked::Write(Write::Delete(call)))
        }
        Service::CancelCheckOut => {
            let call = cancel_check_out_of(alloc, asking)?;
            Ok(Asked::Write(Write::CancelCheckOut(call)))
        }
        Service::Update => {
            let call = update_of(alloc, asking)?;
            Ok(Asked::Write(Write::Update(call)))
        }
        Service::ApplyAcl => {
            let call = apply_acl_of(alloc, asking)?;
            Ok(Asked::Write(Write::ApplyAcl(call)))
        }
        Service::Descendants => {
            let question = descendants_of(alloc, asking)?;
            Ok(Asked::Question(Question::Tree(question)))
        }
        Service::FolderTree => {
            let question = folder_tree_of(alloc, asking)?;
            Ok(Asked::Question(Question::Tree(question)))
        }
        Service::CheckedOut => {
            let question = checked_out_of(alloc, asking)?;
            Ok(Asked::Question(Question::CheckedOut(question)))
        }
        Service::Changes => match changes_of(asking) {
            Ok(question) => Ok(Asked::Question(Question::Changes(question))),
            Err(cause) => Err(Fail::Refused(cause)),
        },
        Service::CreateType => {
            let call = create_type_of(alloc, asking)?;
            Ok(Asked::Write(Write::CreateType(call)))
        }
        Service::UpdateType => {
            let call = update_type_of(alloc, asking)?;
            Ok(Asked::Write(Write::UpdateType(call)))
        }
        Service::DeleteType => {
            let call = delete_type_of(alloc, asking)?;
            Ok(Asked::Write(Write::DeleteType(call)))
        }
        Service::CreateItem => {
            let call = create_item_of(alloc, asking)?;
            Ok(Asked::Write(Write::CreateItem(call)))
        }
        Service::CreatePolicy => {
            let call = create_policy_of(alloc, asking)?;
            Ok(Asked::Write(Write::CreatePolicy(call)))
        }
        Service::CreateRelationship => {
            let call = create_relationship_of(alloc, asking)?;
            Ok(Asked::Write(Write::CreateRelationship(call)))
        }
        Service::CreateDocumentFromSource => {
            let call = create_document_from_source_of(alloc, asking)?;
            Ok(Asked::Write(Write::CreateDocumentFromSource(call)))
        }
        Service::DeleteTree => {
            let call = delete_tree_of(alloc, asking)?;
            Ok(Asked::Write(Write::DeleteTree(call)))
        }
        Service::ApplyPolicy => {
            let call = apply_policy_of(alloc, asking)?;
            Ok(Asked::Write(Write::ApplyPolicy(call)))
        }
        Service::RemovePolicy => {
            let call = remove_policy_of(alloc, asking)?;
            Ok(Asked::Write(Write::RemovePolicy(call)))
        }
        Service::BulkUpdate => {
            let call = bulk_update_of(alloc, asking)?;
            Ok(Asked::Write(Write::BulkUpdate(call)))
        }
        Service::AddRendition => {
            let call = add_rendition_of(alloc, asking)?;
            Ok(Asked::Write(Write::AddRendition(call)))
        }
        Service::Renditions => {
            let question = renditions_of(alloc, asking)?;
            Ok(Asked::Question(Question::Renditions(question)))
        }
        Service::Actions => {
            let question = actions_of(alloc, asking)?;
            Ok(Asked::Question(Question::Actions(question)))
        }
        Service::Relationships => {
            let question = relationships_of(alloc, asking)?;
            Ok(Asked::Question(Question::Relationships(question)))
        }
        Service::Default => {
            let question = show_default_of(alloc, asking)?;
            Ok(Asked::Question(Question::Default(question)))
        }
    }
}

/// What a request asks, or the first cause why it asks nothing, in this order: the method, the address, the form, the action or
/// selector, the CMIS-Step field, and the arguments of the call in their order.
#[tactic(auto, using(cm_types::proofs::Exits::fails_bind))]
pub fn call_of(alloc: Global, request: &Request) -> Result<Asked<Write, Question>, Fail>
    ensures { Meets (λ a. a) result (call_of_request request.now) }
{
    let head = request.head();
    let method = method_of(head.method())?;
    let target = target_of(alloc, head.target())?;
    let parts = form_of(alloc, method, request)?;
    let form = with_query(alloc, parts, query_of(head.target()))?;
    let service = service_of(alloc, method, &target, &form.pairs)?;
    let _step = least_of(head)?;
    let asking = Asking {
        address: target,
        form,
        host: host_of(alloc, head)?,
    };
    bound(alloc, service, &asking)
}
