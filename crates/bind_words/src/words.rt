//! The words of actions and selectors.
ghost use Rattle.std.specs.Prelude.{◌≡◌, find};
ghost use Rattle.std.specs.Option.{option_copied};
ghost use Rattle.cm_base.specs.declared.cause.Cause.TheVariants as causes;
ghost use Rattle.cm_base.specs.Judged.{Meets, find_or};
ghost use Rattle.bind_words.specs.Words.{word_of, is_action, is_by, is_query, is_of_repository, is_at_repository, is_at, all_services, is_named, unnamed, argument_of, service_of};

use bind_form::form::Method;
use cm_base::argument::Argument;
use cm_base::cause::Cause;
use cm_base::copies::Copies;
use cm_base::fail::Fail;
use cm_base::text::Text;
use form_args::pairs::Pairs;
use request_target::target::Target;
use std::alloc::Global;

const CMIS_ACTION: &str = "cmisaction";

const CMIS_SELECTOR: &str = "cmisselector";

/// The services that are served.
#[derive(Clone, Copy, Debug, PartialEq, Eq)]
pub enum Service {
    CreateFolder,
    CreateDocument,
    CheckOut,
    CheckIn,
    Object,
    Properties,
    Children,
    Content,
    TypeDefinition,
    TypeChildren,
    TypeDescendants,
    Info,
    SetContent,
    AppendContent,
    DeleteContent,
    Versions,
    Parent,
    Parents,
    Move,
    AddToFolder,
    RemoveFromFolder,
    Policies,
    Acl,
    Query,
    Delete,
    CancelCheckOut,
    Update,
    ApplyAcl,
    Descendants,
    FolderTree,
    CheckedOut,
    Changes,
    CreateType,
    UpdateType,
    DeleteType,
    CreateItem,
    CreatePolicy,
    CreateRelationship,
    CreateDocumentFromSource,
    DeleteTree,
    ApplyPolicy,
    RemovePolicy,
    BulkUpdate,
    AddRendition,
    Renditions,
    Actions,
    Relationships,
    /// An object without a selector.
    Default,
}

fn word_of(service: Service) -> &'static str
    ensures { result.now ≡ word_of service }
{
    match service {
        Service::CreateFolder => "createFolder",
        Service::CreateDocument => "createDocument",
        Service::CheckOut => "checkOut",
        Service::CheckIn => "checkIn",
        Service::Object => "object",
        Service::Properties => "properties",
        Service::Children => "children",
        Service::Content => "content",
        Service::TypeDefinition => "typeDefinition",
        Service::TypeChildren => "typeChildren",
        Service::TypeDescendants => "typeDescendants",
        Service::Info => "repositoryInfo",
        Service::SetContent => "setContent",
        Service::AppendContent => "appendContent",
        Service::DeleteContent => "deleteContent",
        Service::Versions => "versions",
        Service::Parent => "parent",
        Service::Parents => "parents",
        Service::Move => "move",
        Service::AddToFolder => "addObjectToFolder",
        Service::RemoveFromFolder => "removeObjectFromFolder",
        Service::Policies => "policies",
        Service::Acl => "acl",
        Service::Query => "query",
        Service::Delete => "delete",
        Service::CancelCheckOut => "cancelCheckOut",
        Service::Update => "update",
        Service::ApplyAcl => "applyACL",
        Service::Descendants => "descendants",
        Service::FolderTree => "folderTree",
        Service::CheckedOut => "checkedout",
        Service::Changes => "contentChanges",
        Service::CreateType => "createType",
        Service::UpdateType => "updateType",
        Service::DeleteType => "deleteType",
        Service::CreateItem => "createItem",
        Service::CreatePolicy => "createPolicy",
        Service::CreateRelationship => "createRelationship",
        Service::CreateDocumentFromSource => "createDocumentFromSource",
        Service::DeleteTree => "deleteTree",
        Service::ApplyPolicy => "applyPolicy",
        Service::RemovePolicy => "removePolicy",
        Service::BulkUpdate => "bulkUpdate",
        Service::AddRendition => "addRendition",
        Service::Renditions => "renditions",
        Service::Actions => "allowableActions",
        Service::Relationships => "relationships",
        Service::Default => "",
    }
}

fn is_action(service: Service) -> bool
    ensures { result ≡ is_action service }
{
    match service {
        Service::CreateFolder => true,
        Service::CreateDocument => true,
        Service::CheckOut => true,
        Service::CheckIn => true,
        Service::SetContent => true,
        Service::AppendContent => true,
        Service::DeleteContent => true,
        Service::Move => true,
        Service::AddToFolder => true,
        Service::RemoveFromFolder => true,
        Service::Delete => true,
        Service::CancelCheckOut => true,
        Service::Update => true,
        Service::ApplyAcl => true,
        Service::CreateType => true,
        Service::UpdateType => true,
        Service::DeleteType => true,
        Service::CreateItem => true,
        Service::CreatePolicy => true,
        Service::CreateRelationship => true,
        Service::CreateDocumentFromSource => true,
        Service::DeleteTree => true,
        Service::ApplyPolicy => true,
        Service::RemovePolicy => true,
        Service::BulkUpdate => true,
        Service::AddRendition => true,
        _ => false,
    }
}

// A query may be sent as a form too, since its text may be long.
fn is_query(service: Service) -> bool
    ensures { result ≡ is_query service }
{
    match service {
        Service::Query => true,
        _ => false,
    }
}

fn is_by(method: Method, service: Service) -> bool
    ensures { result ≡ is_by method service }
{
    match method {
        Method::Get => !is_action(service),
        Method::Post => is_action(service) || is_query(service),
    }
}

fn is_of_repository(service: Service) -> bool
    ensures { result ≡ is_of_repository service }
{
    match service {
        Service::TypeDefinition => true,
        Service::TypeChildren => true,
        Service::TypeDescendants => true,
        Service::Info => true,
        Service::Changes => true,
        Service::Query => true,
        Service::CreateType => true,
        Service::UpdateType => true,
        Service::DeleteType => true,
        Service::BulkUpdate => true,
        _ => false,
    }
}

fn is_at_repository(service: Service) -> bool
    ensures { result ≡ is_at_repository service }
{
    match service {
        Service::CreateDocument => true,
        Service::CheckedOut => true,
        Service::CreateItem => true,
        Service::CreatePolicy => true,
        Service::CreateRelationship => true,
        Service::CreateDocumentFromSource => true,
        _ => is_of_repository(service),
    }
}

fn is_at(target: &Target, service: Service) -> bool
    ensures { result ≡ is_at target.now service }
{
    match target {
        Target::Service => false,
        Target::Repository => is_at_repository(service),
        Target::Object(_) => !is_of_repository(service),
    }
}

fn is_named(method: Method, target: &Target, word: &str, service: Service) -> bool
    ensures { result ≡ is_named method target.now word.now service }
{
    is_by(method, service) && is_at(target, service) && word_of(service) == word
}

fn find_service<'a>(
    method: Method,
    target: &Target,
    word: &str,
    all: &'a [Service],
) -> Option<&'a Service>
    ensures { option_copied result ≡ find (is_named method target.now word.now) all.now }
{
    all.iter().find(|s| is_named(method, target, word, **s))
}

fn first_service(method: Method, target: &Target, word: &str, all: &[Service]) -> Option<Service>
    ensures { result ≡ find (is_named method target.now word.now) all.now }
{
    match find_service(method, target, word, all) {
        Some(service) => Some(*service),
        None => None,
    }
}

fn service_named(method: Method, target: &Target, word: &str) -> Option<Service>
    ensures { result ≡ find (is_named method target.now word.now) all_services }
{
    first_service(
        method,
        target,
        word,
        &[
            Service::CreateFolder,
            Service::CreateDocument,
            Service::CheckOut,
            Service::CheckIn,
            Service::Object,
            Service::Properties,
            Service::Children,
            Service::Content,
            Service::TypeDefinition,
            Service::TypeChildren,
            Service::TypeDescendants,
            Service::Info,
            Service::SetContent,
            Service::AppendContent,
            Service::DeleteContent,
            Service::Versions,
            Service::Parent,
            Service::Parents,
            Service::Move,
            Service::AddToFolder,
            Service::RemoveFromFolder,
            Service::Policies,
            Service::Acl,
            Service::Query,
            Service::Delete,
            Service::CancelCheckOut,
            Service::Update,
            Service::ApplyAcl,
            Service::Descendants,
            Service::FolderTree,
            Service::CheckedOut,
            Service::Changes,
            Service::CreateType,
            Service::UpdateType,
            Service::DeleteType,
            Service::CreateItem,
            Service::CreatePolicy,
            Service::CreateRelationship,
            Service::CreateDocumentFromSource,
            Service::DeleteTree,
            Service::ApplyPolicy,
            Service::RemovePolicy,
            Service::BulkUpdate,
            Service::AddRendition,
            Service::Renditions,
            Service::Actions,
            Service::Relationships,
        ],
    )
}

fn unnamed(method: Method, target: &Target) -> Result<Service, Cause>
    ensures { result ≡ unnamed method target.now }
{
    match method {
        Method::Get => match target {
            Target::Object(_) => Ok(Service::Default),
            _ => Ok(Service::Info),
        },
        Method::Post => Err(Cause::MissingArgument(Argument::named(CMIS_ACTION))),
    }
}

fn argument_of(method: Method) -> &'static str
    ensures { result.now ≡ argument_of method }
{
    match method {
        Method::Get => CMIS_SELECTOR,
        Method::Post => CMIS_ACTION,
    }
}

fn served(alloc: Global, word: &Text, service: Option<Service>) -> Result<Service, Fail>
    ensures { Meets (λ s. s) result (find_or (causes.NotServed word.now) service) }
{
    match service {
        Some(service) => Ok(service),
        None => {
            let word = word.copied(alloc)?;
            Err(Fail::Refused(Cause::NotServed(word)))
        }
    }
}

/// What the selector of a GET or the action of a POST names; without a selector, an object by its kind, or else the repository's
/// information. A word that is not served there is NotServed; an action that is not given is MissingArgument.
pub fn service_of(
    alloc: Global,
    method: Method,
    target: &Target,
    pairs: &Pairs,
) -> Result<Service, Fail>
    ensures { Meets (λ s. s) result (service_of method target.now pairs.now) }
{
    match pairs.first(argument_of(method)) {
        None => match unnamed(method, target) {
            Ok(service) => Ok(service),
            Err(cause) => Err(Fail::Refused(cause)),
        },
        Some(word) => served(alloc, word, service_named(method, target, word.as_str())),
    }
}
