//! Requests by number: each tenth makes a folder in the root, and the nine after it make documents in that folder.
ghost use Rattle.std.specs.Prelude.{◌≡◌, string_bytes, IfOk, OnOk, ◌++◌};
ghost use Rattle.std.specs.List.{flat_map};
ghost use Rattle.load_requests.specs.Requests.{folder_name, document_name, folder_path, indexed, control, property, action_control, properties, form, request_line, fields, length_line, head, posted, creates, makes_folder, makes_document, request};

use std::alloc::{AllocError, Global};

/// Every so many requests a folder is made.
const FOLDER_EVERY: u64 = 10;

fn folder_name(alloc: Global, i: u64) -> Result<String, AllocError>
    ensures { IfOk result (λ s. string_bytes s ≡ folder_name i) }
{
    format!(in alloc; "f{i}")
}

fn document_name(alloc: Global, i: u64) -> Result<String, AllocError>
    ensures { IfOk result (λ s. string_bytes s ≡ document_name i) }
{
    format!(in alloc; "d{i}")
}

// The address of the folder of a document.
fn folder_path(alloc: Global, i: u64) -> Result<String, AllocError>
    ensures { IfOk result (λ s. string_bytes s ≡ folder_path i) }
{
    let name = folder_name(alloc, i / FOLDER_EVERY * FOLDER_EVERY)?;
    format!(in alloc; "/cmis/main/root/{name}")
}

#[tactic(auto, unfolding(crate::specs::Requests::indexed))]
fn indexed(alloc: Global, name: &str, i: u64) -> Result<String, AllocError>
    ensures { IfOk result (λ s. string_bytes s ≡ indexed name.now i) }
{
    format!(in alloc; "{name}[{i}]")
}

#[tactic(auto, unfolding(crate::specs::Requests::control))]
fn control(alloc: Global, name: &str, i: u64, value: &str) -> Result<String, AllocError>
    ensures { IfOk result (λ s. string_bytes s ≡ control name.now i value.now) }
{
    let name = indexed(alloc, name, i)?;
    format!(in alloc; "&{name}={value}")
}

#[tactic(auto, unfolding(crate::specs::Requests::property))]
fn property(alloc: Global, i: u64, id: &str, value: &str) -> Result<String, AllocError>
    ensures { IfOk result (λ s. string_bytes s ≡ property i id.now value.now) }
{
    let id = control(alloc, "propertyId", i, id)?;
    let value = control(alloc, "propertyValue", i, value)?;
    format!(in alloc; "{id}{value}")
}

#[tactic(auto, unfolding(crate::specs::Requests::action_control))]
fn action_control(alloc: Global, action: &str) -> Result<String, AllocError>
    ensures { IfOk result (λ s. string_bytes s ≡ action_control action.now) }
{
    format!(in alloc; "cmisaction={action}")
}

#[tactic(auto, unfolding(crate::specs::Requests::properties))]
fn properties(alloc: Global, kind: &str, name: &str) -> Result<String, AllocError>
    ensures { IfOk result (λ s. string_bytes s ≡ properties kind.now name.now) }
{
    let name = property(alloc, 0, "cmis:name", name)?;
    let kind = property(alloc, 1, "cmis:objectTypeId", kind)?;
    format!(in alloc; "{name}{kind}")
}

#[tactic(auto, unfolding(crate::specs::Requests::form))]
fn form(alloc: Global, action: &str, kind: &str, name: &str) -> Result<String, AllocError>
    ensures { IfOk result (λ s. string_bytes s ≡ form action.now kind.now name.now) }
{
    let action = action_control(alloc, action)?;
    let properties = properties(alloc, kind, name)?;
    format!(in alloc; "{action}{properties}&succinct=true")
}

#[tactic(auto, unfolding(crate::specs::Requests::fields))]
fn fields() -> &'static str
    ensures { result.now ≡ fields }
{
    "Host: x\r\nAuthorization: Basic YWRtaW46cHc=\r\nContent-Type: application/x-www-form-urlencoded\r\n"
}

#[tactic(auto, unfolding(crate::specs::Requests::request_line))]
fn request_line(alloc: Global, path: &str) -> Result<String, AllocError>
    ensures { IfOk result (λ s. string_bytes s ≡ request_line path.now) }
{
    format!(in alloc; "POST {path} HTTP/1.1\r\n")
}

#[tactic(auto, unfolding(crate::specs::Requests::length_line))]
fn length_line(alloc: Global, length: usize) -> Result<String, AllocError>
    ensures { IfOk result (λ s. string_bytes s ≡ length_line length) }
{
    format!(in alloc; "Content-Length: {length}\r\n")
}

#[tactic(auto, unfolding(crate::specs::Requests::head))]
fn head(alloc: Global, path: &str, length: usize) -> Result<String, AllocError>
    ensures { IfOk result (λ s. string_bytes s ≡ head path.now length) }
{
    let first = request_line(alloc, path)?;
    let fields = fields();
    let length = length_line(alloc, length)?;
    format!(in alloc; "{first}{fields}{length}")
}

#[tactic(auto, unfolding(crate::specs::Requests::posted))]
fn posted(alloc: Global, path: &str, form: &str) -> Result<String, AllocError>
    ensures { IfOk result (λ s. string_bytes s ≡ posted path.now form.now) }
{
    let head = head(alloc, path, form.len())?;
    format!(in alloc; "{head}\r\n{form}")
}

fn creates(
    alloc: Global,
    path: &str,
    action: &str,
    kind: &str,
    name: &str,
) -> Result<String, AllocError>
    ensures { IfOk result (λ s. string_bytes s ≡ creates path.now action.now kind.now name.now) }
{
    let form = form(alloc, action, kind, name)?;
    posted(alloc, path, form.as_str())
}

fn makes_folder(alloc: Global, i: u64) -> Result<String, AllocError>
    ensures { IfOk result (λ s. string_bytes s ≡ makes_folder i) }
{
    let name = folder_name(alloc, i)?;
    creates(
        alloc,
        "/cmis/main/root",
        "createFolder",
        "cmis:folder",
        name.as_str(),
    )
}

fn makes_document(alloc: Global, i: u64) -> Result<String, AllocError>
    ensures { IfOk result (λ s. string_bytes s ≡ makes_document i) }
{
    let path = folder_path(alloc, i)?;
    let name = document_name(alloc, i)?;
    creates(
        alloc,
        path.as_str(),
        "createDocument",
        "cmis:document",
        name.as_str(),
    )
}

/// The bytes of the request with this number.
pub fn request(alloc: Global, i: u64) -> Result<String, AllocError>
    ensures { IfOk result (λ s. string_bytes s ≡ request i) }
{
    if i % FOLDER_EVERY == 0 {
        makes_folder(alloc, i)
    } else {
        makes_document(alloc, i)
    }
}

/// The bytes of the requests with these numbers, one behind the other.
pub fn requests(alloc: Global, numbers: &[u64]) -> Result<Vec<u8>, AllocError>
    ensures { IfOk result (λ bytes. bytes.items ≡ flat_map request numbers.now) }
{
    let mut bytes = Vec::new(alloc);
    for i in numbers {
        let request = request(alloc, *i)?;
        bytes.extend_from_slice(request.as_bytes())?;
    }
    Ok(bytes)
}
