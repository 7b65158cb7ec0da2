//! Renditions as JSON.
ghost use Rattle.std.specs.Prelude.{◌≡◌, IfOk, decimal, map, string_bytes};
ghost use Rattle.serde_json.specs.Data.{string};
ghost use Rattle.json_text.specs.Shown.{data_of, listed};
ghost use Rattle.call_json.specs.Renditions.{rendition_data, renditions_data, reply_data, title_data};

use cm_base::text::Text;
use json_text::tree::{Elements, Fields, Json};
use rendition_parts::replies::{RenditionsReply, ShownRendition};
use std::alloc::{AllocError, Global};

fn digits(alloc: Global, number: u64) -> Result<String, AllocError>
    ensures { IfOk result (λ s. string_bytes s ≡ decimal number) }
{
    format!(in alloc; "{number}")
}

fn digits_json(alloc: Global, number: u64) -> Result<Json, AllocError>
    ensures { IfOk result (λ j. data_of j ≡ string (decimal number)) }
{
    let digits = digits(alloc, number)?;
    Json::text(alloc, digits.as_str())
}

fn title_json(alloc: Global, title: &Option<Text>) -> Result<Json, AllocError>
    ensures { IfOk result (λ j. data_of j ≡ title_data title.now) }
{
    match title {
        Some(title) => Json::text(alloc, title.as_str()),
        None => Ok(Json::null()),
    }
}

#[tactic(auto, unfolding(crate::specs::Renditions::rendition_data))]
fn rendition_json(alloc: Global, rendition: &ShownRendition) -> Result<Json, AllocError>
    ensures { IfOk result (λ j. data_of j ≡ rendition_data rendition.now) }
{
    let id = digits_json(alloc, rendition.stream_id.0)?;
    let title = title_json(alloc, &rendition.title)?;
    let mut fields = Fields::new(alloc);
    fields.put(alloc, "streamId", id)?;
    fields.put(
        alloc,
        "mimeType",
        Json::text(alloc, rendition.mime_type.as_str())?,
    )?;
    fields.put(alloc, "length", Json::count(rendition.length))?;
    fields.put(alloc, "kind", Json::text(alloc, rendition.kind.as_str())?)?;
    fields.put(alloc, "title", title)?;
    Ok(Json::object(fields))
}

fn each_rendition(alloc: Global, renditions: &[ShownRendition]) -> Result<Elements, AllocError>
    ensures { IfOk result (λ e. listed e ≡ map rendition_data renditions.now) }
{
    let mut elements = Elements::new(alloc);
    for rendition in renditions {
        elements.push(rendition_json(alloc, rendition)?)?;
    }
    Ok(elements)
}

/// Renditions in their order, also where they are shown with an object.
pub fn renditions_json(alloc: Global, renditions: &[ShownRendition]) -> Result<Json, AllocError>
    ensures { IfOk result (λ j. data_of j ≡ renditions_data renditions.now) }
{
    let elements = each_rendition(alloc, renditions)?;
    Ok(Json::array(elements))
}

/// What the selector renditions answers.
pub fn reply_json(alloc: Global, reply: &RenditionsReply) -> Result<Json, AllocError>
    ensures { IfOk result (λ j. data_of j ≡ reply_data reply.now) }
{
    renditions_json(alloc, reply.renditions.as_slice())
}
