//! What a document that is made of another is to be: what is given, and else what the source has.
ghost use Rattle.std.specs.Prelude.{◌≡◌, IfOk, option_map};
ghost use Rattle.std.specs.Option.{option_copied};
ghost use Rattle.cm_state.specs.Looks.{content_at};
ghost use Rattle.wr_source.specs.Templates.{first_or, kind_after, stream_copied, stream_after, template_of};

use crate::values::copied_slots;
use call_parts::stream::GivenStream;
use call_parts::versions::CreateDocument;
use cm_base::content::Content;
use cm_base::copies::Copies;
use cm_base::object::Object;
use cm_base::text::{Text, Texts};
use cm_base::value::Values;
use cm_state::state::State;
use cm_types::given::Given;
use cm_types::property::PropDef;
use std::alloc::{AllocError, Global};
use std::marker::Model;
use wr_rules::properties::given_texts;
use wr_version::after::{name_after, secondary_after};

/// The name, the type, the secondary types and the content of the document, the definitions of its properties, and the values that it
/// takes over where nothing is given.
#[derive(Drop)]
pub struct Template<'a> {
    pub name: Text,
    pub kind: Text,
    pub secondary: Texts,
    pub defs: Vec<&'a PropDef>,
    /// Of each property of the source: what is unset here stays so, and what isn't here takes its default value.
    pub copied: Values,
    pub stream: Option<GivenStream>,
}

impl<'a> Model for Template<'a> {
    ghost use Rattle.std.specs.Prelude.{map};
    ghost use Rattle.cm_map.specs.Parts.{pointee};
    ghost use Rattle.wr_source.specs.Templates.{Template as Taken};

    ghost Value = { Taken };

    ghost view = { λ s. record {
      name = s.name;
      kind = s.kind;
      secondary = s.secondary;
      defs = map pointee s.defs.items;
      copied = s.copied;
      stream = s.stream;
    } };
}

fn first_or(alloc: Global, text: &Text, texts: &[Text]) -> Result<Text, AllocError>
    ensures { IfOk result (λ t. t ≡ first_or text.now texts.now) }
{
    match texts {
        [] => text.copied(alloc),
        [first, ..] => first.copied(alloc),
    }
}

fn kind_after(alloc: Global, x: &Object, given: &[Given]) -> Result<Text, AllocError>
    ensures { IfOk result (λ t. t ≡ kind_after x.now given.now) }
{
    first_or(alloc, &x.kind, given_texts(given, "cmis:objectTypeId"))
}

// The content as it could be given. Its bytes are shared.
fn stream_copied(alloc: Global, content: &Content) -> Result<GivenStream, AllocError>
    ensures { IfOk result (λ s. s ≡ stream_copied content.now) }
{
    let kind = content.stream.kind.copied(alloc)?;
    let file = content.stream.file.copied(alloc)?;
    let pieces = content.stream.pieces.copied(alloc)?;
    Ok(GivenStream {
        kind,
        file: Some(file),
        pieces,
    })
}

fn stream_found(alloc: Global, content: Option<&Content>) -> Result<Option<GivenStream>, AllocError>
    ensures { IfOk result (λ s. s ≡ option_map stream_copied (option_copied content.entry)) }
{
    match content {
        Some(content) => {
            let stream = stream_copied(alloc, content)?;
            Ok(Some(stream))
        }
        None => Ok(None),
    }
}

// The given stream, or else the content of the source.
fn stream_after(
    alloc: Global,
    state: &State,
    x: &Object,
    given: &Option<GivenStream>,
) -> Result<Option<GivenStream>, AllocError>
    ensures { IfOk result (λ s. s ≡ stream_after state.now x.now given.now) }
{
    match given {
        Some(stream) => {
            let stream = stream.copied(alloc)?;
            Ok(Some(stream))
        }
        None => stream_found(alloc, state.content(x.id)),
    }
}

/// What the call makes of this source.
pub fn template_of<'a>(
    alloc: Global,
    state: &'a State,
    x: &Object,
    call: &CreateDocument,
) -> Result<Template<'a>, AllocError>
    ensures { IfOk result (λ t. t ≡ template_of state.now x.now call.now) }
{
    let given = call.properties.as_slice();
    let name = name_after(alloc, state, x, given)?;
    let kind = kind_after(alloc, x, given)?;
    let secondary = secondary_after(alloc, x, given)?;
    let defs = state.types().props_of(alloc, &kind, secondary.as_slice())?;
    let copied = copied_slots(alloc, state, x)?;
    let stream = stream_after(alloc, state, x, &call.stream)?;
    Ok(Template {
        name,
        kind,
        secondary,
        defs,
        copied,
        stream,
    })
}
