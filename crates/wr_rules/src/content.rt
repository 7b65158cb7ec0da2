//! The content of a document that a call gives (CMIS 1.1, sections 2.1.4.1 and 2.1.10).
ghost use Rattle.std.specs.Prelude.{◌≡◌, false, IfOk, option_map, unwrap_or};
ghost use Rattle.std.specs.Option.{option_copied};
ghost use Rattle.cmis_spec.specs.Repository.{longest_stream};
ghost use Rattle.wr_rules.specs.Documents.{bars_content, needs_content, is_too_long, judge_content, content_of_stream};

use call_parts::stream::GivenStream;
use cm_base::cause::Cause;
use cm_base::content::{Content, Stream};
use cm_base::copies::Copies;
use cm_base::number::Oid;
use cm_base::text::Text;
use cm_types::definition::{ContentAllowed, TypeDef};
use std::alloc::{AllocError, Global};

/// How many bytes the content of a document has at most (CMIS 1.1, section 2.1.4.1).
#[tactic(auto, unfolding(cmis_spec::specs::Repository::longest_stream))]
pub fn longest_stream() -> u64
    ensures { result ≡ longest_stream }
{
    33554432
}

/// Whether the documents of this type have no content (CMIS 1.1, section 2.1.4.3.2, contentStreamAllowed). Takes no memory.
pub fn bars_content(kind: &TypeDef) -> bool
    ensures { result ≡ bars_content kind.now }
{
    match kind.content_allowed {
        ContentAllowed::NotAllowed => true,
        ContentAllowed::Allowed => false,
        ContentAllowed::Required => false,
    }
}

/// Whether the documents of this type must have content (CMIS 1.1, section 2.1.4.3.2, contentStreamAllowed). Takes no memory.
pub fn needs_content(kind: &TypeDef) -> bool
    ensures { result ≡ needs_content kind.now }
{
    match kind.content_allowed {
        ContentAllowed::NotAllowed => false,
        ContentAllowed::Allowed => false,
        ContentAllowed::Required => true,
    }
}

/// Whether the stream that is given is longer than content may be (CMIS 1.1, section 2.1.4.1). Takes no memory.
pub fn is_too_long(stream: &GivenStream) -> bool
    ensures { result ≡ is_too_long stream.now }
{
    longest_stream() < stream.pieces.len()
}

fn has_long(stream: &Option<GivenStream>) -> bool
    ensures { result ≡ unwrap_or (option_map is_too_long stream.now) false }
{
    match stream {
        Some(stream) => is_too_long(stream),
        None => false,
    }
}

/// Whether a document of this type may have the stream that is given, or else the content that it has: content is not allowed,
/// content is required, or content is too long, in this order. Takes no memory.
pub fn judge_content(
    kind: &TypeDef,
    stream: &Option<GivenStream>,
    old: Option<&Content>,
) -> Result<(), Cause>
    ensures { result ≡ judge_content kind.now stream.now (option_copied old.entry) }
{
    if bars_content(kind) && stream.is_some() {
        return Err(Cause::StreamNot);
    }
    if needs_content(kind) && stream.is_none() && old.is_none() {
        return Err(Cause::ContentRequired);
    }
    if has_long(stream) {
        return Err(Cause::StreamLong);
    }
    Ok(())
}

fn file_of(alloc: Global, stream: &GivenStream, name: &Text) -> Result<Text, AllocError>
    ensures { IfOk result (λ t. t ≡ unwrap_or stream.now.file name.now) }
{
    match &stream.file {
        Some(file) => file.copied(alloc),
        None => name.copied(alloc),
    }
}

/// The content of the document with this number and name, as of this step. Its bytes are shared; a stream without a file name takes
/// the name.
pub fn content_of_stream(
    alloc: Global,
    of: Oid,
    name: &Text,
    step: u64,
    stream: &GivenStream,
) -> Result<Content, AllocError>
    ensures { IfOk result (λ c. c ≡ content_of_stream of name.now step stream.now) }
{
    let kind = stream.kind.copied(alloc)?;
    let file = file_of(alloc, stream, name)?;
    let pieces = stream.pieces.copied(alloc)?;
    Ok(Content {
        of,
        stream: Stream { kind, file, pieces },
        step,
    })
}
