//! What a createDocumentFromSource adds to the cost of the repository, besides what it copies.
ghost use Rattle.std.specs.Prelude.{◌≡◌};
ghost use Rattle.source_parts.specs.Weight.{weight_of_create_document_from_source};

use crate::writes::CreateDocumentFromSource;
use call_parts::weight::weight_of_create_document;

/// What a createDocumentFromSource weighs: as a createDocument, and the id of the source, one text more. Takes no memory.
pub fn weight_of_create_document_from_source(call: &CreateDocumentFromSource) -> u64
    ensures { result ≡ weight_of_create_document_from_source call.now }
{
    weight_of_create_document(&call.document)
        .saturating_add(call.source.len() as u64)
        .saturating_add(64)
}
