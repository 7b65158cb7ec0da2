//! The arguments of the write that makes a document of another (CMIS 1.1, section 2.2.4.2).
use call_parts::versions::CreateDocument;
use cm_base::text::Text;

/// Makes a document of another, in the addressed folder if there is one (section 2.2.4.2).
#[derive(Drop)]
pub struct CreateDocumentFromSource {
    /// The id of the document that it is made of.
    pub source: Text,
    /// What is given of the new document, as in createDocument. Its type, its secondary types, its content and each property that is not
    /// given are those of the source.
    pub document: CreateDocument,
}
