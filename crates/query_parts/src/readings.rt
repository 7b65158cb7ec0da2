//! The arguments of a query (CMIS 1.1, section 2.2.6.1).
use cm_base::text::Text;
use include_parts::readings::Includes;

/// The rows that a statement of the query language finds, a page of them.
#[derive(Drop)]
pub struct ReadQuery {
    pub statement: Text,
    /// Whether each version of a document is a row, and not the latest one alone.
    pub all_versions: bool,
    /// How many rows at most; a greater number than 1000 counts as 1000.
    pub max_items: u64,
    /// How many are passed over.
    pub skip_count: u64,
    /// Whether a row shows the values alone.
    pub succinct: bool,
    /// What a row shows of its object beside the columns.
    pub includes: Includes,
}
