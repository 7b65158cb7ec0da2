//! What the reply to a query holds (CMIS 1.1, section 5.2.11).
use call_parts::replies::ShownProperty;
use cm_base::items::Items;
use cm_base::text::Text;
use cm_base::value::Values;
use include_parts::replies::ShownBeside;

/// A column of a row: the key under which it stands, which is the alias or else the query name, and the property.
#[derive(Drop)]
pub struct ShownCell {
    pub key: Text,
    pub property: ShownProperty,
}

/// The columns of a row in the order of the statement.
pub type ShownCells = Items<ShownCell>;

/// The columns of a row, in full or in succinct form; there their keys stand in the place of ids. Of two columns with one key the later
/// one is shown.
#[derive(Drop)]
pub enum ShownRow {
    Full(ShownCells),
    Succinct(Values),
}

/// A row: its columns, and what is asked for beside them of the object.
#[derive(Drop)]
pub struct QueryRow {
    pub columns: ShownRow,
    pub beside: ShownBeside,
}

/// Rows in the order of the query.
pub type QueryRows = Items<QueryRow>;

/// A page of rows: whether more come after them, and how many there are in all.
#[derive(Drop)]
pub struct QueryReply {
    pub rows: QueryRows,
    pub has_more_items: bool,
    pub num_items: u64,
}
