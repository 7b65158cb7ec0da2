//! Rows: what a query may test of an object.
use cm_base::items::Items;
use cm_base::number::{Oid, Oids};
use cm_base::value::Values;

/// An object as a query sees it.
#[derive(Drop)]
pub struct Row {
    pub id: Oid,
    /// The queryable properties as the caller sees them, or those of them that a condition names.
    pub values: Values,
    /// The folders that the caller reads in which it is filed; of a folder, its parent.
    pub folders: Oids,
    /// Those folders and the ones above each of them.
    pub above: Oids,
}

/// Rows in their order.
pub type Rows = Items<Row>;
