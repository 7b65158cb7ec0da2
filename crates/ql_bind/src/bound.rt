//! Bound queries: names are ids, constants are scalars (CMIS 1.1, section 2.1.14.2).
use cm_base::items::Items;
use cm_base::number::Oid;
use cm_base::text::{Text, Texts};
use cm_base::value::{Scalar, Scalars};
use cm_types::property::PropDef;
use ql_tree::tree::Comparison;
use sqlite_items::Boxed;

/// A piece of a LIKE pattern.
#[derive(Clone, Copy, Debug, PartialEq, Eq, Drop)]
pub enum Piece {
    /// `%`: any run of bytes.
    Run,
    /// `_`: one character.
    Character,
    /// This byte.
    Byte(u8),
}

/// The pieces of a LIKE pattern in their order.
pub type Pieces = Items<Piece>;

/// A condition over the values of properties, which are named by their ids. A `bool` says that NOT stands in it.
#[derive(Drop)]
pub enum Condition {
    Or(Boxed<Condition>, Boxed<Condition>),
    And(Boxed<Condition>, Boxed<Condition>),
    Not(Boxed<Condition>),
    /// The value compares so with the scalar.
    Compare(Text, Comparison, Scalar),
    /// The value is one of the scalars.
    In(Text, bool, Scalars),
    /// One of several values is one of the scalars.
    AnyIn(Text, bool, Scalars),
    Like(Text, bool, Pieces),
    /// The value is unset.
    Null(Text, bool),
    /// The object is filed in the folder; no folder where the text is no id.
    InFolder(Option<Oid>),
    /// It is filed in the folder, or in one below it.
    InTree(Option<Oid>),
}

/// A column that a query shows, and the key under which it stands in a row.
#[derive(Drop)]
pub struct ShownColumn {
    /// The alias, or else the query name.
    pub key: Text,
    pub property: PropDef,
}

/// The columns that a query shows, in their order.
pub type ShownColumns = Items<ShownColumn>;

/// What rows are ordered by: the value of a property.
#[derive(Drop)]
pub struct OrderKey {
    pub id: Text,
    pub descending: bool,
}

/// The keys of an order, the first one first.
pub type OrderKeys = Items<OrderKey>;

/// A query that is bound to the types.
#[derive(Drop)]
pub struct Bound {
    /// The ids of the types whose objects are rows.
    pub kinds: Texts,
    pub columns: ShownColumns,
    pub filter: Option<Condition>,
    pub keys: OrderKeys,
}
