//! The trees of queries.
use cm_base::items::Items;
use cm_base::text::Text;
use sqlite_items::Boxed;

/// A column, by its query name, and the table that it is said to be of.
#[derive(Drop)]
pub struct Column {
    /// A query name or an alias, before a point.
    pub qualifier: Option<Text>,
    pub name: Text,
}

/// A moment in a query, as it is written.
#[derive(Drop)]
pub struct Timestamp {
    pub text: Text,
    /// The offset of its text in the query, from 0.
    pub at: u64,
}

/// A constant.
#[derive(Drop)]
pub enum Literal {
    /// A text, without its quotes and backslashes.
    Words(Text),
    /// Digits, with a minus before them or none, as they are written.
    Whole(Text),
    Flag(bool),
    Time(Timestamp),
}

/// How a column is compared.
#[derive(Clone, Copy, PartialEq, Eq, Debug, Drop)]
pub enum Comparison {
    Equal,
    NotEqual,
    Less,
    Greater,
    LessEqual,
    GreaterEqual,
}

/// A condition. A `bool` says that NOT stands in it (NOT IN, NOT LIKE, IS NOT NULL).
#[derive(Drop)]
pub enum Cond {
    Or(Boxed<Cond>, Boxed<Cond>),
    And(Boxed<Cond>, Boxed<Cond>),
    Not(Boxed<Cond>),
    /// `column <= literal`
    Compare(Column, Comparison, Literal),
    /// `literal = ANY column`
    EqualAny(Literal, Column),
    /// `column [NOT] IN (literal, ..)`
    In(Column, bool, Items<Literal>),
    /// `ANY column [NOT] IN (literal, ..)`
    AnyIn(Column, bool, Items<Literal>),
    /// `column [NOT] LIKE text`; the text is kept with its backslashes.
    Like(Column, bool, Text),
    /// `column IS [NOT] NULL`
    Null(Column, bool),
    /// `IN_FOLDER([name,] text)`
    InFolder(Option<Text>, Text),
    /// `IN_TREE([name,] text)`
    InTree(Option<Text>, Text),
}

/// One of the columns that a query shows.
#[derive(Drop)]
pub enum Item {
    /// `name.*`
    AllOf(Text),
    /// `column [AS name]`
    One(Column, Option<Text>),
}

/// What a query shows.
#[derive(Drop)]
pub enum Selection {
    /// `*`
    All,
    Columns(Items<Item>),
}

/// The table of a query, by its query name, and the alias that it is given.
#[derive(Drop)]
pub struct Table {
    pub name: Text,
    pub alias: Option<Text>,
}

/// What rows are ordered by.
#[derive(Drop)]
pub struct Key {
    pub column: Column,
    /// DESC is said.
    pub descending: bool,
}

/// A query (CMIS 1.1, section 2.1.14.2.1).
#[derive(Drop)]
pub struct Query {
    pub list: Selection,
    pub table: Table,
    pub filter: Option<Cond>,
    pub keys: Items<Key>,
}
