//! The arguments of the readings of types and of the repository's information, one record a call (CMIS 1.1, section 2.2.2).
use cm_base::text::Text;

/// How many levels below its top a tree shows.
#[derive(Clone, Copy, Debug, PartialEq, Eq)]
pub enum Depth {
    /// All of them.
    All,
    /// So many, at least 1.
    Levels(u64),
}

/// The information of the repository (section 2.2.2.2).
#[derive(Drop)]
pub struct ReadInfo {
    /// The host by which the caller names the server.
    pub host: Text,
    /// Whether the informations of all repositories are asked for, by the ids of the repositories (section 5.3.1).
    pub all: bool,
}

/// The types right below a type, or the base types, a page of them (section 2.2.2.3).
#[derive(Drop)]
pub struct ReadTypeChildren {
    pub type_id: Option<Text>,
    /// Whether each type is shown with its property definitions.
    pub property_definitions: bool,
    /// How many at most; a greater number than 1000 counts as 1000.
    pub max_items: u64,
    /// How many are passed over.
    pub skip_count: u64,
}

/// The tree of the types below a type, or of all types (section 2.2.2.4).
#[derive(Drop)]
pub struct ReadTypeDescendants {
    pub type_id: Option<Text>,
    /// How many levels below the type; the tree of all types has all its levels.
    pub depth: Depth,
    /// Whether each type is shown with its property definitions.
    pub property_definitions: bool,
}

/// The definition of a type (section 2.2.2.5).
#[derive(Drop)]
pub struct ReadTypeDefinition {
    pub type_id: Text,
}
