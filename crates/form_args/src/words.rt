//! The words of arguments that calls of several crates have (CMIS 1.1, section 5.4). The other words stand where they are read.

/// The id of the object that is addressed, in place of a path (section 5.4.2.3).
pub const OBJECT_ID: &str = "objectId";

/// Whether objects are shown by their properties' values alone (section 5.4.3.4).
pub const SUCCINCT: &str = "succinct";

/// The id of a type.
pub const TYPE_ID: &str = "typeId";
