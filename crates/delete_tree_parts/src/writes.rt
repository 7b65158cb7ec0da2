//! The arguments of deleteTree (CMIS 1.1, section 2.2.4.17.1).
use call_parts::place::Place;

/// What happens to the documents and items of the tree. Its folders are deleted in any case.
#[derive(Clone, Copy, Debug, PartialEq, Eq)]
pub enum UnfileObjects {
    /// They are taken out of every folder of the tree.
    Unfile,
    /// They are deleted where all their folders are in the tree, and else taken out of those.
    DeleteSingleFiled,
    /// They are deleted.
    Delete,
}

/// Deletes the addressed folder, and what stands below it.
#[derive(Drop)]
pub struct DeleteTree {
    pub place: Place,
    pub unfile_objects: UnfileObjects,
    /// Whether the rest of the tree is visited where an object can't be deleted or taken out.
    pub continue_on_failure: bool,
}
