//! What a reading shows of objects where it is asked for, and the arguments of these readings (CMIS 1.1, section 2.2.1.2).
use call_parts::readings::{ReadChildren, ReadObject, ReadParents, ReadProperties, ReadVersions};
use cm_base::text::Text;
use order_parts::readings::SortSpecifications;
use relationship_parts::readings::ReadRelationships;
use rendition_parts::filter::RenditionFilter;
use tree_parts::readings::{ReadCheckedOut, ReadTree};

/// Which relationships are shown with an object: none, or those of which it is the source, the target, or either of them
/// (section 2.2.1.2.2).
#[derive(Clone, Copy, Debug, PartialEq, Eq)]
pub enum IncludeRelationships {
    Nothing,
    Source,
    Target,
    Both,
}

/// What is shown with an object beside its properties (section 2.2.1.2).
#[derive(Drop)]
pub struct Includes {
    /// The allowable actions of the caller (section 2.2.1.2.6).
    pub actions: bool,
    pub relationships: IncludeRelationships,
    pub renditions: RenditionFilter,
    /// The ids of the policies that are applied to it (section 2.2.1.2.3).
    pub policy_ids: bool,
    /// Its access control list (section 2.2.1.2.5).
    pub acl: bool,
}

/// Which version of a document's series is read (sections 2.2.7.4 and 2.2.7.5).
#[derive(Clone, Copy, Debug, PartialEq, Eq)]
pub enum ReturnVersion {
    /// The one that is addressed.
    This,
    /// The latest one.
    Latest,
    /// The latest major one.
    LatestMajor,
}

/// The object in the version that is asked for, with what is shown beside its properties (section 2.2.4.8).
#[derive(Drop)]
pub struct ShowObject {
    pub object: ReadObject,
    pub version: ReturnVersion,
    pub includes: Includes,
}

/// The properties alone of the version that is asked for (section 2.2.4.9).
#[derive(Drop)]
pub struct ShowProperties {
    pub properties: ReadProperties,
    pub version: ReturnVersion,
}

/// A page of the children of a folder, with what is shown beside their properties (section 2.2.3.1).
#[derive(Drop)]
pub struct ShowChildren {
    pub children: ReadChildren,
    /// In which order they stand, before the page is cut.
    pub order: SortSpecifications,
    /// Whether each child is shown with the name that it has in the folder.
    pub segments: bool,
    pub includes: Includes,
}

/// An object without a selector (section 5.4.2.3): the children of a folder, the content of a document, or else the object itself.
#[derive(Drop)]
pub struct ShowDefault {
    /// The arguments of children; the place, the filter, the form and what is shown are those of each.
    pub children: ShowChildren,
    pub stream: Option<Text>,
}

/// The folders of an object, with what is shown beside their properties (section 2.2.3.5).
#[derive(Drop)]
pub struct ShowParents {
    pub parents: ReadParents,
    pub includes: Includes,
}

/// The versions of a document, with what is shown beside their properties (section 2.2.7.6).
#[derive(Drop)]
pub struct ShowVersions {
    pub versions: ReadVersions,
    pub includes: Includes,
}

/// What stands below a folder, with what is shown beside the properties (sections 2.2.3.2 and 2.2.3.3).
#[derive(Drop)]
pub struct ShowTree {
    pub tree: ReadTree,
    pub includes: Includes,
}

/// A page of the working copies, with what is shown beside their properties (section 2.2.3.6).
#[derive(Drop)]
pub struct ShowCheckedOut {
    pub checked_out: ReadCheckedOut,
    /// In which order they stand, before the page is cut.
    pub order: SortSpecifications,
    pub includes: Includes,
}

/// A page of the relationships of an object, with what is shown beside their properties (section 2.2.8.1).
#[derive(Drop)]
pub struct ShowRelationships {
    pub relationships: ReadRelationships,
    pub includes: Includes,
}
