//! Version series of documents (CMIS 1.1, section 2.1.13).
ghost use Rattle.std.specs.Prelude.{◌≡◌};
ghost use Rattle.cm_base.specs.States.{state_word, state_of_word};

use crate::copies::Copies;
use crate::items::Items;
use crate::number::Oid;
use crate::text::Text;
use std::alloc::{AllocError, Global};

/// A version label, printed as `major.minor`.
#[derive(Clone, Copy, Debug, PartialEq, Eq)]
pub struct Label {
    pub major: u64,
    pub minor: u64,
}

/// A version in its series. A document made with versioning state `none` has no label.
#[derive(Clone, Copy, Debug, PartialEq, Eq)]
pub struct DocumentVersion {
    pub object: Oid,
    pub label: Option<Label>,
}

/// The versions of a series in order, the latest last.
pub type DocumentVersions = Items<DocumentVersion>;

/// The private working copy of a series, and who checked it out.
#[derive(Drop)]
pub struct WorkingCopy {
    pub copy: Oid,
    pub owner: Text,
}

/// A version series. Its number is that of the object with which it began.
#[derive(Drop)]
pub struct Series {
    pub id: Oid,
    pub name: Text,
    pub versions: DocumentVersions,
    pub working: Option<WorkingCopy>,
}

/// A list of series.
pub type SeriesList = Items<Series>;

/// The versioning state that a create asks for (CMIS 1.1, section 2.2.4.1).
#[derive(Clone, Copy, Debug, PartialEq, Eq)]
pub enum VersioningState {
    None,
    CheckedOut,
    Minor,
    Major,
}

impl VersioningState {
    /// The word that a request has for it.
    pub fn word(self) -> &'static str
        ensures { result.now ≡ state_word self }
    {
        match self {
            VersioningState::None => "none",
            VersioningState::CheckedOut => "checkedout",
            VersioningState::Minor => "minor",
            VersioningState::Major => "major",
        }
    }

    /// The state with this word.
    pub fn of_word(word: &str) -> Option<VersioningState>
        ensures { result ≡ state_of_word word.now }
    {
        if word == "none" {
            Some(VersioningState::None)
        } else if word == "checkedout" {
            Some(VersioningState::CheckedOut)
        } else if word == "minor" {
            Some(VersioningState::Minor)
        } else if word == "major" {
            Some(VersioningState::Major)
        } else {
            None
        }
    }
}

impl Copies for DocumentVersion {
    fn copied(&self, _alloc: Global) -> Result<DocumentVersion, AllocError> {
        Ok(*self)
    }
}

impl Copies for WorkingCopy {
    fn copied(&self, alloc: Global) -> Result<WorkingCopy, AllocError> {
        Ok(WorkingCopy {
            copy: self.copy,
            owner: self.owner.copied(alloc)?,
        })
    }
}

impl Copies for Series {
    fn copied(&self, alloc: Global) -> Result<Series, AllocError> {
        Ok(Series {
            id: self.id,
            name: Copies::copied(&self.name, alloc)?,
            versions: self.versions.copied(alloc)?,
            working: Copies::copied(&self.working, alloc)?,
        })
    }
}
