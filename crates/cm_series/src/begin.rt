//! A series that begins.
ghost use Rattle.std.specs.Prelude.{◌≡◌, [], ◌∷◌, Some, None, IfOk};
ghost use Rattle.cm_series.specs.Series.{first_label, new_series};

use cm_base::copies::Copies;
use cm_base::items::Items;
use cm_base::number::Oid;
use cm_base::series::{DocumentVersion, Label, Series, VersioningState, WorkingCopy};
use cm_base::text::Text;
use std::alloc::{AllocError, Global};

fn first_label(state: VersioningState) -> Option<Label>
    ensures { result ≡ first_label state }
{
    match state {
        VersioningState::Major => Some(Label { major: 1, minor: 0 }),
        VersioningState::Minor => Some(Label { major: 0, minor: 1 }),
        VersioningState::CheckedOut => None,
        VersioningState::None => None,
    }
}

// A series that begins with a version.
fn with_version(
    alloc: Global,
    number: Oid,
    name: Text,
    label: Option<Label>,
) -> Result<Series, AllocError>
    ensures { IfOk result (λ s. s ≡ record {
      id = number;
      name = name;
      versions = record { object = number; label = label } ∷ [];
      working = None;
    }) }
{
    let mut versions = Items::new(alloc);
    versions.push(DocumentVersion {
        object: number,
        label,
    })?;
    Ok(Series {
        id: number,
        name,
        versions,
        working: None,
    })
}

// A series that begins with a working copy.
fn with_working(alloc: Global, number: Oid, owner: &Text, name: Text) -> Result<Series, AllocError>
    ensures { IfOk result (λ s. s ≡ record {
      id = number;
      name = name;
      versions = [];
      working = Some (record { copy = number; owner = owner.now });
    }) }
{
    let owner = owner.copied(alloc)?;
    Ok(Series {
        id: number,
        name,
        versions: Items::new(alloc),
        working: Some(WorkingCopy {
            copy: number,
            owner,
        }),
    })
}

/// The series of the document with this number that the user makes under the name: with the document as its first version, or
/// checked out by the user (section 2.2.4.1).
pub fn begin(
    alloc: Global,
    number: Oid,
    user: &Text,
    name: &Text,
    state: VersioningState,
) -> Result<Series, AllocError>
    ensures { IfOk result (λ s. s ≡ new_series number user.now name.now state) }
{
    let name = name.copied(alloc)?;
    match state {
        VersioningState::CheckedOut => with_working(alloc, number, user, name),
        _ => with_version(alloc, number, name, first_label(state)),
    }
}
