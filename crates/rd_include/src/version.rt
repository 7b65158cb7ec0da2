//! The version of a document's series that is asked for (CMIS 1.1, sections 2.2.7.4 and 2.2.7.5). Nothing here takes memory.
ghost use Rattle.std.specs.Prelude.{◌≡◌, if◌then◌else◌, Option, Some, option_and_then};
ghost use Rattle.std.specs.Option.{option_copied};
ghost use Rattle.cmis_spec.specs.Access.{read_at};
ghost use Rattle.cmis_spec.specs.Repository.{last_of};
ghost use Rattle.cm_see.specs.Shown.{is_major, last_major};
ghost use Rattle.rd_include.specs.ShowObject.{in_series, version_asked};

use cm_base::object::Object;
use cm_base::series::DocumentVersion;
use cm_base::text::Text;
use cm_see::read::read_at;
use cm_state::state::State;
use include_parts::readings::ReturnVersion;

fn is_major(version: &DocumentVersion) -> bool
    ensures { result ≡ is_major version.now }
{
    match version.label {
        Some(label) => label.minor == 0,
        None => false,
    }
}

// The version where it is major, else the last major one before it.
fn later_major(last: Option<DocumentVersion>, version: &DocumentVersion) -> Option<DocumentVersion>
    ensures { result ≡ (if is_major version.now then Some version.now else last) }
{
    if is_major(version) {
        Some(*version)
    } else {
        last
    }
}

fn last_major(versions: &[DocumentVersion]) -> Option<DocumentVersion>
    ensures { result ≡ last_major versions.now }
{
    let mut last = None;
    for version in versions {
        last = later_major(last, version);
    }
    last
}

fn last_of(versions: &[DocumentVersion]) -> Option<DocumentVersion>
    ensures { result ≡ last_of versions.now }
{
    match versions.last() {
        Some(version) => Some(*version),
        None => None,
    }
}

// The object of the version, where there is one and the caller reads it.
fn read_version<'a>(
    state: &'a State,
    user: &Text,
    version: Option<DocumentVersion>,
) -> Option<&'a Object>
    ensures { option_copied result ≡ option_and_then (λ v. read_at state.now user.now v.object) version }
{
    match version {
        Some(version) => read_at(state, user, version.object),
        None => None,
    }
}

fn latest<'a>(state: &'a State, user: &Text, x: &'a Object) -> Option<&'a Object>
    ensures { option_copied result ≡ in_series state.now user.now last_of x.now }
{
    match state.series_of(x) {
        Some(series) => read_version(state, user, last_of(series.versions.as_slice())),
        None => Some(x),
    }
}

fn latest_major<'a>(state: &'a State, user: &Text, x: &'a Object) -> Option<&'a Object>
    ensures { option_copied result ≡ in_series state.now user.now last_major x.now }
{
    match state.series_of(x) {
        Some(series) => read_version(state, user, last_major(series.versions.as_slice())),
        None => Some(x),
    }
}

/// The version of the object's series that is asked for, where there is one and the caller reads it. What is no document is its own
/// version.
pub(crate) fn version_asked<'a>(
    state: &'a State,
    user: &Text,
    asked: ReturnVersion,
    x: &'a Object,
) -> Option<&'a Object>
    ensures { option_copied result ≡ version_asked state.now user.now asked x.now }
{
    match asked {
        ReturnVersion::This => Some(x),
        ReturnVersion::Latest => latest(state, user, x),
        ReturnVersion::LatestMajor => latest_major(state, user, x),
    }
}
