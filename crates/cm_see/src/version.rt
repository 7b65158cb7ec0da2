//! Where a document stands in its version series (CMIS 1.1, section 2.1.13). Nothing here takes memory but a label's text.
ghost use Rattle.std.specs.Prelude.{◌≡◌, decimal, find, if◌then◌else◌, IfOk, Option, Some, None, option_map};
ghost use Rattle.std.specs.Option.{option_copied};
ghost use Rattle.cmis_spec.specs.Repository.{same};
ghost use Rattle.cm_see.specs.Shown.{version_of, is_major, last_major, is_latest_version, is_major_version, is_latest_major, is_immutable, label_text, checked_out_by, checked_out_id, words_or_unset, label_of};

use crate::read::read_at;
use crate::value::words;
use cm_base::number::Oid;
use cm_base::object::Object;
use cm_base::series::{DocumentVersion, Label};
use cm_base::text::Text;
use cm_base::value::{Scalar, Value};
use cm_state::look::is_latest;
use cm_state::state::State;
use std::alloc::{AllocError, Global};

fn find_version(versions: &[DocumentVersion], n: Oid) -> Option<&DocumentVersion>
    ensures { option_copied result ≡ find (λ v. same v.object n) versions.now }
{
    versions.iter().find(|v| v.object == n)
}

fn version_of<'a>(state: &'a State, x: &Object) -> Option<&'a DocumentVersion>
    ensures { option_copied result ≡ version_of state.now x.now }
{
    match state.series_of(x) {
        Some(series) => find_version(series.versions.as_slice(), x.id),
        None => None,
    }
}

fn is_major(version: &DocumentVersion) -> bool
    ensures { result ≡ is_major version.now }
{
    match version.label {
        Some(label) => label.minor == 0,
        None => false,
    }
}

pub(crate) fn is_latest_version(state: &State, x: &Object) -> bool
    ensures { result ≡ is_latest_version state.now x.now }
{
    match state.series_of(x) {
        Some(series) => is_latest(series, x.id),
        None => false,
    }
}

pub(crate) fn is_major_version(state: &State, x: &Object) -> bool
    ensures { result ≡ is_major_version state.now x.now }
{
    match version_of(state, x) {
        Some(version) => is_major(version),
        None => false,
    }
}

// The version where it is major, else the last major one before it.
fn later_major(last: Option<DocumentVersion>, version: &DocumentVersion) -> Option<DocumentVersion>
    ensures { result ≡ (if is_major version.now then Some version.now else last) }
{
    if is_major(version) {
        Some(*version)
    } else {
        last
    }
}

fn last_major(versions: &[DocumentVersion]) -> Option<DocumentVersion>
    ensures { result ≡ last_major versions.now }
{
    let mut last = None;
    for version in versions {
        last = later_major(last, version);
    }
    last
}

pub(crate) fn is_latest_major(state: &State, x: &Object) -> bool
    ensures { result ≡ is_latest_major state.now x.now }
{
    match state.series_of(x) {
        Some(series) => match last_major(series.versions.as_slice()) {
            Some(version) => version.object == x.id,
            None => false,
        },
        None => false,
    }
}

pub(crate) fn is_immutable(state: &State, x: &Object) -> bool
    ensures { result ≡ is_immutable state.now x.now }
{
    version_of(state, x).is_some() && !is_latest_version(state, x)
}

pub(crate) fn checked_out_by<'a>(state: &'a State, x: &Object) -> Option<&'a Text>
    ensures { option_copied result ≡ checked_out_by state.now x.now }
{
    let series = state.series_of(x)?;
    let working = series.working.as_ref()?;
    Some(&working.owner)
}

pub(crate) fn checked_out_id(state: &State, user: &Text, x: &Object) -> Option<u64>
    ensures { option_map decimal result ≡ checked_out_id state.now user.now x.now }
{
    let series = state.series_of(x)?;
    let working = series.working.as_ref()?;
    let copy = read_at(state, user, working.copy)?;
    Some(copy.id.0)
}

fn label_text(alloc: Global, label: &Label) -> Result<Text, AllocError>
    ensures { IfOk result (λ t. t ≡ label_text label.now) }
{
    let major = label.major;
    let minor = label.minor;
    let text = format!(in alloc; "{major}.{minor}");
    Ok(Text::from_string(text?))
}

fn label_value(alloc: Global, version: &DocumentVersion) -> Result<Value, AllocError>
    ensures { IfOk result (λ v. v ≡ words_or_unset (option_map label_text version.now.label)) }
{
    match &version.label {
        Some(label) => {
            let text = label_text(alloc, label)?;
            Ok(Value::One(Scalar::Words(text)))
        }
        None => Ok(Value::Unset),
    }
}

pub(crate) fn version_label(alloc: Global, state: &State, x: &Object) -> Result<Value, AllocError>
    ensures { IfOk result (λ v. v ≡ words_or_unset (label_of state.now x.now)) }
{
    match version_of(state, x) {
        Some(version) => {
            let value = label_value(alloc, version)?;
            Ok(value)
        }
        None => Ok(Value::Unset),
    }
}

pub(crate) fn checked_out_owner(
    alloc: Global,
    state: &State,
    x: &Object,
) -> Result<Value, AllocError>
    ensures { IfOk result (λ v. v ≡ words_or_unset (checked_out_by state.now x.now)) }
{
    match checked_out_by(state, x) {
        Some(owner) => {
            let value = words(alloc, owner.as_str())?;
            Ok(value)
        }
        None => Ok(Value::Unset),
    }
}
