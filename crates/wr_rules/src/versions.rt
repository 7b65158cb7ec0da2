//! What the writes on documents ask of a version series (CMIS 1.1, section 2.1.13).
ghost use Rattle.std.specs.Prelude.{◌≡◌};
ghost use Rattle.cmis_spec.specs.Documents.{is_working_copy, fixed_in, judge_changeable};
ghost use Rattle.wr_rules.specs.Documents.{is_versionable, is_checked_out};

use cm_base::cause::Cause;
use cm_base::number::Oid;
use cm_base::object::Object;
use cm_base::series::Series;
use cm_series::working::is_copy_of;
use cm_state::look::is_latest;
use cm_state::state::State;

/// Whether the type of the object is versionable. Takes no memory.
pub fn is_versionable(state: &State, x: &Object) -> bool
    ensures { result ≡ is_versionable state.now x.now }
{
    match state.type_named(&x.kind) {
        Some(def) => def.versionable,
        None => false,
    }
}

/// Whether the series of the document has a working copy. Takes no memory.
pub fn is_checked_out(state: &State, x: &Object) -> bool
    ensures { result ≡ is_checked_out state.now x.now }
{
    match state.series_of(x) {
        Some(series) => series.working.is_some(),
        None => false,
    }
}

/// Whether the object is the working copy of its series. Takes no memory.
pub fn is_working_copy(state: &State, x: &Object) -> bool
    ensures { result ≡ is_working_copy state.now x.now }
{
    match state.series_of(x) {
        Some(series) => is_copy_of(series, x.id),
        None => false,
    }
}

// Why the version of this number in its series may not be changed.
fn fixed_in(n: Oid, series: &Series) -> Option<Cause>
    ensures { result ≡ fixed_in n series.now }
{
    if is_copy_of(series, n) {
        return None;
    }
    if !is_latest(series, n) {
        return Some(Cause::NotLatest);
    }
    if series.working.is_some() {
        return Some(Cause::CheckedOut);
    }
    None
}

/// Whether the object may be changed: a working copy, the latest version of a series that isn't checked out, or what is no
/// document. Takes no memory.
pub fn judge_changeable(state: &State, x: &Object) -> Result<(), Cause>
    ensures { result ≡ judge_changeable state.now x.now }
{
    match state.series_of(x) {
        Some(series) => match fixed_in(x.id, series) {
            Some(cause) => Err(cause),
            None => Ok(()),
        },
        None => Ok(()),
    }
}
