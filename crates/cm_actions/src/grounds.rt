//! On what the allowed actions of a caller on an object depend. Nothing here takes memory.
ghost use Rattle.std.specs.Prelude.{◌≡◌};
ghost use Rattle.cm_see.specs.Shown.{is_latest_version};
ghost use Rattle.cm_actions.specs.Allowed.{grounds_of, kind_of, rights_of, rules_of, stage_of};

use cm_acl::level::is_at_least;
use cm_base::access::Level;
use cm_base::object::Object;
use cm_base::text::Text;
use cm_see::level::{level, level_by_list};
use cm_state::look::{entry_of, is_latest};
use cm_state::open::ROOT;
use cm_state::state::State;
use cm_types::definition::BaseType;
use wr_rules::content::{bars_content, needs_content};
use wr_rules::retention::is_under_hold;
use wr_rules::versions::{is_checked_out, is_working_copy, judge_changeable};

/// What the caller may do (CMIS 1.1, section 2.1.12).
#[derive(Clone, Copy)]
pub struct Rights {
    /// He may write at the object.
    pub write: bool,
    /// He may do anything at the object.
    pub all: bool,
    /// The access control list of the object, or of its series, lets him do anything.
    pub list: bool,
    /// He has a name: he is not `anonymous`.
    pub named: bool,
}

/// What kind of object it is.
#[derive(Clone, Copy)]
pub struct Kind {
    pub root: bool,
    pub folder: bool,
    pub document: bool,
    pub relationship: bool,
}

/// What its type allows (CMIS 1.1, section 2.1.3.3).
#[derive(Clone, Copy)]
pub struct Rules {
    pub fileable: bool,
    pub versionable: bool,
    /// Its documents have no content.
    pub bars_content: bool,
    /// Its documents must have content.
    pub needs_content: bool,
    /// Policies may be applied.
    pub policies: bool,
    /// The access control list may be changed.
    pub access: bool,
}

/// Where it stands in its version series (CMIS 1.1, section 2.1.13), whether it has content, and whether a hold names it.
#[derive(Clone, Copy)]
pub struct Stage {
    /// It is the working copy.
    pub working: bool,
    /// It is the latest version.
    pub latest: bool,
    /// The series is checked out.
    pub checked_out: bool,
    /// It may be changed.
    pub changeable: bool,
    /// It has content.
    pub filled: bool,
    /// It is under hold (CMIS 1.1, section 2.1.16.2).
    pub held: bool,
}

/// All on what the allowed actions depend.
#[derive(Clone, Copy)]
pub struct Grounds {
    pub rights: Rights,
    pub kind: Kind,
    pub rules: Rules,
    pub stage: Stage,
}

fn rights_of(state: &State, user: &Text, x: &Object) -> Rights
    ensures { result ≡ rights_of state.now user.now x.now }
{
    let level = level(state, user, x);
    Rights {
        write: is_at_least(Level::Write, level),
        all: is_at_least(Level::All, level),
        list: is_at_least(Level::All, level_by_list(state, user, entry_of(x))),
        named: !user.is_str("anonymous"),
    }
}

fn kind_of(state: &State, x: &Object) -> Kind
    ensures { result ≡ kind_of state.now x.now }
{
    Kind {
        root: x.id == ROOT,
        folder: state.is_a(BaseType::Folder, x),
        document: state.is_a(BaseType::Document, x),
        relationship: state.is_a(BaseType::Relationship, x),
    }
}

fn rules_of(state: &State, x: &Object) -> Rules
    ensures { result ≡ rules_of state.now x.now }
{
    match state.type_named(&x.kind) {
        Some(def) => Rules {
            fileable: def.fileable,
            versionable: def.versionable,
            bars_content: bars_content(def),
            needs_content: needs_content(def),
            policies: def.controllable_policy,
            access: def.controllable_acl,
        },
        None => Rules {
            fileable: false,
            versionable: false,
            bars_content: false,
            needs_content: false,
            policies: false,
            access: false,
        },
    }
}

fn is_latest_version(state: &State, x: &Object) -> bool
    ensures { result ≡ is_latest_version state.now x.now }
{
    match state.series_of(x) {
        Some(series) => is_latest(series, x.id),
        None => false,
    }
}

fn stage_of(state: &State, x: &Object) -> Stage
    ensures { result ≡ stage_of state.now x.now }
{
    Stage {
        working: is_working_copy(state, x),
        latest: is_latest_version(state, x),
        checked_out: is_checked_out(state, x),
        changeable: judge_changeable(state, x).is_ok(),
        filled: state.content(x.id).is_some(),
        held: is_under_hold(state, x),
    }
}

/// All on what the allowed actions of the caller on the object depend.
pub fn grounds_of(state: &State, user: &Text, x: &Object) -> Grounds
    ensures { result ≡ grounds_of state.now user.now x.now }
{
    Grounds {
        rights: rights_of(state, user, x),
        kind: kind_of(state, x),
        rules: rules_of(state, x),
        stage: stage_of(state, x),
    }
}
