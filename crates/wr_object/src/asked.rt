//! What a call that makes an object asks for: properties, values, policies and access control entries.
ghost use Rattle.std.specs.Prelude.{◌≡◌, ◌<◌, ◌&&◌, ◌||◌, not, [], nat_lt, length, map, IfOk};
ghost use Rattle.cm_map.specs.Parts.{pointee};
ghost use Rattle.cm_base.specs.Judged.{Leaves};
ghost use Rattle.cm_types.specs.declared.given.PropertyCall.TheVariants as calls;
ghost use Rattle.cm_types.specs.Properties.{judge_properties};
ghost use Rattle.cmis_spec.specs.Values.{values_kept};
ghost use Rattle.wr_rules.specs.Rules.{has_unknown_permission, has_entries};
ghost use Rattle.wr_rules.specs.Wanted.{wanted_in};

use call_parts::writes::AceRequest;
use cm_base::fail::Fail;
use cm_base::items::Items;
use cm_base::text::Text;
use cm_base::value::Values;
use cm_rules::check::check_new;
use cm_state::state::State;
use cm_types::definition::TypeDef;
use cm_types::given::Givens;
use cm_types::property::PropDef;
use std::alloc::{AllocError, Global};
use wr_rules::entries::{has_entries, has_unknown_permission};
use wr_rules::wanted::{Wanted, wanted_by};

/// What the given properties say of a new object.
pub fn wanted_of<'a>(
    alloc: Global,
    state: &'a State,
    given: &Givens,
) -> Result<Wanted<'a>, AllocError>
    ensures { IfOk result (λ w. w ≡ wanted_in state.now.types given.now) }
{
    wanted_by(alloc, state.types(), given.as_slice())
}

/// The values of the new object, or the first fault of the given properties.
pub fn judge_values(alloc: Global, defs: &[&PropDef], given: &Givens) -> Result<Values, Fail>
    ensures { Leaves result
        (judge_properties calls.Create (map pointee defs.now) [] given.now)
        (values_kept calls.Create (map pointee defs.now) [] given.now) }
{
    check_new(alloc, defs, &Items::new(alloc), given)
}

fn bars_policies(kind: &TypeDef, policies: &[Text]) -> bool
    ensures { result ≡ (not kind.now.controllable_policy && nat_lt 0 (length policies.now)) }
{
    !kind.controllable_policy && policies.len() > 0
}

fn asks_entries(remove: &[AceRequest], add: &[AceRequest]) -> bool
    ensures { result ≡ (has_entries remove.now || has_entries add.now) }
{
    has_entries(remove) || has_entries(add)
}

fn bars_entries(kind: &TypeDef, remove: &[AceRequest], add: &[AceRequest]) -> bool
    ensures { result ≡ (not kind.now.controllable_acl && (has_entries remove.now || has_entries add.now)) }
{
    !kind.controllable_acl && asks_entries(remove, add)
}

/// The type lets no policies be applied and some are given, or no list be changed and entries are given.
pub fn bars_changes(
    kind: &TypeDef,
    policies: &[Text],
    remove: &[AceRequest],
    add: &[AceRequest],
) -> bool
    ensures { result ≡ (not kind.now.controllable_policy && nat_lt 0 (length policies.now)
        || not kind.now.controllable_acl && (has_entries remove.now || has_entries add.now)) }
{
    bars_policies(kind, policies) || bars_entries(kind, remove, add)
}

/// One of the permissions of these entries is none of the three.
pub fn has_unknown(remove: &[AceRequest], add: &[AceRequest]) -> bool
    ensures { result ≡ (has_unknown_permission remove.now || has_unknown_permission add.now) }
{
    has_unknown_permission(remove) || has_unknown_permission(add)
}
