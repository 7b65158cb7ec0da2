//! Allowed actions as JSON.
ghost use Rattle.std.specs.Prelude.{◌≡◌, IfOk};
ghost use Rattle.json_text.specs.Shown.{data_of};
ghost use Rattle.call_json.specs.Actions.{actions_data, flags_data};

use action_parts::replies::{ActionFlag, ActionsReply};
use json_text::tree::{Fields, Json};
use std::alloc::{AllocError, Global};

/// From the name of each action to whether it is allowed.
pub fn flags_json(alloc: Global, flags: &[ActionFlag]) -> Result<Json, AllocError>
    ensures { IfOk result (λ j. data_of j ≡ flags_data flags.now) }
{
    let mut fields = Fields::new(alloc);
    for flag in flags {
        fields.put(alloc, flag.action.name(), Json::flag(flag.is_allowed))?;
    }
    Ok(Json::object(fields))
}

/// The actions that are allowed on an object.
pub fn actions_json(alloc: Global, reply: &ActionsReply) -> Result<Json, AllocError>
    ensures { IfOk result (λ j. data_of j ≡ actions_data reply.now) }
{
    flags_json(alloc, reply.actions.as_slice())
}
