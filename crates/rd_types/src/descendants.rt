//! The tree of the types below a type (CMIS 1.1, section 2.2.2.4).
ghost use Rattle.std.specs.Prelude.{◌≡◌, IfOk};
ghost use Rattle.cm_base.specs.Judged.{Meets};
ghost use Rattle.rd_types.specs.ReadTypes.{answer_type_descendants, tree_reply};

use cm_base::cause::Cause;
use cm_base::fail::Fail;
use cm_base::text::Text;
use cm_state::state::State;
use cm_type_list::types::Types;
use std::alloc::{AllocError, Global};
use type_parts::readings::ReadTypeDescendants;
use type_parts::replies::TypeTreeReply;
use type_tree::below::names_none;
use type_tree::rows::tree_below;

fn tree_reply(
    alloc: Global,
    types: &Types,
    q: &ReadTypeDescendants,
) -> Result<TypeTreeReply, AllocError>
    ensures { IfOk result (λ reply. reply ≡ tree_reply types.now q.now) }
{
    let rows = tree_below(alloc, types, &q.type_id, q.depth)?;
    Ok(TypeTreeReply {
        rows,
        property_definitions: q.property_definitions,
    })
}

/// The tree of the types below a type, or of all types. Everybody sees all types.
pub fn type_descendants(
    alloc: Global,
    state: &State,
    user: &Text,
    q: &ReadTypeDescendants,
) -> Result<TypeTreeReply, Fail>
    ensures { Meets (λ x. x) result (answer_type_descendants state.now user.now q.now) }
{
    let _everybody = user;
    let types = state.types();
    if names_none(types, &q.type_id) {
        return Err(Fail::Refused(Cause::TypeNotFound));
    }
    let reply = tree_reply(alloc, types, q)?;
    Ok(reply)
}
