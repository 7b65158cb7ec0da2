//! The types right below a type (CMIS 1.1, section 2.2.2.3).
ghost use Rattle.std.specs.Prelude.{◌≡◌, IfOk, map};
ghost use Rattle.cm_map.specs.Parts.{pointee};
ghost use Rattle.cm_base.specs.Judged.{Meets};
ghost use Rattle.type_tree.specs.Trees.{types_below};
ghost use Rattle.rd_types.specs.ReadTypes.{answer_type_children, types_reply};

use cm_base::cause::Cause;
use cm_base::fail::Fail;
use cm_base::text::Text;
use cm_state::state::State;
use cm_type_list::types::Types;
use cm_types::definition::TypeDef;
use rd_nav::page::{has_more, page};
use std::alloc::{AllocError, Global};
use type_parts::readings::ReadTypeChildren;
use type_parts::replies::TypesReply;
use type_tree::below::{copies, names_none, types_below};

// The types of the page are copied, and all are counted.
fn types_reply(
    alloc: Global,
    q: &ReadTypeChildren,
    types: &[&TypeDef],
) -> Result<TypesReply, AllocError>
    ensures { IfOk result (λ reply. reply ≡ types_reply q.now (map pointee types.now)) }
{
    let shown = page(q.skip_count, q.max_items, types);
    let copies = copies(alloc, shown)?;
    Ok(TypesReply {
        types: copies,
        property_definitions: q.property_definitions,
        has_more_items: has_more(q.skip_count, q.max_items, types),
        num_items: types.len() as u64,
    })
}

fn children_in(alloc: Global, types: &Types, q: &ReadTypeChildren) -> Result<TypesReply, AllocError>
    ensures { IfOk result (λ reply. reply ≡ types_reply q.now (types_below types.now q.now.type_id)) }
{
    let all = types.all(alloc)?;
    let below = types_below(alloc, &all, &q.type_id)?;
    let reply = types_reply(alloc, q, &below)?;
    Ok(reply)
}

/// A page of the types right below a type, or of the base types, in the order of their ids, and how many there are in all. What is
/// outside the page is counted and not copied. Everybody sees all types.
pub fn type_children(
    alloc: Global,
    state: &State,
    user: &Text,
    q: &ReadTypeChildren,
) -> Result<TypesReply, Fail>
    ensures { Meets (λ x. x) result (answer_type_children state.now user.now q.now) }
{
    let _everybody = user;
    let types = state.types();
    if names_none(types, &q.type_id) {
        return Err(Fail::Refused(Cause::TypeNotFound));
    }
    let reply = children_in(alloc, types, q)?;
    Ok(reply)
}
