//! The access control list of an object (CMIS 1.1, section 2.2.10.2).
ghost use Rattle.std.specs.Prelude.{◌≡◌, ◌++◌, ◌∷◌, [], IfOk};
ghost use Rattle.cm_base.specs.Judged.{Meets};
ghost use Rattle.cmis_spec.specs.Access.{aces_at};
ghost use Rattle.cmis_spec.specs.Well.{Apart, ComesBefore};
ghost use Rattle.rd_access.specs.Grouped.{alone, behind, grouped_with, longer};
ghost use Rattle.rd_access.specs.ReadAcl.{acl_reply, answer_acl, permission_word, shown_aces};

use call_parts::readings::ReadAcl;
use call_parts::replies::{AclReply, ShownAce, ShownAces};
use cm_base::access::{Ace, Level};
use cm_base::cause::Cause;
use cm_base::copies::Copies;
use cm_base::fail::Fail;
use cm_base::items::Items;
use cm_base::number::Oid;
use cm_base::object::Object;
use cm_base::text::Text;
use cm_see::address::addressed;
use cm_state::look::entry_of;
use cm_state::state::State;
use std::alloc::{AllocError, Global};

fn permission_word(level: Level) -> &'static str
    ensures { result.now ≡ permission_word level }
{
    match level {
        Level::None => "",
        Level::Read => "cmis:read",
        Level::Write => "cmis:write",
        Level::All => "cmis:all",
    }
}

fn permission(alloc: Global, level: Level) -> Result<Text, AllocError>
    ensures { IfOk result (λ t. t ≡ permission_word level) }
{
    Text::from_str(alloc, permission_word(level))
}

// An entry of a principal who had none.
fn alone(alloc: Global, ace: &Ace) -> Result<ShownAce, AllocError>
    ensures { IfOk result (λ s. s ≡ alone ace.now) }
{
    let principal = ace.principal.copied(alloc)?;
    let word = permission(alloc, ace.level)?;
    let mut permissions = Items::new(alloc);
    permissions.push(word)?;
    Ok(ShownAce {
        principal,
        permissions,
    })
}

// One permission more.
fn longer(alloc: Global, group: ShownAce, ace: &Ace) -> Result<ShownAce, AllocError>
    ensures { IfOk result (λ s. s ≡ longer group ace.now) }
{
    let word = permission(alloc, ace.level)?;
    let ShownAce {
        principal,
        mut permissions,
    } = group;
    permissions.push(word)?;
    Ok(ShownAce {
        principal,
        permissions,
    })
}

// The groups, then the last of them, with an entry behind it.
fn with_behind(
    alloc: Global,
    mut groups: Vec<ShownAce>,
    last: ShownAce,
    ace: &Ace,
) -> Result<Vec<ShownAce>, AllocError>
    ensures { IfOk result (λ all. all.items ≡ groups.items ++ behind last ace.now) }
{
    if last.principal.is(&ace.principal) {
        let group = longer(alloc, last, ace)?;
        groups.push(group)?;
        return Ok(groups);
    }
    let group = alone(alloc, ace)?;
    groups.push(last)?;
    groups.push(group)?;
    Ok(groups)
}

fn grouped_with(
    alloc: Global,
    mut groups: Vec<ShownAce>,
    ace: &Ace,
) -> Result<Vec<ShownAce>, AllocError>
    ensures { IfOk result (λ all. all.items ≡ grouped_with groups.items ace.now) }
{
    match groups.pop() {
        Some(last) => with_behind(alloc, groups, last, ace),
        None => {
            let group = alone(alloc, ace)?;
            groups.push(group)?;
            Ok(groups)
        }
    }
}

// The principals of a list in order, each with his permissions.
fn shown_aces(alloc: Global, aces: &[Ace]) -> Result<ShownAces, AllocError>
    requires ordered { Apart ComesBefore aces.now }
    ensures { IfOk result (λ all. all ≡ shown_aces aces.now) }
{
    let mut groups = Vec::new(alloc);
    for ace in aces {
        groups = grouped_with(alloc, groups, ace)?;
    }
    Ok(Items::from_vec(groups))
}

fn aces_at(alloc: Global, state: &State, n: Oid) -> Result<ShownAces, AllocError>
    ensures { IfOk result (λ all. all ≡ shown_aces (aces_at state.now n)) }
{
    let _step = state.step();
    match state.access_list(n) {
        Some(list) => {
            let all = shown_aces(alloc, list.aces.as_slice())?;
            Ok(all)
        }
        None => Ok(Items::new(alloc)),
    }
}

/// The list of an object, and of a document that of its series, as it is shown to whoever reads it.
pub fn acl_reply(alloc: Global, state: &State, x: &Object) -> Result<AclReply, AllocError>
    ensures { IfOk result (λ reply. reply ≡ acl_reply state.now x.now) }
{
    let aces = aces_at(alloc, state, entry_of(x))?;
    Ok(AclReply { aces })
}

/// The access control list of the object, and of a document that of its series: each principal once, in byte order, with the
/// permissions that the list gives him. Whoever reads the object reads its list; what the caller doesn't read is not found.
pub fn acl(alloc: Global, state: &State, user: &Text, q: &ReadAcl) -> Result<AclReply, Fail>
    ensures { Meets (λ y. y) result (answer_acl state.now user.now q.now) }
{
    match addressed(state, user, &q.place) {
        Some(x) => {
            let reply = acl_reply(alloc, state, x)?;
            Ok(reply)
        }
        None => Err(Fail::Refused(Cause::NotFound)),
    }
}
