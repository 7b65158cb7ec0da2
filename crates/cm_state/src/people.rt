//! The users and the groups, and for each user the names of his groups.
ghost use Rattle.std.specs.Prelude.{◌≡◌, ◌++◌, ◌∷◌, [], ℕ, List, true, All, IfOk, bytes_eq, if◌then◌else◌};
ghost use Rattle.cm_base.specs.UserLists.{all_differ};
ghost use Rattle.cm_state.specs.Members.{names_of, names_at};

use cm_base::copies::Copies;
use cm_base::items::Items;
use cm_base::text::{Text, Texts};
use cm_base::user::{Group, Groups};
use std::alloc::{AllocError, Global};
use std::collections::BTreeMap;
use std::marker::Model;

/// The users and the groups, seen as both lists. A user finds his groups without going through them.
#[derive(Drop)]
pub struct People {
    // The names of the users; the first is the administrator.
    users: Texts,
    groups: Groups,
    // For each member of a group the names of his groups, in their order.
    by_member: BTreeMap<String, Texts>,
    // The names of no groups: the empty list.
    no_groups: Texts,
}

impl Model for People {
    ghost use Rattle.cm_state.specs.Members.{Principals, principals_of, FindsGroups};

    ghost Value = { Principals };

    ghost view = { principals_of };

    ghost invariant = { FindsGroups };
}

// Takes the names of the user's groups out of the map.
fn taken(alloc: Global, by_member: &mut BTreeMap<String, Texts>, member: &Text) -> Texts
    ensures names { result ≡ names_at by_member.old member.now }
    ensures others { (u : List ℕ) → names_at by_member.new u
        ≡ (if bytes_eq member.now u then [] else names_at by_member.old u) }
{
    match by_member.remove(member.as_str()) {
        Some(names) => names,
        None => Items::new(alloc),
    }
}

// Notes that the user is a member of the group of this name.
fn note(
    alloc: Global,
    by_member: &mut BTreeMap<String, Texts>,
    member: &Text,
    group: &Text,
) -> Result<(), AllocError>
    ensures { IfOk result (λ _. (u : List ℕ) → names_at by_member.new u
        ≡ names_at by_member.old u ++ (if bytes_eq u member.now then group.now ∷ [] else [])) }
{
    let mut names = taken(alloc, by_member, member);
    names.push(group.copied(alloc)?)?;
    let key = String::from_str(alloc, member.as_str())?;
    by_member.insert(key, names)?;
    Ok(())
}

// Notes the members of the group, of whom no two are the same.
fn note_group(
    alloc: Global,
    by_member: &mut BTreeMap<String, Texts>,
    group: &Group,
) -> Result<(), AllocError>
    requires differ { all_differ group.now.members ≡ true }
    ensures { IfOk result (λ _. (u : List ℕ) → names_at by_member.new u
        ≡ names_at by_member.old u ++ names_of (group.now ∷ []) u) }
{
    for member in group.members.as_slice() {
        note(alloc, by_member, member, &group.name)?;
    }
    Ok(())
}

// For each member of a group the names of his groups. No two members of a group are the same.
fn names_by_member(alloc: Global, groups: &[Group]) -> Result<BTreeMap<String, Texts>, AllocError>
    requires differ { All (λ g. all_differ g.members ≡ true) groups.now }
    ensures { IfOk result (λ by_member. (u : List ℕ) → names_at by_member u ≡ names_of groups.now u) }
{
    let mut by_member = BTreeMap::new(alloc);
    for group in groups {
        note_group(alloc, &mut by_member, group)?;
    }
    Ok(by_member)
}

impl People {
    /// These users and groups. No two members of a group are the same.
    pub fn new(alloc: Global, users: Texts, groups: Groups) -> Result<People, AllocError>
        requires differ { All (λ g. all_differ g.members ≡ true) groups }
        ensures { IfOk result (λ people. people ≡ record { users = users; groups = groups }) }
    {
        let by_member = names_by_member(alloc, groups.as_slice())?;
        Ok(People {
            users,
            groups,
            by_member,
            no_groups: Items::new(alloc),
        })
    }

    /// The names of the users; the first is the administrator.
    pub fn users(&self) -> &Texts
        ensures { result.now ≡ self.now.users }
    {
        &self.users
    }

    /// The names of the groups that have the user as a member, in their order; of anybody else none. Takes no memory.
    pub fn groups_of(&self, user: &Text) -> &Texts
        ensures { result.now ≡ names_of self.now.groups user.now }
    {
        match self.by_member.get(user.as_str()) {
            Some(names) => names,
            None => &self.no_groups,
        }
    }
}
