//! The test of groups.
ghost use Rattle.std.specs.Prelude.{◌≡◌, ◌&&◌, not, true};
ghost use Rattle.std.specs.List.{list_all, list_any};
ghost use Rattle.core.specs.Ordering.{nat_cmp, is_lt};
ghost use Rattle.core.specs.Cmp.Lexicographic.{slice_cmp};
ghost use lib.Pointwise.{pointwise};
ghost use Rattle.cmis_spec.specs.Well.{is_user};
ghost use Rattle.cm_base.specs.UserLists.{is_user_name};
ghost use Rattle.journal_people.specs.Tests.{has_groups, is_member, may_be_group, rise};
ghost use Rattle.journal_people.specs.Meetings.{same_group};

use crate::names::{all_differ, is_reserved_name, is_user, is_user_name, same_names};
use cm_base::text::Text;
use cm_base::user::Group;

fn are_members(users: &[Text], members: &[Text]) -> bool
    ensures { result ≡ list_all (is_member users.now) members.now }
{
    let mut rest = members;
    while let [member, later @ ..] = rest {
        if is_reserved_name(member.bytes()) || !is_user(users, member) {
            return false;
        }
        rest = later;
    }
    true
}

fn is_group_name(users: &[Text], name: &Text) -> bool
    ensures { result ≡ (is_user_name name.now && not (is_user users.now name.now)) }
{
    is_user_name(name.bytes()) && !is_user(users, name)
}

fn has_some(members: &[Text]) -> bool
    ensures { result ≡ list_any (λ m. true) members.now }
{
    match members {
        [] => false,
        [_, ..] => true,
    }
}

fn may_be_group(users: &[Text], group: &Group) -> bool
    ensures { result ≡ may_be_group users.now group.now }
{
    let members = group.members.as_slice();
    is_group_name(users, &group.name)
        && are_members(users, members)
        && all_differ(members)
        && has_some(members)
}

fn are_groups(users: &[Text], groups: &[Group]) -> bool
    ensures { result ≡ list_all (may_be_group users.now) groups.now }
{
    let mut rest = groups;
    while let [group, later @ ..] = rest {
        if !may_be_group(users, group) {
            return false;
        }
        rest = later;
    }
    true
}

// Whether the name stands before those of all the groups.
fn is_below(name: &Text, groups: &[Group]) -> bool
    ensures { result ≡ list_all (λ h. is_lt (slice_cmp nat_cmp name.now h.name)) groups.now }
{
    let mut rest = groups;
    while let [group, later @ ..] = rest {
        if !name.cmp(&group.name).is_lt() {
            return false;
        }
        rest = later;
    }
    true
}

fn rise(groups: &[Group]) -> bool
    ensures { result ≡ rise groups.now }
{
    let mut rest = groups;
    while let [group, later @ ..] = rest {
        if !is_below(&group.name, later) {
            return false;
        }
        rest = later;
    }
    true
}

/// Whether the users of these names may have these groups.
pub(crate) fn has_groups(users: &[Text], groups: &[Group]) -> bool
    ensures { result ≡ has_groups users.now groups.now }
{
    rise(groups) && are_groups(users, groups)
}

fn same_group(group: &Group, other: &Group) -> bool
    ensures { result ≡ same_group group.now other.now }
{
    group.name.is(&other.name) && same_names(group.members.as_slice(), other.members.as_slice())
}

/// Whether the groups are the same, in the same order.
pub(crate) fn same_groups(groups: &[Group], others: &[Group]) -> bool
    ensures { result ≡ pointwise same_group groups.now others.now }
{
    let mut left = groups;
    let mut right = others;
    while let [first, later @ ..] = left {
        let [other, behind @ ..] = right else {
            return false;
        };
        if !same_group(first, other) {
            return false;
        }
        left = later;
        right = behind;
    }
    right.is_empty()
}
