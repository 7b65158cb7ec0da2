//! Laws of people: what the tests decide, and what stays where people grow.
ghost use Rattle.std.specs.Prelude.{◌≡◌, ℕ, true, List};
ghost use Rattle.cm_base.specs.declared.user.Group.{Group};
ghost use Rattle.cmis_spec.specs.Repository.{administrator_of};
ghost use Rattle.cmis_spec.specs.Well.{HasGroups, is_user};
ghost use Rattle.journal_start.specs.declared.meeting.Meeting.TheVariants.{Changed};
ghost use Rattle.journal_people.specs.Told.{PeopleTold};
ghost use Rattle.journal_people.specs.Tests.{has_groups};
ghost use Rattle.journal_people.specs.Meetings.{growing, same_people};

/// The test of groups decides whether the users of these names may have them.
pub fn groups_are_tested()
    ensures sound { (names : List (List ℕ)) (groups : List Group) → has_groups names groups ≡ true
        → HasGroups names groups }
    ensures whole { (names : List (List ℕ)) (groups : List Group) → HasGroups names groups
        → has_groups names groups ≡ true }
{}

/// The comparison decides whether two are the same people.
pub fn people_are_compared()
    ensures alike { (kept asked : PeopleTold) → same_people kept asked ≡ true → kept ≡ asked }
    ensures itself { (people : PeopleTold) → same_people people people ≡ true }
{}

/// Where people grow, the administrator stays who he was, and so does each user.
pub fn nobody_is_lost()
    ensures administrator { (kept asked : PeopleTold) → growing kept asked ≡ Changed
        → administrator_of kept.names ≡ administrator_of asked.names }
    ensures users { (kept asked : PeopleTold) (name : List ℕ) → growing kept asked ≡ Changed
        → is_user kept.names name ≡ true → is_user asked.names name ≡ true }
{}
