//! Laws of a repository and its people.
ghost use Rattle.std.specs.Prelude.{◌≡◌, ℕ, true, List, None};
ghost use Rattle.cm_base.specs.declared.log.Change.{Change};
ghost use Rattle.cm_base.specs.declared.number.Moment.{Moment};
ghost use Rattle.cmis_spec.specs.Repository.{Repository, object_at};
ghost use Rattle.cmis_spec.specs.Seen.{is_visible};
ghost use Rattle.cmis_spec.specs.Well.{HasGroups, IsWellFormed, is_user};
ghost use Rattle.journal_people.specs.Told.{PeopleTold};
ghost use Rattle.cm_people.specs.Begun.{begun};
ghost use Rattle.cm_people.specs.Adopted.{adopted};

/// A repository that begins with people has their users and groups.
pub fn people_hold()
    ensures users { (moment : Moment) (people : PeopleTold) → (begun moment people).users ≡ people.names }
    ensures groups { (moment : Moment) (people : PeopleTold) → (begun moment people).groups ≡ people.groups }
{}

/// A repository that is well formed stays so with other people.
pub fn people_keep_well()
    ensures { (r : Repository) (people : PeopleTold) → IsWellFormed r → HasGroups people.names people.groups
        → IsWellFormed (adopted r people) }
{}

/// Where each user stays one, who sees an event of an object that is gone sees it still, and nobody else does.
pub fn events_stay()
    ensures { (r : Repository) (people : PeopleTold) (u : List ℕ) (c : Change)
        → ((v : List ℕ) → is_user r.users v ≡ true → is_user people.names v ≡ true)
        → object_at r c.object ≡ None → is_visible (adopted r people) u c ≡ is_visible r u c }
{}
