//! The rules for the people of a run.
ghost use Rattle.std.specs.Prelude.{◌≡◌};

use crate::people::People;
use journal_start::{Meeting, PeopleRule};

/// There may be new names, and other groups, which hold from here on; the administrator stays, and no name goes.
pub struct MayGrow;

impl PeopleRule<People> for MayGrow {
    ghost use Rattle.journal_people.specs.Meetings.{growing};

    ghost judged = { growing };

    fn judge(kept: &People, asked: &People) -> Meeting {
        if kept.is(asked) {
            return Meeting::Same;
        }
        if kept.has_administrator_of(asked) && kept.lacking(asked).is_none() {
            Meeting::Changed
        } else {
            Meeting::Refused
        }
    }
}

/// The names and the groups stay as they are.
pub struct MustStay;

impl PeopleRule<People> for MustStay {
    ghost use Rattle.journal_people.specs.Meetings.{staying};

    ghost judged = { staying };

    fn judge(kept: &People, asked: &People) -> Meeting {
        if kept.is(asked) {
            Meeting::Same
        } else {
            Meeting::Refused
        }
    }
}
