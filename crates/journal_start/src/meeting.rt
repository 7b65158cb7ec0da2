//! The people of a run, judged by those of the file.
ghost use Rattle.std.specs.Prelude.{◌≡◌};

/// What becomes of the people of the file where a run begins.
#[derive(Clone, Copy, Debug, PartialEq, Eq, Drop)]
pub enum Meeting {
    /// They stay as they are.
    Same,
    /// Those of the run hold from here on.
    Changed,
    /// The run may not begin.
    Refused,
}

/// A rule for the people of a run.
pub trait PeopleRule<P> {
    ghost use Rattle.journal_start.specs.declared.meeting.Meeting.{Meeting};

    /// What becomes of the people of the file, the first ones, where these are the run's.
    ghost judged: { P → P → Meeting };

    fn judge(kept: &P, asked: &P) -> Meeting
        ensures { result ≡ judged kept.now asked.now };
}
