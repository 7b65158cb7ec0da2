//! What a run needs to know of a repository's calls.
ghost use Rattle.cmis_program.specs.Alike.{RepliesOfSeen};
ghost use Rattle.cmis_program.specs.Kinds.{kind_of};
ghost use Rattle.cmis_spec.specs.Repository.{Repository};
ghost use Rattle.cmis_spec.specs.Well.{IsWellFormed};

use cm_state::state::State;
use desk_model::Machine;
use schedule_run::Scripted;
use talk::Served;

/// A repository with its calls, as sessions serve it and as scripts run over it.
pub trait Program {
    /// The machine that sessions serve.
    type Face: Served + Machine<State = State>;

    /// The machine that scripts run over.
    type Plain: Machine<State = State>;

    /// What scripts ask of it.
    type Folders: Scripted<Kind = Self::Plain>;

    /// After each history of a well-formed opening, each reading's reply is that of every well-formed repository in which its caller sees the same.
    fn replies_of_seen()
        ensures { (opened : Repository) → IsWellFormed opened
            → RepliesOfSeen
            (kind_of Self.Face.next Self.Face.answer Self.Face.number Self.Face.call
            Self.Face.user Self.Face.least Self.Face.closes)
            opened };
}
