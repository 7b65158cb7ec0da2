//! What a caller is sent follows from what he sees.
ghost use Rattle.cmis_app.specs.Alike.{RepliesOfSeen};
ghost use Rattle.cmis_spec.specs.Repository.{Repository};
ghost use Rattle.cmis_spec.specs.Well.{IsWellFormed};

use step_laws::alike::answers_of_seen;
use step_laws::well::replay_keeps;

/// After each history of a well-formed opening, each reading's reply is that of every well-formed repository in which its caller sees the same.
pub fn replies_of_seen()
    ensures { (opened : Repository) → IsWellFormed opened → RepliesOfSeen opened }
{
    replay_keeps();
    answers_of_seen();
}
