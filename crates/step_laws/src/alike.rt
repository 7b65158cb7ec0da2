//! What is sent of an answer follows from what the caller sees.
ghost use Rattle.std.specs.Prelude.{ℕ, List};
ghost use Rattle.cm_call.specs.declared.question.Question.{Question};
ghost use Rattle.cm_repo.specs.ServerMachine.{shown_answer};
ghost use Rattle.cmis_spec.specs.Repository.{Repository};
ghost use Rattle.cmis_spec.specs.Seen.{OfSeen};
ghost use Rattle.cmis_spec.specs.Well.{IsWellFormed};

use cm_repo::law::answer_of_seen;

/// In two well-formed repositories in which the caller sees the same, he is sent the same, whatever he asks.
pub fn answers_of_seen()
    ensures { (r : Repository) (u : List ℕ) (q : Question) → IsWellFormed r
        → OfSeen (λ s. shown_answer s u q) r u (shown_answer r u q) }
{
    answer_of_seen();
}
