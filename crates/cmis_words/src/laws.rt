//! The laws of the definitions, as public functions with empty bodies.
ghost use Rattle.std.specs.Prelude.{◌≡◌, ℕ, List, None, IfSome};
ghost use Rattle.cmis_words.specs.Programs.{words_of};
ghost use Rattle.cmis_words.specs.Bounds.{AreBounded};
ghost use Rattle.cmis_words.specs.Serving.{serve_of};
ghost use Rattle.cmis_words.specs.Keeping.{kept_of};

/// What words name is within its bounds.
#[tactic(auto, using(crate::proofs::Bounds::are_bounded))]
pub fn words_are_bounded()
    ensures { (words : List (List ℕ)) → IfSome (words_of words) AreBounded }
{}

/// Words that name the file that keeps the repository are no words of a server without one.
#[tactic(auto, using(crate::proofs::Keeps::no_serve))]
pub fn kept_words_are_no_others()
    ensures { (words : List (List ℕ)) → IfSome (kept_of words) (λ _. serve_of words ≡ None) }
{}
