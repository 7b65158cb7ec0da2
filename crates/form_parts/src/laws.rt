//! What holds of all bodies in parts.
ghost use Rattle.std.specs.Prelude.{◌≡◌, ℕ, List, Some};
ghost use Rattle.form_parts.specs.Split.{IsSplit};
ghost use Rattle.form_parts.specs.Reading.{split_of};

/// A body has at most one list of parts.
pub fn split_is_one()
    ensures { (boundary body : List ℕ) (ps qs : List (List ℕ)) → IsSplit boundary body ps → IsSplit boundary body qs
        → ps ≡ qs }
{}

/// The parts that are read are those of the grammar, and all that it has are read.
pub fn split_is_read()
    ensures sound { (boundary body : List ℕ) (ps : List (List ℕ)) → split_of boundary body ≡ Some ps
        → IsSplit boundary body ps }
    ensures whole { (boundary body : List ℕ) (ps : List (List ℕ)) → IsSplit boundary body ps
        → split_of boundary body ≡ Some ps }
{}
