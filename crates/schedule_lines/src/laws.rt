//! The laws of scripts, as public functions with empty bodies.
ghost use Rattle.std.specs.Prelude.{◌≡◌, ℕ, Bool, false, List, ◌++◌, Some};
ghost use Rattle.schedule_lines.specs.Scripts.{script_of};

/// A line that is not valid stays so, whatever comes behind it, and the steps before it stay the same.
pub fn script_is_kept()
    ensures { (text more : List ℕ) (over : Bool) (n : ℕ) → (script_of false text).bad ≡ Some n
        → script_of over (text ++ more) ≡ script_of false text }
{}
