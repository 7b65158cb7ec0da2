//! Lists that are the same, item by item.
ghost use Rattle.std.specs.Prelude.{◌≡◌, ◌&&◌, Bool, bytes_eq};
ghost use lib.Pointwise.{pointwise};
ghost use Rattle.cm_types.specs.Properties.{same_scalar};
ghost use Rattle.cm_types.specs.Changes.{same_choice};

use cm_base::text::Text;
use cm_base::value::Scalar;
use cm_types::fault::same_scalar;
use cm_types::property::Choice;

/// What can be told to be the same.
pub trait Same {
    ghost same: { Self → Self → Bool };

    /// Whether both are the same.
    fn same(&self, other: &Self) -> bool
        ensures { result ≡ same self.now other.now };
}

impl Same for Text {
    ghost same = { bytes_eq };

    fn same(&self, other: &Text) -> bool {
        self.is(other)
    }
}

impl Same for Scalar {
    ghost same = { same_scalar };

    fn same(&self, other: &Scalar) -> bool {
        same_scalar(self, other)
    }
}

impl Same for Choice {
    ghost same = { same_choice };

    fn same(&self, other: &Choice) -> bool {
        self.display_name.is(&other.display_name) && same_scalar(&self.value, &other.value)
    }
}

fn both(a: bool, b: bool) -> bool
    ensures { result ≡ (a && b) }
{
    a && b
}

/// Whether both lists are as long, and the same item by item.
pub fn all_same<T: Same>(a: &[T], b: &[T]) -> bool
    ensures { result ≡ pointwise T.same a.now b.now }
{
    if a.len() != b.len() {
        return false;
    }
    let mut same = true;
    for (i, item) in a.iter().enumerate() {
        let here = item.same(&b[i]);
        same = both(same, here);
    }
    same
}
