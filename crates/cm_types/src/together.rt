//! Values that are copied together, so that a copy of a record has few exits.
ghost use Rattle.std.specs.Prelude.{◌≡◌, IfOk};

use cm_base::copies::Copies;
use std::alloc::{AllocError, Global};

/// Two values.
pub struct Pair<A: Drop, B: Drop> {
    pub one: A,
    pub two: B,
}

// That values which were copied together go is proved here once, and not at each exit of a copy.
impl<A: Drop, B: Drop> Drop for Pair<A, B> {
    fn drop(self) {
        let Pair { one: _, two: _ } = self;
    }
}

impl<A: Drop, B: Drop> Pair<A, B> {
    pub fn apart(self) -> (A, B)
        ensures { result ≡ (self.one, self.two) }
    {
        let Pair { one, two } = self;
        (one, two)
    }
}

/// Copies of two values.
pub fn both<A: Copies + Drop, B: Copies + Drop>(
    one: &A,
    two: &B,
    alloc: Global,
) -> Result<Pair<A, B>, AllocError>
    ensures { IfOk result (λ c. c.one ≡ one.now × c.two ≡ two.now) }
{
    let one = one.copied(alloc)?;
    let two = two.copied(alloc)?;
    Ok(Pair { one, two })
}

/// Four values of one type.
pub struct Quad<A: Drop> {
    pub one: A,
    pub two: A,
    pub three: A,
    pub four: A,
}

impl<A: Drop> Drop for Quad<A> {
    fn drop(self) {
        let Quad {
            one: _,
            two: _,
            three: _,
            four: _,
        } = self;
    }
}

impl<A: Drop> Quad<A> {
    pub fn apart(self) -> (A, A, A, A)
        ensures { result ≡ (self.one, self.two, self.three, self.four) }
    {
        let Quad {
            one,
            two,
            three,
            four,
        } = self;
        (one, two, three, four)
    }
}

/// Copies of four values.
pub fn all_four<A: Copies + Drop>(
    one: &A,
    two: &A,
    three: &A,
    four: &A,
    alloc: Global,
) -> Result<Quad<A>, AllocError>
    ensures { IfOk result (λ c. c.one ≡ one.now × c.two ≡ two.now × c.three ≡ three.now × c.four ≡ four.now) }
{
    let one = one.copied(alloc)?;
    let two = two.copied(alloc)?;
    let three = three.copied(alloc)?;
    let four = four.copied(alloc)?;
    Ok(Quad {
        one,
        two,
        three,
        four,
    })
}
