//! One desk with two passes.
use crate::sums::Sums;
use cm_base::number::Moment;
use cm_base::text::Text;
use desk_model::{Desk, OneDesk, Version};
use outside::FixedClock;
use std::alloc::{AllocError, Global};
use std::test::Fail;

// What the second pass sees of what the first wrote, and its number.
fn seen(alloc: Global) -> Result<(u64, u32), AllocError> {
    let user = Text::from_str(alloc, "ann")?;
    let version: Version<Sums> = Version::opening(alloc, 1)?;
    let mut desk = OneDesk::new(alloc, version, FixedClock::new(5))?;
    let mut first = desk.pass()?;
    let mut second = desk.pass()?;
    drop(desk.write(alloc, &mut (), &mut first, 0, &user, Moment(3), 40));
    let snapshot = desk.look(&mut (), &mut second)?;
    Ok((snapshot.number(), desk.session(&second)))
}

#[test]
fn another_pass_sees_the_write(rt: HostRuntime) -> Result<(), Fail> {
    assert_eq!(rt; seen(rt.alloc())?, (41, 1));
    Ok(())
}
