//! A set of a few numbers.
use cm_map::set::Set;
use std::alloc::{AllocError, Global};
use std::test::Fail;

// Each test holds few sets, so that its proof is short.

fn few(alloc: Global) -> Result<Set<u64>, AllocError> {
    let mut set: Set<u64> = Set::empty(alloc);
    for key in [7, 3, 7, 5, 9] {
        set = set.with(alloc, key)?;
    }
    Ok(set)
}

fn without_five(alloc: Global, set: &Set<u64>) -> Result<Set<u64>, AllocError> {
    set.share(alloc)?.without(alloc, &5)
}

fn count_between(
    alloc: Global,
    set: &Set<u64>,
    least: u64,
    most: u64,
) -> Result<usize, AllocError> {
    let shared = set.share(alloc)?;
    let all = shared.range(alloc, &least, &most)?;
    Ok(all.len())
}

#[test]
fn keeps_each_key_once(rt: HostRuntime) -> Result<(), Fail> {
    let set = few(rt.alloc())?;
    assert_eq!(rt; set.len(), 4);
    Ok(())
}

#[test]
fn loses_one_key(rt: HostRuntime) -> Result<(), Fail> {
    let alloc = rt.alloc();
    let set = few(alloc)?;
    let less = without_five(alloc, &set)?;
    assert!(rt; set.has(&5) && !less.has(&5));
    assert_eq!(rt; less.iter().next(), Some(&(3, ())));
    Ok(())
}

#[test]
fn shows_the_keys_between(rt: HostRuntime) -> Result<(), Fail> {
    let alloc = rt.alloc();
    let set = few(alloc)?;
    let count = count_between(alloc, &set, 4, 7)?;
    assert_eq!(rt; count, 2);
    Ok(())
}
