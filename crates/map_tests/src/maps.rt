//! Maps beside plain lists, and older maps that stand.
use cm_map::map::Map;
use std::alloc::AllocError;
use std::test::Fail;

fn next_number(x: u64) -> u64 {
    x.wrapping_mul(6364136223846793005)
        .wrapping_add(1442695040888963407)
}

fn plain_put(list: &mut Vec<(u64, u64)>, key: u64, value: u64) -> Result<(), AllocError> {
    for entry in list.iter_mut() {
        if entry.0 == key {
            entry.1 = value;
            return Ok(());
        }
    }
    list.push((key, value))?;
    Ok(())
}

fn agree(map: &Map<u64, u64>, list: &[(u64, u64)]) -> bool {
    list.iter().all(|e| map.get(&e.0) == Some(&e.1)) && map.len() == list.len() as u64
}

fn rises(map: &Map<u64, u64>) -> bool {
    let mut next = 0;
    for e in map.iter() {
        if e.0 < next || e.0 == u64::MAX {
            return false;
        }
        next = e.0 + 1;
    }
    true
}

#[test]
fn agrees_with_a_plain_list(rt: HostRuntime) -> Result<(), Fail> {
    let alloc = rt.alloc();
    let mut list: Vec<(u64, u64)> = Vec::new(alloc);
    let mut map: Map<u64, u64> = Map::empty(alloc);
    let mut x = 1;
    for _ in 0..1000 {
        x = next_number(x);
        let key = (x >> 33) % 700;
        if (x >> 20) % 3 == 0 {
            list.retain(|e| e.0 != key);
            map = map.without(alloc, &key)?;
        } else {
            plain_put(&mut list, key, x)?;
            map = map.with(alloc, key, x)?;
        }
        assert!(rt; agree(&map, &list) && rises(&map));
    }
    let within = list.iter().filter(|e| 100 <= e.0 && e.0 <= 300).count();
    assert_eq!(rt; map.range(alloc, &100, &300)?.len(), within);
    assert!(rt; !map.is_empty());
    Ok(())
}

#[test]
fn older_maps_stand(rt: HostRuntime) -> Result<(), Fail> {
    let alloc = rt.alloc();
    let mut map: Map<u64, u64> = Map::empty(alloc);
    for key in 0..70_000u64 {
        map = map.with(alloc, key, key)?;
    }
    let whole = map.share(alloc)?;
    for key in 100..69_900u64 {
        map = map.without(alloc, &key)?;
    }
    assert_eq!(rt; map.len(), 200);
    assert_eq!(rt; map.width(), 1);
    assert_eq!(rt; map.blocks().len(), 1);
    assert_eq!(rt; whole.len(), 70_000);
    assert!(rt; whole.width() > 1);
    assert!(rt; rises(&map) && rises(&whole));
    assert_eq!(rt; whole.get(&10_000), Some(&10_000));
    assert_eq!(rt; map.get(&10_000), None);
    Ok(())
}
