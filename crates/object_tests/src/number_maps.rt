//! Tests maps of numbers, with small and with large keys.

use number_map::NumberMap;
use std::test::Fail;

#[test]
fn a_number_map_keeps_the_values_of_small_and_large_keys(rt: HostRuntime) -> Result<(), Fail> {
    let mut map = NumberMap::new(rt.alloc());
    let keys: [u64; 6] = [0, 7, 65_535, 65_536, 100_000, u64::MAX];
    for key in keys {
        assert!(rt; map.get(key).is_none());
        map.insert(key, key / 2)?;
    }
    for key in keys {
        assert!(rt; map.get(key) == Some(key / 2));
    }
    assert!(rt; map.get(8).is_none() && map.get(65_537).is_none());
    map.insert(7, 1)?;
    map.insert(100_000, 2)?;
    assert!(rt; map.get(7) == Some(1) && map.remove(7) == Some(1) && map.remove(7).is_none());
    assert!(rt; map.remove(100_000) == Some(2) && map.get(100_000).is_none());
    assert!(rt; map.get(0) == Some(0));
    Ok(())
}

#[test]
fn a_number_map_puts_values_at_the_end_of_lists(rt: HostRuntime) -> Result<(), Fail> {
    let mut map: NumberMap<Vec<u64>> = NumberMap::new(rt.alloc());
    let keys: [u64; 4] = [3, 0, 65_536, u64::MAX];
    for key in keys {
        assert!(rt; map.push(rt.alloc(), key, key)?);
        assert!(rt; !map.push(rt.alloc(), key, 7)?);
    }
    for key in keys {
        assert!(rt;
            map.remove(key)
                .is_some_and(|list| list.as_slice() == [key, 7].as_slice())
        );
    }
    assert!(rt; map.push(rt.alloc(), 3, 1)? && map.remove(2).is_none());
    Ok(())
}
