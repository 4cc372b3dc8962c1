//! Lists and maps.
use std::alloc::Global;
use tm_list::{Copied, Key, Map, NoMemory, Same, Seq};

/// A copy that is made through the bound, and whether it is the same as its original.
fn copied<T: Copied + Same>(alloc: Global, value: &T) -> Result<(T, bool), NoMemory> {
    let made = value.copy(alloc)?;
    let same = made.same(value);
    Ok((made, same))
}

/// The rank of a key, through the bound.
fn rank_of<K: Key>(key: &K) -> u16 {
    key.rank()
}

#[test]
fn a_list_keeps_its_elements_in_order(rt: HostRuntime) -> Result<(), NoMemory> {
    let mut list = Seq::new(rt.alloc());
    assert!(rt; list.is_empty() && list.pop().is_none());
    for number in [3u32, 1, 4] {
        list.push(number)?;
    }
    assert_eq!(rt; list.as_slice(), [3u32, 1, 4].as_slice());
    list.set(1, 5);
    let found = (list.len(), list.get(1).copied(), list.get(3).copied());
    assert_eq!(rt; found, (3, Some(5), None));
    list.push(9)?;
    assert_eq!(rt; (list.pop(), list.len()), (Some(9), 3));
    assert_eq!(rt; list.take().as_slice(), [3u32, 5, 4].as_slice());
    assert!(rt; list.is_empty() && list.fresh::<u8>().is_empty());
    Ok(())
}

#[test]
fn lists_are_copied_and_compared(rt: HostRuntime) -> Result<(), NoMemory> {
    let mut text = Seq::from_bytes(rt.alloc(), b"ab")?;
    let (copy, same) = copied(rt.alloc(), &text)?;
    assert!(rt; same);
    assert_eq!(rt; copy.bytes(), b"ab".as_slice());
    text.push(b'c')?;
    assert!(rt; !copy.same(&text));
    let other = Seq::from_vec(text.into_vec());
    assert_eq!(rt; other.bytes(), b"abc".as_slice());
    Ok(())
}

#[test]
fn values_are_copied_and_compared(rt: HostRuntime) -> Result<(), NoMemory> {
    let alloc = rt.alloc();
    let equal = [
        copied(alloc, &255u8)? == (255, true),
        copied(alloc, &65535u16)? == (65535, true),
        copied(alloc, &4294967295u32)? == (4294967295, true),
        copied(alloc, &u64::MAX)? == (u64::MAX, true),
        copied(alloc, &u128::MAX)? == (u128::MAX, true),
        copied(alloc, &true)? == (true, true),
        copied(alloc, &())?.1,
        copied(alloc, &(1u8, Some(2u8)))? == ((1, Some(2)), true),
    ];
    assert_eq!(rt; equal, [true; 8]);
    let unequal = [
        1u8.same(&2),
        1u16.same(&2),
        1u32.same(&2),
        1u64.same(&2),
        1u128.same(&2),
        true.same(&false),
        Some(1u8).same(&None),
        (1u8, 2u8).same(&(1, 3)),
    ];
    assert_eq!(rt; unequal, [false; 8]);
    Ok(())
}

#[test]
fn a_map_is_ordered_by_its_keys(rt: HostRuntime) -> Result<(), NoMemory> {
    let mut map = Map::new(rt.alloc());
    for (key, value) in [(5u8, 50u32), (2, 20), (9, 90), (5, 55)] {
        map.put(key, value)?;
    }
    assert_eq!(rt; map.as_slice(), [(2u8, 20u32), (5, 55), (9, 90)].as_slice());
    let found = (map.get(&5).copied(), map.get(&6).copied());
    assert_eq!(rt; found, (Some(55), None));
    let (copy, same) = copied(rt.alloc(), &map)?;
    assert!(rt; same);
    assert_eq!(rt;
        (map.replace(&9, 99), map.replace(&6, 66)),
        (Some(90), None)
    );
    map.remove(&5);
    map.remove(&6);
    assert_eq!(rt; map.as_slice(), [(2u8, 20u32), (9, 99)].as_slice());
    assert_eq!(rt;
        copy.as_slice(),
        [(2u8, 20u32), (5, 55), (9, 90)].as_slice()
    );
    assert!(rt; !copy.same(&map));
    assert_eq!(rt; (rank_of(&0u8), rank_of(&255u8)), (0, 255));
    Ok(())
}
