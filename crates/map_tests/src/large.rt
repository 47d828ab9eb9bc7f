ghost use Rattle.std.specs.Prelude.{◌^◌, ◌<◌};

use ifc_base::Memory;
use std::alloc::Global;
use std::process::Abort;
use std::test::Fail;
use tree_map::TreeMap;

/// How many pairs the large map has, and how many maps are made of it by one change each.
const PAIRS: u64 = 1_000_000;

const CHANGES: u64 = 1_000;

/// The key of the pair with this number: keys lie 16 apart, as those of the ids of a model.
fn key_of(number: u64) -> u64
    requires { number < 1_000_000 }
    ensures { result < 2 ^ 40 }
{
    number * 16
}

/// The number of the pair that the change with this number changes.
fn changed(change: u64) -> u64
    requires { change < 1_000 }
    ensures { result < 1_000_000 }
{
    change * 997
}

fn with(alloc: Global, map: &TreeMap<u64>, key: u64, value: u64) -> Result<TreeMap<u64>, Memory>
    requires { key < 2 ^ 40 }
{
    match map.with(alloc, key, value) {
        Ok(next) => Ok(next),
        Err(_) => Err(Memory),
    }
}

fn built(alloc: Global) -> Result<TreeMap<u64>, Memory> {
    let mut map = TreeMap::new();
    for number in 0..PAIRS {
        map = with(alloc, &map, key_of(number), number)?;
    }
    Ok(map)
}

/// A thousand maps, each of which has another value at one key.
fn changed_maps(alloc: Global, map: &TreeMap<u64>) -> Result<Vec<TreeMap<u64>>, Memory> {
    let mut maps = Vec::new(alloc);
    for change in 0..CHANGES {
        maps.push(with(alloc, map, key_of(changed(change)), PAIRS + change)?)?;
    }
    Ok(maps)
}

fn value(map: &TreeMap<u64>, key: u64) -> Option<u64> {
    map.get(key).copied()
}

/// The walk gives each pair once, in order.
fn is_walked(rt: &impl Abort, alloc: Global, map: &TreeMap<u64>) -> Result<(), Memory> {
    let mut next = 0;
    for (key, value) in map.walk(alloc)? {
        assert!(rt; next < PAIRS);
        assert_eq!(rt; (key, *value), (key_of(next), next));
        next += 1;
    }
    assert_eq!(rt; next, PAIRS);
    Ok(())
}

#[test]
fn a_thousand_changes_of_a_million_pairs(rt: HostRuntime) -> Result<(), Fail> {
    let map = built(rt.alloc())?;
    let maps = changed_maps(rt.alloc(), &map)?;
    for change in 0..CHANGES {
        let next = maps.get(change as usize).ok_or("a map is missing")?;
        let number = changed(change);
        assert_eq!(rt; value(next, key_of(number)), Some(PAIRS + change));
        assert_eq!(rt; value(next, key_of(number) + 16), Some(number + 1));
        assert_eq!(rt; value(&map, key_of(number)), Some(number));
    }
    is_walked(&rt, rt.alloc(), &map)?;
    Ok(())
}
