ghost use Rattle.std.specs.Prelude.{◌^◌, ◌<◌, IfOk};
ghost use Rattle.tree_map.specs.Pairs.{IsAscending, AreBelow};

use ifc_base::Memory;
use std::alloc::Global;
use std::process::Abort;
use std::test::Fail;
use tree_map::TreeMap;

/// The greatest key.
const LAST: u64 = (1 << 40) - 1;

fn with(alloc: Global, map: &TreeMap<u64>, key: u64, value: u64) -> Result<TreeMap<u64>, Memory>
    requires { key < 2 ^ 40 }
{
    match map.with(alloc, key, value) {
        Ok(next) => Ok(next),
        Err(_) => Err(Memory),
    }
}

fn value(map: &TreeMap<u64>, key: u64) -> Option<u64> {
    map.get(key).copied()
}

fn pairs(alloc: Global, map: &TreeMap<u64>) -> Result<Vec<(u64, u64)>, Memory> {
    let mut all = Vec::new(alloc);
    for (key, value) in map.walk(alloc)? {
        all.push((key, *value))?;
    }
    Ok(all)
}

#[test]
fn a_changed_map_leaves_the_old_one(rt: HostRuntime) -> Result<(), Fail> {
    let first = with(rt.alloc(), &TreeMap::new(), 5, 1)?;
    let second = with(rt.alloc(), &first, 5, 2)?;
    let third = second.without(rt.alloc(), 5)?;
    assert_eq!(rt; value(&first, 5), Some(1));
    assert_eq!(rt; value(&second, 5), Some(2));
    assert_eq!(rt; value(&third, 5), None);
    assert_eq!(rt; pairs(rt.alloc(), &first)?.as_slice(), [(5, 1)].as_slice());
    assert_eq!(rt; value(&first.share()?, 5), Some(1));
    Ok(())
}

/// Keys on both sides of the edges of nodes, not in order; the value of each is its place here.
const KEYS: [u64; 8] = [32, LAST, 0, 1 << 35, 31, 1, (1 << 35) - 1, 1023];

const ORDERED: [(u64, u64); 8] = [
    (0, 2),
    (1, 5),
    (31, 4),
    (32, 0),
    (1023, 7),
    ((1 << 35) - 1, 6),
    (1 << 35, 3),
    (LAST, 1),
];

fn filled(alloc: Global) -> Result<TreeMap<u64>, Memory> {
    let mut map = TreeMap::new();
    for (place, key) in KEYS.iter().enumerate() {
        if *key <= LAST {
            map = with(alloc, &map, *key, place as u64)?;
        }
    }
    Ok(map)
}

fn all_found(rt: &impl Abort, map: &TreeMap<u64>) {
    for (key, held) in &ORDERED {
        assert_eq!(rt; value(map, *key), Some(*held), "{key}");
    }
}

#[test]
fn keys_at_the_edges(rt: HostRuntime) -> Result<(), Fail> {
    let map = filled(rt.alloc())?;
    all_found(&rt, &map);
    assert_eq!(rt; pairs(rt.alloc(), &map)?.as_slice(), ORDERED.as_slice());
    for key in [LAST + 1, LAST + 2, 1 << 45, u64::MAX] {
        assert_eq!(rt; value(&map, key), None);
        let same = map.without(rt.alloc(), key)?;
        assert_eq!(rt; pairs(rt.alloc(), &same)?.as_slice(), ORDERED.as_slice());
    }
    Ok(())
}

fn edges(alloc: Global) -> Result<Vec<(u64, u64)>, Memory>
    ensures ascending { IfOk result (λ pairs. IsAscending pairs.items) }
    ensures keys { IfOk result (λ pairs. AreBelow (2 ^ 40) pairs.items) }
{
    let pairs = vec![in alloc;
        (0, 2),
        (1, 5),
        (31, 4),
        (32, 0),
        (1023, 7),
        (34359738367, 6),
        (34359738368, 3),
        (1099511627775, 1),
    ]?;
    Ok(pairs)
}

#[test]
fn built_of_ascending_pairs(rt: HostRuntime) -> Result<(), Fail> {
    let built = TreeMap::of_ascending(rt.alloc(), edges(rt.alloc())?)?;
    let filled = filled(rt.alloc())?;
    for map in [&built, &filled] {
        all_found(&rt, map);
        assert_eq!(rt; pairs(rt.alloc(), map)?.as_slice(), ORDERED.as_slice());
        assert_eq!(rt; map.len(), 8);
        assert_eq!(rt; map.without(rt.alloc(), 2)?.len(), 8);
        assert_eq!(rt; map.without(rt.alloc(), 32)?.len(), 7);
        assert_eq!(rt; map.without(rt.alloc(), LAST + 1)?.len(), 8);
    }
    assert!(rt; !built.is_empty());
    Ok(())
}

#[test]
fn keys_are_taken_out(rt: HostRuntime) -> Result<(), Fail> {
    let full = filled(rt.alloc())?;
    let mut map = full.share()?;
    for key in &KEYS {
        map = map.without(rt.alloc(), *key)?;
        assert_eq!(rt; value(&map, *key), None);
        map = map.without(rt.alloc(), *key)?;
    }
    assert_eq!(rt; pairs(rt.alloc(), &map)?.len(), 0);
    assert!(rt; map.is_empty());
    all_found(&rt, &full);
    Ok(())
}
