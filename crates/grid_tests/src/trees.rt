use crate::common::check;
use cell_value::NoMemory;
use shared_map::SharedMap;
use std::alloc::Global;
use std::collections::BTreeMap;

/// How many writes are made, to 320 keys at most.
const WRITES: u64 = 1_000;

/// A shared map and a tree, to which the same is written.
#[derive(Drop)]
struct Pair {
    map: SharedMap<u64>,
    tree: BTreeMap<u64, u64>,
}

#[test]
fn a_shared_map_is_as_a_tree(rt: HostRuntime) {
    match empty(rt.alloc()) {
        Ok(mut pair) => {
            for number in 0..WRITES {
                check(&rt, &number, write(&mut pair, number));
            }
            check(&rt, &WRITES, is_same(&pair));
        }
        Err(NoMemory) => check(&rt, &0, false),
    }
}

fn empty(alloc: Global) -> Result<Pair, NoMemory> {
    Ok(Pair {
        map: SharedMap::new(alloc)?,
        tree: BTreeMap::new(alloc),
    })
}

/// Makes a write to both: of three in turn the last takes what its key holds. Whether both had the same
/// there.
fn write(pair: &mut Pair, number: u64) -> bool {
    let key = key(number);
    if number % 3 == 2 {
        take(pair, key)
    } else {
        put(pair, key, number)
    }
}

/// One of five keys in a row, from a power of two on.
fn key(number: u64) -> u64 {
    1_u64
        .rotate_left((number % 64) as u32)
        .wrapping_add(number % 5)
}

fn put(pair: &mut Pair, key: u64, item: u64) -> bool {
    match (pair.map.put(key, item), pair.tree.insert(key, item)) {
        (Ok(old), Ok(other)) => old == other,
        _ => false,
    }
}

fn take(pair: &mut Pair, key: u64) -> bool {
    match pair.map.take(key) {
        Ok(item) => item == pair.tree.remove(&key),
        Err(NoMemory) => false,
    }
}

/// Whether both hold as many items, and the same one at each key that the map lists.
fn is_same(pair: &Pair) -> bool {
    match pair.map.keys::<u64>(0, u64::MAX) {
        Ok(keys) => {
            keys.len() == pair.tree.len()
                && keys
                    .iter()
                    .all(|key| pair.map.get(*key) == pair.tree.get(key))
        }
        Err(NoMemory) => false,
    }
}
