use crate::common::check;
use cell_value::NoMemory;
use shared_map::SharedMap;
use std::alloc::Global;

/// The keys on both sides of the borders of parts of each size, and the first and the last of all.
static BORDERS: [u64; 16] = [
    0,
    63,
    64,
    4_095,
    4_096,
    262_143,
    262_144,
    4_294_967_295,
    4_294_967_296,
    274_877_906_943,
    274_877_906_944,
    17_592_186_044_415,
    17_592_186_044_416,
    1_125_899_906_842_623,
    1_125_899_906_842_624,
    u64::MAX,
];

/// Ranges of keys, and which of the borders they hold.
static RANGES: [(u64, u64, &[u64]); 5] = [
    (63, 63, &[63]),
    (64, 4_095, &[64, 4_095]),
    (65, 4_094, &[]),
    (
        1_125_899_906_842_624,
        u64::MAX,
        &[1_125_899_906_842_624, u64::MAX],
    ),
    (64, 63, &[]),
];

#[test]
fn keys_stand_in_ranges(rt: HostRuntime) {
    let map = filled(rt.alloc());
    for row in &RANGES {
        check(&rt, &row.0, has_keys(&map, row.0, row.1, row.2));
    }
    check(&rt, &"all", has_keys(&map, 0, u64::MAX, &BORDERS));
}

/// A map in which each of the borders has itself as its item.
fn filled(alloc: Global) -> Option<SharedMap<u64>> {
    let Ok(mut map) = SharedMap::new(alloc) else {
        return None;
    };
    for key in &BORDERS {
        if !is_put(&mut map, *key) {
            return None;
        }
    }
    Some(map)
}

/// Whether the key had no item, and has itself then.
fn is_put(map: &mut SharedMap<u64>, key: u64) -> bool {
    match map.put(key, key) {
        Ok(old) => old.is_none(),
        Err(_) => false,
    }
}

fn has_keys(map: &Option<SharedMap<u64>>, first: u64, last: u64, expected: &[u64]) -> bool {
    match map {
        Some(map) => match map.keys::<u64>(first, last) {
            Ok(keys) => keys.as_slice() == expected,
            Err(NoMemory) => false,
        },
        None => false,
    }
}

#[test]
fn items_are_taken(rt: HostRuntime) {
    let mut map = filled(rt.alloc());
    for key in &BORDERS {
        check(&rt, key, takes(&mut map, *key));
    }
    check(&rt, &"empty", is_empty(&map));
    check(&rt, &"none", has_keys(&map, 0, u64::MAX, &[]));
    check(&rt, &"again", puts(&mut map, 4_096));
    check(&rt, &"one", has_keys(&map, 0, u64::MAX, &[4_096]));
}

/// Whether the key had no item, and has itself then.
fn puts(map: &mut Option<SharedMap<u64>>, key: u64) -> bool {
    match map {
        Some(map) => is_put(map, key),
        None => false,
    }
}

/// Whether the key has itself as its item, which is taken.
fn takes(map: &mut Option<SharedMap<u64>>, key: u64) -> bool {
    match map {
        Some(map) => map.get(key).copied() == Some(key) && is_taken(map, key),
        None => false,
    }
}

fn is_taken(map: &mut SharedMap<u64>, key: u64) -> bool {
    match map.take(key) {
        Ok(item) => item == Some(key),
        Err(NoMemory) => false,
    }
}

fn is_empty(map: &Option<SharedMap<u64>>) -> bool {
    match map {
        Some(map) => map.count() == 0 && map.get(u64::MAX).is_none(),
        None => false,
    }
}
