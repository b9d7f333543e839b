use cell_value::NoMemory;
use shared_map::SharedMap;
use std::alloc::Global;
use std::process::Abort;

/// Writes to a map in turn: a key on the borders of parts or beside it, and what is put there; None
/// where what it holds is taken.
static WRITES: [(u64, Option<u64>); 16] = [
    (63, Some(1)),
    (64, Some(2)),
    (63, Some(3)),
    (4_294_967_295, Some(4)),
    (4_294_967_296, Some(5)),
    (63, None),
    (64, Some(6)),
    (0, Some(7)),
    (4_294_967_296, None),
    (4_294_967_296, None),
    (u64::MAX, Some(8)),
    (63, Some(9)),
    (4_294_967_295, Some(10)),
    (0, None),
    (4_294_967_295, None),
    (4_294_967_296, Some(11)),
];

/// The keys that are looked up in each version, in order.
static KEYS: [u64; 6] = [0, 63, 64, 4_294_967_295, 4_294_967_296, u64::MAX];

#[test]
fn versions_keep_what_they_held(rt: HostRuntime) {
    match versions(rt.alloc()) {
        Ok(versions) => {
            for (writes, version) in versions.iter().enumerate() {
                check(&rt, writes, holds(version, writes));
            }
        }
        Err(_) => check(&rt, 0, false),
    }
}

/// Stops where it doesn't hold of the version after so many writes.
fn check(rt: &impl Abort, writes: usize, holds: bool) {
    assert!(rt; holds, "after {writes} writes");
}

/// The map before the first write and after each, all of them held until the last is made. Every other
/// write is made to the copy, whose source is the version that is left behind.
fn versions(alloc: Global) -> Result<Vec<SharedMap<u64>>, NoMemory> {
    let mut versions = Vec::new(alloc);
    let mut map = SharedMap::new(alloc)?;
    for (key, item) in &WRITES {
        let copy = map.copy()?;
        if versions.len() % 2 == 0 {
            versions.push(copy)?;
        } else {
            versions.push(map)?;
            map = copy;
        }
        write(&mut map, *key, *item)?;
    }
    versions.push(map)?;
    Ok(versions)
}

fn write(map: &mut SharedMap<u64>, key: u64, item: Option<u64>) -> Result<(), NoMemory> {
    match item {
        Some(item) => set(map, key, item),
        None => map.take(key).map(|_| ()),
    }
}

/// Puts the item at the key, or changes the one there to it.
fn set(map: &mut SharedMap<u64>, key: u64, item: u64) -> Result<(), NoMemory> {
    if map.get(key).is_some() {
        *map.get_mut(key)? = item;
        return Ok(());
    }
    match map.put(key, item) {
        Ok(_) => Ok(()),
        Err((_, no_memory)) => Err(no_memory),
    }
}

/// Whether the map holds what so many writes leave, counts it, and lists its keys.
fn holds(map: &SharedMap<u64>, writes: usize) -> bool {
    let keys = KEYS.iter().filter(|key| left(writes, **key).is_some());
    let same = KEYS
        .iter()
        .all(|key| map.get(*key).copied() == left(writes, *key));
    let listed = match map.keys::<u64>(0, u64::MAX) {
        Ok(listed) => listed.len() as u64,
        Err(_) => 0,
    };
    same && keys.count() as u64 == map.count() && listed == map.count()
}

/// What the first writes leave at the key: what the last of them to it put.
fn left(writes: usize, key: u64) -> Option<u64> {
    let mut left = None;
    for (at, item) in WRITES.iter().take(writes) {
        if *at == key {
            left = *item;
        }
    }
    left
}
