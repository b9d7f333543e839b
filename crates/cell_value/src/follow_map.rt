ghost use Rattle.std.specs.Prelude.{◌≡◌, All};
ghost use Rattle.std.specs.List.{filter_map};
ghost use Rattle.indexmap.specs.IndexMap.{values};
ghost use Rattle.cell_value.specs.Entries.{entry_followed};

use crate::Follow;
use indexmap::IndexMap;
use std::hash::Hash;

/// Has each value of a map follow the change, and drops those that are lost with their keys; the
/// others keep their keys and their order. It takes no memory.
pub fn follow_values<K: Eq + Hash + Drop, V: Follow<C> + Drop, C>(
    map: &mut IndexMap<K, V>,
    change: &C,
)
    requires { All (V.can_follow change.now) (values map.old) }
    ensures followed { map.new.entries
        ≡ filter_map (entry_followed (V.becomes change.now)) map.old.entries }
    ensures has_followed { All (V.has_followed change.now) (values map.new) }
{
    let mut kept = 0;
    for at in 0..map.len() {
        if map[at].follow(change) {
            map.swap_indices(kept, at);
            kept += 1;
        }
    }
    map.truncate(kept);
}
