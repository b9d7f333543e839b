use crate::common::{check, put};
use cell_store::{Grid, TreeGrid};
use cell_value::NoMemory;
use std::alloc::Global;

#[test]
fn items_have_places(rt: HostRuntime) {
    check(&rt, &"places", have_places(rt.alloc()));
}

/// Whether an item is put over another one, and a copy holds it.
fn have_places(alloc: Global) -> bool {
    let mut grid = TreeGrid::new(alloc, 4, 3);
    put(&mut grid, 1, 2, 2) == Some(None)
        && put(&mut grid, 1, 2, 3) == Some(Some(2))
        && is_copied(&grid)
}

/// Whether an item of a copy is changed in its place, and taken.
fn is_copied(grid: &TreeGrid<u64>) -> bool {
    match grid.copy() {
        Ok(mut copy) => {
            change(&mut copy);
            copy.take(1, 2) == Some(9) && copy.get(1, 2).is_none()
        }
        Err(NoMemory) => false,
    }
}

fn change(grid: &mut TreeGrid<u64>) {
    if let Some(item) = grid.get_mut(1, 2) {
        *item = 9;
    }
}
