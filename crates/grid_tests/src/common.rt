use cell_store::{Grid, MOST_FILLED};
use std::fmt::Debug;
use std::process::Abort;

/// Stops where it doesn't hold of the row.
pub(crate) fn check<T: Debug>(rt: &impl Abort, row: &T, holds: bool) {
    assert!(rt; holds, "{row:?}");
}

/// Puts the item at the place, and gives the one that was there; None where the sheet has no such place,
/// no room, or memory runs out.
pub(crate) fn put<G: Grid<u64>>(
    grid: &mut G,
    row: u32,
    column: u32,
    item: u64,
) -> Option<Option<u64>> {
    if row >= grid.rows() || column >= grid.cols() || grid.filled() >= MOST_FILLED {
        return None;
    }
    match grid.put(row, column, item) {
        Ok(old) => Some(old),
        Err(_) => None,
    }
}
