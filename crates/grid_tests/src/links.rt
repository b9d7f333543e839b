ghost use Rattle.std.specs.Prelude.{◌≡◌, ◌<◌};

use crate::common::{check, put};
use cell_store::{Grid, MOST_LINES, TreeGrid};
use cell_value::{NoMemory, Steps};
use grid_range::{Area, Axis, Band, Change};
use link_store::{LinkGrid, Links};
use std::alloc::Global;
use std::marker::Brand;
use std::sync::ledger::{Blank, Ledger};

/// The items of a sheet of 4 rows and 3 columns, in no order.
static ITEMS: [(u32, u32, u64); 5] = [(3, 2, 5), (0, 0, 1), (1, 2, 3), (1, 0, 2), (2, 1, 4)];

/// A move of no line.
const NONE: Change = Change::Move {
    start: 0,
    end: 1,
    to: 0,
};

/// A change of rows or of columns, and the items in some rows and columns after it, with their places.
type Row = (Axis, Change, Band, Band, &'static [(u32, u32, u64)]);

static ROWS: [Row; 10] = [
    (
        Axis::Rows,
        Change::Insert { at: 1, count: 2 },
        Band::Whole,
        Band::Whole,
        &[(0, 0, 1), (3, 0, 2), (3, 2, 3), (4, 1, 4), (5, 2, 5)],
    ),
    (
        Axis::Rows,
        Change::Delete { start: 1, end: 3 },
        Band::Whole,
        Band::Whole,
        &[(0, 0, 1), (1, 2, 5)],
    ),
    (
        Axis::Rows,
        Change::Move {
            start: 0,
            end: 1,
            to: 3,
        },
        Band::Whole,
        Band::Whole,
        &[(0, 0, 2), (0, 2, 3), (1, 1, 4), (2, 0, 1), (3, 2, 5)],
    ),
    (
        Axis::Columns,
        Change::Insert { at: 3, count: 1 },
        Band::Whole,
        Band::Whole,
        &[(0, 0, 1), (1, 0, 2), (1, 2, 3), (2, 1, 4), (3, 2, 5)],
    ),
    (
        Axis::Columns,
        Change::Delete { start: 0, end: 1 },
        Band::Whole,
        Band::Whole,
        &[(1, 1, 3), (2, 0, 4), (3, 1, 5)],
    ),
    (
        Axis::Columns,
        Change::Move {
            start: 2,
            end: 3,
            to: 0,
        },
        Band::Whole,
        Band::Whole,
        &[(0, 1, 1), (1, 0, 3), (1, 1, 2), (2, 2, 4), (3, 0, 5)],
    ),
    (
        Axis::Rows,
        NONE,
        Band::Whole,
        Band::Span(2, 9),
        &[(1, 2, 3), (3, 2, 5)],
    ),
    (
        Axis::Rows,
        NONE,
        Band::Span(1, 2),
        Band::Whole,
        &[(1, 0, 2), (1, 2, 3)],
    ),
    (Axis::Rows, NONE, Band::From(3), Band::From(0), &[(3, 2, 5)]),
    (Axis::Rows, NONE, Band::From(4), Band::Whole, &[]),
];

// Both grids, beside one another.
#[test]
fn items_go_with_their_lines(rt: HostRuntime) {
    for row in &ROWS {
        check(&rt, &row.1, holds(TreeGrid::new(rt.alloc(), 4, 3), row));
        check(&rt, &row.1, holds_linked(rt.alloc(), row));
    }
}

fn holds_linked(alloc: Global, row: &Row) -> bool {
    match LinkGrid::new(alloc, 4, 3) {
        Ok(grid) => holds(grid, row),
        Err(NoMemory) => false,
    }
}

/// Whether the sheet holds what the row says once it was filled and changed.
fn holds<G: Grid<u64> + Drop>(grid: G, row: &Row) -> bool {
    let mut grid = grid;
    fill(&mut grid);
    make(&mut grid, row.0, &row.1) && has(&grid, row.2, row.3, row.4)
}

fn fill<G: Grid<u64>>(grid: &mut G) {
    for item in &ITEMS {
        let _ = put(grid, item.0, item.1, item.2);
    }
}

/// Makes the change, where it fits and leaves no more lines than a sheet can have.
fn make<G: Grid<u64>>(grid: &mut G, axis: Axis, change: &Change) -> bool {
    let (lines, others) = match axis {
        Axis::Rows => (grid.rows(), grid.cols()),
        Axis::Columns => (grid.cols(), grid.rows()),
    };
    if others < MOST_LINES && change.fits(lines) {
        if change.lines_after(lines) <= MOST_LINES - others {
            return grid.change(axis, change).is_ok();
        }
    }
    false
}

/// Whether these are the items of the bands with their places, by rows.
fn has<G: Grid<u64>>(grid: &G, rows: Band, cols: Band, expected: &[(u32, u32, u64)]) -> bool {
    let area = Area {
        sheet: 0,
        rows,
        cols,
    };
    match grid.places(&area) {
        Ok(places) => are_at(grid, places.as_slice(), expected),
        Err(NoMemory) => false,
    }
}

fn are_at<G: Grid<u64>>(grid: &G, places: &[(u32, u32)], expected: &[(u32, u32, u64)]) -> bool {
    places.len() == expected.len()
        && places
            .iter()
            .zip(expected)
            .all(|(place, item)| is_at(grid, *place, *item))
}

fn is_at<G: Grid<u64>>(grid: &G, place: (u32, u32), item: (u32, u32, u64)) -> bool {
    place == (item.0, item.1) && grid.get(item.0, item.1).copied() == Some(item.2)
}

#[test]
fn items_are_put_and_taken(rt: HostRuntime) {
    check(&rt, &"taken", is_taken(rt.alloc()));
    let counted = call_counted::<Brand>(rt.alloc(), Blank::new(1));
    check(&rt, &"counted", counted == Ok((8, None)));
}

/// Whether an item is put over another one, changed in its place, and taken.
fn is_taken(alloc: Global) -> bool {
    match LinkGrid::new(alloc, 4, 3) {
        Ok(mut grid) => {
            put(&mut grid, 2, 1, 7) == Some(None)
                && put(&mut grid, 2, 1, 8) == Some(Some(7))
                && is_changed(&mut grid)
                && grid.take(2, 1) == Some(9)
        }
        Err(NoMemory) => false,
    }
}

fn is_changed(grid: &mut LinkGrid<u64>) -> bool {
    match grid.get_mut(2, 1) {
        Some(item) => {
            *item = 9;
            true
        }
        None => false,
    }
}

/// A counted call makes the plain one: the item of a list of one, and the node behind it.
fn call_counted<L: Ledger>(alloc: Global, blank: Blank) -> Result<(u64, Option<u32>), NoMemory>
    requires name { blank.name ≡ L.name }
    requires parts { blank.parts ≡ L.parts }
    requires open { 0 < blank.parts }
{
    let mut steps = Steps::<L>::new(blank);
    let mut links: Links<u64> = Links::new(alloc);
    let list = links.add_list_counted(&mut steps)?;
    let node = match links.push_counted(list, 8, &mut steps) {
        Ok(node) => node,
        Err((_, fault)) => return Err(fault),
    };
    let next = links.next_counted(node, &mut steps);
    Ok((links.unlink_counted(node, &mut steps), next))
}
