use crate::common::check;
use cell_store::{CellStore, MOST_FILLED, MOST_LINES, TreeGrid};
use cell_value::NoMemory;
use grid_range::{Area, Axis, Band, Change};
use shared_grid::SharedGrid;
use std::alloc::Global;

/// A step on a sheet.
enum Step {
    Put(u32, u32, u64),
    Take(u32, u32),
    Change(Axis, Change),
}

/// Steps on a sheet of 4 rows and 3 columns, in turn. A line that is inserted after one was deleted has
/// its number, and finds nothing of what stood there.
static STEPS: [Step; 18] = [
    Step::Put(0, 0, 1),
    Step::Put(3, 2, 2),
    Step::Put(1, 1, 3),
    Step::Put(1, 1, 4),
    Step::Take(3, 2),
    Step::Put(1, 2, 5),
    Step::Change(Axis::Rows, Change::Delete { start: 1, end: 2 }),
    Step::Change(Axis::Rows, Change::Insert { at: 0, count: 3 }),
    Step::Put(2, 2, 6),
    Step::Take(0, 0),
    Step::Put(5, 1, 7),
    Step::Change(
        Axis::Columns,
        Change::Move {
            start: 2,
            end: 3,
            to: 0,
        },
    ),
    Step::Put(5, 0, 8),
    Step::Change(Axis::Columns, Change::Delete { start: 0, end: 1 }),
    Step::Change(
        Axis::Rows,
        Change::Move {
            start: 0,
            end: 2,
            to: 6,
        },
    ),
    Step::Change(Axis::Columns, Change::Insert { at: 2, count: 1 }),
    Step::Put(0, 2, 9),
    Step::Take(0, 1),
];

/// Areas of the sheet, also beyond its lines.
static AREAS: [Area; 6] = [
    Area {
        sheet: 0,
        rows: Band::Whole,
        cols: Band::Whole,
    },
    Area {
        sheet: 0,
        rows: Band::Span(1, 2),
        cols: Band::Whole,
    },
    Area {
        sheet: 0,
        rows: Band::Whole,
        cols: Band::Span(1, 2),
    },
    Area {
        sheet: 0,
        rows: Band::From(2),
        cols: Band::From(1),
    },
    Area {
        sheet: 0,
        rows: Band::Span(0, 9),
        cols: Band::Span(0, 9),
    },
    Area {
        sheet: 0,
        rows: Band::From(9),
        cols: Band::Whole,
    },
];

// Each version is left behind by the steps that follow, and is looked at after the last of them.
#[test]
fn versions_are_those_of_a_tree_grid(rt: HostRuntime) {
    let trees = versions(rt.alloc(), TreeGrid::new(rt.alloc(), 4, 3));
    match (trees, shared_versions(rt.alloc())) {
        (Ok(trees), Ok(versions)) => {
            for (steps, (tree, version)) in trees.iter().zip(&versions).enumerate() {
                check(&rt, &steps, are_alike(tree, version));
            }
        }
        _ => check(&rt, &"versions", false),
    }
}

fn shared_versions(alloc: Global) -> Result<Vec<SharedGrid<u64>>, NoMemory> {
    versions(alloc, SharedGrid::new(alloc, 4, 3)?)
}

/// The sheet before the first step and after each. Every other step is made on the copy, whose source is
/// the version that is left behind.
fn versions<G: CellStore<u64> + Drop>(alloc: Global, sheet: G) -> Result<Vec<G>, NoMemory> {
    let mut sheet = sheet;
    let mut versions = Vec::new(alloc);
    for step in &STEPS {
        let copy = sheet.copy()?;
        if versions.len() % 2 == 0 {
            versions.push(copy)?;
        } else {
            versions.push(sheet)?;
            sheet = copy;
        }
        make(&mut sheet, step)?;
    }
    versions.push(sheet)?;
    Ok(versions)
}

/// Makes the step, where the sheet has such a place or lines, and room.
fn make<G: CellStore<u64>>(sheet: &mut G, step: &Step) -> Result<(), NoMemory> {
    match *step {
        Step::Put(row, column, item) => put(sheet, row, column, item),
        Step::Take(row, column) => sheet.take(row, column).map(|_| ()),
        Step::Change(axis, change) => make_change(sheet, axis, &change),
    }
}

fn put<G: CellStore<u64>>(sheet: &mut G, row: u32, column: u32, item: u64) -> Result<(), NoMemory> {
    if row >= sheet.rows() || column >= sheet.cols() || sheet.filled() >= MOST_FILLED {
        return Err(NoMemory);
    }
    match sheet.put(row, column, item) {
        Ok(_) => Ok(()),
        Err((_, no_memory)) => Err(no_memory),
    }
}

fn make_change<G: CellStore<u64>>(
    sheet: &mut G,
    axis: Axis,
    change: &Change,
) -> Result<(), NoMemory> {
    let (lines, others) = match axis {
        Axis::Rows => (sheet.rows(), sheet.cols()),
        Axis::Columns => (sheet.cols(), sheet.rows()),
    };
    if others < MOST_LINES && change.fits(lines) {
        if change.lines_after(lines) <= MOST_LINES - others {
            return sheet.change(axis, change);
        }
    }
    Err(NoMemory)
}

/// Whether the sheets have the same size, count the same items, and have them at the same places of each
/// area.
fn are_alike<A: CellStore<u64>, B: CellStore<u64>>(one: &A, other: &B) -> bool {
    one.rows() == other.rows()
        && one.cols() == other.cols()
        && one.filled() == other.filled()
        && AREAS.iter().all(|area| have_same(one, other, area))
}

fn have_same<A: CellStore<u64>, B: CellStore<u64>>(one: &A, other: &B, area: &Area) -> bool {
    match (one.places(area), other.places(area)) {
        (Ok(places), Ok(others)) => {
            places.as_slice() == others.as_slice()
                && places.as_slice().iter().all(|place| one.get(place.0, place.1)
                    == other.get(place.0, place.1))
        }
        _ => false,
    }
}

#[test]
fn items_are_changed_in_their_places(rt: HostRuntime) {
    check(&rt, &"changed", is_changed(rt.alloc()));
}

/// Whether an item is changed in its place, and a copy keeps what was there.
fn is_changed(alloc: Global) -> bool {
    match filled(alloc) {
        Ok(mut sheet) => match sheet.copy() {
            Ok(copy) => change(&mut sheet).is_ok() && holds(&sheet, 9) && holds(&copy, 7),
            Err(NoMemory) => false,
        },
        Err(NoMemory) => false,
    }
}

/// A sheet with a 7 in it.
fn filled(alloc: Global) -> Result<SharedGrid<u64>, NoMemory> {
    let mut sheet = SharedGrid::new(alloc, 4, 3)?;
    put(&mut sheet, 1, 2, 7)?;
    Ok(sheet)
}

/// Changes the item to a 9, where there is one.
fn change(sheet: &mut SharedGrid<u64>) -> Result<(), NoMemory> {
    if sheet.get(1, 2).is_some() {
        *sheet.get_mut(1, 2)? = 9;
    }
    Ok(())
}

fn holds(sheet: &SharedGrid<u64>, item: u64) -> bool {
    sheet.get(1, 2).copied() == Some(item)
}
