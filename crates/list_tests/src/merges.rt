ghost use Rattle.std.specs.Prelude.{◌≡◌, ◌↔◌, IsTrue};
ghost use Rattle.grid_range.specs.declared.band.Band.TheVariants.{Span};
ghost use Rattle.merge_ranges.specs.Following.{AreWithin};

use crate::common::check;
use cell_value::Duplicate;
use grid_range::{Area, Axis, Band, Change};
use merge_ranges::{MergeFault, Merges};
use std::alloc::Global;

/// An area by its first row, the row past its last, its first column and the one past its last.
type Corners = (u32, u32, u32, u32);

const A1_B2: Corners = (0, 2, 0, 2);

const A1_B3: Corners = (0, 3, 0, 2);

const A1_B4: Corners = (0, 4, 0, 2);

const A1_B1: Corners = (0, 1, 0, 2);

const A1_A2: Corners = (0, 2, 0, 1);

const D1_E1: Corners = (0, 1, 3, 5);

/// Merges, an area that is merged too, and the merges then; None where it cuts one.
static MERGED: [(&[Corners], Corners, Option<&[Corners]>); 8] = [
    (&[], A1_B2, Some(&[A1_B2])),
    (&[D1_E1], A1_B2, Some(&[A1_B2, D1_E1])),
    (&[A1_B2], D1_E1, Some(&[A1_B2, D1_E1])),
    (&[A1_B2], A1_B3, Some(&[A1_B3])),
    (&[A1_B2, D1_E1], (0, 9, 0, 9), Some(&[(0, 9, 0, 9)])),
    (&[A1_B2], A1_B2, Some(&[A1_B2])),
    (&[A1_B3], A1_B2, None),
    (&[A1_B2, D1_E1], (0, 1, 1, 4), None),
];

#[test]
fn cells_are_merged(rt: HostRuntime) {
    for row in &MERGED {
        let mut merges = merged(rt.alloc(), row.0);
        let added = add(&mut merges, row.1).is_ok();
        check(&rt, row, added == row.2.is_some());
        check(&rt, row, are(&merges, row.2.unwrap_or(row.0)));
    }
}

/// Merges, an area each of whose lines on an axis is merged by itself, how many merges it doesn't hold whole, and
/// the merges then; None where it cuts one.
static MERGED_LINES: [(&[Corners], Corners, Axis, u64, Option<&[Corners]>); 7] = [
    (&[], A1_B2, Axis::Rows, 0, Some(&[A1_B1, (1, 2, 0, 2)])),
    (&[], A1_B2, Axis::Columns, 0, Some(&[A1_A2, (0, 2, 1, 2)])),
    (&[D1_E1], A1_B1, Axis::Columns, 1, Some(&[D1_E1])),
    (&[A1_A2, D1_E1], A1_A2, Axis::Rows, 1, Some(&[D1_E1])),
    (
        &[A1_B2, D1_E1],
        (0, 2, 0, 5),
        Axis::Rows,
        0,
        Some(&[(0, 1, 0, 5), (1, 2, 0, 5)]),
    ),
    (&[A1_B3], A1_B2, Axis::Rows, 1, None),
    (&[A1_B2, D1_E1], (0, 2, 0, 4), Axis::Columns, 1, None),
];

#[test]
fn lines_are_merged(rt: HostRuntime) {
    for row in &MERGED_LINES {
        let mut merges = merged(rt.alloc(), row.0);
        check(&rt, row, merges.left_by(&area(row.1)) == row.3);
        let added = add_lines(&mut merges, row.1, row.2).is_ok();
        check(&rt, row, added == row.4.is_some());
        check(&rt, row, are(&merges, row.4.unwrap_or(row.0)));
    }
}

/// Bands of rows and of columns, and those of the two merges that are left; None where one is cut.
static SPLIT: [(Band, Band, Option<&[Corners]>); 6] = [
    (Band::Whole, Band::Whole, Some(&[])),
    (Band::From(0), Band::Span(0, 3), Some(&[D1_E1])),
    (Band::Whole, Band::From(2), Some(&[A1_B2])),
    (Band::Span(4, 4), Band::Span(0, 9), Some(&[A1_B2, D1_E1])),
    (Band::Span(0, 1), Band::Whole, None),
    (Band::Span(0, 1), Band::Span(3, 4), None),
];

#[test]
fn merges_are_dissolved(rt: HostRuntime) {
    let two = merged(rt.alloc(), &[A1_B2, D1_E1]);
    for row in &SPLIT {
        check(&rt, row, is_split(&two, row.0, row.1, row.2));
    }
    check(&rt, &"copied", are(&two, &[A1_B2, D1_E1]));
}

/// Whether the two merges are dissolved in these bands so that those are left; None where one is cut.
fn is_split(two: &Merges, rows: Band, cols: Band, left: Option<&[Corners]>) -> bool {
    match two.duplicate() {
        Ok(mut copy) => {
            let split = copy.split(&Area {
                sheet: 7,
                rows,
                cols,
            });
            split.is_ok() == left.is_some() && are(&copy, left.unwrap_or(&[A1_B2, D1_E1]))
        }
        Err(_) => false,
    }
}

/// Cells, and whether one of two merges covers them.
static COVERED: [(u32, u32, bool); 9] = [
    (0, 0, false),
    (0, 1, true),
    (1, 0, true),
    (1, 1, true),
    (2, 0, false),
    (0, 2, false),
    (0, 3, false),
    (0, 4, true),
    (1, 4, false),
];

#[test]
fn all_cells_but_the_first_are_covered(rt: HostRuntime) {
    let merges = merged(rt.alloc(), &[A1_B2, D1_E1]);
    for row in &COVERED {
        check(&rt, row, merges.covers(row.0, row.1) == row.2);
    }
}

/// An area, an axis, a line of it, and which of its cells two merges cover.
static COVERED_LINES: [(Corners, Axis, u32, &[bool]); 8] = [
    (
        (0, 3, 0, 5),
        Axis::Rows,
        0,
        &[false, true, false, false, true],
    ),
    (
        (0, 3, 0, 5),
        Axis::Rows,
        1,
        &[true, true, false, false, false],
    ),
    (
        (0, 3, 0, 5),
        Axis::Rows,
        2,
        &[false, false, false, false, false],
    ),
    ((0, 3, 0, 5), Axis::Columns, 0, &[false, true, false]),
    ((0, 3, 0, 5), Axis::Columns, 1, &[true, true, false]),
    ((0, 3, 0, 5), Axis::Columns, 4, &[true, false, false]),
    ((1, 2, 1, 4), Axis::Rows, 1, &[true, false, false]),
    ((1, 2, 1, 4), Axis::Columns, 1, &[true]),
];

#[test]
fn covered_cells_are_told_by_lines(rt: HostRuntime) {
    let merges = merged(rt.alloc(), &[A1_B2, D1_E1]);
    for row in &COVERED_LINES {
        check(&rt, row, are_covered(&merges, row.0, row.1, row.2, row.3));
    }
}

/// Whether those cells of a line of the area are covered, which is asked for behind the area's first one.
fn are_covered(merges: &Merges, corners: Corners, axis: Axis, line: u32, covered: &[bool]) -> bool {
    let (top, bottom, left, right) = corners;
    let (first, past) = match axis {
        Axis::Rows => (top, bottom),
        Axis::Columns => (left, right),
    };
    if bottom <= top || right <= left || line < first || past <= line {
        return false;
    }
    match merges.covered_lines(axis, &area(corners)) {
        Ok(mut lines) => {
            lines.go_to(first).is_ok() && lines.go_to(line).is_ok() && lines.covered() == covered
        }
        Err(_) => false,
    }
}

/// Merges, a change in a sheet of 12 rows and columns, and the merges then; None where it tears one.
static CHANGED: [(&[Corners], Axis, Change, Option<&[Corners]>); 13] = [
    (
        &[A1_B3],
        Axis::Rows,
        Change::Insert { at: 1, count: 1 },
        Some(&[A1_B4]),
    ),
    (
        &[A1_B4],
        Axis::Rows,
        Change::Delete { start: 0, end: 1 },
        Some(&[A1_B3]),
    ),
    (
        &[A1_B3],
        Axis::Rows,
        Change::Delete { start: 0, end: 2 },
        Some(&[A1_B1]),
    ),
    (
        &[A1_B1],
        Axis::Columns,
        Change::Delete { start: 1, end: 2 },
        Some(&[]),
    ),
    (
        &[A1_B2, D1_E1],
        Axis::Columns,
        Change::Delete { start: 0, end: 2 },
        Some(&[(0, 1, 1, 3)]),
    ),
    (
        &[A1_B3],
        Axis::Rows,
        Change::Move {
            start: 1,
            end: 2,
            to: 10,
        },
        None,
    ),
    (
        &[A1_B3],
        Axis::Rows,
        Change::Move {
            start: 1,
            end: 2,
            to: 2,
        },
        Some(&[A1_B3]),
    ),
    (
        &[A1_B3],
        Axis::Rows,
        Change::Move {
            start: 0,
            end: 1,
            to: 3,
        },
        None,
    ),
    (
        &[A1_B3],
        Axis::Rows,
        Change::Move {
            start: 5,
            end: 6,
            to: 1,
        },
        None,
    ),
    (
        &[A1_B3],
        Axis::Rows,
        Change::Move {
            start: 0,
            end: 4,
            to: 12,
        },
        Some(&[(8, 11, 0, 2)]),
    ),
    (
        &[A1_B2],
        Axis::Columns,
        Change::Move {
            start: 0,
            end: 2,
            to: 5,
        },
        Some(&[(0, 2, 3, 5)]),
    ),
    (
        &[A1_B2, (4, 5, 2, 5)],
        Axis::Rows,
        Change::Move {
            start: 4,
            end: 6,
            to: 0,
        },
        Some(&[(0, 1, 2, 5), (2, 4, 0, 2)]),
    ),
    (
        &[(0, 2, 3, 5), (1, 3, 0, 2)],
        Axis::Rows,
        Change::Delete { start: 0, end: 1 },
        Some(&[(0, 2, 0, 2), (0, 1, 3, 5)]),
    ),
];

#[test]
fn merges_go_with_their_lines(rt: HostRuntime) {
    for row in &CHANGED {
        let mut merges = merged(rt.alloc(), row.0);
        let changed = change(&mut merges, row.1, &row.2);
        check(&rt, row, changed == Some(row.3.is_some()));
        check(&rt, row, are(&merges, row.3.unwrap_or(row.0)));
    }
}

fn area(corners: Corners) -> Area
    ensures { result ≡ record { sheet = 7; rows = Span corners.0 corners.1; cols = Span corners.2 corners.3 } }
{
    Area {
        sheet: 7,
        rows: Band::Span(corners.0, corners.1),
        cols: Band::Span(corners.2, corners.3),
    }
}

fn merged(alloc: Global, areas: &[Corners]) -> Merges {
    let mut merges = Merges::new(alloc);
    for corners in areas {
        let _ = add(&mut merges, *corners);
    }
    merges
}

/// Merges an area of more than one cell.
fn add(merges: &mut Merges, corners: Corners) -> Result<(), MergeFault> {
    let (top, bottom, left, right) = corners;
    if top < bottom && left < right && (bottom - top > 1 || right - left > 1) {
        merges.add(&Area {
            sheet: 7,
            rows: Band::Span(top, bottom),
            cols: Band::Span(left, right),
        })
    } else {
        Err(MergeFault::NoMemory)
    }
}

/// Merges the lines of an area on the axis by themselves.
fn add_lines(merges: &mut Merges, corners: Corners, axis: Axis) -> Result<(), MergeFault> {
    let (top, bottom, left, right) = corners;
    if top < bottom && left < right {
        merges.add_lines(&area(corners), axis)
    } else {
        Err(MergeFault::NoMemory)
    }
}

/// Whether these are the merges.
fn are(merges: &Merges, expected: &[Corners]) -> bool {
    let listed = merges.list().as_slice();
    merges.count() == expected.len() as u64
        && listed.len() == expected.len()
        && listed
            .iter()
            .zip(expected)
            .all(|(merge, corners)| *merge == area(*corners))
}

/// Makes the change in a sheet of 12 rows and columns, and tells whether it was made; None where it can't
/// be made there.
fn change(merges: &mut Merges, axis: Axis, change: &Change) -> Option<bool> {
    if change.fits(12) && are_within(merges.list().as_slice(), axis, 12) {
        Some(merges.change(axis, 12, change).is_ok())
    } else {
        None
    }
}

fn are_within(areas: &[Area], axis: Axis, count: u32) -> bool
    ensures { IsTrue result ↔ AreWithin axis count areas.now }
{
    areas.iter().all(|area| area.band_on(axis).within(count))
}
