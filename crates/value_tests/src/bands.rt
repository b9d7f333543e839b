use crate::common::check;
use grid_range::{Area, Axis, Band, Change, place, track};

/// Bands of a sheet of 20 lines, a change of the lines, and what becomes of each band: the rules for
/// `=SUM(A1:A5)` and for open ranges.
static FOLLOWED: [(Band, Change, Option<Band>); 15] = [
    (
        Band::Span(0, 5),
        Change::Move {
            start: 0,
            end: 1,
            to: 10,
        },
        Some(Band::Span(0, 4)),
    ),
    (
        Band::Span(0, 5),
        Change::Move {
            start: 2,
            end: 3,
            to: 0,
        },
        Some(Band::Span(0, 5)),
    ),
    (
        Band::Span(0, 5),
        Change::Move {
            start: 0,
            end: 5,
            to: 12,
        },
        Some(Band::Span(7, 12)),
    ),
    (
        Band::Span(0, 5),
        Change::Move {
            start: 7,
            end: 8,
            to: 2,
        },
        Some(Band::Span(0, 6)),
    ),
    (
        Band::From(4),
        Change::Move {
            start: 4,
            end: 20,
            to: 0,
        },
        Some(Band::From(0)),
    ),
    (
        Band::From(4),
        Change::Move {
            start: 0,
            end: 4,
            to: 20,
        },
        Some(Band::From(0)),
    ),
    (
        Band::From(4),
        Change::Move {
            start: 0,
            end: 2,
            to: 20,
        },
        Some(Band::From(2)),
    ),
    (
        Band::From(18),
        Change::Move {
            start: 19,
            end: 20,
            to: 18,
        },
        Some(Band::From(18)),
    ),
    (
        Band::Span(0, 5),
        Change::Insert { at: 2, count: 1 },
        Some(Band::Span(0, 6)),
    ),
    (
        Band::Span(0, 5),
        Change::Insert { at: 0, count: 1 },
        Some(Band::Span(1, 6)),
    ),
    (
        Band::Span(0, 5),
        Change::Insert { at: 5, count: 1 },
        Some(Band::Span(0, 5)),
    ),
    (
        Band::Span(0, 5),
        Change::Delete { start: 0, end: 2 },
        Some(Band::Span(0, 3)),
    ),
    (Band::Span(3, 4), Change::Delete { start: 3, end: 4 }, None),
    (Band::From(4), Change::Delete { start: 4, end: 20 }, None),
    (
        Band::Whole,
        Change::Delete { start: 0, end: 20 },
        Some(Band::Whole),
    ),
];

#[test]
fn bands_follow_changes(rt: HostRuntime) {
    for row in &FOLLOWED {
        check(&rt, row, follows(20, row.0, &row.1, row.2));
    }
    check(&rt, &LAST, follows(4, LAST, &DELETED, None));
}

/// The last of 4 lines, and a change that deletes it.
const LAST: Band = Band::Span(3, 4);

const DELETED: Change = Change::Delete { start: 3, end: 4 };

/// Whether the band of so many lines becomes what is expected.
fn follows(count: u32, band: Band, change: &Change, expected: Option<Band>) -> bool {
    change.fits(count) && band.within(count) && track(band, count, change) == expected
}

/// Lines of a sheet of 5, and where each is once lines 1 and 2 were moved before line 4, deleted, and
/// once two lines were inserted before line 1.
static PLACED: [(u32, Option<u32>, Option<u32>, Option<u32>); 5] = [
    (0, Some(0), Some(0), Some(0)),
    (1, Some(2), None, Some(3)),
    (2, Some(3), None, Some(4)),
    (3, Some(1), Some(1), Some(5)),
    (4, Some(4), Some(2), Some(6)),
];

const BACK: Change = Change::Move {
    start: 1,
    end: 3,
    to: 4,
};

const GONE: Change = Change::Delete { start: 1, end: 3 };

const MORE: Change = Change::Insert { at: 1, count: 2 };

#[test]
fn lines_have_places(rt: HostRuntime) {
    for row in &PLACED {
        check(&rt, row, stands(&BACK, row.0, row.1, 5));
        check(&rt, row, stands(&GONE, row.0, row.2, 3));
        check(&rt, row, stands(&MORE, row.0, row.3, 7));
    }
}

/// Whether the line of 5 is at the place after the change, and there are so many lines then.
fn stands(change: &Change, line: u32, at: Option<u32>, count: u32) -> bool {
    change.fits(5) && line < 5 && place(change, 5, line) == at && change.lines_after(5) == count
}

/// Insertions into 5 lines, and whether they can be made.
static INSERTIONS: [(Change, bool); 5] = [
    (Change::Insert { at: 5, count: 1 }, true),
    (Change::Insert { at: 6, count: 1 }, false),
    (Change::Insert { at: 0, count: 0 }, false),
    (
        Change::Insert {
            at: 0,
            count: 4_294_967_290,
        },
        true,
    ),
    (
        Change::Insert {
            at: 0,
            count: 4_294_967_291,
        },
        false,
    ),
];

#[test]
fn insertions_fit(rt: HostRuntime) {
    for row in &INSERTIONS {
        check(&rt, row, row.0.fits(5) == row.1);
    }
}

/// Moves of a sheet of 10 rows, and whether they tear a merge of rows 2 to 4.
static TEARING: [(Change, bool); 5] = [
    (
        Change::Move {
            start: 2,
            end: 5,
            to: 8,
        },
        false,
    ),
    (
        Change::Move {
            start: 0,
            end: 1,
            to: 5,
        },
        false,
    ),
    (
        Change::Move {
            start: 0,
            end: 1,
            to: 4,
        },
        true,
    ),
    (
        Change::Move {
            start: 3,
            end: 4,
            to: 8,
        },
        true,
    ),
    (
        Change::Move {
            start: 3,
            end: 4,
            to: 3,
        },
        false,
    ),
];

#[test]
fn moves_tear(rt: HostRuntime) {
    for row in &TEARING {
        check(&rt, row, tears(&row.0) == Some(row.1));
    }
}

/// Whether the move of 10 lines tears lines 2 to 4; None where it can't be made.
fn tears(change: &Change) -> Option<bool> {
    if change.fits(10) {
        Some(change.tears(Band::Span(2, 5), 10))
    } else {
        None
    }
}

/// Rows 2 to 4 and columns from 3 on, those rows where lines 1 and 2 are gone, and those columns.
const TWO: Area = Area {
    sheet: 7,
    rows: Band::Span(2, 5),
    cols: Band::From(3),
};

const FEWER_ROWS: Area = Area {
    sheet: 7,
    rows: Band::Span(1, 3),
    cols: Band::From(3),
};

const FEWER_COLUMNS: Area = Area {
    sheet: 7,
    rows: Band::Span(2, 5),
    cols: Band::From(1),
};

/// A sheet, an axis, and what becomes of the first area where lines 1 and 2 are deleted there.
static AREAS: [(u32, Axis, Area); 3] = [
    (7, Axis::Rows, FEWER_ROWS),
    (7, Axis::Columns, FEWER_COLUMNS),
    (8, Axis::Rows, TWO),
];

#[test]
fn areas_follow_changes(rt: HostRuntime) {
    for row in &AREAS {
        check(&rt, row, followed(row.0, row.1) == Some(row.2));
    }
}

/// What becomes of the first area where lines 1 and 2 of 10 are deleted.
fn followed(sheet: u32, axis: Axis) -> Option<Area> {
    let change = Change::Delete { start: 1, end: 3 };
    if change.fits(10) && TWO.band_on(axis).within(10) {
        TWO.follow(sheet, axis, 10, &change)
    } else {
        None
    }
}

/// So many rows and columns of a grid, and the bands of the first area on it.
static CLIPPED: [(u32, u32, Option<(Band, Band)>); 3] = [
    (4, 4, Some((Band::Span(2, 4), Band::From(3)))),
    (2, 4, None),
    (4, 3, None),
];

#[test]
fn areas_have_cells(rt: HostRuntime) {
    for row in &CLIPPED {
        check(&rt, row, clipped(row.0, row.1) == row.2);
    }
    check(&rt, &"holds", TWO.holds(2, 3) && !TWO.holds(1, 3));
    check(
        &rt,
        &"meets",
        TWO.meets(&FEWER_ROWS, 5, 4) && !TWO.meets(&FEWER_ROWS, 2, 4),
    );
}

fn clipped(rows: u32, cols: u32) -> Option<(Band, Band)> {
    match TWO.clip(rows, cols) {
        Some(area) => Some((area.rows, area.cols)),
        None => None,
    }
}
