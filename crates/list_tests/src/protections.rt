ghost use Rattle.std.specs.Prelude.{◌↔◌, IsTrue, All};
ghost use Rattle.grid_range.specs.Area.{IsWithinOn};
ghost use Rattle.protection.specs.Following.{IsKeptWithin};

use crate::common::{check, text};
use cell_value::{Duplicate, Items, NoMemory, Text};
use grid_range::{Area, Axis, Band, Change};
use protection::{Protection, ProtectionFault, ProtectionPatch, Protections};
use std::alloc::Global;

/// A sheet, rows and columns.
type Place = (u32, Band, Band);

const WHOLE: Place = (0, Band::Whole, Band::Whole);

/// What is denied of B2:C3, of which `ann` is an editor: an area, a user and the id.
static DENIALS: [(Place, &str, Option<u32>); 7] = [
    ((0, Band::Span(0, 2), Band::Span(0, 2)), "bob", Some(1)),
    ((0, Band::Whole, Band::From(2)), "bob", Some(1)),
    ((0, Band::Span(0, 1), Band::Span(0, 9)), "bob", None),
    ((0, Band::Span(3, 9), Band::Span(0, 9)), "bob", None),
    ((0, Band::From(1000), Band::Whole), "bob", None),
    ((1, Band::Whole, Band::Whole), "bob", None),
    ((0, Band::Span(0, 2), Band::Span(0, 2)), "ann", None),
];

#[test]
fn an_area_is_denied_but_to_editors(rt: HostRuntime) {
    let list = b2_to_c3(rt.alloc());
    for row in &DENIALS {
        check(
            &rt,
            row,
            list.first_denial(row.1, "owner", &area(row.0), 1000, 26) == row.2,
        );
    }
    check(&rt, &"copy", is_copied(&list));
}

/// A protection of B2:C3, of which `ann` is an editor.
fn b2_to_c3(alloc: Global) -> Protections {
    let mut list = Protections::new(alloc);
    let given = patch(alloc, cells((1, 3), (1, 3)), None, Some(&["ann"]));
    let _ = add(&mut list, None, given);
    list
}

/// Whether a copy has the protection, and loses it just to an editor.
fn is_copied(list: &Protections) -> bool {
    match list.duplicate() {
        Ok(mut copy) => {
            copy.drop("bob", "owner", 1) == Err(ProtectionFault::NotEditor)
                && copy.drop("ann", "owner", 1) == Ok(())
                && (copy.count(), list.count()) == (0, 1)
        }
        Err(NoMemory) => false,
    }
}

/// Unprotected ranges of a whole sheet, by the ends of their rows and columns, the rows and columns of
/// an area, and whether it is denied.
static RANGES: [(&[Ends], Ends, bool); 9] = [
    (&[((0, 2), (0, 1))], ((1, 2), (0, 1)), false),
    (&[((0, 2), (0, 1))], ((0, 3), (0, 1)), true),
    // Ranges that cover the area together, and that leave its last cell.
    (
        &[((0, 4), (0, 2)), ((0, 2), (1, 4)), ((2, 4), (2, 4))],
        ((0, 4), (0, 4)),
        false,
    ),
    (
        &[((0, 4), (0, 2)), ((0, 2), (1, 4)), ((2, 4), (2, 3))],
        ((0, 4), (0, 4)),
        true,
    ),
    // A hole in the middle.
    (
        &[
            ((0, 3), (0, 1)),
            ((0, 1), (0, 3)),
            ((2, 3), (0, 3)),
            ((0, 3), (2, 3)),
        ],
        ((0, 3), (0, 3)),
        true,
    ),
    // Ranges that touch at a corner, with one cell left between them, and with none.
    (
        &[
            ((0, 2), (0, 2)),
            ((0, 2), (2, 4)),
            ((2, 4), (0, 2)),
            ((2, 4), (3, 4)),
            ((3, 4), (2, 3)),
        ],
        ((0, 4), (0, 4)),
        true,
    ),
    (
        &[
            ((2, 4), (2, 4)),
            ((2, 4), (0, 2)),
            ((0, 2), (2, 4)),
            ((0, 2), (0, 2)),
        ],
        ((1, 3), (1, 3)),
        false,
    ),
    // The last row alone is left.
    (
        &[((0, 3), (0, 4)), ((3, 4), (0, 2))],
        ((0, 4), (0, 4)),
        true,
    ),
    // A range in another one.
    (
        &[((1, 2), (1, 2)), ((0, 4), (0, 4)), ((1, 2), (1, 2))],
        ((0, 4), (0, 4)),
        false,
    ),
];

type Ends = ((u32, u32), (u32, u32));

#[test]
fn unprotected_ranges_let_pass_what_they_cover(rt: HostRuntime) {
    for row in &RANGES {
        check(&rt, row, is_denied(rt.alloc(), row.0, row.1) == row.2);
    }
}

/// Whether the area is denied by a protection of the whole sheet with these unprotected ranges.
fn is_denied(alloc: Global, ranges: &[Ends], asked: Ends) -> bool {
    let mut list = Protections::new(alloc);
    let given = ProtectionPatch {
        unprotected: Some(areas(alloc, ranges)),
        ..patch(alloc, area(WHOLE), None, None)
    };
    let _ = add(&mut list, None, given);
    list.first_denial("bob", "owner", &cells(asked.0, asked.1), 1000, 26)
        .is_some()
}

/// Changes of sheets by the sheet, the axis and its lines, one after another; what is then left
/// unprotected, and how many protections there are.
static CHANGES: [(u32, Axis, u32, Change, &[Area], u64); 3] = [
    (
        1,
        Axis::Columns,
        26,
        Change::Insert { at: 0, count: 1 },
        &[A1_A2, OTHER_MOVED],
        2,
    ),
    (
        0,
        Axis::Rows,
        1000,
        Change::Delete { start: 0, end: 2 },
        &[OTHER_MOVED],
        2,
    ),
    (
        1,
        Axis::Columns,
        27,
        Change::Delete { start: 3, end: 5 },
        &[],
        1,
    ),
];

const A1_A2: Area = Area {
    sheet: 0,
    rows: Band::Span(0, 2),
    cols: Band::Span(0, 1),
};

const OTHER: Area = Area {
    sheet: 1,
    rows: Band::From(3),
    cols: Band::Span(2, 4),
};

const OTHER_MOVED: Area = Area {
    sheet: 1,
    rows: Band::From(3),
    cols: Band::Span(3, 5),
};

#[test]
fn the_ranges_follow_their_sheets(rt: HostRuntime) {
    let mut list = one_and_another(rt.alloc());
    for row in &CHANGES {
        let changed = change(&mut list, row.0, row.1, row.2, &row.3);
        check(&rt, row, changed && has_left(&list, row.4, row.5));
    }
    let first = list.first_denial("bob", "owner", &cells((0, 1), (0, 1)), 998, 26);
    check(&rt, &first, first == Some(1));
    check(&rt, &"sheets", are_lost_with_sheets(&mut list));
}

/// A protection of the whole of one sheet with ranges on it and on another one, and a protection of
/// columns of that one.
fn one_and_another(alloc: Global) -> Protections {
    let mut list = Protections::new(alloc);
    let mut ranges = Vec::new(alloc);
    let _ = ranges.push(A1_A2);
    let _ = ranges.push(OTHER);
    let given = ProtectionPatch {
        unprotected: Some(Items::of(ranges)),
        ..patch(alloc, area(WHOLE), None, None)
    };
    let _ = add(&mut list, None, given);
    let columns = area((1, Band::Whole, Band::Span(2, 4)));
    let _ = add(&mut list, None, patch(alloc, columns, None, None));
    list
}

/// Whether the first protection leaves these ranges, and there are so many.
fn has_left(list: &Protections, ranges: &[Area], count: u64) -> bool {
    ranges_of(list) == ranges && list.count() == count
}

/// Whether the last protection goes with its sheet, and not with another one.
fn are_lost_with_sheets(list: &mut Protections) -> bool {
    list.lose_sheet(1);
    let left = list.count();
    list.lose_sheet(0);
    (left, list.count()) == (1, 0)
}

/// Ids that are asked for, and what the list answers, one after another.
static IDS: [(Option<u32>, Result<u32, ProtectionFault>); 5] = [
    (Some(2), Ok(2)),
    (None, Ok(1)),
    (None, Ok(3)),
    (Some(2), Err(ProtectionFault::IdTaken)),
    (Some(0), Ok(0)),
];

#[test]
fn the_least_unused_id_is_given(rt: HostRuntime) {
    let mut list = Protections::new(rt.alloc());
    for row in &IDS {
        let given = patch(rt.alloc(), area(CELL), None, None);
        check(&rt, row, add(&mut list, row.0, given) == row.1);
    }
    for at in 0..4u32 {
        check(&rt, &at, id_at(&list, at) == Some(at));
    }
}

fn id_at(list: &Protections, at: u32) -> Option<u32> {
    match list.list(at) {
        Some(one) => Some(one.id),
        None => None,
    }
}

/// The area, the mark, whether a range is unprotected and the editors that an update gives, who makes
/// it of which protection, and what is answered or kept: the editors and the number of ranges.
/// Protection 1 is of the whole sheet with a range and the editor `ann`, 2 is a warning, 3 a cell.
static UPDATES: [(
    Given,
    (&str, u32),
    Result<(&[&str], usize), ProtectionFault>,
); 12] = [
    ((None, None, false, None), ("owner", 1), Ok((&["ann"], 1))),
    (
        (None, None, false, None),
        ("bob", 1),
        Err(ProtectionFault::NotEditor),
    ),
    ((None, None, false, None), ("bob", 2), Ok((&[], 0))),
    (
        (None, None, true, None),
        ("bob", 9),
        Err(ProtectionFault::NoId),
    ),
    (
        (None, None, true, None),
        ("bob", 3),
        Err(ProtectionFault::Bad),
    ),
    (
        (Some(CELL), None, true, None),
        ("bob", 9),
        Err(ProtectionFault::Bad),
    ),
    (
        (Some((0, Band::From(0), Band::Whole)), None, false, None),
        ("ann", 1),
        Ok((&["ann"], 0)),
    ),
    (
        (None, None, false, Some(&["bob"])),
        ("ann", 1),
        Ok((&["bob", "ann"], 1)),
    ),
    (
        (None, None, false, Some(&["bob"])),
        ("owner", 1),
        Ok((&["bob"], 1)),
    ),
    (
        (None, Some(true), false, Some(&["bob"])),
        ("ann", 1),
        Ok((&[], 1)),
    ),
    (
        (None, Some(false), false, None),
        ("bob", 2),
        Err(ProtectionFault::Bad),
    ),
    (
        (None, Some(false), false, Some(&["ann"])),
        ("bob", 2),
        Ok((&["ann", "bob"], 0)),
    ),
];

type Given<'a> = (Option<Place>, Option<bool>, bool, Option<&'a [&'a str]>);

const CELL: Place = (0, Band::Span(0, 1), Band::Span(0, 1));

#[test]
fn updates_keep_who_asked(rt: HostRuntime) {
    for row in &UPDATES {
        check(&rt, row, is_answered(rt.alloc(), row.0, row.1, row.2));
    }
}

/// Whether the update of one of the three protections is answered so, and keeps that.
fn is_answered(
    alloc: Global,
    (place, warning_only, opens, editors): Given,
    (user, id): (&str, u32),
    answer: Result<(&[&str], usize), ProtectionFault>,
) -> bool {
    let mut list = three(alloc);
    let given = ProtectionPatch {
        area: place.map(area),
        unprotected: first_cells(alloc, opens),
        ..patch(alloc, area(WHOLE), warning_only, editors)
    };
    match (list.update(user, "owner", id, given), answer) {
        (Ok(()), Ok(kept)) => has(&list, id.saturating_sub(1), kept),
        (Err(fault), Err(expected)) => fault == expected,
        _ => false,
    }
}

/// A1:A2 as unprotected ranges, if they are given.
fn first_cells(alloc: Global, given: bool) -> Option<Items<Area>> {
    if given {
        Some(areas(alloc, &[((0, 2), (0, 1))]))
    } else {
        None
    }
}

/// A protection of the whole sheet with a range and an editor, a warning, and a protected cell.
fn three(alloc: Global) -> Protections {
    let mut list = Protections::new(alloc);
    let whole = ProtectionPatch {
        unprotected: first_cells(alloc, true),
        ..patch(alloc, area(WHOLE), None, Some(&["ann"]))
    };
    let _ = add(&mut list, None, whole);
    let warning = patch(alloc, area(CELL), Some(true), Some(&["bob"]));
    let _ = add(&mut list, None, warning);
    let _ = add(&mut list, None, patch(alloc, area(CELL), None, None));
    list
}

/// The cells in some rows and columns of the first sheet.
fn cells(rows: (u32, u32), cols: (u32, u32)) -> Area {
    area((0, Band::Span(rows.0, rows.1), Band::Span(cols.0, cols.1)))
}

fn area(place: Place) -> Area {
    Area {
        sheet: place.0,
        rows: place.1,
        cols: place.2,
    }
}

fn areas(alloc: Global, ends: &[Ends]) -> Items<Area> {
    let mut areas = Vec::new(alloc);
    for (rows, cols) in ends {
        let _ = areas.push(cells(*rows, *cols));
    }
    Items::of(areas)
}

/// Adds a protection for the owner.
fn add(
    list: &mut Protections,
    id: Option<u32>,
    given: ProtectionPatch,
) -> Result<u32, ProtectionFault> {
    if list.count() < 100 && given.area.is_some() {
        list.add("owner", "owner", id, given)
    } else {
        Err(ProtectionFault::NoMemory)
    }
}

fn patch(
    alloc: Global,
    area: Area,
    warning_only: Option<bool>,
    editors: Option<&[&str]>,
) -> ProtectionPatch {
    ProtectionPatch {
        area: Some(area),
        description: None,
        warning_only,
        unprotected: None,
        editors: match editors {
            Some(names) => Some(texts(alloc, names)),
            None => None,
        },
    }
}

fn texts(alloc: Global, names: &[&str]) -> Items<Text> {
    let mut texts = Vec::new(alloc);
    for name in names {
        let _ = texts.push(text(alloc, name));
    }
    Items::of(texts)
}

fn ranges_of(list: &Protections) -> &[Area] {
    match list.list(0) {
        Some(one) => one.unprotected.as_slice(),
        None => &[],
    }
}

/// Whether the protection at the place has these editors and so many unprotected ranges.
fn has(list: &Protections, at: u32, (editors, ranges): (&[&str], usize)) -> bool {
    match list.list(at) {
        Some(one) => {
            are(one.editors.as_slice(), editors) && one.unprotected.as_slice().len() == ranges
        }
        None => false,
    }
}

fn are(texts: &[Text], expected: &[&str]) -> bool {
    texts.len() == expected.len()
        && texts
            .iter()
            .zip(expected)
            .all(|(text, expected)| text.as_str() == *expected)
}

/// Makes a change of a sheet with so many lines on the axis; false where it can't be made.
fn change(list: &mut Protections, sheet: u32, axis: Axis, count: u32, change: &Change) -> bool {
    let can_be_made = change.fits(count) && are_within(list, sheet, axis, count);
    if can_be_made {
        list.change(sheet, axis, count, change);
    }
    can_be_made
}

/// Whether every band on that axis of that sheet is within `count` lines.
fn are_within(list: &Protections, sheet: u32, axis: Axis, count: u32) -> bool
    ensures { IsTrue result → All (IsKeptWithin sheet axis count) list.now }
{
    for at in 0..u32::MAX {
        let Some(one) = list.list(at) else {
            return true;
        };
        if !is_kept_within(one, sheet, axis, count) {
            return false;
        }
    }
    false
}

fn is_kept_within(one: &Protection, sheet: u32, axis: Axis, count: u32) -> bool
    ensures { IsTrue result → IsKeptWithin sheet axis count one.now }
{
    is_within(&one.area, sheet, axis, count)
        && ranges_within(one.unprotected.as_slice(), sheet, axis, count)
}

fn ranges_within(ranges: &[Area], sheet: u32, axis: Axis, count: u32) -> bool
    ensures { IsTrue result → All (IsWithinOn sheet axis count) ranges.now }
{
    for range in ranges {
        if !is_within(range, sheet, axis, count) {
            return false;
        }
    }
    true
}

fn is_within(area: &Area, sheet: u32, axis: Axis, count: u32) -> bool
    ensures { IsTrue result → IsWithinOn sheet axis count area.now }
{
    area.sheet != sheet || area.band_on(axis).within(count)
}
