ghost use Rattle.std.specs.Prelude.{IsTrue, All};
ghost use Rattle.named_ranges.specs.Following.{IsRangeWithinOn};

use crate::common::{check, text};
use cell_value::{Duplicate, NoMemory, Text};
use grid_range::{Area, Axis, Band, Change};
use named_ranges::{NameFault, NamedRange, Names};
use std::alloc::Global;

/// Texts, and whether each may be a name.
static NAMES: [(&str, bool); 24] = [
    ("Sheet1", true),
    ("rate", true),
    ("_x", true),
    ("A", true),
    ("R1C1", true),
    ("A0", true),
    ("A01", true),
    ("AAAA1", true),
    ("A10000000", true),
    ("A1_", true),
    ("TRUEX", true),
    ("A1", false),
    ("AB12", false),
    ("abc12", false),
    ("ZZZ9999999", false),
    ("TRUE", false),
    ("true", false),
    ("FaLsE", false),
    ("", false),
    ("1a", false),
    ("a b", false),
    ("a-b", false),
    ("a!", false),
    ("caf\u{e9}", false),
];

#[test]
fn texts_may_be_names(rt: HostRuntime) {
    for row in &NAMES {
        check(&rt, row, is_name(rt.alloc(), row.0) == Some(row.1));
    }
    check(
        &rt,
        &"long",
        is_long_name(rt.alloc(), 250) == Some(true) && is_long_name(rt.alloc(), 251) == Some(false),
    );
}

/// Whether a range may be added under the name.
fn is_name(alloc: Global, name: &str) -> Option<bool> {
    let mut names = Names::new(alloc);
    match add(&mut names, alloc, None, name) {
        Ok(_) => Some(true),
        Err(NameFault::BadName) => Some(false),
        Err(_) => None,
    }
}

/// Whether so many letters may be a name.
fn is_long_name(alloc: Global, length: u32) -> Option<bool> {
    let mut text = String::new(alloc);
    for _ in 0..length {
        let _ = text.push('x');
    }
    is_name(alloc, text.as_str())
}

/// Ids and names of ranges that are added, one after another, and what is answered.
static ADDED: [(Option<&str>, &str, Result<&str, NameFault>); 9] = [
    (None, "Sheet1", Ok("nr1")),
    (None, "AB12", Err(NameFault::BadName)),
    (None, "sheet1", Err(NameFault::NameTaken)),
    (Some("nr3"), "rate", Ok("nr3")),
    (Some("nr3"), "AB12", Err(NameFault::IdTaken)),
    (Some("NR3"), "AB12", Err(NameFault::BadName)),
    (None, "tax", Ok("nr2")),
    (None, "vat", Ok("nr4")),
    (Some("x"), "RATE", Err(NameFault::NameTaken)),
];

#[test]
fn ranges_are_added(rt: HostRuntime) {
    let mut names = Names::new(rt.alloc());
    for row in &ADDED {
        check(
            &rt,
            row,
            is_answered(&mut names, rt.alloc(), row.0, row.1, row.2),
        );
    }
    check(
        &rt,
        &"order",
        has_order(&names, &["nr1", "nr3", "nr2", "nr4"]),
    );
    check(
        &rt,
        &"case",
        is_found(&names, "SHEET1", "nr1") && is_found(&names, "rAtE", "nr3"),
    );
}

/// The id, the name that is given, and what is answered, each for the same ranges: nr1 is rate, nr2
/// is tax.
static RENAMED: [(&str, &str, Result<(), NameFault>); 6] = [
    ("nr1", "Levy", Ok(())),
    ("nr1", "RATE", Ok(())),
    ("nr3", "AB12", Err(NameFault::NoId)),
    ("NR1", "levy", Err(NameFault::NoId)),
    ("nr1", "AB12", Err(NameFault::BadName)),
    ("nr1", "TAX", Err(NameFault::NameTaken)),
];

#[test]
fn ranges_are_renamed(rt: HostRuntime) {
    for row in &RENAMED {
        check(&rt, row, is_renamed(rt.alloc(), row.0, row.1, row.2));
    }
}

/// Renames one of the two ranges, and tells whether that is answered and done.
fn is_renamed(alloc: Global, id: &str, name: &str, answer: Result<(), NameFault>) -> bool {
    let mut names = two(alloc);
    names.update(id, Some(text(alloc, name)), None) == answer
        && has_order(&names, &["nr1", "nr2"])
        && is_found(&names, name, "nr1") == answer.is_ok()
}

#[test]
fn ranges_are_dropped(rt: HostRuntime) {
    let mut names = two(rt.alloc());
    check(
        &rt,
        &"once",
        is_dropped(&mut names, "nr1", "rate") && !is_dropped(&mut names, "nr1", "rate"),
    );
    check(
        &rt,
        &"again",
        is_answered(&mut names, rt.alloc(), None, "levy", Ok("nr1")),
    );
    check(&rt, &"order", has_order(&names, &["nr2", "nr1"]));
    check(
        &rt,
        &"found",
        is_found(&names, "Levy", "nr1") && !is_found(&names, "rate", "nr1"),
    );
}

#[test]
fn a_copy_has_the_same_ranges(rt: HostRuntime) {
    let names = two(rt.alloc());
    check(&rt, &"copy", is_copied(&names));
}

/// Whether a copy has the two ranges, and keeps them apart from those of the list.
fn is_copied(names: &Names) -> bool {
    match names.duplicate() {
        Ok(mut copy) => {
            is_dropped(&mut copy, "nr2", "tax")
                && has_order(&copy, &["nr1"])
                && has_order(names, &["nr1", "nr2"])
        }
        Err(NoMemory) => false,
    }
}

/// Changes of the columns of sheets of 26, one after another, and what the columns of the ranges then
/// are, the first on sheet 0 and the second on sheet 1.
static CHANGES: [(u32, Change, Option<Band>, Option<Band>); 2] = [
    (
        1,
        Change::Insert { at: 3, count: 1 },
        Some(Band::Span(0, 1)),
        Some(Band::Span(2, 5)),
    ),
    (
        0,
        Change::Delete { start: 0, end: 1 },
        Some(Band::Span(2, 5)),
        None,
    ),
];

#[test]
fn ranges_follow_their_sheets(rt: HostRuntime) {
    let mut names = two(rt.alloc());
    let area = Area {
        sheet: 1,
        rows: Band::From(3),
        cols: Band::Span(2, 4),
    };
    check(&rt, &area, names.update("nr2", None, Some(area)) == Ok(()));
    for row in &CHANGES {
        let changed = change(&mut names, row.0, &row.1);
        let cols = (cols_of(&names, 0), cols_of(&names, 1));
        check(&rt, row, changed && cols == (row.2, row.3));
    }
    check(&rt, &"sheets", are_lost_with_sheets(&mut names));
}

/// Whether the last range goes with its sheet, and not with another one.
fn are_lost_with_sheets(names: &mut Names) -> bool {
    names.lose_sheet(0);
    let left = names.count();
    names.lose_sheet(1);
    (left, names.count()) == (1, 0)
}

/// A1 of the first sheet under the names rate and tax.
fn two(alloc: Global) -> Names {
    let mut names = Names::new(alloc);
    let _ = add(&mut names, alloc, None, "rate");
    let _ = add(&mut names, alloc, None, "tax");
    names
}

fn add(names: &mut Names, alloc: Global, id: Option<&str>, name: &str) -> Result<Text, NameFault> {
    let area = Area {
        sheet: 0,
        rows: Band::Span(0, 1),
        cols: Band::Span(0, 1),
    };
    let id = match id {
        Some(id) => Some(text(alloc, id)),
        None => None,
    };
    names.add(id, text(alloc, name), area)
}

/// Adds a range, and tells whether that is answered.
fn is_answered(
    names: &mut Names,
    alloc: Global,
    id: Option<&str>,
    name: &str,
    answer: Result<&str, NameFault>,
) -> bool {
    match add(names, alloc, id, name) {
        Ok(id) => answer == Ok(id.as_str()),
        Err(fault) => answer == Err(fault),
    }
}

/// Drops the range with the id, and tells whether it was there and had that name.
fn is_dropped(names: &mut Names, id: &str, name: &str) -> bool {
    match names.drop(id) {
        Ok(range) => range.name.as_str() == name,
        Err(_) => false,
    }
}

/// Whether the ids of the ranges are these.
fn has_order(names: &Names, ids: &[&str]) -> bool {
    let mut at: u32 = 0;
    for id in ids {
        match names.list(at) {
            Some(range) if range.id.as_str() == *id => {}
            _ => return false,
        }
        at = at.saturating_add(1);
    }
    names.count() == ids.len() as u64
}

/// Whether the range of that name has that id.
fn is_found(names: &Names, name: &str, id: &str) -> bool {
    match names.find(name) {
        Some(range) => range.id.as_str() == id,
        None => false,
    }
}

fn cols_of(names: &Names, at: u32) -> Option<Band> {
    match names.list(at) {
        Some(range) => Some(range.area.cols),
        None => None,
    }
}

/// Makes a change of the columns of a sheet that has 26; false where it can't be made.
fn change(names: &mut Names, sheet: u32, change: &Change) -> bool {
    let can_be_made = change.fits(26) && are_within(names, sheet, Axis::Columns, 26);
    if can_be_made {
        names.change(sheet, Axis::Columns, 26, change);
    }
    can_be_made
}

/// Whether every band on that axis of that sheet is within `count` lines.
fn are_within(names: &Names, sheet: u32, axis: Axis, count: u32) -> bool
    ensures { IsTrue result → All (IsRangeWithinOn sheet axis count) names.now }
{
    for at in 0..u32::MAX {
        let Some(range) = names.list(at) else {
            return true;
        };
        if !is_within(range, sheet, axis, count) {
            return false;
        }
    }
    false
}

fn is_within(range: &NamedRange, sheet: u32, axis: Axis, count: u32) -> bool
    ensures { IsTrue result → IsRangeWithinOn sheet axis count range.now }
{
    range.area.sheet != sheet
        || match axis {
            Axis::Rows => range.area.rows.within(count),
            Axis::Columns => range.area.cols.within(count),
        }
}
