//! Spreadsheets that are created with sheets.

use crate::common::check;
use cell_value::{Items, NoMemory, SheetProperties, Text};
use dimension_ops::{Book, Limit, Rule, RuleOr, World};
use std::alloc::Global;

/// What is asked of a sheet: its id, its title, its place, whether it is hidden, and how many rows and columns it has.
type Asked = (
    Option<u32>,
    Option<&'static str>,
    Option<u32>,
    bool,
    u32,
    u32,
);

/// Sheets that are asked for, and the ids and titles of those that there are then, in their order.
static MADE: [(&[Asked], &[(u32, &str)]); 9] = [
    (&[], &[(0, "Sheet1")]),
    (
        &[
            (None, None, None, false, 3, 3),
            (None, None, None, false, 3, 3),
            (None, None, None, false, 3, 3),
        ],
        &[(0, "Sheet1"), (1, "Sheet2"), (2, "Sheet3")],
    ),
    (
        &[
            (Some(0), None, None, false, 3, 3),
            (None, None, None, false, 3, 3),
        ],
        &[(0, "Sheet1"), (1, "Sheet2")],
    ),
    (
        &[
            (Some(1), None, None, false, 3, 3),
            (None, None, None, false, 3, 3),
            (None, None, None, false, 3, 3),
        ],
        &[(1, "Sheet1"), (0, "Sheet2"), (2, "Sheet3")],
    ),
    (
        &[
            (None, Some("sheet1"), None, false, 3, 3),
            (None, None, None, false, 3, 3),
        ],
        &[(0, "sheet1"), (1, "Sheet2")],
    ),
    (
        &[
            (None, Some("Sheet2"), None, false, 3, 3),
            (None, None, None, false, 3, 3),
            (None, None, None, false, 3, 3),
        ],
        &[(0, "Sheet2"), (1, "Sheet1"), (2, "Sheet3")],
    ),
    (
        &[
            (None, None, None, false, 3, 3),
            (None, None, Some(0), false, 3, 3),
            (None, None, Some(1), false, 3, 3),
        ],
        &[(1, "Sheet2"), (2, "Sheet3"), (0, "Sheet1")],
    ),
    (
        &[
            (None, None, None, true, 3, 3),
            (None, None, None, false, 3, 3),
        ],
        &[(0, "Sheet1"), (1, "Sheet2")],
    ),
    (
        &[(None, None, None, false, 1_000_000, 10)],
        &[(0, "Sheet1")],
    ),
];

/// Sheets that are asked for, and the first rule that they break.
static REFUSED: [(&[Asked], Rule); 16] = [
    (&[(None, None, Some(1), false, 3, 3)], Rule::BadRange),
    (
        &[
            (None, None, None, false, 3, 3),
            (Some(0), None, None, false, 3, 3),
        ],
        Rule::IdTaken,
    ),
    (
        &[
            (Some(5), None, None, false, 3, 3),
            (Some(5), None, None, false, 3, 3),
            (None, None, Some(9), false, 3, 3),
        ],
        Rule::BadRange,
    ),
    (
        &[
            (None, Some(""), None, false, 3, 3),
            (Some(0), None, None, false, 3, 3),
        ],
        Rule::IdTaken,
    ),
    (&[(None, Some(""), None, false, 3, 3)], Rule::BadName),
    (
        &[
            (None, Some("a"), None, false, 3, 3),
            (None, Some("A"), None, false, 3, 3),
            (None, Some("\u{7}"), None, false, 3, 3),
        ],
        Rule::BadName,
    ),
    (
        &[
            (None, None, None, false, 3, 3),
            (None, Some("sHEET1"), None, false, 3, 3),
        ],
        Rule::NameTaken,
    ),
    (
        &[
            (None, Some("a"), None, false, 0, 3),
            (None, Some("A"), None, false, 3, 3),
        ],
        Rule::NameTaken,
    ),
    (&[(None, None, None, true, 0, 3)], Rule::LastLine),
    (&[(None, None, None, false, 3, 0)], Rule::LastLine),
    (
        &[
            (None, None, None, true, 3, 3),
            (None, None, None, true, 3, 3),
        ],
        Rule::LastSheet,
    ),
    (&[(None, None, None, true, 1_000_001, 1)], Rule::LastSheet),
    (
        &[(None, None, None, false, 1_000_001, 1)],
        Rule::PastLimit(Limit::Rows),
    ),
    (
        &[(None, None, None, false, 1, 18_279)],
        Rule::PastLimit(Limit::Columns),
    ),
    (
        &[(None, None, None, false, 3_163, 3_163)],
        Rule::PastLimit(Limit::Cells),
    ),
    (
        &[
            (None, None, None, false, 1_000_000, 10),
            (None, None, None, false, 1, 1),
        ],
        Rule::PastLimit(Limit::Cells),
    ),
];

/// That as properties.
fn properties(alloc: Global, asked: &Asked) -> Result<SheetProperties, NoMemory> {
    let (id, title, index, hidden, rows, cols) = *asked;
    let title = match title {
        Some(title) => Some(Text::of(String::from_str(alloc, title)?)),
        None => None,
    };
    Ok(SheetProperties {
        id,
        title,
        index,
        hidden: Some(hidden),
        rows: Some(rows),
        cols: Some(cols),
    })
}

/// Those as a list.
fn list(alloc: Global, asked: &[Asked]) -> Result<Items<SheetProperties>, NoMemory> {
    let mut sheets = Vec::new(alloc);
    for one in asked {
        sheets.push(properties(alloc, one)?)?;
    }
    Ok(Items::of(sheets))
}

/// Adds a spreadsheet `Plans` of `ann` with the sheets.
fn added(world: &mut World, alloc: Global, asked: &[Asked]) -> Result<Text, RuleOr> {
    let sheets = list(alloc, asked)?;
    world.add_book("ann", "Plans", &sheets)
}

/// Whether the spreadsheet has sheets with these ids and titles, in their order.
fn has_sheets(book: &Book, wanted: &[(u32, &str)]) -> bool {
    let ids = book.sheets().as_slice();
    if ids.len() != wanted.len() {
        return false;
    }
    for at in 0..wanted.len() {
        let (id, title) = wanted[at];
        let found = match book.sheet(ids[at]) {
            Some(sheet) => sheet.id() == id && sheet.title().as_str() == title,
            None => false,
        };
        if !found {
            return false;
        }
    }
    true
}

#[test]
fn spreadsheets_are_made_with_sheets(rt: HostRuntime) {
    for row in &MADE {
        let Ok(mut world) = World::opening(rt.alloc()) else {
            return check(&rt, row, false);
        };
        let made = match added(&mut world, rt.alloc(), row.0) {
            Ok(id) => id.as_str() == "book2",
            Err(_) => false,
        };
        check(&rt, row, made);
        let stands = match world.find("book2") {
            Some(book) => {
                has_sheets(book, row.1)
                    && book.title().as_str() == "Plans"
                    && book.owner().as_str() == "ann"
            }
            None => false,
        };
        check(&rt, row, stands);
    }
}

#[test]
fn spreadsheets_that_break_a_rule_are_refused(rt: HostRuntime) {
    for row in &REFUSED {
        let Ok(mut world) = World::opening(rt.alloc()) else {
            return check(&rt, row, false);
        };
        let refused = match added(&mut world, rt.alloc(), row.0) {
            Err(RuleOr::Rule(rule)) => rule == row.1,
            _ => false,
        };
        check(&rt, row, refused && world.at(1).is_none());
    }
}

/// Numbers of sheets, and whether a spreadsheet can have as many.
static COUNTS: [(u32, bool); 3] = [(1, true), (200, true), (201, false)];

/// Sheets of which little is asked.
fn alike(alloc: Global, count: u32) -> Result<Items<SheetProperties>, NoMemory> {
    let mut sheets = Vec::new(alloc);
    for _ in 0..count {
        sheets.push(properties(alloc, &(None, None, None, false, 3, 3))?)?;
    }
    Ok(Items::of(sheets))
}

#[test]
fn spreadsheets_have_few_sheets(rt: HostRuntime) {
    for row in &COUNTS {
        let Ok(mut world) = World::opening(rt.alloc()) else {
            return check(&rt, row, false);
        };
        let Ok(sheets) = alike(rt.alloc(), row.0) else {
            return check(&rt, row, false);
        };
        let right = match world.add_book("ann", "", &sheets) {
            Ok(_) => row.1,
            Err(RuleOr::Rule(rule)) => !row.1 && rule == Rule::PastLimit(Limit::Sheets),
            Err(RuleOr::NoMemory) => false,
        };
        check(&rt, row, right);
    }
}
