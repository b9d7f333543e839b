use crate::common::{batch, list, shows, text};
use basic_filter::{Condition, Criterion, Filter};
use cell_value::{Items, Text};
use grid_range::{Area, Band};
use sheets_json::{Answer, Reply, ShownProperties, ShownProtection, ShownSheet, Spreadsheet};
use std::alloc::Global;

/// All cells of the first sheet.
const SHEET: Area = Area {
    sheet: 0,
    rows: Band::Whole,
    cols: Band::Whole,
};

/// A cell of the first sheet.
const CELL: Area = Area {
    sheet: 0,
    rows: Band::Span(0, 1),
    cols: Band::Span(1, 2),
};

/// A sheet of one cell that has this filter and these protected ranges.
fn sheet(
    alloc: Global,
    filter: Option<Filter>,
    protected: Option<Items<ShownProtection>>,
) -> ShownSheet {
    ShownSheet {
        basic_filter: filter,
        data: None,
        merges: None,
        properties: ShownProperties {
            column_count: 1,
            row_count: 1,
            hidden: false,
            index: 0,
            sheet_id: 0,
            title: text(alloc, "x"),
        },
        protected_ranges: protected,
    }
}

/// The spreadsheet `book1` with this sheet.
fn shown(alloc: Global, sheet: ShownSheet) -> Answer {
    Answer::Get(Spreadsheet {
        named_ranges: None,
        title: text(alloc, "t"),
        sheets: list(alloc, [sheet]),
        spreadsheet_id: text(alloc, "book1"),
    })
}

/// Texts; fewer where memory runs out.
fn texts(alloc: Global, given: &[&str]) -> Items<Text> {
    let mut texts = Vec::new(alloc);
    for one in given {
        let _ = texts.push(text(alloc, one));
    }
    Items::of(texts)
}

/// A filter of a sheet with these criteria.
fn filter(criteria: Items<Criterion>) -> Filter {
    Filter {
        area: SHEET,
        criteria,
    }
}

/// A criterion that only has a condition.
fn asks(alloc: Global, column: u32, condition: Condition) -> Criterion {
    Criterion {
        column,
        hidden: texts(alloc, &[]),
        condition: Some(condition),
    }
}

/// A criterion of the column 2 that only hides values.
fn hides(alloc: Global) -> Criterion {
    Criterion {
        column: 2,
        hidden: texts(alloc, &["x", ""]),
        condition: None,
    }
}

/// Criteria of the columns 2, 10 and 1, in this order.
fn criteria(alloc: Global) -> Items<Criterion> {
    let blank = asks(alloc, 10, Condition::Blank);
    let between = asks(alloc, 1, Condition::NumberBetween(-5, 10));
    list(alloc, [hides(alloc), blank, between])
}

#[test]
fn filters_are_shown(rt: HostRuntime) {
    let alloc = rt.alloc();
    let bare = sheet(alloc, Some(filter(list(alloc, []))), None);
    let wanted =
        "{\"properties\":{\"title\":\"t\"},\"sheets\":[{\"basicFilter\":{\"range\":{\"sheetId\":0}},\"properties\":{\"gridProperties\":{\"columnCount\":1,\"rowCount\":1},\"index\":0,\"sheetId\":0,\"sheetType\":\"GRID\",\"title\":\"x\"}}],\"spreadsheetId\":\"book1\"}";
    shows(&rt, alloc, shown(alloc, bare), wanted);
    let full = sheet(alloc, Some(filter(criteria(alloc))), None);
    let wanted =
        "{\"properties\":{\"title\":\"t\"},\"sheets\":[{\"basicFilter\":{\"criteria\":{\"1\":{\"condition\":{\"type\":\"NUMBER_BETWEEN\",\"values\":[{\"userEnteredValue\":\"-5\"},{\"userEnteredValue\":\"10\"}]}},\"10\":{\"condition\":{\"type\":\"BLANK\"}},\"2\":{\"hiddenValues\":[\"x\",\"\"]}},\"range\":{\"sheetId\":0}},\"properties\":{\"gridProperties\":{\"columnCount\":1,\"rowCount\":1},\"index\":0,\"sheetId\":0,\"sheetType\":\"GRID\",\"title\":\"x\"}}],\"spreadsheetId\":\"book1\"}";
    shows(&rt, alloc, shown(alloc, full), wanted);
}

/// A protected range with a description, editors and a cell that is left open.
fn protected(alloc: Global) -> ShownProtection {
    ShownProtection {
        description: text(alloc, "d"),
        editors: Some(texts(alloc, &["b", "a"])),
        protected_range_id: 1,
        range: SHEET,
        requesting_user_can_edit: true,
        unprotected_ranges: list(alloc, [CELL]),
        warning_only: false,
    }
}

/// A protected range that has nothing to be told.
fn bare(alloc: Global, editors: Option<Items<Text>>, warns: bool) -> ShownProtection {
    ShownProtection {
        description: text(alloc, ""),
        editors,
        protected_range_id: 2,
        range: CELL,
        requesting_user_can_edit: warns,
        unprotected_ranges: list(alloc, []),
        warning_only: warns,
    }
}

/// Protected ranges of each form; none where memory runs out.
fn ranges(alloc: Global) -> Items<ShownProtection> {
    let warning = bare(alloc, None, true);
    let edited = bare(alloc, Some(list(alloc, [])), false);
    list(alloc, [protected(alloc), warning, edited])
}

#[test]
fn protected_ranges_are_shown(rt: HostRuntime) {
    let alloc = rt.alloc();
    let sheet = sheet(alloc, None, Some(ranges(alloc)));
    let wanted =
        "{\"properties\":{\"title\":\"t\"},\"sheets\":[{\"properties\":{\"gridProperties\":{\"columnCount\":1,\"rowCount\":1},\"index\":0,\"sheetId\":0,\"sheetType\":\"GRID\",\"title\":\"x\"},\"protectedRanges\":[{\"description\":\"d\",\"editors\":{\"users\":[\"b\",\"a\"]},\"protectedRangeId\":1,\"range\":{\"sheetId\":0},\"requestingUserCanEdit\":true,\"unprotectedRanges\":[{\"endColumnIndex\":2,\"endRowIndex\":1,\"sheetId\":0,\"startColumnIndex\":1,\"startRowIndex\":0}]},{\"protectedRangeId\":2,\"range\":{\"endColumnIndex\":2,\"endRowIndex\":1,\"sheetId\":0,\"startColumnIndex\":1,\"startRowIndex\":0},\"requestingUserCanEdit\":true,\"warningOnly\":true},{\"editors\":{\"users\":[]},\"protectedRangeId\":2,\"range\":{\"endColumnIndex\":2,\"endRowIndex\":1,\"sheetId\":0,\"startColumnIndex\":1,\"startRowIndex\":0},\"requestingUserCanEdit\":false}]}],\"spreadsheetId\":\"book1\"}";
    shows(&rt, alloc, shown(alloc, sheet), wanted);
}

#[test]
fn new_protected_ranges_are_answered(rt: HostRuntime) {
    let alloc = rt.alloc();
    let reply = Reply::AddProtectedRange {
        protected_range: bare(alloc, None, true),
    };
    let wanted =
        "{\"replies\":[{\"addProtectedRange\":{\"protectedRange\":{\"protectedRangeId\":2,\"range\":{\"endColumnIndex\":2,\"endRowIndex\":1,\"sheetId\":0,\"startColumnIndex\":1,\"startRowIndex\":0},\"requestingUserCanEdit\":true,\"warningOnly\":true}}}],\"spreadsheetId\":\"book1\"}";
    shows(&rt, alloc, batch(alloc, list(alloc, [reply])), wanted);
}
