use crate::common::{batch, list, shows, text};
use cell_value::Items;
use grid_range::{Area, Band};
use named_ranges::NamedRange;
use sheets_json::{
    Answer, DimensionProperties, GridData, Reply, ShownProperties, ShownSheet, Spreadsheet,
};
use std::alloc::Global;

/// What is shown of a sheet of 1,000 rows and 26 columns.
fn properties(alloc: Global, id: u32, title: &str, hidden: bool) -> ShownProperties {
    ShownProperties {
        column_count: 26,
        row_count: 1_000,
        hidden,
        index: id,
        sheet_id: id,
        title: text(alloc, title),
    }
}

/// A sheet without a filter and protected ranges.
fn sheet(
    data: Option<GridData>,
    merges: Option<Items<Area>>,
    properties: ShownProperties,
) -> ShownSheet {
    ShownSheet {
        basic_filter: None,
        data,
        merges,
        properties,
        protected_ranges: None,
    }
}

/// The spreadsheet `book2` with these named ranges and sheets.
fn spreadsheet(
    alloc: Global,
    names: Option<Items<NamedRange>>,
    sheets: Items<ShownSheet>,
) -> Spreadsheet {
    Spreadsheet {
        named_ranges: names,
        title: text(alloc, "Untitled spreadsheet"),
        sheets,
        spreadsheet_id: text(alloc, "book2"),
    }
}

/// Rows of which those are hidden by a filter; fewer where memory runs out.
fn grid(alloc: Global, hidden: &[bool]) -> GridData {
    let mut rows = Vec::new(alloc);
    for row in hidden {
        let _ = rows.push(DimensionProperties {
            hidden_by_filter: *row,
        });
    }
    GridData {
        row_metadata: Items::of(rows),
    }
}

/// Areas of each form.
fn areas(alloc: Global) -> Items<Area> {
    let mut areas = Vec::new(alloc);
    let bands = [
        (Band::Span(0, 3), Band::Span(1, 2)),
        (Band::Whole, Band::From(4)),
        (Band::From(5), Band::Whole),
    ];
    for (rows, cols) in bands {
        let _ = areas.push(Area {
            sheet: 1,
            rows,
            cols,
        });
    }
    Items::of(areas)
}

#[test]
fn new_spreadsheets_are_answered(rt: HostRuntime) {
    let alloc = rt.alloc();
    let sheet = sheet(None, None, properties(alloc, 0, "Sheet1", false));
    let created = spreadsheet(alloc, None, list(alloc, [sheet]));
    let wanted =
        "{\"properties\":{\"title\":\"Untitled spreadsheet\"},\"sheets\":[{\"properties\":{\"gridProperties\":{\"columnCount\":26,\"rowCount\":1000},\"index\":0,\"sheetId\":0,\"sheetType\":\"GRID\",\"title\":\"Sheet1\"}}],\"spreadsheetId\":\"book2\"}";
    shows(&rt, alloc, Answer::Create(created), wanted);
}

#[test]
fn spreadsheets_are_shown(rt: HostRuntime) {
    let alloc = rt.alloc();
    let properties = properties(alloc, 1, "x", true);
    let sheet = sheet(None, Some(areas(alloc)), properties);
    let shown = spreadsheet(alloc, None, list(alloc, [sheet]));
    let wanted =
        "{\"properties\":{\"title\":\"Untitled spreadsheet\"},\"sheets\":[{\"merges\":[{\"endColumnIndex\":2,\"endRowIndex\":3,\"sheetId\":1,\"startColumnIndex\":1,\"startRowIndex\":0},{\"sheetId\":1,\"startColumnIndex\":4},{\"sheetId\":1,\"startRowIndex\":5}],\"properties\":{\"gridProperties\":{\"columnCount\":26,\"rowCount\":1000},\"hidden\":true,\"index\":1,\"sheetId\":1,\"sheetType\":\"GRID\",\"title\":\"x\"}}],\"spreadsheetId\":\"book2\"}";
    shows(&rt, alloc, Answer::Get(shown), wanted);
}

/// A sheet of which no row is shown.
fn without_rows(alloc: Global) -> ShownSheet {
    let data = grid(alloc, &[]);
    sheet(Some(data), None, properties(alloc, 0, "none", false))
}

/// A sheet of which a filter hides two rows.
fn with_rows(alloc: Global) -> ShownSheet {
    let data = grid(alloc, &[false, true, false, true]);
    let merges = list(alloc, []);
    let properties = properties(alloc, 1, "two", false);
    sheet(Some(data), Some(merges), properties)
}

/// Sheets of which rows are shown; none where memory runs out.
fn sheets(alloc: Global) -> Items<ShownSheet> {
    list(alloc, [without_rows(alloc), with_rows(alloc)])
}

#[test]
fn rows_of_sheets_are_shown(rt: HostRuntime) {
    let alloc = rt.alloc();
    let shown = spreadsheet(alloc, None, sheets(alloc));
    let wanted =
        "{\"properties\":{\"title\":\"Untitled spreadsheet\"},\"sheets\":[{\"data\":[{\"rowMetadata\":[]}],\"properties\":{\"gridProperties\":{\"columnCount\":26,\"rowCount\":1000},\"index\":0,\"sheetId\":0,\"sheetType\":\"GRID\",\"title\":\"none\"}},{\"data\":[{\"rowMetadata\":[{},{\"hiddenByFilter\":true},{},{\"hiddenByFilter\":true}]}],\"merges\":[],\"properties\":{\"gridProperties\":{\"columnCount\":26,\"rowCount\":1000},\"index\":1,\"sheetId\":1,\"sheetType\":\"GRID\",\"title\":\"two\"}}],\"spreadsheetId\":\"book2\"}";
    shows(&rt, alloc, Answer::Get(shown), wanted);
}

/// The named range `nr1` of a cell.
fn named_range(alloc: Global) -> NamedRange {
    NamedRange {
        id: text(alloc, "nr1"),
        name: text(alloc, "tax"),
        area: Area {
            sheet: 0,
            rows: Band::Span(1, 2),
            cols: Band::Span(3, 4),
        },
    }
}

#[test]
fn named_ranges_are_shown(rt: HostRuntime) {
    let alloc = rt.alloc();
    let names = list(alloc, [named_range(alloc)]);
    let shown = spreadsheet(alloc, Some(names), list(alloc, []));
    let wanted =
        "{\"namedRanges\":[{\"name\":\"tax\",\"namedRangeId\":\"nr1\",\"range\":{\"endColumnIndex\":4,\"endRowIndex\":2,\"sheetId\":0,\"startColumnIndex\":3,\"startRowIndex\":1}}],\"properties\":{\"title\":\"Untitled spreadsheet\"},\"sheets\":[],\"spreadsheetId\":\"book2\"}";
    shows(&rt, alloc, Answer::Get(shown), wanted);
}

#[test]
fn new_named_ranges_are_answered(rt: HostRuntime) {
    let alloc = rt.alloc();
    let reply = Reply::AddNamedRange {
        named_range: named_range(alloc),
    };
    let wanted =
        "{\"replies\":[{\"addNamedRange\":{\"namedRange\":{\"name\":\"tax\",\"namedRangeId\":\"nr1\",\"range\":{\"endColumnIndex\":4,\"endRowIndex\":2,\"sheetId\":0,\"startColumnIndex\":3,\"startRowIndex\":1}}}}],\"spreadsheetId\":\"book1\"}";
    shows(&rt, alloc, batch(alloc, list(alloc, [reply])), wanted);
}

/// An empty reply, and one to a request for a sheet; none where memory runs out.
fn replies(alloc: Global) -> Items<Reply> {
    let added = Reply::AddSheet {
        properties: properties(alloc, 1, "New", false),
    };
    list(alloc, [Reply::Empty, added])
}

#[test]
fn batches_are_answered(rt: HostRuntime) {
    let alloc = rt.alloc();
    let wanted =
        "{\"replies\":[{},{\"addSheet\":{\"properties\":{\"gridProperties\":{\"columnCount\":26,\"rowCount\":1000},\"index\":1,\"sheetId\":1,\"sheetType\":\"GRID\",\"title\":\"New\"}}}],\"spreadsheetId\":\"book1\"}";
    shows(&rt, alloc, batch(alloc, replies(alloc)), wanted);
}
