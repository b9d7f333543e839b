use crate::common::{list, shows, text};
use cell_value::{Cell, Items};
use grid_range::Axis;
use sheets_json::{Answer, ShownRange, Update};
use std::alloc::Global;

/// An update of two columns of the spreadsheet `book1`.
fn update(alloc: Global, cells: u64, range: &str, rows: u64) -> Update {
    Update {
        spreadsheet_id: text(alloc, "book1"),
        updated_cells: cells,
        updated_columns: 2,
        updated_range: text(alloc, range),
        updated_rows: rows,
    }
}

/// A range with these rows.
fn range(alloc: Global, name: &str, rows: Option<Items<Items<Cell>>>) -> ShownRange {
    ShownRange {
        range: text(alloc, name),
        major_dimension: Axis::Rows,
        values: rows,
    }
}

/// A row of two cells, one of none and one of one; fewer where memory runs out.
fn rows(alloc: Global) -> Items<Items<Cell>> {
    let quoted = Cell::Text(text(alloc, "x\"\n"));
    let first = list(alloc, [Cell::Number(-1), quoted]);
    let second = list(alloc, [Cell::Truth(true)]);
    list(alloc, [first, list(alloc, []), second])
}

/// The answer to an append to a table.
fn appended(alloc: Global) -> Answer {
    Answer::Append {
        spreadsheet_id: text(alloc, "book1"),
        table_range: Some(text(alloc, "Sheet1!A1:B2")),
        updates: update(alloc, 2, "Sheet1!A3:B3", 1),
    }
}

#[test]
fn writes_are_answered(rt: HostRuntime) {
    let alloc = rt.alloc();
    let written = update(alloc, 3, "Sheet1!A1:B2", 2);
    let wanted =
        "{\"spreadsheetId\":\"book1\",\"updatedCells\":3,\"updatedColumns\":2,\"updatedRange\":\"Sheet1!A1:B2\",\"updatedRows\":2}";
    shows(&rt, alloc, Answer::Write(written), wanted);
    let wanted =
        "{\"spreadsheetId\":\"book1\",\"tableRange\":\"Sheet1!A1:B2\",\"updates\":{\"spreadsheetId\":\"book1\",\"updatedCells\":2,\"updatedColumns\":2,\"updatedRange\":\"Sheet1!A3:B3\",\"updatedRows\":1}}";
    shows(&rt, alloc, appended(alloc), wanted);
}

/// The answer to a clear of a cell.
fn cleared(alloc: Global) -> Answer {
    Answer::Clear {
        cleared_range: text(alloc, "Sheet1!A1"),
        spreadsheet_id: text(alloc, "book1"),
    }
}

#[test]
fn reads_and_clears_are_answered(rt: HostRuntime) {
    let alloc = rt.alloc();
    let empty = range(alloc, "'Jon''s data'!A1:A1000", None);
    let wanted = "{\"majorDimension\":\"ROWS\",\"range\":\"'Jon''s data'!A1:A1000\"}";
    shows(&rt, alloc, Answer::Read(empty), wanted);
    let shown = range(alloc, "Sheet1!A1:B2", Some(rows(alloc)));
    let wanted =
        "{\"majorDimension\":\"ROWS\",\"range\":\"Sheet1!A1:B2\",\"values\":[[-1,\"x\\\"\\n\"],[],[true]]}";
    shows(&rt, alloc, Answer::Read(shown), wanted);
    let wanted = "{\"clearedRange\":\"Sheet1!A1\",\"spreadsheetId\":\"book1\"}";
    shows(&rt, alloc, cleared(alloc), wanted);
}

/// The answer to a read of one range that shows nothing.
fn read(alloc: Global) -> Answer {
    Answer::ReadMany {
        spreadsheet_id: text(alloc, "book1"),
        value_ranges: list(alloc, [range(alloc, "Sheet1!A1", None)]),
    }
}

/// The answer to a write of no range.
fn written(alloc: Global) -> Answer {
    Answer::WriteMany {
        responses: list(alloc, []),
        spreadsheet_id: text(alloc, "book1"),
        total_updated_cells: 1,
        total_updated_columns: 2,
        total_updated_rows: 3,
        total_updated_sheets: 4,
    }
}

/// The answer to a clear of one range.
fn cleared_range(alloc: Global) -> Answer {
    Answer::ClearMany {
        cleared_ranges: list(alloc, [text(alloc, "Sheet1!A1")]),
        spreadsheet_id: text(alloc, "book1"),
    }
}

#[test]
fn calls_on_many_ranges_are_answered(rt: HostRuntime) {
    let alloc = rt.alloc();
    let wanted =
        "{\"spreadsheetId\":\"book1\",\"valueRanges\":[{\"majorDimension\":\"ROWS\",\"range\":\"Sheet1!A1\"}]}";
    shows(&rt, alloc, read(alloc), wanted);
    let wanted =
        "{\"responses\":[],\"spreadsheetId\":\"book1\",\"totalUpdatedCells\":1,\"totalUpdatedColumns\":2,\"totalUpdatedRows\":3,\"totalUpdatedSheets\":4}";
    shows(&rt, alloc, written(alloc), wanted);
    let wanted = "{\"clearedRanges\":[\"Sheet1!A1\"],\"spreadsheetId\":\"book1\"}";
    shows(&rt, alloc, cleared_range(alloc), wanted);
}
