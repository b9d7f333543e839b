use crate::common::check;
use crate::steps::is_step;

/// Requests for rows and columns: their kinds, their members, and what they are.
static LINES: [(&str, &str, &str); 11] = [
    (
        "insertDimension",
        "{\"range\":{\"dimension\":\"ROWS\",\"sheetId\":3,\"startIndex\":1,\"endIndex\":2},\"inheritFromBefore\":true}",
        "InsertDimension { range: DimensionRange { sheet_id: 3, dimension: Rows, start_index: 1, end_index: Some(2) }, inherit_from_before: Some(true) }",
    ),
    (
        "insertDimension",
        "{\"range\":{\"dimension\":\"ROWS\",\"startIndex\":1}}",
        "BadShape",
    ),
    (
        "insertDimension",
        "{\"range\":{\"endIndex\":1}}",
        "BadShape",
    ),
    (
        "insertDimension",
        "{\"inheritFromBefore\":true}",
        "BadShape",
    ),
    (
        "insertDimension",
        "{\"range\":{\"dimension\":\"ROWS\",\"endIndex\":1},\"inheritFromBefore\":1}",
        "BadShape",
    ),
    (
        "deleteDimension",
        "{\"range\":{\"dimension\":\"COLUMNS\"}}",
        "DeleteDimension { range: DimensionRange { sheet_id: 0, dimension: Columns, start_index: 0, end_index: None } }",
    ),
    (
        "deleteDimension",
        "{\"range\":{\"dimension\":\"COLUMNS\",\"w\":1}}",
        "Unsupported",
    ),
    (
        "appendDimension",
        "{\"dimension\":\"ROWS\",\"length\":0}",
        "AppendDimension { sheet_id: 0, dimension: Rows, length: 0 }",
    ),
    ("appendDimension", "{\"dimension\":\"ROWS\"}", "BadShape"),
    (
        "moveDimension",
        "{\"source\":{\"dimension\":\"ROWS\",\"startIndex\":1,\"endIndex\":3},\"destinationIndex\":4}",
        "MoveDimension { source: DimensionRange { sheet_id: 0, dimension: Rows, start_index: 1, end_index: Some(3) }, destination_index: 4 }",
    ),
    (
        "moveDimension",
        "{\"source\":{\"dimension\":\"ROWS\"}}",
        "BadShape",
    ),
];

#[test]
fn lines_are_changed(rt: HostRuntime) {
    for row in &LINES {
        let holds = is_step(rt.alloc(), row.0, row.1, row.2);
        check(&rt, row, holds);
    }
}

/// Requests for rows and columns that aren't taken: their kinds, their members, and why.
static REFUSED: [(&str, &str, &str); 9] = [
    (
        "insertDimension",
        "{\"range\":{\"dimension\":\"ROWS\",\"endIndex\":1},\"w\":1}",
        "Unsupported",
    ),
    (
        "insertDimension",
        "{\"range\":{\"dimension\":\"DIAGONAL\",\"endIndex\":1}}",
        "BadShape",
    ),
    ("deleteDimension", "{}", "BadShape"),
    (
        "deleteDimension",
        "{\"range\":{\"dimension\":\"ROWS\"},\"w\":1}",
        "Unsupported",
    ),
    ("deleteDimension", "{\"range\":[]}", "BadShape"),
    (
        "appendDimension",
        "{\"dimension\":\"ROWS\",\"length\":1,\"w\":1}",
        "Unsupported",
    ),
    (
        "appendDimension",
        "{\"dimension\":\"ROWS\",\"length\":\"1\"}",
        "BadShape",
    ),
    (
        "moveDimension",
        "{\"source\":{\"dimension\":\"ROWS\"},\"destinationIndex\":4,\"w\":1}",
        "Unsupported",
    ),
    (
        "moveDimension",
        "{\"source\":7,\"destinationIndex\":4}",
        "BadShape",
    ),
];

#[test]
fn other_lines_are_refused(rt: HostRuntime) {
    for row in &REFUSED {
        let holds = is_step(rt.alloc(), row.0, row.1, row.2);
        check(&rt, row, holds);
    }
}
