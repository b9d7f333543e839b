use crate::common::{TEN, check, joined, ten_times};
use crate::steps::is_step;

/// Requests for merged cells, and for new named ranges: their kinds, their members, and what they are.
static NEW: [(&str, &str, &str); 25] = [
    (
        "mergeCells",
        "{\"range\":{\"sheetId\":2,\"startRowIndex\":1,\"endRowIndex\":3},\"mergeType\":\"MERGE_ALL\"}",
        "MergeCells { range: Area { sheet: 2, rows: Span(1, 3), cols: Whole }, merge_type: All }",
    ),
    (
        "mergeCells",
        "{\"range\":{},\"mergeType\":\"MERGE_COLUMNS\"}",
        "MergeCells { range: Area { sheet: 0, rows: Whole, cols: Whole }, merge_type: Columns }",
    ),
    (
        "mergeCells",
        "{\"range\":{\"startColumnIndex\":5},\"mergeType\":\"MERGE_ROWS\"}",
        "MergeCells { range: Area { sheet: 0, rows: Whole, cols: From(5) }, merge_type: Rows }",
    ),
    (
        "mergeCells",
        "{\"range\":{},\"mergeType\":\"MERGE_TYPE_UNSPECIFIED\"}",
        "BadShape",
    ),
    ("mergeCells", "{\"range\":{}}", "BadShape"),
    (
        "mergeCells",
        "{\"range\":null,\"mergeType\":\"MERGE_ALL\"}",
        "BadShape",
    ),
    (
        "mergeCells",
        "{\"mergeType\":\"MERGE_ALL\",\"x\":1}",
        "BadShape",
    ),
    (
        "mergeCells",
        "{\"range\":{\"w\":1},\"mergeType\":\"MERGE_ALL\"}",
        "Unsupported",
    ),
    (
        "mergeCells",
        "{\"range\":{\"w\":1},\"mergeType\":7}",
        "BadShape",
    ),
    ("mergeCells", "7", "BadShape"),
    (
        "unmergeCells",
        "{\"range\":{\"endRowIndex\":3,\"endColumnIndex\":2147483647}}",
        "UnmergeCells { range: Area { sheet: 0, rows: Span(0, 3), cols: Span(0, 2147483647) } }",
    ),
    ("unmergeCells", "{}", "BadShape"),
    ("unmergeCells", "{\"range\":\"A1\"}", "BadShape"),
    (
        "unmergeCells",
        "{\"range\":{},\"mergeType\":\"MERGE_ALL\"}",
        "Unsupported",
    ),
    (
        "addNamedRange",
        "{\"namedRange\":{\"name\":\"tax\",\"range\":{\"sheetId\":1}}}",
        "AddNamedRange { named_range: NewNamedRange { named_range_id: None, name: Text { text: \"tax\" }, range: Area { sheet: 1, rows: Whole, cols: Whole } } }",
    ),
    (
        "addNamedRange",
        "{\"namedRange\":{\"namedRangeId\":\"aZ_-09\",\"name\":\"\",\"range\":{}}}",
        "AddNamedRange { named_range: NewNamedRange { named_range_id: Some(Text { text: \"aZ_-09\" }), name: Text { text: \"\" }, range: Area { sheet: 0, rows: Whole, cols: Whole } } }",
    ),
    (
        "addNamedRange",
        "{\"namedRange\":{\"namedRangeId\":\"\",\"name\":\"x\",\"range\":{}}}",
        "BadShape",
    ),
    (
        "addNamedRange",
        "{\"namedRange\":{\"namedRangeId\":\"a b\",\"name\":\"x\",\"range\":{}}}",
        "BadShape",
    ),
    (
        "addNamedRange",
        "{\"namedRange\":{\"namedRangeId\":\"é\",\"name\":\"x\",\"range\":{}}}",
        "BadShape",
    ),
    (
        "addNamedRange",
        "{\"namedRange\":{\"namedRangeId\":1,\"name\":\"x\",\"range\":{}}}",
        "BadShape",
    ),
    (
        "addNamedRange",
        "{\"namedRange\":{\"name\":\"x\"}}",
        "BadShape",
    ),
    (
        "addNamedRange",
        "{\"namedRange\":{\"range\":{}}}",
        "BadShape",
    ),
    (
        "addNamedRange",
        "{\"namedRange\":{\"name\":1,\"range\":{}}}",
        "BadShape",
    ),
    (
        "addNamedRange",
        "{\"namedRange\":{\"name\":\"x\",\"range\":{},\"w\":1}}",
        "Unsupported",
    ),
    ("addNamedRange", "{}", "BadShape"),
];

#[test]
fn cells_are_merged_and_named(rt: HostRuntime) {
    for row in &NEW {
        let holds = is_step(rt.alloc(), row.0, row.1, row.2);
        check(&rt, row, holds);
    }
}

/// Requests that change or remove named ranges.
static CHANGED: [(&str, &str, &str); 17] = [
    (
        "updateNamedRange",
        "{\"namedRange\":{\"namedRangeId\":\"nr1\",\"name\":\"x\",\"range\":{}},\"fields\":\"name,range\"}",
        "UpdateNamedRange { named_range_id: Text { text: \"nr1\" }, name: Some(Text { text: \"x\" }), range: Some(Area { sheet: 0, rows: Whole, cols: Whole }) }",
    ),
    (
        "updateNamedRange",
        "{\"namedRange\":{\"namedRangeId\":\"nr1\",\"name\":\"x\",\"range\":{}},\"fields\":\"name\"}",
        "UpdateNamedRange { named_range_id: Text { text: \"nr1\" }, name: Some(Text { text: \"x\" }), range: None }",
    ),
    (
        "updateNamedRange",
        "{\"namedRange\":{\"namedRangeId\":\"nr1\",\"name\":\"x\"},\"fields\":\"*\"}",
        "UpdateNamedRange { named_range_id: Text { text: \"nr1\" }, name: Some(Text { text: \"x\" }), range: None }",
    ),
    (
        "updateNamedRange",
        "{\"namedRange\":{\"namedRangeId\":\"nr1\",\"name\":\"x\"},\"fields\":\"range\"}",
        "BadShape",
    ),
    (
        "updateNamedRange",
        "{\"namedRange\":{\"namedRangeId\":\"nr1\",\"name\":null},\"fields\":\"name\"}",
        "BadShape",
    ),
    (
        "updateNamedRange",
        "{\"namedRange\":{\"namedRangeId\":\"nr1\",\"name\":\"x\"},\"fields\":\"namedRangeId\"}",
        "Unsupported",
    ),
    (
        "updateNamedRange",
        "{\"namedRange\":{\"namedRangeId\":\"nr1\",\"name\":\"x\"},\"fields\":\" name\"}",
        "Unsupported",
    ),
    (
        "updateNamedRange",
        "{\"namedRange\":{\"namedRangeId\":\"nr1\",\"name\":\"x\"},\"fields\":\"\"}",
        "Unsupported",
    ),
    (
        "updateNamedRange",
        "{\"namedRange\":{\"namedRangeId\":\"nr1\"},\"fields\":\"*\"}",
        "UpdateNamedRange { named_range_id: Text { text: \"nr1\" }, name: None, range: None }",
    ),
    (
        "updateNamedRange",
        "{\"namedRange\":{\"name\":\"x\"},\"fields\":\"name\"}",
        "BadShape",
    ),
    (
        "updateNamedRange",
        "{\"namedRange\":{\"namedRangeId\":\"nr1\",\"name\":\"x\"}}",
        "BadShape",
    ),
    ("updateNamedRange", "{\"fields\":\"name\"}", "BadShape"),
    (
        "updateNamedRange",
        "{\"namedRange\":{\"namedRangeId\":\"nr1\",\"name\":\"x\"},\"fields\":\"name\",\"w\":1}",
        "Unsupported",
    ),
    (
        "deleteNamedRange",
        "{\"namedRangeId\":\"nr1\"}",
        "DeleteNamedRange { named_range_id: Text { text: \"nr1\" } }",
    ),
    ("deleteNamedRange", "{\"namedRangeId\":7}", "BadShape"),
    ("deleteNamedRange", "{}", "BadShape"),
    (
        "deleteNamedRange",
        "{\"namedRangeId\":\"nr1\",\"name\":\"x\"}",
        "Unsupported",
    ),
];

#[test]
fn named_ranges_are_changed(rt: HostRuntime) {
    for row in &CHANGED {
        let holds = is_step(rt.alloc(), row.0, row.1, row.2);
        check(&rt, row, holds);
    }
}

#[test]
fn ids_have_a_hundred_bytes(rt: HostRuntime) {
    let alloc = rt.alloc();
    let hundred = ten_times(alloc, TEN);
    let members = joined(alloc, "{\"namedRangeId\":\"", hundred.as_str(), "\"}");
    let wanted = joined(
        alloc,
        "DeleteNamedRange { named_range_id: Text { text: \"",
        hundred.as_str(),
        "\" } }",
    );
    let holds = is_step(alloc, "deleteNamedRange", members.as_str(), wanted.as_str());
    check(&rt, &"of a hundred", holds);
    let members = joined(alloc, "{\"namedRangeId\":\"a", hundred.as_str(), "\"}");
    let holds = is_step(alloc, "deleteNamedRange", members.as_str(), "BadShape");
    check(&rt, &"of one more", holds);
}

/// Requests for merged cells and named ranges that aren't taken: their kinds, their members, and why.
static REFUSED: [(&str, &str, &str); 3] = [
    (
        "mergeCells",
        "{\"range\":{},\"mergeType\":\"MERGE_ALL\",\"w\":1}",
        "Unsupported",
    ),
    (
        "addNamedRange",
        "{\"namedRange\":{\"name\":\"x\",\"range\":{}},\"w\":1}",
        "Unsupported",
    ),
    (
        "updateNamedRange",
        "{\"namedRange\":{\"namedRangeId\":\"nr1\",\"name\":7},\"fields\":\"name\"}",
        "BadShape",
    ),
];

#[test]
fn other_names_and_merges_are_refused(rt: HostRuntime) {
    for row in &REFUSED {
        let holds = is_step(rt.alloc(), row.0, row.1, row.2);
        check(&rt, row, holds);
    }
}
