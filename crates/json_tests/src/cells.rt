use crate::common::check;
use crate::steps::is_step;

/// Requests for cells: their kinds, their members, and what they are.
static CELLS: [(&str, &str, &str); 31] = [
    (
        "updateCells",
        "{\"rows\":[{\"values\":[{\"userEnteredValue\":{\"numberValue\":1}},{}]},{}],\"fields\":\"userEnteredValue\",\"start\":{\"sheetId\":1,\"rowIndex\":2,\"columnIndex\":3}}",
        "UpdateCells { rows: Block { columns_first: false, values: Items { items: [Items { items: [Number(1), Empty] }, Items { items: [] }] } }, area: Start(GridCoordinate { sheet_id: 1, row_index: 2, column_index: 3 }) }",
    ),
    (
        "updateCells",
        "{\"fields\":\"*\",\"range\":{\"startRowIndex\":1,\"endColumnIndex\":2}}",
        "UpdateCells { rows: Block { columns_first: false, values: Items { items: [] } }, area: Range(Area { sheet: 0, rows: From(1), cols: Span(0, 2) }) }",
    ),
    (
        "updateCells",
        "{\"fields\":\"*\",\"range\":{\"sheetId\":4,\"startRowIndex\":3,\"endRowIndex\":1}}",
        "UpdateCells { rows: Block { columns_first: false, values: Items { items: [] } }, area: Range(Area { sheet: 4, rows: Span(3, 1), cols: Whole }) }",
    ),
    (
        "updateCells",
        "{\"fields\":\"*\",\"range\":{\"startColumnIndex\":2147483647}}",
        "UpdateCells { rows: Block { columns_first: false, values: Items { items: [] } }, area: Range(Area { sheet: 0, rows: Whole, cols: From(2147483647) }) }",
    ),
    (
        "updateCells",
        "{\"fields\":\"*\",\"range\":{\"startColumnIndex\":2147483648}}",
        "BadShape",
    ),
    (
        "updateCells",
        "{\"fields\":\"*\",\"range\":{\"endRowIndex\":3,\"w\":1}}",
        "Unsupported",
    ),
    ("updateCells", "{\"fields\":\"*\",\"range\":[]}", "BadShape"),
    (
        "updateCells",
        "{\"fields\":\"*\",\"start\":{\"rowIndex\":-1}}",
        "BadShape",
    ),
    (
        "updateCells",
        "{\"fields\":\"*\",\"start\":{\"x\":1}}",
        "Unsupported",
    ),
    (
        "updateCells",
        "{\"fields\":\"*\",\"start\":{},\"range\":{}}",
        "BadShape",
    ),
    (
        "updateCells",
        "{\"fields\":\"*\",\"start\":{},\"range\":null}",
        "UpdateCells { rows: Block { columns_first: false, values: Items { items: [] } }, area: Start(GridCoordinate { sheet_id: 0, row_index: 0, column_index: 0 }) }",
    ),
    ("updateCells", "{\"fields\":\"*\"}", "BadShape"),
    ("updateCells", "{\"start\":{}}", "BadShape"),
    (
        "updateCells",
        "{\"fields\":\"*\",\"start\":{},\"x\":1}",
        "Unsupported",
    ),
    ("updateCells", "{\"fields\":\"*\",\"x\":1}", "BadShape"),
    (
        "updateCells",
        "{\"rows\":{},\"fields\":\"*\",\"start\":{}}",
        "BadShape",
    ),
    (
        "updateCells",
        "{\"rows\":[null],\"fields\":\"*\",\"start\":{}}",
        "BadShape",
    ),
    (
        "updateCells",
        "{\"rows\":[{\"values\":{}}],\"fields\":\"*\",\"start\":{}}",
        "BadShape",
    ),
    (
        "updateCells",
        "{\"rows\":[{\"x\":1}],\"fields\":\"*\",\"start\":{}}",
        "Unsupported",
    ),
    (
        "updateCells",
        "{\"fields\":\"userEnteredValue,*\",\"start\":{}}",
        "UpdateCells { rows: Block { columns_first: false, values: Items { items: [] } }, area: Start(GridCoordinate { sheet_id: 0, row_index: 0, column_index: 0 }) }",
    ),
    (
        "updateCells",
        "{\"fields\":\"userEnteredFormat\",\"start\":{}}",
        "Unsupported",
    ),
    (
        "updateCells",
        "{\"fields\":\"userEnteredValue.stringValue\",\"start\":{}}",
        "Unsupported",
    ),
    (
        "updateCells",
        "{\"fields\":\" userEnteredValue\",\"start\":{}}",
        "Unsupported",
    ),
    (
        "updateCells",
        "{\"fields\":\"\",\"start\":{}}",
        "Unsupported",
    ),
    ("updateCells", "{\"fields\":7,\"start\":{}}", "BadShape"),
    (
        "appendCells",
        "{\"sheetId\":7,\"rows\":[{\"values\":[{\"userEnteredValue\":{\"numberValue\":1}}]}],\"fields\":\"*\"}",
        "AppendCells { sheet_id: 7, rows: Block { columns_first: false, values: Items { items: [Items { items: [Number(1)] }] } } }",
    ),
    (
        "appendCells",
        "{\"rows\":[],\"fields\":\"userEnteredValue\"}",
        "AppendCells { sheet_id: 0, rows: Block { columns_first: false, values: Items { items: [] } } }",
    ),
    ("appendCells", "{\"fields\":\"*\"}", "BadShape"),
    ("appendCells", "{\"rows\":[]}", "BadShape"),
    (
        "appendCells",
        "{\"rows\":[],\"fields\":\"*\",\"start\":{}}",
        "Unsupported",
    ),
    (
        "appendCells",
        "{\"sheetId\":\"0\",\"rows\":[],\"fields\":\"*\"}",
        "BadShape",
    ),
];

#[test]
fn cells_are_changed(rt: HostRuntime) {
    for row in &CELLS {
        let holds = is_step(rt.alloc(), row.0, row.1, row.2);
        check(&rt, row, holds);
    }
}

/// Updates of a cell, and what they are.
static VALUES: [(&str, &str, &str); 25] = [
    (
        "updateCells",
        "{\"rows\":[{\"values\":[null]}],\"fields\":\"*\",\"start\":{}}",
        "BadShape",
    ),
    (
        "updateCells",
        "{\"rows\":[{\"values\":[7]}],\"fields\":\"*\",\"start\":{}}",
        "BadShape",
    ),
    (
        "updateCells",
        "{\"rows\":[{\"values\":[{\"note\":\"x\"}]}],\"fields\":\"*\",\"start\":{}}",
        "Unsupported",
    ),
    (
        "updateCells",
        "{\"rows\":[{\"values\":[{\"userEnteredValue\":null}]}],\"fields\":\"*\",\"start\":{}}",
        "UpdateCells { rows: Block { columns_first: false, values: Items { items: [Items { items: [Empty] }] } }, area: Start(GridCoordinate { sheet_id: 0, row_index: 0, column_index: 0 }) }",
    ),
    (
        "updateCells",
        "{\"rows\":[{\"values\":[{\"userEnteredValue\":{\"numberValue\":-9007199254740992}}]}],\"fields\":\"*\",\"start\":{}}",
        "UpdateCells { rows: Block { columns_first: false, values: Items { items: [Items { items: [Number(-9007199254740992)] }] } }, area: Start(GridCoordinate { sheet_id: 0, row_index: 0, column_index: 0 }) }",
    ),
    (
        "updateCells",
        "{\"rows\":[{\"values\":[{\"userEnteredValue\":{\"numberValue\":9007199254740993}}]}],\"fields\":\"*\",\"start\":{}}",
        "BadNumber",
    ),
    (
        "updateCells",
        "{\"rows\":[{\"values\":[{\"userEnteredValue\":{\"numberValue\":1.5}}]}],\"fields\":\"*\",\"start\":{}}",
        "BadNumber",
    ),
    (
        "updateCells",
        "{\"rows\":[{\"values\":[{\"userEnteredValue\":{\"numberValue\":\"1\"}}]}],\"fields\":\"*\",\"start\":{}}",
        "BadShape",
    ),
    (
        "updateCells",
        "{\"rows\":[{\"values\":[{\"userEnteredValue\":{\"stringValue\":\"12\"}}]}],\"fields\":\"*\",\"start\":{}}",
        "UpdateCells { rows: Block { columns_first: false, values: Items { items: [Items { items: [Text(Text { text: \"12\" })] }] } }, area: Start(GridCoordinate { sheet_id: 0, row_index: 0, column_index: 0 }) }",
    ),
    (
        "updateCells",
        "{\"rows\":[{\"values\":[{\"userEnteredValue\":{\"stringValue\":\"=A1\"}}]}],\"fields\":\"*\",\"start\":{}}",
        "UpdateCells { rows: Block { columns_first: false, values: Items { items: [Items { items: [Text(Text { text: \"=A1\" })] }] } }, area: Start(GridCoordinate { sheet_id: 0, row_index: 0, column_index: 0 }) }",
    ),
    (
        "updateCells",
        "{\"rows\":[{\"values\":[{\"userEnteredValue\":{\"stringValue\":\"\"}}]}],\"fields\":\"*\",\"start\":{}}",
        "UpdateCells { rows: Block { columns_first: false, values: Items { items: [Items { items: [Empty] }] } }, area: Start(GridCoordinate { sheet_id: 0, row_index: 0, column_index: 0 }) }",
    ),
    (
        "updateCells",
        "{\"rows\":[{\"values\":[{\"userEnteredValue\":{\"stringValue\":1}}]}],\"fields\":\"*\",\"start\":{}}",
        "BadShape",
    ),
    (
        "updateCells",
        "{\"rows\":[{\"values\":[{\"userEnteredValue\":{\"boolValue\":true}}]}],\"fields\":\"*\",\"start\":{}}",
        "UpdateCells { rows: Block { columns_first: false, values: Items { items: [Items { items: [Truth(true)] }] } }, area: Start(GridCoordinate { sheet_id: 0, row_index: 0, column_index: 0 }) }",
    ),
    (
        "updateCells",
        "{\"rows\":[{\"values\":[{\"userEnteredValue\":{\"boolValue\":\"TRUE\"}}]}],\"fields\":\"*\",\"start\":{}}",
        "BadShape",
    ),
    (
        "updateCells",
        "{\"rows\":[{\"values\":[{\"userEnteredValue\":{\"formulaValue\":\"=A1\"}}]}],\"fields\":\"*\",\"start\":{}}",
        "UpdateCells { rows: Block { columns_first: false, values: Items { items: [Items { items: [FormulaText(Text { text: \"=A1\" })] }] } }, area: Start(GridCoordinate { sheet_id: 0, row_index: 0, column_index: 0 }) }",
    ),
    (
        "updateCells",
        "{\"rows\":[{\"values\":[{\"userEnteredValue\":{\"formulaValue\":\"=\"}}]}],\"fields\":\"*\",\"start\":{}}",
        "BadShape",
    ),
    (
        "updateCells",
        "{\"rows\":[{\"values\":[{\"userEnteredValue\":{\"formulaValue\":\"A1\"}}]}],\"fields\":\"*\",\"start\":{}}",
        "BadShape",
    ),
    (
        "updateCells",
        "{\"rows\":[{\"values\":[{\"userEnteredValue\":{\"formulaValue\":1}}]}],\"fields\":\"*\",\"start\":{}}",
        "BadShape",
    ),
    (
        "updateCells",
        "{\"rows\":[{\"values\":[{\"userEnteredValue\":{}}]}],\"fields\":\"*\",\"start\":{}}",
        "BadShape",
    ),
    (
        "updateCells",
        "{\"rows\":[{\"values\":[{\"userEnteredValue\":{\"numberValue\":1,\"stringValue\":\"a\"}}]}],\"fields\":\"*\",\"start\":{}}",
        "BadShape",
    ),
    (
        "updateCells",
        "{\"rows\":[{\"values\":[{\"userEnteredValue\":{\"numberValue\":1.5,\"formulaValue\":\"=A1\"}}]}],\"fields\":\"*\",\"start\":{}}",
        "BadShape",
    ),
    (
        "updateCells",
        "{\"rows\":[{\"values\":[{\"userEnteredValue\":{\"numberValue\":1.5,\"stringValue\":null}}]}],\"fields\":\"*\",\"start\":{}}",
        "BadNumber",
    ),
    (
        "updateCells",
        "{\"rows\":[{\"values\":[{\"userEnteredValue\":{\"errorValue\":{}}}]}],\"fields\":\"*\",\"start\":{}}",
        "BadShape",
    ),
    (
        "updateCells",
        "{\"rows\":[{\"values\":[{\"userEnteredValue\":{\"numberValue\":1,\"errorValue\":{}}}]}],\"fields\":\"*\",\"start\":{}}",
        "Unsupported",
    ),
    (
        "updateCells",
        "{\"rows\":[{\"values\":[{\"userEnteredValue\":{\"numberValue\":1.5,\"errorValue\":{}}}]}],\"fields\":\"*\",\"start\":{}}",
        "Unsupported",
    ),
];

#[test]
fn values_are_entered(rt: HostRuntime) {
    for row in &VALUES {
        let holds = is_step(rt.alloc(), row.0, row.1, row.2);
        check(&rt, row, holds);
    }
}
