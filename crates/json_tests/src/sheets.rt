use crate::common::check;
use crate::steps::is_step;

/// Requests for sheets: their kinds, their members, and what they are.
static SHEETS: [(&str, &str, &str); 37] = [
    ("addSheet", "{}", "AddSheet { properties: None }"),
    (
        "addSheet",
        "{\"properties\":{\"title\":\"x\",\"index\":1,\"gridProperties\":{\"rowCount\":2},\"sheetType\":\"GRID\",\"hidden\":false}}",
        "AddSheet { properties: Some(SheetProperties { id: None, title: Some(Text { text: \"x\" }), index: Some(1), hidden: Some(false), rows: Some(2), cols: None }) }",
    ),
    (
        "addSheet",
        "{\"properties\":{\"sheetType\":\"OBJECT\"}}",
        "BadShape",
    ),
    (
        "addSheet",
        "{\"properties\":{\"tabColor\":{}}}",
        "Unsupported",
    ),
    ("addSheet", "{\"x\":1,\"properties\":7}", "BadShape"),
    (
        "addSheet",
        "{\"properties\":{\"gridProperties\":{\"frozenRowCount\":1}}}",
        "Unsupported",
    ),
    (
        "deleteSheet",
        "{\"sheetId\":2147483647}",
        "DeleteSheet { sheet_id: 2147483647 }",
    ),
    ("deleteSheet", "{\"sheetId\":2147483648}", "BadShape"),
    ("deleteSheet", "{\"sheetId\":-1}", "BadShape"),
    ("deleteSheet", "{\"sheetId\":1.0}", "BadShape"),
    ("deleteSheet", "{\"sheetId\":-0}", "BadShape"),
    ("deleteSheet", "{\"sheetId\":\"1\"}", "BadShape"),
    ("deleteSheet", "{\"sheetId\":null}", "BadShape"),
    (
        "deleteSheet",
        "{\"sheetId\":1,\"x\":null}",
        "DeleteSheet { sheet_id: 1 }",
    ),
    ("deleteSheet", "{\"sheetId\":1,\"x\":1}", "Unsupported"),
    (
        "updateSheetProperties",
        "{\"properties\":{\"sheetId\":3,\"title\":\"x\",\"hidden\":true},\"fields\":\"title,hidden\"}",
        "UpdateSheetProperties { sheet_id: 3, properties: SheetProperties { id: None, title: Some(Text { text: \"x\" }), index: None, hidden: Some(true), rows: None, cols: None } }",
    ),
    (
        "updateSheetProperties",
        "{\"properties\":{\"sheetId\":3,\"title\":\"x\",\"hidden\":true},\"fields\":\"hidden\"}",
        "UpdateSheetProperties { sheet_id: 3, properties: SheetProperties { id: None, title: None, index: None, hidden: Some(true), rows: None, cols: None } }",
    ),
    (
        "updateSheetProperties",
        "{\"properties\":{\"index\":2,\"sheetType\":\"GRID\",\"gridProperties\":{\"rowCount\":5}},\"fields\":\"*\"}",
        "UpdateSheetProperties { sheet_id: 0, properties: SheetProperties { id: None, title: None, index: None, hidden: None, rows: Some(5), cols: None } }",
    ),
    (
        "updateSheetProperties",
        "{\"properties\":{\"title\":\"x\",\"gridProperties\":{\"rowCount\":5,\"columnCount\":6}},\"fields\":\"gridProperties.columnCount\"}",
        "UpdateSheetProperties { sheet_id: 0, properties: SheetProperties { id: None, title: None, index: None, hidden: None, rows: None, cols: Some(6) } }",
    ),
    (
        "updateSheetProperties",
        "{\"properties\":{\"title\":\"x\",\"hidden\":false},\"fields\":\"title,*\"}",
        "UpdateSheetProperties { sheet_id: 0, properties: SheetProperties { id: None, title: Some(Text { text: \"x\" }), index: None, hidden: Some(false), rows: None, cols: None } }",
    ),
    (
        "updateSheetProperties",
        "{\"properties\":{},\"fields\":\"*\"}",
        "UpdateSheetProperties { sheet_id: 0, properties: SheetProperties { id: None, title: None, index: None, hidden: None, rows: None, cols: None } }",
    ),
    (
        "updateSheetProperties",
        "{\"properties\":{\"title\":\"x\"}}",
        "BadShape",
    ),
    ("updateSheetProperties", "{\"fields\":\"*\"}", "BadShape"),
    (
        "updateSheetProperties",
        "{\"properties\":{},\"fields\":\"*\",\"x\":1}",
        "Unsupported",
    ),
    (
        "updateSheetProperties",
        "{\"properties\":{},\"fields\":[\"*\"]}",
        "BadShape",
    ),
    (
        "updateSheetProperties",
        "{\"properties\":[],\"fields\":\"*\"}",
        "BadShape",
    ),
    (
        "updateSheetProperties",
        "{\"properties\":{\"title\":\"x\"},\"fields\":\"hidden\"}",
        "BadShape",
    ),
    (
        "updateSheetProperties",
        "{\"properties\":{\"title\":null},\"fields\":\"title\"}",
        "BadShape",
    ),
    (
        "updateSheetProperties",
        "{\"properties\":{\"tabColor\":1},\"fields\":\"hidden\"}",
        "BadShape",
    ),
    (
        "updateSheetProperties",
        "{\"properties\":{\"title\":\"x\"},\"fields\":\"tabColor,hidden\"}",
        "BadShape",
    ),
    (
        "updateSheetProperties",
        "{\"properties\":{\"gridProperties\":{\"columnCount\":6}},\"fields\":\"gridProperties.rowCount\"}",
        "BadShape",
    ),
    (
        "updateSheetProperties",
        "{\"properties\":{\"index\":2},\"fields\":\"index\"}",
        "Unsupported",
    ),
    (
        "updateSheetProperties",
        "{\"properties\":{\"title\":\"x\",\"hidden\":true},\"fields\":\"title, hidden\"}",
        "Unsupported",
    ),
    (
        "updateSheetProperties",
        "{\"properties\":{\"title\":\"x\"},\"fields\":\"\"}",
        "Unsupported",
    ),
    (
        "updateSheetProperties",
        "{\"properties\":{\"title\":\"x\"},\"fields\":\"title,\"}",
        "Unsupported",
    ),
    (
        "updateSheetProperties",
        "{\"properties\":{\"gridProperties\":{\"rowCount\":5}},\"fields\":\"gridProperties\"}",
        "Unsupported",
    ),
    (
        "updateSheetProperties",
        "{\"properties\":{\"index\":-1},\"fields\":\"*\"}",
        "BadShape",
    ),
];

#[test]
fn sheets_are_changed(rt: HostRuntime) {
    for row in &SHEETS {
        let holds = is_step(rt.alloc(), row.0, row.1, row.2);
        check(&rt, row, holds);
    }
}

#[test]
fn a_new_sheet_has_no_other_member(rt: HostRuntime) {
    let members = "{\"x\":1}";
    let holds = is_step(rt.alloc(), "addSheet", members, "Unsupported");
    check(&rt, &members, holds);
}
