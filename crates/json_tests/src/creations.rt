use crate::calls::is_call;
use crate::common::check;

/// Methods, targets and bodies of new spreadsheets and of looks at one, and what they are.
static CREATIONS: [(&str, &str, &str, &str); 10] = [
    (
        "POST",
        "/v4/spreadsheets",
        "{}",
        "Create Ok(NewSpreadsheet { title: None, sheets: Items { items: [] } })",
    ),
    (
        "POST",
        "/v4/spreadsheets",
        "{\"properties\":{\"title\":\"t\"},\"sheets\":[{}]}",
        "Create Ok(NewSpreadsheet { title: Some(Text { text: \"t\" }), sheets: Items { items: [SheetProperties { id: None, title: None, index: None, hidden: None, rows: None, cols: None }] } })",
    ),
    (
        "POST",
        "/v4/spreadsheets",
        "{\"properties\":{\"locale\":\"en\"}}",
        "Create Err(Unsupported)",
    ),
    (
        "POST",
        "/v4/spreadsheets",
        "{\"properties\":7,\"sheets\":[{\"x\":1}]}",
        "Create Err(BadShape)",
    ),
    (
        "POST",
        "/v4/spreadsheets",
        "{\"sheets\":{}}",
        "Create Err(BadShape)",
    ),
    ("POST", "/v4/spreadsheets", "{\"x\":1}", "BadBody"),
    ("POST", "/v4/spreadsheets", "", "BadBody"),
    (
        "GET",
        "/v4/spreadsheets/b1?includeGridData=true",
        "",
        "Get b1 Some(true)",
    ),
    ("GET", "/v4/spreadsheets/b1", "", "Get b1 None"),
    ("GET", "/v4/spreadsheets/b1", "{}", "BadBody"),
];

#[test]
fn spreadsheets_are_made(rt: HostRuntime) {
    for row in &CREATIONS {
        let holds = is_call(rt.alloc(), row.0, row.1, row.2, row.3);
        check(&rt, row, holds);
    }
}
