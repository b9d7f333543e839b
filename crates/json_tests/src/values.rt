use crate::calls::{is_call, is_write};
use crate::common::{check, joined};
use std::alloc::Global;
use std::process::Abort;

const VALUES: &str = "/v4/spreadsheets/b1/values";

/// Methods of reads and clears, what their targets end in, bodies, and what they are.
static READS: [(&str, &str, &str, &str); 11] = [
    ("GET", "/A1", "", "Read b1 A1 None None"),
    (
        "GET",
        "/A1?majorDimension=COLUMNS&valueRenderOption=FORMULA",
        "",
        "Read b1 A1 Some(Columns) Some(Formula)",
    ),
    (
        "GET",
        "/A1?majorDimension=ROWS&valueRenderOption=UNFORMATTED_VALUE",
        "",
        "Read b1 A1 Some(Rows) Some(Unformatted)",
    ),
    (
        "GET",
        "/A1?valueRenderOption=FORMATTED_VALUE",
        "",
        "Read b1 A1 None Some(Formatted)",
    ),
    ("GET", "/A1", "{}", "BadBody"),
    ("POST", "/A1:clear", "", "Clear b1 A1"),
    ("POST", "/A1:clear", "{}", "Clear b1 A1"),
    ("POST", "/A1:clear", "{\"a\":null}", "Clear b1 A1"),
    ("POST", "/A1:clear", "{\"a\":1}", "BadBody"),
    ("POST", "/A1:clear", "[]", "BadBody"),
    ("POST", "/A1:clear", " ", "BadBody"),
];

/// The same, of writes and appends.
static WRITES: [(&str, &str, &str, &str); 35] = [
    (
        "PUT",
        "/A1?valueInputOption=RAW",
        "{\"values\":[[1,\"x\"],[true]]}",
        "Write b1 A1 Raw rows [Number(1), Text(Text { text: \"x\" })] [Truth(true)]",
    ),
    (
        "PUT",
        "/A1?valueInputOption=RAW",
        "{}",
        "Write b1 A1 Raw rows",
    ),
    (
        "PUT",
        "/A1?valueInputOption=RAW",
        "{\"majorDimension\":\"COLUMNS\",\"range\":\"B2\",\"values\":[[null,\"\"]]}",
        "Write b1 A1 Raw B2 columns [Skip, Empty]",
    ),
    (
        "PUT",
        "/A1?valueInputOption=RAW",
        "{\"majorDimension\":\"ROWS\",\"values\":[]}",
        "Write b1 A1 Raw rows",
    ),
    (
        "PUT",
        "/A1?valueInputOption=RAW",
        "{\"range\":null,\"values\":null,\"majorDimension\":null,\"x\":null}",
        "Write b1 A1 Raw rows",
    ),
    ("PUT", "/A1?valueInputOption=RAW", "", "BadBody"),
    ("PUT", "/A1?valueInputOption=RAW", "[]", "BadBody"),
    (
        "PUT",
        "/A1?valueInputOption=RAW",
        "{\"values\":[[1]]",
        "BadBody",
    ),
    ("PUT", "/A1?valueInputOption=RAW", "{\"x\":1}", "BadBody"),
    (
        "PUT",
        "/A1?valueInputOption=RAW",
        "{\"majorDimension\":\"rows\"}",
        "BadBody",
    ),
    (
        "PUT",
        "/A1?valueInputOption=RAW",
        "{\"majorDimension\":1}",
        "BadBody",
    ),
    (
        "PUT",
        "/A1?valueInputOption=RAW",
        "{\"values\":[[1e400]]}",
        "BadBody",
    ),
    (
        "PUT",
        "/A1?valueInputOption=RAW",
        "{\"range\":7}",
        "Write b1 A1 Raw BadShape",
    ),
    (
        "PUT",
        "/A1?valueInputOption=RAW",
        "{\"values\":7}",
        "Write b1 A1 Raw BadShape",
    ),
    (
        "PUT",
        "/A1?valueInputOption=RAW",
        "{\"values\":[7]}",
        "Write b1 A1 Raw BadShape",
    ),
    (
        "PUT",
        "/A1?valueInputOption=RAW",
        "{\"values\":[null]}",
        "Write b1 A1 Raw BadShape",
    ),
    (
        "PUT",
        "/A1?valueInputOption=RAW",
        "{\"values\":[[[]]]}",
        "Write b1 A1 Raw BadShape",
    ),
    (
        "PUT",
        "/A1?valueInputOption=RAW",
        "{\"values\":[[{}]]}",
        "Write b1 A1 Raw BadShape",
    ),
    (
        "PUT",
        "/A1?valueInputOption=RAW",
        "{\"values\":[[1.5],[[]]]}",
        "Write b1 A1 Raw BadShape",
    ),
    (
        "PUT",
        "/A1?valueInputOption=RAW",
        "{\"range\":7,\"values\":[[1.5]]}",
        "Write b1 A1 Raw BadShape",
    ),
    (
        "PUT",
        "/A1?valueInputOption=RAW",
        "{\"values\":[[9007199254740992,-9007199254740992]]}",
        "Write b1 A1 Raw rows [Number(9007199254740992), Number(-9007199254740992)]",
    ),
    (
        "PUT",
        "/A1?valueInputOption=RAW",
        "{\"values\":[[9007199254740993]]}",
        "Write b1 A1 Raw BadNumber",
    ),
    (
        "PUT",
        "/A1?valueInputOption=RAW",
        "{\"values\":[[-9007199254740993]]}",
        "Write b1 A1 Raw BadNumber",
    ),
    (
        "PUT",
        "/A1?valueInputOption=RAW",
        "{\"values\":[[1.5]]}",
        "Write b1 A1 Raw BadNumber",
    ),
    (
        "PUT",
        "/A1?valueInputOption=RAW",
        "{\"values\":[[1.0]]}",
        "Write b1 A1 Raw BadNumber",
    ),
    (
        "PUT",
        "/A1?valueInputOption=RAW",
        "{\"values\":[[1e2]]}",
        "Write b1 A1 Raw BadNumber",
    ),
    (
        "PUT",
        "/A1?valueInputOption=RAW",
        "{\"values\":[[-0]]}",
        "Write b1 A1 Raw BadNumber",
    ),
    (
        "PUT",
        "/A1?valueInputOption=RAW",
        "{\"values\":[[\"12.5\",\"=A1\"]]}",
        "Write b1 A1 Raw rows [Text(Text { text: \"12.5\" }), Text(Text { text: \"=A1\" })]",
    ),
    (
        "PUT",
        "/A1?valueInputOption=USER_ENTERED",
        "{\"values\":[[\"12.5\"]]}",
        "Write b1 A1 UserEntered BadNumber",
    ),
    (
        "PUT",
        "/A1?valueInputOption=USER_ENTERED",
        "{\"values\":[[\"=A1\",\"12\",\"true\"]]}",
        "Write b1 A1 UserEntered rows [FormulaText(Text { text: \"=A1\" }), Number(12), Truth(true)]",
    ),
    ("PUT", "/A1", "{}", "BadQuery"),
    (
        "POST",
        "/A1:append?valueInputOption=USER_ENTERED&insertDataOption=INSERT_ROWS",
        "{\"values\":[[\"TRUE\"]]}",
        "Append b1 A1 UserEntered Some(InsertRows) rows [Truth(true)]",
    ),
    (
        "POST",
        "/A1:append?valueInputOption=RAW&insertDataOption=OVERWRITE",
        "{\"values\":[[1.5]]}",
        "Append b1 A1 Raw Some(Overwrite) BadNumber",
    ),
    (
        "POST",
        "/A1:append?valueInputOption=RAW",
        "{}",
        "Append b1 A1 Raw None rows",
    ),
    (
        "POST",
        "/A1:append?valueInputOption=RAW",
        "{\"x\":1}",
        "BadBody",
    ),
];

/// The same, of requests on many ranges.
static BATCHES: [(&str, &str, &str, &str); 19] = [
    (
        "GET",
        ":batchGet?ranges=A1&majorDimension=ROWS&ranges=B2",
        "",
        "ReadMany b1 [Text { text: \"A1\" }, Text { text: \"B2\" }] Some(Rows) None",
    ),
    ("GET", ":batchGet", "", "EmptyBatch"),
    ("GET", ":batchGet", "{}", "BadBody"),
    (
        "POST",
        ":batchUpdate",
        "{\"valueInputOption\":\"RAW\",\"data\":[{\"range\":\"A1\",\"values\":[[1]]},{\"values\":[[1]]},{\"range\":\"A1\",\"x\":1}]}",
        "WriteMany b1 Raw A1 rows [Number(1)] ; BadShape ; Unsupported ;",
    ),
    (
        "POST",
        ":batchUpdate",
        "{\"valueInputOption\":\"USER_ENTERED\",\"data\":[{\"range\":\"A1\",\"majorDimension\":\"x\"},7,{\"x\":1},{\"range\":\"A1\",\"values\":[[\"1\"]],\"majorDimension\":\"COLUMNS\"}]}",
        "WriteMany b1 UserEntered BadShape ; BadShape ; BadShape ; A1 columns [Number(1)] ;",
    ),
    (
        "POST",
        ":batchUpdate",
        "{\"data\":[{\"range\":\"A1\"}]}",
        "BadBody",
    ),
    (
        "POST",
        ":batchUpdate",
        "{\"valueInputOption\":\"raw\",\"data\":[{\"range\":\"A1\"}]}",
        "BadBody",
    ),
    (
        "POST",
        ":batchUpdate",
        "{\"valueInputOption\":\"RAW\"}",
        "BadBody",
    ),
    (
        "POST",
        ":batchUpdate",
        "{\"valueInputOption\":\"RAW\",\"data\":null}",
        "BadBody",
    ),
    (
        "POST",
        ":batchUpdate",
        "{\"valueInputOption\":\"RAW\",\"data\":{}}",
        "BadBody",
    ),
    (
        "POST",
        ":batchUpdate",
        "{\"valueInputOption\":\"RAW\",\"data\":[]}",
        "EmptyBatch",
    ),
    (
        "POST",
        ":batchUpdate",
        "{\"valueInputOption\":\"RAW\",\"data\":[],\"x\":1}",
        "BadBody",
    ),
    (
        "POST",
        ":batchUpdate",
        "{\"valueInputOption\":\"RAW\",\"data\":[{\"range\":\"A1\"}],\"includeValuesInResponse\":true}",
        "BadBody",
    ),
    (
        "POST",
        ":batchUpdate",
        "{\"valueInputOption\":\"RAW\",\"data\":[{\"range\":\"A1\"}],\"responseValueRenderOption\":\"x\"}",
        "BadBody",
    ),
    (
        "POST",
        ":batchUpdate",
        "{\"valueInputOption\":\"RAW\",\"data\":[{\"range\":\"A1\"}],\"includeValuesInResponse\":false,\"responseValueRenderOption\":\"FORMULA\",\"responseDateTimeRenderOption\":\"SERIAL_NUMBER\"}",
        "WriteMany b1 Raw A1 rows ;",
    ),
    (
        "POST",
        ":batchClear",
        "{\"ranges\":[\"A1\",7]}",
        "ClearMany b1 [Ok(Text { text: \"A1\" }), Err(BadShape)]",
    ),
    ("POST", ":batchClear", "{\"ranges\":[]}", "EmptyBatch"),
    ("POST", ":batchClear", "{}", "BadBody"),
    ("POST", ":batchClear", "{\"ranges\":\"A1\"}", "BadBody"),
];

/// Whether a request is what the table says that it is.
fn is_as_wanted(alloc: Global, method: &str, end: &str, body: &str, wanted: &str) -> bool {
    let target = joined(alloc, VALUES, end, "");
    is_call(alloc, method, target.as_str(), body, wanted)
}

/// Stops where a request isn't what a table says that it is.
fn check_all(rt: &impl Abort, alloc: Global, table: &[(&str, &str, &str, &str)]) {
    for row in table {
        let holds = is_as_wanted(alloc, row.0, row.1, row.2, row.3);
        check(rt, row, holds);
    }
}

#[test]
fn requests_are_calls(rt: HostRuntime) {
    check_all(&rt, rt.alloc(), &READS);
    check_all(&rt, rt.alloc(), &WRITES);
    check_all(&rt, rt.alloc(), &BATCHES);
}

/// Texts of so many bytes, what stands behind each in its row, and what the write of it is.
static LONG_TEXTS: [(usize, &str, Option<&str>); 4] = [
    (50_000, "", None),
    (50_001, "", Some("Write b1 A1 Raw TextLong")),
    (50_001, ",1.5", Some("Write b1 A1 Raw BadNumber")),
    (50_001, ",[]", Some("Write b1 A1 Raw BadShape")),
];

/// The write of a text of so many bytes, and of something more.
fn long_write(alloc: Global, bytes: usize, more: &str) -> String {
    match "x".repeat(alloc, bytes) {
        Ok(text) => {
            let row = joined(alloc, text.as_str(), "\"", more);
            joined(alloc, "{\"values\":[[\"", row.as_str(), "]]}")
        }
        Err(_) => String::new(alloc),
    }
}

/// Whether the write of a long text is refused so, or isn't refused.
fn is_long_write(alloc: Global, bytes: usize, more: &str, refusal: Option<&str>) -> bool {
    let target = joined(alloc, VALUES, "/A1?valueInputOption=RAW", "");
    let body = long_write(alloc, bytes, more);
    match refusal {
        Some(wanted) => is_call(alloc, "PUT", target.as_str(), body.as_str(), wanted),
        None => is_write(alloc, target.as_str(), body.as_str()),
    }
}

#[test]
fn long_texts_are_last(rt: HostRuntime) {
    for row in &LONG_TEXTS {
        let holds = is_long_write(rt.alloc(), row.0, row.1, row.2);
        check(&rt, row, holds);
    }
}
