use crate::ask::{ask_number, caller_number};
use std::test::Fail;

/// A call of the table.
struct Row {
    number: u32,
    caller: u32,
    user: &'static str,
    target: &'static str,
    body: &'static str,
}

static ROWS: [Row; 6] = [
    Row {
        number: 0,
        caller: 0,
        user: "owner",
        target: "PUT /v4/spreadsheets/book1/values/A1?valueInputOption=RAW",
        body: r#"{"values":[[0]]}"#,
    },
    Row {
        number: 1,
        caller: 1,
        user: "bob",
        target: "PUT /v4/spreadsheets/book1/values/B2?valueInputOption=USER_ENTERED",
        body: r#"{"values":[["=A2+1"]]}"#,
    },
    Row {
        number: 2,
        caller: 0,
        user: "owner",
        target: "POST /v4/spreadsheets/book1:batchUpdate",
        body: concat!(
            r#"{"requests":[{"moveDimension":{"destinationIndex":20,"#,
            r#""source":{"dimension":"ROWS","endIndex":3,"sheetId":0,"startIndex":2}}}]}"#,
        ),
    },
    Row {
        number: 3,
        caller: 1,
        user: "bob",
        target: "POST /v4/spreadsheets/book1:batchUpdate",
        body: concat!(
            r#"{"requests":[{"deleteDimension":{"range":{"dimension":"ROWS","endIndex":1000,"#,
            r#""sheetId":0,"startIndex":0}}}]}"#,
        ),
    },
    Row {
        number: 6,
        caller: 0,
        user: "owner",
        target: "POST /v4/spreadsheets/book1:batchUpdate",
        body: concat!(
            r#"{"requests":[{"moveDimension":{"destinationIndex":20,"#,
            r#""source":{"dimension":"ROWS","endIndex":7,"sheetId":0,"startIndex":6}}}]}"#,
        ),
    },
    Row {
        number: 2001,
        caller: 1,
        user: "bob",
        target: "PUT /v4/spreadsheets/book1/values/B2?valueInputOption=USER_ENTERED",
        body: r#"{"values":[["=A2+1"]]}"#,
    },
];

#[test]
fn calls_are_those_of_the_table(rt: HostRuntime) -> Result<(), Fail> {
    for row in &ROWS {
        let number = row.number;
        let ask = ask_number(rt.alloc(), number)?;
        let user = ask.user.as_ref().map(|user| user.as_str());
        assert_eq!(rt; caller_number(number), row.caller, "the caller of {number}");
        assert_eq!(rt; user, Some(row.user), "the user of {number}");
        assert_eq!(rt; ask.project.as_str(), "", "the project of {number}");
        assert_eq!(rt; ask.target.as_str(), row.target, "the target of {number}");
        assert!(rt; !ask.coded, "the coding of {number}");
        assert!(rt;
            ask.body.as_slice() == row.body.as_bytes(),
            "the body of {number}"
        );
    }
    Ok(())
}
