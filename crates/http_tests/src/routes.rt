use cell_value::{Items, NoMemory, Text};
use sheets_http::*;
use std::alloc::Global;
use std::test::Fail;

/// What a request line is: the call, the parts of its path and the members of its query.
fn shown(alloc: Global, method: &str, target: &str) -> Result<String, Fail> {
    match route(alloc, method, target) {
        Ok(found) => shown_route(alloc, &found),
        Err(RouteFault::NoMemory) => Err(NoMemory.into()),
        Err(fault) => Ok(format!(in alloc; "{fault:?}")?),
    }
}

fn shown_route(alloc: Global, found: &Route) -> Result<String, Fail> {
    let mut line = shown_call(alloc, found)?;
    for member in found.query.as_slice() {
        add_member(alloc, &mut line, member)?;
    }
    Ok(line)
}

fn shown_call(alloc: Global, found: &Route) -> Result<String, Fail> {
    let (book, range, id) = (found.book.as_str(), found.range.as_str(), found.id.as_str());
    Ok(format!(in alloc; "{:?} [{book}] [{range}] [{id}]", found.verb)?)
}

fn add_member(alloc: Global, line: &mut String, member: &(Text, Text)) -> Result<(), Fail> {
    let (name, value) = (member.0.as_str(), member.1.as_str());
    let word = format!(in alloc; " {name}={value}")?;
    line.push_str(word.as_str())?;
    Ok(())
}

/// Methods and targets, and what they are.
const REQUESTS: &[(&str, &str, &str)] = &[
    ("POST", "/v4/spreadsheets", "Create [] [] []"),
    (
        "POST",
        "/v4/spreadsheets?alt=json&prettyPrint=false",
        "Create [] [] [] alt=json prettyPrint=false",
    ),
    ("GET", "/v4/spreadsheets", "NoRoute"),
    ("PUT", "/v4/spreadsheets", "NoRoute"),
    ("POST", "/v4/spreadsheets/", "NoRoute"),
    ("POST", "v4/spreadsheets", "NoRoute"),
    ("POST", "/%764/spread%73heets", "Create [] [] []"),
    ("GET", "/v4/spreadsheets/b1", "Get [b1] [] []"),
    (
        "GET",
        "/v4/spreadsheets/b1?includeGridData=true",
        "Get [b1] [] [] includeGridData=true",
    ),
    ("GET", "/v4/spreadsheets/b1?includeGridData=1", "BadQuery"),
    (
        "GET",
        "/v4/spreadsheets/b1:batchUpdate",
        "Get [b1:batchUpdate] [] []",
    ),
    (
        "POST",
        "/v4/spreadsheets/b1:batchUpdate",
        "Batch [b1] [] []",
    ),
    ("POST", "/v4/spreadsheets/:batchUpdate", "NoRoute"),
    ("PUT", "/v4/spreadsheets/b1:batchUpdate", "NoRoute"),
    (
        "GET",
        "/v4/spreadsheets/b%C3%A9/values/Sheet1!A1",
        "Read [b\u{e9}] [Sheet1!A1] []",
    ),
    (
        "GET",
        "/v4/spreadsheets/b1/values/A1:append",
        "Read [b1] [A1:append] []",
    ),
    ("GET", "/v4/spreadsheets/b1/values/%FF", "NoRoute"),
    (
        "GET",
        "/v4/spreadsheets/b1/values/%zz",
        "Read [b1] [%zz] []",
    ),
    ("GET", "/v4/spreadsheets/b1/values/", "NoRoute"),
    (
        "GET",
        "/v4/spreadsheets/b1/val%75es/a%2Fb?",
        "Read [b1] [a/b] []",
    ),
    (
        "GET",
        "/v4/spreadsheets/b1/values/A1?majorDimension=COLUMNS&valueRenderOption=FORMULA",
        "Read [b1] [A1] [] majorDimension=COLUMNS valueRenderOption=FORMULA",
    ),
    (
        "GET",
        "/v4/spreadsheets/b1/values/A1?majorDimension=columns",
        "BadQuery",
    ),
    (
        "GET",
        "/v4/spreadsheets/b1/values/A1?alt=json&alt=json",
        "BadQuery",
    ),
    ("GET", "/v4/spreadsheets/b1/values/A1?fields=a", "BadQuery"),
    ("PUT", "/v4/spreadsheets/b1/values/A1", "BadQuery"),
    (
        "PUT",
        "/v4/spreadsheets/b1/values/A1?valueInputOption=RAW&includeValuesInResponse=false",
        "Write [b1] [A1] [] valueInputOption=RAW includeValuesInResponse=false",
    ),
    (
        "PUT",
        "/v4/spreadsheets/b1/values/A1?valueInputOption=RAW&includeValuesInResponse=true",
        "BadQuery",
    ),
    (
        "PUT",
        "/v4/spreadsheets/b1/values/A1?valueInputOption=RAW&insertDataOption=OVERWRITE",
        "BadQuery",
    ),
    (
        "POST",
        "/v4/spreadsheets/b1/values/A1?valueInputOption=RAW",
        "NoRoute",
    ),
    (
        "POST",
        "/v4/spreadsheets/b1/values/A1:append?valueInputOption=USER_ENTERED&insertDataOption=INSERT_ROWS",
        "Append [b1] [A1] [] valueInputOption=USER_ENTERED insertDataOption=INSERT_ROWS",
    ),
    (
        "POST",
        "/v4/spreadsheets/b1/values/x:append:clear",
        "Clear [b1] [x:append] []",
    ),
    ("POST", "/v4/spreadsheets/b1/values/%3Aclear", "NoRoute"),
    (
        "GET",
        "/v4/spreadsheets/b1/values:batchGet?ranges=A1%3AB2&&ranges=C+1&responseX",
        "BadQuery",
    ),
    (
        "GET",
        "/v4/spreadsheets/b1/values:batchGet?ranges=A1%3AB2&&ranges=C+1&dateTimeRenderOption",
        "ReadMany [b1] [] [] ranges=A1:B2 ranges=C 1 dateTimeRenderOption=",
    ),
    (
        "POST",
        "/v4/spreadsheets/b1/values:batchUpdate",
        "WriteMany [b1] [] []",
    ),
    (
        "POST",
        "/v4/spreadsheets/b1/values:batchClear",
        "ClearMany [b1] [] []",
    ),
    (
        "POST",
        "/v4/spreadsheets/b1/values:batchGetByDataFilter",
        "ReadFiltered [b1] [] []",
    ),
    (
        "POST",
        "/v4/spreadsheets/b1/values:batch%47etByDataFilter",
        "NoRoute",
    ),
    (
        "GET",
        "/v4/spreadsheets/b1/developerMetadata/2147483647",
        "Item [b1] [] [2147483647]",
    ),
    (
        "GET",
        "/v4/spreadsheets/b1/developerMetadata/2147483648",
        "NoRoute",
    ),
    (
        "GET",
        "/v4/spreadsheets/b1/developerMetadata/00000000001",
        "NoRoute",
    ),
    (
        "POST",
        "/v4/spreadsheets/b1/developerMetadata:search",
        "Search [b1] [] []",
    ),
    ("GET", "/v4/spreadsheets/b1/a/b/c", "NoRoute"),
];

/// These requests.
fn requests() -> &'static [(&'static str, &'static str, &'static str)] {
    REQUESTS
}

/// Whether a request line is that.
fn is_shown(alloc: Global, method: &str, target: &str, want: &str) -> Result<bool, Fail> {
    Ok(shown(alloc, method, target)?.as_str() == want)
}

/// The ends of the table's paths behind `/v4/spreadsheets`, and the calls that they are by `GET`, `PUT` and
/// `POST`, each without a query and with one of a member that each call takes.
const LINES: &[(&str, [&str; 3])] = &[
    ("", ["NoRoute", "NoRoute", "Create [] [] []"]),
    ("/b", ["Get [b] [] []", "NoRoute", "NoRoute"]),
    (
        "/b:batchUpdate",
        ["Get [b:batchUpdate] [] []", "NoRoute", "Batch [b] [] []"],
    ),
    ("/b/values/A1", ["Read [b] [A1] []", "BadQuery", "NoRoute"]),
    (
        "/b/values/A1:append",
        ["Read [b] [A1:append] []", "BadQuery", "BadQuery"],
    ),
    (
        "/b/values/A1:clear",
        ["Read [b] [A1:clear] []", "BadQuery", "Clear [b] [A1] []"],
    ),
    (
        "/b/values:batchGet",
        ["ReadMany [b] [] []", "NoRoute", "NoRoute"],
    ),
    (
        "/b/values:batchUpdate",
        ["NoRoute", "NoRoute", "WriteMany [b] [] []"],
    ),
    (
        "/b/values:batchClear",
        ["NoRoute", "NoRoute", "ClearMany [b] [] []"],
    ),
    (
        "/b/values:batchGetByDataFilter",
        ["NoRoute", "NoRoute", "ReadFiltered [b] [] []"],
    ),
    (
        "/b/developerMetadata/7",
        ["Item [b] [] [7]", "NoRoute", "NoRoute"],
    ),
    (
        "/b/developerMetadata:search",
        ["NoRoute", "NoRoute", "Search [b] [] []"],
    ),
    ("/b/sheets/0", ["NoRoute", "NoRoute", "NoRoute"]),
];

/// These lines.
fn lines() -> &'static [(&'static str, [&'static str; 3])] {
    LINES
}

/// Whether a line's path is that call by that method, without a query, with an empty one, and with one.
fn is_line(alloc: Global, method: &str, end: &str, want: &str) -> Result<bool, Fail> {
    let target = format!(in alloc; "/v4/spreadsheets{end}")?;
    let bare = format!(in alloc; "{}?", target.as_str())?;
    let query = format!(in alloc; "{}?alt=json", target.as_str())?;
    let is_fault = want == "NoRoute" || want == "BadQuery";
    let member = if is_fault { "" } else { " alt=json" };
    let with_member = format!(in alloc; "{want}{member}")?;
    Ok(
        is_shown(alloc, method, target.as_str(), want)?
            && is_shown(alloc, method, bare.as_str(), want)?
            && is_shown(alloc, method, query.as_str(), with_member.as_str())?,
    )
}

/// Whether a line's path is these calls, by `GET`, `PUT` and `POST`.
fn are_lines(alloc: Global, end: &str, calls: &[&str; 3]) -> Result<bool, Fail> {
    Ok(
        is_line(alloc, "GET", end, calls[0])?
            && is_line(alloc, "PUT", end, calls[1])?
            && is_line(alloc, "POST", end, calls[2])?,
    )
}

/// A table of users.
fn some_users(alloc: Global) -> Result<Users, Fail> {
    let mut pairs = Vec::new(alloc);
    for (token, user) in [("t", "ann"), ("u", "bob"), ("t", "cy")] {
        let token = Text::of(String::from_str(alloc, token)?);
        pairs.push((token, Text::of(String::from_str(alloc, user)?)))?;
    }
    Ok(Users::of(Items::of(pairs)))
}

/// Whether tokens have their users.
fn have_users(alloc: Global) -> Result<bool, Fail> {
    let users = some_users(alloc)?;
    Ok(
        Users::anyone().user_of("t") == Some("t")
            && users.user_of("u") == Some("bob")
            && users.user_of("t") == Some("ann")
            && users.user_of("ann").is_none(),
    )
}

#[test]
fn requests_are_calls(rt: HostRuntime) -> Result<(), Fail> {
    for (method, target, want) in requests() {
        assert!(rt;
            is_shown(rt.alloc(), method, target, want)?,
            "{method} {target}"
        );
    }
    for (end, calls) in lines() {
        assert!(rt; are_lines(rt.alloc(), end, calls)?, "{end}");
    }
    assert!(rt; have_users(rt.alloc())?);
    Ok(())
}
