use crate::common::check;
use cell_value::{Bad, Duplicate, Input, Items, Kind, Mode, NoMemory, Value, read_entered, show};
use serde_json::Value as Json;
use std::alloc::Global;

/// What entering a value gives.
#[derive(Clone, Copy)]
enum Meaning {
    Skip,
    Empty,
    Number(i64),
    Text(&'static str),
    Truth(bool),
    Formula(&'static str),
    NotWhole,
    NotScalar,
}

/// JSON values and what they mean, entered either way.
static VALUES: [(&str, Meaning); 15] = [
    ("9007199254740992", Meaning::Number(9_007_199_254_740_992)),
    ("-9007199254740992", Meaning::Number(-9_007_199_254_740_992)),
    ("9007199254740993", Meaning::NotWhole),
    ("-9007199254740993", Meaning::NotWhole),
    ("18446744073709551615", Meaning::NotWhole),
    ("0", Meaning::Number(0)),
    ("-0", Meaning::NotWhole),
    ("1.5", Meaning::NotWhole),
    ("1.0", Meaning::NotWhole),
    ("1e2", Meaning::NotWhole),
    ("null", Meaning::Skip),
    ("true", Meaning::Truth(true)),
    ("\"\"", Meaning::Empty),
    ("[1]", Meaning::NotScalar),
    ("{}", Meaning::NotScalar),
];

#[test]
fn values_are_entered(rt: HostRuntime) {
    for row in &VALUES {
        check(&rt, &row.0, is_entered(rt.alloc(), row.0, row.1));
    }
}

/// Whether the JSON value means this, entered either way.
fn is_entered(alloc: Global, json: &str, meaning: Meaning) -> bool {
    match Json::from_str(alloc, json) {
        Ok(value) => mean(alloc, &value, meaning, meaning),
        Err(_) => false,
    }
}

/// Whether the value means this, as it is and typed.
fn mean(alloc: Global, value: &Json, raw: Meaning, typed: Meaning) -> bool {
    means(alloc, Mode::Raw, value, raw) && means(alloc, Mode::UserEntered, value, typed)
}

fn means(alloc: Global, mode: Mode, value: &Json, meaning: Meaning) -> bool {
    match (read_entered(alloc, mode, value), meaning) {
        (Ok(Input::Skip), Meaning::Skip) => true,
        (Ok(Input::Empty), Meaning::Empty) => true,
        (Ok(Input::Number(number)), Meaning::Number(expected)) => number == expected,
        (Ok(Input::Text(text)), Meaning::Text(expected)) => text.as_str() == expected,
        (Ok(Input::Truth(truth)), Meaning::Truth(expected)) => truth == expected,
        (Ok(Input::FormulaText(text)), Meaning::Formula(expected)) => text.as_str() == expected,
        (Err(Bad::NotWhole), Meaning::NotWhole) => true,
        (Err(Bad::NotScalar), Meaning::NotScalar) => true,
        _ => false,
    }
}

/// Texts and what they mean as they are typed.
static TYPED: [(&str, Meaning); 52] = [
    ("=", Meaning::Text("=")),
    ("=1", Meaning::Formula("=1")),
    ("= ", Meaning::Formula("= ")),
    (" =1", Meaning::Text(" =1")),
    ("'=1", Meaning::Text("=1")),
    ("'", Meaning::Empty),
    ("''", Meaning::Text("'")),
    ("'7", Meaning::Text("7")),
    ("7", Meaning::Number(7)),
    ("+7", Meaning::Number(7)),
    ("-7", Meaning::Number(-7)),
    ("+07", Meaning::Number(7)),
    ("-0", Meaning::Number(0)),
    ("007", Meaning::Number(7)),
    ("+-7", Meaning::Text("+-7")),
    ("+", Meaning::Text("+")),
    ("-", Meaning::Text("-")),
    ("7 ", Meaning::Text("7 ")),
    ("1,000", Meaning::Text("1,000")),
    ("9007199254740992", Meaning::Number(9_007_199_254_740_992)),
    ("-9007199254740992", Meaning::Number(-9_007_199_254_740_992)),
    ("9007199254740993", Meaning::NotWhole),
    ("-9007199254740993", Meaning::NotWhole),
    ("9223372036854775807", Meaning::NotWhole),
    ("99999999999999999999", Meaning::NotWhole),
    ("TRUE", Meaning::Truth(true)),
    ("true", Meaning::Truth(true)),
    ("tRuE", Meaning::Truth(true)),
    ("False", Meaning::Truth(false)),
    ("TRUE ", Meaning::Text("TRUE ")),
    ("yes", Meaning::Text("yes")),
    ("12.5", Meaning::NotWhole),
    ("12.", Meaning::NotWhole),
    (".5", Meaning::NotWhole),
    ("-.5", Meaning::NotWhole),
    (".", Meaning::Text(".")),
    ("1.2.3", Meaning::Text("1.2.3")),
    ("1e5", Meaning::NotWhole),
    ("1E5", Meaning::NotWhole),
    ("+1.e-5", Meaning::NotWhole),
    ("1e", Meaning::Text("1e")),
    ("1e+", Meaning::Text("1e+")),
    ("e5", Meaning::Text("e5")),
    (".e5", Meaning::Text(".e5")),
    ("1e5.0", Meaning::Text("1e5.0")),
    ("1e5e5", Meaning::Text("1e5e5")),
    ("1e5 ", Meaning::Text("1e5 ")),
    ("50%", Meaning::Text("50%")),
    ("$1", Meaning::Text("$1")),
    ("2026-11-27", Meaning::Text("2026-11-27")),
    ("0x10", Meaning::Text("0x10")),
    ("\u{e9}", Meaning::Text("\u{e9}")),
];

#[test]
fn texts_are_entered(rt: HostRuntime) {
    for row in &TYPED {
        check(&rt, &row.0, is_typed(rt.alloc(), row.0, row.1));
    }
}

/// Whether the text means itself as it is, and this as it is typed.
fn is_typed(alloc: Global, text: &'static str, meaning: Meaning) -> bool {
    match String::from_str(alloc, text) {
        Ok(own) => mean(alloc, &Json::String(own), Meaning::Text(text), meaning),
        Err(_) => false,
    }
}

/// A beginning, a byte that follows it, the length of the whole in bytes, and whether that can be
/// entered as it is and as it is typed.
static LONG: [(&str, char, usize, Option<Bad>, Option<Bad>); 9] = [
    ("", 'x', 50_000, None, None),
    ("", 'x', 50_001, Some(Bad::TooLong), Some(Bad::TooLong)),
    ("=", '1', 50_000, None, None),
    ("=", '1', 50_001, Some(Bad::TooLong), Some(Bad::TooLong)),
    ("'", 'x', 50_001, Some(Bad::TooLong), Some(Bad::TooLong)),
    ("", '0', 50_000, None, None),
    ("", '0', 50_001, Some(Bad::TooLong), Some(Bad::TooLong)),
    ("", '1', 50_001, Some(Bad::TooLong), Some(Bad::NotWhole)),
    (".", '0', 50_001, Some(Bad::TooLong), Some(Bad::NotWhole)),
];

#[test]
fn long_texts_are_refused(rt: HostRuntime) {
    for row in &LONG {
        let text = long_text(rt.alloc(), row.0, row.1, row.2);
        check(&rt, &row.2, refuse(rt.alloc(), &text, row.3, row.4));
    }
}

/// The text that is a beginning and so many times a byte behind it, or less of it where memory runs out.
fn long_text(alloc: Global, start: &str, more: char, length: usize) -> Json {
    let mut text = String::new(alloc);
    let _ = text.push_str(start);
    for _ in start.len()..length {
        let _ = text.push(more);
    }
    Json::String(text)
}

/// Whether the value is refused for this, as it is and typed.
fn refuse(alloc: Global, value: &Json, raw: Option<Bad>, typed: Option<Bad>) -> bool {
    read_entered(alloc, Mode::Raw, value).err() == raw
        && read_entered(alloc, Mode::UserEntered, value).err() == typed
}

/// Numbers, and the text that each shows.
static NUMBERS: [(i64, &str); 4] = [
    (0, "0"),
    (-7, "-7"),
    (9_007_199_254_740_992, "9007199254740992"),
    (-9_007_199_254_740_992, "-9007199254740992"),
];

/// Errors, and the text that each shows.
static ERRORS: [(Kind, &str); 7] = [
    (Kind::Ref, "#REF!"),
    (Kind::Div0, "#DIV/0!"),
    (Kind::Value, "#VALUE!"),
    (Kind::Name, "#NAME?"),
    (Kind::Num, "#NUM!"),
    (Kind::Na, "#N/A"),
    (Kind::Error, "#ERROR!"),
];

#[test]
fn values_are_shown(rt: HostRuntime) {
    for row in &NUMBERS {
        check(
            &rt,
            &row.1,
            is_shown(rt.alloc(), &Value::Number(row.0), row.1),
        );
    }
    for row in &ERRORS {
        check(
            &rt,
            &row.1,
            is_shown(rt.alloc(), &Value::Error(row.0), row.1),
        );
    }
    check(&rt, &"blank", is_shown(rt.alloc(), &Value::Blank, ""));
    check(
        &rt,
        &"true",
        is_shown(rt.alloc(), &Value::Truth(true), "TRUE"),
    );
    check(
        &rt,
        &"false",
        is_shown(rt.alloc(), &Value::Truth(false), "FALSE"),
    );
}

fn is_shown(alloc: Global, value: &Value, text: &str) -> bool {
    match show(alloc, value) {
        Ok(shown) => shown.as_str() == text,
        Err(NoMemory) => false,
    }
}

#[test]
fn copies_equal_their_sources(rt: HostRuntime) {
    check(&rt, &"copy", is_copied(rt.alloc()));
}

fn is_copied(alloc: Global) -> bool {
    let mut numbers = Vec::new(alloc);
    for number in [3, 1, 2] {
        let _ = numbers.push(number);
    }
    match Items::of(numbers).duplicate() {
        Ok(copy) => copy.as_slice() == [3u32, 1, 2].as_slice(),
        Err(NoMemory) => false,
    }
}
