use crate::common::Plain::{self, Blank, Number, Repeated, Text, Truth};
use crate::common::{DIV0, ERROR, MOST, NA, NAME, NUM, REF, VALUE, check, is_same, value};
use cell_calc::{negation, operation};
use cell_value::{NoMemory, Value};
use formula_reader::Operator::{
    self, Add, AtLeast, AtMost, Divide, Equal, Greater, Join, Less, Multiply, NotEqual, Subtract,
};
use std::alloc::Global;
use std::cmp::Ordering;

/// An operator between two operands, and its value.
type Operation = (Operator, Plain, Plain, Plain);

static ARITHMETIC: [Operation; 40] = [
    (Add, Number(2), Number(3), Number(5)),
    (Add, Number(MOST), Number(1), NUM),
    (Add, Number(MOST), Number(0), Number(MOST)),
    (Add, Number(-MOST), Number(-1), NUM),
    (Add, Number(-MOST), Number(MOST), Number(0)),
    (Add, Truth(true), Truth(true), Number(2)),
    (Add, Truth(false), Number(7), Number(7)),
    (Add, Blank, Number(7), Number(7)),
    (Add, Blank, Blank, Number(0)),
    (Add, Text("+7"), Text("-07"), Number(0)),
    (Add, Text("7"), Number(1), Number(8)),
    (Add, Text(""), Number(1), VALUE),
    (Add, Text("7 "), Number(1), VALUE),
    (Add, Text("TRUE"), Number(1), VALUE),
    (Add, Text("1.0"), Number(1), VALUE),
    (Add, Text("9007199254740992"), Number(0), Number(MOST)),
    (Add, Text("9007199254740993"), Number(-1), VALUE),
    (Subtract, Number(2), Number(3), Number(-1)),
    (Subtract, Number(-MOST), Number(1), NUM),
    (Subtract, Number(MOST), Number(MOST), Number(0)),
    (Subtract, Blank, Text("-5"), Number(5)),
    (Multiply, Number(-4), Number(5), Number(-20)),
    (Multiply, Number(MOST), Number(-1), Number(-MOST)),
    (Multiply, Number(94_906_266), Number(94_906_266), NUM),
    (
        Multiply,
        Number(94_906_265),
        Number(94_906_265),
        Number(9_007_199_136_250_225),
    ),
    (Multiply, Number(MOST), Number(MOST), NUM),
    (Multiply, Text("x"), Number(0), VALUE),
    (Divide, Number(6), Number(3), Number(2)),
    (Divide, Number(-6), Number(4), NUM),
    (Divide, Number(7), Number(2), NUM),
    (Divide, Number(-6), Number(3), Number(-2)),
    (Divide, Number(6), Number(0), DIV0),
    (Divide, Number(0), Number(0), DIV0),
    (Divide, Number(1), Blank, DIV0),
    (Divide, Number(1), Truth(false), DIV0),
    (Divide, Number(0), Number(-5), Number(0)),
    (Divide, Number(-MOST), Number(-1), Number(MOST)),
    (Divide, Text("x"), Number(0), VALUE),
    (Divide, Number(1), Text("x"), VALUE),
    (Divide, Truth(true), Text("1"), Number(1)),
];

#[test]
fn arithmetic_takes_whole_numbers(rt: HostRuntime) {
    for row in &ARITHMETIC {
        check(&rt, row, has_value(rt.alloc(), row));
    }
}

fn has_value(alloc: Global, row: &Operation) -> bool {
    match of_plain(alloc, row.0, row.1, row.2) {
        Ok(value) => is_same(alloc, &value, row.3),
        Err(_) => false,
    }
}

fn of_plain(
    alloc: Global,
    operator: Operator,
    left: Plain,
    right: Plain,
) -> Result<Value, NoMemory> {
    let left = value(alloc, left)?;
    let right = value(alloc, right)?;
    operation(alloc, operator, &left, &right)
}

/// `&` between two operands.
static JOINED: [Operation; 17] = [
    (Join, Number(2), Number(6), Text("26")),
    (Join, Text("a"), Truth(true), Text("aTRUE")),
    (Join, Truth(false), Number(-5), Text("FALSE-5")),
    (Join, Blank, Blank, Text("")),
    (Join, Blank, Text("x"), Text("x")),
    (Join, Text("x"), Blank, Text("x")),
    (Join, Text("007"), Text(" "), Text("007 ")),
    (
        Join,
        Number(-MOST),
        Number(MOST),
        Text("-90071992547409929007199254740992"),
    ),
    (
        Join,
        Repeated("x", 49_999),
        Text("x"),
        Repeated("x", 50_000),
    ),
    (Join, Text("x"), Repeated("x", 50_000), VALUE),
    (Join, Repeated("x", 50_000), Blank, Repeated("x", 50_000)),
    (
        Join,
        Repeated("é", 24_999),
        Text("é"),
        Repeated("é", 25_000),
    ),
    (Join, Repeated("é", 25_000), Text("x"), VALUE),
    (Join, Repeated("x", 50_000), NA, NA),
    (
        Equal,
        Repeated("x", 50_000),
        Repeated("X", 50_000),
        Truth(true),
    ),
    (
        Less,
        Repeated("x", 49_999),
        Repeated("X", 50_000),
        Truth(true),
    ),
    (Add, Repeated("1", 50_000), Number(1), VALUE),
];

#[test]
fn texts_are_joined_up_to_the_longest(rt: HostRuntime) {
    for row in &JOINED {
        check(&rt, row, has_value(rt.alloc(), row));
    }
}

/// Operands in error.
static FAULTS: [Operation; 34] = [
    (Equal, REF, DIV0, REF),
    (NotEqual, VALUE, DIV0, VALUE),
    (Less, NAME, DIV0, NAME),
    (AtMost, NUM, DIV0, NUM),
    (Greater, NA, DIV0, NA),
    (AtLeast, ERROR, DIV0, ERROR),
    (Join, DIV0, NA, DIV0),
    (Add, NA, REF, NA),
    (Subtract, NA, REF, NA),
    (Multiply, NA, REF, NA),
    (Divide, NA, REF, NA),
    (Equal, Text("x"), NA, NA),
    (NotEqual, Blank, NA, NA),
    (Less, Number(1), NA, NA),
    (AtMost, Truth(true), NA, NA),
    (Greater, Number(1), NA, NA),
    (AtLeast, Number(1), NA, NA),
    (Join, Text("x"), NA, NA),
    (Add, Text("x"), DIV0, DIV0),
    (Subtract, Text("x"), DIV0, DIV0),
    (Multiply, Text("x"), DIV0, DIV0),
    (Divide, Text("x"), REF, REF),
    (Equal, NA, NA, NA),
    (Equal, NA, Text("#N/A"), NA),
    (NotEqual, NA, Blank, NA),
    (Less, NA, Truth(true), NA),
    (AtMost, NA, Number(1), NA),
    (Greater, NA, Text("x"), NA),
    (AtLeast, NA, Blank, NA),
    (Join, NA, Text("x"), NA),
    (Add, NA, Text("x"), NA),
    (Subtract, NA, Text("x"), NA),
    (Multiply, NA, Number(0), NA),
    (Divide, NA, Number(0), NA),
];

#[test]
fn the_left_error_comes_first_and_errors_before_values(rt: HostRuntime) {
    for row in &FAULTS {
        check(&rt, row, has_value(rt.alloc(), row));
    }
}

/// Two values, and how they compare.
static ORDERED: [(Plain, Plain, Ordering); 36] = [
    (Number(1), Number(2), Ordering::Less),
    (Number(-1), Number(1), Ordering::Less),
    (Number(-2), Number(-10), Ordering::Greater),
    (Number(MOST), Number(MOST), Ordering::Equal),
    (Number(1), Text("1"), Ordering::Less),
    (Number(9), Text(""), Ordering::Less),
    (Number(1), Truth(true), Ordering::Less),
    (Number(5), Truth(false), Ordering::Less),
    (Text("zzz"), Truth(false), Ordering::Less),
    (Text("TRUE"), Truth(true), Ordering::Less),
    (Text("0"), Number(MOST), Ordering::Greater),
    (Truth(false), Text("zzz"), Ordering::Greater),
    (Truth(false), Number(MOST), Ordering::Greater),
    (Truth(false), Truth(true), Ordering::Less),
    (Truth(true), Truth(true), Ordering::Equal),
    (Text("abc"), Text("ABC"), Ordering::Equal),
    (Text("a"), Text("B"), Ordering::Less),
    (Text("B"), Text("a"), Ordering::Greater),
    (Text("a"), Text("ab"), Ordering::Less),
    (Text(""), Text("a"), Ordering::Less),
    (Text("10"), Text("9"), Ordering::Less),
    // Small letters stand in place of A to Z: `[` and `_` are below all letters.
    (Text("Z"), Text("["), Ordering::Greater),
    (Text("_"), Text("A"), Ordering::Less),
    // By bytes, and no other letter has another case.
    (Text("é"), Text("É"), Ordering::Greater),
    (Text("z"), Text("é"), Ordering::Less),
    (Text("a "), Text("a"), Ordering::Greater),
    (Blank, Blank, Ordering::Equal),
    (Blank, Number(0), Ordering::Equal),
    (Blank, Number(-1), Ordering::Greater),
    (Blank, Text(""), Ordering::Equal),
    (Blank, Text("a"), Ordering::Less),
    (Blank, Truth(false), Ordering::Equal),
    (Blank, Truth(true), Ordering::Less),
    (Number(1), Blank, Ordering::Greater),
    (Text("a"), Blank, Ordering::Greater),
    (Truth(true), Blank, Ordering::Greater),
];

#[test]
fn values_compare_by_their_kinds_and_texts_in_any_case(rt: HostRuntime) {
    for row in &ORDERED {
        check(&rt, row, compare_so(rt.alloc(), row.0, row.1, row.2));
    }
}

/// Whether each of the six comparisons of two values says so.
fn compare_so(alloc: Global, left: Plain, right: Plain, order: Ordering) -> bool {
    is_truth(alloc, Equal, left, right, order == Ordering::Equal)
        && is_truth(alloc, NotEqual, left, right, order != Ordering::Equal)
        && is_truth(alloc, Less, left, right, order == Ordering::Less)
        && is_truth(alloc, AtMost, left, right, order != Ordering::Greater)
        && is_truth(alloc, Greater, left, right, order == Ordering::Greater)
        && is_truth(alloc, AtLeast, left, right, order != Ordering::Less)
}

fn is_truth(alloc: Global, operator: Operator, left: Plain, right: Plain, truth: bool) -> bool {
    has_value(alloc, &(operator, left, right, Truth(truth)))
}

/// An operand of `-`, and the value.
static NEGATED: [(Plain, Plain); 17] = [
    (Number(5), Number(-5)),
    (Number(-5), Number(5)),
    (Number(0), Number(0)),
    (Number(MOST), Number(-MOST)),
    (Number(-MOST), Number(MOST)),
    (Blank, Number(0)),
    (Truth(true), Number(-1)),
    (Truth(false), Number(0)),
    (Text("7"), Number(-7)),
    (Text("-7"), Number(7)),
    (Text("x"), VALUE),
    (Text("00000000000000000000000000000000000007"), Number(-7)),
    (Text("99999999999999999999"), VALUE),
    (Text("+-7"), VALUE),
    (Text("-"), VALUE),
    (Text("9007199254740993"), VALUE),
    (NA, NA),
];

#[test]
fn negatives_are_of_numbers(rt: HostRuntime) {
    for row in &NEGATED {
        check(&rt, row, has_negative(rt.alloc(), row.0, row.1));
    }
}

fn has_negative(alloc: Global, operand: Plain, wanted: Plain) -> bool {
    match value(alloc, operand) {
        Ok(operand) => is_same(alloc, &negation(&operand), wanted),
        Err(_) => false,
    }
}
