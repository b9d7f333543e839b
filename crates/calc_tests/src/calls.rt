use crate::common::Given::{self, Area, One};
use crate::common::Plain::{Number, Text, Truth};
use crate::common::{Call, DIV0, NA, NAME, NUM, REF, check, has_value};

const NONE: &[Given] = &[];

const ONE: &[Given] = &[One(DIV0)];

const TWO: &[Given] = &[One(DIV0), One(REF)];

const THREE: &[Given] = &[One(DIV0), One(REF), One(NUM)];

const FOUR: &[Given] = &[One(DIV0), One(REF), One(NUM), One(NAME)];

/// Functions, and too few arguments for them.
static TOO_FEW: [(&str, &[Given]); 39] = [
    ("SUM", NONE),
    ("MIN", NONE),
    ("MAX", NONE),
    ("COUNT", NONE),
    ("COUNTA", NONE),
    ("IF", NONE),
    ("IF", ONE),
    ("AND", NONE),
    ("OR", NONE),
    ("NOT", NONE),
    ("ABS", NONE),
    ("SIGN", NONE),
    ("MOD", NONE),
    ("MOD", ONE),
    ("QUOTIENT", ONE),
    ("LEN", NONE),
    ("LEFT", NONE),
    ("RIGHT", NONE),
    ("MID", NONE),
    ("MID", ONE),
    ("MID", TWO),
    ("CONCATENATE", NONE),
    ("EXACT", NONE),
    ("EXACT", ONE),
    ("INDEX", NONE),
    ("INDEX", ONE),
    ("MATCH", NONE),
    ("MATCH", ONE),
    ("COUNTIF", NONE),
    ("COUNTIF", ONE),
    ("SUMIF", NONE),
    ("SUMIF", ONE),
    ("ROWS", NONE),
    ("COLUMNS", NONE),
    ("ISBLANK", NONE),
    ("ISNUMBER", NONE),
    ("ISTEXT", NONE),
    ("ISERROR", NONE),
    ("IFERROR", NONE),
];

#[test]
fn too_few_arguments_are_judged_before_their_errors(rt: HostRuntime) {
    for row in &TOO_FEW {
        let call = (row.0, row.1, NA);
        check(&rt, row, has_value(rt.alloc(), &call));
    }
}

/// Functions, and too many arguments for them.
static TOO_MANY: [(&str, &[Given]); 30] = [
    ("IF", FOUR),
    ("NOT", TWO),
    ("NOT", FOUR),
    ("ABS", TWO),
    ("ABS", THREE),
    ("SIGN", TWO),
    ("MOD", THREE),
    ("MOD", FOUR),
    ("QUOTIENT", THREE),
    ("LEN", TWO),
    ("LEN", THREE),
    ("LEFT", THREE),
    ("RIGHT", THREE),
    ("RIGHT", FOUR),
    ("MID", FOUR),
    ("EXACT", THREE),
    ("INDEX", FOUR),
    ("MATCH", FOUR),
    ("COUNTIF", THREE),
    ("COUNTIF", FOUR),
    ("SUMIF", FOUR),
    ("ROWS", TWO),
    ("ROWS", THREE),
    ("COLUMNS", TWO),
    ("ISBLANK", TWO),
    ("ISNUMBER", TWO),
    ("ISTEXT", TWO),
    ("ISERROR", TWO),
    ("ISERROR", FOUR),
    ("IFERROR", THREE),
];

#[test]
fn too_many_arguments_are_judged_before_their_errors(rt: HostRuntime) {
    for row in &TOO_MANY {
        let call = (row.0, row.1, NA);
        check(&rt, row, has_value(rt.alloc(), &call));
    }
}

/// Names that no function has.
static UNKNOWN: [(&str, &[Given]); 16] = [
    ("NOPE", ONE),
    ("NOPE", NONE),
    ("NOPE", FOUR),
    ("", NONE),
    ("", ONE),
    ("SU", ONE),
    ("SUMM", ONE),
    ("SUM ", ONE),
    (" SUM", ONE),
    ("COUNTA1", ONE),
    ("ISERR", ONE),
    ("TRUE", NONE),
    ("A1", ONE),
    ("ſum", ONE),
    ("Σ", ONE),
    ("AVERAGE", TWO),
];

#[test]
fn names_of_no_function_are_judged_before_the_arguments(rt: HostRuntime) {
    for row in &UNKNOWN {
        let call = (row.0, row.1, NAME);
        check(&rt, row, has_value(rt.alloc(), &call));
    }
}

/// Names in any ASCII case, and one more call of each function.
static NAMES: [Call; 30] = [
    ("sum", &[One(Number(1)), One(Number(2))], Number(3)),
    ("Min", &[One(Number(1)), One(Number(2))], Number(1)),
    ("mAX", &[One(Number(1)), One(Number(2))], Number(2)),
    ("count", &[One(Number(1)), One(Text("x"))], Number(1)),
    ("countA", &[One(Number(1)), One(Text("x"))], Number(2)),
    ("if", &[One(Truth(true)), One(Number(1))], Number(1)),
    ("and", &[One(Truth(true)), One(Number(1))], Truth(true)),
    ("Or", &[One(Truth(true)), One(Number(0))], Truth(true)),
    ("nOt", &[One(Truth(true))], Truth(false)),
    ("abs", &[One(Number(-2))], Number(2)),
    ("Sign", &[One(Number(-2))], Number(-1)),
    ("mod", &[One(Number(5)), One(Number(3))], Number(2)),
    ("quotient", &[One(Number(5)), One(Number(3))], Number(1)),
    ("len", &[One(Text("ab"))], Number(2)),
    ("left", &[One(Text("ab"))], Text("a")),
    ("right", &[One(Text("ab"))], Text("b")),
    (
        "mid",
        &[One(Text("ab")), One(Number(2)), One(Number(1))],
        Text("b"),
    ),
    ("concatenate", &[One(Text("a")), One(Text("b"))], Text("ab")),
    ("exact", &[One(Text("a")), One(Text("b"))], Truth(false)),
    (
        "index",
        &[Area(1, 1, &[Text("a")]), One(Number(1))],
        Text("a"),
    ),
    (
        "match",
        &[One(Text("a")), Area(1, 1, &[Text("a")]), One(Number(0))],
        Number(1),
    ),
    (
        "CountIf",
        &[Area(1, 1, &[Text("a")]), One(Text("a"))],
        Number(1),
    ),
    (
        "SumIf",
        &[Area(1, 1, &[Number(2)]), One(Number(2))],
        Number(2),
    ),
    ("rows", &[Area(3, 2, &[])], Number(3)),
    ("columns", &[Area(3, 2, &[])], Number(2)),
    ("IsBlank", &[Area(1, 1, &[])], Truth(true)),
    ("IsNumber", &[One(Number(1))], Truth(true)),
    ("isText", &[One(Number(1))], Truth(false)),
    ("iserror", &[One(NA)], Truth(true)),
    ("IfError", &[One(NA), One(Number(1))], Number(1)),
];

#[test]
fn names_match_in_any_case(rt: HostRuntime) {
    for row in &NAMES {
        check(&rt, row, has_value(rt.alloc(), row));
    }
}
