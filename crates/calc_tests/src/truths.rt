use crate::common::Given::{Area, One};
use crate::common::Plain::{Blank, Number, Text, Truth};
use crate::common::{Call, DIV0, ERROR, NA, NUM, REF, VALUE, check, has_value};

/// AND and OR.
static JOINED: [Call; 36] = [
    ("AND", &[One(Truth(true)), One(Truth(true))], Truth(true)),
    ("AND", &[One(Truth(true)), One(Truth(false))], Truth(false)),
    ("AND", &[One(Number(0))], Truth(false)),
    ("AND", &[One(Number(-1))], Truth(true)),
    ("AND", &[One(Blank)], Truth(false)),
    ("AND", &[One(Text("true")), One(Text("TrUe"))], Truth(true)),
    ("AND", &[One(Text("FALSE"))], Truth(false)),
    ("AND", &[One(Text("1"))], VALUE),
    ("AND", &[One(Text(""))], VALUE),
    ("AND", &[One(Text("TRUE "))], VALUE),
    ("AND", &[One(Truth(false)), One(Text("x"))], VALUE),
    ("AND", &[One(Truth(false)), One(DIV0)], DIV0),
    ("AND", &[One(Text("x")), One(DIV0)], DIV0),
    ("AND", &[One(NA), One(DIV0)], NA),
    (
        "AND",
        &[Area(4, 1, &[Number(3), Text("x"), Truth(true), Blank])],
        Truth(true),
    ),
    (
        "AND",
        &[Area(1, 2, &[Number(0), Truth(true)])],
        Truth(false),
    ),
    ("AND", &[Area(2, 1, &[Text("TRUE"), Text("x")])], VALUE),
    ("AND", &[Area(2, 1, &[])], VALUE),
    (
        "AND",
        &[Area(2, 1, &[Text("FALSE")]), One(Truth(true))],
        Truth(true),
    ),
    ("AND", &[Area(2, 1, &[Truth(true), NA])], NA),
    ("AND", &[Area(1, 1, &[NA]), One(DIV0)], DIV0),
    ("OR", &[One(Truth(false)), One(Truth(true))], Truth(true)),
    ("OR", &[One(Truth(false)), One(Truth(false))], Truth(false)),
    ("OR", &[One(Number(0)), One(Number(5))], Truth(true)),
    ("OR", &[One(Blank), One(Number(0))], Truth(false)),
    ("OR", &[One(Text("false")), One(Text("true"))], Truth(true)),
    ("OR", &[One(Truth(true)), One(Text("x"))], VALUE),
    ("OR", &[One(Truth(true)), One(DIV0)], DIV0),
    ("OR", &[One(REF), One(DIV0)], REF),
    (
        "OR",
        &[Area(3, 1, &[Number(0), Text("x"), Truth(true)])],
        Truth(true),
    ),
    (
        "OR",
        &[Area(3, 1, &[Number(0), Text("TRUE"), Truth(false)])],
        Truth(false),
    ),
    ("OR", &[Area(1, 3, &[Text("TRUE")])], VALUE),
    ("OR", &[Area(2, 2, &[])], VALUE),
    ("OR", &[Area(2, 2, &[]), One(Truth(false))], Truth(false)),
    ("OR", &[Area(2, 1, &[Truth(true), NA])], NA),
    ("OR", &[Area(2, 1, &[NA]), One(DIV0)], DIV0),
];

#[test]
fn truth_values_are_joined_and_texts_of_areas_passed_over(rt: HostRuntime) {
    for row in &JOINED {
        check(&rt, row, has_value(rt.alloc(), row));
    }
}

/// IF, and NOT.
static CHOICES: [Call; 34] = [
    (
        "IF",
        &[One(Truth(true)), One(Number(1)), One(Number(2))],
        Number(1),
    ),
    (
        "IF",
        &[One(Truth(false)), One(Number(1)), One(Number(2))],
        Number(2),
    ),
    ("IF", &[One(Truth(true)), One(Text("a"))], Text("a")),
    ("IF", &[One(Truth(false)), One(Text("a"))], Truth(false)),
    (
        "IF",
        &[One(Number(-3)), One(Number(1)), One(Number(2))],
        Number(1),
    ),
    (
        "IF",
        &[One(Number(0)), One(Number(1)), One(Number(2))],
        Number(2),
    ),
    (
        "IF",
        &[One(Blank), One(Number(1)), One(Number(2))],
        Number(2),
    ),
    (
        "IF",
        &[One(Text("tRUE")), One(Number(1)), One(Number(2))],
        Number(1),
    ),
    (
        "IF",
        &[One(Text("False")), One(Number(1)), One(Number(2))],
        Number(2),
    ),
    (
        "IF",
        &[One(Text("x")), One(Number(1)), One(Number(2))],
        VALUE,
    ),
    (
        "IF",
        &[One(Text("1")), One(Number(1)), One(Number(2))],
        VALUE,
    ),
    (
        "IF",
        &[One(Truth(true)), One(Number(1)), One(DIV0)],
        Number(1),
    ),
    (
        "IF",
        &[One(Truth(false)), One(DIV0), One(Number(2))],
        Number(2),
    ),
    ("IF", &[One(Truth(false)), One(DIV0)], Truth(false)),
    ("IF", &[One(Truth(true)), One(DIV0), One(NA)], DIV0),
    ("IF", &[One(Truth(false)), One(DIV0), One(NA)], NA),
    ("IF", &[One(REF), One(DIV0), One(NA)], REF),
    ("IF", &[One(REF), One(Number(1)), One(Number(2))], REF),
    ("IF", &[One(Truth(true)), One(Blank), One(Number(2))], Blank),
    (
        "IF",
        &[
            Area(1, 1, &[Number(1)]),
            Area(1, 1, &[Text("a")]),
            Area(1, 1, &[]),
        ],
        Text("a"),
    ),
    (
        "IF",
        &[
            Area(1, 1, &[]),
            Area(1, 1, &[Text("a")]),
            Area(1, 1, &[Text("b")]),
        ],
        Text("b"),
    ),
    (
        "IF",
        &[Area(2, 1, &[Number(1)]), One(Number(1)), One(Number(2))],
        VALUE,
    ),
    (
        "IF",
        &[One(Truth(true)), One(Number(1)), Area(2, 1, &[])],
        Number(1),
    ),
    (
        "IF",
        &[One(Truth(false)), One(Number(1)), Area(2, 1, &[])],
        VALUE,
    ),
    ("NOT", &[One(Truth(true))], Truth(false)),
    ("NOT", &[One(Truth(false))], Truth(true)),
    ("NOT", &[One(Number(0))], Truth(true)),
    ("NOT", &[One(Number(-7))], Truth(false)),
    ("NOT", &[One(Blank)], Truth(true)),
    ("NOT", &[One(Text("true"))], Truth(false)),
    ("NOT", &[One(Text("0"))], VALUE),
    ("NOT", &[One(NA)], NA),
    ("NOT", &[Area(1, 1, &[])], Truth(true)),
    ("NOT", &[Area(1, 2, &[Truth(true)])], VALUE),
];

#[test]
fn the_branch_that_is_not_taken_does_not_matter(rt: HostRuntime) {
    for row in &CHOICES {
        check(&rt, row, has_value(rt.alloc(), row));
    }
}

/// ISBLANK, ISNUMBER, ISTEXT and ISERROR.
static KINDS: [Call; 36] = [
    ("ISBLANK", &[One(Blank)], Truth(true)),
    ("ISBLANK", &[One(Text(""))], Truth(false)),
    ("ISBLANK", &[One(Number(0))], Truth(false)),
    ("ISBLANK", &[One(Truth(false))], Truth(false)),
    ("ISBLANK", &[One(DIV0)], Truth(false)),
    ("ISBLANK", &[Area(1, 1, &[])], Truth(true)),
    ("ISBLANK", &[Area(1, 1, &[Text("")])], Truth(false)),
    ("ISBLANK", &[Area(1, 1, &[NA])], Truth(false)),
    ("ISBLANK", &[Area(2, 1, &[])], Truth(false)),
    ("ISNUMBER", &[One(Number(0))], Truth(true)),
    ("ISNUMBER", &[One(Text("1"))], Truth(false)),
    ("ISNUMBER", &[One(Truth(true))], Truth(false)),
    ("ISNUMBER", &[One(Blank)], Truth(false)),
    ("ISNUMBER", &[One(NUM)], Truth(false)),
    ("ISNUMBER", &[Area(1, 1, &[Number(-1)])], Truth(true)),
    ("ISNUMBER", &[Area(1, 1, &[])], Truth(false)),
    (
        "ISNUMBER",
        &[Area(1, 2, &[Number(1), Number(2)])],
        Truth(false),
    ),
    ("ISTEXT", &[One(Text(""))], Truth(true)),
    ("ISTEXT", &[One(Text("1"))], Truth(true)),
    ("ISTEXT", &[One(Number(1))], Truth(false)),
    ("ISTEXT", &[One(Truth(true))], Truth(false)),
    ("ISTEXT", &[One(Blank)], Truth(false)),
    ("ISTEXT", &[One(VALUE)], Truth(false)),
    ("ISTEXT", &[Area(1, 1, &[Text("x")])], Truth(true)),
    (
        "ISTEXT",
        &[Area(1, 2, &[Text("x"), Text("y")])],
        Truth(false),
    ),
    ("ISERROR", &[One(REF)], Truth(true)),
    ("ISERROR", &[One(NA)], Truth(true)),
    ("ISERROR", &[One(ERROR)], Truth(true)),
    ("ISERROR", &[One(Text("#N/A"))], Truth(false)),
    ("ISERROR", &[One(Number(0))], Truth(false)),
    ("ISERROR", &[One(Blank)], Truth(false)),
    ("ISERROR", &[One(Truth(false))], Truth(false)),
    ("ISERROR", &[Area(1, 1, &[DIV0])], Truth(true)),
    ("ISERROR", &[Area(1, 1, &[Text("x")])], Truth(false)),
    ("ISERROR", &[Area(2, 1, &[Number(1)])], Truth(true)),
    ("ISERROR", &[Area(1, 1, &[])], Truth(false)),
];

#[test]
fn kinds_are_told_of_errors_too(rt: HostRuntime) {
    for row in &KINDS {
        check(&rt, row, has_value(rt.alloc(), row));
    }
}

/// IFERROR.
static RESCUES: [Call; 14] = [
    ("IFERROR", &[One(Number(1)), One(Number(2))], Number(1)),
    ("IFERROR", &[One(DIV0), One(Number(2))], Number(2)),
    ("IFERROR", &[One(DIV0)], Blank),
    ("IFERROR", &[One(Text("x"))], Text("x")),
    ("IFERROR", &[One(Number(1)), One(DIV0)], Number(1)),
    ("IFERROR", &[One(NA), One(DIV0)], DIV0),
    ("IFERROR", &[One(Blank), One(Number(2))], Blank),
    (
        "IFERROR",
        &[One(Text("#N/A")), One(Number(2))],
        Text("#N/A"),
    ),
    (
        "IFERROR",
        &[One(Truth(false)), One(Number(2))],
        Truth(false),
    ),
    (
        "IFERROR",
        &[Area(1, 1, &[REF]), Area(1, 1, &[Text("y")])],
        Text("y"),
    ),
    (
        "IFERROR",
        &[Area(1, 1, &[Text("x")]), Area(1, 1, &[Text("y")])],
        Text("x"),
    ),
    ("IFERROR", &[Area(1, 1, &[]), One(Number(2))], Blank),
    (
        "IFERROR",
        &[Area(1, 2, &[Number(1)]), One(Number(2))],
        Number(2),
    ),
    ("IFERROR", &[One(NA), Area(1, 2, &[Number(1)])], VALUE),
];

#[test]
fn errors_are_replaced(rt: HostRuntime) {
    for row in &RESCUES {
        check(&rt, row, has_value(rt.alloc(), row));
    }
}
