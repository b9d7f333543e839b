use crate::common::Given::{Area, One};
use crate::common::Plain::{Blank, Number, Repeated, Text, Truth};
use crate::common::{Call, DIV0, MOST, NA, REF, VALUE, check, has_value};

/// LEN and EXACT.
static WHOLE: [Call; 33] = [
    ("LEN", &[One(Text("abc"))], Number(3)),
    ("LEN", &[One(Text(""))], Number(0)),
    ("LEN", &[One(Blank)], Number(0)),
    ("LEN", &[One(Text("é€😀"))], Number(3)),
    ("LEN", &[One(Text(" a\n"))], Number(3)),
    ("LEN", &[One(Number(-120))], Number(4)),
    ("LEN", &[One(Number(0))], Number(1)),
    ("LEN", &[One(Truth(true))], Number(4)),
    ("LEN", &[One(Truth(false))], Number(5)),
    ("LEN", &[One(Repeated("é", 25_000))], Number(25_000)),
    ("LEN", &[One(NA)], NA),
    ("LEN", &[Area(1, 1, &[Text("ab")])], Number(2)),
    ("LEN", &[Area(1, 1, &[])], Number(0)),
    ("LEN", &[Area(2, 1, &[Text("ab")])], VALUE),
    ("EXACT", &[One(Text("abc")), One(Text("abc"))], Truth(true)),
    ("EXACT", &[One(Text("abc")), One(Text("ABC"))], Truth(false)),
    (
        "EXACT",
        &[One(Text("abc")), One(Text("abcd"))],
        Truth(false),
    ),
    ("EXACT", &[One(Text("é")), One(Text("É"))], Truth(false)),
    ("EXACT", &[One(Text("a ")), One(Text("a"))], Truth(false)),
    ("EXACT", &[One(Number(1)), One(Text("1"))], Truth(true)),
    ("EXACT", &[One(Number(1)), One(Text("01"))], Truth(false)),
    ("EXACT", &[One(Truth(true)), One(Text("TRUE"))], Truth(true)),
    (
        "EXACT",
        &[One(Truth(true)), One(Text("true"))],
        Truth(false),
    ),
    ("EXACT", &[One(Truth(true)), One(Number(1))], Truth(false)),
    ("EXACT", &[One(Blank), One(Text(""))], Truth(true)),
    ("EXACT", &[One(Blank), One(Number(0))], Truth(false)),
    ("EXACT", &[One(Blank), One(Blank)], Truth(true)),
    ("EXACT", &[One(NA), One(NA)], NA),
    ("EXACT", &[One(REF), One(NA)], REF),
    ("EXACT", &[One(Text("#N/A")), One(NA)], NA),
    (
        "EXACT",
        &[Area(1, 1, &[Text("x")]), One(Text("x"))],
        Truth(true),
    ),
    ("EXACT", &[Area(1, 1, &[]), Area(1, 1, &[])], Truth(true)),
    ("EXACT", &[One(Text("x")), Area(1, 2, &[Text("x")])], VALUE),
];

#[test]
fn texts_have_characters_and_bytes(rt: HostRuntime) {
    for row in &WHOLE {
        check(&rt, row, has_value(rt.alloc(), row));
    }
}

/// LEFT and RIGHT.
static ENDS: [Call; 34] = [
    ("LEFT", &[One(Text("abc")), One(Number(2))], Text("ab")),
    ("LEFT", &[One(Text("abc"))], Text("a")),
    ("LEFT", &[One(Text(""))], Text("")),
    ("LEFT", &[One(Text("abc")), One(Number(0))], Text("")),
    ("LEFT", &[One(Text("abc")), One(Number(3))], Text("abc")),
    ("LEFT", &[One(Text("abc")), One(Number(9))], Text("abc")),
    ("LEFT", &[One(Text("abc")), One(Number(MOST))], Text("abc")),
    ("LEFT", &[One(Text("abc")), One(Number(-1))], VALUE),
    ("LEFT", &[One(Text("é€😀")), One(Number(2))], Text("é€")),
    ("LEFT", &[One(Number(-120)), One(Number(3))], Text("-12")),
    ("LEFT", &[One(Truth(false)), One(Truth(true))], Text("F")),
    ("LEFT", &[One(Text("abc")), One(Blank)], Text("")),
    ("LEFT", &[One(Text("abc")), One(Text("2"))], Text("ab")),
    ("LEFT", &[One(Text("abc")), One(Text("x"))], VALUE),
    ("LEFT", &[One(Blank), One(Number(1))], Text("")),
    ("LEFT", &[One(NA), One(DIV0)], NA),
    ("LEFT", &[One(NA), One(Number(-1))], NA),
    ("LEFT", &[One(Text("abc")), One(DIV0)], DIV0),
    (
        "LEFT",
        &[Area(1, 1, &[Text("abc")]), Area(1, 1, &[Number(2)])],
        Text("ab"),
    ),
    (
        "LEFT",
        &[One(Repeated("é", 25_000)), One(Number(24_999))],
        Repeated("é", 24_999),
    ),
    ("RIGHT", &[One(Text("abc")), One(Number(2))], Text("bc")),
    ("RIGHT", &[One(Text("abc"))], Text("c")),
    ("RIGHT", &[One(Blank)], Text("")),
    ("RIGHT", &[One(Text("abc")), One(Number(0))], Text("")),
    ("RIGHT", &[One(Text("abc")), One(Number(3))], Text("abc")),
    ("RIGHT", &[One(Text("abc")), One(Number(MOST))], Text("abc")),
    ("RIGHT", &[One(Text("abc")), One(Number(-1))], VALUE),
    ("RIGHT", &[One(Text("é€😀")), One(Number(2))], Text("€😀")),
    ("RIGHT", &[One(Number(-120)), One(Number(2))], Text("20")),
    ("RIGHT", &[One(Truth(true)), One(Number(2))], Text("UE")),
    ("RIGHT", &[One(Text("abc")), One(Text("x"))], VALUE),
    ("RIGHT", &[One(NA), One(DIV0)], NA),
    ("RIGHT", &[One(Text("abc")), One(DIV0)], DIV0),
    ("RIGHT", &[Area(2, 1, &[Text("abc")])], VALUE),
];

#[test]
fn ends_of_texts_are_counted_in_characters(rt: HostRuntime) {
    for row in &ENDS {
        check(&rt, row, has_value(rt.alloc(), row));
    }
}

/// MID.
static MIDDLES: [Call; 22] = [
    (
        "MID",
        &[One(Text("abcde")), One(Number(2)), One(Number(3))],
        Text("bcd"),
    ),
    (
        "MID",
        &[One(Text("abcde")), One(Number(1)), One(Number(1))],
        Text("a"),
    ),
    (
        "MID",
        &[One(Text("abcde")), One(Number(5)), One(Number(9))],
        Text("e"),
    ),
    (
        "MID",
        &[One(Text("abcde")), One(Number(6)), One(Number(1))],
        Text(""),
    ),
    (
        "MID",
        &[One(Text("abcde")), One(Number(MOST)), One(Number(MOST))],
        Text(""),
    ),
    (
        "MID",
        &[One(Text("abcde")), One(Number(1)), One(Number(MOST))],
        Text("abcde"),
    ),
    (
        "MID",
        &[One(Text("abcde")), One(Number(3)), One(Number(0))],
        Text(""),
    ),
    (
        "MID",
        &[One(Text("abcde")), One(Number(0)), One(Number(1))],
        VALUE,
    ),
    (
        "MID",
        &[One(Text("abcde")), One(Number(-1)), One(Number(1))],
        VALUE,
    ),
    (
        "MID",
        &[One(Text("abcde")), One(Blank), One(Number(1))],
        VALUE,
    ),
    (
        "MID",
        &[One(Text("abcde")), One(Number(1)), One(Number(-1))],
        VALUE,
    ),
    (
        "MID",
        &[One(Text("aé€😀z")), One(Number(2)), One(Number(3))],
        Text("é€😀"),
    ),
    (
        "MID",
        &[One(Number(12345)), One(Text("2")), One(Truth(true))],
        Text("2"),
    ),
    (
        "MID",
        &[One(Truth(false)), One(Number(2)), One(Number(2))],
        Text("AL"),
    ),
    (
        "MID",
        &[One(Blank), One(Number(1)), One(Number(1))],
        Text(""),
    ),
    (
        "MID",
        &[One(Text("abcde")), One(Text("x")), One(Number(1))],
        VALUE,
    ),
    (
        "MID",
        &[One(Text("abcde")), One(Number(1)), One(Text("x"))],
        VALUE,
    ),
    ("MID", &[One(Text("abcde")), One(Text("x")), One(NA)], NA),
    ("MID", &[One(Text("abcde")), One(DIV0), One(NA)], DIV0),
    ("MID", &[One(REF), One(DIV0), One(Number(1))], REF),
    (
        "MID",
        &[Area(1, 1, &[Text("abc")]), One(Number(2)), One(Number(1))],
        Text("b"),
    ),
    (
        "MID",
        &[Area(1, 2, &[Text("abc")]), One(Number(2)), One(Number(1))],
        VALUE,
    ),
];

#[test]
fn middles_of_texts_begin_at_a_character(rt: HostRuntime) {
    for row in &MIDDLES {
        check(&rt, row, has_value(rt.alloc(), row));
    }
}

/// CONCATENATE.
static JOINED: [Call; 22] = [
    (
        "CONCATENATE",
        &[One(Text("a")), One(Text("b")), One(Text("c"))],
        Text("abc"),
    ),
    (
        "CONCATENATE",
        &[One(Number(-1)), One(Truth(true)), One(Text(" "))],
        Text("-1TRUE "),
    ),
    ("CONCATENATE", &[One(Blank)], Text("")),
    (
        "CONCATENATE",
        &[One(Text("a")), One(Blank), One(Text("b"))],
        Text("ab"),
    ),
    (
        "CONCATENATE",
        &[Area(4, 1, &[Number(3), Text("x"), Truth(true), Blank])],
        Text("3xTRUE"),
    ),
    (
        "CONCATENATE",
        &[Area(2, 2, &[Text("a"), Text("b"), Text("c"), Text("d")])],
        Text("abcd"),
    ),
    (
        "CONCATENATE",
        &[Area(1, 3, &[Text("a"), Blank, Text("c")]), One(Text("d"))],
        Text("acd"),
    ),
    ("CONCATENATE", &[Area(3, 3, &[])], Text("")),
    ("CONCATENATE", &[One(NA), One(DIV0)], NA),
    ("CONCATENATE", &[One(Text("a")), One(DIV0)], DIV0),
    ("CONCATENATE", &[Area(2, 1, &[Text("a"), NA])], NA),
    ("CONCATENATE", &[Area(1, 1, &[NA]), One(DIV0)], DIV0),
    (
        "CONCATENATE",
        &[One(Repeated("x", 50_000))],
        Repeated("x", 50_000),
    ),
    ("CONCATENATE", &[One(Repeated("x", 50_001))], VALUE),
    (
        "CONCATENATE",
        &[One(Repeated("x", 50_000)), One(Text(""))],
        Repeated("x", 50_000),
    ),
    (
        "CONCATENATE",
        &[One(Repeated("x", 49_999)), One(Text("x"))],
        Repeated("x", 50_000),
    ),
    (
        "CONCATENATE",
        &[One(Repeated("x", 50_000)), One(Text("x"))],
        VALUE,
    ),
    (
        "CONCATENATE",
        &[Area(2, 1, &[Repeated("x", 30_000), Repeated("x", 20_000)])],
        Repeated("x", 50_000),
    ),
    (
        "CONCATENATE",
        &[Area(2, 1, &[Repeated("x", 30_000), Repeated("x", 20_001)])],
        VALUE,
    ),
    (
        "CONCATENATE",
        &[One(Repeated("€", 16_666)), One(Text("€"))],
        VALUE,
    ),
    (
        "CONCATENATE",
        &[One(Repeated("€", 16_665)), One(Text("€"))],
        Repeated("€", 16_666),
    ),
    ("CONCATENATE", &[One(Repeated("x", 50_001)), One(NA)], NA),
];

#[test]
fn texts_are_concatenated_by_rows(rt: HostRuntime) {
    for row in &JOINED {
        check(&rt, row, has_value(rt.alloc(), row));
    }
}
