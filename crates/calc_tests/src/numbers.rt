use crate::common::Given::{Area, One};
use crate::common::Plain::{Blank, Number, Text, Truth};
use crate::common::{Call, DIV0, MOST, NA, NUM, REF, VALUE, check, has_value};

/// SUM takes the numbers of areas, and other arguments as numbers.
static SUMS: [Call; 28] = [
    (
        "SUM",
        &[One(Number(1)), One(Number(2)), One(Number(3))],
        Number(6),
    ),
    ("SUM", &[One(Number(-7))], Number(-7)),
    (
        "SUM",
        &[Area(4, 1, &[Number(3), Text("x"), Truth(true), Blank])],
        Number(3),
    ),
    (
        "SUM",
        &[Area(1, 3, &[Number(3), Text("5"), Number(4)])],
        Number(7),
    ),
    ("SUM", &[One(Number(1)), One(Truth(true))], Number(2)),
    ("SUM", &[One(Truth(false)), One(Text("+5"))], Number(5)),
    ("SUM", &[One(Blank)], Number(0)),
    ("SUM", &[Area(3, 2, &[])], Number(0)),
    ("SUM", &[Area(2, 1, &[Text("1"), Truth(true)])], Number(0)),
    (
        "SUM",
        &[Area(1, 1, &[Truth(true)]), One(Truth(true))],
        Number(1),
    ),
    (
        "SUM",
        &[
            Area(2, 2, &[Number(1), Blank, Blank, Number(4)]),
            One(Number(5)),
        ],
        Number(10),
    ),
    ("SUM", &[One(Text("x"))], VALUE),
    ("SUM", &[One(Text(""))], VALUE),
    ("SUM", &[One(Text("TRUE"))], VALUE),
    ("SUM", &[One(Text("x")), One(DIV0)], DIV0),
    ("SUM", &[One(REF), One(DIV0)], REF),
    ("SUM", &[Area(2, 1, &[Number(1), NA])], NA),
    ("SUM", &[Area(2, 1, &[NUM, NA])], NUM),
    // An area that holds an error is no argument in error.
    ("SUM", &[Area(1, 1, &[NA]), One(DIV0)], DIV0),
    // The whole is judged, and no sum on the way.
    (
        "SUM",
        &[One(Number(MOST)), One(Number(1)), One(Number(-1))],
        Number(MOST),
    ),
    (
        "SUM",
        &[One(Number(MOST)), One(Number(MOST)), One(Number(-MOST))],
        Number(MOST),
    ),
    (
        "SUM",
        &[Area(3, 1, &[Number(-MOST), Number(-MOST), Number(MOST)])],
        Number(-MOST),
    ),
    (
        "SUM",
        &[One(Number(-1)), One(Number(MOST)), One(Number(2))],
        NUM,
    ),
    ("SUM", &[One(Number(MOST)), One(Number(1))], NUM),
    ("SUM", &[Area(1, 2, &[Number(-MOST), Number(-1)])], NUM),
    ("SUM", &[One(Number(MOST)), One(Number(-MOST))], Number(0)),
    ("SUM", &[One(Text("9007199254740992"))], Number(MOST)),
    ("SUM", &[One(Text("9007199254740993"))], VALUE),
];

#[test]
fn sums_are_of_numbers_and_judged_as_a_whole(rt: HostRuntime) {
    for row in &SUMS {
        check(&rt, row, has_value(rt.alloc(), row));
    }
}

/// MIN and MAX take the numbers that SUM adds.
static EXTREMES: [Call; 24] = [
    (
        "MIN",
        &[One(Number(3)), One(Number(-1)), One(Number(2))],
        Number(-1),
    ),
    (
        "MAX",
        &[One(Number(3)), One(Number(-1)), One(Number(2))],
        Number(3),
    ),
    ("MIN", &[One(Number(5)), One(Number(7))], Number(5)),
    ("MAX", &[One(Number(-5)), One(Number(-7))], Number(-5)),
    (
        "MIN",
        &[Area(4, 1, &[Number(3), Text("x"), Truth(true), Blank])],
        Number(3),
    ),
    (
        "MAX",
        &[Area(4, 1, &[Number(-3), Text("x"), Truth(true), Blank])],
        Number(-3),
    ),
    ("MIN", &[Area(2, 2, &[])], Number(0)),
    ("MAX", &[Area(2, 1, &[Text("7"), Truth(true)])], Number(0)),
    (
        "MIN",
        &[Area(1, 2, &[Number(4), Number(5)]), One(Truth(true))],
        Number(1),
    ),
    (
        "MAX",
        &[Area(1, 2, &[Number(-4), Number(-5)]), One(Truth(false))],
        Number(0),
    ),
    ("MIN", &[One(Text("5")), One(Number(7))], Number(5)),
    ("MAX", &[One(Text("5")), One(Text("-7"))], Number(5)),
    ("MIN", &[One(Number(3)), One(Blank)], Number(0)),
    ("MAX", &[One(Number(-3)), One(Blank)], Number(0)),
    (
        "MIN",
        &[One(Number(-MOST)), One(Number(MOST))],
        Number(-MOST),
    ),
    (
        "MAX",
        &[One(Number(-MOST)), One(Number(MOST))],
        Number(MOST),
    ),
    ("MIN", &[One(Text("x")), One(Number(1))], VALUE),
    ("MAX", &[One(Text("x")), One(Number(1))], VALUE),
    ("MIN", &[One(Text("x")), One(DIV0)], DIV0),
    ("MAX", &[One(Text("x")), One(DIV0)], DIV0),
    ("MIN", &[Area(2, 1, &[Number(1), NA])], NA),
    ("MAX", &[Area(2, 1, &[Number(1), NA])], NA),
    ("MIN", &[One(NUM), One(DIV0)], NUM),
    ("MAX", &[Area(1, 1, &[NA]), One(DIV0)], DIV0),
];

#[test]
fn the_least_and_the_greatest_are_of_the_same_numbers(rt: HostRuntime) {
    for row in &EXTREMES {
        check(&rt, row, has_value(rt.alloc(), row));
    }
}

/// COUNT counts numbers, and COUNTA all that is there.
static COUNTS: [Call; 29] = [
    (
        "COUNT",
        &[Area(4, 1, &[Number(3), Text("x"), Truth(true), Blank])],
        Number(1),
    ),
    (
        "COUNTA",
        &[Area(4, 1, &[Number(3), Text("x"), Truth(true), Blank])],
        Number(3),
    ),
    (
        "COUNT",
        &[Area(2, 2, &[Number(0), Number(0), Text("5")])],
        Number(2),
    ),
    (
        "COUNTA",
        &[Area(2, 2, &[Number(0), Number(0), Text("5")])],
        Number(3),
    ),
    ("COUNT", &[Area(9, 9, &[])], Number(0)),
    ("COUNTA", &[Area(9, 9, &[])], Number(0)),
    ("COUNT", &[One(Number(1)), One(Number(1))], Number(2)),
    ("COUNT", &[One(Truth(true))], Number(1)),
    ("COUNT", &[One(Text("5"))], Number(1)),
    ("COUNT", &[One(Text("x"))], Number(0)),
    ("COUNT", &[One(Text(""))], Number(0)),
    ("COUNT", &[One(Text("9007199254740993"))], Number(0)),
    ("COUNT", &[One(Blank)], Number(1)),
    ("COUNT", &[One(DIV0)], Number(0)),
    ("COUNT", &[One(DIV0), One(Number(1))], Number(1)),
    ("COUNT", &[Area(2, 1, &[NA, Number(1)])], Number(1)),
    (
        "COUNT",
        &[Area(1, 1, &[Text("5")]), One(Text("5"))],
        Number(1),
    ),
    (
        "COUNT",
        &[Area(1, 1, &[Truth(true)]), One(Truth(true))],
        Number(1),
    ),
    ("COUNTA", &[One(DIV0)], Number(1)),
    ("COUNTA", &[Area(2, 1, &[NA])], Number(1)),
    ("COUNTA", &[Area(2, 1, &[NA]), One(DIV0)], Number(2)),
    ("COUNTA", &[One(Text(""))], Number(1)),
    ("COUNTA", &[Area(1, 2, &[Text("")])], Number(1)),
    ("COUNTA", &[One(Blank)], Number(1)),
    (
        "COUNTA",
        &[One(Number(1)), One(Text("x")), One(Truth(false))],
        Number(3),
    ),
    (
        "COUNT",
        &[Area(1, 2, &[Number(1)]), Area(1, 2, &[Blank, Number(2)])],
        Number(2),
    ),
    (
        "COUNTA",
        &[Area(1, 2, &[Number(1)]), Area(1, 2, &[Blank, Number(2)])],
        Number(2),
    ),
    (
        "COUNT",
        &[Area(3, 1, &[Blank, Blank, Number(-1)])],
        Number(1),
    ),
    (
        "COUNTA",
        &[Area(3, 1, &[Blank, Blank, Truth(false)])],
        Number(1),
    ),
];

#[test]
fn numbers_are_counted_and_all_that_is_there(rt: HostRuntime) {
    for row in &COUNTS {
        check(&rt, row, has_value(rt.alloc(), row));
    }
}

/// ABS and SIGN.
static SIGNS: [Call; 26] = [
    ("ABS", &[One(Number(5))], Number(5)),
    ("ABS", &[One(Number(-5))], Number(5)),
    ("ABS", &[One(Number(0))], Number(0)),
    ("ABS", &[One(Number(-MOST))], Number(MOST)),
    ("ABS", &[One(Truth(true))], Number(1)),
    ("ABS", &[One(Blank)], Number(0)),
    ("ABS", &[One(Text("-5"))], Number(5)),
    ("ABS", &[One(Text("x"))], VALUE),
    ("ABS", &[One(NA)], NA),
    ("ABS", &[Area(1, 1, &[Number(-7)])], Number(7)),
    ("ABS", &[Area(1, 1, &[])], Number(0)),
    ("ABS", &[Area(1, 1, &[REF])], REF),
    ("ABS", &[Area(2, 1, &[Number(-7), Number(-7)])], VALUE),
    ("SIGN", &[One(Number(5))], Number(1)),
    ("SIGN", &[One(Number(-5))], Number(-1)),
    ("SIGN", &[One(Number(0))], Number(0)),
    ("SIGN", &[One(Number(-MOST))], Number(-1)),
    ("SIGN", &[One(Number(MOST))], Number(1)),
    ("SIGN", &[One(Truth(false))], Number(0)),
    ("SIGN", &[One(Blank)], Number(0)),
    ("SIGN", &[One(Text("-07"))], Number(-1)),
    ("SIGN", &[One(Text("x"))], VALUE),
    ("SIGN", &[One(NUM)], NUM),
    ("SIGN", &[Area(1, 1, &[Number(-7)])], Number(-1)),
    ("SIGN", &[Area(1, 1, &[Text("x")])], VALUE),
    ("SIGN", &[Area(1, 2, &[Number(1)])], VALUE),
];

#[test]
fn signs_are_of_one_number(rt: HostRuntime) {
    for row in &SIGNS {
        check(&rt, row, has_value(rt.alloc(), row));
    }
}

/// MOD and QUOTIENT.
static DIVISIONS: [Call; 37] = [
    ("MOD", &[One(Number(7)), One(Number(3))], Number(1)),
    ("MOD", &[One(Number(-7)), One(Number(3))], Number(2)),
    ("MOD", &[One(Number(7)), One(Number(-3))], Number(-2)),
    ("MOD", &[One(Number(-7)), One(Number(-3))], Number(-1)),
    ("MOD", &[One(Number(6)), One(Number(-3))], Number(0)),
    ("MOD", &[One(Number(-6)), One(Number(3))], Number(0)),
    ("MOD", &[One(Number(2)), One(Number(5))], Number(2)),
    ("MOD", &[One(Number(2)), One(Number(-5))], Number(-3)),
    (
        "MOD",
        &[One(Number(-1)), One(Number(MOST))],
        Number(MOST - 1),
    ),
    (
        "MOD",
        &[One(Number(1)), One(Number(-MOST))],
        Number(1 - MOST),
    ),
    ("MOD", &[One(Number(-MOST)), One(Number(-1))], Number(0)),
    ("MOD", &[One(Number(0)), One(Number(3))], Number(0)),
    ("MOD", &[One(Number(7)), One(Number(0))], DIV0),
    ("MOD", &[One(Number(7)), One(Blank)], DIV0),
    ("MOD", &[One(Text("7")), One(Text("4"))], Number(3)),
    ("MOD", &[One(Truth(true)), One(Number(2))], Number(1)),
    ("MOD", &[One(Text("x")), One(Number(0))], VALUE),
    ("MOD", &[One(Text("x")), One(NA)], NA),
    ("MOD", &[One(REF), One(NA)], REF),
    ("MOD", &[One(REF), One(Number(0))], REF),
    ("QUOTIENT", &[One(Number(7)), One(Number(2))], Number(3)),
    ("QUOTIENT", &[One(Number(-7)), One(Number(2))], Number(-3)),
    ("QUOTIENT", &[One(Number(7)), One(Number(-2))], Number(-3)),
    ("QUOTIENT", &[One(Number(-7)), One(Number(-2))], Number(3)),
    ("QUOTIENT", &[One(Number(1)), One(Number(2))], Number(0)),
    ("QUOTIENT", &[One(Number(-1)), One(Number(2))], Number(0)),
    (
        "QUOTIENT",
        &[One(Number(-MOST)), One(Number(-1))],
        Number(MOST),
    ),
    ("QUOTIENT", &[One(Number(6)), One(Number(3))], Number(2)),
    ("QUOTIENT", &[One(Number(7)), One(Number(0))], DIV0),
    ("QUOTIENT", &[One(Number(0)), One(Number(0))], DIV0),
    ("QUOTIENT", &[One(Number(7)), One(Truth(false))], DIV0),
    ("QUOTIENT", &[One(Text("9")), One(Truth(true))], Number(9)),
    ("QUOTIENT", &[One(Number(1)), One(Text("x"))], VALUE),
    ("QUOTIENT", &[One(Text("x")), One(NA)], NA),
    ("QUOTIENT", &[One(NUM), One(NA)], NUM),
    (
        "QUOTIENT",
        &[Area(1, 1, &[Number(9)]), Area(1, 1, &[Number(-4)])],
        Number(-2),
    ),
    ("QUOTIENT", &[One(Number(9)), Area(1, 1, &[])], DIV0),
];

#[test]
fn remainders_have_the_sign_of_the_divisor_and_quotients_are_cut(rt: HostRuntime) {
    for row in &DIVISIONS {
        check(&rt, row, has_value(rt.alloc(), row));
    }
}
