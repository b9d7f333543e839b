use crate::common::Given::{self, Area, One};
use crate::common::Plain::{Blank, Number, Text, Truth};
use crate::common::{Call, DIV0, MOST, NA, NUM, REF, Row, VALUE, check, has_value, has_value_of};

// Areas; their cells that aren't told are blank.

const MIXED: Given = Area(4, 1, &[Number(3), Text("x"), Truth(true)]);

const ONE_OF_FOUR: Given = Area(4, 1, &[Number(3)]);

const FIVE_OF_SIX: Given = Area(
    2,
    3,
    &[Number(1), Number(2), Number(3), Number(4), Number(5)],
);

const DIAGONAL: Given = Area(2, 2, &[Number(1), Blank, Blank, Number(4)]);

const LETTERS: Given = Area(1, 3, &[Text("a"), Text("b"), Text("c")]);

const NA_AND_ONE: Given = Area(2, 1, &[NA, Number(1)]);

const FIVE: Given = Area(2, 1, &[Number(5)]);

const FIVE_IN_A_ROW: Given = Area(1, 2, &[Number(5)]);

const ONLY_FIVE: Given = Area(1, 1, &[Number(5)]);

const SQUARE: Given = Area(2, 2, &[Number(5)]);

const ZERO: Given = One(Number(0));

const THREES: Given = Area(2, 2, &[Number(3), Number(4), Number(3), Blank]);

const NA_AND_THREE: Given = Area(1, 3, &[NA, Number(3)]);

const ONE_OF_TWO: Given = Area(1, 2, &[Number(1)]);

const NOTHING: Given = Area(3, 3, &[]);

const THREE_FOUR_THREE: Given = Area(3, 1, &[Number(3), Number(4), Number(3)]);

const KEYS: Given = Area(3, 1, &[Text("a"), Text("b"), Text("A")]);

const POWERS: Given = Area(3, 1, &[Number(1), Number(2), Number(4)]);

const KEYS_IN_A_SQUARE: Given = Area(2, 2, &[Text("a"), Blank, Blank, Text("a")]);

const POWERS_IN_A_SQUARE: Given = Area(2, 2, &[Number(1), Number(2), Number(4), Number(8)]);

const SEVEN: Given = Area(2, 1, &[Number(7)]);

const TWO_SEVENS: Given = Area(2, 1, &[Number(7), Number(7)]);

const SEVEN_EIGHT: Given = Area(2, 1, &[Number(7), Number(8)]);

const ONE_ABOVE: Given = Area(2, 1, &[Number(1)]);

const ONE_TWO: Given = Area(2, 1, &[Number(1), Number(2)]);

const MOST_AND_MORE: Given = Area(1, 3, &[Number(MOST), Number(1), Number(-1)]);

/// INDEX.
static INDEXED: [Row; 32] = [
    (&[MIXED, One(Number(2))], Text("x")),
    (&[MIXED, One(Number(3))], Truth(true)),
    (&[ONE_OF_FOUR, One(Number(4))], Blank),
    (&[ONE_OF_FOUR, One(Number(5))], NUM),
    (&[ONE_OF_FOUR, ZERO], NUM),
    (&[ONE_OF_FOUR, One(Number(-1))], NUM),
    (&[ONE_OF_FOUR, One(Number(MOST))], NUM),
    (&[ONE_OF_FOUR, One(Blank)], NUM),
    (&[FIVE_OF_SIX, One(Number(2)), One(Number(1))], Number(4)),
    (&[FIVE_OF_SIX, One(Number(1)), One(Number(3))], Number(3)),
    (&[FIVE_OF_SIX, One(Number(2)), One(Number(3))], Blank),
    (&[FIVE_OF_SIX, One(Number(2))], Number(4)),
    (&[FIVE_OF_SIX, One(Number(3)), One(Number(2))], NUM),
    (&[FIVE_OF_SIX, One(Number(1)), One(Number(4))], NUM),
    (&[FIVE_OF_SIX, One(Number(1)), ZERO], NUM),
    (&[DIAGONAL, One(Text("2")), One(Text("2"))], Number(4)),
    (&[DIAGONAL, One(Truth(true)), One(Number(2))], Blank),
    (&[LETTERS, One(Number(1)), One(Number(2))], Text("b")),
    (&[LETTERS, One(Number(2))], NUM),
    (
        &[LETTERS, Area(1, 1, &[Number(1)]), Area(1, 1, &[Number(3)])],
        Text("c"),
    ),
    (&[NA_AND_ONE, One(Number(1))], NA),
    (&[NA_AND_ONE, One(Number(2))], Number(1)),
    (&[ONE_ABOVE, One(Text("x"))], VALUE),
    (&[ONE_ABOVE, One(Number(9)), One(Text("x"))], VALUE),
    (&[ONE_ABOVE, One(Text("x")), One(NA)], NA),
    (&[ONE_ABOVE, One(DIV0), One(NA)], DIV0),
    (&[One(Number(5)), One(Number(1))], VALUE),
    (&[One(Text("A1")), One(Number(1)), One(Number(1))], VALUE),
    (&[One(Blank), One(Number(1))], VALUE),
    (&[One(Number(5)), One(DIV0)], DIV0),
    (&[One(REF), One(DIV0)], REF),
    (&[One(Number(5)), One(Number(1)), One(NA)], NA),
];

#[test]
fn cells_are_indexed_from_one(rt: HostRuntime) {
    for row in &INDEXED {
        check(&rt, row, has_value_of(rt.alloc(), "INDEX", row));
    }
}

/// MATCH.
static MATCHED: [Row; 38] = [
    (&[One(Text("X")), MIXED, ZERO], Number(2)),
    (&[One(Number(3)), MIXED, ZERO], Number(1)),
    (&[One(Truth(true)), MIXED, ZERO], Number(3)),
    // Another kind doesn't match.
    (&[One(Text("3")), MIXED, ZERO], NA),
    (&[One(Text("TRUE")), MIXED, ZERO], NA),
    (
        &[
            One(Number(1)),
            Area(4, 1, &[Number(3), Text("1"), Truth(true)]),
            ZERO,
        ],
        NA,
    ),
    (
        &[
            One(Truth(false)),
            Area(4, 1, &[Number(0), Text("FALSE")]),
            ZERO,
        ],
        NA,
    ),
    // Blank matches nothing.
    (&[One(Blank), Area(2, 1, &[Number(0)]), ZERO], NA),
    (
        &[
            One(Blank),
            Area(3, 1, &[Blank, Text(""), Truth(false)]),
            ZERO,
        ],
        NA,
    ),
    (
        &[One(Number(0)), Area(3, 1, &[Blank, Blank, Number(0)]), ZERO],
        Number(3),
    ),
    (
        &[One(Text("")), Area(3, 1, &[Blank, Text("")]), ZERO],
        Number(2),
    ),
    (&[One(Truth(false)), Area(3, 1, &[Blank]), ZERO], NA),
    (
        &[
            One(Number(5)),
            Area(1, 4, &[Number(4), Blank, Number(5), Number(5)]),
            ZERO,
        ],
        Number(3),
    ),
    (&[One(Number(5)), ONLY_FIVE, ZERO], Number(1)),
    (&[One(Number(6)), ONLY_FIVE, ZERO], NA),
    (
        &[
            One(Text("é")),
            Area(1, 3, &[Text("É"), Text("e"), Text("é")]),
            ZERO,
        ],
        Number(3),
    ),
    (
        &[
            One(Text("aBc")),
            Area(1, 3, &[Text("ab"), Text("abcd"), Text("ABC")]),
            ZERO,
        ],
        Number(3),
    ),
    // No pattern, and no comparison.
    (
        &[One(Text("a*")), Area(1, 2, &[Text("ab"), Text("A*")]), ZERO],
        Number(2),
    ),
    (
        &[One(Text(">1")), Area(1, 2, &[Number(2), Text(">1")]), ZERO],
        Number(2),
    ),
    // Cells in error are passed over.
    (
        &[One(Number(5)), Area(3, 1, &[NA, Number(5)]), ZERO],
        Number(2),
    ),
    (&[One(Number(5)), Area(3, 1, &[NA]), ZERO], NA),
    (&[One(DIV0), Area(2, 1, &[DIV0]), ZERO], DIV0),
    // The third argument is 0, and is judged before the shape of the area.
    (&[One(Number(5)), FIVE], VALUE),
    (&[One(Number(5)), FIVE, One(Number(1))], VALUE),
    (&[One(Number(5)), FIVE, One(Number(-1))], VALUE),
    (&[One(Number(5)), FIVE, One(Text("x"))], VALUE),
    (&[One(Number(5)), FIVE, One(Text("0"))], Number(1)),
    (&[One(Number(5)), FIVE, One(Truth(false))], Number(1)),
    (&[One(Number(5)), FIVE, One(Blank)], Number(1)),
    (&[One(Number(5)), SQUARE, ZERO], NA),
    (&[One(Number(5)), SQUARE, One(Number(1))], VALUE),
    (&[One(Number(5)), SQUARE], VALUE),
    (&[One(Number(5)), One(Number(5)), ZERO], VALUE),
    (&[One(Number(5)), One(Number(5)), One(REF)], REF),
    (&[One(NA), One(DIV0), One(Number(1))], NA),
    (&[One(Number(5)), One(DIV0), One(Number(1))], DIV0),
    (
        &[ONLY_FIVE, Area(1, 2, &[Blank, Number(5)]), Area(1, 1, &[])],
        Number(2),
    ),
    (&[FIVE_IN_A_ROW, FIVE_IN_A_ROW, ZERO], VALUE),
];

#[test]
fn matches_equal_the_key_and_have_its_kind(rt: HostRuntime) {
    for row in &MATCHED {
        check(&rt, row, has_value_of(rt.alloc(), "MATCH", row));
    }
}

/// COUNTIF.
static COUNTED: [Row; 35] = [
    (&[THREES, One(Number(3))], Number(2)),
    (&[THREES, One(Number(5))], Number(0)),
    (
        &[
            Area(2, 2, &[Text("a"), Text("A"), Text("b"), Text("ab")]),
            One(Text("a")),
        ],
        Number(2),
    ),
    (
        &[
            Area(1, 3, &[Truth(true), Truth(false), Text("TRUE")]),
            One(Truth(true)),
        ],
        Number(1),
    ),
    // A text that reads as a number or a truth value is taken as that.
    (
        &[
            Area(1, 3, &[Number(3), Text("3"), Number(3)]),
            One(Text("3")),
        ],
        Number(2),
    ),
    (
        &[
            Area(1, 3, &[Number(3), Text("+03"), Number(3)]),
            One(Text("+03")),
        ],
        Number(2),
    ),
    (
        &[
            Area(1, 3, &[Number(-3), Text("-3"), Number(3)]),
            One(Text("-3")),
        ],
        Number(1),
    ),
    (
        &[
            Area(1, 3, &[Truth(true), Truth(false), Text("true")]),
            One(Text("tRue")),
        ],
        Number(1),
    ),
    (
        &[
            Area(1, 3, &[Truth(true), Truth(false), Text("false")]),
            One(Text("FALSE")),
        ],
        Number(1),
    ),
    (
        &[
            Area(1, 2, &[Text("9007199254740993"), Number(3)]),
            One(Text("9007199254740993")),
        ],
        Number(1),
    ),
    (
        &[Area(1, 2, &[Text("3 "), Number(3)]), One(Text("3 "))],
        Number(1),
    ),
    (
        &[Area(1, 3, &[Number(3), Text("3")]), One(Number(3))],
        Number(1),
    ),
    (
        &[
            Area(1, 3, &[Number(1), Text("1"), Truth(true)]),
            One(Truth(true)),
        ],
        Number(1),
    ),
    // Blank matches nothing.
    (&[NOTHING, One(Blank)], Number(0)),
    (
        &[Area(3, 3, &[Number(0), Text(""), Truth(false)]), One(Blank)],
        Number(0),
    ),
    (&[Area(3, 3, &[Number(5)]), ZERO], Number(0)),
    (&[Area(3, 3, &[Text("")]), One(Text(""))], Number(1)),
    (&[NOTHING, One(Truth(false))], Number(0)),
    // Comparisons.
    (&[ONE_OF_TWO, One(Text("<2"))], VALUE),
    (&[ONE_OF_TWO, One(Text(">0"))], VALUE),
    (&[ONE_OF_TWO, One(Text("=1"))], VALUE),
    (&[Area(1, 2, &[Text("<")]), One(Text("<"))], VALUE),
    (&[Area(1, 2, &[Text(" <2")]), One(Text(" <2"))], Number(1)),
    (
        &[Area(1, 3, &[Text(";"), Text("?")]), One(Text("?"))],
        Number(1),
    ),
    (
        &[Area(1, 3, &[Text(";"), Text("?")]), One(Text(";"))],
        Number(1),
    ),
    (
        &[Area(1, 2, &[Text("ab"), Text("a*")]), One(Text("a*"))],
        Number(1),
    ),
    // Cells in error are passed over.
    (&[NA_AND_THREE, One(Number(3))], Number(1)),
    (&[NA_AND_THREE, One(Text("#N/A"))], Number(0)),
    (&[NA_AND_THREE, One(NA)], NA),
    (&[One(Number(3)), One(Number(3))], VALUE),
    (&[One(Number(3)), One(DIV0)], DIV0),
    (&[One(REF), One(DIV0)], REF),
    (&[One(Blank), One(Text("<2"))], VALUE),
    (
        &[Area(1, 2, &[Number(3)]), Area(1, 1, &[Text("3")])],
        Number(1),
    ),
    (&[Area(1, 2, &[Number(3)]), Area(1, 2, &[Number(3)])], VALUE),
];

#[test]
fn cells_are_counted_that_equal_the_key(rt: HostRuntime) {
    for row in &COUNTED {
        check(&rt, row, has_value_of(rt.alloc(), "COUNTIF", row));
    }
}

/// SUMIF.
static SUMMED: [Row; 32] = [
    (&[THREE_FOUR_THREE, One(Number(3))], Number(6)),
    (&[THREE_FOUR_THREE, One(Text("3"))], Number(6)),
    (
        &[
            Area(3, 1, &[Text("3"), Number(4), Number(3)]),
            One(Text("3")),
        ],
        Number(3),
    ),
    (&[KEYS, One(Text("a"))], Number(0)),
    (
        &[Area(3, 1, &[Truth(true), Number(1)]), One(Text("true"))],
        Number(0),
    ),
    (&[KEYS, One(Text("a")), POWERS], Number(5)),
    (
        &[
            Area(1, 3, &[Text("a"), Text("b"), Text("A")]),
            One(Text("b")),
            Area(1, 3, &[Number(1), Number(2), Number(4)]),
        ],
        Number(2),
    ),
    (
        &[KEYS_IN_A_SQUARE, One(Text("a")), POWERS_IN_A_SQUARE],
        Number(9),
    ),
    (
        &[KEYS_IN_A_SQUARE, One(Text("b")), POWERS_IN_A_SQUARE],
        Number(0),
    ),
    // Of the summed cells texts, truth values and blank ones are passed over.
    (
        &[
            Area(1, 4, &[Number(7), Number(7), Number(7), Number(7)]),
            One(Number(7)),
            Area(1, 4, &[Text("5"), Truth(true), Blank, Number(2)]),
        ],
        Number(2),
    ),
    (&[TWO_SEVENS, One(Number(7)), Area(2, 1, &[])], Number(0)),
    // A summed cell in error gives its error.
    (&[SEVEN_EIGHT, One(Number(7)), NA_AND_ONE], NA),
    (&[SEVEN_EIGHT, One(Number(8)), NA_AND_ONE], Number(1)),
    (&[TWO_SEVENS, One(Number(7)), Area(2, 1, &[NUM, NA])], NUM),
    (
        &[Area(2, 1, &[NA, Number(7)]), One(Number(7)), ONE_TWO],
        Number(2),
    ),
    (&[Area(2, 1, &[NA, Number(7)]), One(Number(7))], Number(7)),
    // Sizes.
    (&[SEVEN, One(Number(7)), ONE_OF_TWO], VALUE),
    (&[SEVEN, One(Number(7)), Area(3, 1, &[Number(1)])], VALUE),
    (&[SEVEN, One(Number(7)), Area(2, 2, &[Number(1)])], VALUE),
    (&[SEVEN, One(Number(7)), Area(1, 1, &[Number(1)])], VALUE),
    // Keys.
    (&[Area(2, 1, &[]), One(Blank), ONE_TWO], Number(0)),
    (&[Area(2, 1, &[]), One(Number(0)), ONE_TWO], Number(0)),
    (&[ONE_ABOVE, One(Text(">0"))], VALUE),
    (&[ONE_ABOVE, One(NA), One(DIV0)], NA),
    (&[ONE_ABOVE, One(Number(1)), One(DIV0)], DIV0),
    (&[ONE_ABOVE, One(Number(1)), One(Number(1))], VALUE),
    (&[One(Number(1)), One(Number(1))], VALUE),
    (&[One(Number(1)), One(Number(1)), One(DIV0)], DIV0),
    (&[One(REF), One(NA)], REF),
    // The whole is judged.
    (
        &[
            Area(1, 3, &[Truth(true), Truth(true), Truth(true)]),
            One(Truth(true)),
            MOST_AND_MORE,
        ],
        Number(MOST),
    ),
    (
        &[
            Area(1, 3, &[Truth(true), Truth(true)]),
            One(Truth(true)),
            MOST_AND_MORE,
        ],
        NUM,
    ),
    (
        &[
            Area(1, 2, &[Number(7), Number(7)]),
            Area(1, 1, &[Number(7)]),
        ],
        Number(14),
    ),
];

#[test]
fn numbers_are_summed_beside_cells_that_equal_the_key(rt: HostRuntime) {
    for row in &SUMMED {
        check(&rt, row, has_value_of(rt.alloc(), "SUMIF", row));
    }
}

/// ROWS and COLUMNS.
static SIZES: [Call; 14] = [
    ("ROWS", &[Area(4, 2, &[])], Number(4)),
    ("COLUMNS", &[Area(4, 2, &[])], Number(2)),
    ("ROWS", &[Area(1, 1, &[Number(7)])], Number(1)),
    ("COLUMNS", &[Area(1, 1, &[Number(7)])], Number(1)),
    ("ROWS", &[Area(1_000, 26, &[])], Number(1_000)),
    ("COLUMNS", &[Area(1_000, 26, &[])], Number(26)),
    ("ROWS", &[Area(2, 1, &[NA])], Number(2)),
    ("COLUMNS", &[Area(2, 3, &[NA])], Number(3)),
    ("ROWS", &[One(Number(1))], VALUE),
    ("COLUMNS", &[One(Text("A1"))], VALUE),
    ("ROWS", &[One(DIV0)], DIV0),
    ("COLUMNS", &[One(REF)], REF),
    ("ROWS", &[One(Blank)], VALUE),
    ("COLUMNS", &[One(Truth(true))], VALUE),
];

#[test]
fn areas_have_rows_and_columns(rt: HostRuntime) {
    for row in &SIZES {
        check(&rt, row, has_value(rt.alloc(), row));
    }
}
