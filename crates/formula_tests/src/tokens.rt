use crate::common::check;
use First::{
    Blank, Close, Comma, Function, Here, Lost, Nothing, Number, Open, Quoted, Sign,
    TitledReference, Truth, Word,
};
use formula_reader::{MarkedArea, Operator, Placed, Token, tokens_of};
use grid_range::Band::{self, From, Span, Whole};
use ref_rewrite::Marks;
use std::alloc::Global;

/// The first token of a text; `Blank` where it has none, and `Nothing` where nothing fits at some place.
#[derive(Clone, Copy)]
enum First {
    Here(Band, Band, Marks),
    TitledReference(&'static str, Band, Band, Marks),
    Function(&'static str),
    Word(&'static str),
    Truth(bool),
    Number(i64),
    Quoted(&'static str),
    Lost,
    Sign(Operator),
    Open,
    Close,
    Comma,
    Blank,
    Nothing,
}

// Marks by the coordinates that have one.

const NONE: Marks = Marks {
    row1: false,
    col1: false,
    row2: false,
    col2: false,
};

const COL1: Marks = Marks {
    row1: false,
    col1: true,
    row2: false,
    col2: false,
};

const COL2: Marks = Marks {
    row1: false,
    col1: false,
    row2: false,
    col2: true,
};

const ROW1: Marks = Marks {
    row1: true,
    col1: false,
    row2: false,
    col2: false,
};

const ROW1_COL1: Marks = Marks {
    row1: true,
    col1: true,
    row2: false,
    col2: false,
};

const ROW1_COL2: Marks = Marks {
    row1: true,
    col1: false,
    row2: false,
    col2: true,
};

const ROW1_ROW2: Marks = Marks {
    row1: true,
    col1: false,
    row2: true,
    col2: false,
};

const ROW2: Marks = Marks {
    row1: false,
    col1: false,
    row2: true,
    col2: false,
};

const ROW2_COL2: Marks = Marks {
    row1: false,
    col1: false,
    row2: true,
    col2: true,
};

/// A text, its first token, where that ends, and how many tokens there are.
static TOKENS: [(&str, First, usize, usize); 97] = [
    // Areas, and their marks.
    ("A1", Here(Span(0, 1), Span(0, 1), NONE), 2, 1),
    (
        "zzz9999999",
        Here(Span(9999998, 9999999), Span(18277, 18278), NONE),
        10,
        1,
    ),
    ("A1:B2", Here(Span(0, 2), Span(0, 2), NONE), 5, 1),
    ("B2:A1", Here(Span(0, 2), Span(0, 2), NONE), 5, 1),
    ("A:B", Here(Whole, Span(0, 2), NONE), 3, 1),
    ("5:7", Here(Span(4, 7), Whole, NONE), 3, 1),
    ("A5:B", Here(From(4), Span(0, 2), NONE), 4, 1),
    ("A1:B ", Here(From(0), Span(0, 2), NONE), 4, 1),
    ("A1+B2", Here(Span(0, 1), Span(0, 1), NONE), 2, 3),
    ("A1é", Here(Span(0, 1), Span(0, 1), NONE), 2, 2),
    ("$A$1", Here(Span(0, 1), Span(0, 1), ROW1_COL1), 4, 1),
    ("A$1", Here(Span(0, 1), Span(0, 1), ROW1), 3, 1),
    ("$A$1:B2", Here(Span(0, 2), Span(0, 2), ROW1_COL1), 7, 1),
    ("B2:$A$1", Here(Span(0, 2), Span(0, 2), ROW1_COL1), 7, 1),
    ("A1:B$2", Here(Span(0, 2), Span(0, 2), ROW2), 6, 1),
    ("B$2:A1", Here(Span(0, 2), Span(0, 2), ROW2), 6, 1),
    ("$B1:A2", Here(Span(0, 2), Span(0, 2), COL2), 6, 1),
    ("A1:$A$1", Here(Span(0, 1), Span(0, 1), ROW2_COL2), 7, 1),
    ("$A$1:A1", Here(Span(0, 1), Span(0, 1), ROW1_COL1), 7, 1),
    ("$5:$7", Here(Span(4, 7), Whole, ROW1_ROW2), 5, 1),
    ("7:$5", Here(Span(4, 7), Whole, ROW1), 4, 1),
    ("B:$A", Here(Whole, Span(0, 2), COL1), 4, 1),
    ("A$5:$B", Here(From(4), Span(0, 2), ROW1_COL2), 6, 1),
    // Words.
    ("A01", Word("A01"), 3, 1),
    ("A1.x", Word("A1.x"), 4, 1),
    ("A1_", Word("A1_"), 3, 1),
    ("AAAA1", Word("AAAA1"), 5, 1),
    ("A12345678", Word("A12345678"), 9, 1),
    ("A", Word("A"), 1, 1),
    ("_a", Word("_a"), 2, 1),
    ("é1", Word("é1"), 3, 1),
    ("SUM1(", Function("SUM1"), 4, 2),
    ("A1(", Function("A1"), 2, 2),
    ("TRUE(", Function("TRUE"), 4, 2),
    ("SUM (", Word("SUM"), 3, 2),
    ("TRUE", Truth(true), 4, 1),
    ("fAlSe", Truth(false), 5, 1),
    ("TRUEA", Word("TRUEA"), 5, 1),
    // Titles before references.
    (
        "x!A1",
        TitledReference("x", Span(0, 1), Span(0, 1), NONE),
        4,
        1,
    ),
    (
        "A1!A1",
        TitledReference("A1", Span(0, 1), Span(0, 1), NONE),
        5,
        1,
    ),
    (
        "TRUE!A1",
        TitledReference("TRUE", Span(0, 1), Span(0, 1), NONE),
        7,
        1,
    ),
    (
        "é.1!A:A",
        TitledReference("é.1", Whole, Span(0, 1), NONE),
        8,
        1,
    ),
    (
        "'x'!A1",
        TitledReference("x", Span(0, 1), Span(0, 1), NONE),
        6,
        1,
    ),
    (
        "'Jon''s'!A:A",
        TitledReference("Jon's", Whole, Span(0, 1), NONE),
        12,
        1,
    ),
    (
        "'a!b'!A1+1",
        TitledReference("a!b", Span(0, 1), Span(0, 1), NONE),
        8,
        3,
    ),
    // Numbers and texts.
    ("0", Number(0), 1, 1),
    ("007", Number(7), 3, 1),
    ("5A", Number(5), 1, 2),
    ("9007199254740992", Number(9007199254740992), 16, 1),
    ("\"a\"\"b\"", Quoted("a\"b"), 6, 1),
    ("\"\"", Quoted(""), 2, 1),
    ("\"A1'!\"", Quoted("A1'!"), 6, 1),
    // Signs.
    ("#REF!", Lost, 5, 1),
    ("#REF!A1", Lost, 5, 2),
    ("<>", Sign(Operator::NotEqual), 2, 1),
    ("< >", Sign(Operator::Less), 1, 2),
    ("<=", Sign(Operator::AtMost), 2, 1),
    (">=", Sign(Operator::AtLeast), 2, 1),
    ("=<", Sign(Operator::Equal), 1, 2),
    (">", Sign(Operator::Greater), 1, 1),
    ("><", Sign(Operator::Greater), 1, 2),
    ("<<=", Sign(Operator::Less), 1, 2),
    ("+", Sign(Operator::Add), 1, 1),
    ("-1", Sign(Operator::Subtract), 1, 2),
    ("**", Sign(Operator::Multiply), 1, 2),
    ("/", Sign(Operator::Divide), 1, 1),
    ("&", Sign(Operator::Join), 1, 1),
    ("(", Open, 1, 1),
    (")", Close, 1, 1),
    (",", Comma, 1, 1),
    // Blanks alone.
    ("", Blank, 0, 0),
    (" ", Blank, 0, 0),
    ("\t\n ", Blank, 0, 0),
    // Nothing fits at some place.
    ("\r", Nothing, 0, 0),
    ("1 \r", Nothing, 0, 0),
    ("A:5", Nothing, 0, 0),
    ("05:7", Nothing, 0, 0),
    ("5:7A", Nothing, 0, 0),
    ("B:A5", Nothing, 0, 0),
    ("A1:B2x", Nothing, 0, 0),
    ("A1:B$", Nothing, 0, 0),
    ("A$", Nothing, 0, 0),
    ("$A", Nothing, 0, 0),
    ("$A$1!", Nothing, 0, 0),
    ("1.5", Nothing, 0, 0),
    ("9007199254740993", Nothing, 0, 0),
    ("99999999999999999999", Nothing, 0, 0),
    ("\"a", Nothing, 0, 0),
    ("\"a\"\"", Nothing, 0, 0),
    ("'x'", Nothing, 0, 0),
    ("'x", Nothing, 0, 0),
    ("''!A1", Nothing, 0, 0),
    ("'x'!A01", Nothing, 0, 0),
    ("x!A01", Nothing, 0, 0),
    ("x!", Nothing, 0, 0),
    ("#REF", Nothing, 0, 0),
    ("{", Nothing, 0, 0),
];

#[test]
fn texts_have_their_tokens(rt: HostRuntime) {
    for row in &TOKENS {
        check(
            &rt,
            &row.0,
            begins_with(rt.alloc(), row.0, row.1, row.2, row.3),
        );
    }
}

/// Whether a text has so many tokens, and at its front the first one.
fn begins_with(alloc: Global, text: &str, first: First, end: usize, count: usize) -> bool {
    match tokens_of(alloc, text) {
        Ok(Some(tokens)) => begin_with(tokens.as_slice(), first, end, count),
        Ok(None) => matches!(first, Nothing),
        Err(_) => false,
    }
}

fn begin_with(tokens: &[Placed], first: First, end: usize, count: usize) -> bool {
    match tokens.first() {
        Some(placed) => {
            (placed.start, placed.end, tokens.len()) == (0, end, count)
                && is_first(&placed.token, first)
        }
        None => matches!(first, Blank),
    }
}

fn is_first(token: &Token, first: First) -> bool {
    match (token, first) {
        (Token::Reference(area), Here(rows, cols, marks)) => is_area(area, rows, cols, marks),
        (Token::TitledReference(own, area), TitledReference(title, rows, cols, marks)) => {
            own.as_str() == title && is_area(area, rows, cols, marks)
        }
        (Token::Function(own), Function(name)) => own.as_str() == name,
        (Token::Word(own), Word(word)) => own.as_str() == word,
        (Token::Truth(own), Truth(truth)) => *own == truth,
        (Token::Number(own), Number(number)) => *own == number,
        (Token::Text(own), Quoted(text)) => own.as_str() == text,
        (Token::Operator(own), Sign(operator)) => *own == operator,
        (Token::Lost, Lost) | (Token::Open, Open) => true,
        (Token::Close, Close) | (Token::Comma, Comma) => true,
        _ => false,
    }
}

fn is_area(area: &MarkedArea, rows: Band, cols: Band, marks: Marks) -> bool {
    *area == MarkedArea { rows, cols, marks }
}

/// Where the tokens of a text begin and end.
static PLACES: [(usize, usize); 6] = [(1, 4), (4, 5), (6, 8), (9, 10), (12, 14), (14, 15)];

#[test]
fn tokens_have_places(rt: HostRuntime) {
    check(&rt, &"places", has_places(rt.alloc(), " SUM( A1 ,\t\né) "));
}

fn has_places(alloc: Global, text: &str) -> bool {
    match tokens_of(alloc, text) {
        Ok(Some(tokens)) => are_placed(tokens.as_slice()),
        _ => false,
    }
}

fn are_placed(tokens: &[Placed]) -> bool {
    tokens.len() == PLACES.len()
        && tokens
            .iter()
            .zip(&PLACES)
            .all(|(placed, place)| (placed.start, placed.end) == *place)
}
