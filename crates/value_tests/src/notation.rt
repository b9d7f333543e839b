ghost use Rattle.std.specs.Prelude.{IsTrue};
ghost use Rattle.a1_notation.specs.Canonical.{IsStretch};

use crate::common::check;
use Reading::{Cells, Fault, Sheet, Word};
use a1_notation::{
    A1, A1Fault, NAMED_COLUMNS, NUMBERED_ROWS, Part, column_text, quote_name, read_a1, read_column,
    write_a1,
};
use cell_value::{NoMemory, Text};
use grid_range::Band::{self, From, Span, Whole};
use std::alloc::Global;

/// What a range text is read as: cells of the sheet with the title, or of none where it is empty, a
/// whole sheet, a word, or a fault.
#[derive(Clone, Copy)]
enum Reading {
    Cells(&'static str, Band, Band),
    Sheet(&'static str),
    Word(&'static str),
    Fault(A1Fault),
}

/// Range texts, and what each is read as.
static READ: [(&str, Reading); 54] = [
    // The five forms of areas.
    ("B2", Cells("", Span(1, 2), Span(1, 2))),
    ("A1:B2", Cells("", Span(0, 2), Span(0, 2))),
    ("A:B", Cells("", Whole, Span(0, 2))),
    ("1:2", Cells("", Span(0, 2), Whole)),
    ("A5:B", Cells("", From(4), Span(0, 2))),
    ("A1:B", Cells("", From(0), Span(0, 2))),
    // Behind a title.
    ("Sheet1!A1:B2", Cells("Sheet1", Span(0, 2), Span(0, 2))),
    ("Sheet1!A:A", Cells("Sheet1", Whole, Span(0, 1))),
    ("Sheet1!1:2", Cells("Sheet1", Span(0, 2), Whole)),
    ("Sheet1!A5:A", Cells("Sheet1", From(4), Span(0, 1))),
    (
        "'My Custom Sheet'!A:A",
        Cells("My Custom Sheet", Whole, Span(0, 1)),
    ),
    ("Class Data!A2:E", Cells("Class Data", From(1), Span(0, 5))),
    ("'a''b'!A1", Cells("a'b", Span(0, 1), Span(0, 1))),
    ("'a!b'!A1", Cells("a!b", Span(0, 1), Span(0, 1))),
    ("Größe!A1", Cells("Größe", Span(0, 1), Span(0, 1))),
    // Either case, either order, and the last cell.
    ("a1:b2", Cells("", Span(0, 2), Span(0, 2))),
    ("B2:A1", Cells("", Span(0, 2), Span(0, 2))),
    ("A2:B1", Cells("", Span(0, 2), Span(0, 2))),
    ("2:1", Cells("", Span(0, 2), Whole)),
    ("XFD1:A1", Cells("", Span(0, 1), Span(0, 16384))),
    (
        "ZZZ9999999",
        Cells("", Span(9999998, 9999999), Span(18277, 18278)),
    ),
    // Whole sheets and words.
    ("'Sheet1'", Sheet("Sheet1")),
    ("'a!b'", Sheet("a!b")),
    ("''''", Sheet("'")),
    ("'日本'", Sheet("日本")),
    ("Sheet1", Word("Sheet1")),
    ("$A$1", Word("$A$1")),
    ("A0", Word("A0")),
    ("A01", Word("A01")),
    ("A1B", Word("A1B")),
    ("A12345678", Word("A12345678")),
    ("AAAA1", Word("AAAA1")),
    ("1:A", Word("1:A")),
    ("A:1", Word("A:1")),
    ("A:B5", Word("A:B5")),
    ("A1:B2:C3", Word("A1:B2:C3")),
    ("Größe", Word("Größe")),
    // No range.
    ("", Fault(A1Fault::NotA1)),
    ("'", Fault(A1Fault::NotA1)),
    ("''", Fault(A1Fault::NotA1)),
    ("'''", Fault(A1Fault::NotA1)),
    ("''!A1", Fault(A1Fault::NotA1)),
    ("'a'b", Fault(A1Fault::NotA1)),
    ("a'b", Fault(A1Fault::NotA1)),
    ("!A1", Fault(A1Fault::NotA1)),
    ("A1!", Fault(A1Fault::NotA1)),
    ("Sheet1!B2!A1", Fault(A1Fault::NotA1)),
    ("Sheet1!A01", Fault(A1Fault::NotA1)),
    ("Sheet1!$A$1", Fault(A1Fault::NotA1)),
    ("Sheet1!A12345678", Fault(A1Fault::NotA1)),
    ("Sheet1!AAAA:1", Fault(A1Fault::NotA1)),
    // A column past ZZZ.
    ("Sheet1!AAAA1", Fault(A1Fault::PastZZZ)),
    ("Sheet1!A1:AAAA", Fault(A1Fault::PastZZZ)),
    ("'a b'!AAAAAAAAAAAAAAAAAAAA:B", Fault(A1Fault::PastZZZ)),
];

#[test]
fn texts_are_read(rt: HostRuntime) {
    for row in &READ {
        check(&rt, &row.0, is_read(rt.alloc(), row.0, row.1));
    }
}

fn is_read(alloc: Global, text: &str, reading: Reading) -> bool {
    match read_a1(alloc, text) {
        Ok(range) => is_range(&range, reading),
        Err(fault) => match reading {
            Fault(expected) => fault == expected,
            _ => false,
        },
    }
}

fn is_range(range: &A1, reading: Reading) -> bool {
    match (&range.part, reading) {
        (Part::Cells(rows, cols), Cells(title, expected_rows, expected_cols)) => {
            is_title(&range.sheet, title) && *rows == expected_rows && *cols == expected_cols
        }
        (Part::WholeSheet, Sheet(title)) => is_title(&range.sheet, title),
        (Part::Word(word), Word(expected)) => range.sheet.is_none() && word.as_str() == expected,
        _ => false,
    }
}

/// Whether that is the title; none stands for an empty one.
fn is_title(title: &Option<Text>, expected: &str) -> bool {
    match title {
        Some(title) => !expected.is_empty() && title.as_str() == expected,
        None => expected.is_empty(),
    }
}

/// Columns, and their letters.
static COLUMNS: [(u32, &str); 8] = [
    (0, "A"),
    (25, "Z"),
    (26, "AA"),
    (51, "AZ"),
    (52, "BA"),
    (701, "ZZ"),
    (702, "AAA"),
    (18_277, "ZZZ"),
];

/// Texts, and the columns that they name.
static LETTERS: [(&str, Option<u32>); 6] = [
    ("aZ", Some(51)),
    ("", None),
    ("A1", None),
    ("AAAA", None),
    ("Ä", None),
    (" A", None),
];

#[test]
fn columns_have_letters(rt: HostRuntime) {
    for row in &COLUMNS {
        check(&rt, &row.0, has_letters(rt.alloc(), row.0, row.1));
        check(&rt, &row.0, read_column(row.1) == Some(row.0));
    }
    for row in &LETTERS {
        check(&rt, &row.0, read_column(row.0) == row.1);
    }
}

fn has_letters(alloc: Global, column: u32, letters: &str) -> bool {
    if column >= NAMED_COLUMNS {
        return false;
    }
    match column_text(alloc, column) {
        Ok(text) => text.as_str() == letters,
        Err(NoMemory) => false,
    }
}

/// Titles, rows and columns, and the text of each area.
static WRITTEN: [(&str, (u32, u32), (u32, u32), &str); 4] = [
    ("Sheet1", (1, 2), (1, 2), "Sheet1!B2"),
    ("Sheet1", (0, 1_000), (0, 26), "Sheet1!A1:Z1000"),
    ("Jon's data", (0, 1_000), (0, 1), "'Jon''s data'!A1:A1000"),
    (
        "_1",
        (9_999_998, 9_999_999),
        (18_276, 18_278),
        "_1!ZZY9999999:ZZZ9999999",
    ),
];

#[test]
fn areas_are_written(rt: HostRuntime) {
    for row in &WRITTEN {
        check(
            &rt,
            &row.3,
            is_written(rt.alloc(), row.0, row.1, row.2, row.3),
        );
    }
}

/// Whether the area, which A1 notation has, has the text.
fn is_written(
    alloc: Global,
    title: &str,
    rows: (u32, u32),
    cols: (u32, u32),
    wanted: &str,
) -> bool {
    if title.is_empty() || !is_stretch(rows, NUMBERED_ROWS) || !is_stretch(cols, NAMED_COLUMNS) {
        return false;
    }
    match write_a1(alloc, title, rows, cols) {
        Ok(text) => text.as_str() == wanted,
        Err(NoMemory) => false,
    }
}

fn is_stretch(lines: (u32, u32), count: u32) -> bool
    ensures { IsTrue result → IsStretch lines count }
{
    lines.0 < lines.1 && lines.1 <= count
}

/// Titles, and how each is printed.
static TITLES: [(&str, &str); 6] = [
    ("Sheet1", "Sheet1"),
    ("_9", "_9"),
    ("9a", "'9a'"),
    ("Class Data", "'Class Data'"),
    ("Größe", "'Größe'"),
    ("'", "''''"),
];

#[test]
fn titles_are_quoted(rt: HostRuntime) {
    for row in &TITLES {
        check(&rt, &row.0, is_quoted(rt.alloc(), row.0, row.1));
    }
}

fn is_quoted(alloc: Global, title: &str, wanted: &str) -> bool {
    match quote_name(alloc, title) {
        Ok(text) => text.as_str() == wanted,
        Err(NoMemory) => false,
    }
}

/// Faults, and what is printed of them.
static FAULTS: [(A1Fault, &str); 2] = [
    (A1Fault::NotA1, "no range in A1 notation"),
    (A1Fault::PastZZZ, "a column past ZZZ"),
];

#[test]
fn faults_are_printed(rt: HostRuntime) {
    for row in &FAULTS {
        check(&rt, &row.1, is_printed(rt.alloc(), row.0, row.1));
    }
}

fn is_printed(alloc: Global, fault: A1Fault, wanted: &str) -> bool {
    match format!(in alloc; "{fault}") {
        Ok(text) => text.as_str() == wanted,
        Err(_) => false,
    }
}
