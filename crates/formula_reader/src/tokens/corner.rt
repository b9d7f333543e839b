ghost use Rattle.std.specs.Prelude.{◌≡◌, Some, None, if◌then◌else◌};
ghost use Rattle.a1_notation.specs.Run.{begins};
ghost use Rattle.formula_reader.specs.Corner.{marked_text};
ghost use Rattle.formula_reader.specs.Parts.{is_dollar};
ghost use Rattle.formula_reader.specs.Reference.{is_joined};
ghost use Rattle.formula_reader.specs.Reading.{Reads, seen};

use a1_notation::{Class, read_column, read_row};

/// A column or a row as it is written, behind a `$` or without one.
#[derive(Clone, Copy)]
pub(crate) struct Coordinate {
    /// The column or the row, counted from 0.
    pub(crate) line: u32,
    /// Whether a `$` stands before it.
    pub(crate) marked: bool,
}

/// What stands before or behind the colon of a reference, or alone.
#[derive(Clone, Copy)]
pub(crate) enum MarkedCorner {
    /// A row and a column.
    Cell(Coordinate, Coordinate),
    /// A column, with all its rows or without an end.
    Column(Coordinate),
    /// A row, with all its columns.
    Row(Coordinate),
}

impl Coordinate {
    ghost use Rattle.formula_reader.specs.Parts.{IsWholeColumn, IsWholeRow};

    /// The column that stands at the front of a text, with all the letters there.
    fn read_column(text: &str) -> Option<(Coordinate, &str)>
        ensures { Reads IsWholeColumn text.now (seen result) }
    {
        let (marked, behind) = split_mark(text);
        let (letters, rest) = Class::Letter.split(behind);
        let line = read_column(letters)?;
        Some((Coordinate { line, marked }, rest))
    }

    /// The row that stands at the front of a text, with all the digits there.
    fn read_row(text: &str) -> Option<(Coordinate, &str)>
        ensures { Reads IsWholeRow text.now (seen result) }
    {
        let (marked, behind) = split_mark(text);
        let (digits, rest) = Class::Digit.split(behind);
        let line = read_row(digits)?;
        Some((Coordinate { line, marked }, rest))
    }
}

impl MarkedCorner {
    ghost use Rattle.formula_reader.specs.Corner.{unmarked, row_of, column_of};
    ghost use Rattle.formula_reader.specs.Parts.{IsStandingCorner};

    /// The corner that stands alone at the front of a text.
    pub(crate) fn read(text: &str) -> Option<(MarkedCorner, &str)>
        ensures { Reads IsStandingCorner text.now (seen result) }
    {
        match Coordinate::read_column(text) {
            None => {
                let (row, rest) = Coordinate::read_row(text)?;
                standing(MarkedCorner::Row(row), rest)
            }
            Some((column, behind)) => match Coordinate::read_row(behind) {
                None => standing(MarkedCorner::Column(column), behind),
                Some((row, rest)) => standing(MarkedCorner::Cell(row, column), rest),
            },
        }
    }

    /// The corner without its marks.
    pub(crate) fn unmarked(self) -> a1_notation::Corner
        ensures { result ≡ unmarked self }
    {
        match self {
            MarkedCorner::Cell(row, column) => a1_notation::Corner::Cell(row.line, column.line),
            MarkedCorner::Column(column) => a1_notation::Corner::Column(column.line),
            MarkedCorner::Row(row) => a1_notation::Corner::Row(row.line),
        }
    }

    /// Its row, where it has one.
    pub(crate) fn row(self) -> Option<Coordinate>
        ensures { result ≡ row_of self }
    {
        match self {
            MarkedCorner::Cell(row, _) | MarkedCorner::Row(row) => Some(row),
            MarkedCorner::Column(_) => None,
        }
    }

    /// Its column, where it has one.
    pub(crate) fn column(self) -> Option<Coordinate>
        ensures { result ≡ column_of self }
    {
        match self {
            MarkedCorner::Cell(_, column) | MarkedCorner::Column(column) => Some(column),
            MarkedCorner::Row(_) => None,
        }
    }
}

/// Whether a `$` stands at the front of a text, and what stands behind it.
fn split_mark(text: &str) -> (bool, &str)
    ensures whole { text.now ≡ marked_text result.0 result.1.now }
    ensures mark { result.0 ≡ begins is_dollar text.now }
{
    match text.strip_prefix('$') {
        Some(behind) => (true, behind),
        None => (false, text),
    }
}

/// A corner before a rest that doesn't go on with it: None before an ASCII letter, a digit, `_`, `.`,
/// `$` or `!`.
fn standing(corner: MarkedCorner, rest: &str) -> Option<(MarkedCorner, &str)>
    ensures { seen result ≡ (if begins is_joined rest.now then None else Some (corner, rest.now)) }
{
    match rest.as_bytes() {
        [first, ..] if is_joined(*first) => None,
        _ => Some((corner, rest)),
    }
}

/// Whether a byte goes on with what stands before it: an ASCII letter, a digit, `_`, `.`, `$` or `!`.
fn is_joined(byte: u8) -> bool
    ensures { result ≡ is_joined byte }
{
    byte.is_ascii_alphanumeric() || matches!(byte, b'_' | b'.' | b'$' | b'!')
}
