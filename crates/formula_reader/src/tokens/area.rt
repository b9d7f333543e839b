ghost use Rattle.std.specs.Prelude.{◌≡◌, IfSome, IfNone};
ghost use Rattle.a1_notation.specs.Room.{HasNext, HasRoom};
ghost use Rattle.formula_reader.specs.declared.tokens.token.MarkedArea.{MarkedArea};
ghost use Rattle.formula_reader.specs.Corner.{AreCornersOf, IsCellOf, unmarked, marks_in_order, marks_of};

use super::corner::{Coordinate, MarkedCorner};
use super::token::MarkedArea;
use a1_notation::area_between;
use grid_range::Band;
use ref_rewrite::Marks;

/// What two corners name; None where they don't go together.
pub(crate) fn written_between(one: MarkedCorner, other: MarkedCorner) -> Option<MarkedArea>
    requires one { HasRoom (unmarked one) }
    requires other { HasRoom (unmarked other) }
    ensures found { IfSome result (AreCornersOf one other) }
    ensures none { IfNone result ((written : MarkedArea) → ¬ (AreCornersOf one other written)) }
{
    let (rows, cols) = area_between(one.unmarked(), other.unmarked())?;
    let marks = marks_of(
        marks_in_order(one.row(), other.row()),
        marks_in_order(one.column(), other.column()),
    );
    Some(MarkedArea { rows, cols, marks })
}

/// What a cell alone names.
pub(crate) fn written_cell(row: Coordinate, column: Coordinate) -> MarkedArea
    requires row { HasNext row.line }
    requires column { HasNext column.line }
    ensures { IsCellOf row column result }
{
    MarkedArea {
        rows: Band::Span(row.line, row.line + 1),
        cols: Band::Span(column.line, column.line + 1),
        marks: marks_of((row.marked, false), (column.marked, false)),
    }
}

/// The marks of the first and of the second of two coordinates: the lesser is the first, and of equal
/// ones the one that is written first. One that isn't written has no mark.
fn marks_in_order(one: Option<Coordinate>, other: Option<Coordinate>) -> (bool, bool)
    ensures { result ≡ marks_in_order one other }
{
    match (one, other) {
        (Some(one), Some(other)) if other.line < one.line => (other.marked, one.marked),
        (Some(one), Some(other)) => (one.marked, other.marked),
        (Some(one), None) => (one.marked, false),
        (None, Some(other)) => (false, other.marked),
        (None, None) => (false, false),
    }
}

/// The marks of the rows and of the columns.
fn marks_of(rows: (bool, bool), columns: (bool, bool)) -> Marks
    ensures { result ≡ marks_of rows columns }
{
    Marks {
        row1: rows.0,
        col1: columns.0,
        row2: rows.1,
        col2: columns.1,
    }
}
