ghost use Rattle.std.specs.Prelude.{ℕ, IfSome, IfNone};

use crate::class::Class;
use crate::column::capped_column;
use crate::row::read_row;

/// What stands before or behind the colon of an area, or alone. Rows and columns are counted from 0.
#[derive(Clone, Copy, Debug, PartialEq, Eq)]
pub enum Corner {
    /// A row and a column.
    Cell(u32, u32),
    /// A column, with all its rows or without an end.
    Column(u32),
    /// A row, with all its columns.
    Row(u32),
}

impl Corner {
    ghost use Rattle.a1_notation.specs.Area.{IsCorner};
    ghost use Rattle.a1_notation.specs.Capped.{IsCappedCorner};

    /// The corner that a text is; a column past `ZZZ` is `NAMED_COLUMNS`.
    pub(crate) fn read(text: &str) -> Option<Corner>
        ensures corner { IfSome result (IsCappedCorner text.now) }
        ensures none { IfNone result ((most : ℕ) (corner : Corner) → ¬ (IsCorner most text.now corner)) }
    {
        let (letters, digits) = Class::Letter.split(text);
        if letters.is_empty() {
            return Some(Corner::Row(read_row(digits)?));
        }
        let column = capped_column(letters.as_bytes());
        if digits.is_empty() {
            return Some(Corner::Column(column));
        }
        Some(Corner::Cell(read_row(digits)?, column))
    }
}
