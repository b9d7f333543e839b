ghost use Rattle.std.specs.Prelude.{◌≡◌, ◌↔◌, ℕ, IfSome, IfNone, IfOk, OnErr, IsTrue};
ghost use Rattle.grid_range.specs.declared.band.Band.{Band};
ghost use Rattle.a1_notation.specs.Area.{IsArea, IsOneCell, IsBetween, area_between, lines_between};
ghost use Rattle.a1_notation.specs.Room.{HasNext, HasRoom};
ghost use Rattle.a1_notation.specs.Capped.{IsCappedArea, IsCappedBetween, ArePastZZZ};

use crate::a1::A1Fault;
use crate::column::NAMED_COLUMNS;
use crate::corner::Corner;
use grid_range::Band;

/// The rows and the columns of the area that a text is, as `A1`, `A1:B2`, `A:B`, `1:2` or `A5:B`.
pub(crate) fn read_area(text: &str) -> Result<(Band, Band), A1Fault>
    ensures area { IfOk result (λ area. IsArea 3 text.now area.0 area.1) }
    ensures none { OnErr result ((rows columns : Band) → ¬ (IsArea 3 text.now rows columns)) }
    ensures not_a1 { result ≡ Err A1Fault.NotA1 →
        (most : ℕ) (rows columns : Band) → ¬ (IsArea most text.now rows columns) }
    ensures past { result ≡ Err A1Fault.PastZZZ →
        (most : ℕ) × (rows : Band) × (columns : Band) × IsArea most text.now rows columns }
{
    let Some((rows, columns)) = read_capped(text) else {
        return Err(A1Fault::NotA1);
    };
    if is_past_zzz(columns) {
        return Err(A1Fault::PastZZZ);
    }
    Ok((rows, columns))
}

/// The area that a text is; a column past `ZZZ` counts as `NAMED_COLUMNS`.
fn read_capped(text: &str) -> Option<(Band, Band)>
    ensures area { IfSome result (λ area. IsCappedArea text.now area.0 area.1) }
    ensures none { IfNone result ((most : ℕ) (rows columns : Band) → ¬ (IsArea most text.now rows columns)) }
{
    match text.split_once(':') {
        Some((first, second)) => read_between(first, second),
        None => read_cell(text),
    }
}

/// The area between two corners; a column past `ZZZ` counts as `NAMED_COLUMNS`.
fn read_between(first: &str, second: &str) -> Option<(Band, Band)>
    ensures area { IfSome result (λ area. IsCappedBetween first.now second.now area.0 area.1) }
    ensures none { IfNone result ((most : ℕ) (rows columns : Band) →
        ¬ (IsBetween most first.now second.now rows columns)) }
{
    let one = Corner::read(first)?;
    let other = Corner::read(second)?;
    area_between(one, other)
}

/// The area of one cell; a column past `ZZZ` counts as `NAMED_COLUMNS`.
fn read_cell(text: &str) -> Option<(Band, Band)>
    ensures area { IfSome result (λ area. IsCappedArea text.now area.0 area.1) }
    ensures none { IfNone result ((most : ℕ) (rows columns : Band) →
        ¬ (IsOneCell most text.now rows columns)) }
{
    let corner = Corner::read(text)?;
    match corner {
        Corner::Cell(_, _) => area_between(corner, corner),
        Corner::Column(_) | Corner::Row(_) => None,
    }
}

/// The rows and the columns between two corners; None where the corners don't go together: two cells, two
/// columns or two rows do, and a cell before a column, whose rows have no end.
pub fn area_between(one: Corner, other: Corner) -> Option<(Band, Band)>
    requires one { HasRoom one }
    requires other { HasRoom other }
    ensures { result ≡ area_between one other }
{
    match (one, other) {
        (Corner::Cell(row, column), Corner::Cell(last_row, last_column)) => Some((
            lines_between(row, last_row),
            lines_between(column, last_column),
        )),
        (Corner::Cell(row, column), Corner::Column(last)) => {
            Some((Band::From(row), lines_between(column, last)))
        }
        (Corner::Column(column), Corner::Column(last)) => {
            Some((Band::Whole, lines_between(column, last)))
        }
        (Corner::Row(row), Corner::Row(last)) => Some((lines_between(row, last), Band::Whole)),
        _ => None,
    }
}

/// The lines from one to another, in either order.
fn lines_between(one: u32, other: u32) -> Band
    requires one { HasNext one }
    requires other { HasNext other }
    ensures { result ≡ lines_between one other }
{
    Band::Span(one.min(other), one.max(other) + 1)
}

/// Whether columns reach past `ZZZ`.
fn is_past_zzz(columns: Band) -> bool
    ensures { IsTrue result ↔ ArePastZZZ columns }
{
    matches!(columns, Band::Span(_, end) if end > NAMED_COLUMNS)
}
