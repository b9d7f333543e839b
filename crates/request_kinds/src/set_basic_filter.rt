ghost use Rattle.std.specs.Prelude.{◌≡◌, Ok, Some, IfOk, IsSomeAnd, nat_le, not};
ghost use Rattle.std.specs.List.{list_any};
ghost use Rattle.dimension_ops.specs.Broken.{judged_by};
ghost use Rattle.dimension_ops.specs.Rules.{IsUnlessNoMemory};
ghost use Rattle.merge_ranges.specs.Tests.{has_line};
ghost use Rattle.world_model.specs.Sound.{IsFilterOf, place_sheet_with};
ghost use Rattle.request_kinds.specs.Telling.{IsDoneTo};
ghost use Rattle.request_kinds.specs.Rows.{cut_on};
ghost use Rattle.request_kinds.specs.SetBasicFilter.{asks_outside, asks_past, basic_filter_set, broken_by_filter, put_on};

use crate::areas::is_reversed;
use basic_filter::{Criterion, Filter};
use cell_value::Duplicate;
use dimension_ops::{Book, Rule, RuleOr, Sheet};
use grid_range::{Area, Band};
use sheets_json::Reply;

/// Gives the sheet of the filter's range the filter, in the place of the one that it has.
pub(crate) fn set_basic_filter(book: &mut Book, asked: &Filter) -> Result<Reply, RuleOr>
    ensures { IsUnlessNoMemory
        (IsDoneTo (λ told. told ≡ basic_filter_set asked.now book.old.sheets) book.old book.new) result }
{
    match judge(book, asked) {
        Ok(area) => put(book, asked, area),
        Err(rule) => Err(RuleOr::Rule(rule)),
    }
}

/// The filter's range, cut at the grid of its sheet.
///
/// # Errors
///
/// [`Rule::NoSheet`] where no sheet has its id, [`Rule::BadRange`] where a start isn't below its end or a criterion
/// is of a column that the range doesn't have, [`Rule::OutsideGrid`] where its first row or its first column, or the
/// column of a criterion, isn't there.
fn judge(book: &Book, asked: &Filter) -> Result<Area, Rule>
    ensures judged { result ≡ judged_by
        (broken_by_filter (place_sheet_with asked.now.area.sheet book.now.sheets) asked.now)
        (cut_on (place_sheet_with asked.now.area.sheet book.now.sheets) asked.now.area) }
    ensures of { IfOk result (λ area. IsSomeAnd (place_sheet_with asked.now.area.sheet book.now.sheets)
        (λ sheet. IsFilterOf sheet (record asked.now { area = area }))) }
{
    match book.sheet(asked.area.sheet) {
        Some(sheet) => judge_on(sheet, asked),
        None => Err(Rule::NoSheet),
    }
}

/// The same on the sheet that has the id of the range.
fn judge_on(sheet: &Sheet, asked: &Filter) -> Result<Area, Rule>
    requires { asked.now.area.sheet ≡ sheet.now.id }
    ensures judged { result ≡ judged_by
        (broken_by_filter (Some sheet.now) asked.now) (cut_on (Some sheet.now) asked.now.area) }
    ensures of { IfOk result (λ area. IsFilterOf sheet.now (record asked.now { area = area })) }
{
    if is_reversed(asked.area.rows) || is_reversed(asked.area.cols) || asks_outside(asked) {
        return Err(Rule::BadRange);
    }
    if asks_past(asked, sheet) {
        return Err(Rule::OutsideGrid);
    }
    match asked.area.clip(sheet.rows(), sheet.cols()) {
        Some(clipped) => Ok(clipped),
        None => Err(Rule::OutsideGrid),
    }
}

/// Whether some criterion is of a column that the range doesn't have.
fn asks_outside(asked: &Filter) -> bool
    ensures { result ≡ asks_outside asked.now }
{
    is_one_outside(asked.area.cols, asked.criteria.as_slice())
}

/// Whether one of the criteria is of a column that the band doesn't have.
fn is_one_outside(cols: Band, criteria: &[Criterion]) -> bool
    ensures { result ≡ list_any (λ criterion. not (has_line cols criterion.column)) criteria.now }
{
    criteria.iter().any(|criterion| is_outside(cols, criterion))
}

/// Whether the criterion is of a column that the band doesn't have.
fn is_outside(cols: Band, criterion: &Criterion) -> bool
    ensures { result ≡ not (has_line cols criterion.now.column) }
{
    !has_line(cols, criterion.column)
}

/// Whether some criterion is of a column that the sheet doesn't have.
fn asks_past(asked: &Filter, sheet: &Sheet) -> bool
    ensures { result ≡ asks_past asked.now sheet.now }
{
    is_one_past(sheet.cols(), asked.criteria.as_slice())
}

/// Whether one of the criteria is of a column that isn't among so many.
fn is_one_past(count: u32, criteria: &[Criterion]) -> bool
    ensures { result ≡ list_any (λ criterion. nat_le count criterion.column) criteria.now }
{
    criteria.iter().any(|criterion| is_past(count, criterion))
}

/// Whether the criterion is of a column that isn't among so many.
fn is_past(count: u32, criterion: &Criterion) -> bool
    ensures { result ≡ nat_le count criterion.now.column }
{
    count <= criterion.column
}

/// Whether the band has the line.
fn has_line(band: Band, line: u32) -> bool
    ensures { result ≡ has_line band line }
{
    match band {
        Band::Whole => true,
        Band::From(start) => start <= line,
        Band::Span(start, end) => start <= line && line < end,
    }
}

/// Gives the sheet of the filter's range the filter with the range that is cut.
fn put(book: &mut Book, asked: &Filter, area: Area) -> Result<Reply, RuleOr>
    requires { IsSomeAnd (place_sheet_with asked.now.area.sheet book.old.sheets)
        (λ sheet. IsFilterOf sheet (record asked.now { area = area })) }
    ensures { IsUnlessNoMemory (IsDoneTo (λ told. told ≡ Ok (put_on asked.now area)) book.old book.new) result }
{
    let criteria = asked.criteria.duplicate()?;
    book.set_filter(asked.area.sheet, Some(Filter { area, criteria }))?;
    Ok(Reply::Empty)
}
