ghost use Rattle.std.specs.Prelude.{◌≡◌, IfOk, IsSomeAnd, OnOk};
ghost use Rattle.cell_calc.specs.Calculated.{IsTableOf};
ghost use Rattle.dimension_ops.specs.Rules.{IsUnlessNoMemory};
ghost use Rattle.world_model.specs.Sound.{place_sheet_with};
ghost use Rattle.values_api.specs.Ranges.{IsThere};
ghost use Rattle.values_api.specs.Sheets.{stored_in};
ghost use Rattle.request_kinds.specs.Telling.{IsDoneTo};
ghost use Rattle.batch_engine.specs.Calls.{IsChange, IsReadOf, IsClearOf, IsWriteOf};
ghost use Rattle.batch_engine.specs.Effects.Effect.{Nothing};
ghost use Rattle.batch_engine.specs.Filtered.{IsShownAs};
ghost use Rattle.batch_engine.specs.Values.{is_columns, axis_or_rows, render_or_formatted, unless_empty, update_of, rule_of, IsShown, IsCleared, IsWritten, IsUpdated, IsUpdate};

use crate::targets::target;
use cell_calc::Table;
use cell_value::{Block, Duplicate, Items, NoMemory, Render, Text};
use dimension_ops::{Book, Rule, RuleOr};
use grid_range::{Area, Axis};
use sheets_json::{Answer, RangeBlock, ShapeFault, ShownRange, Update, ValueRange};
use std::alloc::Global;
use values_api::{
    WrittenCells, calculate_shown, clear_values, range_text, read_values, resolve, updates_once,
    write_values,
};
use world_model::updates_are_changes;

/// What a read of a range is answered.
pub(crate) fn read(
    alloc: Global,
    book: &Book,
    range: &str,
    dimension: Option<Axis>,
    render: Option<Render>,
) -> Result<Answer, RuleOr>
    ensures { IsUnlessNoMemory (λ told. IsReadOf range.now dimension render book.now told Nothing) result }
{
    let mut table = Table::new(alloc);
    let shown = shown(alloc, book, &mut table, range, dimension, render)?;
    Ok(Answer::Read(shown))
}

/// What a read of a range shows. The table comes to tell the values that are shown.
pub(crate) fn shown(
    alloc: Global,
    book: &Book,
    table: &mut Table,
    range: &str,
    dimension: Option<Axis>,
    render: Option<Render>,
) -> Result<ShownRange, RuleOr>
    requires { IsTableOf (stored_in book.now) table.old }
    ensures shown { IsUnlessNoMemory (IsShown dimension render book.now range.now) result }
    ensures table { OnOk result (IsTableOf (stored_in book.now) table.new) }
{
    let (area, _) = resolve(alloc, book, range)?;
    Ok(shown_area(alloc, book, table, &area, dimension, render)?)
}

/// What a read of an area shows. The table comes to tell the values that are shown.
pub(crate) fn shown_area(
    alloc: Global,
    book: &Book,
    table: &mut Table,
    area: &Area,
    dimension: Option<Axis>,
    render: Option<Render>,
) -> Result<ShownRange, NoMemory>
    requires there { IsThere book.now.sheets area.now }
    requires table { IsTableOf (stored_in book.now) table.old }
    ensures shown { IfOk result (IsShownAs (record { dimension = dimension; render = render }) book.now area.now) }
    ensures table { OnOk result (IsTableOf (stored_in book.now) table.new) }
{
    let (axis, render) = (axis_or_rows(dimension), render_or_formatted(render));
    calculate_shown(alloc, book, table, area, render)?;
    let shown = read_values(alloc, book, table, area, is_columns(axis), render)?;
    Ok(ShownRange {
        range: range_text(alloc, book, area)?,
        major_dimension: axis,
        values: unless_empty(shown.values),
    })
}

/// Empties the cells of a range: the answer, and the spreadsheet after it.
pub(crate) fn clear(
    alloc: Global,
    book: &Book,
    user: &str,
    range: &str,
) -> Result<(Answer, Book), RuleOr>
    ensures { IsUnlessNoMemory (IsChange (IsClearOf user.now range.now book.now) book.now) result }
{
    let spreadsheet_id = book.id().duplicate()?;
    let mut after = book.duplicate()?;
    let cleared_range = emptied(alloc, &mut after, user, range)?;
    let answer = Answer::Clear {
        cleared_range,
        spreadsheet_id,
    };
    Ok((answer, after))
}

/// Empties the cells of a range of the spreadsheet: the range as text.
pub(crate) fn emptied(
    alloc: Global,
    book: &mut Book,
    user: &str,
    range: &str,
) -> Result<Text, RuleOr>
    ensures { IsUnlessNoMemory
        (IsDoneTo (IsCleared user.now book.old (Rattle.std.specs.Prelude.Ok range.now)) book.old book.new) result }
{
    updates_are_changes();
    let (area, _) = resolve(alloc, book, range)?;
    let text = range_text(alloc, book, &area)?;
    clear_values(book, user, &area)?;
    Ok(text)
}

/// Writes what a body says to a range: the answer, and the spreadsheet after it.
pub(crate) fn write(
    alloc: Global,
    book: &Book,
    user: &str,
    range: &str,
    values: &Result<ValueRange, ShapeFault>,
) -> Result<(Answer, Book), RuleOr>
    ensures { IsUnlessNoMemory (IsChange (IsWriteOf user.now range.now values.now book.now) book.now) result }
{
    let mut after = book.duplicate()?;
    let (update, _) = written(alloc, &mut after, user, range, values)?;
    Ok((Answer::Write(update), after))
}

/// Writes what a body says to a range of the spreadsheet.
fn written(
    alloc: Global,
    book: &mut Book,
    user: &str,
    range: &str,
    values: &Result<ValueRange, ShapeFault>,
) -> Result<(Update, WrittenCells), RuleOr>
    ensures { IsUnlessNoMemory (IsDoneTo (IsWritten user.now range.now book.old values.now) book.old book.new) result }
{
    match values {
        Ok(values) => {
            let (area, one_cell) = target(alloc, book, range, values.range.as_ref())?;
            put(alloc, book, user, &area, one_cell, &values.block)
        }
        Err(fault) => Err(RuleOr::Rule(rule_of(*fault))),
    }
}

/// Writes values to the range that is said with them.
pub(crate) fn updated(
    alloc: Global,
    book: &mut Book,
    user: &str,
    values: &Result<RangeBlock, ShapeFault>,
) -> Result<(Update, WrittenCells), RuleOr>
    ensures { IsUnlessNoMemory (IsDoneTo (IsUpdated user.now book.old values.now) book.old book.new) result }
{
    match values {
        Ok(values) => {
            let (area, one_cell) = resolve(alloc, book, values.range.as_str())?;
            put(alloc, book, user, &area, one_cell, &values.block)
        }
        Err(fault) => Err(RuleOr::Rule(rule_of(*fault))),
    }
}

/// Writes values to an area of the spreadsheet: what was done, as it is told and as it is counted.
fn put(
    alloc: Global,
    book: &mut Book,
    user: &str,
    area: &Area,
    one_cell: bool,
    block: &Block,
) -> Result<(Update, WrittenCells), RuleOr>
    requires { IsThere book.old.sheets area.now }
    ensures { IsSomeAnd (place_sheet_with area.now.sheet book.old.sheets) (λ sheet. IsUnlessNoMemory
        (IsDoneTo (IsUpdate user.now book.old block.now (area.now, one_cell) sheet) book.old book.new) result) }
{
    updates_are_changes();
    updates_once();
    let written = write_values(alloc, book, user, area, one_cell, block)?;
    Ok((update_of(alloc, book, &written)?, written))
}

/// What a write did, as it is told.
pub(crate) fn update_of(
    alloc: Global,
    book: &Book,
    written: &WrittenCells,
) -> Result<Update, NoMemory>
    requires { IsThere book.now.sheets written.now.area }
    ensures { IfOk result (λ update. IsSomeAnd (place_sheet_with written.now.area.sheet book.now.sheets)
        (λ sheet. update ≡ update_of book.now sheet written.now)) }
{
    Ok(Update {
        spreadsheet_id: book.id().duplicate()?,
        updated_cells: written.cells,
        updated_columns: written.cols.as_slice().len() as u64,
        updated_range: range_text(alloc, book, &written.area)?,
        updated_rows: written.rows.as_slice().len() as u64,
    })
}

/// The rule that a shape breaks.
pub(crate) fn rule_of(fault: ShapeFault) -> Rule
    ensures { result ≡ rule_of fault }
{
    match fault {
        ShapeFault::BadShape => Rule::BadShape,
        ShapeFault::Unsupported => Rule::Unsupported,
        ShapeFault::BadNumber => Rule::BadNumber,
        ShapeFault::TextLong => Rule::TextLong,
    }
}

/// The dimension that is asked for, and rows where none is.
fn axis_or_rows(dimension: Option<Axis>) -> Axis
    ensures { result ≡ axis_or_rows dimension }
{
    dimension.unwrap_or(Axis::Rows)
}

/// How it is asked to show cells, and as texts where nothing is asked for.
fn render_or_formatted(render: Option<Render>) -> Render
    ensures { result ≡ render_or_formatted render }
{
    render.unwrap_or(Render::Formatted)
}

/// Whether the inner lists are columns.
fn is_columns(axis: Axis) -> bool
    ensures { result ≡ is_columns axis }
{
    axis == Axis::Columns
}

/// The list, unless it is empty.
pub(crate) fn unless_empty<T: Drop>(list: Items<T>) -> Option<Items<T>>
    ensures { result ≡ unless_empty list }
{
    if list.as_slice().is_empty() {
        None
    } else {
        Some(list)
    }
}
