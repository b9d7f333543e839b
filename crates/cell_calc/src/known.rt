ghost use Rattle.std.specs.Prelude.{◌≡◌, ◌+◌, ◌-◌, ◌*◌, ◌++◌, IfOk, OnOk, Option, Some, map, flat_map, unwrap_or};
ghost use Rattle.std.specs.Option.{option_copied};
ghost use Rattle.cell_value.specs.declared.cell.Value.{Value};
ghost use Rattle.cell_value.specs.declared.cell.Value.TheVariants.{Blank};
ghost use Rattle.grid_range.specs.Band.{first_line, end_line};
ghost use Rattle.cell_calc.specs.Book.{Place};
ghost use Rattle.cell_calc.specs.Lent.{place_and_value, value_held};
ghost use Rattle.cell_calc.specs.Known.{book_read, cell_read, filled_at, place_among, value_known, value_read, value_stored};

use crate::arguments::{AreaCells, FilledCell, HeldValue};
use crate::cells::{CellsOf, StoredCell};
use crate::functions::{is_blank, value_of_cells};
use crate::reader::CellReader;
use crate::stored_cells::{only_cell, stored_cells};
use cell_value::{Duplicate, NoMemory, Value};
use grid_range::{Area, Band};
use ref_rewrite::Content;
use std::alloc::Global;

/// Values by their places.
pub trait ValuesOf {
    /// The value that is known in a place.
    ghost known: { Self → Place → Option Value };

    /// The value in the place, lent; None where none is known.
    fn known_value(&self, sheet: u32, row: u32, column: u32) -> Option<&Value>
        ensures { option_copied result
            ≡ known self.now (record { sheet = sheet; row = row; column = column }) };
}

/// The cells of a spreadsheet with the values that are known of them.
#[derive(Drop)]
pub struct KnownCells<'a, C, V> {
    /// What is stored.
    pub cells: &'a C,
    /// The values that are known.
    pub values: &'a V,
}

impl<'a, C: CellsOf, V: ValuesOf> CellReader for KnownCells<'a, C, V> {
    ghost book = { λ reader. book_read (C.contents reader.cells.now) (V.known reader.values.now) };

    ghost read = { λ reader. value_read (C.contents reader.cells.now) (V.known reader.values.now) };

    fn cells(&self, alloc: Global, area: &Area) -> Result<AreaCells<'_>, NoMemory> {
        self.cells.stay_sound();
        let (rows, columns) = self.cells.size(area.sheet).unwrap_or((0, 0));
        let columns = line_count(area.cols, columns);
        let stored = stored_cells(alloc, self.cells, area)?;
        let filled = filled_cells(alloc, self.values, area, columns, stored.as_slice())?;
        Ok(AreaCells {
            rows: line_count(area.rows, rows),
            columns,
            filled,
        })
    }

    fn value_alone(&self, alloc: Global, area: &Area) -> Result<Value, NoMemory> {
        match only_cell(area) {
            Some((row, column)) => value_at(self.cells, self.values, area.sheet, row, column),
            None => value_of_cells(&self.cells(alloc, area)?),
        }
    }

    fn named(&self, word: &str) -> Option<Area> {
        self.cells.name(word)
    }
}

/// How many lines the band has among `count` lines.
fn line_count(band: Band, count: u32) -> u32
    ensures { result ≡ end_line band count - first_line band }
{
    band.end_line(count).saturating_sub(band.first_line())
}

/// Those of the cells of the area's sheet whose values are known and aren't blank, with their places among the cells
/// of the area.
fn filled_cells<'a, V: ValuesOf>(
    alloc: Global,
    values: &'a V,
    area: &Area,
    columns: u32,
    cells: &[StoredCell<'_>],
) -> Result<Vec<FilledCell<'a>>, NoMemory>
    ensures { IfOk result (λ filled. map place_and_value filled.items
        ≡ flat_map (cell_read (V.known values.now) area.now columns) cells.now) }
{
    let mut filled = Vec::new(alloc);
    for cell in cells {
        add_cell(&mut filled, values, area, columns, cell)?;
    }
    Ok(filled)
}

/// Puts the cell behind others, if its value is known and isn't blank.
fn add_cell<'a, V: ValuesOf>(
    filled: &mut Vec<FilledCell<'a>>,
    values: &'a V,
    area: &Area,
    columns: u32,
    cell: &StoredCell<'_>,
) -> Result<(), NoMemory>
    ensures { OnOk result (map place_and_value filled.new.items
        ≡ map place_and_value filled.old.items ++ cell_read (V.known values.now) area.now columns cell.now) }
{
    let value = value_in(values, area.sheet, cell)?;
    add_filled(
        filled,
        place_among(area, columns, cell.row, cell.column),
        value,
    )
}

/// The value that is read in a place.
fn value_at<C: CellsOf, V: ValuesOf>(
    cells: &C,
    values: &V,
    sheet: u32,
    row: u32,
    column: u32,
) -> Result<Value, NoMemory>
    ensures { IfOk result (λ value. value ≡ value_read (C.contents cells.now) (V.known values.now)
        (record { sheet = sheet; row = row; column = column })) }
{
    match cells.content(sheet, row, column) {
        Some(content) => {
            let cell = StoredCell {
                row,
                column,
                content,
            };
            value_in(values, sheet, &cell)?.into_value()
        }
        None => Ok(Value::Blank),
    }
}

/// What is stored in the cell of the sheet, or the value of its formula that is known; Blank where none is.
fn value_in<'a, V: ValuesOf>(
    values: &'a V,
    sheet: u32,
    cell: &StoredCell<'_>,
) -> Result<HeldValue<'a>, NoMemory>
    ensures { IfOk result (λ held. value_held held ≡ value_stored (Some cell.now.content.now)
        (value_known (V.known values.now) (record { sheet = sheet; row = cell.now.row; column = cell.now.column }))) }
{
    match cell.content {
        Content::Number(number) => Ok(HeldValue::Own(Value::Number(*number))),
        Content::Text(text) => Ok(HeldValue::Own(Value::Text(text.duplicate()?))),
        Content::Truth(truth) => Ok(HeldValue::Own(Value::Truth(*truth))),
        Content::Formula(_) => Ok(lent_or_blank(values.known_value(sheet, cell.row, cell.column))),
    }
}

/// The value, or Blank where there is none.
fn lent_or_blank<'a>(value: Option<&'a Value>) -> HeldValue<'a>
    ensures { value_held result ≡ unwrap_or (option_copied value.entry) Blank }
{
    match value {
        Some(value) => HeldValue::Lent(value),
        None => HeldValue::Own(Value::Blank),
    }
}

/// Puts a cell behind others, if its value isn't blank.
fn add_filled<'a>(
    filled: &mut Vec<FilledCell<'a>>,
    place: u64,
    value: HeldValue<'a>,
) -> Result<(), NoMemory>
    ensures { OnOk result (map place_and_value filled.new.items
        ≡ map place_and_value filled.old.items ++ filled_at place (value_held value.entry)) }
{
    if !is_blank(value.get()) {
        filled.push(FilledCell { place, value })?;
    }
    Ok(())
}

/// The place of a cell among those of the area by rows, counted from 0, where a row has so many.
fn place_among(area: &Area, columns: u32, row: u32, column: u32) -> u64
    ensures { result ≡ place_among area.now columns row column }
{
    let rows_before = row.saturating_sub(area.rows.first_line());
    let columns_before = column.saturating_sub(area.cols.first_line());
    count_before(rows_before, columns, columns_before)
}

fn count_before(rows: u32, columns: u32, more: u32) -> u64
    ensures { result ≡ rows * columns + more }
{
    u64::from(rows) * u64::from(columns) + u64::from(more)
}
