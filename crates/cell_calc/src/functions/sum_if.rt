ghost use Rattle.std.specs.Prelude.{◌≡◌, ℕ, map, filter, flat_map, nat_eq, IfOk, OnOk};
ghost use Rattle.std.specs.HashSet.{contains};
ghost use Rattle.cell_calc.specs.Arguments.{Given, Cells, cells_given};
ghost use Rattle.cell_calc.specs.Outcome.{value_by, both};
ghost use Rattle.cell_calc.specs.Lent.{StandsFor, AreCells};
ghost use Rattle.cell_calc.specs.LookUpFunctions.{criterion, sum_beside, matches_summed};
ghost use Rattle.cell_calc.specs.Taken.{values_of};
ghost use Rattle.cell_calc.specs.Found.{matches_in, value_if};

use super::gathering::{Taking, all_read, sum_of};
use super::look_up::{criterion, is_match};
use crate::arguments::{AreaCells, Argument, FilledCell, error_lent};
use crate::conversion::error_in;
use cell_value::{Kind, NoMemory, Value};
use std::alloc::Global;
use std::collections::HashSet;

/// SUMIF: the sum of the numbers of `others` that stand beside cells of the area which equal the key and have
/// its kind, where a text that reads as a number or a truth value is taken as that. [`Kind::Value`] of a text
/// that begins with `<`, `=` or `>`, and where the areas' sizes differ; a summed cell in error gives its error.
///
/// # Errors
///
/// [`NoMemory`] where memory runs out.
pub fn matches_summed(
    alloc: Global,
    area: &Argument,
    key: &Value,
    others: &Argument,
) -> Result<Value, NoMemory>
    ensures { (x y : Given) → StandsFor area.now x → StandsFor others.now y
        → IfOk result (λ value. value ≡ matches_summed x key.now y) }
{
    match error_lent(area).or(error_in(key).or(error_lent(others))) {
        Some(fault) => Ok(Value::Error(fault)),
        None => summed_in(alloc, area, key, others),
    }
}

fn summed_in(
    alloc: Global,
    area: &Argument,
    key: &Value,
    others: &Argument,
) -> Result<Value, NoMemory>
    ensures { (x y : Given) → StandsFor area.now x → StandsFor others.now y
        → IfOk result (λ value. value ≡ value_by (λ found. sum_beside found.1.0 found.0 found.1.1)
        (both (cells_given x) (both (criterion key.now) (cells_given y)))) }
{
    match area {
        Argument::Single(_) => Ok(Value::Error(Kind::Value)),
        Argument::Area(cells) => summed_cells(alloc, cells, criterion(key)?, others),
    }
}

fn summed_cells(
    alloc: Global,
    cells: &AreaCells,
    key: Result<Value, Kind>,
    others: &Argument,
) -> Result<Value, NoMemory>
    ensures { (all : Cells) (y : Given) → AreCells cells.now all → StandsFor others.now y
        → IfOk result (λ value. value ≡ value_by (λ found. sum_beside found.0 all found.1) (both key (cells_given y))) }
{
    match key {
        Ok(key) => summed_others(alloc, cells, &key, others),
        Err(fault) => Ok(Value::Error(fault)),
    }
}

fn summed_others(
    alloc: Global,
    cells: &AreaCells,
    key: &Value,
    others: &Argument,
) -> Result<Value, NoMemory>
    ensures { (all : Cells) (y : Given) → AreCells cells.now all → StandsFor others.now y
        → IfOk result (λ value. value ≡ value_by (sum_beside key.now all) (cells_given y)) }
{
    match others {
        Argument::Single(_) => Ok(Value::Error(Kind::Value)),
        Argument::Area(others) => sum_beside(alloc, key, cells, others),
    }
}

/// The sum of the numbers that stand beside matches.
fn sum_beside(
    alloc: Global,
    key: &Value,
    cells: &AreaCells,
    others: &AreaCells,
) -> Result<Value, NoMemory>
    ensures { (x y : Cells) → AreCells cells.now x → AreCells others.now y
        → IfOk result (λ value. value ≡ sum_beside key.now x y) }
{
    if cells.rows == others.rows && cells.columns == others.columns {
        let places = places_of_matches(alloc, key, cells.filled.as_slice())?;
        let values = values_in(alloc, &places, others.filled.as_slice())?;
        Ok(sum_of(all_read::<i64>(alloc, values.as_slice())?))
    } else {
        Ok(Value::Error(Kind::Value))
    }
}

/// The places of the cells that match.
fn places_of_matches(
    alloc: Global,
    key: &Value,
    cells: &[FilledCell],
) -> Result<HashSet<u64>, NoMemory>
    ensures { IfOk result (λ places. (place : ℕ) → contains nat_eq places place ≡ matches_in key.now cells.now place) }
{
    let mut places = HashSet::new(alloc);
    for cell in cells {
        if is_match(key, cell.value.get()) {
            places.insert(cell.place)?;
        }
    }
    Ok(places)
}

/// The numbers and errors of cells in one of the places.
fn values_in<'a>(
    alloc: Global,
    places: &HashSet<u64>,
    cells: &'a [FilledCell],
) -> Result<Vec<&'a Value>, NoMemory>
    ensures { IfOk result (λ values.
        values_of values.items ≡ flat_map (value_if (contains nat_eq places.now)) cells.now) }
{
    let mut values = Vec::new(alloc);
    for cell in cells {
        if places.contains(&cell.place) && Taking::NumbersAndErrors.takes(cell.value.get()) {
            values.push(cell.value.get())?;
        }
    }
    Ok(values)
}
