ghost use Rattle.std.specs.Prelude.{◌≡◌, ◌+◌, ◌-◌, ◌*◌, nat_lt, ◌&&◌, true, pos, unsigned_abs, count_by, map, List, IfOk};
ghost use Rattle.std.specs.Option.{unwrap_or};
ghost use Rattle.cell_value.specs.declared.cell.Value.{Value};
ghost use Rattle.cell_value.specs.declared.cell.Kind.TheVariants as kind;
ghost use Rattle.cell_value.specs.declared.cell.Value.TheVariants as value;
ghost use Rattle.cell_calc.specs.Arguments.{Given, Cells, cells_given};
ghost use Rattle.cell_calc.specs.Conversion.{error_in, number_of};
ghost use Rattle.cell_calc.specs.Outcome.{whole, value_by, both};
ghost use Rattle.cell_calc.specs.Lent.{StandsFor, AreCells, place_and_value, filled_from};
ghost use Rattle.cell_calc.specs.LookUpFunctions.{row_count, column_count, is_line_of, value_at, indexed_value, is_match, first_place, position_of, searched, matched_place, is_comparison, typed_text, criterion, matches_counted};
ghost use Rattle.cell_calc.specs.Taken.{error_lent};
ghost use Rattle.cell_calc.specs.Found.{value_in_place, first_match, is_matching};

use crate::arguments::{AreaCells, Argument, FilledCell, error_lent};
use crate::conversion::{error_in, number_in, number_of, truth_in};
use crate::outcome::{leftmost_error, numbers_of, whole};
use cell_value::{Duplicate, Kind, NoMemory, Text, Value};

/// ROWS: how many rows the area has.
pub fn row_count(area: &Argument) -> Value
    ensures { (given : Given) → StandsFor area.now given → result ≡ row_count given }
{
    match area {
        Argument::Single(value) => Value::Error(no_area(value)),
        Argument::Area(cells) => whole(i128::from(cells.rows)),
    }
}

/// COLUMNS: how many columns the area has.
pub fn column_count(area: &Argument) -> Value
    ensures { (given : Given) → StandsFor area.now given → result ≡ column_count given }
{
    match area {
        Argument::Single(value) => Value::Error(no_area(value)),
        Argument::Area(cells) => whole(i128::from(cells.columns)),
    }
}

/// The error of a value that stands where an area must: its own, or [`Kind::Value`].
fn no_area(value: &Value) -> Kind
    ensures { result ≡ unwrap_or (error_in value.now) kind.Value }
{
    error_in(value).unwrap_or(Kind::Value)
}

/// INDEX: a copy of the value in a row and a column of the area, both counted from 1; [`Kind::Num`] outside it.
///
/// # Errors
///
/// [`NoMemory`] where memory runs out.
pub fn indexed_value(area: &Argument, row: &Value, column: &Value) -> Result<Value, NoMemory>
    ensures { (given : Given) → StandsFor area.now given
        → IfOk result (λ value. value ≡ indexed_value given row.now column.now) }
{
    match error_lent(area).or(leftmost_error(row, column)) {
        Some(fault) => Ok(Value::Error(fault)),
        None => indexed(area, row, column),
    }
}

fn indexed(area: &Argument, row: &Value, column: &Value) -> Result<Value, NoMemory>
    ensures { (given : Given) → StandsFor area.now given
        → IfOk result (λ value. value ≡ value_by (λ found. value_at found.0 found.1)
        (both (cells_given given) (both (number_of row.now) (number_of column.now)))) }
{
    match area {
        Argument::Single(_) => Ok(Value::Error(Kind::Value)),
        Argument::Area(cells) => indexed_cells(cells, row, column),
    }
}

fn indexed_cells(cells: &AreaCells, row: &Value, column: &Value) -> Result<Value, NoMemory>
    ensures { (all : Cells) → AreCells cells.now all
        → IfOk result (λ value. value ≡ value_by (value_at all) (both (number_of row.now) (number_of column.now))) }
{
    match numbers_of(row, column) {
        Ok((row, column)) => value_at(cells, row, column),
        Err(fault) => Ok(Value::Error(fault)),
    }
}

/// A copy of the value in a row and a column of the area.
fn value_at(cells: &AreaCells, row: i64, column: i64) -> Result<Value, NoMemory>
    ensures { (all : Cells) → AreCells cells.now all → IfOk result (λ value. value ≡ value_at all (row, column)) }
{
    if is_line_of(cells.rows, row) && is_line_of(cells.columns, column) {
        let place = place_at(cells.rows, cells.columns, row, column);
        value_in_place(cells.filled.as_slice(), place)
    } else {
        Ok(Value::Error(Kind::Num))
    }
}

/// The place of a row and a column among the cells of an area, counted from 0.
fn place_at(rows: u32, columns: u32, row: i64, column: i64) -> u64
    requires row { is_line_of rows row ≡ true }
    requires column { is_line_of columns column ≡ true }
    ensures { result ≡ (unsigned_abs row - 1) * columns + (unsigned_abs column - 1) }
{
    let row = row.unsigned_abs() - 1;
    let column = column.unsigned_abs() - 1;
    row * u64::from(columns) + column
}

/// Whether it is the number of one of so many lines, counted from 1.
fn is_line_of(count: u32, line: i64) -> bool
    ensures { result ≡ is_line_of count line }
{
    1 <= line && line <= i64::from(count)
}

/// A copy of the value in a place, blank where none of the cells has it.
pub(super) fn value_in_place(cells: &[FilledCell], place: u64) -> Result<Value, NoMemory>
    ensures { IfOk result (λ value. value ≡ value_in_place place cells.now) }
{
    for cell in cells {
        if cell.place == place {
            return cell.value.get().duplicate();
        }
    }
    Ok(Value::Blank)
}

/// MATCH: the place of the first cell that equals the key and has its kind, counted from 1; [`Kind::Na`] of
/// none, and where the area is more than one line both ways. [`Kind::Value`] where the search type isn't 0.
pub fn matched_place(key: &Value, area: &Argument, search: &Value) -> Value
    ensures { (given : Given) → StandsFor area.now given → result ≡ matched_place key.now given search.now }
{
    match error_in(key).or(error_lent(area).or(error_in(search))) {
        Some(fault) => Value::Error(fault),
        None => searched(key, area, search),
    }
}

fn searched(key: &Value, area: &Argument, search: &Value) -> Value
    ensures { (given : Given) → StandsFor area.now given
        → result ≡ value_by (position_of key.now) (searched (number_of search.now) (cells_given given)) }
{
    match number_of(search) {
        Ok(search) if search == 0 => place_in(key, area),
        Ok(_) => Value::Error(Kind::Value),
        Err(fault) => Value::Error(fault),
    }
}

fn place_in(key: &Value, area: &Argument) -> Value
    ensures { (given : Given) → StandsFor area.now given → result ≡ value_by (position_of key.now) (cells_given given) }
{
    match area {
        Argument::Single(_) => Value::Error(Kind::Value),
        Argument::Area(cells) => position_of(key, cells),
    }
}

/// The place of the first cell of one line that matches, counted from 1.
fn position_of(key: &Value, cells: &AreaCells) -> Value
    ensures { (all : Cells) → AreCells cells.now all → result ≡ position_of key.now all }
{
    if is_block(cells.rows, cells.columns) {
        Value::Error(Kind::Na)
    } else {
        place_among(key, cells.filled.as_slice())
    }
}

/// Whether an area is more than one line both ways.
fn is_block(rows: u32, columns: u32) -> bool
    ensures { result ≡ (nat_lt 1 rows && nat_lt 1 columns) }
{
    1 < rows && 1 < columns
}

/// The place of the first of the cells that matches, counted from 1.
fn place_among(key: &Value, cells: &[FilledCell]) -> Value
    ensures { (values : List Value) → map place_and_value cells.now ≡ filled_from 0 values
        → result ≡ first_place key.now values }
{
    match first_match(key, cells) {
        Some(place) => counted_from_one(place),
        None => Value::Error(Kind::Na),
    }
}

fn counted_from_one(place: u64) -> Value
    ensures { result ≡ whole (pos (place + 1)) }
{
    whole(i128::from(place) + 1)
}

/// The place of the first cell that matches, counted from 0.
fn first_match(key: &Value, cells: &[FilledCell]) -> Option<u64>
    ensures { result ≡ first_match key.now cells.now }
{
    for cell in cells {
        if is_match(key, cell.value.get()) {
            return Some(cell.place);
        }
    }
    None
}

/// Whether the cell equals the key and has its kind; none equals blank or an error.
pub(super) fn is_match(key: &Value, value: &Value) -> bool
    ensures { result ≡ is_match key.now value.now }
{
    match key {
        Value::Blank | Value::Error(_) => false,
        Value::Number(key) => matches!(value, Value::Number(number) if number == key),
        Value::Text(key) => is_text(key.as_str(), value),
        Value::Truth(key) => matches!(value, Value::Truth(truth) if truth == key),
    }
}

/// Whether the value is the text, in any ASCII case.
fn is_text(key: &str, cell: &Value) -> bool
    ensures { result ≡ is_match (value.Text key.now) cell.now }
{
    match cell {
        Value::Text(text) => key.eq_ignore_ascii_case(text.as_str()),
        Value::Blank | Value::Number(_) | Value::Truth(_) | Value::Error(_) => false,
    }
}

/// COUNTIF: how many cells equal the key and have its kind, where a text that reads as a number or a truth
/// value is taken as that; [`Kind::Value`] of a text that begins with `<`, `=` or `>`.
///
/// # Errors
///
/// [`NoMemory`] where memory runs out.
pub fn matches_counted(area: &Argument, key: &Value) -> Result<Value, NoMemory>
    ensures { (given : Given) → StandsFor area.now given
        → IfOk result (λ value. value ≡ matches_counted given key.now) }
{
    match error_lent(area).or(error_in(key)) {
        Some(fault) => Ok(Value::Error(fault)),
        None => counted_in(area, key),
    }
}

fn counted_in(area: &Argument, key: &Value) -> Result<Value, NoMemory>
    ensures { (given : Given) → StandsFor area.now given
        → IfOk result (λ value. value ≡ value_by (λ found. whole (pos (count_by (is_match found.1) found.0.values)))
        (both (cells_given given) (criterion key.now))) }
{
    match area {
        Argument::Single(_) => Ok(Value::Error(Kind::Value)),
        Argument::Area(cells) => Ok(counted(cells, criterion(key)?)),
    }
}

fn counted(cells: &AreaCells, key: Result<Value, Kind>) -> Value
    ensures { (all : Cells) → AreCells cells.now all
        → result ≡ value_by (λ key. whole (pos (count_by (is_match key) all.values))) key }
{
    match key {
        Ok(key) => count_of(&key, cells.filled.as_slice()),
        Err(fault) => Value::Error(fault),
    }
}

/// How many of the cells match.
fn count_of(key: &Value, cells: &[FilledCell]) -> Value
    ensures { result ≡ whole (pos (count_by (is_matching key.now) cells.now)) }
{
    let count = cells
        .iter()
        .filter(|cell| is_match(key, cell.value.get()))
        .count();
    whole(count as i128)
}

/// What cells are compared with.
pub(super) fn criterion(key: &Value) -> Result<Result<Value, Kind>, NoMemory>
    ensures { IfOk result (λ read. read ≡ criterion key.now) }
{
    match key {
        Value::Blank => Ok(Ok(Value::Blank)),
        Value::Number(number) => Ok(Ok(Value::Number(*number))),
        Value::Text(text) => text_criterion(text),
        Value::Truth(truth) => Ok(Ok(Value::Truth(*truth))),
        Value::Error(fault) => Ok(Ok(Value::Error(*fault))),
    }
}

/// What cells are compared with where a text is given.
fn text_criterion(text: &Text) -> Result<Result<Value, Kind>, NoMemory>
    ensures { IfOk result (λ read. read ≡ criterion (value.Text text.now)) }
{
    if is_comparison(text.as_str()) {
        return Ok(Err(Kind::Value));
    }
    Ok(Ok(typed_text(text)?))
}

/// Whether the text begins with `<`, `=` or `>`.
fn is_comparison(text: &str) -> bool
    ensures { result ≡ is_comparison text.now }
{
    matches!(text.as_bytes(), [b'<'..=b'>', ..])
}

/// What the text is read as: a number, a truth value or itself.
fn typed_text(text: &Text) -> Result<Value, NoMemory>
    ensures { IfOk result (λ value. value ≡ typed_text text.now) }
{
    if let Some(number) = number_in(text.as_str()) {
        return Ok(Value::Number(number));
    }
    match truth_in(text.as_str()) {
        Some(truth) => Ok(Value::Truth(truth)),
        None => Ok(Value::Text(text.duplicate()?)),
    }
}
