ghost use Rattle.std.specs.Prelude.{◌≡◌, [], ◌∷◌, List, IfOk, OnOk, IsTrue, Some, None, option_map};
ghost use Rattle.ref_rewrite.specs.declared.cell_content.Content.TheVariants as content;
ghost use Rattle.std.specs.List.{list_all};
ghost use Rattle.formula_reader.specs.Tree.{expression_of};
ghost use Rattle.cell_calc.specs.declared.walk.Frame.{Frame};
ghost use Rattle.cell_calc.specs.declared.mark.Mark.TheVariants.{Open};
ghost use Rattle.cell_calc.specs.Book.{formula};
ghost use Rattle.cell_calc.specs.Calculated.{one_cell};
ghost use Rattle.cell_calc.specs.FormulaValue.{value_of_cell};
ghost use Rattle.cell_calc.specs.Known.{book_read, value_read};
ghost use Rattle.cell_calc.specs.Marks.{keyed_place, marks_of, values_of, IsMarked};
ghost use Rattle.cell_calc.specs.Walk.{Goes, Passes, Meets, Closes, IsCut, IsTreeAt, LooksAt, IsNoted, Notes};
ghost use Rattle.cell_calc.specs.Walk.{is_settled, AreSettled, IsAreaSettled, AreAreasSettled};

use crate::areas::add_areas;
use crate::cells::{CellsOf, StoredCell};
use crate::content_value::tree_within;
use crate::evaluation::value_of_tree;
use crate::known::KnownCells;
use crate::mark::{Found, Key, Mark};
use crate::stored_cells::{only_cell, stored_cells};
use crate::table::Table;
use cell_value::{Kind, NoMemory, Value};
use formula_reader::Tree;
use grid_range::Area;
use ref_rewrite::{Content, Formula};
use std::alloc::Global;
use std::collections::VecDeque;

/// How many cells a formula notes at once: those for which it waits, of one of its areas.
const MOST_NOTED: usize = 1_000;

/// A formula that waits for cells that it reads.
#[derive(Drop)]
pub(crate) struct Frame {
    place: Key,
    tree: Tree,
    /// Areas that hold all cells that it still waits for.
    rest: Vec<Area>,
    /// Cells that it reads, for which it waits first.
    noted: Vec<Key>,
}

/// Comes to know the value of the formula in the place, and of the formulas that it reads and those that they read.
pub(crate) fn settle<C: CellsOf>(
    alloc: Global,
    cells: &C,
    table: &mut Table,
    place: Key,
    text: &Formula,
) -> Result<(), NoMemory>
    ensures { (C.contents cells.now).content (keyed_place place) ≡ Some (content.Formula text.now)
        → OnOk result
        (Meets (C.contents cells.now) (keyed_place place) (marks_of table.old) [] (marks_of table.new) []) }
{
    let mut path = VecDeque::new(alloc);
    meet_formula(alloc, cells, table, &mut path, place, text)?;
    follow(alloc, cells, table, path)
}

/// Goes on until the path has no formula.
fn follow<C: CellsOf>(
    alloc: Global,
    cells: &C,
    table: &mut Table,
    mut path: VecDeque<Frame>,
) -> Result<(), NoMemory>
    ensures { OnOk result (Goes (C.contents cells.now) (marks_of table.old) path.items (marks_of table.new) []) }
{
    for _turn in 0..u64::MAX {
        match path.pop_front() {
            Some(frame) => step(alloc, cells, table, &mut path, frame)?,
            None => return Ok(()),
        }
    }
    // no path is followed that far
    Err(NoMemory)
}

/// One step with the first formula of the path, which was taken from it.
fn step<C: CellsOf>(
    alloc: Global,
    cells: &C,
    table: &mut Table,
    path: &mut VecDeque<Frame>,
    mut frame: Frame,
) -> Result<(), NoMemory>
    ensures { OnOk result (Goes (C.contents cells.now) (marks_of table.old) (frame ∷ path.old.items)
        (marks_of table.new) path.new.items) }
{
    match frame.noted.pop() {
        Some(place) => {
            path.push_front(frame)?;
            meet(alloc, cells, table, path, place)
        }
        None => look_on(alloc, cells, table, path, frame),
    }
}

/// Goes on with an area of the first formula, which was taken from the path.
fn look_on<C: CellsOf>(
    alloc: Global,
    cells: &C,
    table: &mut Table,
    path: &mut VecDeque<Frame>,
    mut frame: Frame,
) -> Result<(), NoMemory>
    ensures { OnOk result (Goes (C.contents cells.now) (marks_of table.old) (frame ∷ path.old.items)
        (marks_of table.new) path.new.items) }
{
    match frame.rest.pop() {
        Some(area) => wait_for(alloc, cells, table, path, frame, area),
        None => finish(alloc, cells, table, frame.place, &frame.tree),
    }
}

/// The formula in the place reads only known cells.
fn finish<C: CellsOf>(
    alloc: Global,
    cells: &C,
    table: &mut Table,
    place: Key,
    tree: &Tree,
) -> Result<(), NoMemory>
    ensures { (frame : Frame) (below : List Frame) → frame.place ≡ place → frame.tree ≡ tree.now
        → frame.rest.items ≡ []
        → OnOk result (Goes (C.contents cells.now) (marks_of table.old) (frame ∷ below) (marks_of table.new) below) }
{
    let value = known_value(alloc, cells, table, tree)?;
    table.set(place, Mark::Known(value))
}

/// The value of a formula by the values that are known.
fn known_value<C: CellsOf>(
    alloc: Global,
    cells: &C,
    values: &Table,
    tree: &Tree,
) -> Result<Value, NoMemory>
    ensures { IfOk result (λ value. value
        ≡ value_of_cell (book_read (C.contents cells.now) (values_of values.now))
        (value_read (C.contents cells.now) (values_of values.now)) (formula (Some (expression_of tree.now)))) }
{
    value_of_tree(alloc, &KnownCells { cells, values }, tree)
}

/// Notes formulas in the area that aren't known, or goes on without the area where each of them is known.
fn wait_for<C: CellsOf>(
    alloc: Global,
    cells: &C,
    table: &Table,
    path: &mut VecDeque<Frame>,
    frame: Frame,
    area: Area,
) -> Result<(), NoMemory>
    ensures { (whole : Frame) → IsCut whole frame area → whole.noted.items ≡ frame.noted.items
        → OnOk result (Goes (C.contents cells.now) (marks_of table.now) (whole ∷ path.old.items)
        (marks_of table.now) path.new.items) }
{
    let stored = stored_cells(alloc, cells, &area)?;
    let noted = all_noted(alloc, table, area.sheet, stored.as_slice())?;
    if noted.is_empty() {
        Ok(path.push_front(frame)?)
    } else {
        put_back(path, frame, area, noted)
    }
}

/// Puts the formula on the path with one more area, and the cells in it for which it waits first.
fn put_back(
    path: &mut VecDeque<Frame>,
    mut frame: Frame,
    area: Area,
    noted: Vec<Key>,
) -> Result<(), NoMemory>
    ensures { OnOk result ((next : Frame) × IsCut next frame area × (next.noted.items ≡ noted.items)
        × (path.new.items ≡ next ∷ path.old.items)) }
{
    frame.rest.push(area)?;
    frame.noted = noted;
    path.push_front(frame)?;
    Ok(())
}

/// Some of the formulas among these cells of the sheet that aren't known; none where each is.
fn all_noted(
    alloc: Global,
    table: &Table,
    sheet: u32,
    cells: &[StoredCell<'_>],
) -> Result<Vec<Key>, NoMemory>
    ensures { IfOk result (λ noted. Notes (marks_of table.now) sheet cells.now cells.now noted.items) }
{
    let mut noted = Vec::new(alloc);
    for cell in cells {
        look_at(table, &mut noted, sheet, cell)?;
    }
    Ok(noted)
}

/// Notes the cell, unless it is settled, if there is room.
fn look_at(
    table: &Table,
    noted: &mut Vec<Key>,
    sheet: u32,
    cell: &StoredCell<'_>,
) -> Result<(), NoMemory>
    ensures { OnOk result (LooksAt (marks_of table.now) sheet cell.now noted.old.items noted.new.items) }
{
    if is_settled(table, sheet, cell) {
        Ok(())
    } else {
        note(noted, (sheet, cell.row, cell.column))
    }
}

/// Whether the cell of the sheet has no formula, or one whose value is known.
fn is_settled(table: &Table, sheet: u32, cell: &StoredCell<'_>) -> bool
    ensures { result ≡ is_settled (marks_of table.now) sheet cell.now }
{
    match cell.content {
        Content::Formula(_) => table.is_known((sheet, cell.row, cell.column)),
        Content::Number(_) | Content::Text(_) | Content::Truth(_) => true,
    }
}

/// Puts the place behind others, if there is room.
fn note(noted: &mut Vec<Key>, place: Key) -> Result<(), NoMemory>
    ensures { OnOk result (IsNoted place noted.old.items noted.new.items) }
{
    if noted.len() < MOST_NOTED {
        noted.push(place)?;
    }
    Ok(())
}

/// The first formula of the path reads the cell.
fn meet<C: CellsOf>(
    alloc: Global,
    cells: &C,
    table: &mut Table,
    path: &mut VecDeque<Frame>,
    place: Key,
) -> Result<(), NoMemory>
    ensures { OnOk result (Passes (C.contents cells.now) (keyed_place place) (marks_of table.old) path.old.items
        (marks_of table.new) path.new.items) }
{
    match cells.content(place.0, place.1, place.2) {
        Some(content) => meet_content(alloc, cells, table, path, place, content),
        None => Ok(()),
    }
}

fn meet_content<C: CellsOf>(
    alloc: Global,
    cells: &C,
    table: &mut Table,
    path: &mut VecDeque<Frame>,
    place: Key,
    content: &Content,
) -> Result<(), NoMemory>
    ensures { (C.contents cells.now).content (keyed_place place) ≡ Some content.now
        → OnOk result (Passes (C.contents cells.now) (keyed_place place) (marks_of table.old) path.old.items
        (marks_of table.new) path.new.items) }
{
    match content {
        Content::Formula(text) => meet_formula(alloc, cells, table, path, place, text),
        Content::Number(_) | Content::Text(_) | Content::Truth(_) => Ok(()),
    }
}

/// The first formula of the path, where it has one, reads the formula in the place.
fn meet_formula<C: CellsOf>(
    alloc: Global,
    cells: &C,
    table: &mut Table,
    path: &mut VecDeque<Frame>,
    place: Key,
    text: &Formula,
) -> Result<(), NoMemory>
    ensures { (C.contents cells.now).content (keyed_place place) ≡ Some (content.Formula text.now)
        → OnOk result (Meets (C.contents cells.now) (keyed_place place) (marks_of table.old) path.old.items
        (marks_of table.new) path.new.items) }
{
    match table.found(place) {
        Found::New => begin(alloc, cells, table, path, place, text),
        Found::Circular => close(table, path),
        Found::Settled => Ok(()),
    }
}

/// From each formula of the path walks have no end, and the path is left.
fn close(table: &mut Table, path: &mut VecDeque<Frame>) -> Result<(), NoMemory>
    ensures all { OnOk result (Closes (marks_of table.old) path.old.items (marks_of table.new)) }
    ensures none { OnOk result (path.new.items ≡ []) }
{
    while let Some(frame) = path.pop_front() {
        table.set(frame.place, Mark::Endless)?;
    }
    Ok(())
}

/// Begins with a formula of which nothing is known.
fn begin<C: CellsOf>(
    alloc: Global,
    cells: &C,
    table: &mut Table,
    path: &mut VecDeque<Frame>,
    place: Key,
    text: &Formula,
) -> Result<(), NoMemory>
    ensures { (C.contents cells.now).content (keyed_place place) ≡ Some (content.Formula text.now)
        → marks_of table.old (keyed_place place) ≡ None
        → OnOk result (Meets (C.contents cells.now) (keyed_place place) (marks_of table.old) path.old.items
        (marks_of table.new) path.new.items) }
{
    let tree = tree_within(alloc, text)?;
    begin_tree(alloc, cells, table, path, place, tree)
}

fn begin_tree<C: CellsOf>(
    alloc: Global,
    cells: &C,
    table: &mut Table,
    path: &mut VecDeque<Frame>,
    place: Key,
    tree: Option<Tree>,
) -> Result<(), NoMemory>
    ensures { IsTreeAt (C.contents cells.now) (keyed_place place) (option_map expression_of tree)
        → marks_of table.old (keyed_place place) ≡ None
        → OnOk result (Meets (C.contents cells.now) (keyed_place place) (marks_of table.old) path.old.items
        (marks_of table.new) path.new.items) }
{
    match tree {
        Some(tree) => enter(alloc, cells, table, path, place, tree),
        None => table.set(place, Mark::Known(Value::Error(Kind::Error))),
    }
}

/// Comes to know the value of a formula that waits for none, and puts another on the path.
fn enter<C: CellsOf>(
    alloc: Global,
    cells: &C,
    table: &mut Table,
    path: &mut VecDeque<Frame>,
    place: Key,
    tree: Tree,
) -> Result<(), NoMemory>
    ensures { IsTreeAt (C.contents cells.now) (keyed_place place) (Some (expression_of tree))
        → marks_of table.old (keyed_place place) ≡ None
        → OnOk result (Meets (C.contents cells.now) (keyed_place place) (marks_of table.old) path.old.items
        (marks_of table.new) path.new.items) }
{
    let mut rest = Vec::new(alloc);
    add_areas(cells, &tree, &mut rest)?;
    if are_settled(alloc, cells, table, rest.as_slice())? {
        let value = known_value(alloc, cells, table, &tree)?;
        table.set(place, Mark::Known(value))
    } else {
        put_on(alloc, table, path, place, tree, rest)
    }
}

/// Puts a formula on the path, which waits for all formulas in its areas.
fn put_on(
    alloc: Global,
    table: &mut Table,
    path: &mut VecDeque<Frame>,
    place: Key,
    tree: Tree,
    rest: Vec<Area>,
) -> Result<(), NoMemory>
    ensures { OnOk result
        ((frame : Frame) × (frame.place ≡ place) × (frame.tree ≡ tree) × (frame.rest.items ≡ rest.items)
        × (frame.noted.items ≡ []) × IsMarked (marks_of table.old) (keyed_place place) Open (marks_of table.new)
        × (path.new.items ≡ frame ∷ path.old.items)) }
{
    let noted = Vec::new(alloc);
    table.set(place, Mark::Open)?;
    path.push_front(Frame {
        place,
        tree,
        rest,
        noted,
    })?;
    Ok(())
}

/// Whether all formulas in the areas are known.
fn are_settled<C: CellsOf>(
    alloc: Global,
    cells: &C,
    table: &Table,
    areas: &[Area],
) -> Result<bool, NoMemory>
    ensures { IfOk result (λ settled. IsTrue settled
        → AreAreasSettled (C.contents cells.now) (marks_of table.now) areas.now) }
{
    for area in areas {
        if !is_area_settled(alloc, cells, table, area)? {
            return Ok(false);
        }
    }
    Ok(true)
}

/// Whether all formulas in the area are known.
fn is_area_settled<C: CellsOf>(
    alloc: Global,
    cells: &C,
    table: &Table,
    area: &Area,
) -> Result<bool, NoMemory>
    ensures { IfOk result (λ settled. IsTrue settled
        → IsAreaSettled (C.contents cells.now) (marks_of table.now) area.now) }
{
    match only_cell(area) {
        Some((row, column)) => Ok(is_place_settled(cells, table, area.sheet, row, column)),
        None => are_cells_settled(alloc, cells, table, area),
    }
}

/// Whether the place has no formula, or one whose value is known.
fn is_place_settled<C: CellsOf>(cells: &C, table: &Table, sheet: u32, row: u32, column: u32) -> bool
    ensures { IsTrue result → IsAreaSettled (C.contents cells.now) (marks_of table.now) (one_cell sheet row column) }
{
    match cells.content(sheet, row, column) {
        Some(content) => is_settled(
            table,
            sheet,
            &StoredCell {
                row,
                column,
                content,
            },
        ),
        None => true,
    }
}

/// The same of an area's cells one by one.
fn are_cells_settled<C: CellsOf>(
    alloc: Global,
    cells: &C,
    table: &Table,
    area: &Area,
) -> Result<bool, NoMemory>
    ensures { IfOk result (λ settled. IsTrue settled
        → IsAreaSettled (C.contents cells.now) (marks_of table.now) area.now) }
{
    let stored = stored_cells(alloc, cells, area)?;
    Ok(all_settled(table, area.sheet, stored.as_slice()))
}

/// Whether each of these cells of the sheet has no formula, or one whose value is known.
fn all_settled(table: &Table, sheet: u32, cells: &[StoredCell<'_>]) -> bool
    ensures { result ≡ list_all (is_settled (marks_of table.now) sheet) cells.now }
{
    cells.iter().all(|cell| is_settled(table, sheet, cell))
}
