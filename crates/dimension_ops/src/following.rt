//! The formulas of a sheet that follow a change of the lines of a sheet.

ghost use Rattle.std.specs.Prelude.{◌≡◌, IfOk, IfSome, OnOk};
ghost use Rattle.std.specs.List.{count_by, fold, list_any};
ghost use Rattle.std.specs.List.Sorted.{IsStrictlySortedBy};
ghost use Rattle.grid_range.specs.Area.{by_rows};
ghost use Rattle.grid_range.specs.Change.{Fits};
ghost use Rattle.cell_store.specs.Places.{AreFilledPlaces};
ghost use Rattle.cell_store.specs.Table.{item_at};
ghost use Rattle.world_model.specs.Counts.{formulas_in, is_formula};
ghost use Rattle.grid_range.specs.declared.band.Band.TheVariants.{Whole};
ghost use Rattle.world_model.specs.PlaceChange.{content_followed};
ghost use Rattle.dimension_ops.specs.References.{AreMarked, AreReferring, AreWithinOn, IsContentWithinOn, KeepsFormulas};
ghost use Rattle.dimension_ops.specs.References.{followed_at, is_formula_at, is_reference_to, refers_at, refers_to};

use crate::sheet::{Cells, Marks};
use cell_store::{CellStore, tables_by_items};
use cell_value::NoMemory;
use grid_range::{Area, Band, SheetChange};
use ref_rewrite::{Content, Piece, follow};
use std::alloc::Global;
use world_model::formulas_counted;

/// The places that are marked, by rows.
pub(crate) fn marked_places(marks: &Marks) -> Result<Vec<(u32, u32)>, NoMemory>
    ensures { IfOk result
        (λ places. AreFilledPlaces (record { sheet = 0; rows = Whole; cols = Whole }) marks.now.table places.items) }
{
    let places = marks.places(&Area {
        sheet: 0,
        rows: Band::Whole,
        cols: Band::Whole,
    })?;
    Ok(places.into_vec())
}

/// How many formulas the cells hold, each of which is marked.
pub(crate) fn count_formulas(cells: &Cells, marks: &Marks) -> Result<u64, NoMemory>
    requires { AreMarked cells.now.table marks.now.table }
    ensures { IfOk result (λ count. count ≡ formulas_in cells.now.table) }
{
    formulas_counted();
    tables_by_items::<Content>();
    let places = marked_places(marks)?;
    Ok(formulas_among(cells, &places))
}

/// At how many of the places a formula stands.
fn formulas_among(cells: &Cells, places: &[(u32, u32)]) -> u64
    ensures { result ≡ count_by (is_formula_at cells.now.table) places.now }
{
    places
        .iter()
        .filter(|place| is_formula_at(cells, place.0, place.1))
        .count() as u64
}

/// Whether a formula stands at the place.
fn is_formula_at(cells: &Cells, row: u32, column: u32) -> bool
    ensures { result ≡ is_formula_at cells.now.table (row, column) }
{
    match cells.get(row, column) {
        Some(content) => is_formula(content),
        None => false,
    }
}

fn is_formula(content: &Content) -> bool
    ensures { result ≡ is_formula content.now }
{
    match content {
        Content::Formula(_) => true,
        _ => false,
    }
}

/// The places of the formulas, each of which is marked, with a reference to the sheet, by rows.
pub(crate) fn references(
    cells: &Cells,
    marks: &Marks,
    sheet: u32,
) -> Result<Vec<(u32, u32)>, NoMemory>
    requires { AreMarked cells.now.table marks.now.table }
    ensures { IfOk result (λ places. AreReferring sheet cells.now.table places.items) }
{
    let mut places = marked_places(marks)?;
    places.retain(|place| refers_at(cells, place.0, place.1, sheet));
    Ok(places)
}

/// Whether a formula with a reference to the sheet stands at the place.
fn refers_at(cells: &Cells, row: u32, column: u32, sheet: u32) -> bool
    ensures { result ≡ refers_at sheet cells.now.table (row, column) }
{
    match cells.get(row, column) {
        Some(content) => refers_to(content, sheet),
        None => false,
    }
}

/// Whether the content is a formula with a reference to the sheet.
fn refers_to(content: &Content, sheet: u32) -> bool
    ensures { result ≡ refers_to sheet content.now }
{
    match content {
        Content::Formula(formula) => is_reference_among(formula.pieces.as_slice(), sheet),
        _ => false,
    }
}

/// Whether one of the pieces is a reference to the sheet.
fn is_reference_among(pieces: &[Piece], sheet: u32) -> bool
    ensures { result ≡ list_any (is_reference_to sheet) pieces.now }
{
    pieces.iter().any(|piece| is_reference_to(piece, sheet))
}

fn is_reference_to(piece: &Piece, sheet: u32) -> bool
    ensures { result ≡ is_reference_to sheet piece.now }
{
    match piece {
        Piece::Ref(reference) => reference.area.sheet == sheet,
        _ => false,
    }
}

/// Has what stands at each of the places, which are by rows, follow the change in its place.
///
/// # Errors
///
/// [`NoMemory`] where memory runs out; some of it has followed then.
pub(crate) fn follow_places(
    cells: &mut Cells,
    places: &[(u32, u32)],
    by: &SheetChange,
) -> Result<(), NoMemory>
    requires fits { Fits by.now.change.now by.now.count }
    requires in_order { IsStrictlySortedBy by_rows places.now }
    requires within { AreWithinOn by.now.sheet by.now.axis by.now.count cells.old.table }
    ensures followed { OnOk result (cells.new.table
        ≡ fold (followed_at by.now.sheet by.now.axis by.now.count by.now.change.now) cells.old.table places.now) }
    ensures formulas { KeepsFormulas cells.old.table cells.new.table }
{
    for place in places {
        follow_at(cells, place.0, place.1, by)?;
    }
    Ok(())
}

/// Has what stands at the place follow the change there.
///
/// # Errors
///
/// [`NoMemory`] where memory runs out; the cells are as they were.
fn follow_at(cells: &mut Cells, row: u32, column: u32, by: &SheetChange) -> Result<(), NoMemory>
    requires fits { Fits by.now.change.now by.now.count }
    requires within { IfSome (item_at cells.old.table row column)
        (IsContentWithinOn by.now.sheet by.now.axis by.now.count) }
    ensures followed { OnOk result (cells.new.table
        ≡ followed_at by.now.sheet by.now.axis by.now.count by.now.change.now cells.old.table (row, column)) }
    ensures formulas { KeepsFormulas cells.old.table cells.new.table }
{
    formulas_counted();
    if cells.get(row, column).is_none() {
        return Ok(());
    }
    match cells.get_mut(row, column) {
        Ok(content) => {
            follow_content(content, by);
            Ok(())
        }
        Err(no_memory) => Err(no_memory),
    }
}

/// Has the references of a formula follow the change.
fn follow_content(content: &mut Content, by: &SheetChange)
    requires fits { Fits by.now.change.now by.now.count }
    requires within { IsContentWithinOn by.now.sheet by.now.axis by.now.count content.old }
    ensures { content.new ≡ content_followed by.now.sheet by.now.axis by.now.count by.now.change.now content.old }
{
    if let Content::Formula(formula) = content {
        follow(formula, by.sheet, by.axis, by.count, by.change);
    }
}
