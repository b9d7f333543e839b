//! The words of formulas that become another one.

ghost use Rattle.std.specs.Prelude.{◌≡◌, IfOk, OnErr, OnOk, map};
ghost use Rattle.std.specs.Arc.{arc_value};
ghost use Rattle.std.specs.List.{AllZip, fold, list_any};
ghost use Rattle.ref_rewrite.specs.Renaming.{is_word};
ghost use Rattle.world_model.specs.RangeChange.{WordsRenamedIn, content_renamed};
ghost use Rattle.dimension_ops.specs.References.{AreMarked, KeepsFormulas};
ghost use Rattle.dimension_ops.specs.Renaming.{AreNaming, has_word, has_word_at, renamed_at};

use crate::following::marked_places;
use crate::sheet::{Cells, Marks, Sheet};
use cell_store::CellStore;
use cell_value::NoMemory;
use ref_rewrite::{Content, Piece, rename_word};
use std::alloc::Global;
use std::sync::Arc;
use world_model::formulas_counted;

/// The sheets with the old word renamed in their formulas, whatever the case of its ASCII letters. One without it
/// stays as it is, and isn't copied.
///
/// # Errors
///
/// [`NoMemory`] where memory runs out.
pub(crate) fn sheets_renamed(
    alloc: Global,
    sheets: Vec<Arc<Sheet>>,
    old: &str,
    new: &str,
) -> Result<Vec<Arc<Sheet>>, NoMemory>
    ensures { IfOk result (λ renamed. AllZip (WordsRenamedIn old.now new.now)
        (map arc_value sheets.items) (map arc_value renamed.items)) }
{
    let mut renamed = Vec::new(alloc);
    for sheet in sheets {
        renamed.push(sheet_renamed(alloc, sheet, old, new)?)?;
    }
    Ok(renamed)
}

/// A sheet with the old word renamed in its formulas.
fn sheet_renamed(
    alloc: Global,
    sheet: Arc<Sheet>,
    old: &str,
    new: &str,
) -> Result<Arc<Sheet>, NoMemory>
    ensures { IfOk result (λ renamed. WordsRenamedIn old.now new.now (arc_value sheet) (arc_value renamed)) }
{
    let places = sheet.naming(old)?;
    if places.as_slice().is_empty() {
        return Ok(sheet);
    }
    let mut own = Arc::unwrap_or_clone(sheet)?;
    own.rename(alloc, &places, old, new)?;
    Ok(Arc::new(alloc, own)?)
}

/// The places of the formulas, each of which is marked, with the word, by rows.
pub(crate) fn naming(cells: &Cells, marks: &Marks, word: &str) -> Result<Vec<(u32, u32)>, NoMemory>
    requires { AreMarked cells.now.table marks.now.table }
    ensures { IfOk result (λ places. AreNaming word.now cells.now.table places.items) }
{
    let mut places = marked_places(marks)?;
    places.retain(|place| has_word_at(cells, place.0, place.1, word));
    Ok(places)
}

/// Whether a formula with the word stands at the place.
fn has_word_at(cells: &Cells, row: u32, column: u32, word: &str) -> bool
    ensures { result ≡ has_word_at word.now cells.now.table (row, column) }
{
    match cells.get(row, column) {
        Some(content) => has_word(content, word),
        None => false,
    }
}

/// Whether the content is a formula with the word.
fn has_word(content: &Content, word: &str) -> bool
    ensures { result ≡ has_word word.now content.now }
{
    match content {
        Content::Formula(formula) => is_word_among(formula.pieces.as_slice(), word),
        _ => false,
    }
}

/// Whether one of the pieces is the word.
fn is_word_among(pieces: &[Piece], word: &str) -> bool
    ensures { result ≡ list_any (is_word word.now) pieces.now }
{
    pieces.iter().any(|piece| is_word(piece, word))
}

fn is_word(piece: &Piece, word: &str) -> bool
    ensures { result ≡ is_word word.now piece.now }
{
    match piece {
        Piece::Word(own) => own.as_str().eq_ignore_ascii_case(word),
        _ => false,
    }
}

/// Renames the old word in the formulas that stand at the places.
///
/// # Errors
///
/// [`NoMemory`] where memory runs out; it is renamed in some of them then.
pub(crate) fn rename_places(
    alloc: Global,
    cells: &mut Cells,
    places: &[(u32, u32)],
    old: &str,
    new: &str,
) -> Result<(), NoMemory>
    ensures renamed { OnOk result (cells.new.table ≡ fold (renamed_at old.now new.now) cells.old.table places.now) }
    ensures formulas { KeepsFormulas cells.old.table cells.new.table }
{
    for place in places {
        rename_at(alloc, cells, place.0, place.1, old, new)?;
    }
    Ok(())
}

/// Renames the old word in the formula that stands at the place.
///
/// # Errors
///
/// [`NoMemory`] where memory runs out; the cells hold what they held.
fn rename_at(
    alloc: Global,
    cells: &mut Cells,
    row: u32,
    column: u32,
    old: &str,
    new: &str,
) -> Result<(), NoMemory>
    ensures renamed { OnOk result (cells.new.table ≡ renamed_at old.now new.now cells.old.table (row, column)) }
    ensures formulas { KeepsFormulas cells.old.table cells.new.table }
{
    formulas_counted();
    if cells.get(row, column).is_none() {
        return Ok(());
    }
    match cells.get_mut(row, column) {
        Ok(content) => rename_in(alloc, content, old, new),
        Err(no_memory) => Err(no_memory),
    }
}

/// Renames the old word in a formula.
///
/// # Errors
///
/// [`NoMemory`] where memory runs out; the content is as it was.
fn rename_in(alloc: Global, content: &mut Content, old: &str, new: &str) -> Result<(), NoMemory>
    ensures renamed { OnOk result (content.new ≡ content_renamed old.now new.now content.old) }
    ensures unchanged { OnErr result (content.new ≡ content.old) }
{
    match content {
        Content::Formula(formula) => rename_word(alloc, formula, old, new),
        _ => Ok(()),
    }
}
