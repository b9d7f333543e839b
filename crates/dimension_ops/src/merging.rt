//! Cells of a spreadsheet are merged, and merges dissolved.

ghost use Rattle.std.specs.Prelude.{◌≡◌, ◌↔◌, ◌∷◌, [], Err, IfOk, IfErr, OnErr, OnOk, IsSomeAnd};
ghost use Rattle.merge_ranges.specs.Calls.{IsLeft, IsLeftOrPart};
ghost use Rattle.merge_ranges.specs.Merges.{IsMerge, IsRectangle};
ghost use Rattle.merge_ranges.specs.Tests.{lines_of};
ghost use Rattle.merge_ranges.specs.declared.fault.MergeFault.TheVariants.{Cut};
ghost use Rattle.world_model.specs.Sound.{IsOnSheet, place_sheet_with};
ghost use Rattle.dimension_ops.specs.MergeRequests.{CutsOne, MergesBecome};

use crate::book::Book;
use cell_value::Duplicate;
use grid_range::{Area, Axis};
use merge_ranges::{MergeFault, Merges};

impl Book {
    /// Merges the cells of the area, which has more than one, in its sheet. The merges that it holds whole are
    /// dissolved first (Sheets API v4 reference, MergeCellsRequest).
    ///
    /// # Errors
    ///
    /// [`MergeFault::Cut`] exactly where the area has a cell of a merge of its sheet and not all of them;
    /// [`MergeFault::NoMemory`] where memory runs out. The spreadsheet is as it was.
    pub fn add_merge(&mut self, area: &Area) -> Result<(), MergeFault>
        requires there { IsOnSheet self.old.sheets area.now }
        requires cells { IsMerge area.now }
        ensures cut { (result ≡ Err Cut) ↔ CutsOne area.now self.old.sheets }
        ensures added { OnOk result
            (MergesBecome area.now.sheet (λ merges. IsLeftOrPart area.now merges (area.now ∷ [])) self.old self.new) }
        ensures unchanged { OnErr result (self.new ≡ self.old) }
    {
        self.stays_sound();
        let mut merges = uncut(self, area)?;
        merges.add(area)?;
        self.set_merges(area.sheet, merges)?;
        Ok(())
    }

    /// Merges the cells of each line of the area on the axis by themselves, in its sheet. The merges that the
    /// area holds whole are dissolved first, and a line of one cell isn't merged (Sheets API v4 reference,
    /// MergeCellsRequest and MergeType).
    ///
    /// # Errors
    ///
    /// [`MergeFault::Cut`] exactly where the area has a cell of a merge of its sheet and not all of them;
    /// [`MergeFault::NoMemory`] where memory runs out. The spreadsheet is as it was.
    pub fn add_merges(&mut self, area: &Area, axis: Axis) -> Result<(), MergeFault>
        requires there { IsOnSheet self.old.sheets area.now }
        requires cells { IsRectangle area.now }
        ensures cut { (result ≡ Err Cut) ↔ CutsOne area.now self.old.sheets }
        ensures added { OnOk result
            (MergesBecome area.now.sheet (λ merges. IsLeftOrPart area.now merges (lines_of axis area.now))
            self.old self.new) }
        ensures unchanged { OnErr result (self.new ≡ self.old) }
    {
        self.stays_sound();
        let mut merges = uncut(self, area)?;
        merges.add_lines(area, axis)?;
        self.set_merges(area.sheet, merges)?;
        Ok(())
    }

    /// Dissolves the merges in the area, of its sheet (Sheets API v4 reference, UnmergeCellsRequest).
    ///
    /// # Errors
    ///
    /// [`MergeFault::Cut`] exactly where the area has a cell of a merge of its sheet and not all of them;
    /// [`MergeFault::NoMemory`] where memory runs out. The spreadsheet is as it was.
    pub fn split_merges(&mut self, area: &Area) -> Result<(), MergeFault>
        requires there { IsOnSheet self.old.sheets area.now }
        ensures cut { (result ≡ Err Cut) ↔ CutsOne area.now self.old.sheets }
        ensures left { OnOk result (MergesBecome area.now.sheet (IsLeft area.now) self.old self.new) }
        ensures unchanged { OnErr result (self.new ≡ self.old) }
    {
        self.stays_sound();
        let mut merges = uncut(self, area)?;
        merges.split(area)?;
        self.set_merges(area.sheet, merges)?;
        Ok(())
    }
}

/// A copy of the merges of the area's sheet, which is there.
///
/// # Errors
///
/// [`MergeFault::Cut`] exactly where the area has a cell of one of them and not all of them;
/// [`MergeFault::NoMemory`] where memory runs out.
fn uncut(book: &Book, area: &Area) -> Result<Merges, MergeFault>
    requires { IsOnSheet book.now.sheets area.now }
    ensures cut { (result ≡ Err Cut) ↔ CutsOne area.now book.now.sheets }
    ensures merges { IfOk result (λ merges. IsSomeAnd (place_sheet_with area.now.sheet book.now.sheets)
        (λ sheet. sheet.merges ≡ merges)) }
{
    let Some(sheet) = book.sheet(area.sheet) else {
        unreachable!();
    };
    if sheet.merges().are_cut_by(area) {
        return Err(MergeFault::Cut);
    }
    Ok(sheet.merges().duplicate()?)
}
