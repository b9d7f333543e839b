ghost use Rattle.std.specs.Prelude.{◌≡◌, false, IfOk, IfSome, IsTrue, OnOk, OnErr, ◌+◌, ◌<◌, ◌≤◌, option_and_then};
ghost use Rattle.std.specs.Option.{option_copied, IsSome};
ghost use Rattle.basic_filter.specs.Following.{filter_followed};
ghost use Rattle.ref_rewrite.specs.declared.cell_content.Content.{Content};
ghost use Rattle.cell_store.specs.Places.{AreFilledPlaces};
ghost use Rattle.cell_store.specs.Table.{Table, item_at, filled_places, most_filled, most_lines, HasPlace, HasItemsInside};
ghost use Rattle.world_model.specs.Counts.{formulas_at, formulas_in};
ghost use Rattle.world_model.specs.SheetChange.{LosesReferences, new_place_sheet, place_filtered, place_marked_hidden, place_merged, place_titled};
ghost use Rattle.world_model.specs.Writing.{table_written};
ghost use Rattle.grid_range.specs.Change.{Fits};
ghost use Rattle.merge_ranges.specs.Calls.{ListsJust};
ghost use Rattle.merge_ranges.specs.Following.{AreWithin, CameFrom, KeepsAll};
ghost use Rattle.dimension_ops.specs.References.{AreMarked, AreReferring, AreWithinOn, CanFollow, CanMove, TearsNone, is_formula_at};
ghost use Rattle.dimension_ops.specs.Lines.{SheetFollows, SheetMoves};
ghost use Rattle.dimension_ops.specs.Parts.{with_part};
ghost use Rattle.dimension_ops.specs.Renaming.{AreNaming};
ghost use Rattle.world_model.specs.RangeChange.{WordsRenamedIn};

use crate::following::{count_formulas, follow_places, references};
use crate::lines::keeps_places;
use crate::losing::lose_places;
use crate::part::Part;
use crate::renaming::{naming, rename_places};
use basic_filter::Filter;
use cell_store::{CellStore, tables_by_items};
use cell_value::{Duplicate, Items, NoMemory, Text};
use grid_range::{Area, SheetChange};
use merge_ranges::{Cut, Merges};
use ref_rewrite::Content;
use shared_grid::{Mark, SharedGrid};
use std::alloc::{AllocError, Global};
use std::marker::Model;
use world_model::formulas_counted;

/// What the cells of a sheet stand in.
pub(crate) type Cells = SharedGrid<Content>;

/// Where the formulas of a sheet stand.
pub(crate) type Marks = SharedGrid<Mark>;

/// A sheet of a spreadsheet (Sheets API v4 reference, Sheet).
#[derive(Drop)]
pub struct Sheet {
    id: u32,
    title: Text,
    hidden: bool,
    cells: Cells,
    /// A mark wherever a formula stands. Where memory ended within a write one may stand where none does.
    marks: Marks,
    formulas: u64,
    merges: Merges,
    filter: Option<Filter>,
}

impl Model for Sheet {
    ghost use Rattle.std.specs.Prelude.{◌≡◌};
    ghost use Rattle.world_model.specs.Counts.{formulas_in};
    ghost use Rattle.world_model.specs.Sheet.{PlaceSheet};
    ghost use Rattle.dimension_ops.specs.References.{AreMarked};
    ghost use Rattle.dimension_ops.specs.Coded.{sheet_code};

    ghost Value = { PlaceSheet };

    ghost coded = { sheet_code };

    ghost view = { λ s. record {
      id = s.id;
      title = s.title;
      hidden = s.hidden;
      table = s.cells.table;
      merges = s.merges;
      filter = s.filter;
    } };

    ghost invariant = { λ s. (s.formulas ≡ formulas_in s.cells.table) × AreMarked s.cells.table s.marks.table };
}

impl Sheet {
    /// An empty sheet of that size.
    ///
    /// # Errors
    ///
    /// [`NoMemory`] where memory runs out.
    pub(crate) fn empty(
        alloc: Global,
        id: u32,
        title: Text,
        rows: u32,
        cols: u32,
    ) -> Result<Sheet, NoMemory>
        requires { rows + cols ≤ most_lines }
        ensures { IfOk result (λ sheet. sheet ≡ new_place_sheet
            (record { id = id; title = title; hidden = false; rows = rows; cols = cols })) }
    {
        formulas_counted();
        Ok(Sheet {
            id,
            title,
            hidden: false,
            cells: SharedGrid::new(alloc, rows, cols)?,
            marks: SharedGrid::new(alloc, rows, cols)?,
            formulas: 0,
            merges: Merges::new(alloc),
            filter: None,
        })
    }

    /// The sheet's id.
    pub fn id(&self) -> u32
        ensures { result ≡ self.now.id }
    {
        self.id
    }

    /// The title, lent.
    pub fn title(&self) -> &Text
        ensures { result.now ≡ self.now.title }
    {
        &self.title
    }

    /// Whether the sheet is hidden.
    pub fn hidden(&self) -> bool
        ensures { result ≡ self.now.hidden }
    {
        self.hidden
    }

    /// How many rows the sheet has.
    pub fn rows(&self) -> u32
        ensures { result ≡ self.now.table.rows }
    {
        self.cells.rows()
    }

    /// How many columns the sheet has.
    pub fn cols(&self) -> u32
        ensures { result ≡ self.now.table.cols }
    {
        self.cells.cols()
    }

    /// Gives the sheet another title.
    pub(crate) fn set_title(&mut self, title: Text)
        ensures { self.new ≡ place_titled title self.old }
    {
        self.title = title;
    }

    /// Hides the sheet, or shows it.
    pub(crate) fn set_hidden(&mut self, hidden: bool)
        ensures { self.new ≡ place_marked_hidden hidden self.old }
    {
        self.hidden = hidden;
    }

    /// Gives the sheet other merges.
    pub(crate) fn set_merges(&mut self, merges: Merges)
        ensures { self.new ≡ place_merged merges self.old }
    {
        self.merges = merges;
    }

    /// Gives the sheet another basic filter, or none.
    pub(crate) fn set_filter(&mut self, filter: Option<Filter>)
        ensures { self.new ≡ place_filtered filter self.old }
    {
        self.filter = filter;
    }

    /// Gives the sheet another one of its parts.
    pub(crate) fn set(&mut self, part: Part)
        ensures { self.new ≡ with_part part self.old }
    {
        match part {
            Part::Title(title) => self.set_title(title),
            Part::Hidden(hidden) => self.set_hidden(hidden),
            Part::Merges(merges) => self.set_merges(merges),
            Part::BasicFilter(filter) => self.set_filter(filter),
        }
    }

    /// The merged cells, lent.
    pub fn merges(&self) -> &Merges
        ensures { result.now ≡ self.now.merges }
    {
        &self.merges
    }

    /// The basic filter, lent; None where there is none.
    pub fn filter(&self) -> Option<&Filter>
        ensures { option_copied result ≡ self.now.filter }
    {
        self.filter.as_ref()
    }

    /// What is stored at the place, lent; None where nothing is.
    pub fn content(&self, row: u32, column: u32) -> Option<&Content>
        ensures content { option_copied result ≡ item_at self.now.table row column }
        ensures inside { HasItemsInside self.now.table }
    {
        self.cells.get(row, column)
    }

    /// The places of the area at which something is stored, by rows. The area's sheet isn't looked at.
    ///
    /// # Errors
    ///
    /// [`NoMemory`] where memory runs out.
    pub fn places(&self, area: &Area) -> Result<Items<(u32, u32)>, NoMemory>
        ensures { IfOk result (AreFilledPlaces area.now self.now.table) }
    {
        self.cells.places(area)
    }

    /// How many cells are stored.
    pub fn filled(&self) -> u64
        ensures { result ≡ filled_places self.now.table }
    {
        self.cells.filled()
    }

    /// How many cells hold a formula.
    pub fn formulas(&self) -> u64
        ensures { result ≡ formulas_in self.now.table }
    {
        self.formulas
    }

    /// Stores the content at the place, or empties it.
    ///
    /// # Errors
    ///
    /// [`NoMemory`] where memory runs out; the sheet is as it was.
    pub(crate) fn put(
        &mut self,
        row: u32,
        column: u32,
        content: Option<Content>,
    ) -> Result<(), NoMemory>
        requires inside { HasPlace self.old.table row column }
        requires room { filled_places self.old.table < most_filled }
        ensures put { OnOk result
            (self.new ≡ record self.old { table = table_written row column content self.old.table }) }
        ensures unchanged { OnErr result (self.new ≡ self.old) }
    {
        formulas_counted();
        let added = formulas_at(&content);
        put_mark(&mut self.marks, row, column, added)?;
        let old = exchange(&mut self.cells, row, column, content)?;
        let taken = formulas_at(&old);
        take_mark(&mut self.marks, row, column, added);
        self.formulas = self.formulas + added - taken;
        Ok(())
    }

    /// The places of the formulas with a reference to the sheet with the id, by rows. Only marked cells are
    /// visited: those of formulas, and any where memory ended within a write.
    ///
    /// # Errors
    ///
    /// [`NoMemory`] where memory runs out.
    pub(crate) fn references(&self, sheet: u32) -> Result<Vec<(u32, u32)>, NoMemory>
        ensures { IfOk result (λ places. AreReferring sheet self.now.table places.items) }
    {
        references(&self.cells, &self.marks, sheet)
    }

    /// Has those formulas follow the change in their places.
    ///
    /// # Errors
    ///
    /// [`NoMemory`] where memory runs out; the sheet is to be given up then.
    pub(crate) fn follow(&mut self, places: &[(u32, u32)], by: &SheetChange) -> Result<(), NoMemory>
        requires fits { Fits by.now.change.now by.now.count }
        requires places { AreReferring by.now.sheet self.old.table places.now }
        requires within { AreWithinOn by.now.sheet by.now.axis by.now.count self.old.table }
        ensures { OnOk result (SheetFollows by.now.sheet by.now.axis by.now.count by.now.change.now self.old self.new) }
    {
        follow_places(&mut self.cells, places, by)?;
        Ok(())
    }

    /// The sheet after the change of its lines. Items go with their lines, and its merges and its filter follow;
    /// its formulas have yet to follow.
    ///
    /// # Errors
    ///
    /// [`NoMemory`] where memory runs out.
    pub(crate) fn moved(self, by: &SheetChange) -> Result<Sheet, NoMemory>
        requires fits { Fits by.now.change.now by.now.count }
        requires ready { CanMove by.now.axis by.now.count by.now.change.now self }
        ensures { IfOk result (SheetMoves by.now.axis by.now.count by.now.change.now self) }
    {
        tables_by_items::<Content>();
        let mut cells = self.cells;
        let mut marks = self.marks;
        let mut merges = self.merges;
        items_inside(&cells);
        cells.change(by.axis, by.change)?;
        marks.change(by.axis, by.change)?;
        merges_followed(&mut merges, by);
        let filter = filter_followed(self.filter, by);
        let stay = keeps_places(by.change, by.count);
        let formulas = counted_again(&cells, &marks, self.formulas, stay)?;
        Ok(Sheet {
            id: self.id,
            title: self.title,
            hidden: self.hidden,
            cells,
            marks,
            formulas,
            merges,
            filter,
        })
    }

    /// Has the references of those formulas to the sheet with the id be lost.
    ///
    /// # Errors
    ///
    /// [`NoMemory`] where memory runs out; the sheet is to be given up then.
    pub(crate) fn lose(&mut self, places: &[(u32, u32)], sheet: u32) -> Result<(), NoMemory>
        requires places { AreReferring sheet self.old.table places.now }
        ensures { OnOk result (LosesReferences sheet self.old self.new) }
    {
        lose_places(&mut self.cells, places, sheet)?;
        Ok(())
    }

    /// The places of the formulas with the word, whatever the case of its ASCII letters, by rows. Only marked cells are
    /// visited, as for references.
    ///
    /// # Errors
    ///
    /// [`NoMemory`] where memory runs out.
    pub(crate) fn naming(&self, word: &str) -> Result<Vec<(u32, u32)>, NoMemory>
        ensures { IfOk result (λ places. AreNaming word.now self.now.table places.items) }
    {
        naming(&self.cells, &self.marks, word)
    }

    /// Renames the word in those formulas.
    ///
    /// # Errors
    ///
    /// [`NoMemory`] where memory runs out; the sheet is to be given up then.
    pub(crate) fn rename(
        &mut self,
        alloc: Global,
        places: &[(u32, u32)],
        old: &str,
        new: &str,
    ) -> Result<(), NoMemory>
        requires places { AreNaming old.now self.old.table places.now }
        ensures { OnOk result (WordsRenamedIn old.now new.now self.old self.new) }
    {
        rename_places(alloc, &mut self.cells, places, old, new)?;
        Ok(())
    }
}

/// Each item of the cells stands in the sheet.
fn items_inside(cells: &Cells)
    ensures { HasItemsInside cells.now.table }
{
    let _held = cells.get(0, 0);
}

/// Has the merges of the sheet whose lines are changed follow the change, which tears none of them.
fn merges_followed(merges: &mut Merges, by: &SheetChange)
    requires fits { Fits by.now.change.now by.now.count }
    requires within { AreWithin by.now.axis by.now.count merges.old }
    requires untorn { TearsNone by.now.axis by.now.count by.now.change.now merges.old }
    ensures whole { KeepsAll by.now.axis by.now.count by.now.change.now merges.old }
    ensures followed { ListsJust (CameFrom by.now.axis by.now.count by.now.change.now merges.old) merges.new }
{
    match merges.change(by.axis, by.count, by.change) {
        Ok(()) => {}
        Err(Cut) => unreachable!(),
    }
}

/// The filter of the sheet whose lines are changed, after the change; it is lost with its area.
fn filter_followed(filter: Option<Filter>, by: &SheetChange) -> Option<Filter>
    requires fits { Fits by.now.change.now by.now.count }
    requires ready { IfSome filter (CanFollow by.now.axis by.now.count) }
    ensures { result ≡ option_and_then (filter_followed by.now.axis by.now.count by.now.change.now) filter }
{
    match filter {
        Some(held) => one_followed(held, by),
        None => None,
    }
}

/// The filter after the change; None where its area is lost.
fn one_followed(filter: Filter, by: &SheetChange) -> Option<Filter>
    requires fits { Fits by.now.change.now by.now.count }
    requires ready { CanFollow by.now.axis by.now.count filter }
    ensures { result ≡ filter_followed by.now.axis by.now.count by.now.change.now filter }
{
    let mut followed = filter;
    if followed.change(by.axis, by.count, by.change) {
        Some(followed)
    } else {
        None
    }
}

/// How many formulas the cells hold: as many as before where they stayed in their places, and else they are
/// counted where marks stand.
fn counted_again(cells: &Cells, marks: &Marks, before: u64, stay: bool) -> Result<u64, NoMemory>
    requires marked { AreMarked cells.now.table marks.now.table }
    requires stay { IsTrue stay → formulas_in cells.now.table ≡ before }
    ensures { IfOk result (λ count. count ≡ formulas_in cells.now.table) }
{
    if stay {
        return Ok(before);
    }
    count_formulas(cells, marks)
}

/// Marks the place where a formula comes to stand there.
///
/// # Errors
///
/// [`NoMemory`] where memory runs out.
fn put_mark(marks: &mut Marks, row: u32, column: u32, formulas: u64) -> Result<(), NoMemory>
    requires { HasPlace marks.old.table row column }
    ensures others { (table : Table Content) → AreMarked table marks.old.table → AreMarked table marks.new.table }
    ensures marked { OnOk result (0 < formulas → IsSome (item_at marks.new.table row column)) }
{
    tables_by_items::<Mark>();
    if formulas == 0 {
        return Ok(());
    }
    match marks.put(row, column, Mark) {
        Ok(_) => Ok(()),
        Err(_) => Err(NoMemory),
    }
}

/// Takes the mark from the place where no formula came to stand there. It stays where memory runs out.
fn take_mark(marks: &mut Marks, row: u32, column: u32, formulas: u64)
    ensures { (table : Table Content)
        → (formulas ≡ 0 → is_formula_at table (row, column) ≡ Rattle.std.specs.Prelude.false)
        → AreMarked table marks.old.table → AreMarked table marks.new.table }
{
    tables_by_items::<Mark>();
    if formulas == 0 {
        drop(marks.take(row, column));
    }
}

/// One where what a place holds is a formula, or else none.
fn formulas_at(held: &Option<Content>) -> u64
    ensures { result ≡ formulas_at held.now }
{
    match held {
        Some(content) => match content {
            Content::Formula(_) => 1,
            _ => 0,
        },
        None => 0,
    }
}

/// Stores the content at the place of the cells, or empties it, and gives what was there.
fn exchange(
    cells: &mut Cells,
    row: u32,
    column: u32,
    content: Option<Content>,
) -> Result<Option<Content>, NoMemory>
    requires inside { HasPlace cells.old.table row column }
    requires room { filled_places cells.old.table < most_filled }
    ensures old { IfOk result (λ old. old ≡ item_at cells.old.table row column) }
    ensures put { OnOk result (cells.new.table ≡ table_written row column content cells.old.table) }
    ensures unchanged { OnErr result (cells.new.table ≡ cells.old.table) }
{
    match content {
        Some(content) => match cells.put(row, column, content) {
            Ok(old) => Ok(old),
            Err(_) => Err(NoMemory),
        },
        None => Ok(cells.take(row, column)?),
    }
}

/// A copy of the filter, if there is one.
fn copy_filter(filter: &Option<Filter>) -> Result<Option<Filter>, NoMemory>
    ensures { IfOk result (λ copy. copy ≡ filter.now) }
{
    match filter {
        Some(filter) => Ok(Some(filter.duplicate()?)),
        None => Ok(None),
    }
}

impl Duplicate for Sheet {
    fn duplicate(&self) -> Result<Sheet, NoMemory> {
        Ok(Sheet {
            id: self.id,
            title: self.title.duplicate()?,
            hidden: self.hidden,
            cells: self.cells.copy()?,
            marks: self.marks.copy()?,
            formulas: self.formulas,
            merges: self.merges.duplicate()?,
            filter: copy_filter(&self.filter)?,
        })
    }
}

impl Clone for Sheet {
    ghost use Rattle.std.specs.Prelude.{◌≡◌};

    ghost is_clone = { λ old new. new ≡ old };

    fn clone(&self) -> Result<Sheet, AllocError> {
        match self.duplicate() {
            Ok(sheet) => Ok(sheet),
            Err(_) => Err(AllocError),
        }
    }
}
