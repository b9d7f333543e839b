ghost use Rattle.std.specs.Prelude.{◌≡◌, ◌↔◌, List, ◌∷◌, ◌++◌, ◌+◌, ◌<◌, ◌^◌, [], None, cond, not, length, vec_len, vec_capacity, ◌≤◌, IsTrue, IsErr, IfOk, OnOk, OnErr, Any, filter};
ghost use Rattle.std.specs.List.{list_any, filter_map};
ghost use Rattle.std.specs.List.Sorted.{IsPermutation, IsSortedByKey};
ghost use Rattle.grid_range.specs.Area.{band_on, first_cell, by_rows};
ghost use Rattle.grid_range.specs.Change.{Fits, count_after};
ghost use Rattle.grid_range.specs.Tearing.{IsTorn};
ghost use Rattle.merge_ranges.specs.Merges.{IsMerge, IsRectangle, AreMerges, Covers, covers, is_covered};
ghost use Rattle.merge_ranges.specs.Calls.{AreParts, Cuts, ListsJust, IsLeft, IsLeftOrPart};
ghost use Rattle.merge_ranges.specs.Following.{AreWithin, CameFrom, KeepsAll};
ghost use Rattle.merge_ranges.specs.Lines.{covered_of, covered_places};
ghost use Rattle.merge_ranges.specs.Tests.{holds_all, cuts, has_many_cells, left_by, left_count, line_of, lines_of, merge_after, tears_merge};

use crate::area::{cuts, first_cell, has_many_cells, holds_all, past_line};
use crate::fault::{Cut, MergeFault};
use crate::follow::{LineChange, is_tearing};
use crate::lines::CoveredLines;
use cell_value::{Duplicate, Items, NoMemory};
use grid_range::{
    Area, Axis, Band, Change, spans_stay_apart, tears_where_torn, torn_or_whole, tracks_stay_within,
};
use std::alloc::Global;
use std::marker::Model;

/// The merges of one sheet: rectangles of more than one cell, no two of which have a cell in common,
/// by first row, then by first column (Sheets API v4 reference, `merges` of Sheet). The sheet of an
/// area isn't looked at.
#[derive(Debug, Drop)]
pub struct Merges {
    alloc: Global,
    items: Items<Area>,
}

impl Model for Merges {
    ghost use Rattle.std.specs.Prelude.{List};
    ghost use Rattle.grid_range.specs.declared.area.Area.{Area};
    ghost use Rattle.merge_ranges.specs.Merges.{AreMerges};

    ghost Value = { List Area };

    ghost view = { λ m. m.items };

    ghost invariant = { λ m. AreMerges m.items };
}

impl Merges {
    /// No merges. It takes no memory.
    pub fn new(alloc: Global) -> Merges
        ensures { result ≡ [] }
    {
        Merges {
            alloc,
            items: Items::of(Vec::new(alloc)),
        }
    }

    /// How many merges there are.
    pub fn count(&self) -> u64
        ensures { result ≡ length self.now }
    {
        self.items.as_slice().len() as u64
    }

    /// The merges by first row, then by first column, lent.
    pub fn list(&self) -> &Items<Area>
        ensures list { result.now ≡ self.now }
        ensures merges { AreMerges self.now }
    {
        &self.items
    }

    /// Whether a merge covers the cell: it holds it, and it isn't the merge's upper-left one.
    pub fn covers(&self, row: u32, col: u32) -> bool
        ensures covered { IsTrue result ↔ Any (λ merge. Covers merge row col) self.now }
        ensures test { result ≡ is_covered self.now row col }
    {
        self.items
            .as_slice()
            .iter()
            .any(|merge| covers(merge, row, col))
    }

    /// Whether the change of the rows or of the columns, of which there are `count`, is a move after
    /// which the lines of a merge don't stand side by side in their old order.
    pub fn tears(&self, axis: Axis, count: u32, change: &Change) -> bool
        requires fits { Fits change.now count }
        requires within { AreWithin axis count self.now }
        ensures torn { IsTrue result ↔ Any (λ merge. IsTorn change.now count (band_on axis merge)) self.now }
        ensures test { result ≡ list_any (tears_merge axis count change.now) self.now }
    {
        tears_where_torn();
        is_tearing(self.items.as_slice(), axis, count, change)
    }

    /// Which cells of an area merges cover, for one of its lines on the axis after another. It looks
    /// once at each merge, and takes memory for those alone that have a cell of the area.
    ///
    /// # Errors
    ///
    /// [`NoMemory`] where memory runs out.
    pub fn covered_lines(&self, axis: Axis, area: &Area) -> Result<CoveredLines, NoMemory>
        requires { IsRectangle area.now }
        ensures covered { IfOk result (λ lines. covered_of lines ≡ covered_places axis area.now self.now) }
        ensures axis { IfOk result (λ lines. lines.axis ≡ axis) }
        ensures area { IfOk result (λ lines. lines.area ≡ area.now) }
        ensures none { IfOk result (λ lines. lines.line ≡ None) }
    {
        CoveredLines::new(self.alloc, self.items.as_slice(), axis, area)
    }

    /// How many merges the area doesn't hold whole.
    pub fn left_by(&self, area: &Area) -> u64
        ensures left { (left : List Area) → ListsJust (IsLeft area.now self.now) left → result ≡ length left }
        ensures count { result ≡ left_count area.now self.now }
    {
        left_count(self.items.as_slice(), area)
    }

    /// Whether the area has a cell of a merge, and not all of them.
    pub fn are_cut_by(&self, area: &Area) -> bool
        ensures { IsTrue result ↔ Any (Cuts area.now) self.now }
    {
        is_cutting(self.items.as_slice(), area)
    }

    /// Merges the cells of the area; the merges that it holds whole are dissolved first (Sheets API
    /// v4 reference, MergeCellsRequest).
    ///
    /// # Errors
    ///
    /// [`MergeFault::Cut`] exactly where the area has a cell of a merge and not all of them;
    /// [`MergeFault::NoMemory`] where memory runs out. The merges are as they were.
    pub fn add(&mut self, area: &Area) -> Result<(), MergeFault>
        requires { IsMerge area.now }
        ensures cut { (result ≡ Err MergeFault.Cut) ↔ Any (Cuts area.now) self.old }
        ensures added { OnOk result (ListsJust (IsLeftOrPart area.now self.old (area.now ∷ [])) self.new) }
        ensures unchanged { OnErr result (self.new ≡ self.old) }
    {
        if self.are_cut_by(area) {
            return Err(MergeFault::Cut);
        }
        self.put_in(area, &[*area])?;
        Ok(())
    }

    /// Merges the cells of each line of the area on the axis by themselves; the merges that the area
    /// holds whole are dissolved first, and a line of one cell isn't merged (Sheets API v4 reference,
    /// MergeCellsRequest and MergeType).
    ///
    /// # Errors
    ///
    /// [`MergeFault::Cut`] exactly where the area has a cell of a merge and not all of them;
    /// [`MergeFault::NoMemory`] where memory runs out. The merges are as they were.
    pub fn add_lines(&mut self, area: &Area, axis: Axis) -> Result<(), MergeFault>
        requires { IsRectangle area.now }
        ensures cut { (result ≡ Err MergeFault.Cut) ↔ Any (Cuts area.now) self.old }
        ensures added { OnOk result (ListsJust (IsLeftOrPart area.now self.old (lines_of axis area.now)) self.new) }
        ensures unchanged { OnErr result (self.new ≡ self.old) }
    {
        if self.are_cut_by(area) {
            return Err(MergeFault::Cut);
        }
        let lines = lines_of(self.alloc, area, axis)?;
        self.put_in(area, lines.as_slice())?;
        Ok(())
    }

    /// Puts parts of the area, which cuts no merge, in the place of the merges that it holds whole.
    fn put_in(&mut self, area: &Area, parts: &[Area]) -> Result<(), NoMemory>
        requires whole { ¬ (Any (Cuts area.now) self.old) }
        requires parts { AreParts area.now parts.now }
        ensures put { OnOk result (ListsJust (IsLeftOrPart area.now self.old parts.now) self.new) }
        ensures unchanged { OnErr result (self.new ≡ self.old) }
    {
        let mut merges = self.items.take().into_vec();
        let done = put(&mut merges, area, parts);
        self.items = Items::of(merges);
        done
    }

    /// Dissolves the merges in the area, which takes no memory (Sheets API v4 reference,
    /// UnmergeCellsRequest).
    ///
    /// # Errors
    ///
    /// [`Cut`] exactly where the area has a cell of a merge and not all of them; the merges are as
    /// they were.
    pub fn split(&mut self, area: &Area) -> Result<(), Cut>
        ensures cut { IsErr result ↔ Any (Cuts area.now) self.old }
        ensures left { OnOk result (ListsJust (IsLeft area.now self.old) self.new) }
        ensures unchanged { OnErr result (self.new ≡ self.old) }
    {
        if self.are_cut_by(area) {
            return Err(Cut);
        }
        let mut merges = self.items.take().into_vec();
        dissolve(&mut merges, area);
        self.items = Items::of(merges);
        Ok(())
    }

    /// Makes the change of the rows or of the columns, of which there are `count`, and takes no
    /// memory. Each merge is followed; those that are lost go, and those of which one cell is left.
    ///
    /// # Errors
    ///
    /// [`Cut`] exactly where the change is a move after which the lines of a merge don't stand side
    /// by side in their old order; the merges are as they were.
    pub fn change(&mut self, axis: Axis, count: u32, change: &Change) -> Result<(), Cut>
        requires fits { Fits change.now count }
        requires within { AreWithin axis count self.old }
        ensures torn { OnErr result (Any (λ merge. IsTorn change.now count (band_on axis merge)) self.old) }
        ensures whole { OnOk result (KeepsAll axis count change.now self.old) }
        ensures followed { OnOk result (ListsJust (CameFrom axis count change.now self.old) self.new) }
        ensures within { OnOk result (AreWithin axis (count_after change.now count) self.new) }
        ensures unchanged { OnErr result (self.new ≡ self.old) }
    {
        tears_where_torn();
        torn_or_whole();
        tracks_stay_within();
        spans_stay_apart();
        if is_tearing(self.items.as_slice(), axis, count, change) {
            return Err(Cut);
        }
        let by = LineChange {
            axis,
            count,
            change,
        };
        follow_all(&mut self.items, &by);
        Ok(())
    }
}

impl Duplicate for Merges {
    fn duplicate(&self) -> Result<Merges, NoMemory> {
        let items = Vec::from_slice(self.alloc, self.items.as_slice())?;
        Ok(Merges {
            alloc: self.alloc,
            items: Items::of(items),
        })
    }
}

/// Whether the merge covers the cell.
fn covers(merge: &Area, row: u32, col: u32) -> bool
    ensures covered { IsTrue result ↔ Covers merge.now row col }
    ensures test { result ≡ covers merge.now row col }
{
    merge.holds(row, col) && first_cell(merge) != (row, col)
}

/// Whether the area has a cell of one of the merges, and not all of them.
fn is_cutting(merges: &[Area], area: &Area) -> bool
    ensures { result ≡ list_any (cuts area.now) merges.now }
{
    merges.iter().any(|merge| cuts(area, merge))
}

/// How many of the merges the area doesn't hold whole.
fn left_count(merges: &[Area], area: &Area) -> u64
    ensures { result ≡ left_count area.now merges.now }
{
    merges
        .iter()
        .filter(|merge| !holds_all(area, merge))
        .count() as u64
}

/// Takes out the merges that the area holds whole.
fn dissolve(merges: &mut Vec<Area>, area: &Area)
    ensures left { merges.new.items ≡ left_by area.now merges.old.items }
    ensures fewer { vec_len merges.new ≤ vec_len merges.old }
    ensures capacity { vec_capacity merges.new ≡ vec_capacity merges.old }
{
    merges.retain(|merge| !holds_all(area, merge));
}

/// The lines of the area on the axis that have more than one cell.
fn lines_of(alloc: Global, area: &Area, axis: Axis) -> Result<Vec<Area>, NoMemory>
    requires { IsRectangle area.now }
    ensures { IfOk result (λ lines. lines.items ≡ lines_of axis area.now) }
{
    let band = area.band_on(axis);
    let (first, past) = (band.first_line(), past_line(band));
    let mut lines = Vec::new(alloc);
    for line in first..past {
        push_line(&mut lines, area, axis, line)?;
    }
    Ok(lines)
}

/// Puts the line of the area on the axis behind the others, where it has more than one cell.
fn push_line(lines: &mut Vec<Area>, area: &Area, axis: Axis, line: u32) -> Result<(), NoMemory>
    requires { line + 1 < 2 ^ 32 }
    ensures { OnOk result (lines.new.items ≡ lines.old.items
        ++ cond (has_many_cells (line_of axis area.now line)) (line_of axis area.now line ∷ []) []) }
{
    let line = line_of(area, axis, line);
    if !has_many_cells(&line) {
        return Ok(());
    }
    Ok(lines.push(line)?)
}

/// The line of the area on the axis, of which it is one.
fn line_of(area: &Area, axis: Axis, line: u32) -> Area
    requires { line + 1 < 2 ^ 32 }
    ensures { result ≡ line_of axis area.now line }
{
    let band = Band::Span(line, line + 1);
    match axis {
        Axis::Rows => Area {
            rows: band,
            ..*area
        },
        Axis::Columns => Area {
            cols: band,
            ..*area
        },
    }
}

/// Puts the parts of the area in the place of the merges that it holds whole.
fn put(merges: &mut Vec<Area>, area: &Area, parts: &[Area]) -> Result<(), NoMemory>
    ensures put { OnOk result (IsPermutation
        (left_by area.now merges.old.items ++ parts.now)
        merges.new.items) }
    ensures in_order { OnOk result (IsSortedByKey first_cell by_rows merges.new.items) }
    ensures unchanged { OnErr result (merges.new.items ≡ merges.old.items) }
{
    merges.reserve(parts.len())?;
    dissolve(merges, area);
    merges.extend_from_slice(parts)?;
    sort(merges);
    Ok(())
}

/// Puts the areas in order.
fn sort(areas: &mut Vec<Area>)
    ensures same { IsPermutation areas.old.items areas.new.items }
    ensures in_order { IsSortedByKey first_cell by_rows areas.new.items }
{
    areas.sort_unstable_by_key(|area| first_cell(area));
}

/// Has the merges follow the change, and puts those that are left in order.
fn follow_all(merges: &mut Items<Area>, by: &LineChange)
    requires fits { Fits by.now.change.now by.now.count }
    requires within { AreWithin by.now.axis by.now.count merges.old }
    ensures followed { IsPermutation
        (filter_map (merge_after by.now.axis by.now.count by.now.change.now) merges.old) merges.new }
    ensures in_order { IsSortedByKey first_cell by_rows merges.new }
    ensures within { AreWithin by.now.axis (count_after by.now.change.now by.now.count) merges.new }
{
    merges.follow(by);
    let mut areas = merges.take().into_vec();
    sort(&mut areas);
    *merges = Items::of(areas);
}
