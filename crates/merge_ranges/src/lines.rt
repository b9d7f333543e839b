ghost use Rattle.std.specs.Prelude.{◌≡◌, ◌≤◌, ◌<◌, ℕ, ◌+◌, ◌++◌, ◌||◌, ◌&&◌, Some, None, false, length, nat_le, nat_lt, IsSome, IfOk, OnOk, OnErr, slice_index_or, filter};
ghost use Rattle.std.specs.List.{All, list_any};
ghost use Rattle.std.specs.List.Sorted.{IsNonDecreasingBy, IsPermutation};
ghost use Rattle.grid_range.specs.Area.{band_on};
ghost use Rattle.grid_range.specs.Band.{first_line};
ghost use Rattle.merge_ranges.specs.Lines.{band_across, covers_on, covered_of, covered_places, reaches, BeginsLater, IsLineAsked, IsRising, IsTold, Tells};
ghost use Rattle.merge_ranges.specs.Merges.{AreMerges, IsMerge, IsRectangle};
ghost use Rattle.merge_ranges.specs.Tests.{has_cell_of};

use crate::area::{has_cell_of, line_count};
use cell_value::NoMemory;
use grid_range::{Area, Axis, Band};
use std::alloc::Global;
use std::marker::Model;

/// Which cells of an area merges cover, for one of its lines on an axis after another; lines are counted
/// from 0 (Sheets API v4 reference, `merges` of Sheet). Of the merges only those are kept that have a
/// cell of the area. Each is taken up at the line where it begins, and let go behind the one where it
/// ends, so that a line looks only at merges that it meets.
#[derive(Debug, Drop)]
pub struct CoveredLines {
    axis: Axis,
    area: Area,
    merges: Vec<Area>,
    taken: usize,
    current: Vec<Area>,
    line: Option<u32>,
    told: Vec<bool>,
}

impl Model for CoveredLines {
    ghost use Rattle.std.specs.Prelude.{◌≡◌, ◌≤◌, vec_len, IfSome};
    ghost use Rattle.std.specs.List.{All};
    ghost use Rattle.std.specs.List.Sorted.{IsNonDecreasingBy};
    ghost use Rattle.grid_range.specs.Area.{band_on};
    ghost use Rattle.grid_range.specs.Band.{first_line};
    ghost use Rattle.merge_ranges.specs.Lines.{AreCurrent, LineAsked, Tells, covered_places, places_in};
    ghost use Rattle.merge_ranges.specs.Merges.{IsMerge};

    ghost Value = { LineAsked };

    ghost view = { λ s. record {
      axis = s.axis;
      area = s.area;
      merges = s.merges.items;
      line = s.line;
    } };

    ghost invariant = { λ s. All IsMerge s.merges.items
        × IsNonDecreasingBy (λ merge. first_line (band_on s.axis merge)) s.merges.items
        × (s.taken ≤ vec_len s.merges)
        × AreCurrent s.axis s.merges.items s.taken s.line s.current.items
        × (vec_len s.told ≡ places_in s.axis s.area)
        × IfSome s.line (λ line. Tells (covered_places s.axis s.area s.merges.items line)
        (vec_len s.told) s.told.items) };
}

impl CoveredLines {
    /// No line is asked for yet.
    pub(crate) fn new(
        alloc: Global,
        merges: &[Area],
        axis: Axis,
        area: &Area,
    ) -> Result<CoveredLines, NoMemory>
        requires merges { AreMerges merges.now }
        requires ends { IsRectangle area.now }
        ensures covered { IfOk result (λ lines. covered_of lines ≡ covered_places axis area.now merges.now) }
        ensures axis { IfOk result (λ lines. lines.axis ≡ axis) }
        ensures area { IfOk result (λ lines. lines.area ≡ area.now) }
        ensures none { IfOk result (λ lines. lines.line ≡ None) }
    {
        let places = line_count(band_across(area, axis));
        Ok(CoveredLines {
            axis,
            area: *area,
            merges: by_first_line(alloc, merges, axis, area)?,
            taken: 0,
            current: Vec::new(alloc),
            line: None,
            told: vec![in alloc; false; places as usize]?,
        })
    }

    /// Asks for a line of the area, before which no later one was asked for.
    ///
    /// # Errors
    ///
    /// [`NoMemory`] where memory runs out; the line that was asked for last still is.
    pub fn go_to(&mut self, line: u32) -> Result<(), NoMemory>
        requires there { IsLineAsked self.old line }
        requires rising { IsRising self.old.line line }
        ensures there { OnOk result (self.new ≡ record self.old { line = Some line }) }
        ensures unchanged { OnErr result (self.new ≡ self.old) }
    {
        let begun = begun_by(&self.merges, self.axis, self.taken, line);
        let more = &self.merges[self.taken..begun];
        take_up(&mut self.current, more, self.axis, line)?;
        self.taken = begun;
        self.line = Some(line);
        let first = band_across(&self.area, self.axis).first_line();
        tell(&mut self.told, &self.current, self.axis, first, line);
        Ok(())
    }

    /// For each place of the line that was asked for last, whether a merge covers the cell:
    /// it holds it, and it isn't the merge's upper-left one.
    pub fn covered(&self) -> &[bool]
        requires { IsSome self.now.line }
        ensures { IsTold self.now result.now }
    {
        self.told.as_slice()
    }
}

/// The area's lines across.
fn band_across(area: &Area, axis: Axis) -> Band
    ensures { result ≡ band_across axis area.now }
{
    match axis {
        Axis::Rows => area.cols,
        Axis::Columns => area.rows,
    }
}

/// Tells of each of the places whether one of the merges covers the cell in the line.
fn tell(told: &mut [bool], merges: &[Area], axis: Axis, first: u32, line: u32)
    requires { All IsMerge merges.now }
    ensures { Tells (λ place. list_any (λ merge. covers_on axis merge line (first + place)) merges.now)
        (length told.old) told.new }
{
    told.fill(false);
    for merge in merges {
        mark(told, merge, axis, first, line);
    }
}

/// Marks the places whose cells in the line the merge covers.
fn mark(told: &mut [bool], merge: &Area, axis: Axis, first: u32, line: u32)
    requires { IsMerge merge.now }
    ensures long { length told.new ≡ length told.old }
    ensures marked { (place : ℕ) → place < length told.old
        → slice_index_or told.new place false
        ≡ (slice_index_or told.old place false || covers_on axis merge.now line (first + place)) }
{
    let (start, past) = covered_across(merge, axis, line);
    let end = (past.saturating_sub(first) as usize).min(told.len());
    for place in start.saturating_sub(first) as usize..end {
        told[place] = true;
    }
}

/// The first line across in which the merge covers the cell in the line, and the one past the last.
fn covered_across(merge: &Area, axis: Axis, line: u32) -> (u32, u32)
    requires { IsMerge merge.now }
    ensures { (across : ℕ) → covers_on axis merge.now line across ≡ (nat_le result.0 across && nat_lt across result.1) }
{
    let (along, across) = (merge.band_on(axis), band_across(merge, axis));
    let (start, past) = (across.first_line(), across.end_line(0));
    if line < along.first_line() || along.end_line(0) <= line {
        (past, past)
    } else if line == along.first_line() {
        (start + 1, past)
    } else {
        (start, past)
    }
}

/// How many of the merges are taken once those are that begin at the line or before it.
fn begun_by(merges: &[Area], axis: Axis, taken: usize, line: u32) -> usize
    requires { taken ≤ length merges.now }
    ensures more { taken ≤ result }
    ensures within { result ≤ length merges.now }
    ensures later { BeginsLater axis merges.now result line }
{
    let mut begun = taken;
    while begun < merges.len() && merges[begun].band_on(axis).first_line() <= line {
        begun += 1;
    }
    begun
}

/// Takes up more merges, and lets go of those whose last line is before that one.
fn take_up(current: &mut Vec<Area>, more: &[Area], axis: Axis, line: u32) -> Result<(), NoMemory>
    ensures taken { OnOk result (current.new.items
        ≡ filter (reaches axis line) (current.old.items ++ more.now)) }
    ensures unchanged { OnErr result (current.new.items ≡ current.old.items) }
{
    current.extend_from_slice(more)?;
    current.retain(|merge| line < merge.band_on(axis).end_line(0));
    Ok(())
}

/// The merges that have a cell of the area, by their first lines on the axis.
fn by_first_line(
    alloc: Global,
    merges: &[Area],
    axis: Axis,
    area: &Area,
) -> Result<Vec<Area>, NoMemory>
    ensures same { IfOk result (λ left. IsPermutation (filter (has_cell_of area.now) merges.now) left.items) }
    ensures in_order { IfOk result (λ left. IsNonDecreasingBy (λ merge. first_line (band_on axis merge)) left.items) }
{
    let mut left = in_area(alloc, merges, area)?;
    left.sort_unstable_by_key(|merge| merge.band_on(axis).first_line());
    Ok(left)
}

/// The merges that have a cell of the area.
fn in_area(alloc: Global, merges: &[Area], area: &Area) -> Result<Vec<Area>, NoMemory>
    ensures { IfOk result (λ left. left.items ≡ filter (has_cell_of area.now) merges.now) }
{
    Ok(
        merges
            .iter()
            .copied()
            .filter(|merge| has_cell_of(area, merge))
            .collect(alloc)?,
    )
}
