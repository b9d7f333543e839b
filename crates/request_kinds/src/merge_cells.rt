ghost use Rattle.std.specs.Prelude.{◌≡◌, ◌<◌, if◌then◌else◌, length, OnOk};
ghost use Rattle.grid_range.specs.Area.{AreaWithin};
ghost use Rattle.grid_range.specs.Band.{Within};
ghost use Rattle.merge_ranges.specs.Merges.{HasEnds, IsRectangle};
ghost use Rattle.merge_ranges.specs.Tests.{has_many_lines, line_count};
ghost use Rattle.world_model.specs.BookChange.{AreChanges};
ghost use Rattle.world_model.specs.Updating.{BookUpdated};
ghost use Rattle.dimension_ops.specs.MergeRequests.{CutsOne, MergesBecome};
ghost use Rattle.dimension_ops.specs.Rules.{IsUnlessNoMemory};
ghost use Rattle.values_api.specs.Ranges.{IsThere};
ghost use Rattle.request_kinds.specs.Telling.{IsDoneTo};
ghost use Rattle.request_kinds.specs.MergeCells.{AreMergedOn, IsMergeAfter, IsMergeCells, behind_cleared, behind_first};
ghost use Rattle.request_kinds.specs.MergeCells.{covered_cleared, covered_emptied, merges_passed, parts_of, rectangle_on, with_ends};
ghost use Rattle.request_kinds.specs.Merging.{AreMergesMade};

use crate::areas::area_on;
use crate::merging::{first_broken, split, uncut};
use cell_value::NoMemory;
use dimension_ops::{Book, Limit, RuleOr, Sheet};
use grid_range::{Area, Axis, Band};
use merge_ranges::{has_many_cells, has_many_lines, line_count};
use sheets_json::{MergeType, Reply};
use values_api::empty_area;
use world_model::{changes_in_turn, updates_are_changes, updates_are_writes, updates_follow};

/// How many merges a sheet can have.
const MOST_MERGES: u64 = 10_000;

/// Merges the cells of a range, or those of each of its columns or of its rows. Only the upper-left cell of
/// those that become one keeps its content.
pub(crate) fn merge_cells(
    book: &mut Book,
    range: &Area,
    merge_type: MergeType,
) -> Result<Reply, RuleOr>
    ensures { IsUnlessNoMemory (IsDoneTo (IsMergeCells range.now merge_type book.old) book.old book.new) result }
{
    match area_on(book, range) {
        Ok(area) => merge_on(book, &area, merge_type),
        Err(rule) => Err(RuleOr::Rule(rule)),
    }
}

/// Merges the cells of the area, as it stands on its sheet.
fn merge_on(book: &mut Book, area: &Area, merge_type: MergeType) -> Result<Reply, RuleOr>
    requires { IsThere book.old.sheets area.now }
    ensures { IsUnlessNoMemory (IsDoneTo (AreMergedOn merge_type book.old area.now) book.old book.new) result }
{
    book.stays_sound();
    let sheet = book.sheet(area.sheet).unwrap();
    let area = rectangle_on(sheet, area);
    let past = merges_passed(sheet, &area, merge_type);
    if let Some(rule) = first_broken(sheet, &area, past) {
        return Err(RuleOr::Rule(rule));
    }
    merge(book, &area, merge_type)?;
    Ok(Reply::Empty)
}

/// The area's rows and columns, as they stand on the sheet.
fn rectangle_on(sheet: &Sheet, area: &Area) -> Area
    requires rows { 0 < sheet.now.table.rows }
    requires cols { 0 < sheet.now.table.cols }
    requires within { AreaWithin area.now sheet.now.table.rows sheet.now.table.cols }
    ensures rectangle { result ≡ rectangle_on sheet.now area.now }
    ensures ends { IsRectangle result }
    ensures within { AreaWithin result sheet.now.table.rows sheet.now.table.cols }
{
    Area {
        sheet: area.sheet,
        rows: with_ends(area.rows, sheet.rows()),
        cols: with_ends(area.cols, sheet.cols()),
    }
}

/// The band's lines, as they stand among `count`.
fn with_ends(band: Band, count: u32) -> Band
    requires some { 0 < count }
    requires within { Within band count }
    ensures lines { result ≡ with_ends count band }
    ensures ends { HasEnds result }
    ensures within { Within result count }
{
    Band::Span(band.first_line(), band.end_line(count))
}

/// The limit on merges, where the sheet would have too many once the cells of the area are merged.
fn merges_passed(sheet: &Sheet, area: &Area, merge_type: MergeType) -> Option<Limit>
    requires { IsRectangle area.now }
    ensures { result ≡ merges_passed merge_type area.now sheet.now }
{
    let left = sheet.merges().left_by(area);
    let count = left.saturating_add(part_count(area, merge_type));
    if count > MOST_MERGES {
        Some(Limit::Merges)
    } else {
        None
    }
}

/// How many parts of the area become one merge each.
fn part_count(area: &Area, merge_type: MergeType) -> u64
    requires { IsRectangle area.now }
    ensures { result ≡ length (parts_of merge_type area.now) }
{
    match merge_type {
        MergeType::All => has_many_cells(area) as u64,
        MergeType::Columns => merged_lines(area.cols, area.rows),
        MergeType::Rows => merged_lines(area.rows, area.cols),
    }
}

/// How many of the lines become one merge each, where those are the lines across.
fn merged_lines(lines: Band, across: Band) -> u64
    requires { HasEnds lines }
    ensures { result ≡ (if has_many_lines across then line_count lines else 0) }
{
    if has_many_lines(across) {
        line_count(lines) as u64
    } else {
        0
    }
}

/// Merges the cells of the area, which cuts no merge of its sheet.
fn merge(book: &mut Book, area: &Area, merge_type: MergeType) -> Result<(), NoMemory>
    requires there { IsThere book.old.sheets area.now }
    requires ends { IsRectangle area.now }
    requires uncut { ¬ (CutsOne area.now book.old.sheets) }
    ensures { OnOk result (AreMergesMade area.now.sheet (IsMergeAfter merge_type area.now)
        (covered_emptied merge_type area.now) book.old book.new) }
{
    changes_in_turn();
    make(book, area, merge_type)?;
    empty_covered(book, area, merge_type)?;
    Ok(())
}

/// Makes the merges of the area, which cuts none of its sheet.
fn make(book: &mut Book, area: &Area, merge_type: MergeType) -> Result<(), NoMemory>
    requires there { IsThere book.old.sheets area.now }
    requires ends { IsRectangle area.now }
    requires uncut { ¬ (CutsOne area.now book.old.sheets) }
    ensures { OnOk result (MergesBecome area.now.sheet (IsMergeAfter merge_type area.now) book.old book.new) }
{
    match merge_type {
        MergeType::All if has_many_cells(area) => uncut(book.add_merge(area)),
        MergeType::All => split(book, area),
        MergeType::Columns => uncut(book.add_merges(area, Axis::Columns)),
        MergeType::Rows => uncut(book.add_merges(area, Axis::Rows)),
    }
}

/// Empties the cells that the merged parts of the area cover.
fn empty_covered(book: &mut Book, area: &Area, merge_type: MergeType) -> Result<(), NoMemory>
    requires there { IsThere book.old.sheets area.now }
    requires ends { IsRectangle area.now }
    ensures { OnOk result (AreChanges (covered_emptied merge_type area.now) book.old book.new) }
{
    updates_follow();
    updates_are_changes();
    clear_covered(book, area, merge_type)?;
    book.stays_sound();
    Ok(())
}

/// Clears the cells that the merged parts of the area cover.
fn clear_covered(book: &mut Book, area: &Area, merge_type: MergeType) -> Result<(), NoMemory>
    requires there { IsThere book.old.sheets area.now }
    requires ends { IsRectangle area.now }
    ensures { OnOk result (BookUpdated area.now.sheet (covered_cleared merge_type area.now)
        book.old book.new) }
{
    match merge_type {
        MergeType::All => {
            clear_behind(book, area, Axis::Rows)?;
            clear_behind(book, area, Axis::Columns)
        }
        MergeType::Columns => clear_behind(book, area, Axis::Rows),
        MergeType::Rows => clear_behind(book, area, Axis::Columns),
    }
}

/// Clears the lines of the area on the axis behind its first one.
fn clear_behind(book: &mut Book, area: &Area, axis: Axis) -> Result<(), NoMemory>
    requires there { IsThere book.old.sheets area.now }
    requires ends { IsRectangle area.now }
    ensures cleared { OnOk result (BookUpdated area.now.sheet (behind_cleared axis area.now) book.old book.new) }
    ensures there { OnOk result (IsThere book.new.sheets area.now) }
{
    updates_are_writes();
    match behind_first(area, axis) {
        Some(rest) => empty_area(book, &rest),
        None => Ok(()),
    }
}

/// The area's lines on the axis behind its first one, if there are more.
fn behind_first(area: &Area, axis: Axis) -> Option<Area>
    requires { IsRectangle area.now }
    ensures { result ≡ behind_first axis area.now }
{
    let band = area.band_on(axis);
    if !has_many_lines(band) {
        return None;
    }
    let lines = Band::Span(band.first_line() + 1, band.end_line(0));
    Some(match axis {
        Axis::Rows => Area {
            rows: lines,
            ..*area
        },
        Axis::Columns => Area {
            cols: lines,
            ..*area
        },
    })
}
