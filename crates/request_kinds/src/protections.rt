//! What requests for protected ranges have in common.

ghost use Rattle.std.specs.Prelude.{◌≡◌, ◌||◌, ◌∷◌, [], IfOk, map, option_map};
ghost use Rattle.std.specs.List.{list_any};
ghost use Rattle.std.specs.Option.{option_map_or};
ghost use Rattle.dimension_ops.specs.Broken.{first_broken};
ghost use Rattle.grid_range.specs.Band.{cut_band};
ghost use Rattle.request_kinds.specs.Protections.{area_cut, areas_given, broken_by_areas, broken_of, patch_cut};
ghost use Rattle.request_kinds.specs.Rows.{begins_on, is_reversed};

use crate::areas::is_reversed;
use crate::given::given_text;
use cell_value::{Duplicate, Items, NoMemory, Text};
use dimension_ops::{Book, Rule, Sheet};
use grid_range::{Area, Band};
use protection::ProtectionPatch;
use std::alloc::Global;

/// The area of a protected range and those of its unprotected ranges, as far as they are given.
pub(crate) fn areas_given(alloc: Global, patch: &ProtectionPatch) -> Result<Items<Area>, NoMemory>
    ensures { IfOk result (λ areas. areas ≡ areas_given patch.now) }
{
    let mut areas = if_given(alloc, patch.area)?;
    match &patch.unprotected {
        Some(ranges) => {
            areas.extend_from_slice(ranges.as_slice())?;
            Ok(Items::of(areas))
        }
        None => Ok(Items::of(areas)),
    }
}

/// The area, if it is given.
fn if_given(alloc: Global, area: Option<Area>) -> Result<Vec<Area>, NoMemory>
    ensures { IfOk result (λ areas. areas.items ≡ option_map_or (λ area. area ∷ []) area []) }
{
    match area {
        Some(area) => Ok(vec![in alloc; area]?),
        None => Ok(Vec::new(alloc)),
    }
}

/// The first rule that one of the areas breaks: its sheet isn't there, a start isn't below its end, or its first row or
/// its first column isn't there.
pub(crate) fn broken_by_areas(book: &Book, areas: &[Area]) -> Option<Rule>
    ensures { result ≡ first_broken (broken_by_areas book.now.sheets areas.now) }
{
    if is_one_missing(book, areas) {
        return Some(Rule::NoSheet);
    }
    if is_one_turned(areas) {
        return Some(Rule::BadRange);
    }
    if begins_one_outside(book, areas) {
        return Some(Rule::OutsideGrid);
    }
    None
}

/// Whether the sheet of one of the areas isn't there.
fn is_one_missing(book: &Book, areas: &[Area]) -> bool
    ensures { result ≡ (broken_by_areas book.now.sheets areas.now).no_sheet }
{
    areas.iter().any(|area| is_missing(book, area))
}

/// Whether a start of one of the areas isn't below its end.
fn is_one_turned(areas: &[Area]) -> bool
    ensures { result ≡ list_any (λ area. is_reversed area.rows || is_reversed area.cols) areas.now }
{
    areas.iter().any(is_turned)
}

/// Whether the first row or the first column of one of the areas isn't there, where its sheet is.
fn begins_one_outside(book: &Book, areas: &[Area]) -> bool
    ensures { result ≡ (broken_by_areas book.now.sheets areas.now).outside_grid }
{
    areas.iter().any(|area| begins_outside(book, area))
}

/// Whether the area's sheet isn't there.
fn is_missing(book: &Book, area: &Area) -> bool
    ensures { result ≡ (broken_of book.now.sheets area.now).no_sheet }
{
    book.sheet(area.sheet).is_none()
}

/// Whether a start of the area isn't below its end.
fn is_turned(area: &Area) -> bool
    ensures { result ≡ (is_reversed area.now.rows || is_reversed area.now.cols) }
{
    is_reversed(area.rows) || is_reversed(area.cols)
}

/// Whether the area's first row or its first column isn't there, where its sheet is.
fn begins_outside(book: &Book, area: &Area) -> bool
    ensures { result ≡ (broken_of book.now.sheets area.now).outside_grid }
{
    match book.sheet(area.sheet) {
        Some(sheet) => !begins_on(sheet, area),
        None => false,
    }
}

/// Whether the area's first row and its first column are there.
fn begins_on(sheet: &Sheet, area: &Area) -> bool
    ensures { result ≡ begins_on area.now sheet.now }
{
    area.rows.first_line() < sheet.rows() && area.cols.first_line() < sheet.cols()
}

/// The members that are given, each area cut at the grid of its sheet.
pub(crate) fn patch_cut(
    alloc: Global,
    book: &Book,
    patch: &ProtectionPatch,
) -> Result<ProtectionPatch, NoMemory>
    ensures { IfOk result (λ cut. cut ≡ patch_cut book.now.sheets patch.now) }
{
    Ok(ProtectionPatch {
        area: given_area(book, patch.area),
        description: given_text(&patch.description)?,
        warning_only: patch.warning_only,
        unprotected: given_areas(alloc, book, &patch.unprotected)?,
        editors: given_texts(&patch.editors)?,
    })
}

/// The area, if one is given, cut at the grid of its sheet.
fn given_area(book: &Book, area: Option<Area>) -> Option<Area>
    ensures { result ≡ option_map (area_cut book.now.sheets) area }
{
    match area {
        Some(area) => Some(area_cut(book, &area)),
        None => None,
    }
}

/// The areas, if they are given, each cut at the grid of its sheet.
fn given_areas(
    alloc: Global,
    book: &Book,
    areas: &Option<Items<Area>>,
) -> Result<Option<Items<Area>>, NoMemory>
    ensures { IfOk result (λ cut. cut ≡ option_map (map (area_cut book.now.sheets)) areas.now) }
{
    match areas {
        Some(areas) => Ok(Some(areas_cut(alloc, book, areas.as_slice())?)),
        None => Ok(None),
    }
}

/// The areas, each cut at the grid of its sheet.
fn areas_cut(alloc: Global, book: &Book, areas: &[Area]) -> Result<Items<Area>, NoMemory>
    ensures { IfOk result (λ cut. cut ≡ map (area_cut book.now.sheets) areas.now) }
{
    let mut cut = Vec::new(alloc);
    for area in areas {
        cut.push(area_cut(book, area))?;
    }
    Ok(Items::of(cut))
}

/// The area, cut at the grid of its sheet.
fn area_cut(book: &Book, area: &Area) -> Area
    ensures { result ≡ area_cut book.now.sheets area.now }
{
    match book.sheet(area.sheet) {
        Some(sheet) => Area {
            sheet: area.sheet,
            rows: band_cut(area.rows, sheet.rows()),
            cols: band_cut(area.cols, sheet.cols()),
        },
        None => *area,
    }
}

/// The band, with an end past the grid cut at it.
fn band_cut(band: Band, count: u32) -> Band
    ensures { result ≡ cut_band band count }
{
    match band {
        Band::Span(start, end) => Band::Span(start, end.min(count)),
        Band::Whole | Band::From(_) => band,
    }
}

/// A copy of the texts, if they are given.
fn given_texts(texts: &Option<Items<Text>>) -> Result<Option<Items<Text>>, NoMemory>
    ensures { IfOk result (λ copy. copy ≡ texts.now) }
{
    match texts {
        Some(texts) => Ok(Some(texts.duplicate()?)),
        None => Ok(None),
    }
}
