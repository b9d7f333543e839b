//! Reads of values by data filters.

ghost use Rattle.std.specs.Prelude.{◌≡◌, ◌∷◌, ◌++◌, [], IfOk, OnOk};
ghost use Rattle.std.specs.List.{All, filter_map};
ghost use Rattle.cell_calc.specs.Calculated.{IsTableOf};
ghost use Rattle.world_model.specs.Sound.{IsItemWithin, IsSpotWithin};
ghost use Rattle.dimension_ops.specs.Broken.{first_broken};
ghost use Rattle.dimension_ops.specs.Rules.{IsUnlessNoMemory};
ghost use Rattle.values_api.specs.Ranges.{IsThere};
ghost use Rattle.values_api.specs.Sheets.{stored_in};
ghost use Rattle.request_kinds.specs.Metadata.{broken_by_lookups};
ghost use Rattle.batch_engine.specs.Calls.{IsReadFilteredOf};
ghost use Rattle.batch_engine.specs.Effects.Effect.{Nothing};
ghost use Rattle.batch_engine.specs.Filtered.{AreAllShown, AreAreasLookedUp, AreAreasOf, AreAreasShown, AreShownBy, area_of_spot, areas_of_items};

use crate::answers::{rule_of, shown_area};
use crate::calls::judged;
use crate::lists::Refusal;
use cell_calc::Table;
use cell_value::{Duplicate, Items, NoMemory, Render};
use dev_metadata::{Item, Spot};
use dimension_ops::{Book, Rule, RuleOr};
use grid_range::{Area, Axis};
use request_kinds::{area_on, copy_lookup, ids_found, items_seen, lines_area, whole_sheet};
use sheets_json::{
    Answer, DataFilter, DimensionRange, MatchedRange, MetadataLookup, Place, ShapeFault,
};
use std::alloc::Global;
use values_api::resolve;

/// What a read of the cells that filters find is answered, filter by filter.
pub(crate) fn read_filtered(
    alloc: Global,
    book: &Book,
    project: &str,
    filters: &[Result<DataFilter, ShapeFault>],
    dimension: Option<Axis>,
    render: Option<Render>,
) -> Result<Result<Answer, Refusal>, NoMemory>
    ensures { IfOk result (λ told. IsReadFilteredOf project.now filters.now
        (record { dimension = dimension; render = render }) book.now told Nothing) }
{
    match all_filtered(alloc, book, project, filters, dimension, render)? {
        Ok(value_ranges) => Ok(Ok(Answer::ReadFiltered {
            spreadsheet_id: book.id().duplicate()?,
            value_ranges,
        })),
        Err((at, rule)) => Ok(Err((Place::Filters(at as u64), rule))),
    }
}

/// What each filter shows, or the first that breaks a rule, by its place. A value is calculated once for all filters.
fn all_filtered(
    alloc: Global,
    book: &Book,
    project: &str,
    filters: &[Result<DataFilter, ShapeFault>],
    dimension: Option<Axis>,
    render: Option<Render>,
) -> Result<Result<Items<MatchedRange>, (usize, Rule)>, NoMemory>
    ensures { IfOk result
        (AreAllShown project.now (record { dimension = dimension; render = render }) book.now filters.now) }
{
    let mut all = Vec::new(alloc);
    let mut table = Table::new(alloc);
    for at in 0..filters.len() {
        let filter = &filters[at];
        match judged(filtered(alloc, book, project, &mut table, filter, dimension, render))? {
            Ok(shown) => put_all(&mut all, shown)?,
            Err(rule) => return Ok(Err((at, rule))),
        }
    }
    Ok(Ok(Items::of(all)))
}

/// Puts the ranges behind the others.
fn put_all(all: &mut Vec<MatchedRange>, more: Items<MatchedRange>) -> Result<(), NoMemory>
    ensures { OnOk result (all.new.items ≡ all.old.items ++ more) }
{
    let mut more = more.into_vec();
    all.append(&mut more)?;
    Ok(())
}

/// What a filter shows, area by area. The table comes to tell the values that are shown.
fn filtered(
    alloc: Global,
    book: &Book,
    project: &str,
    table: &mut Table,
    filter: &Result<DataFilter, ShapeFault>,
    dimension: Option<Axis>,
    render: Option<Render>,
) -> Result<Items<MatchedRange>, RuleOr>
    requires { IsTableOf (stored_in book.now) table.old }
    ensures shown { IsUnlessNoMemory
        (AreShownBy project.now (record { dimension = dimension; render = render }) book.now filter.now) result }
    ensures table { OnOk result (IsTableOf (stored_in book.now) table.new) }
{
    match filter {
        Ok(filter) => {
            let areas = areas_of(alloc, book, project, filter)?;
            let areas = areas.as_slice();
            Ok(all_shown(alloc, book, table, filter, areas, dimension, render)?)
        }
        Err(fault) => Err(RuleOr::Rule(rule_of(*fault))),
    }
}

/// What each of the areas shows, with the filter that finds them.
fn all_shown(
    alloc: Global,
    book: &Book,
    table: &mut Table,
    filter: &DataFilter,
    areas: &[Area],
    dimension: Option<Axis>,
    render: Option<Render>,
) -> Result<Items<MatchedRange>, NoMemory>
    requires there { All (IsThere book.now.sheets) areas.now }
    requires table { IsTableOf (stored_in book.now) table.old }
    ensures shown { IfOk result
        (AreAreasShown (record { dimension = dimension; render = render }) book.now filter.now areas.now) }
    ensures table { OnOk result (IsTableOf (stored_in book.now) table.new) }
{
    let mut all = Vec::new(alloc);
    for area in areas {
        all.push(MatchedRange {
            data_filters: only(alloc, copy_filter(filter)?)?,
            value_range: shown_area(alloc, book, table, area, dimension, render)?,
        })?;
    }
    Ok(Items::of(all))
}

/// The areas of a filter, each cut at the grid of its sheet, or the first rule that it breaks.
fn areas_of(
    alloc: Global,
    book: &Book,
    project: &str,
    filter: &DataFilter,
) -> Result<Items<Area>, RuleOr>
    ensures areas { IsUnlessNoMemory (AreAreasOf project.now book.now filter.now) result }
    ensures there { IfOk result (All (IsThere book.now.sheets)) }
{
    match filter {
        DataFilter::DeveloperMetadataLookup(asked) => areas_looked_up(alloc, book, project, asked),
        DataFilter::A1Range(text) => {
            let (area, _) = resolve(alloc, book, text.as_str())?;
            Ok(only(alloc, area)?)
        }
        DataFilter::GridRange(area) => match area_on(book, area) {
            Ok(area) => Ok(only(alloc, area)?),
            Err(rule) => Err(RuleOr::Rule(rule)),
        },
    }
}

/// Where the items lie that the project sees and that the look-up finds, in order of id, or the first rule that it
/// breaks.
fn areas_looked_up(
    alloc: Global,
    book: &Book,
    project: &str,
    asked: &MetadataLookup,
) -> Result<Items<Area>, RuleOr>
    ensures areas { IsUnlessNoMemory (AreAreasLookedUp project.now asked.now book.now
        (first_broken (broken_by_lookups book.now.sheets (asked.now ∷ [])))) result }
    ensures there { IfOk result (All (IsThere book.now.sheets)) }
{
    book.stays_sound();
    let ids = ids_found(alloc, book, project, asked)?;
    let items = items_seen(alloc, book.metadata(), project, ids.as_slice())?;
    Ok(areas_of_items(alloc, book, items.as_slice())?)
}

/// Where the items lie, without those on the spreadsheet.
fn areas_of_items(alloc: Global, book: &Book, items: &[Item]) -> Result<Items<Area>, NoMemory>
    requires { All (IsItemWithin book.now.sheets) items.now }
    ensures { IfOk result (λ areas. areas ≡ areas_of_items items.now) }
{
    let mut areas = Vec::new(alloc);
    for item in items {
        put_area(&mut areas, book, item.spot)?;
    }
    Ok(Items::of(areas))
}

/// Puts the sheet, the row or the column behind the other areas, if there is one.
fn put_area(areas: &mut Vec<Area>, book: &Book, spot: Spot) -> Result<(), NoMemory>
    requires { IsSpotWithin book.now.sheets spot }
    ensures { OnOk result (areas.new.items ≡ areas.old.items ++ filter_map area_of_spot (spot ∷ [])) }
{
    match area_of_spot(book, spot) {
        Some(area) => {
            areas.push(area)?;
            Ok(())
        }
        None => Ok(()),
    }
}

/// The sheet, the row or the column where an item lies; none for one on the spreadsheet.
fn area_of_spot(book: &Book, spot: Spot) -> Option<Area>
    requires { IsSpotWithin book.now.sheets spot }
    ensures { result ≡ area_of_spot spot }
{
    book.stays_sound();
    match spot {
        Spot::Spreadsheet => None,
        Spot::Sheet(sheet) => Some(whole_sheet(sheet)),
        Spot::Line(sheet_id, dimension, place) => {
            let line = DimensionRange {
                sheet_id,
                dimension,
                start_index: place,
                end_index: Some(place + 1),
            };
            Some(lines_area(book, line))
        }
    }
}

/// The thing, as the only one.
fn only<T: Drop>(alloc: Global, one: T) -> Result<Items<T>, NoMemory>
    ensures { IfOk result (λ all. all ≡ one ∷ []) }
{
    let mut all = Vec::new(alloc);
    all.push(one)?;
    Ok(Items::of(all))
}

/// A copy of a filter.
fn copy_filter(filter: &DataFilter) -> Result<DataFilter, NoMemory>
    ensures { IfOk result (λ copy. copy ≡ filter.now) }
{
    match filter {
        DataFilter::DeveloperMetadataLookup(asked) => {
            Ok(DataFilter::DeveloperMetadataLookup(copy_lookup(asked)?))
        }
        DataFilter::A1Range(text) => Ok(DataFilter::A1Range(text.duplicate()?)),
        DataFilter::GridRange(area) => Ok(DataFilter::GridRange(*area)),
    }
}
