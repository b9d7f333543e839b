ghost use Rattle.std.specs.Prelude.{◌≡◌, ◌+◌, Some, IfOk};
ghost use Rattle.serde_json.specs.View.{view, members_view};
ghost use Rattle.sheets_json.specs.Areas.{lines_data};
ghost use Rattle.sheets_json.specs.Metadata.{location_type_data, strategy_data, visibility_data, dimension_range_data, put_location, location_data, line_kind, kind_of, location_of, spot_data, visibility_of, item_data, put_texts, lookup_data, data_filter_data};

use crate::areas::{Lines, lines_json};
use crate::writing::{ToJson, text_json, with, with_filled, with_given, with_json};
use cell_value::NoMemory;
use dev_metadata::{Item, Spot, SpotKind, Visibility, VisibilityKind};
use grid_range::Axis;
use json_requests::{DataFilter, DimensionRange, Location, MatchingStrategy, MetadataLookup};
use serde_json::{Map, Value as Json};
use std::alloc::Global;

impl ToJson for SpotKind {
    ghost json_data = { location_type_data };

    fn to_json(&self, alloc: Global) -> Result<Json, NoMemory> {
        match self {
            SpotKind::Row => text_json(alloc, "ROW"),
            SpotKind::Column => text_json(alloc, "COLUMN"),
            SpotKind::Sheet => text_json(alloc, "SHEET"),
            SpotKind::Spreadsheet => text_json(alloc, "SPREADSHEET"),
        }
    }
}

impl ToJson for MatchingStrategy {
    ghost json_data = { strategy_data };

    fn to_json(&self, alloc: Global) -> Result<Json, NoMemory> {
        match self {
            MatchingStrategy::Exact => text_json(alloc, "EXACT_LOCATION"),
            MatchingStrategy::Intersecting => text_json(alloc, "INTERSECTING_LOCATION"),
        }
    }
}

impl ToJson for VisibilityKind {
    ghost json_data = { visibility_data };

    fn to_json(&self, alloc: Global) -> Result<Json, NoMemory> {
        match self {
            VisibilityKind::Document => text_json(alloc, "DOCUMENT"),
            VisibilityKind::Project => text_json(alloc, "PROJECT"),
        }
    }
}

impl ToJson for DimensionRange {
    ghost json_data = { dimension_range_data };

    fn to_json(&self, alloc: Global) -> Result<Json, NoMemory> {
        let lines = Lines {
            sheet: self.sheet_id,
            dimension: self.dimension,
            start: self.start_index,
            end: wide(self.end_index),
        };
        lines_json(alloc, lines)
    }
}

/// An end, if it is given, in more bits.
fn wide(end: Option<u32>) -> Option<u64>
    ensures { result ≡ end }
{
    match end {
        Some(end) => Some(u64::from(end)),
        None => None,
    }
}

/// The members of an object, with a location.
fn with_location(
    alloc: Global,
    members: Map<String, Json>,
    location: &Location,
) -> Result<Map<String, Json>, NoMemory>
    ensures { IfOk result (λ more. members_view more.entries
        ≡ put_location location.now (members_view members.entries)) }
{
    match location {
        Location::Spreadsheet => with(alloc, members, "spreadsheet", &true),
        Location::Sheet(sheet) => with(alloc, members, "sheetId", sheet),
        Location::DimensionRange(range) => with(alloc, members, "dimensionRange", range),
    }
}

impl ToJson for Location {
    ghost json_data = { location_data };

    fn to_json(&self, alloc: Global) -> Result<Json, NoMemory> {
        let members = with_location(alloc, Map::new(alloc), self)?;
        Ok(Json::Object(members))
    }
}

/// The kind of location that a place is.
fn kind_of(spot: Spot) -> SpotKind
    ensures { result ≡ kind_of spot }
{
    match spot {
        Spot::Spreadsheet => SpotKind::Spreadsheet,
        Spot::Sheet(_) => SpotKind::Sheet,
        Spot::Line(_, axis, _) => line_kind(axis),
    }
}

/// The kind of location that a row or a column is.
fn line_kind(axis: Axis) -> SpotKind
    ensures { result ≡ line_kind axis }
{
    match axis {
        Axis::Rows => SpotKind::Row,
        Axis::Columns => SpotKind::Column,
    }
}

/// The members of an object, with where an item lies.
fn with_spot(
    alloc: Global,
    members: Map<String, Json>,
    spot: Spot,
) -> Result<Map<String, Json>, NoMemory>
    ensures { IfOk result (λ more. members_view more.entries
        ≡ put_location (location_of spot) (members_view members.entries)) }
{
    match spot {
        Spot::Spreadsheet => with_location(alloc, members, &Location::Spreadsheet),
        Spot::Sheet(sheet) => with_location(alloc, members, &Location::Sheet(sheet)),
        Spot::Line(sheet, dimension, at) => {
            let line = line_json(alloc, sheet, dimension, at)?;
            with_json(alloc, members, "dimensionRange", line)
        }
    }
}

/// A row or a column of a sheet.
fn line_json(alloc: Global, sheet: u32, dimension: Axis, at: u32) -> Result<Json, NoMemory>
    ensures { IfOk result (λ json. view json ≡ lines_data sheet dimension at (Some (at + 1))) }
{
    let lines = Lines {
        sheet,
        dimension,
        start: at,
        end: Some(u64::from(at) + 1),
    };
    lines_json(alloc, lines)
}

impl ToJson for Spot {
    ghost json_data = { spot_data };

    fn to_json(&self, alloc: Global) -> Result<Json, NoMemory> {
        let members = with(alloc, Map::new(alloc), "locationType", &kind_of(*self))?;
        let members = with_spot(alloc, members, *self)?;
        Ok(Json::Object(members))
    }
}

/// Whether an item is one of a project.
fn visibility_of(visibility: &Visibility) -> VisibilityKind
    ensures { result ≡ visibility_of visibility.now }
{
    match visibility {
        Visibility::Document => VisibilityKind::Document,
        Visibility::Project(_) => VisibilityKind::Project,
    }
}

impl ToJson for Item {
    ghost json_data = { item_data };

    fn to_json(&self, alloc: Global) -> Result<Json, NoMemory> {
        let visibility = visibility_of(&self.visibility);
        let members = with(alloc, Map::new(alloc), "visibility", &visibility)?;
        let members = with_filled(alloc, members, "metadataValue", &self.value)?;
        let members = with(alloc, members, "metadataKey", &self.key)?;
        let members = with(alloc, members, "metadataId", &self.id)?;
        let members = with(alloc, members, "location", &self.spot)?;
        Ok(Json::Object(members))
    }
}

/// The members of a look-up, with what the items say.
fn with_texts(
    alloc: Global,
    members: Map<String, Json>,
    lookup: &MetadataLookup,
) -> Result<Map<String, Json>, NoMemory>
    ensures { IfOk result (λ more. members_view more.entries
        ≡ put_texts lookup.now (members_view members.entries)) }
{
    let members = with_given(alloc, members, "metadataValue", &lookup.metadata_value)?;
    let members = with_given(alloc, members, "metadataKey", &lookup.metadata_key)?;
    with_given(alloc, members, "metadataId", &lookup.metadata_id)
}

impl ToJson for MetadataLookup {
    ghost json_data = { lookup_data };

    fn to_json(&self, alloc: Global) -> Result<Json, NoMemory> {
        let members = Map::new(alloc);
        let members = with_given(alloc, members, "visibility", &self.visibility)?;
        let members = with_texts(alloc, members, self)?;
        let location = &self.metadata_location;
        let members = with_given(alloc, members, "metadataLocation", location)?;
        let members = with_given(alloc, members, "locationType", &self.location_type)?;
        let strategy = &self.location_matching_strategy;
        let members = with_given(alloc, members, "locationMatchingStrategy", strategy)?;
        Ok(Json::Object(members))
    }
}

impl ToJson for DataFilter {
    ghost json_data = { data_filter_data };

    fn to_json(&self, alloc: Global) -> Result<Json, NoMemory> {
        let members = Map::new(alloc);
        let members = match self {
            DataFilter::DeveloperMetadataLookup(lookup) => {
                with(alloc, members, "developerMetadataLookup", lookup)
            }
            DataFilter::A1Range(range) => with(alloc, members, "a1Range", range),
            DataFilter::GridRange(area) => with(alloc, members, "gridRange", area),
        }?;
        Ok(Json::Object(members))
    }
}
