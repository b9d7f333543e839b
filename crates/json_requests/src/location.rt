ghost use Rattle.std.specs.Prelude.{◌≡◌};
ghost use Rattle.serde_json.specs.Data.{boolean};
ghost use Rattle.json_shapes.specs.Reading.{made};
ghost use Rattle.json_requests.specs.declared.request.Location.TheVariants.{Sheet, DimensionRange as Lines};
ghost use Rattle.json_requests.specs.Metadata.{only_true, sheet_location, line_location, place, metadata_location};

use crate::dimension::DimensionRangeMembers;
use crate::{DimensionRange, Location};
use cell_value::NoMemory;
use json_shapes::{
    Anything, Fields, Index, ObjectOf, Read, Shape, ShapeFault, both, either, first_part, just_one,
    optional, way,
};
use serde_json::{Map, Value as Json};
use std::alloc::Global;

/// `true`, and nothing else: the spreadsheet.
#[derive(Clone, Copy)]
struct OnlyTrue;

impl Shape for OnlyTrue {
    type Output = Location;

    ghost shape = { λ _. only_true };

    fn read(&self, _alloc: Global, value: Json) -> Result<Read<Location>, NoMemory> {
        match value {
            Json::Bool(truth) => Ok(if_true(truth)),
            Json::Null | Json::Number(_) | Json::String(_) | Json::Array(_) | Json::Object(_) => {
                Ok(Err(ShapeFault::BadShape))
            }
        }
    }
}

/// The spreadsheet, where it is true.
fn if_true(truth: bool) -> Read<Location>
    ensures { result ≡ only_true (boolean truth) }
{
    if truth {
        Ok(Location::Spreadsheet)
    } else {
        Err(ShapeFault::BadShape)
    }
}

/// The id of a sheet.
#[derive(Clone, Copy)]
struct SheetLocation;

impl Shape for SheetLocation {
    type Output = Location;

    ghost shape = { λ _. sheet_location };

    fn read(&self, alloc: Global, value: Json) -> Result<Read<Location>, NoMemory> {
        let sheet = Index.read(alloc, value)?;
        Ok(sheet_of(sheet))
    }
}

/// The sheet.
fn sheet_of(sheet: Read<u32>) -> Read<Location>
    ensures { result ≡ made Sheet sheet }
{
    let sheet = sheet?;
    Ok(Location::Sheet(sheet))
}

/// A stretch of lines.
#[derive(Clone, Copy)]
struct LineLocation;

impl Shape for LineLocation {
    type Output = Location;

    ghost shape = { λ _. line_location };

    fn read(&self, alloc: Global, value: Json) -> Result<Read<Location>, NoMemory> {
        let range = ObjectOf(DimensionRangeMembers).read(alloc, value)?;
        Ok(lines_of(range))
    }
}

/// The lines.
fn lines_of(range: Read<DimensionRange>) -> Read<Location>
    ensures { result ≡ made Lines range }
{
    let range = range?;
    Ok(Location::DimensionRange(range))
}

/// Just one of three.
#[derive(Clone, Copy)]
struct PlaceMembers;

impl Fields for PlaceMembers {
    type Output = Location;

    ghost fields = { λ _. place };

    fn take(
        &self,
        alloc: Global,
        members: &mut Map<String, Json>,
    ) -> Result<Read<Location>, NoMemory> {
        let book = way(alloc, members, "spreadsheet", &OnlyTrue)?;
        let sheet = way(alloc, members, "sheetId", &SheetLocation)?;
        let lines = way(alloc, members, "dimensionRange", &LineLocation)?;
        Ok(just_one(either(either(book, sheet), lines)))
    }
}

/// DeveloperMetadataLocation
#[derive(Clone, Copy)]
pub(crate) struct LocationMembers;

impl Fields for LocationMembers {
    type Output = Location;

    ghost fields = { λ _. metadata_location };

    fn take(
        &self,
        alloc: Global,
        members: &mut Map<String, Json>,
    ) -> Result<Read<Location>, NoMemory> {
        let place = PlaceMembers.take(alloc, members)?;
        let kind = optional(alloc, members, "locationType", &Anything)?;
        Ok(first_part(both(place, kind)))
    }
}
