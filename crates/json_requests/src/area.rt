ghost use Rattle.std.specs.Prelude.{◌≡◌};
ghost use Rattle.json_shapes.specs.Reading.{made};
ghost use Rattle.json_requests.specs.Areas.{band_between, band_of, row_band, column_band, area_of, grid_range, coordinate_of, grid_coordinate};

use crate::GridCoordinate;
use cell_value::NoMemory;
use grid_range::{Area, Band};
use json_shapes::{Fields, Index, Read, both, optional};
use serde_json::{Map, Value as Json};
use std::alloc::Global;

/// The rows of a GridRange.
#[derive(Clone, Copy)]
struct RowBandMembers;

impl Fields for RowBandMembers {
    type Output = Band;

    ghost fields = { λ _. row_band };

    fn take(&self, alloc: Global, members: &mut Map<String, Json>) -> Result<Read<Band>, NoMemory> {
        let start = optional(alloc, members, "startRowIndex", &Index)?;
        let end = optional(alloc, members, "endRowIndex", &Index)?;
        Ok(band_of(both(start, end)))
    }
}

/// The columns of a GridRange.
#[derive(Clone, Copy)]
struct ColumnBandMembers;

impl Fields for ColumnBandMembers {
    type Output = Band;

    ghost fields = { λ _. column_band };

    fn take(&self, alloc: Global, members: &mut Map<String, Json>) -> Result<Read<Band>, NoMemory> {
        let start = optional(alloc, members, "startColumnIndex", &Index)?;
        let end = optional(alloc, members, "endColumnIndex", &Index)?;
        Ok(band_of(both(start, end)))
    }
}

/// The lines from a start to an end.
fn band_of(ends: Read<(Option<u32>, Option<u32>)>) -> Read<Band>
    ensures { result ≡ made band_of ends }
{
    let (start, end) = ends?;
    Ok(band_between(start, end))
}

/// The lines from a start to an end, each of which may be absent.
fn band_between(start: Option<u32>, end: Option<u32>) -> Band
    ensures { result ≡ band_between start end }
{
    match start {
        Some(start) => band_from(start, end),
        None => band_to(end),
    }
}

/// The lines from a start on.
fn band_from(start: u32, end: Option<u32>) -> Band
    ensures { result ≡ band_between (Some start) end }
{
    match end {
        Some(end) => Band::Span(start, end),
        None => Band::From(start),
    }
}

/// The lines from the first on.
fn band_to(end: Option<u32>) -> Band
    ensures { result ≡ band_between None end }
{
    match end {
        Some(end) => Band::Span(0, end),
        None => Band::Whole,
    }
}

/// A GridRange (Google Sheets API v4 reference).
#[derive(Clone, Copy)]
pub struct GridRangeMembers;

impl Fields for GridRangeMembers {
    type Output = Area;

    ghost fields = { λ _. grid_range };

    fn take(&self, alloc: Global, members: &mut Map<String, Json>) -> Result<Read<Area>, NoMemory> {
        let sheet = optional(alloc, members, "sheetId", &Index)?;
        let rows = RowBandMembers.take(alloc, members)?;
        let columns = ColumnBandMembers.take(alloc, members)?;
        Ok(area_of(both(both(sheet, rows), columns)))
    }
}

/// The cells of a sheet in these lines.
fn area_of(parts: Read<((Option<u32>, Band), Band)>) -> Read<Area>
    ensures { result ≡ made area_of parts }
{
    let ((sheet, rows), cols) = parts?;
    Ok(Area {
        sheet: sheet.unwrap_or(0),
        rows,
        cols,
    })
}

/// A GridCoordinate.
#[derive(Clone, Copy)]
pub(crate) struct GridCoordinateMembers;

impl Fields for GridCoordinateMembers {
    type Output = GridCoordinate;

    ghost fields = { λ _. grid_coordinate };

    fn take(
        &self,
        alloc: Global,
        members: &mut Map<String, Json>,
    ) -> Result<Read<GridCoordinate>, NoMemory> {
        let sheet = optional(alloc, members, "sheetId", &Index)?;
        let row = optional(alloc, members, "rowIndex", &Index)?;
        let column = optional(alloc, members, "columnIndex", &Index)?;
        Ok(coordinate_of(both(both(sheet, row), column)))
    }
}

/// The place, at the first row and column where none is given.
fn coordinate_of(parts: Read<((Option<u32>, Option<u32>), Option<u32>)>) -> Read<GridCoordinate>
    ensures { result ≡ made coordinate_of parts }
{
    let ((sheet, row), column) = parts?;
    Ok(GridCoordinate {
        sheet_id: sheet.unwrap_or(0),
        row_index: row.unwrap_or(0),
        column_index: column.unwrap_or(0),
    })
}
