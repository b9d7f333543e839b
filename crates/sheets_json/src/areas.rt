ghost use Rattle.std.specs.Prelude.{◌≡◌, IfOk};
ghost use Rattle.serde_json.specs.View.{view};
ghost use Rattle.sheets_json.specs.Areas.{start_of, end_of, area_data, dimension_data, lines_data};

use crate::writing::{ToJson, text_json, with, with_given};
use cell_value::NoMemory;
use grid_range::{Area, Axis, Band};
use serde_json::{Map, Value as Json};
use std::alloc::Global;

/// The first line, unless it is all of them.
fn start_of(band: Band) -> Option<u32>
    ensures { result ≡ start_of band }
{
    match band {
        Band::Whole => None,
        Band::From(start) => Some(start),
        Band::Span(start, _) => Some(start),
    }
}

/// The line behind the last, where it ends before the sheet does.
fn end_of(band: Band) -> Option<u32>
    ensures { result ≡ end_of band }
{
    match band {
        Band::Whole => None,
        Band::From(_) => None,
        Band::Span(_, end) => Some(end),
    }
}

impl ToJson for Area {
    ghost json_data = { area_data };

    fn to_json(&self, alloc: Global) -> Result<Json, NoMemory> {
        let members = Map::new(alloc);
        let members = with_given(alloc, members, "startRowIndex", &start_of(self.rows))?;
        let members = with_given(alloc, members, "startColumnIndex", &start_of(self.cols))?;
        let members = with(alloc, members, "sheetId", &self.sheet)?;
        let members = with_given(alloc, members, "endRowIndex", &end_of(self.rows))?;
        let members = with_given(alloc, members, "endColumnIndex", &end_of(self.cols))?;
        Ok(Json::Object(members))
    }
}

impl ToJson for Axis {
    ghost json_data = { dimension_data };

    fn to_json(&self, alloc: Global) -> Result<Json, NoMemory> {
        match self {
            Axis::Rows => text_json(alloc, "ROWS"),
            Axis::Columns => text_json(alloc, "COLUMNS"),
        }
    }
}

/// Some lines of a sheet, from a start to an end, if it is given.
#[derive(Clone, Copy)]
pub(crate) struct Lines {
    /// The sheet's id.
    pub(crate) sheet: u32,
    /// Whether they are rows or columns.
    pub(crate) dimension: Axis,
    /// The first line, from 0.
    pub(crate) start: u32,
    /// The line behind the last, if it is given.
    pub(crate) end: Option<u64>,
}

/// DimensionRange
pub(crate) fn lines_json(alloc: Global, lines: Lines) -> Result<Json, NoMemory>
    ensures { IfOk result (λ json. view json ≡ lines_data lines.sheet lines.dimension lines.start lines.end) }
{
    let members = with(alloc, Map::new(alloc), "startIndex", &lines.start)?;
    let members = with(alloc, members, "sheetId", &lines.sheet)?;
    let members = with_given(alloc, members, "endIndex", &lines.end)?;
    let members = with(alloc, members, "dimension", &lines.dimension)?;
    Ok(Json::Object(members))
}
