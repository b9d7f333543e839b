ghost use Rattle.std.specs.Prelude.{◌≡◌};
ghost use Rattle.json_requests.specs.declared.request.UpdatedArea.TheVariants.{Start, Range};
ghost use Rattle.json_shapes.specs.Reading.{made};
ghost use Rattle.json_shapes.specs.Members.{making};
ghost use Rattle.json_requests.specs.Areas.{grid_range, grid_coordinate};
ghost use Rattle.json_requests.specs.Cells.{extended_value, or_empty, cell_data, or_no_cells, row_data, cell_paths, updated_area, update_of, update_cells, append_of, append_cells};

use crate::area::{GridCoordinateMembers, GridRangeMembers};
use crate::block::block_of;
use crate::{GridCoordinate, Request, UpdatedArea};
use cell_value::{Input, Items, Mode, NoMemory, Text};
use grid_range::Area;
use json_shapes::{
    Entered, Fields, Index, IsFormulaText, IsNumber, IsText, IsTruth, ListOf, Mask, ObjectOf,
    Paths, Read, SuchThat, both, either, just_one, optional, required, way,
};
use serde_json::{Map, Value as Json};
use std::alloc::Global;

/// A value that is entered as it is.
const AS_IT_IS: Entered = Entered { mode: Mode::Raw };

/// A value that is entered as it is typed.
const AS_TYPED: Entered = Entered {
    mode: Mode::UserEntered,
};

/// An ExtendedValue: just one of four.
#[derive(Clone, Copy)]
struct ExtendedValueMembers;

impl Fields for ExtendedValueMembers {
    type Output = Input;

    ghost fields = { λ _. extended_value };

    fn take(
        &self,
        alloc: Global,
        members: &mut Map<String, Json>,
    ) -> Result<Read<Input>, NoMemory> {
        let number = way(alloc, members, "numberValue", &SuchThat(IsNumber, AS_IT_IS))?;
        let text = way(alloc, members, "stringValue", &SuchThat(IsText, AS_IT_IS))?;
        let truth = way(alloc, members, "boolValue", &SuchThat(IsTruth, AS_IT_IS))?;
        let formula = SuchThat(IsFormulaText, AS_TYPED);
        let formula = way(alloc, members, "formulaValue", &formula)?;
        Ok(just_one(either(either(either(number, text), truth), formula)))
    }
}

/// The CellData of a write.
#[derive(Clone, Copy)]
struct CellDataMembers;

impl Fields for CellDataMembers {
    type Output = Input;

    ghost fields = { λ _. cell_data };

    fn take(
        &self,
        alloc: Global,
        members: &mut Map<String, Json>,
    ) -> Result<Read<Input>, NoMemory> {
        let value = ObjectOf(ExtendedValueMembers);
        let value = optional(alloc, members, "userEnteredValue", &value)?;
        Ok(or_empty(value))
    }
}

/// The value, without which a cell is emptied.
fn or_empty(value: Read<Option<Input>>) -> Read<Input>
    ensures { result ≡ made or_empty value }
{
    match value? {
        Some(input) => Ok(input),
        None => Ok(Input::Empty),
    }
}

/// The RowData of a write.
#[derive(Clone, Copy)]
struct RowDataMembers;

impl Fields for RowDataMembers {
    type Output = Items<Input>;

    ghost fields = { λ _. row_data };

    fn take(
        &self,
        alloc: Global,
        members: &mut Map<String, Json>,
    ) -> Result<Read<Items<Input>>, NoMemory> {
        let cells = optional(alloc, members, "values", &ListOf(ObjectOf(CellDataMembers)))?;
        Ok(or_no_cells(alloc, cells))
    }
}

/// The cells, none where none are given.
fn or_no_cells(alloc: Global, cells: Read<Option<Items<Input>>>) -> Read<Items<Input>>
    ensures { result ≡ made or_no_cells cells }
{
    match cells? {
        Some(cells) => Ok(cells),
        None => Ok(Items::of(Vec::new(alloc))),
    }
}

/// What a mask may name of a cell.
#[derive(Clone, Copy)]
struct CellPaths;

impl Paths for CellPaths {
    ghost listed = { λ _. cell_paths };

    fn states(&self, path: &str) -> Option<bool> {
        match path {
            "userEnteredValue" => Some(true),
            _ => None,
        }
    }
}

/// The cell at which rows are written.
#[derive(Clone, Copy)]
struct StartMembers;

impl Fields for StartMembers {
    type Output = UpdatedArea;

    ghost fields = { λ _. making Start grid_coordinate };

    fn take(
        &self,
        alloc: Global,
        members: &mut Map<String, Json>,
    ) -> Result<Read<UpdatedArea>, NoMemory> {
        let start = GridCoordinateMembers.take(alloc, members)?;
        Ok(start_of(start))
    }
}

/// From the cell on.
fn start_of(start: Read<GridCoordinate>) -> Read<UpdatedArea>
    ensures { result ≡ made Start start }
{
    match start {
        Ok(start) => Ok(UpdatedArea::Start(start)),
        Err(fault) => Err(fault),
    }
}

/// The area to which rows are written.
#[derive(Clone, Copy)]
struct RangeMembers;

impl Fields for RangeMembers {
    type Output = UpdatedArea;

    ghost fields = { λ _. making Range grid_range };

    fn take(
        &self,
        alloc: Global,
        members: &mut Map<String, Json>,
    ) -> Result<Read<UpdatedArea>, NoMemory> {
        let range = GridRangeMembers.take(alloc, members)?;
        Ok(range_of(range))
    }
}

/// The area.
fn range_of(range: Read<Area>) -> Read<UpdatedArea>
    ensures { result ≡ made Range range }
{
    match range {
        Ok(range) => Ok(UpdatedArea::Range(range)),
        Err(fault) => Err(fault),
    }
}

/// Where rows are written: just one of two.
#[derive(Clone, Copy)]
struct UpdatedAreaMembers;

impl Fields for UpdatedAreaMembers {
    type Output = UpdatedArea;

    ghost fields = { λ _. updated_area };

    fn take(
        &self,
        alloc: Global,
        members: &mut Map<String, Json>,
    ) -> Result<Read<UpdatedArea>, NoMemory> {
        let start = way(alloc, members, "start", &ObjectOf(StartMembers))?;
        let range = way(alloc, members, "range", &ObjectOf(RangeMembers))?;
        Ok(just_one(either(start, range)))
    }
}

/// UpdateCellsRequest
#[derive(Clone, Copy)]
pub(crate) struct UpdateCellsMembers;

impl Fields for UpdateCellsMembers {
    type Output = Request;

    ghost fields = { λ _. update_cells };

    fn take(
        &self,
        alloc: Global,
        members: &mut Map<String, Json>,
    ) -> Result<Read<Request>, NoMemory> {
        let rows = optional(alloc, members, "rows", &ListOf(ObjectOf(RowDataMembers)))?;
        let mask = required(alloc, members, "fields", &Mask(CellPaths))?;
        let area = UpdatedAreaMembers.take(alloc, members)?;
        Ok(update_of(alloc, both(both(rows, mask), area)))
    }
}

/// The rows of a write, if they are given, its mask and its area.
type UpdateParts = ((Option<Items<Items<Input>>>, Text), UpdatedArea);

/// The write of rows to an area.
fn update_of(alloc: Global, parts: Read<UpdateParts>) -> Read<Request>
    ensures { result ≡ made update_of parts }
{
    let (written, area) = parts?;
    let (rows, _mask) = written;
    let rows = block_of(alloc, None, rows);
    Ok(Request::UpdateCells { rows, area })
}

/// AppendCellsRequest
#[derive(Clone, Copy)]
pub(crate) struct AppendCellsMembers;

impl Fields for AppendCellsMembers {
    type Output = Request;

    ghost fields = { λ _. append_cells };

    fn take(
        &self,
        alloc: Global,
        members: &mut Map<String, Json>,
    ) -> Result<Read<Request>, NoMemory> {
        let sheet = optional(alloc, members, "sheetId", &Index)?;
        let rows = required(alloc, members, "rows", &ListOf(ObjectOf(RowDataMembers)))?;
        let mask = required(alloc, members, "fields", &Mask(CellPaths))?;
        Ok(append_of(alloc, both(both(sheet, rows), mask)))
    }
}

/// The sheet and the rows of a write, and its mask.
type AppendParts = ((Option<u32>, Items<Items<Input>>), Text);

/// The write of rows behind the last.
fn append_of(alloc: Global, parts: Read<AppendParts>) -> Read<Request>
    ensures { result ≡ made append_of parts }
{
    let ((sheet, rows), _) = parts?;
    Ok(Request::AppendCells {
        sheet_id: sheet.unwrap_or(0),
        rows: block_of(alloc, None, Some(rows)),
    })
}
