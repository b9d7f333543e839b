ghost use Rattle.std.specs.Prelude.{◌≡◌};
ghost use Rattle.json_requests.specs.declared.request.Request.TheVariants.{DeleteDimension};
ghost use Rattle.json_shapes.specs.Reading.{made};
ghost use Rattle.json_requests.specs.Dimensions.{stretch_of, stretch_start, open_range_of, dimension_range, closed_range_of, closed_range, insert_of, insert_dimension, delete_dimension, append_of, append_dimension, move_of, move_dimension};

use crate::{DimensionRange, Request};
use cell_value::NoMemory;
use grid_range::Axis;
use json_shapes::{
    Dimension, Fields, Index, ObjectOf, Read, Truth, Word, both, optional, required,
};
use serde_json::{Map, Value as Json};
use std::alloc::Global;

/// A sheet, a dimension, and the first line.
type Start = ((Option<u32>, Axis), Option<u32>);

/// Where a DimensionRange begins.
#[derive(Clone, Copy)]
struct StartMembers;

impl Fields for StartMembers {
    type Output = Start;

    ghost fields = { λ _. stretch_start };

    fn take(
        &self,
        alloc: Global,
        members: &mut Map<String, Json>,
    ) -> Result<Read<Start>, NoMemory> {
        let sheet = optional(alloc, members, "sheetId", &Index)?;
        let dimension = required(alloc, members, "dimension", &Word(Dimension))?;
        let start = optional(alloc, members, "startIndex", &Index)?;
        Ok(both(both(sheet, dimension), start))
    }
}

/// A DimensionRange.
#[derive(Clone, Copy)]
pub(crate) struct DimensionRangeMembers;

impl Fields for DimensionRangeMembers {
    type Output = DimensionRange;

    ghost fields = { λ _. dimension_range };

    fn take(
        &self,
        alloc: Global,
        members: &mut Map<String, Json>,
    ) -> Result<Read<DimensionRange>, NoMemory> {
        let start = StartMembers.take(alloc, members)?;
        let end = optional(alloc, members, "endIndex", &Index)?;
        Ok(open_range(both(start, end)))
    }
}

/// A DimensionRange with an end.
#[derive(Clone, Copy)]
struct ClosedRangeMembers;

impl Fields for ClosedRangeMembers {
    type Output = DimensionRange;

    ghost fields = { λ _. closed_range };

    fn take(
        &self,
        alloc: Global,
        members: &mut Map<String, Json>,
    ) -> Result<Read<DimensionRange>, NoMemory> {
        let start = StartMembers.take(alloc, members)?;
        let end = required(alloc, members, "endIndex", &Index)?;
        Ok(closed_range(both(start, end)))
    }
}

/// The lines from a start to an end.
fn stretch_of(start: Start, end: Option<u32>) -> DimensionRange
    ensures { result ≡ stretch_of start end }
{
    let ((sheet, dimension), first) = start;
    DimensionRange {
        sheet_id: sheet.unwrap_or(0),
        dimension,
        start_index: first.unwrap_or(0),
        end_index: end,
    }
}

/// The lines, to an end that may be absent.
fn open_range(parts: Read<(Start, Option<u32>)>) -> Read<DimensionRange>
    ensures { result ≡ made open_range_of parts }
{
    let (start, end) = parts?;
    Ok(stretch_of(start, end))
}

/// The lines, to an end.
fn closed_range(parts: Read<(Start, u32)>) -> Read<DimensionRange>
    ensures { result ≡ made closed_range_of parts }
{
    let (start, end) = parts?;
    Ok(stretch_of(start, Some(end)))
}

/// InsertDimensionRequest
#[derive(Clone, Copy)]
pub(crate) struct InsertDimensionMembers;

impl Fields for InsertDimensionMembers {
    type Output = Request;

    ghost fields = { λ _. insert_dimension };

    fn take(
        &self,
        alloc: Global,
        members: &mut Map<String, Json>,
    ) -> Result<Read<Request>, NoMemory> {
        let range = required(alloc, members, "range", &ObjectOf(ClosedRangeMembers))?;
        let inherit = optional(alloc, members, "inheritFromBefore", &Truth)?;
        Ok(insert_of(both(range, inherit)))
    }
}

/// The insert of lines.
fn insert_of(parts: Read<(DimensionRange, Option<bool>)>) -> Read<Request>
    ensures { result ≡ made insert_of parts }
{
    let (range, inherit_from_before) = parts?;
    Ok(Request::InsertDimension {
        range,
        inherit_from_before,
    })
}

/// DeleteDimensionRequest
#[derive(Clone, Copy)]
pub(crate) struct DeleteDimensionMembers;

impl Fields for DeleteDimensionMembers {
    type Output = Request;

    ghost fields = { λ _. delete_dimension };

    fn take(
        &self,
        alloc: Global,
        members: &mut Map<String, Json>,
    ) -> Result<Read<Request>, NoMemory> {
        let range = required(alloc, members, "range", &ObjectOf(DimensionRangeMembers))?;
        Ok(delete_of(range))
    }
}

/// The removal of lines.
fn delete_of(parts: Read<DimensionRange>) -> Read<Request>
    ensures { result ≡ made DeleteDimension parts }
{
    let range = parts?;
    Ok(Request::DeleteDimension { range })
}

/// AppendDimensionRequest
#[derive(Clone, Copy)]
pub(crate) struct AppendDimensionMembers;

impl Fields for AppendDimensionMembers {
    type Output = Request;

    ghost fields = { λ _. append_dimension };

    fn take(
        &self,
        alloc: Global,
        members: &mut Map<String, Json>,
    ) -> Result<Read<Request>, NoMemory> {
        let sheet = optional(alloc, members, "sheetId", &Index)?;
        let dimension = required(alloc, members, "dimension", &Word(Dimension))?;
        let length = required(alloc, members, "length", &Index)?;
        Ok(append_of(both(both(sheet, dimension), length)))
    }
}

/// Lines behind the last.
fn append_of(parts: Read<((Option<u32>, Axis), u32)>) -> Read<Request>
    ensures { result ≡ made append_of parts }
{
    let ((sheet, dimension), length) = parts?;
    Ok(Request::AppendDimension {
        sheet_id: sheet.unwrap_or(0),
        dimension,
        length,
    })
}

/// MoveDimensionRequest
#[derive(Clone, Copy)]
pub(crate) struct MoveDimensionMembers;

impl Fields for MoveDimensionMembers {
    type Output = Request;

    ghost fields = { λ _. move_dimension };

    fn take(
        &self,
        alloc: Global,
        members: &mut Map<String, Json>,
    ) -> Result<Read<Request>, NoMemory> {
        let source = required(alloc, members, "source", &ObjectOf(DimensionRangeMembers))?;
        let destination = required(alloc, members, "destinationIndex", &Index)?;
        Ok(move_of(both(source, destination)))
    }
}

/// The move of lines.
fn move_of(parts: Read<(DimensionRange, u32)>) -> Read<Request>
    ensures { result ≡ made move_of parts }
{
    let (source, destination_index) = parts?;
    Ok(Request::MoveDimension {
        source,
        destination_index,
    })
}
