ghost use Rattle.std.specs.Prelude.{◌≡◌};
ghost use Rattle.json_requests.specs.declared.request.Request.TheVariants.{UnmergeCells};
ghost use Rattle.json_shapes.specs.Reading.{made};
ghost use Rattle.json_requests.specs.Merges.{merge_type_named, merge_of, merge_cells, unmerge_cells};

use crate::area::GridRangeMembers;
use crate::{MergeType, Request};
use cell_value::NoMemory;
use grid_range::Area;
use json_shapes::{Fields, ObjectOf, Read, Word, Words, both, required};
use serde_json::{Map, Value as Json};
use std::alloc::Global;

/// The words of MergeType.
#[derive(Clone, Copy)]
struct MergeTypes;

impl Words for MergeTypes {
    type Output = MergeType;

    ghost table = { λ _. merge_type_named };

    fn named(&self, name: &str) -> Option<MergeType> {
        match name {
            "MERGE_ALL" => Some(MergeType::All),
            "MERGE_COLUMNS" => Some(MergeType::Columns),
            "MERGE_ROWS" => Some(MergeType::Rows),
            _ => None,
        }
    }
}

/// MergeCellsRequest
#[derive(Clone, Copy)]
pub(crate) struct MergeCellsMembers;

impl Fields for MergeCellsMembers {
    type Output = Request;

    ghost fields = { λ _. merge_cells };

    fn take(
        &self,
        alloc: Global,
        members: &mut Map<String, Json>,
    ) -> Result<Read<Request>, NoMemory> {
        let range = required(alloc, members, "range", &ObjectOf(GridRangeMembers))?;
        let merge_type = required(alloc, members, "mergeType", &Word(MergeTypes))?;
        Ok(merge_of(both(range, merge_type)))
    }
}

/// The merge of cells.
fn merge_of(parts: Read<(Area, MergeType)>) -> Read<Request>
    ensures { result ≡ made merge_of parts }
{
    let (range, merge_type) = parts?;
    Ok(Request::MergeCells { range, merge_type })
}

/// UnmergeCellsRequest
#[derive(Clone, Copy)]
pub(crate) struct UnmergeCellsMembers;

impl Fields for UnmergeCellsMembers {
    type Output = Request;

    ghost fields = { λ _. unmerge_cells };

    fn take(
        &self,
        alloc: Global,
        members: &mut Map<String, Json>,
    ) -> Result<Read<Request>, NoMemory> {
        let range = required(alloc, members, "range", &ObjectOf(GridRangeMembers))?;
        Ok(unmerge_of(range))
    }
}

/// The end of merges.
fn unmerge_of(parts: Read<Area>) -> Read<Request>
    ensures { result ≡ made UnmergeCells parts }
{
    let range = parts?;
    Ok(Request::UnmergeCells { range })
}
