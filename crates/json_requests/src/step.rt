ghost use Rattle.std.specs.Prelude.{◌≡◌, if◌then◌else◌, None, Some, Err, IfOk};
ghost use Rattle.std.specs.Option.{option_map};
ghost use Rattle.serde_json.specs.Data.{object};
ghost use Rattle.serde_json.specs.View.{view, members_view};
ghost use Rattle.json_shapes.specs.Members.{are_null};
ghost use Rattle.json_requests.specs.Requests.{of_kind, of_no_kind, by_kind, sole_named, sole_given, of_sole, request, step_of, step_shape};

use crate::cells::{AppendCellsMembers, UpdateCellsMembers};
use crate::dimension::{
    AppendDimensionMembers, DeleteDimensionMembers, InsertDimensionMembers, MoveDimensionMembers,
};
use crate::filter::{ClearBasicFilterMembers, SetBasicFilterMembers};
use crate::kind::{RequestKind, kind_named};
use crate::merge::{MergeCellsMembers, UnmergeCellsMembers};
use crate::metadata::{CreateMetadataMembers, DeleteMetadataMembers, UpdateMetadataMembers};
use crate::named_range::{AddNamedRangeMembers, DeleteNamedRangeMembers, UpdateNamedRangeMembers};
use crate::protected_range::{
    AddProtectedRangeMembers, DeleteProtectedRangeMembers, KeepsTakenParts,
    UpdateProtectedRangeMembers,
};
use crate::sheet::{AddSheetMembers, DeleteSheetMembers};
use crate::sheet_update::UpdateSheetPropertiesMembers;
use crate::{Request, Step};
use cell_value::NoMemory;
use json_shapes::{ObjectOf, Read, Shape, ShapeFault, SuchThat, are_null, is_null};
use serde_json::{Map, Value as Json};
use std::alloc::Global;

/// A request of a batch, whose fault is kept for its turn (Google Sheets API v4 reference, Request).
#[derive(Clone, Copy)]
pub struct StepShape;

impl Shape for StepShape {
    type Output = Step;

    ghost shape = { λ _. step_shape };

    fn read(&self, alloc: Global, value: Json) -> Result<Read<Step>, NoMemory> {
        let read = read_request(alloc, value)?;
        Ok(Ok(step_of(read)))
    }
}

/// The step that a request is.
fn step_of(read: Read<Request>) -> Step
    ensures { result ≡ step_of read }
{
    match read {
        Ok(request) => Step::Read(request),
        Err(fault) => Step::Shape(fault),
    }
}

/// A request: an object whose one member is its kind.
fn read_request(alloc: Global, value: Json) -> Result<Read<Request>, NoMemory>
    ensures { IfOk result (λ read. read ≡ request (view value)) }
{
    match value {
        Json::Object(members) => read_sole(alloc, sole_given(members)),
        Json::Null | Json::Bool(_) | Json::Number(_) | Json::String(_) | Json::Array(_) => {
            Ok(Err(ShapeFault::BadShape))
        }
    }
}

/// The one member that isn't null.
fn sole_given(members: Map<String, Json>) -> Option<(String, Json)>
    ensures { option_map sole_named result ≡ sole_given (members_view members.entries) }
{
    let mut members = members;
    while let Some(entry) = members.pop_first() {
        if !is_null(&entry.1) {
            return sole_of(entry, &members);
        }
    }
    None
}

/// A member, where the others are null.
fn sole_of(entry: (String, Json), others: &Map<String, Json>) -> Option<(String, Json)>
    ensures { option_map sole_named result
        ≡ (if are_null (members_view others.now.entries) then Some (sole_named entry) else None) }
{
    if are_null(others) { Some(entry) } else { None }
}

/// The request that the member is.
fn read_sole(alloc: Global, sole: Option<(String, Json)>) -> Result<Read<Request>, NoMemory>
    ensures { IfOk result (λ read. read ≡ of_sole (option_map sole_named sole)) }
{
    match sole {
        Some(entry) => {
            let (name, value) = entry;
            read_by_kind(alloc, kind_named(name.as_str()), value)
        }
        None => Ok(Err(ShapeFault::BadShape)),
    }
}

/// The request of a kind, if it is known.
fn read_by_kind(
    alloc: Global,
    kind: Option<RequestKind>,
    value: Json,
) -> Result<Read<Request>, NoMemory>
    ensures { IfOk result (λ read. read ≡ by_kind kind (view value)) }
{
    match kind {
        Some(kind) => read_kind(alloc, kind, value),
        None => Ok(Err(no_kind_fault(&value))),
    }
}

/// Why a request of another kind is none.
fn no_kind_fault(value: &Json) -> ShapeFault
    ensures { Err result ≡ of_no_kind (view value.now) }
{
    match value {
        Json::Object(_) => ShapeFault::Unsupported,
        Json::Null | Json::Bool(_) | Json::Number(_) | Json::String(_) | Json::Array(_) => {
            ShapeFault::BadShape
        }
    }
}

/// The request of a kind.
fn read_kind(alloc: Global, kind: RequestKind, value: Json) -> Result<Read<Request>, NoMemory>
    ensures { IfOk result (λ read. read ≡ of_kind kind (view value)) }
{
    match kind {
        RequestKind::AddSheet => ObjectOf(AddSheetMembers).read(alloc, value),
        RequestKind::DeleteSheet => ObjectOf(DeleteSheetMembers).read(alloc, value),
        RequestKind::UpdateSheetProperties => {
            ObjectOf(UpdateSheetPropertiesMembers).read(alloc, value)
        }
        RequestKind::UpdateCells => ObjectOf(UpdateCellsMembers).read(alloc, value),
        RequestKind::AppendCells => ObjectOf(AppendCellsMembers).read(alloc, value),
        RequestKind::InsertDimension => ObjectOf(InsertDimensionMembers).read(alloc, value),
        RequestKind::DeleteDimension => ObjectOf(DeleteDimensionMembers).read(alloc, value),
        RequestKind::AppendDimension => ObjectOf(AppendDimensionMembers).read(alloc, value),
        RequestKind::MoveDimension => ObjectOf(MoveDimensionMembers).read(alloc, value),
        RequestKind::MergeCells => ObjectOf(MergeCellsMembers).read(alloc, value),
        RequestKind::UnmergeCells => ObjectOf(UnmergeCellsMembers).read(alloc, value),
        RequestKind::AddNamedRange => ObjectOf(AddNamedRangeMembers).read(alloc, value),
        RequestKind::UpdateNamedRange => ObjectOf(UpdateNamedRangeMembers).read(alloc, value),
        RequestKind::DeleteNamedRange => ObjectOf(DeleteNamedRangeMembers).read(alloc, value),
        RequestKind::AddProtectedRange => ObjectOf(AddProtectedRangeMembers).read(alloc, value),
        RequestKind::UpdateProtectedRange => SuchThat(
            KeepsTakenParts,
            ObjectOf(UpdateProtectedRangeMembers),
        ).read(alloc, value),
        RequestKind::DeleteProtectedRange => ObjectOf(DeleteProtectedRangeMembers).read(
            alloc, value,
        ),
        RequestKind::SetBasicFilter => ObjectOf(SetBasicFilterMembers).read(alloc, value),
        RequestKind::ClearBasicFilter => ObjectOf(ClearBasicFilterMembers).read(alloc, value),
        RequestKind::CreateDeveloperMetadata => ObjectOf(CreateMetadataMembers).read(alloc, value),
        RequestKind::UpdateDeveloperMetadata => ObjectOf(UpdateMetadataMembers).read(alloc, value),
        RequestKind::DeleteDeveloperMetadata => ObjectOf(DeleteMetadataMembers).read(alloc, value),
    }
}
