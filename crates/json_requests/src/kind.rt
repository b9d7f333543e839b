ghost use Rattle.std.specs.Prelude.{◌≡◌};
ghost use Rattle.json_requests.specs.Requests.{kind_named};

/// The kinds of requests that are known.
#[derive(Clone, Copy, Debug, PartialEq, Eq)]
pub(crate) enum RequestKind {
    AddSheet,
    DeleteSheet,
    UpdateSheetProperties,
    UpdateCells,
    AppendCells,
    InsertDimension,
    DeleteDimension,
    AppendDimension,
    MoveDimension,
    MergeCells,
    UnmergeCells,
    AddNamedRange,
    UpdateNamedRange,
    DeleteNamedRange,
    AddProtectedRange,
    UpdateProtectedRange,
    DeleteProtectedRange,
    SetBasicFilter,
    ClearBasicFilter,
    CreateDeveloperMetadata,
    UpdateDeveloperMetadata,
    DeleteDeveloperMetadata,
}

/// The kind of that name.
pub(crate) fn kind_named(name: &str) -> Option<RequestKind>
    ensures { result ≡ kind_named name.now }
{
    match name {
        "addSheet" => Some(RequestKind::AddSheet),
        "deleteSheet" => Some(RequestKind::DeleteSheet),
        "updateSheetProperties" => Some(RequestKind::UpdateSheetProperties),
        "updateCells" => Some(RequestKind::UpdateCells),
        "appendCells" => Some(RequestKind::AppendCells),
        "insertDimension" => Some(RequestKind::InsertDimension),
        "deleteDimension" => Some(RequestKind::DeleteDimension),
        "appendDimension" => Some(RequestKind::AppendDimension),
        "moveDimension" => Some(RequestKind::MoveDimension),
        "mergeCells" => Some(RequestKind::MergeCells),
        "unmergeCells" => Some(RequestKind::UnmergeCells),
        "addNamedRange" => Some(RequestKind::AddNamedRange),
        "updateNamedRange" => Some(RequestKind::UpdateNamedRange),
        "deleteNamedRange" => Some(RequestKind::DeleteNamedRange),
        "addProtectedRange" => Some(RequestKind::AddProtectedRange),
        "updateProtectedRange" => Some(RequestKind::UpdateProtectedRange),
        "deleteProtectedRange" => Some(RequestKind::DeleteProtectedRange),
        "setBasicFilter" => Some(RequestKind::SetBasicFilter),
        "clearBasicFilter" => Some(RequestKind::ClearBasicFilter),
        "createDeveloperMetadata" => Some(RequestKind::CreateDeveloperMetadata),
        "updateDeveloperMetadata" => Some(RequestKind::UpdateDeveloperMetadata),
        "deleteDeveloperMetadata" => Some(RequestKind::DeleteDeveloperMetadata),
        _ => None,
    }
}
