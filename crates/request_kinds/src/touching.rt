//! The cells that requests touch, and whether protected ranges deny one.

ghost use Rattle.std.specs.Prelude.{IfOk};
ghost use Rattle.values_api.specs.Denials.{IsDenial};
ghost use Rattle.request_kinds.specs.Touching.{TouchedCells};

use crate::delete_sheet::deleted_sheet_denial;
use crate::dimensions::{deleted_denial, moved_denial};
use crate::update_cells::updated_denial;
use crate::update_sheet_properties::cut_denial;
use cell_value::NoMemory;
use dimension_ops::Book;
use sheets_json::Request;
use std::alloc::Global;
use values_api::area_denial;

/// The least id of a protected range that denies the user a cell that the request touches; None where none does.
pub(crate) fn denial(
    alloc: Global,
    book: &Book,
    user: &str,
    request: &Request,
) -> Result<Option<u32>, NoMemory>
    ensures { IfOk result (IsDenial user.now book.now (TouchedCells book.now.sheets request.now)) }
{
    match request {
        Request::UpdateCells { rows, area } => updated_denial(alloc, book, user, rows, *area),
        Request::DeleteSheet { sheet_id } => Ok(deleted_sheet_denial(book, user, *sheet_id)),
        Request::UpdateSheetProperties {
            sheet_id,
            properties,
        } => Ok(cut_denial(book, user, *sheet_id, properties)),
        Request::DeleteDimension { range } => Ok(deleted_denial(book, user, *range)),
        Request::MoveDimension {
            source,
            destination_index,
        } => Ok(moved_denial(book, user, *source, *destination_index)),
        Request::MergeCells { range, .. } => Ok(area_denial(book, user, range)),
        Request::UnmergeCells { range } => Ok(area_denial(book, user, range)),
        Request::AppendCells { .. }
        | Request::AddSheet { .. }
        | Request::InsertDimension { .. }
        | Request::AppendDimension { .. }
        | Request::AddNamedRange { .. }
        | Request::UpdateNamedRange { .. }
        | Request::DeleteNamedRange { .. }
        | Request::AddProtectedRange { .. }
        | Request::UpdateProtectedRange { .. }
        | Request::DeleteProtectedRange { .. }
        | Request::SetBasicFilter { .. }
        | Request::ClearBasicFilter { .. }
        | Request::CreateDeveloperMetadata { .. }
        | Request::UpdateDeveloperMetadata { .. }
        | Request::DeleteDeveloperMetadata { .. } => Ok(None),
    }
}
