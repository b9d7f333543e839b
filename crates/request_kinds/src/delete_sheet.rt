ghost use Rattle.dimension_ops.specs.Rules.{IsUnlessNoMemory};
ghost use Rattle.values_api.specs.Denials.{IsDenial};
ghost use Rattle.request_kinds.specs.DeleteSheet.{IsDeleteSheet, SheetCells};
ghost use Rattle.request_kinds.specs.Telling.{IsDoneTo};

use crate::dimensions::whole_sheet;
use dimension_ops::{Book, RuleOr, drop_sheet};
use sheets_json::Reply;
use values_api::area_denial;

/// Deletes a sheet, and each reference to it.
pub(crate) fn delete_sheet(book: &mut Book, sheet: u32) -> Result<Reply, RuleOr>
    ensures { IsUnlessNoMemory (IsDoneTo (IsDeleteSheet sheet book.old) book.old book.new) result }
{
    match drop_sheet(book, sheet) {
        Ok(()) => Ok(Reply::Empty),
        Err(fault) => Err(fault),
    }
}

/// The least id of a protected range that denies the user a cell of the sheet; None where none does.
pub(crate) fn deleted_sheet_denial(book: &Book, user: &str, sheet: u32) -> Option<u32>
    ensures { IsDenial user.now book.now (SheetCells sheet book.now.sheets) result }
{
    area_denial(book, user, &whole_sheet(sheet))
}
