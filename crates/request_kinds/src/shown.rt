//! What a user is shown of a sheet and of a protected range, by replies of requests and by looks at a spreadsheet.

ghost use Rattle.std.specs.Prelude.{◌≡◌, IfOk};
ghost use Rattle.request_kinds.specs.Shown.{shown_editors, shown_properties, shown_protection};

use cell_value::{Duplicate, Items, NoMemory, Text};
use dimension_ops::Sheet;
use protection::Protection;
use sheets_json::{ShownProperties, ShownProtection};
use std::alloc::Global;

/// What is known of the sheet itself, at its place among the sheets (Sheets API v4 reference, SheetProperties).
///
/// # Errors
///
/// [`NoMemory`] where memory runs out.
pub fn shown_properties(index: u32, sheet: &Sheet) -> Result<ShownProperties, NoMemory>
    ensures { IfOk result (λ shown. shown ≡ shown_properties index sheet.now) }
{
    Ok(ShownProperties {
        column_count: sheet.cols(),
        row_count: sheet.rows(),
        hidden: sheet.hidden(),
        index,
        sheet_id: sheet.id(),
        title: sheet.title().duplicate()?,
    })
}

/// What the user is shown of the protected range, by the owner of the spreadsheet (Sheets API v4 reference,
/// ProtectedRange).
///
/// # Errors
///
/// [`NoMemory`] where memory runs out.
pub fn shown_protection(
    alloc: Global,
    user: &str,
    owner: &str,
    protection: &Protection,
) -> Result<ShownProtection, NoMemory>
    ensures { IfOk result (λ shown. shown ≡ shown_protection user.now owner.now protection.now) }
{
    let unprotected = Vec::from_slice(alloc, protection.unprotected.as_slice())?;
    Ok(ShownProtection {
        description: protection.description.duplicate()?,
        editors: shown_editors(user, owner, protection)?,
        protected_range_id: protection.id,
        range: protection.area,
        requesting_user_can_edit: protection.may_edit(user, owner),
        unprotected_ranges: Items::of(unprotected),
        warning_only: protection.warning_only,
    })
}

/// The editors of the protected range, where the user is shown them.
fn shown_editors(
    user: &str,
    owner: &str,
    protection: &Protection,
) -> Result<Option<Items<Text>>, NoMemory>
    ensures { IfOk result (λ shown. shown ≡ shown_editors user.now owner.now protection.now) }
{
    if protection.may_edit(user, owner) && !protection.warning_only {
        Ok(Some(protection.editors.duplicate()?))
    } else {
        Ok(None)
    }
}
