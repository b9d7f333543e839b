ghost use Rattle.std.specs.Prelude.{◌≡◌, IfOk, Some};
ghost use Rattle.dimension_ops.specs.Rules.{IsUnlessNoMemory};
ghost use Rattle.dimension_ops.specs.SheetRequests.{new_place};
ghost use Rattle.world_model.specs.Sound.{place_sheet_with};
ghost use Rattle.world_model.specs.Sheet.{PlaceSheet};
ghost use Rattle.request_kinds.specs.AddSheet.{IsAddSheet, IsSheetAsked, any_properties};
ghost use Rattle.request_kinds.specs.Shown.{shown_properties};
ghost use Rattle.request_kinds.specs.Telling.{IsDoneTo};

use crate::shown::shown_properties;
use cell_value::{NoMemory, SheetProperties};
use dimension_ops::{Book, RuleOr, add_sheet as added};
use sheets_json::{Reply, ShownProperties};

/// Adds a sheet, and replies its properties.
pub(crate) fn add_sheet(
    book: &mut Book,
    properties: &Option<SheetProperties>,
) -> Result<Reply, RuleOr>
    ensures { IsUnlessNoMemory (IsDoneTo (IsAddSheet properties.now book.old) book.old book.new) result }
{
    match properties {
        Some(properties) => add(book, properties),
        None => add(book, &any_properties()),
    }
}

/// What is asked for a sheet for which nothing is asked.
fn any_properties() -> SheetProperties
    ensures { result ≡ any_properties }
{
    SheetProperties {
        id: None,
        title: None,
        index: None,
        hidden: None,
        rows: None,
        cols: None,
    }
}

/// Adds a sheet with these properties.
fn add(book: &mut Book, properties: &SheetProperties) -> Result<Reply, RuleOr>
    ensures { IsUnlessNoMemory (IsDoneTo (IsSheetAsked properties.now book.old) book.old book.new) result }
{
    let index = place_of_new(book, properties);
    match added(book, properties) {
        Ok(id) => {
            let properties = properties_of(book, id, index)?;
            Ok(Reply::AddSheet { properties })
        }
        Err(fault) => Err(fault),
    }
}

/// Before which sheet a new one stands.
fn place_of_new(book: &Book, properties: &SheetProperties) -> u32
    ensures { result ≡ new_place properties.now book.now.sheets }
{
    book.stays_sound();
    properties
        .index
        .unwrap_or(book.sheets().as_slice().len() as u32)
}

/// The properties of the sheet with the id, as they are shown at its place among the sheets.
fn properties_of(book: &Book, id: u32, index: u32) -> Result<ShownProperties, NoMemory>
    requires { (sheet : PlaceSheet) × (place_sheet_with id book.now.sheets ≡ Some sheet) }
    ensures { IfOk result (λ shown. (sheet : PlaceSheet) → place_sheet_with id book.now.sheets ≡ Some sheet
        → shown ≡ shown_properties index sheet) }
{
    let sheet = book.sheet(id).unwrap();
    shown_properties(index, sheet)
}
