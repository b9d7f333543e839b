ghost use Rattle.std.specs.Prelude.{◌≡◌, [], None, unwrap_or};
ghost use Rattle.json_shapes.specs.Reading.{made};
ghost use Rattle.sheets_json.specs.Creations.{or_any, new_sheet, title, new_spreadsheet_of, new_spreadsheet_from, new_spreadsheet};

use crate::NewSpreadsheet;
use crate::value_range::in_turn;
use cell_value::{Items, NoMemory, SheetProperties, Text};
use json_requests::SheetPropertiesMembers;
use json_shapes::{AnyText, Fields, Kept, ListOf, ObjectOf, Read, both, optional};
use serde_json::{Map, Value as Json};
use std::alloc::Global;

/// What a body says, its parts kept for their turn.
type Parts = (
    Option<Read<Option<Text>>>,
    Option<Read<Items<SheetProperties>>>,
);

/// A title and sheets, if they are given.
type Given = (Option<Option<Text>>, Option<Items<SheetProperties>>);

/// SpreadsheetProperties
#[derive(Clone, Copy)]
struct TitleMembers;

impl Fields for TitleMembers {
    type Output = Option<Text>;

    ghost fields = { λ _. title };

    fn take(
        &self,
        alloc: Global,
        members: &mut Map<String, Json>,
    ) -> Result<Read<Option<Text>>, NoMemory> {
        optional(alloc, members, "title", &AnyText)
    }
}

/// A sheet of a new spreadsheet.
#[derive(Clone, Copy)]
struct NewSheetMembers;

impl Fields for NewSheetMembers {
    type Output = SheetProperties;

    ghost fields = { λ _. new_sheet };

    fn take(
        &self,
        alloc: Global,
        members: &mut Map<String, Json>,
    ) -> Result<Read<SheetProperties>, NoMemory> {
        let properties = ObjectOf(SheetPropertiesMembers);
        let asked = optional(alloc, members, "properties", &properties)?;
        Ok(or_any(asked))
    }
}

/// What is asked of a sheet, which may be nothing.
fn or_any(asked: Read<Option<SheetProperties>>) -> Read<SheetProperties>
    ensures { result ≡ made or_any asked }
{
    match asked? {
        Some(properties) => Ok(properties),
        None => Ok(SheetProperties {
            id: None,
            title: None,
            index: None,
            hidden: None,
            rows: None,
            cols: None,
        }),
    }
}

/// The members of a new spreadsheet.
#[derive(Clone, Copy)]
pub(crate) struct NewSpreadsheetMembers;

impl Fields for NewSpreadsheetMembers {
    type Output = Read<NewSpreadsheet>;

    ghost fields = { λ _. new_spreadsheet };

    fn take(
        &self,
        alloc: Global,
        members: &mut Map<String, Json>,
    ) -> Result<Read<Read<NewSpreadsheet>>, NoMemory> {
        let title = Kept(ObjectOf(TitleMembers));
        let title = optional(alloc, members, "properties", &title)?;
        let sheets = Kept(ListOf(ObjectOf(NewSheetMembers)));
        let sheets = optional(alloc, members, "sheets", &sheets)?;
        Ok(new_spreadsheet_from(alloc, both(title, sheets)))
    }
}

/// What a body says, once its parts are judged.
fn new_spreadsheet_from(alloc: Global, parts: Read<Parts>) -> Read<Read<NewSpreadsheet>>
    ensures { result ≡ made new_spreadsheet_from parts }
{
    let (title, sheets) = parts?;
    Ok(new_spreadsheet_of(alloc, both(in_turn(title), in_turn(sheets))))
}

/// A title and sheets, of which there may be none.
fn new_spreadsheet_of(alloc: Global, parts: Read<Given>) -> Read<NewSpreadsheet>
    ensures { result ≡ made new_spreadsheet_of parts }
{
    let (title, sheets) = parts?;
    Ok(NewSpreadsheet {
        title: title_of(title),
        sheets: sheets_of(alloc, sheets),
    })
}

/// The title, if one is given.
fn title_of(title: Option<Option<Text>>) -> Option<Text>
    ensures { result ≡ unwrap_or title None }
{
    match title {
        Some(title) => title,
        None => None,
    }
}

/// The sheets, none where none are given.
fn sheets_of(alloc: Global, sheets: Option<Items<SheetProperties>>) -> Items<SheetProperties>
    ensures { result ≡ unwrap_or sheets [] }
{
    match sheets {
        Some(sheets) => sheets,
        None => Items::of(Vec::new(alloc)),
    }
}
