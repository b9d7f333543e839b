ghost use Rattle.std.specs.Prelude.{◌≡◌};
ghost use Rattle.json_requests.specs.declared.request.Request.TheVariants.{AddSheet, DeleteSheet};
ghost use Rattle.json_shapes.specs.Reading.{made};
ghost use Rattle.json_requests.specs.Sheets.{grid_named, grid_properties, sheet_place, sheet_form, rows_of, columns_of, properties_of, sheet_properties, add_sheet, delete_sheet};

use crate::Request;
use cell_value::{NoMemory, SheetProperties, Text};
use json_shapes::{
    AnyText, Fields, Index, ObjectOf, Read, Truth, Word, Words, both, optional, required,
};
use serde_json::{Map, Value as Json};
use std::alloc::Global;

/// The numbers of rows and columns.
type Counts = (Option<u32>, Option<u32>);

/// An id, a title and a place.
type Place = ((Option<u32>, Option<Text>), Option<u32>);

/// A mark, a type and the numbers of lines.
type Form = ((Option<bool>, Option<()>), Option<Counts>);

/// The words of SheetType, of which there is one.
#[derive(Clone, Copy)]
struct SheetTypes;

impl Words for SheetTypes {
    type Output = ();

    ghost table = { λ _. grid_named };

    fn named(&self, name: &str) -> Option<()> {
        match name {
            "GRID" => Some(()),
            _ => None,
        }
    }
}

/// GridProperties
#[derive(Clone, Copy)]
struct GridPropertiesMembers;

impl Fields for GridPropertiesMembers {
    type Output = Counts;

    ghost fields = { λ _. grid_properties };

    fn take(
        &self,
        alloc: Global,
        members: &mut Map<String, Json>,
    ) -> Result<Read<Counts>, NoMemory> {
        let rows = optional(alloc, members, "rowCount", &Index)?;
        let columns = optional(alloc, members, "columnCount", &Index)?;
        Ok(both(rows, columns))
    }
}

/// Which sheet it is, and where.
#[derive(Clone, Copy)]
struct PlaceMembers;

impl Fields for PlaceMembers {
    type Output = Place;

    ghost fields = { λ _. sheet_place };

    fn take(
        &self,
        alloc: Global,
        members: &mut Map<String, Json>,
    ) -> Result<Read<Place>, NoMemory> {
        let id = optional(alloc, members, "sheetId", &Index)?;
        let title = optional(alloc, members, "title", &AnyText)?;
        let index = optional(alloc, members, "index", &Index)?;
        Ok(both(both(id, title), index))
    }
}

/// What it is like.
#[derive(Clone, Copy)]
struct FormMembers;

impl Fields for FormMembers {
    type Output = Form;

    ghost fields = { λ _. sheet_form };

    fn take(&self, alloc: Global, members: &mut Map<String, Json>) -> Result<Read<Form>, NoMemory> {
        let hidden = optional(alloc, members, "hidden", &Truth)?;
        let kind = optional(alloc, members, "sheetType", &Word(SheetTypes))?;
        let grid = ObjectOf(GridPropertiesMembers);
        let counts = optional(alloc, members, "gridProperties", &grid)?;
        Ok(both(both(hidden, kind), counts))
    }
}

/// SheetProperties (Google Sheets API v4 reference).
#[derive(Clone, Copy)]
pub struct SheetPropertiesMembers;

impl Fields for SheetPropertiesMembers {
    type Output = SheetProperties;

    ghost fields = { λ _. sheet_properties };

    fn take(
        &self,
        alloc: Global,
        members: &mut Map<String, Json>,
    ) -> Result<Read<SheetProperties>, NoMemory> {
        let place = PlaceMembers.take(alloc, members)?;
        let form = FormMembers.take(alloc, members)?;
        Ok(properties_of(both(place, form)))
    }
}

/// What is known of a sheet.
fn properties_of(parts: Read<(Place, Form)>) -> Read<SheetProperties>
    ensures { result ≡ made properties_of parts }
{
    let (((id, title), index), ((hidden, _), counts)) = parts?;
    Ok(SheetProperties {
        id,
        title,
        index,
        hidden,
        rows: rows_of(counts),
        cols: columns_of(counts),
    })
}

/// The number of rows.
fn rows_of(counts: Option<Counts>) -> Option<u32>
    ensures { result ≡ rows_of counts }
{
    match counts {
        Some((rows, _)) => rows,
        None => None,
    }
}

/// The number of columns.
fn columns_of(counts: Option<Counts>) -> Option<u32>
    ensures { result ≡ columns_of counts }
{
    match counts {
        Some((_, columns)) => columns,
        None => None,
    }
}

/// AddSheetRequest
#[derive(Clone, Copy)]
pub(crate) struct AddSheetMembers;

impl Fields for AddSheetMembers {
    type Output = Request;

    ghost fields = { λ _. add_sheet };

    fn take(
        &self,
        alloc: Global,
        members: &mut Map<String, Json>,
    ) -> Result<Read<Request>, NoMemory> {
        let properties = ObjectOf(SheetPropertiesMembers);
        let properties = optional(alloc, members, "properties", &properties)?;
        Ok(add_of(properties))
    }
}

/// A new sheet.
fn add_of(parts: Read<Option<SheetProperties>>) -> Read<Request>
    ensures { result ≡ made AddSheet parts }
{
    let properties = parts?;
    Ok(Request::AddSheet { properties })
}

/// DeleteSheetRequest
#[derive(Clone, Copy)]
pub(crate) struct DeleteSheetMembers;

impl Fields for DeleteSheetMembers {
    type Output = Request;

    ghost fields = { λ _. delete_sheet };

    fn take(
        &self,
        alloc: Global,
        members: &mut Map<String, Json>,
    ) -> Result<Read<Request>, NoMemory> {
        let sheet = required(alloc, members, "sheetId", &Index)?;
        Ok(delete_of(sheet))
    }
}

/// The removal of a sheet.
fn delete_of(parts: Read<u32>) -> Read<Request>
    ensures { result ≡ made DeleteSheet parts }
{
    let sheet_id = parts?;
    Ok(Request::DeleteSheet { sheet_id })
}
