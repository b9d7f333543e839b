ghost use Rattle.std.specs.Prelude.{◌≡◌, codes, IfOk};
ghost use Rattle.serde_json.specs.View.{view, members_view};
ghost use Rattle.sheets_json.specs.Written.{put_given};
ghost use Rattle.sheets_json.specs.Spreadsheets.{named_range_data, editors_data, cover_members, protection_data, grid_properties_data, place_members, properties_data, row_data, grid_data, grids_data, own_members, sheet_data, title_data, spreadsheet_data, reply_object, reply_data, batch_data};

use crate::writing::{
    ToJson, text_json, with, with_filled, with_given, with_items, with_json, with_true,
};
use crate::{
    DimensionProperties, GridData, Reply, ShownProperties, ShownProtection, ShownSheet, Spreadsheet,
};
use cell_value::{Items, NoMemory, Text};
use named_ranges::NamedRange;
use serde_json::{Map, Value as Json};
use std::alloc::Global;

impl ToJson for NamedRange {
    ghost json_data = { named_range_data };

    fn to_json(&self, alloc: Global) -> Result<Json, NoMemory> {
        let members = with(alloc, Map::new(alloc), "range", &self.area)?;
        let members = with(alloc, members, "namedRangeId", &self.id)?;
        let members = with(alloc, members, "name", &self.name)?;
        Ok(Json::Object(members))
    }
}

/// Editors
fn editors_json(alloc: Global, users: &Items<Text>) -> Result<Json, NoMemory>
    ensures { IfOk result (λ json. view json ≡ editors_data users.now) }
{
    let members = with(alloc, Map::new(alloc), "users", users)?;
    Ok(Json::Object(members))
}

/// The members of a protected range that say which cells it covers, and who may edit them.
fn cover_members(alloc: Global, protection: &ShownProtection) -> Result<Map<String, Json>, NoMemory>
    ensures { IfOk result (λ members. members_view members.entries ≡ cover_members protection.now) }
{
    let members = Map::new(alloc);
    let members = with_true(alloc, members, "warningOnly", protection.warning_only)?;
    let ranges = &protection.unprotected_ranges;
    let members = with_items(alloc, members, "unprotectedRanges", ranges)?;
    let can_edit = &protection.requesting_user_can_edit;
    let members = with(alloc, members, "requestingUserCanEdit", can_edit)?;
    let members = with(alloc, members, "range", &protection.range)?;
    with(
        alloc,
        members,
        "protectedRangeId",
        &protection.protected_range_id,
    )
}

/// The members of a protected range, with its editors, if they are given.
fn with_editors(
    alloc: Global,
    members: Map<String, Json>,
    editors: &Option<Items<Text>>,
) -> Result<Map<String, Json>, NoMemory>
    ensures { IfOk result (λ more. members_view more.entries
        ≡ put_given (codes "editors") editors_data editors.now (members_view members.entries)) }
{
    match editors {
        Some(users) => with_json(alloc, members, "editors", editors_json(alloc, users)?),
        None => Ok(members),
    }
}

impl ToJson for ShownProtection {
    ghost json_data = { protection_data };

    fn to_json(&self, alloc: Global) -> Result<Json, NoMemory> {
        let members = cover_members(alloc, self)?;
        let members = with_editors(alloc, members, &self.editors)?;
        let members = with_filled(alloc, members, "description", &self.description)?;
        Ok(Json::Object(members))
    }
}

/// GridProperties
fn grid_properties_json(alloc: Global, properties: &ShownProperties) -> Result<Json, NoMemory>
    ensures { IfOk result (λ json. view json ≡ grid_properties_data properties.now) }
{
    let members = with(alloc, Map::new(alloc), "rowCount", &properties.row_count)?;
    let members = with(alloc, members, "columnCount", &properties.column_count)?;
    Ok(Json::Object(members))
}

/// The SheetProperties that say which sheet it is, and where.
fn place_members(alloc: Global, properties: &ShownProperties) -> Result<Map<String, Json>, NoMemory>
    ensures { IfOk result (λ members. members_view members.entries ≡ place_members properties.now) }
{
    let members = with(alloc, Map::new(alloc), "title", &properties.title)?;
    let members = with_json(alloc, members, "sheetType", text_json(alloc, "GRID")?)?;
    let members = with(alloc, members, "sheetId", &properties.sheet_id)?;
    with(alloc, members, "index", &properties.index)
}

impl ToJson for ShownProperties {
    ghost json_data = { properties_data };

    fn to_json(&self, alloc: Global) -> Result<Json, NoMemory> {
        let members = place_members(alloc, self)?;
        let members = with_true(alloc, members, "hidden", self.hidden)?;
        let grid = grid_properties_json(alloc, self)?;
        let members = with_json(alloc, members, "gridProperties", grid)?;
        Ok(Json::Object(members))
    }
}

impl ToJson for DimensionProperties {
    ghost json_data = { row_data };

    fn to_json(&self, alloc: Global) -> Result<Json, NoMemory> {
        let members = with_true(
            alloc,
            Map::new(alloc),
            "hiddenByFilter",
            self.hidden_by_filter,
        )?;
        Ok(Json::Object(members))
    }
}

impl ToJson for GridData {
    ghost json_data = { grid_data };

    fn to_json(&self, alloc: Global) -> Result<Json, NoMemory> {
        let members = with(alloc, Map::new(alloc), "rowMetadata", &self.row_metadata)?;
        Ok(Json::Object(members))
    }
}

/// A sheet's only range that is shown, in a list.
fn grids_json(alloc: Global, grid: &GridData) -> Result<Json, NoMemory>
    ensures { IfOk result (λ json. view json ≡ grids_data grid.now) }
{
    let mut grids = Vec::with_capacity(alloc, 1)?;
    grids.push(grid.to_json(alloc)?)?;
    Ok(Json::Array(grids))
}

/// The members of a sheet, with what is known of its rows, if that is given.
fn with_grid(
    alloc: Global,
    members: Map<String, Json>,
    grid: &Option<GridData>,
) -> Result<Map<String, Json>, NoMemory>
    ensures { IfOk result (λ more. members_view more.entries
        ≡ put_given (codes "data") grids_data grid.now (members_view members.entries)) }
{
    match grid {
        Some(grid) => with_json(alloc, members, "data", grids_json(alloc, grid)?),
        None => Ok(members),
    }
}

/// The members of a sheet that say its merged areas, what is known of the sheet itself, and its
/// protected ranges.
fn own_members(alloc: Global, sheet: &ShownSheet) -> Result<Map<String, Json>, NoMemory>
    ensures { IfOk result (λ members. members_view members.entries ≡ own_members sheet.now) }
{
    let members = Map::new(alloc);
    let members = with_given(alloc, members, "protectedRanges", &sheet.protected_ranges)?;
    let members = with(alloc, members, "properties", &sheet.properties)?;
    with_given(alloc, members, "merges", &sheet.merges)
}

impl ToJson for ShownSheet {
    ghost json_data = { sheet_data };

    fn to_json(&self, alloc: Global) -> Result<Json, NoMemory> {
        let members = own_members(alloc, self)?;
        let members = with_grid(alloc, members, &self.data)?;
        let members = with_given(alloc, members, "basicFilter", &self.basic_filter)?;
        Ok(Json::Object(members))
    }
}

/// SpreadsheetProperties
fn title_json(alloc: Global, title: &Text) -> Result<Json, NoMemory>
    ensures { IfOk result (λ json. view json ≡ title_data title.now) }
{
    let members = with(alloc, Map::new(alloc), "title", title)?;
    Ok(Json::Object(members))
}

impl ToJson for Spreadsheet {
    ghost json_data = { spreadsheet_data };

    fn to_json(&self, alloc: Global) -> Result<Json, NoMemory> {
        let title = title_json(alloc, &self.title)?;
        let members = with(
            alloc,
            Map::new(alloc),
            "spreadsheetId",
            &self.spreadsheet_id,
        )?;
        let members = with(alloc, members, "sheets", &self.sheets)?;
        let members = with_json(alloc, members, "properties", title)?;
        let members = with_given(alloc, members, "namedRanges", &self.named_ranges)?;
        Ok(Json::Object(members))
    }
}

/// A kind's member with what is replied to it.
fn reply_object(alloc: Global, kind: &str, name: &str, value: Json) -> Result<Json, NoMemory>
    ensures { IfOk result (λ json. view json ≡ reply_object kind.now name.now (view value)) }
{
    let said = with_json(alloc, Map::new(alloc), name, value)?;
    let members = with_json(alloc, Map::new(alloc), kind, Json::Object(said))?;
    Ok(Json::Object(members))
}

impl ToJson for Reply {
    ghost json_data = { reply_data };

    fn to_json(&self, alloc: Global) -> Result<Json, NoMemory> {
        match self {
            Reply::Empty => Ok(Json::Object(Map::new(alloc))),
            Reply::AddSheet { properties } => {
                let properties = properties.to_json(alloc)?;
                reply_object(alloc, "addSheet", "properties", properties)
            }
            Reply::AddNamedRange { named_range } => {
                let named_range = named_range.to_json(alloc)?;
                reply_object(alloc, "addNamedRange", "namedRange", named_range)
            }
            Reply::AddProtectedRange { protected_range } => {
                let range = protected_range.to_json(alloc)?;
                reply_object(alloc, "addProtectedRange", "protectedRange", range)
            }
            Reply::CreateDeveloperMetadata { developer_metadata } => {
                let item = developer_metadata.to_json(alloc)?;
                reply_object(alloc, "createDeveloperMetadata", "developerMetadata", item)
            }
            Reply::UpdateDeveloperMetadata { developer_metadata } => {
                let items = developer_metadata.to_json(alloc)?;
                reply_object(alloc, "updateDeveloperMetadata", "developerMetadata", items)
            }
            Reply::DeleteDeveloperMetadata {
                deleted_developer_metadata,
            } => {
                let items = deleted_developer_metadata.to_json(alloc)?;
                let name = "deletedDeveloperMetadata";
                reply_object(alloc, "deleteDeveloperMetadata", name, items)
            }
        }
    }
}

/// BatchUpdateSpreadsheetResponse
pub(crate) fn batch_json(alloc: Global, replies: &Items<Reply>, id: &Text) -> Result<Json, NoMemory>
    ensures { IfOk result (λ json. view json ≡ batch_data replies.now id.now) }
{
    let members = with(alloc, Map::new(alloc), "spreadsheetId", id)?;
    let members = with(alloc, members, "replies", replies)?;
    Ok(Json::Object(members))
}
