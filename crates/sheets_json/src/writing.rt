ghost use Rattle.std.specs.Prelude.{◌≡◌, false, map, IfOk};
ghost use Rattle.serde_json.specs.Data.{put};
ghost use Rattle.serde_json.specs.View.{view, members_view};
ghost use Rattle.serde_json.specs.Written.{compact_text, has_float};
ghost use Rattle.sheets_json.specs.Written.{text_data, truth_data, count_data, list_data, put_given, put_true, put_filled, put_items};
ghost use Rattle.sheets_json.specs.Answers.{cell_data, range_data, matched_range_data, matched_metadata_data, update_data, append_data, clear_data, read_many_data, write_many_data, clear_many_data, read_filtered_data, search_data, answer_data};
ghost use Rattle.sheets_json.specs.Refusals.{IsRefusal, status_name, error_data, refusal_data};

use crate::showing::batch_json;
use crate::{Answer, MatchedMetadata, MatchedRange, ShownRange, Update};
use cell_value::{Bytes, Cell, Items, NoMemory, Text};
use serde_json::{Map, Value as Json, put};
use std::alloc::Global;

/// A value that is written as JSON.
pub(crate) trait ToJson {
    ghost use Rattle.serde_json.specs.Data.{Data};

    ghost json_data: { Self → Data };

    /// The JSON value.
    fn to_json(&self, alloc: Global) -> Result<Json, NoMemory>
        ensures { IfOk result (λ json. view json ≡ json_data self.now) };
}

impl ToJson for Text {
    ghost json_data = { text_data };

    fn to_json(&self, alloc: Global) -> Result<Json, NoMemory> {
        text_json(alloc, self.as_str())
    }
}

/// A text.
pub(crate) fn text_json(alloc: Global, text: &str) -> Result<Json, NoMemory>
    ensures { IfOk result (λ json. view json ≡ text_data text.now) }
{
    Ok(Json::String(String::from_str(alloc, text)?))
}

impl ToJson for bool {
    ghost json_data = { truth_data };

    fn to_json(&self, _alloc: Global) -> Result<Json, NoMemory> {
        Ok(Json::Bool(*self))
    }
}

impl ToJson for u32 {
    ghost json_data = { count_data };

    fn to_json(&self, _alloc: Global) -> Result<Json, NoMemory> {
        Ok(Json::from(*self))
    }
}

impl ToJson for u64 {
    ghost json_data = { count_data };

    fn to_json(&self, _alloc: Global) -> Result<Json, NoMemory> {
        Ok(Json::from(*self))
    }
}

impl ToJson for Cell {
    ghost json_data = { cell_data };

    fn to_json(&self, alloc: Global) -> Result<Json, NoMemory> {
        match self {
            Cell::Text(text) => text.to_json(alloc),
            Cell::Number(whole) => Ok(Json::from(*whole)),
            Cell::Truth(truth) => Ok(Json::Bool(*truth)),
        }
    }
}

impl<T: ToJson> ToJson for Items<T> {
    ghost json_data = { list_data T.json_data };

    fn to_json(&self, alloc: Global) -> Result<Json, NoMemory> {
        let values = each_json(alloc, self.as_slice())?;
        Ok(Json::Array(values))
    }
}

/// The JSON values of items, in order.
fn each_json<T: ToJson>(alloc: Global, items: &[T]) -> Result<Vec<Json>, NoMemory>
    ensures { IfOk result (λ values. map view values.items ≡ map T.json_data items.now) }
{
    let mut values = Vec::with_capacity(alloc, items.len())?;
    for item in items {
        values.push(item.to_json(alloc)?)?;
    }
    Ok(values)
}

/// The members of an object, with one more.
pub(crate) fn with<T: ToJson>(
    alloc: Global,
    mut members: Map<String, Json>,
    name: &str,
    value: &T,
) -> Result<Map<String, Json>, NoMemory>
    ensures { IfOk result (λ more. members_view more.entries
        ≡ put name.now (T.json_data value.now) (members_view members.entries)) }
{
    put(&mut members, alloc, name, value.to_json(alloc)?)?;
    Ok(members)
}

/// The members of an object, with one more, if it is given.
pub(crate) fn with_given<T: ToJson>(
    alloc: Global,
    members: Map<String, Json>,
    name: &str,
    value: &Option<T>,
) -> Result<Map<String, Json>, NoMemory>
    ensures { IfOk result (λ more. members_view more.entries
        ≡ put_given name.now T.json_data value.now (members_view members.entries)) }
{
    match value {
        Some(value) => with(alloc, members, name, value),
        None => Ok(members),
    }
}

/// The members of an object, with one more.
pub(crate) fn with_json(
    alloc: Global,
    mut members: Map<String, Json>,
    name: &str,
    value: Json,
) -> Result<Map<String, Json>, NoMemory>
    ensures { IfOk result (λ more. members_view more.entries
        ≡ put name.now (view value) (members_view members.entries)) }
{
    put(&mut members, alloc, name, value)?;
    Ok(members)
}

/// The members of an object, with one more, which is absent where it is false.
pub(crate) fn with_true(
    alloc: Global,
    members: Map<String, Json>,
    name: &str,
    holds: bool,
) -> Result<Map<String, Json>, NoMemory>
    ensures { IfOk result (λ more. members_view more.entries
        ≡ put_true name.now holds (members_view members.entries)) }
{
    if holds {
        with_json(alloc, members, name, Json::Bool(true))
    } else {
        Ok(members)
    }
}

/// The members of an object, with a text more, which is absent where it is empty.
pub(crate) fn with_filled(
    alloc: Global,
    members: Map<String, Json>,
    name: &str,
    text: &Text,
) -> Result<Map<String, Json>, NoMemory>
    ensures { IfOk result (λ more. members_view more.entries
        ≡ put_filled name.now text.now (members_view members.entries)) }
{
    if text.as_str().is_empty() {
        Ok(members)
    } else {
        with(alloc, members, name, text)
    }
}

/// The members of an object, with a list more, which is absent where it has no item.
pub(crate) fn with_items<T: ToJson>(
    alloc: Global,
    members: Map<String, Json>,
    name: &str,
    items: &Items<T>,
) -> Result<Map<String, Json>, NoMemory>
    ensures { IfOk result (λ more. members_view more.entries
        ≡ put_items name.now T.json_data items.now (members_view members.entries)) }
{
    if items.as_slice().is_empty() {
        Ok(members)
    } else {
        with(alloc, members, name, items)
    }
}

impl ToJson for ShownRange {
    ghost json_data = { range_data };

    fn to_json(&self, alloc: Global) -> Result<Json, NoMemory> {
        let members = with_given(alloc, Map::new(alloc), "values", &self.values)?;
        let members = with(alloc, members, "range", &self.range)?;
        let members = with(alloc, members, "majorDimension", &self.major_dimension)?;
        Ok(Json::Object(members))
    }
}

impl ToJson for MatchedRange {
    ghost json_data = { matched_range_data };

    fn to_json(&self, alloc: Global) -> Result<Json, NoMemory> {
        let members = with(alloc, Map::new(alloc), "valueRange", &self.value_range)?;
        let members = with(alloc, members, "dataFilters", &self.data_filters)?;
        Ok(Json::Object(members))
    }
}

impl ToJson for MatchedMetadata {
    ghost json_data = { matched_metadata_data };

    fn to_json(&self, alloc: Global) -> Result<Json, NoMemory> {
        let item = &self.developer_metadata;
        let members = with(alloc, Map::new(alloc), "developerMetadata", item)?;
        let members = with(alloc, members, "dataFilters", &self.data_filters)?;
        Ok(Json::Object(members))
    }
}

impl ToJson for Update {
    ghost json_data = { update_data };

    fn to_json(&self, alloc: Global) -> Result<Json, NoMemory> {
        let members = with(alloc, Map::new(alloc), "updatedRows", &self.updated_rows)?;
        let members = with(alloc, members, "updatedRange", &self.updated_range)?;
        let members = with(alloc, members, "updatedColumns", &self.updated_columns)?;
        let members = with(alloc, members, "updatedCells", &self.updated_cells)?;
        let members = with(alloc, members, "spreadsheetId", &self.spreadsheet_id)?;
        Ok(Json::Object(members))
    }
}

/// AppendValuesResponse
fn append_json(
    alloc: Global,
    id: &Text,
    table: &Option<Text>,
    updates: &Update,
) -> Result<Json, NoMemory>
    ensures { IfOk result (λ json. view json ≡ append_data id.now table.now updates.now) }
{
    let members = with(alloc, Map::new(alloc), "updates", updates)?;
    let members = with_given(alloc, members, "tableRange", table)?;
    let members = with(alloc, members, "spreadsheetId", id)?;
    Ok(Json::Object(members))
}

/// ClearValuesResponse
fn clear_json(alloc: Global, range: &Text, id: &Text) -> Result<Json, NoMemory>
    ensures { IfOk result (λ json. view json ≡ clear_data range.now id.now) }
{
    let members = with(alloc, Map::new(alloc), "spreadsheetId", id)?;
    let members = with(alloc, members, "clearedRange", range)?;
    Ok(Json::Object(members))
}

/// BatchGetValuesResponse
fn read_many_json(alloc: Global, id: &Text, ranges: &Items<ShownRange>) -> Result<Json, NoMemory>
    ensures { IfOk result (λ json. view json ≡ read_many_data id.now ranges.now) }
{
    let members = with(alloc, Map::new(alloc), "valueRanges", ranges)?;
    let members = with(alloc, members, "spreadsheetId", id)?;
    Ok(Json::Object(members))
}

/// BatchClearValuesResponse
fn clear_many_json(alloc: Global, ranges: &Items<Text>, id: &Text) -> Result<Json, NoMemory>
    ensures { IfOk result (λ json. view json ≡ clear_many_data ranges.now id.now) }
{
    let members = with(alloc, Map::new(alloc), "spreadsheetId", id)?;
    let members = with(alloc, members, "clearedRanges", ranges)?;
    Ok(Json::Object(members))
}

/// BatchGetValuesByDataFilterResponse
fn read_filtered_json(
    alloc: Global,
    id: &Text,
    ranges: &Items<MatchedRange>,
) -> Result<Json, NoMemory>
    ensures { IfOk result (λ json. view json ≡ read_filtered_data id.now ranges.now) }
{
    let members = with(alloc, Map::new(alloc), "valueRanges", ranges)?;
    let members = with(alloc, members, "spreadsheetId", id)?;
    Ok(Json::Object(members))
}

/// SearchDeveloperMetadataResponse
fn search_json(alloc: Global, matched: &Option<Items<MatchedMetadata>>) -> Result<Json, NoMemory>
    ensures { IfOk result (λ json. view json ≡ search_data matched.now) }
{
    let members = Map::new(alloc);
    let members = with_given(alloc, members, "matchedDeveloperMetadata", matched)?;
    Ok(Json::Object(members))
}

/// The totals of several writes, in the order cells, columns, rows, sheets.
#[derive(Clone, Copy)]
struct Totals {
    cells: u64,
    columns: u64,
    rows: u64,
    sheets: u64,
}

/// BatchUpdateValuesResponse
fn write_many_json(
    alloc: Global,
    responses: &Items<Update>,
    id: &Text,
    totals: Totals,
) -> Result<Json, NoMemory>
    ensures { IfOk result (λ json. view json ≡ write_many_data responses.now id.now
        totals.cells totals.columns totals.rows totals.sheets) }
{
    let members = with(alloc, Map::new(alloc), "totalUpdatedSheets", &totals.sheets)?;
    let members = with(alloc, members, "totalUpdatedRows", &totals.rows)?;
    let members = with(alloc, members, "totalUpdatedColumns", &totals.columns)?;
    let members = with(alloc, members, "totalUpdatedCells", &totals.cells)?;
    let members = with(alloc, members, "spreadsheetId", id)?;
    let members = with(alloc, members, "responses", responses)?;
    Ok(Json::Object(members))
}

impl ToJson for Answer {
    ghost json_data = { answer_data };

    fn to_json(&self, alloc: Global) -> Result<Json, NoMemory> {
        match self {
            Answer::Create(spreadsheet) => spreadsheet.to_json(alloc),
            Answer::Get(spreadsheet) => spreadsheet.to_json(alloc),
            Answer::Batch {
                replies,
                spreadsheet_id,
            } => batch_json(alloc, replies, spreadsheet_id),
            Answer::Read(shown) => shown.to_json(alloc),
            Answer::Write(update) => update.to_json(alloc),
            Answer::Append {
                spreadsheet_id,
                table_range,
                updates,
            } => append_json(alloc, spreadsheet_id, table_range, updates),
            Answer::Clear {
                cleared_range,
                spreadsheet_id,
            } => clear_json(alloc, cleared_range, spreadsheet_id),
            Answer::ReadMany {
                spreadsheet_id,
                value_ranges,
            } => read_many_json(alloc, spreadsheet_id, value_ranges),
            Answer::WriteMany {
                responses,
                spreadsheet_id,
                total_updated_cells,
                total_updated_columns,
                total_updated_rows,
                total_updated_sheets,
            } => {
                let totals = Totals {
                    cells: *total_updated_cells,
                    columns: *total_updated_columns,
                    rows: *total_updated_rows,
                    sheets: *total_updated_sheets,
                };
                write_many_json(alloc, responses, spreadsheet_id, totals)
            }
            Answer::ClearMany {
                cleared_ranges,
                spreadsheet_id,
            } => clear_many_json(alloc, cleared_ranges, spreadsheet_id),
            Answer::ReadFiltered {
                spreadsheet_id,
                value_ranges,
            } => read_filtered_json(alloc, spreadsheet_id, value_ranges),
            Answer::Item(item) => item.to_json(alloc),
            Answer::Search {
                matched_developer_metadata,
            } => search_json(alloc, matched_developer_metadata),
        }
    }
}

/// The body of the response to a call: compact JSON text, its members in the order of their names
/// (Google Sheets API v4 reference; RFC 8259).
///
/// # Errors
///
/// [`NoMemory`] where memory runs out.
pub fn answer_text(alloc: Global, answer: &Answer) -> Result<Bytes, NoMemory>
    ensures { IfOk result (λ text. text ≡ compact_text (answer_data answer.now)) }
{
    let json = answer.to_json(alloc)?;
    compact(alloc, &json)
}

/// The compact text of a JSON value without fractions.
fn compact(alloc: Global, json: &Json) -> Result<Bytes, NoMemory>
    requires { has_float (view json.now) ≡ false }
    ensures { IfOk result (λ text. text ≡ compact_text (view json.now)) }
{
    let text = json.to_string(alloc)?;
    Ok(Bytes::of(text.into_bytes()))
}

/// The name of the status of a refusal.
fn status_name(status: u16) -> &'static str
    ensures { result.now ≡ status_name status }
{
    match status {
        400 => "INVALID_ARGUMENT",
        401 => "UNAUTHENTICATED",
        403 => "PERMISSION_DENIED",
        404 => "NOT_FOUND",
        413 => "BODY_TOO_LARGE",
        429 => "RESOURCE_EXHAUSTED",
        431 => "HEAD_TOO_LARGE",
        503 => "UNAVAILABLE",
        507 => "OUT_OF_MEMORY",
        _ => "",
    }
}

/// The body of the response that refuses a call: the code of its status, a message, and the name
/// of the status (Google's API errors).
///
/// # Errors
///
/// [`NoMemory`] where memory runs out.
pub fn refusal_text(alloc: Global, status: u16, message: &str) -> Result<Bytes, NoMemory>
    requires { IsRefusal status }
    ensures { IfOk result (λ text. text ≡ compact_text (refusal_data status message.now)) }
{
    let json = refusal_json(alloc, status, message)?;
    compact(alloc, &json)
}

/// The refusal as a JSON value.
fn refusal_json(alloc: Global, status: u16, message: &str) -> Result<Json, NoMemory>
    ensures { IfOk result (λ json. view json ≡ refusal_data status message.now) }
{
    let error = error_json(alloc, status, message)?;
    let mut members = Map::new(alloc);
    put(&mut members, alloc, "error", error)?;
    Ok(Json::Object(members))
}

/// Its member `error`.
fn error_json(alloc: Global, status: u16, message: &str) -> Result<Json, NoMemory>
    ensures { IfOk result (λ json. view json ≡ error_data status message.now) }
{
    let name = text_json(alloc, status_name(status))?;
    let message = text_json(alloc, message)?;
    let mut members = Map::new(alloc);
    put(&mut members, alloc, "status", name)?;
    put(&mut members, alloc, "message", message)?;
    put(&mut members, alloc, "code", Json::from(status))?;
    Ok(Json::Object(members))
}
