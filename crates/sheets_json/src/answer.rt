use crate::{Reply, Spreadsheet};
use cell_value::{Cell, Items, Text};
use dev_metadata::Item;
use grid_range::Axis;
use json_requests::DataFilter;

/// A range with what its cells show (Sheets API v4 reference, ValueRange).
#[derive(Debug, Drop)]
pub struct ShownRange {
    /// The range, as A1 text.
    pub range: Text,
    /// The dimension of the inner lists.
    pub major_dimension: Axis,
    /// What the cells show, if some show something.
    pub values: Option<Items<Items<Cell>>>,
}

/// A range that a filter finds, with what its cells show (Sheets API v4 reference, MatchedValueRange).
#[derive(Debug, Drop)]
pub struct MatchedRange {
    /// The filter, alone.
    pub data_filters: Items<DataFilter>,
    /// The range.
    pub value_range: ShownRange,
}

/// An item of metadata that a search finds (Sheets API v4 reference, MatchedDeveloperMetadata).
#[derive(Debug, Drop)]
pub struct MatchedMetadata {
    /// The filters that it meets, in the order of the request.
    pub data_filters: Items<DataFilter>,
    /// The item.
    pub developer_metadata: Item,
}

/// What a write did (Sheets API v4 reference, UpdateValuesResponse).
#[derive(Debug, Drop)]
pub struct Update {
    /// The spreadsheet's id.
    pub spreadsheet_id: Text,
    /// How many cells were written or emptied.
    pub updated_cells: u64,
    /// How many columns have such a cell.
    pub updated_columns: u64,
    /// The range of the values, as A1 text.
    pub updated_range: Text,
    /// How many rows have such a cell.
    pub updated_rows: u64,
}

/// What a call is answered (Google Sheets API v4 reference, spreadsheets, spreadsheets.values and
/// spreadsheets.developerMetadata).
#[derive(Debug, Drop)]
pub enum Answer {
    /// Spreadsheet
    Create(Spreadsheet),
    /// Spreadsheet
    Get(Spreadsheet),
    /// BatchUpdateSpreadsheetResponse
    Batch {
        /// What is replied to each request, in order.
        replies: Items<Reply>,
        /// The spreadsheet's id.
        spreadsheet_id: Text,
    },
    /// ValueRange
    Read(ShownRange),
    /// UpdateValuesResponse
    Write(Update),
    /// AppendValuesResponse
    Append {
        /// The spreadsheet's id.
        spreadsheet_id: Text,
        /// The range of the table, as A1 text, if there was one.
        table_range: Option<Text>,
        /// What the write did.
        updates: Update,
    },
    /// ClearValuesResponse
    Clear {
        /// The range, as A1 text.
        cleared_range: Text,
        /// The spreadsheet's id.
        spreadsheet_id: Text,
    },
    /// BatchGetValuesResponse
    ReadMany {
        /// The spreadsheet's id.
        spreadsheet_id: Text,
        /// The ranges, in the order of the request.
        value_ranges: Items<ShownRange>,
    },
    /// BatchUpdateValuesResponse
    WriteMany {
        /// What each write did, in the order of the request.
        responses: Items<Update>,
        /// The spreadsheet's id.
        spreadsheet_id: Text,
        /// How many cells were written or emptied, those of each write counted.
        total_updated_cells: u64,
        /// How many different columns have such a cell.
        total_updated_columns: u64,
        /// How many different rows have such a cell.
        total_updated_rows: u64,
        /// How many different sheets have such a cell.
        total_updated_sheets: u64,
    },
    /// BatchClearValuesResponse
    ClearMany {
        /// The ranges, as A1 text, in the order of the request.
        cleared_ranges: Items<Text>,
        /// The spreadsheet's id.
        spreadsheet_id: Text,
    },
    /// BatchGetValuesByDataFilterResponse
    ReadFiltered {
        /// The spreadsheet's id.
        spreadsheet_id: Text,
        /// The ranges, filter by filter.
        value_ranges: Items<MatchedRange>,
    },
    /// DeveloperMetadata
    Item(Item),
    /// SearchDeveloperMetadataResponse
    Search {
        /// The items, in order of id, if there are some.
        matched_developer_metadata: Option<Items<MatchedMetadata>>,
    },
}
