use basic_filter::Filter;
use cell_value::{Items, Text};
use dev_metadata::Item;
use grid_range::Area;
use named_ranges::NamedRange;

/// A spreadsheet as it is shown (Google Sheets API v4 reference, Spreadsheet).
#[derive(Debug, Drop)]
pub struct Spreadsheet {
    /// Its named ranges, in order of creation, if there are some.
    pub named_ranges: Option<Items<NamedRange>>,
    /// Its title.
    pub title: Text,
    /// Its sheets, in order.
    pub sheets: Items<ShownSheet>,
    /// Its id.
    pub spreadsheet_id: Text,
}

/// A sheet as it is shown (Sheets API v4 reference, Sheet).
#[derive(Debug, Drop)]
pub struct ShownSheet {
    /// Its filter, if it has one.
    pub basic_filter: Option<Filter>,
    /// What is known of its rows, if that is asked for.
    pub data: Option<GridData>,
    /// The merged areas, by first row and then first column, if there are some.
    pub merges: Option<Items<Area>>,
    /// What is known of the sheet itself.
    pub properties: ShownProperties,
    /// Its protected ranges, in order of id, if there are some.
    pub protected_ranges: Option<Items<ShownProtection>>,
}

/// A protected range as it is shown to a user (Sheets API v4 reference, ProtectedRange).
#[derive(Debug, Drop)]
pub struct ShownProtection {
    /// Its description; an empty one isn't told.
    pub description: Text,
    /// The users who may edit, where they are shown; an empty list is told.
    pub editors: Option<Items<Text>>,
    /// Its id.
    pub protected_range_id: u32,
    /// The cells that it covers.
    pub range: Area,
    /// Whether the user may edit them.
    pub requesting_user_can_edit: bool,
    /// The ranges whose cells everybody may edit; an empty list isn't told.
    pub unprotected_ranges: Items<Area>,
    /// Whether it only warns, which is told where it does.
    pub warning_only: bool,
}

/// What is shown of the rows of a sheet (Sheets API v4 reference, GridData).
#[derive(Debug, Drop)]
pub struct GridData {
    /// What is known of each row, from the first to the last of which something is known.
    pub row_metadata: Items<DimensionProperties>,
}

/// What is known of a row (Sheets API v4 reference, DimensionProperties).
#[derive(Clone, Copy, Debug, PartialEq, Eq)]
pub struct DimensionProperties {
    /// Whether a filter hides it.
    pub hidden_by_filter: bool,
}

/// What is shown of a sheet itself (Sheets API v4 reference, SheetProperties). All are grids.
#[derive(Debug, Drop)]
pub struct ShownProperties {
    /// The number of columns.
    pub column_count: u32,
    /// The number of rows.
    pub row_count: u32,
    /// Whether it is hidden.
    pub hidden: bool,
    /// Its place among the sheets, from 0.
    pub index: u32,
    /// Its id.
    pub sheet_id: u32,
    /// Its title.
    pub title: Text,
}

/// What is replied to a request of a batch (Google Sheets API v4 reference, Response).
#[derive(Debug, Drop)]
pub enum Reply {
    /// Nothing.
    Empty,
    /// AddSheetResponse
    AddSheet {
        /// The new sheet.
        properties: ShownProperties,
    },
    /// AddNamedRangeResponse
    AddNamedRange {
        /// The new named range.
        named_range: NamedRange,
    },
    /// AddProtectedRangeResponse
    AddProtectedRange {
        /// The new protected range.
        protected_range: ShownProtection,
    },
    /// CreateDeveloperMetadataResponse
    CreateDeveloperMetadata {
        /// The new item.
        developer_metadata: Item,
    },
    /// UpdateDeveloperMetadataResponse
    UpdateDeveloperMetadata {
        /// The changed items, in order of id; an empty list is told.
        developer_metadata: Items<Item>,
    },
    /// DeleteDeveloperMetadataResponse
    DeleteDeveloperMetadata {
        /// The items that are gone, in order of id; an empty list is told.
        deleted_developer_metadata: Items<Item>,
    },
}
