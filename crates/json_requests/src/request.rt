use basic_filter::Filter;
use cell_value::{Block, Items, SheetProperties, Text};
use dev_metadata::{SpotKind, VisibilityKind};
use grid_range::{Area, Axis};
use json_shapes::ShapeFault;
use protection::ProtectionPatch;

/// A change that a batch asks for (Google Sheets API v4 reference, Request).
#[derive(Debug, Drop)]
pub enum Request {
    /// AddSheetRequest
    AddSheet {
        /// What is asked for the sheet.
        properties: Option<SheetProperties>,
    },
    /// DeleteSheetRequest
    DeleteSheet {
        /// The sheet's id.
        sheet_id: u32,
    },
    /// UpdateSheetPropertiesRequest
    UpdateSheetProperties {
        /// The sheet's id, 0 where none was given.
        sheet_id: u32,
        /// What is changed: the title, the mark and the numbers of lines that the mask takes of the
        /// properties; there is no id and no index.
        properties: SheetProperties,
    },
    /// UpdateCellsRequest
    UpdateCells {
        /// The rows, none where none were given; what has no value is emptied.
        rows: Block,
        /// Where they are written.
        area: UpdatedArea,
    },
    /// AppendCellsRequest
    AppendCells {
        /// The sheet's id, 0 where none was given.
        sheet_id: u32,
        /// The rows; what has no value is emptied.
        rows: Block,
    },
    /// InsertDimensionRequest
    InsertDimension {
        /// The lines that are inserted; the end is given.
        range: DimensionRange,
        /// Whether they are like the line before them.
        inherit_from_before: Option<bool>,
    },
    /// DeleteDimensionRequest
    DeleteDimension {
        /// The lines.
        range: DimensionRange,
    },
    /// AppendDimensionRequest
    AppendDimension {
        /// The sheet's id, 0 where none was given.
        sheet_id: u32,
        /// Whether rows or columns are appended.
        dimension: Axis,
        /// How many.
        length: u32,
    },
    /// MoveDimensionRequest
    MoveDimension {
        /// The lines.
        source: DimensionRange,
        /// The line before which they are moved, counted before they are taken away.
        destination_index: u32,
    },
    /// MergeCellsRequest
    MergeCells {
        /// The cells.
        range: Area,
        /// Which of them become one.
        merge_type: MergeType,
    },
    /// UnmergeCellsRequest
    UnmergeCells {
        /// The cells.
        range: Area,
    },
    /// AddNamedRangeRequest
    AddNamedRange {
        /// What is asked of the named range.
        named_range: NewNamedRange,
    },
    /// UpdateNamedRangeRequest
    UpdateNamedRange {
        /// The named range's id.
        named_range_id: Text,
        /// The new name, if the mask takes one.
        name: Option<Text>,
        /// The cells that it names from now on, if the mask takes them.
        range: Option<Area>,
    },
    /// DeleteNamedRangeRequest
    DeleteNamedRange {
        /// The named range's id.
        named_range_id: Text,
    },
    /// AddProtectedRangeRequest
    AddProtectedRange {
        /// The protected range's id, if one is given.
        protected_range_id: Option<u32>,
        /// What is asked of it; its area is given.
        patch: ProtectionPatch,
    },
    /// UpdateProtectedRangeRequest
    UpdateProtectedRange {
        /// The protected range's id.
        protected_range_id: u32,
        /// What the mask takes of its members.
        patch: ProtectionPatch,
    },
    /// DeleteProtectedRangeRequest
    DeleteProtectedRange {
        /// The protected range's id.
        protected_range_id: u32,
    },
    /// SetBasicFilterRequest
    SetBasicFilter {
        /// The filter; its criteria stand in the byte order of their keys.
        filter: Filter,
    },
    /// ClearBasicFilterRequest
    ClearBasicFilter {
        /// The sheet's id.
        sheet_id: u32,
    },
    /// CreateDeveloperMetadataRequest
    CreateDeveloperMetadata {
        /// What is asked of the item.
        developer_metadata: NewMetadata,
    },
    /// UpdateDeveloperMetadataRequest
    UpdateDeveloperMetadata {
        /// The look-ups, one of which finds each item that is changed.
        data_filters: Items<MetadataLookup>,
        /// What the mask takes of the item's members.
        developer_metadata: MetadataPatch,
    },
    /// DeleteDeveloperMetadataRequest
    DeleteDeveloperMetadata {
        /// The look-up that finds the items.
        data_filter: MetadataLookup,
    },
}

/// Where the rows of an update are written (Sheets API v4 reference, UpdateCellsRequest).
#[derive(Clone, Copy, Debug)]
pub enum UpdatedArea {
    /// From a cell on, as far as they reach.
    Start(GridCoordinate),
    /// To the cells of an area, of which those are emptied that they don't reach.
    Range(Area),
}

/// A cell of a sheet (Sheets API v4 reference, GridCoordinate).
#[derive(Clone, Copy, Debug)]
pub struct GridCoordinate {
    /// The sheet's id, 0 where none was given.
    pub sheet_id: u32,
    /// The row, from 0; 0 where none was given.
    pub row_index: u32,
    /// The column, from 0; 0 where none was given.
    pub column_index: u32,
}

/// Some rows or columns of a sheet (Sheets API v4 reference, DimensionRange).
#[derive(Clone, Copy, Debug)]
pub struct DimensionRange {
    /// The sheet's id, 0 where none was given.
    pub sheet_id: u32,
    /// Whether they are rows or columns.
    pub dimension: Axis,
    /// The first line, from 0; 0 where none was given.
    pub start_index: u32,
    /// The line behind the last; the number of lines where it isn't given.
    pub end_index: Option<u32>,
}

/// How cells are merged (Sheets API v4 reference, MergeType).
#[derive(Clone, Copy, Debug, PartialEq, Eq)]
pub enum MergeType {
    /// `MERGE_ALL`: all of them are one.
    All,
    /// `MERGE_COLUMNS`: those of each column are one.
    Columns,
    /// `MERGE_ROWS`: those of each row are one.
    Rows,
}

/// What is asked of a new named range (Sheets API v4 reference, NamedRange).
#[derive(Debug, Drop)]
pub struct NewNamedRange {
    /// The id, if one is given: 1 to 100 ASCII letters, digits, `_` and `-`.
    pub named_range_id: Option<Text>,
    /// The name.
    pub name: Text,
    /// The cells that it names.
    pub range: Area,
}

/// Where an item of metadata lies (Sheets API v4 reference, DeveloperMetadataLocation).
#[derive(Clone, Copy, Debug)]
pub enum Location {
    /// The spreadsheet.
    Spreadsheet,
    /// The sheet with the id.
    Sheet(u32),
    /// A row or a column, where it is one line.
    DimensionRange(DimensionRange),
}

/// What is asked of a new item of metadata (Sheets API v4 reference, DeveloperMetadata).
#[derive(Debug, Drop)]
pub struct NewMetadata {
    /// The id, if one is given.
    pub metadata_id: Option<u32>,
    /// The key, 1 to 1,000 bytes.
    pub metadata_key: Text,
    /// The value, if one is given.
    pub metadata_value: Option<Text>,
    /// Where it lies.
    pub location: Location,
    /// Under which projects it is seen.
    pub visibility: VisibilityKind,
}

/// The members of items of metadata that an update gives (Sheets API v4 reference, DeveloperMetadata).
#[derive(Debug, Drop)]
pub struct MetadataPatch {
    /// The key, 1 to 1,000 bytes.
    pub metadata_key: Option<Text>,
    /// The value.
    pub metadata_value: Option<Text>,
    /// Where they lie.
    pub location: Option<Location>,
    /// Under which projects they are seen.
    pub visibility: Option<VisibilityKind>,
}

/// How a location that is asked for is compared (Sheets API v4 reference,
/// DeveloperMetadataLocationMatchingStrategy).
#[derive(Clone, Copy, Debug, PartialEq, Eq)]
pub enum MatchingStrategy {
    /// `EXACT_LOCATION`: it is the item's.
    Exact,
    /// `INTERSECTING_LOCATION`: it meets the item's.
    Intersecting,
}

/// Which items of metadata are looked up (Sheets API v4 reference, DeveloperMetadataLookup): those of
/// which all hold that is given.
#[derive(Debug, Drop)]
pub struct MetadataLookup {
    /// The kind of location.
    pub location_type: Option<SpotKind>,
    /// The location.
    pub metadata_location: Option<Location>,
    /// How it is compared.
    pub location_matching_strategy: Option<MatchingStrategy>,
    /// The id.
    pub metadata_id: Option<u32>,
    /// The key.
    pub metadata_key: Option<Text>,
    /// The value.
    pub metadata_value: Option<Text>,
    /// Under which projects they are seen.
    pub visibility: Option<VisibilityKind>,
}

/// Which cells or which items of metadata are meant (Sheets API v4 reference, DataFilter).
#[derive(Debug, Drop)]
pub enum DataFilter {
    /// The items that the look-up finds.
    DeveloperMetadataLookup(MetadataLookup),
    /// The cells of a range text.
    A1Range(Text),
    /// The cells of an area.
    GridRange(Area),
}

/// A request of a batch as it was read. Its fault is told in its turn.
#[derive(Debug, Drop)]
pub enum Step {
    /// What it asks for.
    Read(Request),
    /// Why it asks for nothing.
    Shape(ShapeFault),
}
