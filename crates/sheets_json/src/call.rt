use cell_value::{Block, Items, Mode, NoMemory, Render, SheetProperties, Text};
use grid_range::Axis;
use json_requests::{DataFilter, MetadataLookup, Step};
use json_shapes::ShapeFault;
use std::error::Error;
use std::fmt;

/// What a request asks for (Google Sheets API v4 reference, spreadsheets, spreadsheets.values and
/// spreadsheets.developerMetadata).
/// What a call says of values, or each of several things, may have a fault, which is told in its
/// turn.
#[derive(Debug, Drop)]
pub enum Call {
    /// spreadsheets.create
    Create {
        /// What is asked of the spreadsheet.
        spreadsheet: Result<NewSpreadsheet, ShapeFault>,
    },
    /// spreadsheets.get
    Get {
        /// The spreadsheet's id.
        id: Text,
        /// Whether what is known of the rows is shown, too.
        include_grid_data: Option<bool>,
    },
    /// spreadsheets.batchUpdate
    Batch {
        /// The spreadsheet's id.
        id: Text,
        /// The requests; there is one at least.
        requests: Items<Step>,
    },
    /// spreadsheets.values.get
    Read {
        /// The spreadsheet's id.
        id: Text,
        /// The range.
        range: Text,
        /// The dimension of the inner lists.
        major_dimension: Option<Axis>,
        /// How the values are shown.
        value_render_option: Option<Render>,
    },
    /// spreadsheets.values.update
    Write {
        /// The spreadsheet's id.
        id: Text,
        /// The range.
        range: Text,
        /// How texts are taken.
        value_input_option: Mode,
        /// The body.
        values: Result<ValueRange, ShapeFault>,
    },
    /// spreadsheets.values.append
    Append {
        /// The spreadsheet's id.
        id: Text,
        /// The range in which the table is looked for.
        range: Text,
        /// How texts are taken.
        value_input_option: Mode,
        /// Whether rows are inserted for the values.
        insert_data_option: Option<InsertData>,
        /// The body.
        values: Result<ValueRange, ShapeFault>,
    },
    /// spreadsheets.values.clear
    Clear {
        /// The spreadsheet's id.
        id: Text,
        /// The range.
        range: Text,
    },
    /// spreadsheets.values.batchGet
    ReadMany {
        /// The spreadsheet's id.
        id: Text,
        /// The ranges; there is one at least.
        ranges: Items<Text>,
        /// The dimension of the inner lists.
        major_dimension: Option<Axis>,
        /// How the values are shown.
        value_render_option: Option<Render>,
    },
    /// spreadsheets.values.batchUpdate
    WriteMany {
        /// The spreadsheet's id.
        id: Text,
        /// How texts are taken.
        value_input_option: Mode,
        /// The values range by range; there is one at least.
        data: Items<Result<RangeBlock, ShapeFault>>,
    },
    /// spreadsheets.values.batchClear
    ClearMany {
        /// The spreadsheet's id.
        id: Text,
        /// The ranges; there is one at least.
        ranges: Items<Result<Text, ShapeFault>>,
    },
    /// spreadsheets.values.batchGetByDataFilter
    ReadFiltered {
        /// The spreadsheet's id.
        id: Text,
        /// The filters of what is read; there is one at least.
        data_filters: Items<Result<DataFilter, ShapeFault>>,
        /// The dimension of the inner lists.
        major_dimension: Option<Axis>,
        /// How the values are shown.
        value_render_option: Option<Render>,
    },
    /// spreadsheets.developerMetadata.get
    Item {
        /// The spreadsheet's id.
        id: Text,
        /// The item's id.
        metadata_id: u32,
    },
    /// spreadsheets.developerMetadata.search
    Search {
        /// The spreadsheet's id.
        id: Text,
        /// The look-ups, one of which finds each item that is looked for; there is one at least.
        data_filters: Items<Result<MetadataLookup, ShapeFault>>,
    },
}

/// What is asked of a new spreadsheet (Sheets API v4 reference, Spreadsheet).
#[derive(Debug, Drop)]
pub struct NewSpreadsheet {
    /// The title, if one is given.
    pub title: Option<Text>,
    /// What is asked of its sheets; where there is none, it gets one.
    pub sheets: Items<SheetProperties>,
}

/// The values of a write (Sheets API v4 reference, ValueRange).
#[derive(Debug, Drop)]
pub struct ValueRange {
    /// The range that the body names, if it names one.
    pub range: Option<Text>,
    /// The values, which are rows unless it is said otherwise.
    pub block: Block,
}

/// The values of one of several writes (Sheets API v4 reference, ValueRange).
#[derive(Debug, Drop)]
pub struct RangeBlock {
    /// The range.
    pub range: Text,
    /// The values, which are rows unless it is said otherwise.
    pub block: Block,
}

/// How appended values find room (Sheets API v4 reference, InsertDataOption).
#[derive(Clone, Copy, Debug, PartialEq, Eq)]
pub enum InsertData {
    /// `OVERWRITE`: they are written over what stands below the table.
    Overwrite,
    /// `INSERT_ROWS`: rows are inserted for them.
    InsertRows,
}

/// Why a request isn't a call; what is printed of a fault is the message of the refusal.
#[derive(Clone, Copy, Debug, PartialEq, Eq)]
pub enum CallFault {
    /// The body isn't a JSON object with just the members that the call has, or one is there that
    /// the call doesn't have.
    BadBody,
    /// The call names nothing to be done.
    EmptyBatch,
    /// Memory ran out.
    NoMemory,
}

impl fmt::Display for CallFault {
    ghost use Rattle.std.specs.Prelude.{Some};
    ghost use Rattle.sheets_json.specs.Faults.{call_fault_text};

    ghost output = { λ fault. Some (call_fault_text fault) };

    fn fmt<W: fmt::Write>(&self, f: &mut fmt::Formatter<W>) -> fmt::Result {
        f.write_str(match self {
            CallFault::BadBody => "BadBody",
            CallFault::EmptyBatch => "EmptyBatch",
            CallFault::NoMemory => "NoMemory",
        })
    }
}

impl Error for CallFault {}

impl From<NoMemory> for CallFault {
    ghost use Rattle.std.specs.Prelude.{◌≡◌};
    ghost use Rattle.sheets_json.specs.declared.call.CallFault.TheVariants.{NoMemory as out_of_memory};

    ghost from_gives = { λ _ fault. fault ≡ out_of_memory };

    fn from(_none: NoMemory) -> CallFault {
        CallFault::NoMemory
    }
}
