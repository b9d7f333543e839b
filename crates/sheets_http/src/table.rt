ghost use Rattle.std.specs.Prelude.{◌≡◌, codes};
ghost use Rattle.sheets_http.specs.Table.{line, fits_segment};
ghost use Rattle.sheets_http.specs.Table.{name_of, allows};

use crate::Verb;
use crate::fields::numeral;

/// The greatest id of an item of metadata.
const METADATA_ID_LIMIT: u64 = 2_147_483_647;

/// A segment of a path: a word that stands there, or a part that the caller gives.
#[derive(Clone, Copy, Debug)]
pub(crate) enum Segment {
    /// What stands before the first `/`: nothing.
    Root,
    /// `v4`.
    Version,
    /// `spreadsheets`.
    Spreadsheets,
    /// `values`.
    Values,
    /// `developerMetadata`.
    DeveloperMetadata,
    /// The id of a spreadsheet.
    SpreadsheetId,
    /// A range.
    Range,
    /// The id of an item of metadata.
    MetadataId,
}

impl Segment {
    /// Whether a decoded segment fits.
    pub(crate) fn fits(self, text: &str) -> bool
        ensures { result ≡ fits_segment self text.now }
    {
        match self {
            Segment::Root => text == "",
            Segment::Version => text == "v4",
            Segment::Spreadsheets => text == "spreadsheets",
            Segment::Values => text == "values",
            Segment::DeveloperMetadata => text == "developerMetadata",
            Segment::SpreadsheetId => !text.is_empty(),
            Segment::Range => !text.is_empty(),
            Segment::MetadataId => is_metadata_id(text),
        }
    }
}

/// Whether a text is the id of an item of metadata.
fn is_metadata_id(text: &str) -> bool
    ensures { result ≡ fits_segment Segment.MetadataId text.now }
{
    match numeral(text.as_bytes()) {
        Some(id) => id <= METADATA_ID_LIMIT,
        None => false,
    }
}

/// A member of a query.
#[derive(Clone, Copy, Debug)]
pub(crate) enum Member {
    MajorDimension,
    ValueRenderOption,
    ValueInputOption,
    IncludeValuesInResponse,
    ResponseValueRenderOption,
    ResponseDateTimeRenderOption,
    InsertDataOption,
    Ranges,
    IncludeGridData,
    Alt,
    PrettyPrint,
    DateTimeRenderOption,
}

impl Member {
    /// Its name.
    pub(crate) fn name(self) -> &'static str
        ensures { result.now ≡ name_of self }
    {
        match self {
            Member::MajorDimension => "majorDimension",
            Member::ValueRenderOption => "valueRenderOption",
            Member::ValueInputOption => "valueInputOption",
            Member::IncludeValuesInResponse => "includeValuesInResponse",
            Member::ResponseValueRenderOption => "responseValueRenderOption",
            Member::ResponseDateTimeRenderOption => "responseDateTimeRenderOption",
            Member::InsertDataOption => "insertDataOption",
            Member::Ranges => "ranges",
            Member::IncludeGridData => "includeGridData",
            Member::Alt => "alt",
            Member::PrettyPrint => "prettyPrint",
            Member::DateTimeRenderOption => "dateTimeRenderOption",
        }
    }

    /// Whether it may have the value.
    pub(crate) fn allows(self, value: &str) -> bool
        ensures { result ≡ allows self value.now }
    {
        match self {
            Member::MajorDimension => value == "ROWS" || value == "COLUMNS",
            Member::ValueRenderOption => is_rendering(value),
            Member::ValueInputOption => value == "RAW" || value == "USER_ENTERED",
            Member::IncludeValuesInResponse => value == "false",
            Member::ResponseValueRenderOption => is_rendering(value),
            Member::ResponseDateTimeRenderOption => true,
            Member::InsertDataOption => value == "OVERWRITE" || value == "INSERT_ROWS",
            Member::Ranges => true,
            Member::IncludeGridData => value == "true" || value == "false",
            Member::Alt => value == "json",
            Member::PrettyPrint => value == "true" || value == "false",
            Member::DateTimeRenderOption => true,
        }
    }
}

/// Whether a value says how values are rendered.
fn is_rendering(value: &str) -> bool
    ensures { result ≡ allows Member.ValueRenderOption value.now }
{
    value == "FORMATTED_VALUE" || value == "UNFORMATTED_VALUE" || value == "FORMULA"
}

/// A line of the table of calls, but for the method.
#[derive(Clone, Copy, Debug)]
pub(crate) struct Line {
    /// The segments of the path.
    pub(crate) path: &'static [Segment],
    /// The verb at the end of the path, with its colon.
    pub(crate) verb: &'static str,
    /// The members that the query has.
    pub(crate) required: &'static [Member],
    /// The members that it may have.
    pub(crate) optional: &'static [Member],
}

impl Line {
    /// A line with these parts.
    fn of(
        path: &'static [Segment],
        verb: &'static str,
        required: &'static [Member],
        optional: &'static [Member],
    ) -> Line
        ensures path { result.path.now ≡ path.now }
        ensures verb { result.verb.now ≡ verb.now }
        ensures required { result.required.now ≡ required.now }
        ensures optional { result.optional.now ≡ optional.now }
    {
        Line {
            path,
            verb,
            required,
            optional,
        }
    }
}

/// The members that each query may have.
pub(crate) const COMMON: &[Member] = &[
    Member::Alt,
    Member::PrettyPrint,
    Member::DateTimeRenderOption,
];

const SPREADSHEETS: &[Segment] = &[Segment::Root, Segment::Version, Segment::Spreadsheets];

const SPREADSHEET: &[Segment] = &[
    Segment::Root,
    Segment::Version,
    Segment::Spreadsheets,
    Segment::SpreadsheetId,
];

const VALUES: &[Segment] = &[
    Segment::Root,
    Segment::Version,
    Segment::Spreadsheets,
    Segment::SpreadsheetId,
    Segment::Values,
];

const RANGE: &[Segment] = &[
    Segment::Root,
    Segment::Version,
    Segment::Spreadsheets,
    Segment::SpreadsheetId,
    Segment::Values,
    Segment::Range,
];

const METADATA: &[Segment] = &[
    Segment::Root,
    Segment::Version,
    Segment::Spreadsheets,
    Segment::SpreadsheetId,
    Segment::DeveloperMetadata,
];

const ITEM: &[Segment] = &[
    Segment::Root,
    Segment::Version,
    Segment::Spreadsheets,
    Segment::SpreadsheetId,
    Segment::DeveloperMetadata,
    Segment::MetadataId,
];

const NONE: &[Member] = &[];

const GRID: &[Member] = &[Member::IncludeGridData];

const READING: &[Member] = &[Member::MajorDimension, Member::ValueRenderOption];

const READING_MANY: &[Member] = &[
    Member::Ranges,
    Member::MajorDimension,
    Member::ValueRenderOption,
];

const INPUT: &[Member] = &[Member::ValueInputOption];

const WRITING: &[Member] = &[
    Member::IncludeValuesInResponse,
    Member::ResponseValueRenderOption,
    Member::ResponseDateTimeRenderOption,
];

const APPENDING: &[Member] = &[
    Member::InsertDataOption,
    Member::IncludeValuesInResponse,
    Member::ResponseValueRenderOption,
    Member::ResponseDateTimeRenderOption,
];

impl Verb {
    /// The method of its line in the table.
    pub(crate) fn method(self) -> &'static str
        ensures { result.now ≡ (line self).method }
    {
        match self {
            Verb::Get | Verb::Read | Verb::ReadMany | Verb::Item => "GET",
            Verb::Write => "PUT",
            _ => "POST",
        }
    }

    /// What else its line has.
    pub(crate) fn line(self) -> Line
        ensures path { result.path.now ≡ (line self).path }
        ensures verb { result.verb.now ≡ (line self).verb }
        ensures required { result.required.now ≡ (line self).required }
        ensures optional { result.optional.now ≡ (line self).optional }
    {
        match self {
            Verb::Create => Line::of(SPREADSHEETS, "", NONE, NONE),
            Verb::Get => Line::of(SPREADSHEET, "", NONE, GRID),
            Verb::Batch => Line::of(SPREADSHEET, ":batchUpdate", NONE, NONE),
            Verb::Read => Line::of(RANGE, "", NONE, READING),
            Verb::Write => Line::of(RANGE, "", INPUT, WRITING),
            Verb::Append => Line::of(RANGE, ":append", INPUT, APPENDING),
            Verb::Clear => Line::of(RANGE, ":clear", NONE, NONE),
            Verb::ReadMany => Line::of(VALUES, ":batchGet", NONE, READING_MANY),
            Verb::WriteMany => Line::of(VALUES, ":batchUpdate", NONE, NONE),
            Verb::ClearMany => Line::of(VALUES, ":batchClear", NONE, NONE),
            Verb::ReadFiltered => Line::of(VALUES, ":batchGetByDataFilter", NONE, NONE),
            Verb::Item => Line::of(ITEM, "", NONE, NONE),
            Verb::Search => Line::of(METADATA, ":search", NONE, NONE),
        }
    }
}
