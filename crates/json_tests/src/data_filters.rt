use crate::calls::is_call;
use crate::common::{check, joined};

const FILTERED: &str = "/v4/spreadsheets/b1/values:batchGetByDataFilter";

const SEARCH: &str = "/v4/spreadsheets/b1/developerMetadata:search";

const ITEM: &str = "/v4/spreadsheets/b1/developerMetadata/";

/// Bodies of reads of what filters find, and what they are.
static FILTERS: [(&str, &str); 18] = [
    (
        "{\"dataFilters\":[{\"a1Range\":\"A1:B2\"}]}",
        "ReadFiltered b1 [Ok(A1Range(Text { text: \"A1:B2\" }))] None None",
    ),
    (
        "{\"dataFilters\":[{\"gridRange\":{\"sheetId\":1,\"startRowIndex\":2}}],\"majorDimension\":\"COLUMNS\",\"valueRenderOption\":\"FORMULA\",\"dateTimeRenderOption\":7}",
        "ReadFiltered b1 [Ok(GridRange(Area { sheet: 1, rows: From(2), cols: Whole }))] Some(Columns) Some(Formula)",
    ),
    (
        "{\"dataFilters\":[{\"developerMetadataLookup\":{\"metadataKey\":\"k\"}}]}",
        "ReadFiltered b1 [Ok(DeveloperMetadataLookup(MetadataLookup { location_type: None, metadata_location: None, location_matching_strategy: None, metadata_id: None, metadata_key: Some(Text { text: \"k\" }), metadata_value: None, visibility: None }))] None None",
    ),
    (
        "{\"dataFilters\":[{\"developerMetadataLookup\":{}}]}",
        "ReadFiltered b1 [Ok(DeveloperMetadataLookup(MetadataLookup { location_type: None, metadata_location: None, location_matching_strategy: None, metadata_id: None, metadata_key: None, metadata_value: None, visibility: None }))] None None",
    ),
    (
        "{\"dataFilters\":[{\"developerMetadataLookup\":null,\"a1Range\":\"\"}]}",
        "ReadFiltered b1 [Ok(A1Range(Text { text: \"\" }))] None None",
    ),
    (
        "{\"dataFilters\":[{},{\"a1Range\":\"A1\",\"gridRange\":{}},{\"a1Range\":7},7,null]}",
        "ReadFiltered b1 [Err(BadShape), Err(BadShape), Err(BadShape), Err(BadShape), Err(BadShape)] None None",
    ),
    (
        "{\"dataFilters\":[{\"a1Range\":\"A1\",\"x\":1},{\"gridRange\":{\"x\":1}}]}",
        "ReadFiltered b1 [Err(Unsupported), Err(Unsupported)] None None",
    ),
    (
        "{\"dataFilters\":[{\"developerMetadataLookup\":{\"metadataId\":2147483648}}]}",
        "ReadFiltered b1 [Err(BadShape)] None None",
    ),
    ("{}", "BadBody"),
    ("", "BadBody"),
    ("[]", "BadBody"),
    ("{\"dataFilters\":null}", "BadBody"),
    ("{\"dataFilters\":{}}", "BadBody"),
    (
        "{\"dataFilters\":[{\"a1Range\":\"A1\"}],\"x\":1}",
        "BadBody",
    ),
    (
        "{\"dataFilters\":[{\"a1Range\":\"A1\"}],\"majorDimension\":\"DIMENSION_UNSPECIFIED\"}",
        "BadBody",
    ),
    (
        "{\"dataFilters\":[{\"a1Range\":\"A1\"}],\"valueRenderOption\":7}",
        "BadBody",
    ),
    ("{\"dataFilters\":[]}", "EmptyBatch"),
    (
        "{\"dataFilters\":[],\"valueRenderOption\":\"x\"}",
        "BadBody",
    ),
];

#[test]
fn reads_by_filters_are_calls(rt: HostRuntime) {
    for row in &FILTERS {
        check(
            &rt,
            row,
            is_call(rt.alloc(), "POST", FILTERED, row.0, row.1),
        );
    }
}

/// Bodies of searches for metadata, and what they are.
static SEARCHES: [(&str, &str); 11] = [
    (
        "{\"dataFilters\":[{\"developerMetadataLookup\":{\"metadataId\":5}}]}",
        "Search b1 [Ok(MetadataLookup { location_type: None, metadata_location: None, location_matching_strategy: None, metadata_id: Some(5), metadata_key: None, metadata_value: None, visibility: None })]",
    ),
    (
        "{\"dataFilters\":[{\"developerMetadataLookup\":{}}]}",
        "Search b1 [Ok(MetadataLookup { location_type: None, metadata_location: None, location_matching_strategy: None, metadata_id: None, metadata_key: None, metadata_value: None, visibility: None })]",
    ),
    (
        "{\"dataFilters\":[{\"developerMetadataLookup\":{\"locationType\":\"COLUMN\",\"metadataLocation\":{\"spreadsheet\":true},\"locationMatchingStrategy\":\"INTERSECTING_LOCATION\",\"visibility\":\"DOCUMENT\"}}]}",
        "Search b1 [Ok(MetadataLookup { location_type: Some(Column), metadata_location: Some(Spreadsheet), location_matching_strategy: Some(Intersecting), metadata_id: None, metadata_key: None, metadata_value: None, visibility: Some(Document) })]",
    ),
    (
        "{\"dataFilters\":[{\"a1Range\":\"A1\"},{\"gridRange\":{}},{\"gridRange\":7},{\"developerMetadataLookup\":{},\"a1Range\":\"A1\"},{}]}",
        "Search b1 [Err(Unsupported), Err(Unsupported), Err(BadShape), Err(BadShape), Err(BadShape)]",
    ),
    (
        "{\"dataFilters\":[{\"developerMetadataLookup\":{\"locationType\":\"CELL\"}},{\"developerMetadataLookup\":{\"metadataKey\":7}},{\"developerMetadataLookup\":{\"x\":1}}]}",
        "Search b1 [Err(BadShape), Err(BadShape), Err(Unsupported)]",
    ),
    (
        "{\"dataFilters\":[{\"developerMetadataLookup\":{\"metadataLocation\":{\"spreadsheet\":false}}},{\"developerMetadataLookup\":{\"metadataLocation\":{}}}]}",
        "Search b1 [Err(BadShape), Err(BadShape)]",
    ),
    ("{}", "BadBody"),
    ("", "BadBody"),
    ("{\"dataFilters\":7}", "BadBody"),
    (
        "{\"dataFilters\":[{\"developerMetadataLookup\":{}}],\"majorDimension\":\"ROWS\"}",
        "BadBody",
    ),
    ("{\"dataFilters\":[]}", "EmptyBatch"),
];

#[test]
fn searches_are_calls(rt: HostRuntime) {
    for row in &SEARCHES {
        check(&rt, row, is_call(rt.alloc(), "POST", SEARCH, row.0, row.1));
    }
}

/// Ids of items of metadata, bodies, and what the looks at them are.
static ITEMS: [(&str, &str, &str); 8] = [
    ("7", "", "Item b1 7"),
    ("0", "", "Item b1 0"),
    ("0000000007", "", "Item b1 7"),
    ("2147483647", "", "Item b1 2147483647"),
    ("2147483648", "", "NoRoute"),
    ("00000000007", "", "NoRoute"),
    ("x", "", "NoRoute"),
    ("7", "{}", "BadBody"),
];

#[test]
fn looks_at_items_are_calls(rt: HostRuntime) {
    for row in &ITEMS {
        let target = joined(rt.alloc(), ITEM, row.0, "");
        let holds = is_call(rt.alloc(), "GET", target.as_str(), row.1, row.2);
        check(&rt, row, holds);
    }
}
