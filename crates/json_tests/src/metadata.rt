use crate::common::{TEN, check, joined, ten_times};
use crate::steps::is_step;
use std::alloc::Global;

/// Requests for metadata: their kinds, their members, and what they are.
static METADATA: [(&str, &str, &str); 22] = [
    (
        "createDeveloperMetadata",
        "{\"developerMetadata\":{\"metadataKey\":\"k\",\"location\":{\"spreadsheet\":true,\"locationType\":7},\"visibility\":\"DOCUMENT\"}}",
        "CreateDeveloperMetadata { developer_metadata: NewMetadata { metadata_id: None, metadata_key: Text { text: \"k\" }, metadata_value: None, location: Spreadsheet, visibility: Document } }",
    ),
    (
        "createDeveloperMetadata",
        "{\"developerMetadata\":{\"metadataKey\":\"k\",\"location\":{\"sheetId\":2},\"visibility\":\"DOCUMENT\"}}",
        "CreateDeveloperMetadata { developer_metadata: NewMetadata { metadata_id: None, metadata_key: Text { text: \"k\" }, metadata_value: None, location: Sheet(2), visibility: Document } }",
    ),
    (
        "createDeveloperMetadata",
        "{\"developerMetadata\":{\"metadataKey\":\"k\",\"location\":{\"dimensionRange\":{\"dimension\":\"ROWS\",\"startIndex\":1,\"endIndex\":2}},\"visibility\":\"DOCUMENT\"}}",
        "CreateDeveloperMetadata { developer_metadata: NewMetadata { metadata_id: None, metadata_key: Text { text: \"k\" }, metadata_value: None, location: DimensionRange(DimensionRange { sheet_id: 0, dimension: Rows, start_index: 1, end_index: Some(2) }), visibility: Document } }",
    ),
    (
        "createDeveloperMetadata",
        "{\"developerMetadata\":{\"metadataKey\":\"k\",\"location\":{\"spreadsheet\":false},\"visibility\":\"DOCUMENT\"}}",
        "BadShape",
    ),
    (
        "createDeveloperMetadata",
        "{\"developerMetadata\":{\"metadataKey\":\"k\",\"location\":{\"spreadsheet\":true,\"sheetId\":2},\"visibility\":\"DOCUMENT\"}}",
        "BadShape",
    ),
    (
        "createDeveloperMetadata",
        "{\"developerMetadata\":{\"metadataKey\":\"k\",\"location\":{},\"visibility\":\"DOCUMENT\"}}",
        "BadShape",
    ),
    (
        "createDeveloperMetadata",
        "{\"developerMetadata\":{\"metadataKey\":\"k\",\"location\":{\"sheetId\":2,\"w\":1},\"visibility\":\"DOCUMENT\"}}",
        "Unsupported",
    ),
    (
        "createDeveloperMetadata",
        "{\"developerMetadata\":{\"metadataId\":5,\"metadataKey\":\"k\",\"metadataValue\":\"v\",\"location\":{\"sheetId\":2},\"visibility\":\"PROJECT\"}}",
        "CreateDeveloperMetadata { developer_metadata: NewMetadata { metadata_id: Some(5), metadata_key: Text { text: \"k\" }, metadata_value: Some(Text { text: \"v\" }), location: Sheet(2), visibility: Project } }",
    ),
    (
        "createDeveloperMetadata",
        "{\"developerMetadata\":{\"metadataKey\":\"\",\"location\":{\"sheetId\":2},\"visibility\":\"PROJECT\"}}",
        "BadShape",
    ),
    (
        "createDeveloperMetadata",
        "{\"developerMetadata\":{\"metadataKey\":\"k\",\"location\":{\"sheetId\":2}}}",
        "BadShape",
    ),
    (
        "createDeveloperMetadata",
        "{\"developerMetadata\":{\"metadataKey\":\"k\",\"location\":{\"sheetId\":2},\"visibility\":\"OTHER\"}}",
        "BadShape",
    ),
    (
        "updateDeveloperMetadata",
        "{\"dataFilters\":[{\"developerMetadataLookup\":{}}],\"developerMetadata\":{\"metadataKey\":\"k\",\"metadataValue\":\"v\"},\"fields\":\"metadataValue\"}",
        "UpdateDeveloperMetadata { data_filters: Items { items: [MetadataLookup { location_type: None, metadata_location: None, location_matching_strategy: None, metadata_id: None, metadata_key: None, metadata_value: None, visibility: None }] }, developer_metadata: MetadataPatch { metadata_key: None, metadata_value: Some(Text { text: \"v\" }), location: None, visibility: None } }",
    ),
    (
        "updateDeveloperMetadata",
        "{\"dataFilters\":[{\"a1Range\":\"A1\"}],\"developerMetadata\":{},\"fields\":\"*\"}",
        "Unsupported",
    ),
    (
        "updateDeveloperMetadata",
        "{\"dataFilters\":[{\"gridRange\":7}],\"developerMetadata\":{},\"fields\":\"*\"}",
        "BadShape",
    ),
    (
        "updateDeveloperMetadata",
        "{\"dataFilters\":[],\"developerMetadata\":{},\"fields\":\"metadataKey\"}",
        "BadShape",
    ),
    (
        "updateDeveloperMetadata",
        "{\"dataFilters\":[],\"developerMetadata\":{},\"fields\":\"metadataId\"}",
        "Unsupported",
    ),
    (
        "updateDeveloperMetadata",
        "{\"developerMetadata\":{},\"fields\":\"*\"}",
        "BadShape",
    ),
    (
        "deleteDeveloperMetadata",
        "{\"dataFilter\":{\"developerMetadataLookup\":{\"locationType\":\"ROW\",\"metadataLocation\":{\"sheetId\":2},\"locationMatchingStrategy\":\"EXACT_LOCATION\",\"metadataId\":5,\"metadataKey\":\"\",\"metadataValue\":\"v\",\"visibility\":\"PROJECT\"}}}",
        "DeleteDeveloperMetadata { data_filter: MetadataLookup { location_type: Some(Row), metadata_location: Some(Sheet(2)), location_matching_strategy: Some(Exact), metadata_id: Some(5), metadata_key: Some(Text { text: \"\" }), metadata_value: Some(Text { text: \"v\" }), visibility: Some(Project) } }",
    ),
    (
        "deleteDeveloperMetadata",
        "{\"dataFilter\":{\"developerMetadataLookup\":{},\"a1Range\":\"A1\"}}",
        "BadShape",
    ),
    ("deleteDeveloperMetadata", "{\"dataFilter\":{}}", "BadShape"),
    (
        "deleteDeveloperMetadata",
        "{\"dataFilter\":{\"developerMetadataLookup\":{\"w\":1}}}",
        "Unsupported",
    ),
    ("deleteDeveloperMetadata", "{}", "BadShape"),
];

#[test]
fn metadata_is_asked_for(rt: HostRuntime) {
    for row in &METADATA {
        let holds = is_step(rt.alloc(), row.0, row.1, row.2);
        check(&rt, row, holds);
    }
}

/// Requests for metadata that aren't taken: their kinds, their members, and why.
static REFUSED: [(&str, &str, &str); 5] = [
    (
        "createDeveloperMetadata",
        "{\"developerMetadata\":{\"metadataKey\":7,\"location\":{\"sheetId\":2},\"visibility\":\"PROJECT\"}}",
        "BadShape",
    ),
    (
        "createDeveloperMetadata",
        "{\"developerMetadata\":{\"metadataKey\":\"k\",\"location\":{\"sheetId\":2},\"visibility\":\"PROJECT\"},\"w\":1}",
        "Unsupported",
    ),
    (
        "updateDeveloperMetadata",
        "{\"dataFilters\":[],\"developerMetadata\":{},\"fields\":\"*\",\"w\":1}",
        "Unsupported",
    ),
    ("deleteDeveloperMetadata", "{\"dataFilter\":7}", "BadShape"),
    (
        "deleteDeveloperMetadata",
        "{\"dataFilter\":{\"developerMetadataLookup\":{}},\"w\":1}",
        "Unsupported",
    ),
];

#[test]
fn other_metadata_is_refused(rt: HostRuntime) {
    for row in &REFUSED {
        let holds = is_step(rt.alloc(), row.0, row.1, row.2);
        check(&rt, row, holds);
    }
}

/// The members of a request for an item with this key.
fn of_key(alloc: Global, key: &str) -> String {
    joined(
        alloc,
        "{\"developerMetadata\":{\"metadataKey\":\"",
        key,
        "\",\"location\":{\"sheetId\":2},\"visibility\":\"PROJECT\"}}",
    )
}

#[test]
fn keys_have_a_thousand_bytes(rt: HostRuntime) {
    let alloc = rt.alloc();
    let hundred = ten_times(alloc, TEN);
    let thousand = ten_times(alloc, hundred.as_str());
    let members = of_key(alloc, thousand.as_str());
    let wanted = joined(
        alloc,
        "CreateDeveloperMetadata { developer_metadata: NewMetadata { metadata_id: None, metadata_key: Text { text: \"",
        thousand.as_str(),
        "\" }, metadata_value: None, location: Sheet(2), visibility: Project } }",
    );
    let holds = is_step(
        alloc,
        "createDeveloperMetadata",
        members.as_str(),
        wanted.as_str(),
    );
    check(&rt, &"of a thousand", holds);
    let longer = joined(alloc, "a", thousand.as_str(), "");
    let members = of_key(alloc, longer.as_str());
    let holds = is_step(
        alloc,
        "createDeveloperMetadata",
        members.as_str(),
        "BadShape",
    );
    check(&rt, &"of one more", holds);
}
