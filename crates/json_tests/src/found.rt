use crate::common::{batch, list, shows, text};
use cell_value::Items;
use dev_metadata::{Item, Spot, SpotKind, Visibility, VisibilityKind};
use grid_range::{Area, Axis, Band};
use sheets_json::{
    Answer, DataFilter, DimensionRange, Location, MatchedMetadata, MatchedRange, MatchingStrategy,
    MetadataLookup, Reply, ShownRange,
};
use std::alloc::Global;

/// The item with the id 1 and the key `k` at a place.
fn item(alloc: Global, value: &str, spot: Spot, visibility: Visibility) -> Item {
    Item {
        id: 1,
        key: text(alloc, "k"),
        value: text(alloc, value),
        spot,
        visibility,
    }
}

/// A look-up that asks for nothing.
fn any() -> MetadataLookup {
    MetadataLookup {
        location_type: None,
        metadata_location: None,
        location_matching_strategy: None,
        metadata_id: None,
        metadata_key: None,
        metadata_value: None,
        visibility: None,
    }
}

/// A look-up that asks for all that one may.
fn whole(alloc: Global) -> MetadataLookup {
    MetadataLookup {
        location_type: Some(SpotKind::Sheet),
        metadata_location: Some(Location::DimensionRange(DimensionRange {
            sheet_id: 2,
            dimension: Axis::Columns,
            start_index: 3,
            end_index: None,
        })),
        location_matching_strategy: Some(MatchingStrategy::Exact),
        metadata_id: Some(5),
        metadata_key: Some(text(alloc, "k")),
        metadata_value: Some(text(alloc, "")),
        visibility: Some(VisibilityKind::Project),
    }
}

/// Places of items that everybody sees, and their texts.
static PLACES: [(Spot, &str); 5] = [
    (
        Spot::Spreadsheet,
        "{\"location\":{\"locationType\":\"SPREADSHEET\",\"spreadsheet\":true},\"metadataId\":1,\"metadataKey\":\"k\",\"visibility\":\"DOCUMENT\"}",
    ),
    (
        Spot::Sheet(2),
        "{\"location\":{\"locationType\":\"SHEET\",\"sheetId\":2},\"metadataId\":1,\"metadataKey\":\"k\",\"visibility\":\"DOCUMENT\"}",
    ),
    (
        Spot::Line(0, Axis::Rows, 4),
        "{\"location\":{\"dimensionRange\":{\"dimension\":\"ROWS\",\"endIndex\":5,\"sheetId\":0,\"startIndex\":4},\"locationType\":\"ROW\"},\"metadataId\":1,\"metadataKey\":\"k\",\"visibility\":\"DOCUMENT\"}",
    ),
    (
        Spot::Line(3, Axis::Columns, 0),
        "{\"location\":{\"dimensionRange\":{\"dimension\":\"COLUMNS\",\"endIndex\":1,\"sheetId\":3,\"startIndex\":0},\"locationType\":\"COLUMN\"},\"metadataId\":1,\"metadataKey\":\"k\",\"visibility\":\"DOCUMENT\"}",
    ),
    (
        Spot::Line(3, Axis::Columns, 4_294_967_295),
        "{\"location\":{\"dimensionRange\":{\"dimension\":\"COLUMNS\",\"endIndex\":4294967296,\"sheetId\":3,\"startIndex\":4294967295},\"locationType\":\"COLUMN\"},\"metadataId\":1,\"metadataKey\":\"k\",\"visibility\":\"DOCUMENT\"}",
    ),
];

/// The answer with an item at a place that everybody sees.
fn of_all(alloc: Global, spot: Spot) -> Answer {
    Answer::Item(item(alloc, "", spot, Visibility::Document))
}

#[test]
fn items_are_answered(rt: HostRuntime) {
    for row in &PLACES {
        shows(&rt, rt.alloc(), of_all(rt.alloc(), row.0), row.1);
    }
}

/// The item of a project on a sheet.
fn of_project(alloc: Global) -> Item {
    let visibility = Visibility::Project(text(alloc, "p"));
    item(alloc, "v", Spot::Sheet(2), visibility)
}

#[test]
fn items_of_projects_are_answered(rt: HostRuntime) {
    let alloc = rt.alloc();
    let wanted =
        "{\"location\":{\"locationType\":\"SHEET\",\"sheetId\":2},\"metadataId\":1,\"metadataKey\":\"k\",\"metadataValue\":\"v\",\"visibility\":\"PROJECT\"}";
    shows(&rt, alloc, Answer::Item(of_project(alloc)), wanted);
}

/// The answer to a search.
fn search(found: Option<Items<MatchedMetadata>>) -> Answer {
    Answer::Search {
        matched_developer_metadata: found,
    }
}

#[test]
fn empty_searches_are_answered(rt: HostRuntime) {
    let alloc = rt.alloc();
    shows(&rt, alloc, search(None), "{}");
    let none = search(Some(list(alloc, [])));
    shows(&rt, alloc, none, "{\"matchedDeveloperMetadata\":[]}");
}

/// The item of a project, found by a look-up that asks for all.
fn matched(alloc: Global) -> MatchedMetadata {
    let filter = DataFilter::DeveloperMetadataLookup(whole(alloc));
    MatchedMetadata {
        data_filters: list(alloc, [filter]),
        developer_metadata: of_project(alloc),
    }
}

#[test]
fn searches_are_answered(rt: HostRuntime) {
    let alloc = rt.alloc();
    let found = list(alloc, [matched(alloc)]);
    let wanted =
        "{\"matchedDeveloperMetadata\":[{\"dataFilters\":[{\"developerMetadataLookup\":{\"locationMatchingStrategy\":\"EXACT_LOCATION\",\"locationType\":\"SHEET\",\"metadataId\":5,\"metadataKey\":\"k\",\"metadataLocation\":{\"dimensionRange\":{\"dimension\":\"COLUMNS\",\"sheetId\":2,\"startIndex\":3}},\"metadataValue\":\"\",\"visibility\":\"PROJECT\"}}],\"developerMetadata\":{\"location\":{\"locationType\":\"SHEET\",\"sheetId\":2},\"metadataId\":1,\"metadataKey\":\"k\",\"metadataValue\":\"v\",\"visibility\":\"PROJECT\"}}]}";
    shows(&rt, alloc, search(Some(found)), wanted);
}

/// The answer to a read of what a filter finds: one cell that shows nothing.
fn filtered(alloc: Global, filter: DataFilter) -> Answer {
    let shown = ShownRange {
        range: text(alloc, "Sheet1!A1"),
        major_dimension: Axis::Rows,
        values: None,
    };
    let matched = MatchedRange {
        data_filters: list(alloc, [filter]),
        value_range: shown,
    };
    Answer::ReadFiltered {
        spreadsheet_id: text(alloc, "book1"),
        value_ranges: list(alloc, [matched]),
    }
}

#[test]
fn reads_by_filters_are_answered(rt: HostRuntime) {
    let alloc = rt.alloc();
    let filter = DataFilter::A1Range(text(alloc, "A1"));
    let wanted =
        "{\"spreadsheetId\":\"book1\",\"valueRanges\":[{\"dataFilters\":[{\"a1Range\":\"A1\"}],\"valueRange\":{\"majorDimension\":\"ROWS\",\"range\":\"Sheet1!A1\"}}]}";
    shows(&rt, alloc, filtered(alloc, filter), wanted);
    let filter = DataFilter::DeveloperMetadataLookup(any());
    let wanted =
        "{\"spreadsheetId\":\"book1\",\"valueRanges\":[{\"dataFilters\":[{\"developerMetadataLookup\":{}}],\"valueRange\":{\"majorDimension\":\"ROWS\",\"range\":\"Sheet1!A1\"}}]}";
    shows(&rt, alloc, filtered(alloc, filter), wanted);
}

/// The answer to a read of what filters find where they find none.
fn unfound(alloc: Global) -> Answer {
    Answer::ReadFiltered {
        spreadsheet_id: text(alloc, "book1"),
        value_ranges: list(alloc, []),
    }
}

#[test]
fn reads_of_areas_are_answered(rt: HostRuntime) {
    let alloc = rt.alloc();
    let area = Area {
        sheet: 0,
        rows: Band::From(2),
        cols: Band::Span(0, 3),
    };
    let filter = DataFilter::GridRange(area);
    let wanted =
        "{\"spreadsheetId\":\"book1\",\"valueRanges\":[{\"dataFilters\":[{\"gridRange\":{\"endColumnIndex\":3,\"sheetId\":0,\"startColumnIndex\":0,\"startRowIndex\":2}}],\"valueRange\":{\"majorDimension\":\"ROWS\",\"range\":\"Sheet1!A1\"}}]}";
    shows(&rt, alloc, filtered(alloc, filter), wanted);
    let wanted = "{\"spreadsheetId\":\"book1\",\"valueRanges\":[]}";
    shows(&rt, alloc, unfound(alloc), wanted);
}

/// The reply to a request for the item of a project.
fn created(alloc: Global) -> Reply {
    Reply::CreateDeveloperMetadata {
        developer_metadata: of_project(alloc),
    }
}

/// The reply to a change of no item.
fn updated(alloc: Global) -> Reply {
    Reply::UpdateDeveloperMetadata {
        developer_metadata: list(alloc, []),
    }
}

/// The reply to a removal of the item of a project.
fn deleted(alloc: Global) -> Reply {
    Reply::DeleteDeveloperMetadata {
        deleted_developer_metadata: list(alloc, [of_project(alloc)]),
    }
}

/// The replies of a batch of requests for metadata.
fn replies(alloc: Global) -> Items<Reply> {
    list(alloc, [created(alloc), updated(alloc), deleted(alloc)])
}

#[test]
fn requests_for_metadata_are_answered(rt: HostRuntime) {
    let alloc = rt.alloc();
    let wanted =
        "{\"replies\":[{\"createDeveloperMetadata\":{\"developerMetadata\":{\"location\":{\"locationType\":\"SHEET\",\"sheetId\":2},\"metadataId\":1,\"metadataKey\":\"k\",\"metadataValue\":\"v\",\"visibility\":\"PROJECT\"}}},{\"updateDeveloperMetadata\":{\"developerMetadata\":[]}},{\"deleteDeveloperMetadata\":{\"deletedDeveloperMetadata\":[{\"location\":{\"locationType\":\"SHEET\",\"sheetId\":2},\"metadataId\":1,\"metadataKey\":\"k\",\"metadataValue\":\"v\",\"visibility\":\"PROJECT\"}]}}],\"spreadsheetId\":\"book1\"}";
    shows(&rt, alloc, batch(alloc, replies(alloc)), wanted);
}
