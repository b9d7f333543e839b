/// A call of the API, by its line in the table of calls (Google Sheets API v4 reference).
#[derive(Clone, Copy, Debug, PartialEq, Eq)]
pub enum Verb {
    /// `POST /v4/spreadsheets` (spreadsheets.create).
    Create,
    /// `GET /v4/spreadsheets/{id}` (spreadsheets.get).
    Get,
    /// `POST /v4/spreadsheets/{id}:batchUpdate` (spreadsheets.batchUpdate).
    Batch,
    /// `GET /v4/spreadsheets/{id}/values/{range}` (spreadsheets.values.get).
    Read,
    /// `PUT /v4/spreadsheets/{id}/values/{range}` (spreadsheets.values.update).
    Write,
    /// `POST /v4/spreadsheets/{id}/values/{range}:append` (spreadsheets.values.append).
    Append,
    /// `POST /v4/spreadsheets/{id}/values/{range}:clear` (spreadsheets.values.clear).
    Clear,
    /// `GET /v4/spreadsheets/{id}/values:batchGet` (spreadsheets.values.batchGet).
    ReadMany,
    /// `POST /v4/spreadsheets/{id}/values:batchUpdate` (spreadsheets.values.batchUpdate).
    WriteMany,
    /// `POST /v4/spreadsheets/{id}/values:batchClear` (spreadsheets.values.batchClear).
    ClearMany,
    /// `POST /v4/spreadsheets/{id}/values:batchGetByDataFilter`
    /// (spreadsheets.values.batchGetByDataFilter).
    ReadFiltered,
    /// `GET /v4/spreadsheets/{id}/developerMetadata/{metadataId}`
    /// (spreadsheets.developerMetadata.get).
    Item,
    /// `POST /v4/spreadsheets/{id}/developerMetadata:search`
    /// (spreadsheets.developerMetadata.search).
    Search,
}

impl Verb {
    /// All of them.
    pub(crate) const ALL: [Verb; 13] = [
        Verb::Create,
        Verb::Get,
        Verb::Batch,
        Verb::Read,
        Verb::Write,
        Verb::Append,
        Verb::Clear,
        Verb::ReadMany,
        Verb::WriteMany,
        Verb::ClearMany,
        Verb::ReadFiltered,
        Verb::Item,
        Verb::Search,
    ];
}
