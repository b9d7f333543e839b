/// How many rows a sheet can have.
pub const MOST_ROWS: u32 = 1_000_000;

/// How many columns a sheet can have: the last one is `ZZZ` (Google Drive help, files you can store).
pub const MOST_COLUMNS: u32 = 18_278;

/// How many sheets a spreadsheet can have (Google Drive help, files you can store).
pub const MOST_SHEETS: u32 = 200;

/// How many places the sheets of a spreadsheet can have together (Google Drive help, files you can store: 10 million
/// cells).
pub const MOST_PLACES: u64 = 10_000_000;
