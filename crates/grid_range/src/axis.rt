/// The two kinds of lines of a sheet: the `Dimension` of the Google Sheets API v4.
#[derive(Clone, Copy, Debug, PartialEq, Eq)]
pub enum Axis {
    Rows,
    Columns,
}
