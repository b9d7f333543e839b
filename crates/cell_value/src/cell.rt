use crate::entered::Input;
use crate::{Duplicate, Items, NoMemory, Text};

/// An error that a cell shows (Sheets API v4 reference, ErrorType).
#[derive(Clone, Copy, Debug, PartialEq, Eq)]
pub enum Kind {
    /// `#REF!`
    Ref,
    /// `#DIV/0!`
    Div0,
    /// `#VALUE!`
    Value,
    /// `#NAME?`
    Name,
    /// `#NUM!`
    Num,
    /// `#N/A`
    Na,
    /// `#ERROR!`
    Error,
}

/// The value of a cell.
#[derive(Debug, Drop)]
pub enum Value {
    /// Nothing is there.
    Blank,
    /// A whole number within 2^53 either way.
    Number(i64),
    /// A text.
    Text(Text),
    /// A truth value.
    Truth(bool),
    /// An error.
    Error(Kind),
}

impl Duplicate for Value {
    fn duplicate(&self) -> Result<Value, NoMemory> {
        match self {
            Value::Blank => Ok(Value::Blank),
            Value::Number(number) => Ok(Value::Number(*number)),
            Value::Text(text) => Ok(Value::Text(text.duplicate()?)),
            Value::Truth(truth) => Ok(Value::Truth(*truth)),
            Value::Error(kind) => Ok(Value::Error(*kind)),
        }
    }
}

/// How values are shown (Sheets API v4 reference, ValueRenderOption).
#[derive(Clone, Copy, Debug, PartialEq, Eq)]
pub enum Render {
    /// `FORMATTED_VALUE`: each cell as a text.
    Formatted,
    /// `UNFORMATTED_VALUE`: numbers and truth values as themselves.
    Unformatted,
    /// `FORMULA`: a formula as its text.
    Formula,
}

/// Values to be written from one corner on (Sheets API v4 reference, ValueRange).
#[derive(Debug, Drop)]
pub struct Block {
    /// Whether the inner lists are columns rather than rows.
    pub columns_first: bool,
    /// The values, line by line.
    pub values: Items<Items<Input>>,
}

/// A cell as it is shown.
#[derive(Debug, Drop)]
pub enum Cell {
    /// A text; the empty one for a cell that shows nothing.
    Text(Text),
    /// A whole number.
    Number(i64),
    /// A truth value.
    Truth(bool),
}

/// What is known of a sheet or asked for it (Sheets API v4 reference, SheetProperties); a member
/// that isn't given is `None`.
#[derive(Debug, Drop)]
pub struct SheetProperties {
    /// The sheet's id.
    pub id: Option<u32>,
    /// The sheet's title.
    pub title: Option<Text>,
    /// The place among the sheets, from 0.
    pub index: Option<u32>,
    /// Whether the sheet is hidden.
    pub hidden: Option<bool>,
    /// The number of rows.
    pub rows: Option<u32>,
    /// The number of columns.
    pub cols: Option<u32>,
}
