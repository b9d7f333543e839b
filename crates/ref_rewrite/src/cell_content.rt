use crate::pieces::Formula;
use cell_value::{Duplicate, NoMemory, Text};

/// What is stored in a cell: the `userEnteredValue` of a `CellData` of the Google Sheets API v4.
#[derive(Debug, Drop)]
pub enum Content {
    /// A whole number within 2^53 either way.
    Number(i64),
    /// A text that isn't empty.
    Text(Text),
    /// A truth value.
    Truth(bool),
    /// A formula.
    Formula(Formula),
}

impl Duplicate for Content {
    fn duplicate(&self) -> Result<Content, NoMemory> {
        match self {
            Content::Number(number) => Ok(Content::Number(*number)),
            Content::Text(text) => Ok(Content::Text(text.duplicate()?)),
            Content::Truth(truth) => Ok(Content::Truth(*truth)),
            Content::Formula(formula) => Ok(Content::Formula(formula.duplicate()?)),
        }
    }
}
