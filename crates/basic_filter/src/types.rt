use cell_value::{Duplicate, Items, NoMemory, Text};
use grid_range::Area;

/// What a filter asks of the cells of a column: the `BooleanCondition` of the Google Sheets API v4.
///
/// The NUMBER types are true only of a cell that holds a number; a text of digits is none. The TEXT
/// types are tried on the shown text, ignoring ASCII case.
#[derive(Debug, Drop)]
pub enum Condition {
    /// `NUMBER_GREATER`: the number is greater than this one.
    NumberGreater(i64),
    /// `NUMBER_GREATER_THAN_EQ`: the number is this one or greater.
    NumberGreaterThanEq(i64),
    /// `NUMBER_LESS`: the number is less than this one.
    NumberLess(i64),
    /// `NUMBER_LESS_THAN_EQ`: the number is this one or less.
    NumberLessThanEq(i64),
    /// `NUMBER_EQ`: the number is this one.
    NumberEq(i64),
    /// `NUMBER_NOT_EQ`: the number is another one.
    NumberNotEq(i64),
    /// `NUMBER_BETWEEN`: the number is at least the first and at most the second.
    NumberBetween(i64, i64),
    /// `TEXT_CONTAINS`: this text is a part of the shown one.
    TextContains(Text),
    /// `TEXT_NOT_CONTAINS`: this text is no part of the shown one.
    TextNotContains(Text),
    /// `TEXT_STARTS_WITH`: the shown text starts with this one.
    TextStartsWith(Text),
    /// `TEXT_ENDS_WITH`: the shown text ends with this one.
    TextEndsWith(Text),
    /// `TEXT_EQ`: the shown text is this one.
    TextEq(Text),
    /// `BLANK`: the shown text is empty.
    Blank,
    /// `NOT_BLANK`: the shown text isn't empty.
    NotBlank,
}

/// What a filter hides by the cells of one column: the `FilterCriteria` of the Google Sheets API v4.
#[derive(Debug, Drop)]
pub struct Criterion {
    /// The column of the sheet, counted from 0.
    pub column: u32,
    /// The `hiddenValues`: a row whose cell shows one of these texts is hidden, byte by byte. The empty
    /// text hides a row whose cell shows nothing.
    pub hidden: Items<Text>,
    /// The `condition`: a row of whose cell it isn't true is hidden.
    pub condition: Option<Condition>,
}

/// The filter of a sheet: the `BasicFilter` of the Google Sheets API v4.
#[derive(Debug, Drop)]
pub struct Filter {
    /// The cells that are filtered. Their first row is never hidden.
    pub area: Area,
    /// What is asked of the columns. A column may have come to lie outside the area.
    pub criteria: Items<Criterion>,
}

impl Duplicate for Condition {
    fn duplicate(&self) -> Result<Condition, NoMemory> {
        Ok(match self {
            Condition::NumberGreater(bound) => Condition::NumberGreater(*bound),
            Condition::NumberGreaterThanEq(bound) => Condition::NumberGreaterThanEq(*bound),
            Condition::NumberLess(bound) => Condition::NumberLess(*bound),
            Condition::NumberLessThanEq(bound) => Condition::NumberLessThanEq(*bound),
            Condition::NumberEq(number) => Condition::NumberEq(*number),
            Condition::NumberNotEq(number) => Condition::NumberNotEq(*number),
            Condition::NumberBetween(first, last) => Condition::NumberBetween(*first, *last),
            Condition::TextContains(part) => Condition::TextContains(part.duplicate()?),
            Condition::TextNotContains(part) => Condition::TextNotContains(part.duplicate()?),
            Condition::TextStartsWith(start) => Condition::TextStartsWith(start.duplicate()?),
            Condition::TextEndsWith(end) => Condition::TextEndsWith(end.duplicate()?),
            Condition::TextEq(text) => Condition::TextEq(text.duplicate()?),
            Condition::Blank => Condition::Blank,
            Condition::NotBlank => Condition::NotBlank,
        })
    }
}

impl Duplicate for Criterion {
    fn duplicate(&self) -> Result<Criterion, NoMemory> {
        let condition = match &self.condition {
            Some(condition) => Some(condition.duplicate()?),
            None => None,
        };
        Ok(Criterion {
            column: self.column,
            hidden: self.hidden.duplicate()?,
            condition,
        })
    }
}

impl Duplicate for Filter {
    fn duplicate(&self) -> Result<Filter, NoMemory> {
        Ok(Filter {
            area: self.area,
            criteria: self.criteria.duplicate()?,
        })
    }
}
