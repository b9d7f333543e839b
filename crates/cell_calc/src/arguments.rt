ghost use Rattle.std.specs.Prelude.{◌≡◌, IfOk};
ghost use Rattle.cell_calc.specs.Lent.{value_held};
ghost use Rattle.cell_calc.specs.Taken.{error_lent};

use crate::conversion::error_in;
use cell_value::{Duplicate, Kind, NoMemory, Value};

/// What a function is given.
#[derive(Debug, Drop)]
pub enum Argument<'a> {
    /// A value.
    Single(Value),
    /// The cells of an area, where a reference or a word stands.
    Area(AreaCells<'a>),
}

/// The cells of an area, lent.
#[derive(Debug, Drop)]
pub struct AreaCells<'a> {
    /// How many rows the area has.
    pub rows: u32,
    /// How many columns the area has.
    pub columns: u32,
    /// The cells that hold something, by rows.
    pub filled: Vec<FilledCell<'a>>,
}

/// A cell that holds something.
#[derive(Debug, Drop)]
pub struct FilledCell<'a> {
    /// Its place among the cells of the area by rows, counted from 0.
    pub place: u64,
    /// Its value, which isn't blank.
    pub value: HeldValue<'a>,
}

/// The value that a cell holds.
#[derive(Debug, Drop)]
pub enum HeldValue<'a> {
    /// One that was calculated, lent.
    Lent(&'a Value),
    /// What is stored in the cell.
    Own(Value),
}

impl<'a> HeldValue<'a> {
    /// The value, lent.
    pub fn get(&self) -> &Value
        ensures { result.now ≡ value_held self.now }
    {
        match self {
            HeldValue::Lent(value) => *value,
            HeldValue::Own(value) => value,
        }
    }

    /// The value itself, or a copy of one that is lent.
    ///
    /// # Errors
    ///
    /// [`NoMemory`] where memory runs out.
    pub fn into_value(self) -> Result<Value, NoMemory>
        ensures { IfOk result (λ value. value ≡ value_held self.entry) }
    {
        match self {
            HeldValue::Lent(value) => value.duplicate(),
            HeldValue::Own(value) => Ok(value),
        }
    }
}

/// The error that the argument is; an area is none.
pub(crate) fn error_lent(argument: &Argument) -> Option<Kind>
    ensures { result ≡ error_lent argument.now }
{
    match argument {
        Argument::Single(value) => error_in(value),
        Argument::Area(_) => None,
    }
}
