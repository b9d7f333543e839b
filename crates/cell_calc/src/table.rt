ghost use Rattle.std.specs.Prelude.{◌≡◌, OnOk, Some, None};
ghost use Rattle.std.specs.Option.{option_copied};
ghost use Rattle.cell_value.specs.declared.cell.Kind.TheVariants as kind;
ghost use Rattle.cell_value.specs.declared.cell.Value.TheVariants as value;

use crate::known::ValuesOf;
use crate::mark::{Found, Key, Mark};
use cell_value::{Kind, NoMemory, Value};
use std::alloc::Global;
use std::collections::HashMap;

/// The values of formulas that were calculated.
#[derive(Drop)]
pub struct Table {
    marks: HashMap<Key, Mark>,
    blank: Value,
    circular: Value,
    ghost blank_is: { blank ≡ value.Blank },
    ghost circular_is: { circular ≡ value.Error kind.Ref },
}

impl Table {
    ghost use Rattle.cell_calc.specs.Book.{Place};
    ghost use Rattle.cell_calc.specs.Calculated.{IsTableOf};
    ghost use Rattle.cell_calc.specs.Contents.{Contents};
    ghost use Rattle.cell_calc.specs.Known.{value_known};
    ghost use Rattle.cell_calc.specs.Marks.{keyed_place, marks_of, IsMarked, value_told, values_of, found_by, is_known};

    /// A table of no values.
    pub fn new(alloc: Global) -> Table
        ensures none { (place : Place) → marks_of result place ≡ None }
        ensures right { (contents : Contents) → IsTableOf contents result }
    {
        Table {
            marks: HashMap::new(alloc),
            blank: Value::Blank,
            circular: Value::Error(Kind::Ref),
        }
    }

    /// The value of the formula in the place, lent; Blank where the table has none.
    pub fn value(&self, sheet: u32, row: u32, column: u32) -> &Value
        ensures { result.now
            ≡ value_known (values_of self.now) (record { sheet = sheet; row = row; column = column }) }
    {
        match self.told((sheet, row, column)) {
            Some(value) => value,
            None => &self.blank,
        }
    }

    fn told(&self, key: Key) -> Option<&Value>
        ensures { option_copied result ≡ values_of self.now (keyed_place key) }
    {
        match self.marks.get(&key) {
            Some(mark) => self.told_by(mark),
            None => None,
        }
    }

    fn told_by<'a>(&'a self, mark: &'a Mark) -> Option<&'a Value>
        ensures { option_copied result ≡ value_told (Some mark.now) }
    {
        match mark {
            Mark::Open => None,
            Mark::Endless => Some(&self.circular),
            Mark::Known(value) => Some(value),
        }
    }

    pub(crate) fn found(&self, key: Key) -> Found
        ensures { result ≡ found_by (marks_of self.now (keyed_place key)) }
    {
        match self.marks.get(&key) {
            Some(mark) => mark.found(),
            None => Found::New,
        }
    }

    pub(crate) fn is_known(&self, key: Key) -> bool
        ensures { result ≡ is_known (marks_of self.now (keyed_place key)) }
    {
        match self.marks.get(&key) {
            Some(mark) => mark.is_known(),
            None => false,
        }
    }

    pub(crate) fn set(&mut self, key: Key, mark: Mark) -> Result<(), NoMemory>
        ensures { OnOk result (IsMarked (marks_of self.old) (keyed_place key) mark (marks_of self.new)) }
    {
        self.marks.insert(key, mark)?;
        Ok(())
    }
}

impl ValuesOf for Table {
    ghost use Rattle.cell_calc.specs.Marks.{values_of};

    ghost known = { values_of };

    fn known_value(&self, sheet: u32, row: u32, column: u32) -> Option<&Value> {
        self.told((sheet, row, column))
    }
}
