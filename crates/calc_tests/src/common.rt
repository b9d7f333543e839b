use cell_calc::{AreaCells, Argument, FilledCell, HeldValue, called_value, is_blank};
use cell_value::{Kind, NoMemory, Text, Value};
use std::alloc::Global;
use std::fmt::Debug;
use std::process::Abort;

/// Stops where it doesn't hold of the row.
pub(crate) fn check<T: Debug>(rt: &impl Abort, row: &T, holds: bool) {
    assert!(rt; holds, "{row:?}");
}

/// 2^53.
pub(crate) const MOST: i64 = 9_007_199_254_740_992;

/// A value of a row.
#[derive(Clone, Copy, Debug)]
pub(crate) enum Plain {
    Blank,
    Number(i64),
    Text(&'static str),
    /// A text that is so often repeated.
    Repeated(&'static str, usize),
    Truth(bool),
    Fault(Kind),
}

/// An argument of a row.
#[derive(Clone, Copy, Debug)]
pub(crate) enum Given {
    One(Plain),
    /// So many rows and columns, and their cells by rows; cells that are missing at the end are blank.
    Area(u32, u32, &'static [Plain]),
}

// Errors.

pub(crate) const REF: Plain = Plain::Fault(Kind::Ref);

pub(crate) const DIV0: Plain = Plain::Fault(Kind::Div0);

pub(crate) const VALUE: Plain = Plain::Fault(Kind::Value);

pub(crate) const NAME: Plain = Plain::Fault(Kind::Name);

pub(crate) const NUM: Plain = Plain::Fault(Kind::Num);

pub(crate) const NA: Plain = Plain::Fault(Kind::Na);

pub(crate) const ERROR: Plain = Plain::Fault(Kind::Error);

/// A call of a function: its name, its arguments, and its value.
pub(crate) type Call = (&'static str, &'static [Given], Plain);

/// The arguments of a function, and its value.
pub(crate) type Row = (&'static [Given], Plain);

/// Whether the function has the value.
pub(crate) fn has_value(alloc: Global, call: &Call) -> bool {
    match called(alloc, call.0, call.1) {
        Ok(value) => is_same(alloc, &value, call.2),
        Err(_) => false,
    }
}

/// Whether the function of the name has the value.
pub(crate) fn has_value_of(alloc: Global, name: &'static str, row: &Row) -> bool {
    has_value(alloc, &(name, row.0, row.1))
}

fn called(alloc: Global, name: &str, given: &[Given]) -> Result<Value, NoMemory> {
    let kept = all_kept(alloc, given)?;
    let arguments = all_lent(alloc, kept.as_slice())?;
    called_value(alloc, name, arguments.as_slice())
}

/// An argument whose cells are kept.
#[derive(Drop)]
enum Kept {
    One(Plain),
    Area(u32, u32, Vec<Value>),
}

fn all_kept(alloc: Global, given: &[Given]) -> Result<Vec<Kept>, NoMemory> {
    let mut all = Vec::new(alloc);
    for argument in given {
        all.push(keep(alloc, *argument)?)?;
    }
    Ok(all)
}

fn keep(alloc: Global, given: Given) -> Result<Kept, NoMemory> {
    match given {
        Given::One(plain) => Ok(Kept::One(plain)),
        Given::Area(rows, columns, cells) => Ok(Kept::Area(rows, columns, values(alloc, cells)?)),
    }
}

fn values(alloc: Global, cells: &[Plain]) -> Result<Vec<Value>, NoMemory> {
    let mut values = Vec::new(alloc);
    for cell in cells {
        values.push(value(alloc, *cell)?)?;
    }
    Ok(values)
}

fn all_lent<'a>(alloc: Global, kept: &'a [Kept]) -> Result<Vec<Argument<'a>>, NoMemory> {
    let mut arguments = Vec::new(alloc);
    for argument in kept {
        arguments.push(lent(alloc, argument)?)?;
    }
    Ok(arguments)
}

fn lent<'a>(alloc: Global, kept: &'a Kept) -> Result<Argument<'a>, NoMemory> {
    match kept {
        Kept::One(plain) => Ok(Argument::Single(value(alloc, *plain)?)),
        Kept::Area(rows, columns, values) => Ok(Argument::Area(AreaCells {
            rows: *rows,
            columns: *columns,
            filled: filled(alloc, values.as_slice())?,
        })),
    }
}

fn filled<'a>(alloc: Global, values: &'a [Value]) -> Result<Vec<FilledCell<'a>>, NoMemory> {
    let mut filled = Vec::new(alloc);
    let mut place = 0u64;
    for value in values {
        if !is_blank(value) {
            filled.push(FilledCell {
                place,
                value: HeldValue::Lent(value),
            })?;
        }
        place = place.saturating_add(1);
    }
    Ok(filled)
}

/// The value.
pub(crate) fn value(alloc: Global, plain: Plain) -> Result<Value, NoMemory> {
    match plain {
        Plain::Blank => Ok(Value::Blank),
        Plain::Number(number) => Ok(Value::Number(number)),
        Plain::Text(text) => Ok(Value::Text(Text::of(String::from_str(alloc, text)?))),
        Plain::Repeated(text, count) => Ok(Value::Text(Text::of(repeated(alloc, text, count)?))),
        Plain::Truth(truth) => Ok(Value::Truth(truth)),
        Plain::Fault(fault) => Ok(Value::Error(fault)),
    }
}

fn repeated(alloc: Global, text: &str, count: usize) -> Result<String, NoMemory> {
    let mut all = String::new(alloc);
    for _ in 0..count {
        all.push_str(text)?;
    }
    Ok(all)
}

/// Whether the value is that one.
pub(crate) fn is_same(alloc: Global, value: &Value, plain: Plain) -> bool {
    match (value, plain) {
        (Value::Blank, Plain::Blank) => true,
        (Value::Number(number), Plain::Number(wanted)) => *number == wanted,
        (Value::Text(text), Plain::Text(wanted)) => text.as_str() == wanted,
        (Value::Text(text), Plain::Repeated(wanted, count)) => {
            is_repeated(alloc, text.as_str(), wanted, count)
        }
        (Value::Truth(truth), Plain::Truth(wanted)) => *truth == wanted,
        (Value::Error(fault), Plain::Fault(wanted)) => *fault == wanted,
        _ => false,
    }
}

fn is_repeated(alloc: Global, text: &str, wanted: &str, count: usize) -> bool {
    match repeated(alloc, wanted, count) {
        Ok(all) => text == all.as_str(),
        Err(_) => false,
    }
}

/// The text, or an empty one where memory runs out.
pub(crate) fn text(alloc: Global, text: &str) -> Text {
    Text::of(match String::from_str(alloc, text) {
        Ok(text) => text,
        Err(_) => String::new(alloc),
    })
}
