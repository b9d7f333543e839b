ghost use Rattle.std.specs.Prelude.{◌≡◌, ◌≢◌, Err, string_bytes, IfOk};
ghost use Rattle.std.specs.Option.{option_map};
ghost use Rattle.serde_json.specs.Find.{as_str};
ghost use Rattle.serde_json.specs.View.{view};
ghost use Rattle.serde_json.specs.Data.{boolean};
ghost use Rattle.json_shapes.specs.Shapes.{text, only_false, anything, entered, fault_of, kept};

use crate::ShapeFault;
use crate::fault::Read;
use crate::shape::Shape;
use cell_value::{Bad, Input, Mode, NoMemory, Text, take_entered};
use serde_json::Value as Json;
use std::alloc::Global;

/// The text, where the value is one.
pub fn as_text(value: Json) -> Option<String>
    ensures { option_map string_bytes result ≡ as_str (view value) }
{
    match value {
        Json::String(text) => Some(text),
        Json::Null | Json::Bool(_) | Json::Number(_) | Json::Array(_) | Json::Object(_) => None,
    }
}

/// A text.
#[derive(Clone, Copy)]
pub struct AnyText;

impl Shape for AnyText {
    type Output = Text;

    ghost shape = { λ _. text };

    fn read(&self, _alloc: Global, value: Json) -> Result<Read<Text>, NoMemory> {
        match as_text(value) {
            Some(text) => Ok(Ok(Text::of(text))),
            None => Ok(Err(ShapeFault::BadShape)),
        }
    }
}

/// `false`, and nothing else.
#[derive(Clone, Copy)]
pub struct OnlyFalse;

impl Shape for OnlyFalse {
    type Output = ();

    ghost shape = { λ _. only_false };

    fn read(&self, _alloc: Global, value: Json) -> Result<Read<()>, NoMemory> {
        match value {
            Json::Bool(truth) => Ok(unless_true(truth)),
            Json::Null | Json::Number(_) | Json::String(_) | Json::Array(_) | Json::Object(_) => {
                Ok(Err(ShapeFault::BadShape))
            }
        }
    }
}

/// Nothing, unless it is true.
fn unless_true(truth: bool) -> Read<()>
    ensures { result ≡ only_false (boolean truth) }
{
    if truth {
        Err(ShapeFault::BadShape)
    } else {
        Ok(())
    }
}

/// A value that changes nothing.
#[derive(Clone, Copy)]
pub struct Anything;

impl Shape for Anything {
    type Output = ();

    ghost shape = { λ _. anything };

    fn read(&self, _alloc: Global, _value: Json) -> Result<Read<()>, NoMemory> {
        Ok(Ok(()))
    }
}

/// A value that is entered into a cell.
#[derive(Clone, Copy)]
pub struct Entered {
    /// How a text is taken.
    pub mode: Mode,
}

impl Shape for Entered {
    type Output = Input;

    ghost shape = { λ e. entered e.mode };

    fn read(&self, alloc: Global, value: Json) -> Result<Read<Input>, NoMemory> {
        match take_entered(alloc, self.mode, value) {
            Ok(input) => Ok(Ok(input)),
            Err(bad) => entry_fault(bad),
        }
    }
}

/// The fault of a value that can't be entered, unless memory ran out.
fn entry_fault(bad: Bad) -> Result<Read<Input>, NoMemory>
    ensures { IfOk result (λ read. (read ≡ Err (fault_of bad)) × (bad ≢ Bad.NoMemory)) }
{
    match bad {
        Bad::NotWhole => Ok(Err(ShapeFault::BadNumber)),
        Bad::TooLong => Ok(Err(ShapeFault::TextLong)),
        Bad::NotScalar => Ok(Err(ShapeFault::BadShape)),
        Bad::NoMemory => Err(NoMemory),
    }
}

/// A value whose fault is kept for its turn.
#[derive(Clone, Copy)]
pub struct Kept<S>(pub S);

impl<S: Shape> Shape for Kept<S> {
    type Output = Read<S::Output>;

    ghost shape = { λ k. kept (S.shape k.0) };

    fn read(&self, alloc: Global, value: Json) -> Result<Read<Read<S::Output>>, NoMemory> {
        let read = self.0.read(alloc, value)?;
        Ok(Ok(read))
    }
}
