ghost use Rattle.std.specs.Prelude.{◌≡◌, IfOk, string_bytes, codes};
ghost use Rattle.std.specs.Fmt.{signed_decimal};
ghost use Rattle.cell_value.specs.Shown.{shown_text, error_name};

use crate::{Kind, NoMemory, Text, Value};
use std::alloc::Global;

/// The text that a cell with this value shows (Sheets API v4 reference, `FORMATTED_VALUE` of
/// ValueRenderOption): a number in decimal, `TRUE` or `FALSE`, the name of an error, and nothing for
/// a blank cell.
///
/// # Errors
///
/// [`NoMemory`] where memory runs out.
pub fn show(alloc: Global, value: &Value) -> Result<Text, NoMemory>
    ensures { IfOk result (λ text. text ≡ shown_text value.now) }
{
    match value {
        Value::Blank => Ok(Text::of(String::new(alloc))),
        Value::Number(whole) => number_text(alloc, *whole),
        Value::Text(text) => Ok(Text::of(String::from_str(alloc, text.as_str())?)),
        Value::Truth(truth) => {
            let name = if *truth { "TRUE" } else { "FALSE" };
            Ok(Text::of(String::from_str(alloc, name)?))
        }
        Value::Error(kind) => Ok(Text::of(String::from_str(alloc, kind.name())?)),
    }
}

/// A whole number in decimal.
fn number_text(alloc: Global, whole: i64) -> Result<Text, NoMemory>
    ensures { IfOk result (λ text. text ≡ signed_decimal whole) }
{
    Ok(Text::of(format!(in alloc; "{whole}")?))
}

impl Kind {
    /// The name that a cell with this error shows.
    pub fn name(self) -> &'static str
        ensures { result.now ≡ error_name self }
    {
        match self {
            Kind::Ref => "#REF!",
            Kind::Div0 => "#DIV/0!",
            Kind::Value => "#VALUE!",
            Kind::Name => "#NAME?",
            Kind::Num => "#NUM!",
            Kind::Na => "#N/A",
            Kind::Error => "#ERROR!",
        }
    }
}
