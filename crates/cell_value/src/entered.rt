ghost use Rattle.std.specs.Prelude.{◌≡◌, ◌⊎◌, true, string_bytes, Some, Ok, Err};
ghost use Rattle.std.specs.Str.Parse.{signed_digits_value};
ghost use Rattle.serde_json.specs.View.{view, number_view};
ghost use Rattle.cell_value.specs.Stored.{whole_input, text_or_empty, within_longest};
ghost use Rattle.cell_value.specs.Typed.{is_whole, plain_input};
ghost use Rattle.cell_value.specs.Entered.{entered_input, entered_text, number_input_of};

use crate::Text;
use crate::typed::{is_decimal, is_formula, is_whole, is_word, marked_text};
use serde_json::{Number, Value as Json};
use std::alloc::{AllocError, Global};
use std::error::Error;
use std::fmt;

/// How an entered value is taken (Sheets API v4 reference, ValueInputOption).
#[derive(Clone, Copy, Debug, PartialEq, Eq)]
pub enum Mode {
    /// `RAW`: a text is stored as it is.
    Raw,
    /// `USER_ENTERED`: a text is read as if it was typed.
    UserEntered,
}

/// What an entered value does to its cell.
#[derive(Debug, Drop)]
pub enum Input {
    /// The cell is left alone.
    Skip,
    /// The cell is emptied.
    Empty,
    /// A whole number within 2^53 either way is stored.
    Number(i64),
    /// A text that isn't empty is stored.
    Text(Text),
    /// A truth value is stored.
    Truth(bool),
    /// A formula is stored; the text begins with `=`.
    FormulaText(Text),
}

/// Why a value can't be entered.
#[derive(Clone, Copy, Debug, PartialEq, Eq)]
pub enum Bad {
    /// The number isn't whole within 2^53 either way.
    NotWhole,
    /// The text has more than 50,000 bytes.
    TooLong,
    /// The value is a list or an object.
    NotScalar,
    /// Memory ran out.
    NoMemory,
}

impl fmt::Display for Bad {
    ghost use Rattle.std.specs.Prelude.{Some};
    ghost use Rattle.cell_value.specs.Faults.{bad_text};

    ghost output = { λ fault. Some (bad_text fault) };

    fn fmt<W: fmt::Write>(&self, f: &mut fmt::Formatter<W>) -> fmt::Result {
        f.write_str(match self {
            Bad::NotWhole => "not a whole number within 2^53 either way",
            Bad::TooLong => "a text of more than 50,000 bytes",
            Bad::NotScalar => "a list or an object",
            Bad::NoMemory => "no memory",
        })
    }
}

impl Error for Bad {}

impl From<AllocError> for Bad {
    ghost use Rattle.std.specs.Prelude.{◌≡◌};
    ghost use Rattle.cell_value.specs.declared.entered.Bad.TheVariants.{NoMemory};

    ghost from_gives = { λ _ e. e ≡ NoMemory };

    fn from(_error: AllocError) -> Bad {
        Bad::NoMemory
    }
}

/// The greatest whole number that a cell holds, 2^53; the least is its negative.
pub const LARGEST: u64 = 9_007_199_254_740_992;

/// The most bytes that an entered text has.
pub const LONGEST: usize = 50_000;

/// What a JSON value means that is entered into a cell (Sheets API v4 reference, ValueRange and
/// ValueInputOption): a whole number within 2^53 either way and a truth value are stored, null
/// leaves the cell alone, an empty text empties it, and another text is stored as it is under
/// [`Mode::Raw`] and read as if it was typed under [`Mode::UserEntered`].
///
/// A typed text is, by the first of these that fits: `=` and more, a formula; behind a leading `'`
/// the text that follows; digits with an optional sign, a whole number; TRUE or FALSE in any ASCII
/// case, a truth value; a number with a fraction or an exponent, which can't be entered; and any
/// other text itself.
///
/// # Errors
///
/// [`Bad::NotWhole`] exactly for a number, or a text that is typed as one, that isn't whole within
/// 2^53 either way, [`Bad::TooLong`] exactly for any other text of more than 50,000 bytes as it was
/// given, [`Bad::NotScalar`] exactly for a list or an object, [`Bad::NoMemory`] only where a text
/// can't be copied.
pub fn read_entered(alloc: Global, mode: Mode, value: &Json) -> Result<Input, Bad>
    ensures { (result ≡ entered_input mode (view value.now)) ⊎ (result ≡ Err Bad.NoMemory) }
{
    match value {
        Json::Null => Ok(Input::Skip),
        Json::Bool(truth) => Ok(Input::Truth(*truth)),
        Json::Number(number) => number_input(number),
        Json::String(text) => text_input(alloc, mode, String::from_str(alloc, text.as_str())?),
        Json::Array(_) | Json::Object(_) => Err(Bad::NotScalar),
    }
}

/// What [`read_entered`] reads of a value that is given away: its text is kept in the memory that it
/// has.
///
/// # Errors
///
/// Those of [`read_entered`]; [`Bad::NoMemory`] only where the text behind a leading `'` can't be
/// copied.
pub fn take_entered(alloc: Global, mode: Mode, value: Json) -> Result<Input, Bad>
    ensures { (result ≡ entered_input mode (view value)) ⊎ (result ≡ Err Bad.NoMemory) }
{
    match value {
        Json::Null => Ok(Input::Skip),
        Json::Bool(truth) => Ok(Input::Truth(truth)),
        Json::Number(number) => number_input(&number),
        Json::String(text) => text_input(alloc, mode, text),
        Json::Array(_) | Json::Object(_) => Err(Bad::NotScalar),
    }
}

/// The whole number, where it is one within 2^53 either way.
fn number_input(number: &Number) -> Result<Input, Bad>
    ensures { result ≡ number_input_of (number_view number.now) }
{
    match number.as_i64() {
        Some(whole) => whole_input(whole),
        None => Err(Bad::NotWhole),
    }
}

/// The whole number, where it is within 2^53 either way.
fn whole_input(whole: i64) -> Result<Input, Bad>
    ensures { result ≡ whole_input (Some whole) }
{
    if whole.unsigned_abs() <= LARGEST {
        Ok(Input::Number(whole))
    } else {
        Err(Bad::NotWhole)
    }
}

/// What a text means, by how it is taken.
fn text_input(alloc: Global, mode: Mode, text: String) -> Result<Input, Bad>
    ensures { (result ≡ entered_text mode (string_bytes text)) ⊎ (result ≡ Err Bad.NoMemory) }
{
    match mode {
        Mode::Raw => {
            check_length(text.as_str())?;
            Ok(stored_text(text))
        }
        Mode::UserEntered => typed_text(alloc, text),
    }
}

/// What a typed text means, by the first line that fits.
fn typed_text(alloc: Global, text: String) -> Result<Input, Bad>
    ensures { (result ≡ entered_text Mode.UserEntered (string_bytes text)) ⊎ (result ≡ Err Bad.NoMemory) }
{
    if is_formula(text.as_str()) {
        check_length(text.as_str())?;
        return Ok(Input::FormulaText(Text::of(text)));
    }
    if let Some(rest) = marked_text(text.as_str()) {
        check_length(text.as_str())?;
        return Ok(stored_text(String::from_str(alloc, rest)?));
    }
    if is_whole(text.as_bytes()) {
        let number = digits_input(text.as_str())?;
        check_length(text.as_str())?;
        return Ok(number);
    }
    if is_word(text.as_str(), "TRUE") {
        return Ok(Input::Truth(true));
    }
    if is_word(text.as_str(), "FALSE") {
        return Ok(Input::Truth(false));
    }
    plain_text(text)
}

/// What a text means that is none of the others.
fn plain_text(text: String) -> Result<Input, Bad>
    ensures { result ≡ within_longest (string_bytes text) (plain_input (string_bytes text)) }
{
    if is_decimal(text.as_bytes()) {
        return Err(Bad::NotWhole);
    }
    check_length(text.as_str())?;
    Ok(stored_text(text))
}

/// The number that a sign and digits write, where it is within 2^53 either way.
fn digits_input(text: &str) -> Result<Input, Bad>
    requires { is_whole text.now ≡ true }
    ensures { result ≡ whole_input (Some (signed_digits_value 10 text.now)) }
{
    match text.parse::<i64>() {
        Ok(whole) => whole_input(whole),
        Err(_) => Err(Bad::NotWhole),
    }
}

/// Refuses a text that is too long.
fn check_length(text: &str) -> Result<(), Bad>
    ensures { result ≡ within_longest text.now (Ok tt) }
{
    if text.len() > LONGEST {
        Err(Bad::TooLong)
    } else {
        Ok(())
    }
}

/// The text as it is; the empty one empties the cell.
fn stored_text(text: String) -> Input
    ensures { result ≡ text_or_empty (string_bytes text) }
{
    if text.is_empty() {
        Input::Empty
    } else {
        Input::Text(Text::of(text))
    }
}
