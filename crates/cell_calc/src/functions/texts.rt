ghost use Rattle.std.specs.Prelude.{◌≡◌, length, take, drop, encode_utf8_all, string_bytes, IfOk, Ok};
ghost use Rattle.std.specs.Str.{chars};
ghost use Rattle.cell_calc.specs.Conversion.{number_of};
ghost use Rattle.cell_calc.specs.Outcome.{both};
ghost use Rattle.cell_calc.specs.TextFunctions.{text_length, count_of, first_characters, last_characters, inner_characters, text_and_number, text_and_numbers, left_part, right_part, middle_part, same_text};

use crate::conversion::{error_in, number_of, text_of};
use crate::outcome::{leftmost_error, numbers_of, text_within, two_texts, whole};
use cell_value::{Kind, NoMemory, Text, Value};
use std::alloc::{AllocError, Global};

/// LEN: the number of characters.
///
/// # Errors
///
/// [`NoMemory`] where memory runs out.
pub fn text_length(alloc: Global, value: &Value) -> Result<Value, NoMemory>
    ensures { IfOk result (λ answer. answer ≡ text_length value.now) }
{
    match text_of(alloc, value)? {
        Ok(text) => Ok(whole(length(text.as_str()) as i128)),
        Err(fault) => Ok(Value::Error(fault)),
    }
}

/// LEFT: the first characters, or [`Kind::Value`] of fewer than 0.
///
/// # Errors
///
/// [`NoMemory`] where memory runs out.
pub fn left_part(alloc: Global, value: &Value, count: &Value) -> Result<Value, NoMemory>
    ensures { IfOk result (λ part. part ≡ left_part value.now count.now) }
{
    match text_and_number(alloc, value, count)? {
        Ok((text, number)) => first_characters(alloc, text.as_str(), number),
        Err(fault) => Ok(Value::Error(fault)),
    }
}

/// RIGHT: the last characters, or [`Kind::Value`] of fewer than 0.
///
/// # Errors
///
/// [`NoMemory`] where memory runs out.
pub fn right_part(alloc: Global, value: &Value, count: &Value) -> Result<Value, NoMemory>
    ensures { IfOk result (λ part. part ≡ right_part value.now count.now) }
{
    match text_and_number(alloc, value, count)? {
        Ok((text, number)) => last_characters(alloc, text.as_str(), number),
        Err(fault) => Ok(Value::Error(fault)),
    }
}

/// MID: characters from the start-th on, counted from 1, or [`Kind::Value`] of a start below 1 and of fewer
/// than 0.
///
/// # Errors
///
/// [`NoMemory`] where memory runs out.
pub fn middle_part(
    alloc: Global,
    value: &Value,
    start: &Value,
    count: &Value,
) -> Result<Value, NoMemory>
    ensures { IfOk result (λ part. part ≡ middle_part value.now start.now count.now) }
{
    match text_and_numbers(alloc, value, start, count)? {
        Ok((text, numbers)) => inner_characters(alloc, text.as_str(), numbers.0, numbers.1),
        Err(fault) => Ok(Value::Error(fault)),
    }
}

/// EXACT: whether two values have the same text, byte by byte.
///
/// # Errors
///
/// [`NoMemory`] where memory runs out.
pub fn same_text(alloc: Global, one: &Value, other: &Value) -> Result<Value, NoMemory>
    ensures { IfOk result (λ same. same ≡ same_text one.now other.now) }
{
    match two_texts(alloc, one, other)? {
        Ok((one, other)) => Ok(Value::Truth(one.as_str() == other.as_str())),
        Err(fault) => Ok(Value::Error(fault)),
    }
}

/// A text and a number, the leftmost error before anything else.
fn text_and_number(
    alloc: Global,
    one: &Value,
    other: &Value,
) -> Result<Result<(Text, i64), Kind>, NoMemory>
    ensures { IfOk result (λ pair. pair ≡ text_and_number one.now other.now) }
{
    if let Some(fault) = leftmost_error(one, other) {
        return Ok(Err(fault));
    }
    match text_of(alloc, one)? {
        Ok(text) => Ok(with_number(text, other)),
        Err(fault) => Ok(Err(fault)),
    }
}

fn with_number(text: Text, other: &Value) -> Result<(Text, i64), Kind>
    ensures { result ≡ both (Ok text) (number_of other.now) }
{
    let number = number_of(other)?;
    Ok((text, number))
}

/// A text and two numbers, the leftmost error before anything else.
fn text_and_numbers(
    alloc: Global,
    value: &Value,
    start: &Value,
    count: &Value,
) -> Result<Result<(Text, (i64, i64)), Kind>, NoMemory>
    ensures { IfOk result (λ parts. parts ≡ text_and_numbers value.now start.now count.now) }
{
    if let Some(fault) = error_in(value).or(leftmost_error(start, count)) {
        return Ok(Err(fault));
    }
    match text_of(alloc, value)? {
        Ok(text) => Ok(with_numbers(text, start, count)),
        Err(fault) => Ok(Err(fault)),
    }
}

fn with_numbers(text: Text, start: &Value, count: &Value) -> Result<(Text, (i64, i64)), Kind>
    ensures { result ≡ both (Ok text) (both (number_of start.now) (number_of count.now)) }
{
    let numbers = numbers_of(start, count)?;
    Ok((text, numbers))
}

fn first_characters(alloc: Global, text: &str, number: i64) -> Result<Value, NoMemory>
    ensures { IfOk result (λ part. part ≡ first_characters text.now number) }
{
    match count_of(number) {
        Ok(count) => Ok(text_within(Text::of(part(alloc, text, 0, count)?))),
        Err(fault) => Ok(Value::Error(fault)),
    }
}

fn last_characters(alloc: Global, text: &str, number: i64) -> Result<Value, NoMemory>
    ensures { IfOk result (λ part. part ≡ last_characters text.now number) }
{
    match count_of(number) {
        Ok(count) => {
            let start = length(text).saturating_sub(count);
            Ok(text_within(Text::of(end(alloc, text, start)?)))
        }
        Err(fault) => Ok(Value::Error(fault)),
    }
}

fn inner_characters(alloc: Global, text: &str, start: i64, number: i64) -> Result<Value, NoMemory>
    ensures { IfOk result (λ part. part ≡ inner_characters text.now start number) }
{
    if start < 1 {
        return Ok(Value::Error(Kind::Value));
    }
    match count_of(number) {
        Ok(count) => {
            let behind = (start - 1) as usize;
            Ok(text_within(Text::of(part(alloc, text, behind, count)?)))
        }
        Err(fault) => Ok(Value::Error(fault)),
    }
}

/// A number of characters, or [`Kind::Value`] below 0.
fn count_of(number: i64) -> Result<usize, Kind>
    ensures { result ≡ count_of number }
{
    if number < 0 {
        Err(Kind::Value)
    } else {
        Ok(number as usize)
    }
}

/// How many characters the text has.
fn length(text: &str) -> usize
    ensures { result ≡ length (chars text.now) }
{
    text.chars().count()
}

/// So many characters of the text, from the start-th on, counted from 0.
fn part(alloc: Global, text: &str, start: usize, count: usize) -> Result<String, AllocError>
    ensures { IfOk result (λ part. string_bytes part ≡ encode_utf8_all (take count (drop start (chars text.now)))) }
{
    text.chars().skip(start).take(count).collect(alloc)
}

/// The characters of the text from the start-th on, counted from 0.
fn end(alloc: Global, text: &str, start: usize) -> Result<String, AllocError>
    ensures { IfOk result (λ end. string_bytes end ≡ encode_utf8_all (drop start (chars text.now))) }
{
    text.chars().skip(start).collect(alloc)
}
