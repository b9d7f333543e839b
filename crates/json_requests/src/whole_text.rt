ghost use Rattle.std.specs.Prelude.{◌≡◌, true};
ghost use Rattle.std.specs.Str.Parse.{digits_value, signed_digits_value};
ghost use Rattle.cell_value.specs.Typed.{are_digits, is_whole};
ghost use Rattle.json_shapes.specs.Scalars.{within_index};
ghost use Rattle.json_requests.specs.Filters.{column_named};
ghost use Rattle.json_requests.specs.WholeTexts.{number_of, number_within, leads_with_zero, index_named};

use cell_value::{LARGEST, are_digits, is_whole};
use json_shapes::{Read, ShapeFault, within_index};

/// The number that digits behind an optional sign write, within 2^53 either way.
pub(crate) fn number_of(text: &str) -> Read<i64>
    ensures { result ≡ number_of text.now }
{
    if is_whole(text.as_bytes()) {
        whole_number(text)
    } else {
        Err(ShapeFault::BadNumber)
    }
}

/// The number that digits behind an optional sign write.
fn whole_number(text: &str) -> Read<i64>
    requires { is_whole text.now ≡ true }
    ensures { result ≡ number_within (signed_digits_value 10 text.now) }
{
    match text.parse::<i64>() {
        Ok(number) => number_within(number),
        Err(_) => Err(ShapeFault::BadNumber),
    }
}

/// The number, where it is within 2^53 either way.
fn number_within(number: i64) -> Read<i64>
    ensures { result ≡ number_within number }
{
    if number.unsigned_abs() <= LARGEST {
        Ok(number)
    } else {
        Err(ShapeFault::BadNumber)
    }
}

/// The column that a key of criteria names.
pub(crate) fn column_named(key: &str) -> Option<u32>
    ensures { result ≡ column_named key.now }
{
    if leads_with_zero(key.as_bytes()) {
        None
    } else {
        index_named(key)
    }
}

/// The index, id or count that a text of digits writes, if it is one.
pub fn index_named(text: &str) -> Option<u32>
    ensures { result ≡ index_named text.now }
{
    if are_digits(text.as_bytes()) {
        index_of(text)
    } else {
        None
    }
}

/// Whether more bytes stand behind a zero.
fn leads_with_zero(text: &[u8]) -> bool
    ensures { result ≡ leads_with_zero text.now }
{
    match text {
        [first, _, ..] => *first == b'0',
        [_] | [] => false,
    }
}

/// The index that digits write.
fn index_of(text: &str) -> Option<u32>
    requires { are_digits text.now ≡ true }
    ensures { result ≡ within_index (digits_value 10 text.now) }
{
    match text.parse::<u64>() {
        Ok(index) => within_index(index),
        Err(_) => None,
    }
}
