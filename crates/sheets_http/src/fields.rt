ghost use Rattle.std.specs.Prelude.{◌≡◌, ◌&&◌, map, not, codes, if◌then◌else◌};
ghost use Rattle.std.specs.List.{list_any};
ghost use Rattle.std.specs.Option.{option_copied};
ghost use Rattle.std.specs.Str.{str_eq_ignore_ascii_case};
ghost use Rattle.httparse.specs.Borrowed.{header_parts};
ghost use Rattle.std.specs.Str.Parse.{digits_value};
ghost use Rattle.sheets_http.specs.Fields.{has_field, has_field_value, sole_value, asks_to_close, is_coded};
ghost use Rattle.sheets_http.specs.BodyLengths.{sends_body, is_numeral, content_length, framed, body_length};

use crate::HeadFault;
use httparse::Header;

/// How many bytes a body has at most.
const BODY_LIMIT: u64 = 8_388_608;

/// How many bytes of a body stand behind a head, or why the request is refused.
pub(crate) fn body_length(method: &str, fields: &[Header<'_>]) -> Result<u64, HeadFault>
    ensures { result ≡ body_length method.now (map header_parts fields.now) }
{
    match content_length(fields) {
        Ok(size) => framed(method, fields, size),
        Err(fault) => Err(fault),
    }
}

/// The same of a request that tells that length, or none.
fn framed(method: &str, fields: &[Header<'_>], size: Option<u64>) -> Result<u64, HeadFault>
    ensures { result ≡ framed method.now (map header_parts fields.now) (Ok size) }
{
    let length = size.unwrap_or(0);
    if has_field("transfer-encoding", fields) || (size.is_none() && sends_body(method)) {
        Err(HeadFault::NoLength)
    } else if length > BODY_LIMIT {
        Err(HeadFault::BodyLong)
    } else {
        Ok(length)
    }
}

/// The length that the fields tell, if they do.
fn content_length(fields: &[Header<'_>]) -> Result<Option<u64>, HeadFault>
    ensures { result ≡ content_length (map header_parts fields.now) }
{
    for (at, field) in fields.iter().enumerate() {
        if is_named(field, "content-length") {
            return only_length(field.value, &fields[at + 1..]);
        }
    }
    Ok(None)
}

/// The length that a field tells which has no other behind it.
fn only_length(value: &[u8], behind: &[Header<'_>]) -> Result<Option<u64>, HeadFault>
    ensures { result ≡ (if has_field (codes "content-length") (map header_parts behind.now) then Err HeadFault.BadHead
        else (if is_numeral value.now then Ok (Some (digits_value 10 value.now)) else Err HeadFault.BadHead)) }
{
    if has_field("content-length", behind) {
        Err(HeadFault::BadHead)
    } else {
        match numeral(value) {
            Some(length) => Ok(Some(length)),
            None => Err(HeadFault::BadHead),
        }
    }
}

/// The number that one to ten digits write.
pub(crate) fn numeral(value: &[u8]) -> Option<u64>
    ensures { result ≡ (if is_numeral value.now then Some (digits_value 10 value.now) else None) }
{
    if value.is_empty() || value.len() > 10 {
        return None;
    }
    let mut number = 0;
    for byte in value {
        if !byte.is_ascii_digit() {
            return None;
        }
        number = number * 10 + u64::from(*byte - b'0');
    }
    Some(number)
}

/// Whether the body has a coding other than none at all.
pub(crate) fn is_coded(fields: &[Header<'_>]) -> bool
    ensures { result ≡ is_coded (map header_parts fields.now) }
{
    fields.iter().any(|field| is_named(field, "content-encoding") && !has_value(field, "identity"))
}

/// Whether the connection is to be closed after the request.
pub(crate) fn asks_to_close(minor: u8, fields: &[Header<'_>]) -> bool
    ensures { result ≡ asks_to_close minor (map header_parts fields.now) }
{
    minor == 0 || has_field_value("connection", "close", fields)
}

/// Whether requests with the method have a body.
fn sends_body(method: &str) -> bool
    ensures { result ≡ sends_body method.now }
{
    method == "POST" || method == "PUT"
}

/// The value of the one field of that name, in any ASCII case, where the name stands just once.
pub(crate) fn sole_value<'a>(name: &str, fields: &[Header<'a>]) -> Option<&'a [u8]>
    ensures { option_copied result ≡ sole_value name.now (map header_parts fields.now) }
{
    for (at, field) in fields.iter().enumerate() {
        if is_named(field, name) {
            return only_value(name, field.value, &fields[at + 1..]);
        }
    }
    None
}

/// The value of a field of that name, where no other stands behind it.
fn only_value<'a>(name: &str, value: &'a [u8], behind: &[Header<'_>]) -> Option<&'a [u8]>
    ensures { option_copied result
        ≡ (if has_field name.now (map header_parts behind.now) then None else Some value.now) }
{
    if has_field(name, behind) {
        None
    } else {
        Some(value)
    }
}

/// Whether there is a field of that name, in any ASCII case.
fn has_field(name: &str, fields: &[Header<'_>]) -> bool
    ensures { result ≡ has_field name.now (map header_parts fields.now) }
{
    fields.iter().any(|field| is_named(field, name))
}

/// Whether there is a field of that name and that value, both in any ASCII case.
fn has_field_value(name: &str, value: &str, fields: &[Header<'_>]) -> bool
    ensures { result ≡ has_field_value name.now value.now (map header_parts fields.now) }
{
    fields
        .iter()
        .any(|field| is_named(field, name) && has_value(field, value))
}

/// Whether a field has that name, in any ASCII case.
fn is_named(field: &Header<'_>, name: &str) -> bool
    ensures { result ≡ str_eq_ignore_ascii_case field.now.name.now name.now }
{
    field.name.eq_ignore_ascii_case(name)
}

/// Whether a field has that value, in any ASCII case.
fn has_value(field: &Header<'_>, value: &str) -> bool
    ensures { result ≡ str_eq_ignore_ascii_case field.now.value.now value.now }
{
    field.value.eq_ignore_ascii_case(value.as_bytes())
}
