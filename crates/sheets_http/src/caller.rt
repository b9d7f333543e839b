ghost use Rattle.std.specs.Prelude.{◌≡◌, map};
ghost use Rattle.std.specs.List.{list_all};
ghost use Rattle.std.specs.Option.{option_copied};
ghost use Rattle.std.specs.Char.{is_ascii_graphic};
ghost use Rattle.httparse.specs.Borrowed.{header_parts};
ghost use Rattle.sheets_http.specs.Callers.{visible_text, is_token_length, bearer_token, user_token, project};

use crate::fields::sole_value;
use httparse::Header;

/// What stands before a token, in any ASCII case.
const SCHEME: &[u8] = b"Bearer ";

/// How many bytes a token has at most.
const TOKEN_LIMIT: usize = 4_096;

/// The token that a request comes with, where it has one.
pub(crate) fn user_token<'a>(fields: &[Header<'a>]) -> Option<&'a str>
    ensures { option_copied result ≡ user_token (map header_parts fields.now) }
{
    match sole_value("authorization", fields) {
        Some(value) => bearer_token(value),
        None => None,
    }
}

/// The token of a field's value: what follows the scheme and one space.
fn bearer_token(value: &[u8]) -> Option<&str>
    ensures { option_copied result ≡ bearer_token value.now }
{
    let (scheme, token) = value.split_at(SCHEME.len().min(value.len()));
    if scheme.eq_ignore_ascii_case(SCHEME) && is_token_length(token.len()) {
        visible_text(token)
    } else {
        None
    }
}

/// Whether a token may have so many bytes.
fn is_token_length(size: usize) -> bool
    ensures { result ≡ is_token_length size }
{
    0 < size && size <= TOKEN_LIMIT
}

/// The project that a request is made for; empty where it names none.
pub(crate) fn project<'a>(fields: &[Header<'a>]) -> &'a str
    ensures { result.now ≡ project (map header_parts fields.now) }
{
    match sole_value("x-goog-user-project", fields) {
        Some(value) => visible_text(value).unwrap_or(""),
        None => "",
    }
}

/// The text of bytes that are all visible ASCII characters.
fn visible_text(bytes: &[u8]) -> Option<&str>
    ensures { option_copied result ≡ visible_text bytes.now }
{
    if is_visible(bytes) {
        match str::from_utf8(bytes) {
            Ok(text) => Some(text),
            Err(_) => None,
        }
    } else {
        None
    }
}

/// Whether all bytes are visible ASCII characters.
fn is_visible(bytes: &[u8]) -> bool
    ensures { result ≡ list_all is_ascii_graphic bytes.now }
{
    bytes.iter().all(|byte| byte.is_ascii_graphic())
}
