ghost use Rattle.std.specs.Prelude.{◌≡◌, ◌++◌, ◌≤◌, [], decimal, length, codes, IfOk, string_bytes};
ghost use Rattle.http.specs.StatusCode.{IsStatusCode};
ghost use Rattle.sheets_http.specs.Responses.{IsServedStatus, phrase_of, text_line, connection_line, text_of_response, no_memory_body};

use cell_value::{Bytes, NoMemory};
use http::StatusCode;
use std::alloc::{AllocError, Global};

/// The text of a response with that status and that JSON body; `close` tells the client that it is
/// the last (RFC 9112, section 9.6).
///
/// # Errors
///
/// [`NoMemory`] where memory runs out.
pub fn response_text(
    alloc: Global,
    status: u16,
    close: bool,
    body: &[u8],
) -> Result<Bytes, NoMemory>
    requires { IsServedStatus status }
    ensures { IfOk result (λ text. text ≡ text_of_response status close body.now) }
{
    let head = head_text(alloc, status, phrase(status), body.len(), close_line(close))?;
    let mut text = Vec::from_slice(alloc, head.as_bytes())?;
    text.extend_from_slice(body)?;
    Ok(Bytes::of(text))
}

/// The response for want of memory, with the status 507. It takes no memory.
pub fn no_memory_response(close: bool) -> &'static [u8]
    ensures { result.now ≡ text_of_response 507 close no_memory_body }
{
    if close {
        b"HTTP/1.1 507 Insufficient Storage\r\n\
          Content-Type: application/json; charset=UTF-8\r\n\
          Content-Length: 68\r\nConnection: close\r\n\r\n\
          {\"error\":{\"code\":507,\"message\":\"NoMemory\",\"status\":\"OUT_OF_MEMORY\"}}"
    } else {
        b"HTTP/1.1 507 Insufficient Storage\r\n\
          Content-Type: application/json; charset=UTF-8\r\n\
          Content-Length: 68\r\n\r\n\
          {\"error\":{\"code\":507,\"message\":\"NoMemory\",\"status\":\"OUT_OF_MEMORY\"}}"
    }
}

/// The reason phrase of a status.
fn phrase(status: u16) -> &'static str
    requires { IsServedStatus status }
    ensures { result.now ≡ phrase_of status }
{
    match StatusCode::from_u16(status) {
        Ok(code) => match code.canonical_reason() {
            Some(phrase) => phrase,
            None => "",
        },
        Err(_) => "",
    }
}

/// The line of the last response.
fn close_line(close: bool) -> &'static str
    ensures { result.now ≡ connection_line close [] }
{
    if close { "Connection: close\r\n" } else { "" }
}

/// The status line, the fields and the empty line.
fn head_text(
    alloc: Global,
    status: u16,
    phrase: &str,
    length: usize,
    close_line: &str,
) -> Result<String, AllocError>
    ensures { IfOk result (λ text. string_bytes text ≡ codes "HTTP/1.1 " ++ (decimal status
        ++ (codes " " ++ (phrase.now ++ (codes "\r\nContent-Type: application/json; charset=UTF-8\r\nContent-Length: "
        ++ (decimal length ++ (codes "\r\n" ++ (close_line.now ++ codes "\r\n")))))))) }
{
    format!(in alloc;
        "HTTP/1.1 {status} {phrase}\r\n\
         Content-Type: application/json; charset=UTF-8\r\n\
         Content-Length: {length}\r\n{close_line}\r\n"
    )
}
