ghost use Rattle.std.specs.Prelude.{◌≡◌, ◌+◌, ◌≤◌, map, length, Ok, IfOk};
ghost use Rattle.std.specs.Option.{option_copied};
ghost use Rattle.httparse.specs.Borrowed.{header_parts};
ghost use Rattle.sheets_http.specs.Heads.{line_feeds};
ghost use Rattle.sheets_http.specs.HeadReading.{IsHeadText, IsSummary, SummaryOf, ReadsHead};
ghost use Rattle.sheets_http.specs.BodyLengths.{body_length};

use crate::HeadFault;
use crate::caller::{project, user_token};
use crate::fields::{asks_to_close, body_length, is_coded};
use crate::scan::LINE_LIMIT;
use cell_value::{NoMemory, Text};
use httparse::{EMPTY_HEADER, Header, Request, Status};
use std::alloc::Global;

/// How many lines a head has besides its fields: the request line and the empty line.
const OTHER_LINES: usize = 2;

/// How many fields a head has at most.
const FIELD_LIMIT: usize = LINE_LIMIT - OTHER_LINES;

/// How many fields most heads have at most, for which room is soon made.
const FEW_FIELDS: usize = 16;

/// What a head says that matters.
#[derive(Debug, Drop)]
pub(crate) struct HeadSummary {
    pub(crate) method: Text,
    pub(crate) target: Text,
    pub(crate) user_token: Option<Text>,
    pub(crate) project: Text,
    pub(crate) coded: bool,
    pub(crate) close: bool,
    pub(crate) length: u64,
}

/// Why the text of a head has no summary.
#[derive(Clone, Copy, Debug, PartialEq, Eq)]
pub(crate) enum HeadError {
    Fault(HeadFault),
    NoMemory,
}

/// Reads the text of a head of so many lines.
pub(crate) fn read_head(alloc: Global, head: &[u8], lines: usize) -> Result<HeadSummary, HeadError>
    requires text { IsHeadText head.now }
    requires lines { line_feeds head.now ≡ lines }
    ensures { ReadsHead head.now result }
{
    if lines <= FEW_FIELDS + OTHER_LINES {
        read_fields(alloc, head, &mut [EMPTY_HEADER; FEW_FIELDS])
    } else {
        read_many_fields(alloc, head)
    }
}

/// The same of any head. Its room is made in a call of its own, which other heads don't pay for.
fn read_many_fields(alloc: Global, head: &[u8]) -> Result<HeadSummary, HeadError>
    requires { IsHeadText head.now }
    ensures { ReadsHead head.now result }
{
    read_fields(alloc, head, &mut [EMPTY_HEADER; FIELD_LIMIT])
}

/// The same with room for its fields.
fn read_fields<'a>(
    alloc: Global,
    head: &'a [u8],
    room: &mut [Header<'a>],
) -> Result<HeadSummary, HeadError>
    requires text { IsHeadText head.now }
    requires room { line_feeds head.now ≤ length room.old + 2 }
    ensures { ReadsHead head.now result }
{
    let mut request = Request::new(room);
    match request.parse(head) {
        Ok(Status::Complete(_)) => {
            let method = request.method.unwrap();
            let target = request.path.unwrap();
            let minor = request.version.unwrap();
            let fields: &[Header<'_>] = request.headers;
            head_of(alloc, method, target, minor, fields)
        }
        Ok(Status::Partial) => Err(HeadError::Fault(HeadFault::BadHead)),
        Err(_) => Err(HeadError::Fault(HeadFault::BadHead)),
    }
}

/// The summary of a request line and its fields.
fn head_of(
    alloc: Global,
    method: &str,
    target: &str,
    minor: u8,
    fields: &[Header<'_>],
) -> Result<HeadSummary, HeadError>
    ensures { SummaryOf method.now target.now minor (map header_parts fields.now) result }
{
    match body_length(method, fields) {
        Ok(length) => match summary_of(alloc, method, target, minor, fields, length) {
            Ok(summary) => Ok(summary),
            Err(_) => Err(HeadError::NoMemory),
        },
        Err(fault) => Err(HeadError::Fault(fault)),
    }
}

/// The same where the length of the body is known.
fn summary_of(
    alloc: Global,
    method: &str,
    target: &str,
    minor: u8,
    fields: &[Header<'_>],
    length: u64,
) -> Result<HeadSummary, NoMemory>
    requires { body_length method.now (map header_parts fields.now) ≡ Ok length }
    ensures { IfOk result (λ summary. IsSummary method.now target.now minor (map header_parts fields.now) summary) }
{
    let method = owned(alloc, method)?;
    let target = owned(alloc, target)?;
    let user_token = owned_token(alloc, user_token(fields))?;
    let project = owned(alloc, project(fields))?;
    Ok(HeadSummary {
        method,
        target,
        user_token,
        project,
        coded: is_coded(fields),
        close: asks_to_close(minor, fields),
        length,
    })
}

/// A token as a text of its own, where there is one.
fn owned_token(alloc: Global, token: Option<&str>) -> Result<Option<Text>, NoMemory>
    ensures { IfOk result (λ text. text ≡ option_copied token.entry) }
{
    match token {
        Some(token) => Ok(Some(owned(alloc, token)?)),
        None => Ok(None),
    }
}

/// A text of its own.
fn owned(alloc: Global, text: &str) -> Result<Text, NoMemory>
    ensures { IfOk result (λ owned. owned ≡ text.now) }
{
    Ok(Text::of(String::from_str(alloc, text)?))
}
