use cell_value::{Bytes, Items, NoMemory, Text};
use sheets_http::*;
use std::alloc::Global;
use std::test::Fail;

/// What came next, as a word.
fn shown(alloc: Global, next: &Next) -> Result<String, Fail> {
    match next {
        Next::Request(wire) => shown_request(alloc, wire),
        Next::Truncated(count) => Ok(format!(in alloc; "truncated {count}")?),
        Next::Closed(fault) => Ok(format!(in alloc; "{fault:?}")?),
        Next::End => Ok(String::from_str(alloc, "end")?),
        Next::LongTalk => Ok(String::from_str(alloc, "long")?),
        Next::ReadFault => Ok(String::from_str(alloc, "fault ")?),
        Next::NoMemory => Ok(String::new(alloc)),
    }
}

/// A request as a word: its method, its target, how long its body is and, if that is short, what it is;
/// then its token behind an `@`, its project behind a `#`, a `~` where its body has a coding, and a `!`
/// where it asks for the end.
fn shown_request(alloc: Global, wire: &Wire) -> Result<String, Fail> {
    let mut word = shown_line(alloc, wire)?;
    add_body(&mut word, wire.body.as_slice())?;
    add_token(&mut word, &wire.user_token)?;
    add_project(&mut word, wire.project.as_str())?;
    add_flags(&mut word, wire.coded, wire.close)?;
    Ok(word)
}

fn shown_line(alloc: Global, wire: &Wire) -> Result<String, Fail> {
    let (method, target) = (wire.method.as_str(), wire.target.as_str());
    let size = wire.body.as_slice().len();
    Ok(format!(in alloc; "{method}{target}:{size}")?)
}

fn add_body(word: &mut String, body: &[u8]) -> Result<(), Fail> {
    match body.len() {
        1..=9 => add(word, "=", str::from_utf8(body).unwrap_or("?")),
        _ => Ok(()),
    }
}

fn add_token(word: &mut String, token: &Option<Text>) -> Result<(), Fail> {
    match token {
        Some(token) => add(word, "@", token.as_str()),
        None => Ok(()),
    }
}

fn add_project(word: &mut String, project: &str) -> Result<(), Fail> {
    match project {
        "" => Ok(()),
        project => add(word, "#", project),
    }
}

fn add_flags(word: &mut String, coded: bool, close: bool) -> Result<(), Fail> {
    let coding = if coded { "~" } else { "" };
    add(word, coding, if close { "! " } else { " " })
}

/// Adds both to a word.
fn add(word: &mut String, sign: &str, text: &str) -> Result<(), Fail> {
    word.push_str(sign)?;
    word.push_str(text)?;
    Ok(())
}

/// Whether nothing comes behind it.
fn is_last(next: &Next) -> bool {
    match next {
        Next::End | Next::Truncated(_) | Next::Closed(_) | Next::LongTalk => true,
        Next::Request(wire) => wire.close,
        Next::ReadFault | Next::NoMemory => false,
    }
}

/// The requests of a source, its faults and its end. After a fault, and where memory ran out, it is
/// read on.
fn requests_of<S: Source>(alloc: Global, source: &mut S, most: u64) -> Result<String, Fail> {
    let mut buffer = Buffer::new(alloc)?;
    let mut told = String::new(alloc);
    for _ in 0..9 {
        let next = next_request(alloc, source, &mut buffer, most);
        let word = shown(alloc, &next)?;
        told.push_str(word.as_str())?;
        if is_last(&next) {
            break;
        }
    }
    Ok(told)
}

/// Whether that is told of a stream that is read in pieces of that size, with no read that fails.
fn is_steady(
    alloc: Global,
    stream: &[u8],
    piece: u64,
    most: u64,
    want: &str,
) -> Result<bool, Fail> {
    let bytes = Bytes::of(Vec::from_slice(alloc, stream)?);
    let mut source = SteadySource::new(bytes, piece.max(1));
    Ok(requests_of(alloc, &mut source, most)?.as_str() == want)
}

/// The same in pieces of 16 bytes, where the reads of these numbers fail.
fn is_failing(
    alloc: Global,
    stream: &[u8],
    failing: &[u64],
    most: u64,
    want: &str,
) -> Result<bool, Fail> {
    let bytes = Bytes::of(Vec::from_slice(alloc, stream)?);
    let numbers = Items::of(Vec::from_slice(alloc, failing)?);
    let mut source = MemorySource::new(bytes, 16, numbers);
    Ok(requests_of(alloc, &mut source, most)?.as_str() == want)
}

/// A stream.
#[derive(Clone, Copy)]
enum Stream {
    /// That text.
    Text(&'static str),
    /// A head of so many bytes.
    Head(usize),
    /// A head with so many fields behind two.
    Fields(usize),
    /// So many line feeds.
    Breaks(usize),
    /// A request with a token of so many bytes.
    Token(usize),
    /// A request with a body of so many bytes.
    Body(usize),
}

/// The bytes of a stream.
fn bytes_of(alloc: Global, stream: Stream) -> Result<Vec<u8>, Fail> {
    match stream {
        Stream::Text(text) => Ok(Vec::from_slice(alloc, text.as_bytes())?),
        Stream::Head(size) => filled(
            alloc,
            "GET /a HTTP/1.1\r\nX: ",
            "x",
            size.saturating_sub(24),
            "\r\n\r\n",
        ),
        Stream::Fields(count) => filled(alloc, TWO_FIELDS, "X: y\n", count, "\n"),
        Stream::Breaks(count) => filled(alloc, "", "\n", count, ""),
        Stream::Token(size) => filled(alloc, BEARER, "x", size, "\r\n\r\n"),
        Stream::Body(size) => {
            let head = format!(in alloc; "PUT /a HTTP/1.1\r\nContent-Length: {size}\r\n\r\n")?;
            let mut bytes = Vec::from_slice(alloc, head.as_bytes())?;
            bytes.resize(head.len().saturating_add(size), b'x')?;
            Ok(bytes)
        }
    }
}

const TWO_FIELDS: &str = "GET /a HTTP/1.1\nHost: h\nAuthorization: Bearer t\n";

const BEARER: &str = "GET /a HTTP/1.1\r\nAuthorization: Bearer ";

/// A text, another so many times, and a third.
fn filled(
    alloc: Global,
    first: &str,
    text: &str,
    count: usize,
    last: &str,
) -> Result<Vec<u8>, Fail> {
    let mut bytes = Vec::from_slice(alloc, first.as_bytes())?;
    for _ in 0..count {
        bytes.extend_from_slice(text.as_bytes())?;
    }
    bytes.extend_from_slice(last.as_bytes())?;
    Ok(bytes)
}

/// A stream, the bound, the numbers of the reads that fail, and what is told.
type Case = (Stream, u64, &'static [u64], &'static str);

const MOST: u64 = 1_000_000;

/// A request of 19 bytes and one of 40, which four reads of 16 bytes give; a fifth meets the end.
const TWO: &str = "GET /a HTTP/1.1\r\n\r\nPUT /b HTTP/1.1\r\nContent-Length: 2\r\n\r\n{}";

const BOTH: &str = "GET/a:0 PUT/b:2={} end";

/// Two requests of 17 bytes.
const SHORT: &str = "GET /a HTTP/1.1\n\nGET /b HTTP/1.1\n\n";

const CASES: &[Case] = &[
    (Stream::Text(""), MOST, &[], "end"),
    (Stream::Text("\r\n\n\r\n"), MOST, &[], "end"),
    (
        Stream::Text("\r\nGET /a HTTP/1.1\r\n\r\n\r\nGET /b HTTP/1.1\n\r\n"),
        MOST,
        &[],
        "GET/a:0 GET/b:0 end",
    ),
    (
        Stream::Text("GET /a HTTP/1.1\r\n\r\nGET /b"),
        MOST,
        &[],
        "GET/a:0 truncated 6",
    ),
    (
        Stream::Text("\r\n\r\nGET /a HTTP/1.1\r\n"),
        MOST,
        &[],
        "truncated 17",
    ),
    (Stream::Text("GET /a\r\n\r\n"), MOST, &[], "BadHead"),
    (
        Stream::Text("GET /\u{7f} HTTP/1.1\r\n\r\n"),
        MOST,
        &[],
        "BadHead",
    ),
    (
        Stream::Text("GET /a HTTP/1.0\r\n\r\nGET /b HTTP/1.1\r\n\r\n"),
        MOST,
        &[],
        "GET/a:0! ",
    ),
    (
        Stream::Text("GET /a HTTP/1.1\r\nCONNECTION: Close\r\n\r\n"),
        MOST,
        &[],
        "GET/a:0! ",
    ),
    (
        Stream::Text("PUT /a HTTP/1.1\r\nConnection: close\r\nContent-Length: 2\r\n\r\n{}{"),
        MOST,
        &[],
        "PUT/a:2={}! ",
    ),
    (
        Stream::Text("PUT /a HTTP/1.1\r\nConnection: close\r\nContent-Length: 2\r\n\r\n{"),
        MOST,
        &[],
        "truncated 58",
    ),
    (
        Stream::Text("GET /a HTTP/1.1\r\nConnection: close, te\r\n\r\n"),
        MOST,
        &[],
        "GET/a:0 end",
    ),
    (
        Stream::Text("GET /a HTTP/1.1\r\nConnection: keep-alive\r\n\r\n"),
        MOST,
        &[],
        "GET/a:0 end",
    ),
    (
        Stream::Text("PUT /a HTTP/1.1\r\ncontent-length: 2\r\n\r\n{}GET /b HTTP/1.1\r\n\r\n"),
        MOST,
        &[],
        "PUT/a:2={} GET/b:0 end",
    ),
    (
        Stream::Text("PUT /a HTTP/1.1\r\nContent-Length: 0000000002\r\n\r\n\r\n"),
        MOST,
        &[],
        "PUT/a:2=\r\n end",
    ),
    (
        Stream::Text("PUT /a HTTP/1.1\r\nContent-Length: 2\r\n\r\n{"),
        MOST,
        &[],
        "truncated 39",
    ),
    (
        Stream::Text("PUT /a HTTP/1.1\r\nContent-Length: 1\r\nContent-Length: 1\r\n\r\nx"),
        MOST,
        &[],
        "BadHead",
    ),
    (
        Stream::Text("PUT /a HTTP/1.1\r\nContent-Length: +1\r\n\r\nx"),
        MOST,
        &[],
        "BadHead",
    ),
    (
        Stream::Text("PUT /a HTTP/1.1\r\nContent-Length: 00000000001\r\n\r\nx"),
        MOST,
        &[],
        "BadHead",
    ),
    (
        Stream::Text("PUT /a HTTP/1.1\r\nContent-Length: 8388609\r\n\r\n"),
        MOST,
        &[],
        "BodyLong",
    ),
    (
        Stream::Text("PUT /a HTTP/1.1\r\n\r\n"),
        MOST,
        &[],
        "NoLength",
    ),
    (
        Stream::Text("GET /a HTTP/1.1\r\nTransfer-Encoding: chunked\r\n\r\n"),
        MOST,
        &[],
        "NoLength",
    ),
    (
        Stream::Text("PUT /a HTTP/1.1\r\nTransfer-Encoding: x\r\nContent-Length: 1\r\n\r\nx"),
        MOST,
        &[],
        "NoLength",
    ),
    (
        Stream::Text("POST /a HTTP/1.1\r\nContent-Length: 8388609\r\nTransfer-Encoding: x\r\n\r\n"),
        MOST,
        &[],
        "NoLength",
    ),
    (
        Stream::Text(
            "GET /a HTTP/1.1\r\nAuthorization: Bearer a~!\r\nX-Goog-User-Project: p-1\r\n\r\n",
        ),
        MOST,
        &[],
        "GET/a:0@a~!#p-1 end",
    ),
    (
        Stream::Text("GET /a HTTP/1.1\r\nAUTHORIZATION:\t bEARER ann \t\r\n\r\n"),
        MOST,
        &[],
        "GET/a:0@ann end",
    ),
    (
        Stream::Text("GET /a HTTP/1.1\r\nAuthorization: Bearer a b\r\n\r\n"),
        MOST,
        &[],
        "GET/a:0 end",
    ),
    (
        Stream::Text("GET /a HTTP/1.1\r\nAuthorization: Bearer  ann\r\n\r\n"),
        MOST,
        &[],
        "GET/a:0 end",
    ),
    (
        Stream::Text("GET /a HTTP/1.1\r\nAuthorization: Bearer\tann\r\n\r\n"),
        MOST,
        &[],
        "GET/a:0 end",
    ),
    (
        Stream::Text("GET /a HTTP/1.1\r\nAuthorization: Bearer\r\n\r\n"),
        MOST,
        &[],
        "GET/a:0 end",
    ),
    (
        Stream::Text("GET /a HTTP/1.1\r\nAuthorization: Basic ann\r\n\r\n"),
        MOST,
        &[],
        "GET/a:0 end",
    ),
    (
        Stream::Text("GET /a HTTP/1.1\r\nAuthorization: Bearer \u{e9}\r\n\r\n"),
        MOST,
        &[],
        "GET/a:0 end",
    ),
    (
        Stream::Text(
            "GET /a HTTP/1.1\r\nAuthorization: Bearer ann\r\nauthorization: Bearer ann\r\n\r\n",
        ),
        MOST,
        &[],
        "GET/a:0 end",
    ),
    (
        Stream::Text("GET /a HTTP/1.1\r\nX-Goog-User-Project: p\r\nx-goog-user-project: q\r\n\r\n"),
        MOST,
        &[],
        "GET/a:0 end",
    ),
    (
        Stream::Text("GET /a HTTP/1.1\r\nX-Goog-User-Project: p q\r\n\r\n"),
        MOST,
        &[],
        "GET/a:0 end",
    ),
    (
        Stream::Text(
            "GET /a HTTP/1.1\r\nContent-Encoding: Identity\r\n\r\nGET /b HTTP/1.1\r\nContent-Encoding: x\r\n\r\n",
        ),
        MOST,
        &[],
        "GET/a:0 GET/b:0~ end",
    ),
    (
        Stream::Text(
            "PUT /a?b HTTP/1.1\r\nContent-Encoding: gzip\r\nContent-Length: 3\r\n\r\n\n\n{",
        ),
        MOST,
        &[],
        "PUT/a?b:3=\n\n{~ end",
    ),
    (Stream::Head(16_384), MOST, &[], "GET/a:0 end"),
    (Stream::Head(16_385), MOST, &[], "HeadLong"),
    (Stream::Fields(62), MOST, &[], "GET/a:0@t end"),
    (Stream::Fields(63), MOST, &[], "HeadLong"),
    (Stream::Breaks(16_384), MOST, &[], "HeadLong"),
    (Stream::Breaks(16_383), MOST, &[], "end"),
    (Stream::Token(4_097), MOST, &[], "GET/a:0 end"),
    (Stream::Text(SHORT), 35, &[], "GET/a:0 GET/b:0 end"),
    (Stream::Text(SHORT), 34, &[], "GET/a:0 GET/b:0 long"),
    (Stream::Text(SHORT), 17, &[], "GET/a:0 long"),
    (Stream::Text(SHORT), 16, &[], "long"),
    (Stream::Text(TWO), MOST, &[0], BOTH),
    (
        Stream::Text(TWO),
        MOST,
        &[1],
        "fault GET/a:0 PUT/b:2={} end",
    ),
    (
        Stream::Text(TWO),
        MOST,
        &[2],
        "fault GET/a:0 PUT/b:2={} end",
    ),
    (
        Stream::Text(TWO),
        MOST,
        &[3],
        "GET/a:0 fault PUT/b:2={} end",
    ),
    (
        Stream::Text(TWO),
        MOST,
        &[4],
        "GET/a:0 fault PUT/b:2={} end",
    ),
    (
        Stream::Text(TWO),
        MOST,
        &[5],
        "GET/a:0 PUT/b:2={} fault end",
    ),
    (Stream::Text(TWO), MOST, &[6], BOTH),
    (
        Stream::Text(TWO),
        MOST,
        &[5, 1, 2],
        "fault fault GET/a:0 fault PUT/b:2={} end",
    ),
];

/// The cases.
fn cases() -> &'static [Case] {
    CASES
}

/// Whether a case is told so: in pieces of one byte, of a few and of many, where no read fails.
fn is_told(alloc: Global, case: Case) -> Result<bool, Fail> {
    let (stream, most, failing, want) = case;
    let bytes = bytes_of(alloc, stream)?;
    if !failing.is_empty() {
        return is_failing(alloc, &bytes, failing, most, want);
    }
    Ok(
        is_steady(alloc, &bytes, 1, most, want)?
            && is_steady(alloc, &bytes, 16, most, want)?
            && is_steady(alloc, &bytes, 100_000, most, want)?,
    )
}

/// Whether the longest token that there may be is told.
fn longest_token_is_told(alloc: Global) -> Result<bool, Fail> {
    let bytes = bytes_of(alloc, Stream::Token(4_096))?;
    let word = filled(alloc, "GET/a:0@", "x", 4_096, " end")?;
    is_steady(alloc, &bytes, 16, MOST, str::from_utf8(&word).unwrap_or(""))
}

/// Whether the longest body that there may be is told, and a bound inside it.
fn longest_body_is_told(alloc: Global) -> Result<bool, Fail> {
    let bytes = bytes_of(alloc, Stream::Body(8_388_608))?;
    Ok(
        is_steady(alloc, &bytes, 100_000, 100_000_000, "PUT/a:8388608 end")?
            && is_steady(alloc, &bytes, 100_000, 8_000_000, "long")?,
    )
}

/// What is told of the first so many bytes of both requests.
fn cut_off(alloc: Global, size: usize) -> Result<String, Fail> {
    match size {
        0 => Ok(String::from_str(alloc, "end")?),
        1..=18 => Ok(format!(in alloc; "truncated {size}")?),
        19 => Ok(String::from_str(alloc, "GET/a:0 end")?),
        20..=58 => Ok(format!(in alloc; "GET/a:0 truncated {}", size - 19)?),
        _ => Ok(String::from_str(alloc, BOTH)?),
    }
}

/// Whether both requests that are cut there are told so.
fn is_cut_off(alloc: Global, size: usize) -> Result<bool, Fail> {
    let stream = TWO.as_bytes().get(..size).unwrap_or(b"");
    let want = cut_off(alloc, size)?;
    is_steady(alloc, stream, 16, MOST, want.as_str())
}

/// What should be told of the first case of which it isn't.
fn wrong_case(alloc: Global) -> Result<Option<&'static str>, Fail> {
    for case in cases() {
        if !is_told(alloc, *case)? {
            return Ok(Some(case.3));
        }
    }
    Ok(None)
}

/// The first place at which both requests are cut and told otherwise.
fn wrong_cut(alloc: Global) -> Result<Option<usize>, Fail> {
    for size in 0..60 {
        if !is_cut_off(alloc, size)? {
            return Ok(Some(size));
        }
    }
    Ok(None)
}

#[test]
fn streams_are_cut_into_requests(rt: HostRuntime) -> Result<(), Fail> {
    assert_eq!(rt; wrong_case(rt.alloc())?, None);
    assert_eq!(rt; wrong_cut(rt.alloc())?, None);
    assert!(rt; longest_token_is_told(rt.alloc())?);
    assert!(rt; longest_body_is_told(rt.alloc())?);
    call_the_laws();
    Ok(())
}

/// Calls the laws.
fn call_the_laws() {
    conversation_laws();
    one_call();
}

/// Whether all of the bytes are sent.
fn sends<S: Sink>(sink: &mut S, bytes: &[u8]) -> Result<bool, Fail> {
    match send_all(sink, bytes) {
        Ok(()) => Ok(true),
        Err(SinkFault::Failed) => Ok(false),
        Err(SinkFault::NoMemory) => Err(NoMemory.into()),
    }
}

const NO_ROUTE: &str = r#"{"error":{"code":404,"message":"NoRoute","status":"NOT_FOUND"}}"#;

const TEXTS: &str =
    "HTTP/1.1 200 OK\r\nContent-Type: application/json; charset=UTF-8\r\nContent-Length: 2\r\n\r\n{}\
     HTTP/1.1 404 Not Found\r\nContent-Type: application/json; charset=UTF-8\r\n\
     Content-Length: 63\r\nConnection: close\r\n\r\n\
     {\"error\":{\"code\":404,\"message\":\"NoRoute\",\"status\":\"NOT_FOUND\"}}";

/// A response that goes on, and one that closes.
fn served(alloc: Global) -> Result<Bytes, Fail> {
    Ok(response_text(alloc, 200, false, b"{}")?)
}

fn refused(alloc: Global) -> Result<Bytes, Fail> {
    Ok(response_text(alloc, 404, true, NO_ROUTE.as_bytes())?)
}

/// Whether both are written whole.
fn sends_responses<S: Sink>(alloc: Global, sink: &mut S) -> Result<bool, Fail> {
    Ok(sends(sink, served(alloc)?.as_slice())? && sends(sink, refused(alloc)?.as_slice())?)
}

/// Whether both sides of a link do what they do alone.
fn is_linked(alloc: Global) -> Result<bool, Fail> {
    let mut source = SteadySource::new(Bytes::of(Vec::from_slice(alloc, b"abc")?), 2);
    let mut sink = SteadySink::new(alloc, 7);
    let mut link = Link {
        input: &mut source,
        output: &mut sink,
    };
    let mut piece = [0; 8];
    let first = link.read(&mut piece);
    let sent = sends_responses(alloc, &mut link)?;
    let second = link.read(&mut piece);
    let third = link.read(&mut piece);
    Ok(
        first == Ok(2)
            && sent
            && second == Ok(1)
            && third == Ok(0)
            && sink.written().as_slice() == TEXTS.as_bytes(),
    )
}

const NO_MEMORY: &[u8] = br#"{"error":{"code":507,"message":"NoMemory","status":"OUT_OF_MEMORY"}}"#;

/// Whether the response for want of memory is the text of its status.
fn is_no_memory_text(alloc: Global, close: bool) -> Result<bool, Fail> {
    let text = response_text(alloc, 507, close, NO_MEMORY)?;
    Ok(NO_MEMORY.len() == 68 && no_memory_response(close) == text.as_slice())
}

/// The numbers of the writes of 16 bytes that fail, whether all 59 bytes are sent then, and how many
/// are written.
const FAILING_WRITES: &[(&[u64], bool, usize)] = &[
    (&[], true, 59),
    (&[0], true, 59),
    (&[1], false, 0),
    (&[2], false, 16),
    (&[3], false, 32),
    (&[4], false, 48),
    (&[5], true, 59),
    (&[4, 2], false, 16),
];

/// The writes.
fn failing_writes() -> &'static [(&'static [u64], bool, usize)] {
    FAILING_WRITES
}

/// Whether so many bytes are written where these writes fail.
fn is_written(alloc: Global, failing: &[u64], all: bool, count: usize) -> Result<bool, Fail> {
    let numbers = Items::of(Vec::from_slice(alloc, failing)?);
    let mut sink = MemorySink::new(alloc, 16, numbers);
    let sent = sends(&mut sink, TWO.as_bytes())?;
    Ok(sent == all && sink.written().as_slice() == TWO.as_bytes().get(..count).unwrap_or(b""))
}

/// Whether two texts are written one behind the other, in pieces of that size.
fn is_written_twice(alloc: Global, piece: u64) -> Result<bool, Fail> {
    let mut sink = SteadySink::new(alloc, piece.max(1));
    let sent = sends(&mut sink, TWO.as_bytes())?
        && sends(&mut sink, b"")?
        && sends(&mut sink, TWO.as_bytes())?;
    let both = filled(alloc, TWO, TWO, 1, "")?;
    Ok(sent && sink.written().as_slice() == both.as_slice())
}

/// The first numbers of failing writes where it is written otherwise.
fn wrong_writes(alloc: Global) -> Result<Option<&'static [u64]>, Fail> {
    for (failing, all, count) in failing_writes() {
        if !is_written(alloc, failing, *all, *count)? {
            return Ok(Some(*failing));
        }
    }
    Ok(None)
}

#[test]
fn responses_are_written(rt: HostRuntime) -> Result<(), Fail> {
    let alloc = rt.alloc();
    assert!(rt; is_linked(alloc)?);
    assert!(rt; is_no_memory_text(alloc, false)? && is_no_memory_text(alloc, true)?);
    assert_eq!(rt; wrong_writes(alloc)?, None);
    assert!(rt; is_written_twice(alloc, 1)? && is_written_twice(alloc, 100_000)?);
    Ok(())
}
