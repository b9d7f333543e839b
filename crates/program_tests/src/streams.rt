use crate::checks::{bytes_of, check, no_doors};
use connections::one_reply;
use conversation::cut_off_laws;
use serving_tests::{Ran, calls, no_files, words_of};
use sheet_engine::Sheets;
use sheets_cli::sheets_main;
use sheets_http::{MemorySink, MemorySource};
use std::alloc::Global;
use std::sync::Wait;
use std::thread::Threads;

/// A write and a read.
static REQUESTS: [&[u8]; 2] = [
    b"PUT /v4/spreadsheets/book1/values/Sheet1%21A1%3AB2?valueInputOption=RAW&alt=json HTTP/1.1\r\n\
Host: localhost\r\nAuthorization: Bearer owner\r\nContent-Length: 27\r\n\r\n{\"values\":[[1,\"x\"],[true]]}",
    b"GET /v4/spreadsheets/book1/values/Sheet1%21A1%3AB2 HTTP/1.1\r\n\
Host: localhost\r\nAuthorization: Bearer owner\r\n\r\n",
];

/// Their responses.
static RESPONSES: [&[u8]; 2] = [
    b"HTTP/1.1 200 OK\r\nContent-Type: application/json; charset=UTF-8\r\nContent-Length: 107\r\n\r\n\
{\"spreadsheetId\":\"book1\",\"updatedCells\":3,\"updatedColumns\":2,\
\"updatedRange\":\"Sheet1!A1:B2\",\"updatedRows\":2}",
    b"HTTP/1.1 200 OK\r\nContent-Type: application/json; charset=UTF-8\r\nContent-Length: 78\r\n\r\n\
{\"majorDimension\":\"ROWS\",\"range\":\"Sheet1!A1:B2\",\"values\":[[\"1\",\"x\"],[\"TRUE\"]]}",
];

/// Sizes of the pieces into which a conversation is cut.
static CUTS: [u64; 3] = [1, 16, 100_000];

/// The size of the pieces in which what fails is read and written.
const PIECE: u64 = 16;

/// The numbers of reads and of writes that fail go up to this one.
const MOST_CALLS: u64 = 60;

#[test]
fn answers_conversations_however_they_are_cut(rt: HostRuntime) {
    let whole = joined(rt.alloc(), &RESPONSES);
    for piece in &CUTS {
        let ran = run_requests(&rt, *piece, 0, 0);
        check(&rt, piece, ran.is(0, whole.as_slice(), b""));
    }
}

#[test]
fn ends_at_a_failed_read(rt: HostRuntime) {
    let needed = reads_needed();
    for number in 1..=MOST_CALLS {
        let ran = run_requests(&rt, PIECE, number, 0);
        check(
            &rt,
            &number,
            ends_at(&rt, &ran, number <= needed, 1, b"read fault\n"),
        );
    }
}

#[test]
fn ends_at_a_failed_write(rt: HostRuntime) {
    let needed = writes_needed();
    for number in 1..=MOST_CALLS {
        let ran = run_requests(&rt, PIECE, 0, number);
        check(
            &rt,
            &number,
            ends_at(&rt, &ran, number <= needed, 4, b"write fault\n"),
        );
    }
}

/// Runs the program on the requests, read and written in pieces of that size; the read and the write of these numbers
/// fail, counted from 1.
fn run_requests<R: AllocGlobal + Threads + Wait + Sync>(
    rt: &R,
    piece: u64,
    read: u64,
    write: u64,
) -> Ran {
    let alloc = rt.alloc();
    let words = words_of(alloc, &["run"]);
    let stream = joined(alloc, &REQUESTS);
    let stream = bytes_of(alloc, stream.as_slice());
    let mut input = MemorySource::new(stream, piece.max(1), calls(alloc, read));
    let mut output = MemorySink::new(alloc, piece.max(1), calls(alloc, write));
    let mut faults = MemorySink::new(alloc, piece.max(1), calls(alloc, 0));
    let status = sheets_main(
        rt,
        words.as_slice(),
        &mut input,
        &mut output,
        &mut faults,
        &mut no_files(alloc),
        &mut no_doors(alloc),
    );
    Ran {
        status,
        output,
        faults,
    }
}

/// The bytes of the parts, one after the other.
fn joined(alloc: Global, parts: &[&[u8]]) -> Vec<u8> {
    let mut bytes = Vec::new(alloc);
    for part in parts {
        let _ = bytes.extend_from_slice(part);
    }
    bytes
}

/// The least number of reads that tell all bytes of the requests, and then that they end.
fn reads_needed() -> u64 {
    pieces(REQUESTS[0].len().saturating_add(REQUESTS[1].len())).saturating_add(1)
}

/// The least number of writes of the two responses, of which the first is written before the second is made.
fn writes_needed() -> u64 {
    pieces(RESPONSES[0].len()).saturating_add(pieces(RESPONSES[1].len()))
}

/// How many pieces so many bytes are.
fn pieces(bytes: usize) -> u64 {
    u64::try_from(bytes).unwrap_or(u64::MAX).div_ceil(PIECE)
}

/// Whether the run was cut off with that status and that line, or, where the failing call isn't needed, is whole.
fn ends_at(rt: &HostRuntime, ran: &Ran, needed: bool, status: u8, faults: &[u8]) -> bool {
    let whole = joined(rt.alloc(), &RESPONSES);
    is_cut_off(ran, whole.as_slice(), status, faults)
        || (!needed && ran.is(0, whole.as_slice(), b""))
}

/// Whether a failed call ended the run with that status and that line, and what was written begins
/// what would have been.
fn is_cut_off(ran: &Ran, whole: &[u8], status: u8, faults: &[u8]) -> bool {
    ran.status == status
        && ran.faults.written().as_slice() == faults
        && whole.starts_with(ran.output.written().as_slice())
}

#[test]
fn calls_the_laws(_rt: HostRuntime) {
    one_reply::<Sheets>();
    cut_off_laws();
}
