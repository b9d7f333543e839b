ghost use Rattle.std.specs.Prelude.{◌≡◌, [], IfSome};

use crate::checks::{bytes_of, check};
use cell_value::{Bytes, Items, NoMemory};
use connections::{Doors, MemoryDoors};
use serving_tests::{Piece, Ran, TurnDoors, TurnLink, calls, no_files, words_of};
use sheets_cli::sheets_main;
use sheets_http::{MemorySink, MemorySource};
use std::alloc::{AllocError, Global};
use std::sync::atomic::{AtomicU64, Ordering};
use std::sync::{Arc, Wait};
use std::test::Fail;
use std::thread::Threads;

/// A connection that writes a cell at once.
static ASKS: [Piece; 1] = [Piece {
    after: 0,
    bytes: b"PUT /v4/spreadsheets/book1/values/A2?valueInputOption=RAW HTTP/1.1\r\nAuthorization: Bearer bo\r\n\
Content-Length: 18\r\n\r\n{\"values\":[[\"x\"]]}",
}];

/// What the history results in where both connections write that one cell: their entries have 20 bytes each, those of
/// user, target and body, 2, 57 and 18, and stand after the journal's first 8.
const TOLD_TWICE: &[u8] = b"accepted 2\ncells 1\nhistory 202\n";
/// How the program ends that serves two connections in memory, each of which writes that cell.
#[derive(Debug)]
struct Failing {
    /// The call of the doors that fails, counted from 1, where they are opened and then asked for two connections.
    call: u64,
    /// The write on the faults that fails.
    fault: u64,
    status: u8,
    told: &'static [u8],
    line: &'static [u8],
    /// How many responses each connection has.
    answered: (u64, u64),
}

static FAILING: [Failing; 6] = [
    Failing {
        call: 0,
        fault: 0,
        status: 0,
        told: TOLD_TWICE,
        line: b"",
        answered: (1, 1),
    },
    Failing {
        call: 1,
        fault: 0,
        status: 1,
        told: b"",
        line: b"read fault\n",
        answered: (0, 0),
    },
    Failing {
        call: 1,
        fault: 1,
        status: 1,
        told: b"",
        line: b"",
        answered: (0, 0),
    },
    Failing {
        call: 2,
        fault: 0,
        status: 1,
        told: b"",
        line: b"read fault\n",
        answered: (0, 0),
    },
    Failing {
        call: 3,
        fault: 0,
        status: 1,
        told: b"",
        line: b"read fault\n",
        answered: (1, 0),
    },
    Failing {
        call: 4,
        fault: 0,
        status: 0,
        told: TOLD_TWICE,
        line: b"",
        answered: (1, 1),
    },
];

/// Doors with one link that holds nothing.
fn one_door(alloc: Global) -> Result<TurnDoors, AllocError> {
    TurnDoors::of_many(alloc, 1, &[])
}

/// Runs the server for so many connections; the write of the output and that on the faults of these numbers fail,
/// counted from 1.
fn serve<R: AllocGlobal + Threads + Wait + Sync, D: Doors + Send>(
    rt: &R,
    doors: &mut D,
    limit: &str,
    write: u64,
    fault: u64,
) -> Ran
    requires { IfSome (D.shown doors.old) (λ shown. shown.connections ≡ []) }
{
    let alloc = rt.alloc();
    let words = words_of(alloc, &["serve", "--port", "8080", "--limit", limit]);
    let mut input = MemorySource::new(bytes_of(alloc, b""), 1, calls(alloc, 1));
    let mut output = MemorySink::new(alloc, 100, calls(alloc, write));
    let mut faults = MemorySink::new(alloc, 100, calls(alloc, fault));
    let status = sheets_main(
        rt,
        words.as_slice(),
        &mut input,
        &mut output,
        &mut faults,
        &mut no_files(alloc),
        doors,
    );
    Ran {
        status,
        output,
        faults,
    }
}

/// Whether it ends so; not, where memory runs out.
fn ends_so<R: AllocGlobal + Threads + Wait + Sync>(rt: &R, row: &Failing) -> bool {
    match serve_two(rt, row.call, row.fault) {
        Ok((ran, answered)) => {
            ran.is(row.status, row.told, row.line) && answered == row.answered
        }
        Err(AllocError) => false,
    }
}

/// Serves two connections in memory; the call of the doors and the write on the faults of these numbers fail. Answers
/// how many responses each connection has, too.
fn serve_two<R: AllocGlobal + Threads + Wait + Sync>(
    rt: &R,
    call: u64,
    fault: u64,
) -> Result<(Ran, (u64, u64)), AllocError> {
    let alloc = rt.alloc();
    let first = Arc::new(alloc, AtomicU64::new(0))?;
    let second = Arc::new(alloc, AtomicU64::new(0))?;
    let links = vec![in alloc;
        (
            TurnLink::new(alloc, &ASKS, &first, &first)?,
            Bytes::of(Vec::new(alloc))
        ),
        (
            TurnLink::new(alloc, &ASKS, &second, &second)?,
            Bytes::of(Vec::new(alloc))
        ),
    ]?;
    match MemoryDoors::new(alloc, Items::of(links), calls(alloc, call)) {
        Ok(mut doors) => {
            let ran = serve(rt, &mut doors, "2", 0, fault);
            Ok((
                ran,
                (first.load(Ordering::SeqCst), second.load(Ordering::SeqCst)),
            ))
        }
        Err(NoMemory) => Err(AllocError),
    }
}

#[test]
fn a_call_of_the_doors_fails(rt: HostRuntime) {
    for row in &FAILING {
        check(&rt, row, ends_so(&rt, row));
    }
}

#[test]
fn tells_where_the_output_fails(rt: HostRuntime) -> Result<(), Fail> {
    let mut doors = one_door(rt.alloc())?;
    let ran = serve(&rt, &mut doors, "1", 1, 0);
    check(&rt, &"failed", ran.is(4, b"", b"write fault\n"));
    Ok(())
}
