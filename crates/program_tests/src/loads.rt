use crate::checks::{bytes_of, check, no_doors, text_of};
use cell_value::Items;
use folder::MemoryFolder;
use serving_tests::{Piece, Ran, TurnDoors, calls, words_of};
use sheets_cli::sheets_main;
use sheets_http::{MemorySink, MemorySource};
use std::alloc::Global;
use std::sync::Wait;
use std::thread::Threads;
use users_file::read_users;

/// A command over a file whose first read or load fails: its words, the file's name and its bytes; the status and the
/// line on the faults that it ends with.
type Failing = (
    &'static [&'static str],
    &'static str,
    &'static [u8],
    u8,
    &'static [u8],
);

const USERS: &[u8] = b"token,user\nt,ann\n";

/// A journal without entries.
const JOURNAL: &[u8] = b"SHEETJ01";

static FAILING: [Failing; 3] = [
    (&["run", "--users", "u"], "u", USERS, 1, b"read fault\n"),
    (
        &["replay", "--journal", "j"],
        "j",
        JOURNAL,
        7,
        b"unavailable\n",
    ),
    (
        &["serve", "--port", "1", "--limit", "1", "--journal", "j"],
        "j",
        JOURNAL,
        7,
        b"unavailable\n",
    ),
];

#[test]
fn names_a_load_that_fails(rt: HostRuntime) {
    for row in &FAILING {
        check(&rt, &row.0, ends_so(&rt, row));
    }
}

/// Whether the command ends so, nobody is let in, and the file stays as it was.
fn ends_so<R: AllocGlobal + Threads + Wait + Sync>(rt: &R, row: &Failing) -> bool {
    let alloc = rt.alloc();
    let asks = [Piece {
        after: 0,
        bytes: b"GET / HTTP/1.1\r\n\r\n",
    }];
    let mut doors = TurnDoors::of_many(alloc, 1, &asks).unwrap_or(no_doors(alloc));
    let mut folder = folder_of(alloc, row.1, row.2);
    run(rt, row.0, &mut folder, &mut doors).is(row.3, b"", row.4)
        && doors.back().is_empty()
        && folder.bytes_of(row.1) == Some(row.2)
}

/// Runs the program with these words over a folder and doors.
fn run<R: AllocGlobal + Threads + Wait + Sync>(
    rt: &R,
    words: &[&str],
    folder: &mut MemoryFolder,
    doors: &mut TurnDoors,
) -> Ran {
    let alloc = rt.alloc();
    let words = words_of(alloc, words);
    let mut input = MemorySource::new(bytes_of(alloc, b""), 100, calls(alloc, 0));
    let mut output = MemorySink::new(alloc, 100, calls(alloc, 0));
    let mut faults = MemorySink::new(alloc, 100, calls(alloc, 0));
    let status = sheets_main(
        rt,
        words.as_slice(),
        &mut input,
        &mut output,
        &mut faults,
        folder,
        doors,
    );
    Ran {
        status,
        output,
        faults,
    }
}

/// A folder with that file, whose first read or load fails; without it, where memory runs out.
fn folder_of(alloc: Global, name: &str, bytes: &[u8]) -> MemoryFolder {
    let mut files = Vec::new(alloc);
    let _ = files.push((text_of(alloc, name), bytes_of(alloc, bytes)));
    let mut names = Vec::new(alloc);
    let _ = names.push(text_of(alloc, name));
    MemoryFolder::new(Items::of(files), Items::of(names))
}

/// The numbers of a read of the table, in pieces of four bytes, and whether its failure loses the table: the sixth
/// read says that the table ends.
static READS: [(u64, bool); 4] = [(1, true), (2, true), (6, true), (7, false)];

#[test]
fn a_table_is_lost_where_a_read_fails(rt: HostRuntime) {
    for (number, lost) in &READS {
        check(&rt, number, is_lost(rt.alloc(), *number) == *lost);
    }
}

/// Whether the table isn't read where the read of that number fails.
fn is_lost(alloc: Global, number: u64) -> bool {
    let mut file = MemorySource::new(bytes_of(alloc, USERS), 4, calls(alloc, number));
    read_users(alloc, &mut file).is_err()
}
