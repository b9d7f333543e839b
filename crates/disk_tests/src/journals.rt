use crate::common::check;
use cell_value::{Bytes, Items, NoMemory};
use journal_disk::{Call, Disk, DiskLog, LogFault, MemoryDisk};
use std::alloc::Global;

type Log = DiskLog<MemoryDisk>;

static PIECE: [u8; 144] = [7; 144];

/// An empty disk on which the calls of these numbers fail, counted from 1, with room for a record of 100
/// calls and 20,000 bytes.
fn disk(alloc: Global, failing: [u64; 2]) -> Option<MemoryDisk> {
    stopped_disk(alloc, failing, 100, None)
}

/// An empty disk that fails from a call on too, and has room for a record of so many.
fn stopped_disk(
    alloc: Global,
    failing: [u64; 2],
    calls: u64,
    stop: Option<u64>,
) -> Option<MemoryDisk> {
    match Vec::from_array(alloc, failing) {
        Ok(numbers) => MemoryDisk::new(alloc, calls, 20_000, Items::of(numbers), stop).ok(),
        Err(_) => None,
    }
}

/// The log on the disk, where it can be opened.
fn open(disk: MemoryDisk) -> Option<Log> {
    match DiskLog::open(disk) {
        Ok(log) => Some(log),
        Err(_) => None,
    }
}

/// The log on an empty disk.
fn open_empty(alloc: Global, failing: [u64; 2]) -> Option<Log> {
    match disk(alloc, failing) {
        Some(disk) => open(disk),
        None => None,
    }
}

/// Puts a piece behind the others, and tells whether it was acknowledged.
fn put(log: &mut Log, piece: &[u8]) -> bool {
    let at = log.length();
    log.put(at, piece).is_ok()
}

/// Writes bytes at the place, or at the end if that comes first, and tells whether they were written.
fn write(disk: &mut MemoryDisk, at: u64, bytes: &[u8]) -> bool {
    let size = disk.bytes().len() as u64;
    disk.write(size.min(at), bytes).is_ok()
}

fn sync(disk: &mut MemoryDisk) -> bool {
    disk.sync().is_ok()
}

/// The kept bytes, or the first of them, in the place of a byte.
fn load(alloc: Global, log: &mut Log, most: u64) -> Result<Bytes, LogFault> {
    let mut before = Vec::new(alloc);
    let _ = before.push(3u8);
    let mut kept = Bytes::of(before);
    match log.load(most, &mut kept) {
        Ok(()) => Ok(kept),
        Err(fault) => Err(fault),
    }
}

#[test]
fn puts_make_records(rt: HostRuntime) {
    check(&rt, &"record", is_laid_out(rt.alloc()));
    check(&rt, &"calls", makes_six_calls(rt.alloc()));
}

/// Whether an empty disk is opened with a byte 0, and a piece stands there behind its gate and its length.
fn is_laid_out(alloc: Global) -> bool {
    match open_empty(alloc, [0; 2]) {
        Some(log) => {
            let disk = log.close();
            disk.bytes() == [0].as_slice() && is_put(disk)
        }
        None => false,
    }
}

/// Whether the piece is kept on the disk, and is all that stands there.
fn is_put(disk: MemoryDisk) -> bool {
    match open(disk) {
        Some(mut log) => {
            log.length() == 0
                && put(&mut log, &PIECE)
                && log.length() == 144
                && is_record(log.close().bytes())
        }
        None => false,
    }
}

/// Whether the bytes are the record of the piece and a closed gate.
fn is_record(bytes: &[u8]) -> bool {
    bytes.len() == 154
        && bytes.starts_with(&[1, 0, 0, 0, 0, 0, 0, 0, 0x90])
        && bytes.get(9..153) == Some(PIECE.as_slice())
        && bytes.ends_with(&[0])
}

/// The place and the length of a write, or none of a sync.
static CALLS_OF_A_PUT: [Option<(u64, u64)>; 6] = [
    Some((1, 8)),
    Some((9, 144)),
    Some((153, 1)),
    None,
    Some((0, 1)),
    None,
];

/// Whether a put makes these calls behind the four that open an empty disk.
fn makes_six_calls(alloc: Global) -> bool {
    match open_empty(alloc, [0; 2]) {
        Some(mut log) => put(&mut log, &PIECE) && are_calls(log.close().calls()),
        None => false,
    }
}

fn are_calls(calls: &[Call]) -> bool {
    calls.len() == 10
        && calls
            .iter()
            .skip(4)
            .zip(&CALLS_OF_A_PUT)
            .all(|(made, wanted)| is_call(made, *wanted))
}

/// Whether a call that didn't fail is that write, or a sync.
fn is_call(made: &Call, wanted: Option<(u64, u64)>) -> bool {
    match *made {
        Call::Write { at, count, .. } => wanted == Some((at, count)),
        Call::Sync { failed } => wanted.is_none() && !failed,
        _ => false,
    }
}

/// The images of a disk with the settled bytes 7, 7 and 7, where 8, 8 and 8 were written from place 1
/// on, and 9 from place 4 on.
static IMAGES: [(u64, &[u8]); 16] = [
    (0, &[7, 7, 7]),
    (1, &[7, 8, 8, 8, 9]),
    (2, &[7, 0, 0, 0, 0]),
    (3, &[7, 1, 1, 1, 1]),
    (4, &[7, 255, 255, 255, 255]),
    (5, &[7, 8, 8]),
    (6, &[7, 1, 1]),
    (7, &[7, 255, 255]),
    (8, &[7, 8, 8, 8]),
    (9, &[7, 0, 0, 0]),
    (10, &[7, 1, 1, 1]),
    (11, &[7, 255, 255, 255]),
    (12, &[7, 7, 7, 0, 9]),
    (13, &[7, 7, 7, 0, 0]),
    (14, &[7, 7, 7, 0, 1]),
    (63, &[7, 7, 7]),
];

#[test]
fn images_are_torn(rt: HostRuntime) {
    let disk = torn_disk(rt.alloc());
    for row in &IMAGES {
        check(&rt, &row.0, is_image(&disk, row.0, row.1));
    }
}

/// The disk of which these are the images.
fn torn_disk(alloc: Global) -> Option<MemoryDisk> {
    match disk(alloc, [0; 2]) {
        Some(mut disk) => {
            let settled = write(&mut disk, 0, &[7, 7, 7]) && sync(&mut disk);
            let torn = write(&mut disk, 1, &[8, 8, 8]) && write(&mut disk, 4, &[9]);
            if settled && torn { Some(disk) } else { None }
        }
        None => None,
    }
}

/// Whether the disk has that image.
fn is_image(disk: &Option<MemoryDisk>, pick: u64, image: &[u8]) -> bool {
    match disk {
        Some(disk) => match disk.image(pick) {
            Ok(bytes) => bytes.as_slice() == image,
            Err(NoMemory) => false,
        },
        None => false,
    }
}

/// A put behind one that failed at its last sync begins with the gate's 0 and a sync. The puts are of
/// 144, 10 and 20 bytes, and no call has the number 0: the calls that fail, the number of puts, and the
/// number of bytes that are kept then.
static FAILED_PUTS: [(&str, [u64; 2], usize, Option<u64>); 6] = [
    ("nothing fails", [0, 0], 2, Some(154)),
    ("the first sync of opening", [1, 0], 1, None),
    ("the first sync of a put", [8, 0], 1, Some(0)),
    ("the last sync of a put", [10, 0], 2, Some(10)),
    ("and the sync of the gate's 0", [10, 12], 3, Some(20)),
    ("the last sync alone", [10, 0], 1, Some(144)),
];

static PIECES: [&[u8]; 3] = [&[7; 144], &[7; 10], &[7; 20]];

#[test]
fn failed_puts_are_shut_out(rt: HostRuntime) {
    for row in &FAILED_PUTS {
        check(&rt, &row.0, kept_after(rt.alloc(), row.1, row.2) == row.3);
    }
}

/// How many bytes are kept when the log is opened again, or none where it couldn't be opened.
fn kept_after(alloc: Global, failing: [u64; 2], puts: usize) -> Option<u64> {
    match open_empty(alloc, failing) {
        Some(log) => match open(after_puts(log, puts)) {
            Some(again) => Some(again.length()),
            None => None,
        },
        None => None,
    }
}

fn after_puts(log: Log, puts: usize) -> MemoryDisk {
    let mut log = log;
    for piece in PIECES.iter().take(puts) {
        let _ = put(&mut log, *piece);
    }
    log.close()
}

static SCRIPT: [&[u8]; 5] = [
    &[1, 1, 1],
    &[2, 0, 0, 0, 0, 0, 0, 0, 3, 1],
    &[3],
    &[1, 0, 0, 0, 0, 0, 0, 0, 1, 9, 9, 0],
    &[5, 5, 5, 5, 5],
];

/// The second of five puts fails at its last sync, call 16, so that the third begins with the gate's 0;
/// the third fails at its first sync, call 22: first and last call at which it stops, the bytes that
/// are kept, and the piece that may stand behind them.
static STOPS: [(u64, u64, &[u8], &[u8]); 9] = [
    (1, 8, &[], &[]),
    (9, 10, &[], &[1, 1, 1]),
    (11, 14, &[1, 1, 1], &[]),
    (15, 18, &[1, 1, 1], &[2, 0, 0, 0, 0, 0, 0, 0, 3, 1]),
    (19, 26, &[1, 1, 1], &[]),
    (27, 28, &[1, 1, 1], &[1, 0, 0, 0, 0, 0, 0, 0, 1, 9, 9, 0]),
    (29, 32, &[1, 1, 1, 1, 0, 0, 0, 0, 0, 0, 0, 1, 9, 9, 0], &[]),
    (
        33,
        34,
        &[1, 1, 1, 1, 0, 0, 0, 0, 0, 0, 0, 1, 9, 9, 0],
        &[5, 5, 5, 5, 5],
    ),
    (
        35,
        35,
        &[1, 1, 1, 1, 0, 0, 0, 0, 0, 0, 0, 1, 9, 9, 0, 5, 5, 5, 5, 5],
        &[],
    ),
];

#[test]
fn crashes_keep_what_was_acknowledged(rt: HostRuntime) {
    for row in &STOPS {
        for stop in row.0..=row.1 {
            check(&rt, &stop, is_kept(rt.alloc(), stop, row.2, row.3));
        }
    }
}

/// Whether the images of a disk that stopped there have these kept bytes or these with the piece, and no
/// others.
fn is_kept(alloc: Global, stop: u64, kept: &[u8], piece: &[u8]) -> bool {
    match stopped_disk(alloc, [16, 22], stop, Some(stop)) {
        Some(disk) => {
            let disk = after_script(disk);
            found_in(alloc, &disk, kept, piece) == (true, !piece.is_empty(), false)
        }
        None => false,
    }
}

/// The disk after the script's puts.
fn after_script(disk: MemoryDisk) -> MemoryDisk {
    match DiskLog::open(disk) {
        Ok(log) => after_pieces(log),
        Err((_, disk)) => disk,
    }
}

fn after_pieces(log: Log) -> MemoryDisk {
    let mut log = log;
    for piece in &SCRIPT {
        let _ = put(&mut log, *piece);
    }
    log.close()
}

/// What an image keeps.
#[derive(Clone, Copy)]
enum Held {
    Kept,
    WithPiece,
    Other,
}

/// Whether one of the images 0 to 63 has these kept bytes, these with a piece behind them, or others.
fn found_in(alloc: Global, disk: &MemoryDisk, kept: &[u8], piece: &[u8]) -> (bool, bool, bool) {
    let mut found = (false, false, false);
    for pick in 0..64 {
        match held_at(alloc, disk, pick, kept, piece) {
            Held::Kept => found.0 = true,
            Held::WithPiece => found.1 = true,
            Held::Other => found.2 = true,
        }
    }
    found
}

fn held_at(alloc: Global, disk: &MemoryDisk, pick: u64, kept: &[u8], piece: &[u8]) -> Held {
    match disk.image(pick) {
        Ok(image) => match kept_in(alloc, image.as_slice()) {
            Some(bytes) => compare(bytes.as_slice(), kept, piece),
            None => Held::Other,
        },
        Err(NoMemory) => Held::Other,
    }
}

fn compare(bytes: &[u8], kept: &[u8], piece: &[u8]) -> Held {
    if bytes == kept {
        return Held::Kept;
    }
    match bytes.strip_prefix(kept) {
        Some(behind) if behind == piece => Held::WithPiece,
        _ => Held::Other,
    }
}

/// The kept bytes of an image, or none where it couldn't be opened.
fn kept_in(alloc: Global, image: &[u8]) -> Option<Bytes> {
    match disk_with(alloc, image) {
        Some(disk) => match open(disk) {
            Some(mut log) => load(alloc, &mut log, u64::MAX).ok(),
            None => None,
        },
        None => None,
    }
}

/// A disk with these bytes.
fn disk_with(alloc: Global, image: &[u8]) -> Option<MemoryDisk> {
    match disk(alloc, [0; 2]) {
        Some(mut disk) => {
            if write(&mut disk, 0, image) && sync(&mut disk) {
                Some(disk)
            } else {
                None
            }
        }
        None => None,
    }
}

static LONG: [u8; 5000] = [9; 5000];

/// How many bytes are asked for, and how many there are.
static LOADS: [(u64, usize); 8] = [
    (0, 0),
    (1, 1),
    (144, 144),
    (145, 145),
    (4241, 4241),
    (5143, 5143),
    (5144, 5144),
    (u64::MAX, 5144),
];

#[test]
fn loads_give_the_pieces(rt: HostRuntime) {
    for row in &LOADS {
        check(&rt, row, is_loaded(rt.alloc(), row.0, row.1));
    }
    check(&rt, &"fault", fails_to_load(rt.alloc()));
}

/// Whether a load gives the pieces joined, or so many of their first bytes.
fn is_loaded(alloc: Global, most: u64, count: usize) -> bool {
    match three_pieces(alloc) {
        Some(mut log) => match load(alloc, &mut log, most) {
            Ok(kept) => is_front(kept.as_slice(), count),
            Err(_) => false,
        },
        None => false,
    }
}

fn three_pieces(alloc: Global) -> Option<Log> {
    match open_empty(alloc, [0; 2]) {
        Some(mut log) => {
            if put(&mut log, &PIECE) && put(&mut log, &[]) && put(&mut log, &LONG) {
                Some(log)
            } else {
                None
            }
        }
        None => None,
    }
}

/// Whether these are so many bytes, those of the first piece first.
fn is_front(bytes: &[u8], count: usize) -> bool {
    bytes.len() == count
        && bytes
            .iter()
            .enumerate()
            .all(|(at, byte)| *byte == byte_at(at))
}

fn byte_at(at: usize) -> u8 {
    if at < 144 { 7 } else { 9 }
}

/// Whether the second load of a piece tells that the disk failed, and the others give the piece: each reads
/// the size, then the gate, the length and the piece. An empty disk is opened by calls 1 to 4, and a put
/// makes six.
fn fails_to_load(alloc: Global) -> bool {
    match open_empty(alloc, [15, 0]) {
        Some(mut log) => {
            put(&mut log, &PIECE)
                && load_is(alloc, &mut log, Ok(144))
                && load_is(alloc, &mut log, Err(LogFault::Failed))
                && load_is(alloc, &mut log, Ok(144))
        }
        None => false,
    }
}

/// Whether a load gives so many bytes, or the fault.
fn load_is(alloc: Global, log: &mut Log, expected: Result<usize, LogFault>) -> bool {
    match load(alloc, log, u64::MAX) {
        Ok(kept) => expected == Ok(kept.as_slice().len()) && is_front(kept.as_slice(), 144),
        Err(fault) => expected == Err(fault),
    }
}

#[test]
fn a_fault_is_printed(rt: HostRuntime) {
    check(&rt, &"fault", is_printed(rt.alloc(), "the disk failed"));
}

fn is_printed(alloc: Global, wanted: &str) -> bool {
    match format!(in alloc; "{}", LogFault::Failed) {
        Ok(text) => text.as_str() == wanted,
        Err(_) => false,
    }
}
