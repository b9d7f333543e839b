ghost use Rattle.std.specs.Prelude.{◌≡◌, ◌≢◌, ℕ, ◌+◌, ◌-◌, ◌^◌, ◌<◌, ◌≤◌, List, [], ◌++◌, length, take, drop, slice_range, vec_len, IfOk, OnOk, OnErr, IfSome};
ghost use Rattle.std.specs.Option.{option_map};
ghost use Rattle.cell_value.specs.FaultCount.{Rose, StaysSteady};
ghost use Rattle.sheets_http.specs.Requests.{stream_of};
ghost use Rattle.sheets_http.specs.Buffering.{IsScanned};

use crate::Source;
use crate::scan::HeadScan;
use crate::scanned::{Scanned, scan_on};
use cell_value::NoMemory;
use std::alloc::Global;
use std::marker::Model;

/// How many bytes are read at once.
const PIECE: usize = 8_192;

/// The bytes of a stream that were read and not used yet. Contracts see these, and how many bytes
/// of the stream were used before them.
///
/// They stand from `start` to `end`, and behind them is room.
#[derive(Debug, Drop)]
pub struct Buffer {
    bytes: Vec<u8>,
    start: usize,
    end: usize,
    used: u64,
    scan: HeadScan,
}

impl Model for Buffer {
    ghost use Rattle.std.specs.Prelude.{◌≤◌, take, drop, vec_len};
    ghost use Rattle.sheets_http.specs.Requests.{Buffered};
    ghost use Rattle.sheets_http.specs.Buffering.{IsReady};

    ghost Value = { Buffered };

    ghost view = { λ b. record { pending = drop b.start (take b.end b.bytes.items); used = b.used } };

    ghost invariant = { λ b. (b.start ≤ b.end) × (b.end ≤ vec_len b.bytes)
        × IsReady b.scan (drop b.start (take b.end b.bytes.items)) };
}

/// Why no more bytes were read.
#[derive(Clone, Copy, Debug, PartialEq, Eq)]
pub(crate) enum FillError {
    Failed,
    NoMemory,
}

impl Buffer {
    /// A buffer at the start of a stream, of which nothing was read yet.
    ///
    /// # Errors
    ///
    /// [`NoMemory`] where there is no room for what a read gives.
    pub fn new(alloc: Global) -> Result<Buffer, NoMemory>
        ensures { IfOk result (λ buffer. buffer ≡ record { pending = []; used = 0 }) }
    {
        Ok(Buffer {
            bytes: Vec::with_capacity(alloc, PIECE)?,
            start: 0,
            end: 0,
            used: 0,
            scan: HeadScan::START,
        })
    }

    /// The bytes that are held.
    pub(crate) fn pending(&self) -> &[u8]
        ensures { result.now ≡ self.now.pending }
    {
        &self.bytes[self.start..self.end]
    }

    /// How many bytes of the stream were used.
    pub(crate) fn used(&self) -> u64
        ensures { result ≡ self.now.used }
    {
        self.used
    }

    /// Looks for a head in the first `room` bytes that are held.
    pub(crate) fn scan_head(&mut self, alloc: Global, room: u64) -> Result<Scanned, NoMemory>
        ensures same { self.new ≡ self.old }
        ensures scanned { IsScanned (take room self.old.pending) result }
    {
        scan_on(
            alloc,
            &mut self.scan,
            &self.bytes[self.start..self.end],
            room,
        )
    }

    /// Uses the first bytes that are held.
    pub(crate) fn advance(&mut self, count: usize)
        requires held { count ≤ length self.old.pending }
        requires fits { self.old.used + count < 2 ^ 64 }
        ensures { self.new ≡ record {
          pending = drop count self.old.pending;
          used = self.old.used + count;
        } }
    {
        self.start += count;
        self.used += count as u64;
        self.scan = HeadScan::START;
    }

    /// Reads more bytes, and answers how many: 0 at the end of the stream.
    pub(crate) fn fill<S: Source>(&mut self, source: &mut S) -> Result<usize, FillError>
        ensures used { self.new.used ≡ self.old.used }
        ensures stream { stream_of self.old (S.left source.old) ≡ stream_of self.new (S.left source.new) }
        ensures grown { IfOk result (λ count. length self.new.pending ≡ length self.old.pending + count) }
        ensures kept { take (length self.old.pending) self.new.pending ≡ self.old.pending }
        ensures err { OnErr result (self.new.pending ≡ self.old.pending) }
        ensures end { result ≡ Ok 0 → self.new.pending ≡ self.old.pending }
        ensures no_more { result ≡ Ok 0 → IfSome (S.left source.new) (λ rest. rest ≡ []) }
        ensures fault { result ≡ Err FillError.Failed → Rose (S.faults source.old) (S.faults source.new) }
        ensures later { S.faults source.old ≤ S.faults source.new }
        ensures steady { StaysSteady (S.steady source.old) (S.steady source.new) (S.faults source.old)
            (S.faults source.new) }
        ensures beside { S.beside source.new ≡ S.beside source.old }
    {
        self.compact();
        let count = read_behind(source, &mut self.bytes, self.end)?;
        self.end += count;
        Ok(count)
    }

    /// Moves the bytes that are held to the front.
    fn compact(&mut self)
        ensures { self.new ≡ self.old }
    {
        if self.start > 0 {
            self.bytes.copy_within(self.start..self.end, 0);
            self.end -= self.start;
            self.start = 0;
        }
    }
}

/// Reads more bytes behind the first `held`, and answers how many.
fn read_behind<S: Source>(
    source: &mut S,
    bytes: &mut Vec<u8>,
    held: usize,
) -> Result<usize, FillError>
    requires { held ≤ vec_len bytes.old }
    ensures long { held ≤ vec_len bytes.new }
    ensures grown { IfOk result (λ count. held + count ≤ vec_len bytes.new) }
    ensures kept { IfOk result (λ count. take (held + count) bytes.new.items
        ≡ take held bytes.old.items ++ slice_range bytes.new.items held (held + count)) }
    ensures given { IfOk result (λ count. S.left source.old
        ≡ option_map (λ rest. slice_range bytes.new.items held (held + count) ++ rest) (S.left source.new)) }
    ensures err { OnErr result (take held bytes.new.items ≡ take held bytes.old.items) }
    ensures err_left { OnErr result (S.left source.old ≡ S.left source.new) }
    ensures no_more { result ≡ Ok 0 → IfSome (S.left source.new) (λ rest. rest ≡ []) }
    ensures fault { result ≡ Err FillError.Failed → Rose (S.faults source.old) (S.faults source.new) }
    ensures later { S.faults source.old ≤ S.faults source.new }
    ensures steady { StaysSteady (S.steady source.old) (S.steady source.new) (S.faults source.old)
        (S.faults source.new) }
    ensures beside { S.beside source.new ≡ S.beside source.old }
{
    let room = held + PIECE;
    let Ok(()) = make_room(bytes, room) else {
        return Err(FillError::NoMemory);
    };
    match source.read(&mut bytes[held..room]) {
        Ok(count) => Ok(count),
        Err(_) => Err(FillError::Failed),
    }
}

/// Makes the bytes as many as `room`, where they are fewer.
fn make_room(bytes: &mut Vec<u8>, room: usize) -> Result<(), NoMemory>
    ensures long { OnOk result (room ≤ vec_len bytes.new) }
    ensures grown { vec_len bytes.old ≤ vec_len bytes.new }
    ensures kept { take (vec_len bytes.old) bytes.new.items ≡ bytes.old.items }
{
    if bytes.len() < room {
        bytes.resize(room, 0)?;
    }
    Ok(())
}
