// What a crash may leave of a disk in memory, made from the record of its calls.
ghost use Rattle.std.specs.Prelude.{◌≡◌, ◌≤◌, ◌+◌, ◌-◌, ◌++◌, [], ℕ, List, length, take, drop, OnOk, OnErr};
ghost use Rattle.std.specs.Prelude.{IsOk, true, false};
ghost use Rattle.std.specs.Vec.{vec_len, vec_capacity};
ghost use Rattle.journal_disk.specs.Disk.{Holds, Torn, most_bytes};
ghost use Rattle.journal_disk.specs.Recorded.{DiskState, empty, state_after_call, bytes_end, place_end, IsReplayed};

use crate::calls::Call;
use std::alloc::{AllocError, Global};

/// What reads give after some calls, and an image that a crash may leave there.
#[derive(Drop)]
pub struct Replay {
    seen: Vec<u8>,
    image: Vec<u8>,
    settled: usize,
    unsettled: u64,
}

impl Replay {
    /// Before the first call.
    pub fn new(alloc: Global) -> Replay
        ensures { IsReplayed empty result.seen.items result.image.items }
    {
        Replay {
            seen: Vec::new(alloc),
            image: Vec::new(alloc),
            settled: 0,
            unsettled: 0,
        }
    }

    /// The image.
    pub fn into_image(self) -> Vec<u8>
        ensures { result.items ≡ self.image.items }
    {
        self.image
    }

    /// Goes on by one call. `written` are all bytes that were written.
    pub fn step(&mut self, call: Call, written: &[u8], pick: u64) -> Result<(), AllocError>
        requires bytes { bytes_end call ≤ length written.now }
        requires place { place_end call ≤ most_bytes }
        ensures { OnOk result ((held : DiskState) → IsReplayed held self.old.seen.items self.old.image.items
            → IsReplayed (state_after_call written.now held call) self.new.seen.items self.new.image.items) }
    {
        match call {
            Call::Write {
                at,
                from,
                count,
                failed,
            } => {
                let bytes = &written[from as usize..(from + count) as usize];
                self.write(at as usize, bytes, failed, pick)
            }
            Call::Sync { failed: false } => self.settle(),
            _ => Ok(()),
        }
    }

    // Leaves of a write what is picked, and all in what reads give, unless it failed.
    fn write(&mut self, at: usize, bytes: &[u8], failed: bool, pick: u64) -> Result<(), AllocError>
        requires { at + length bytes.now ≤ most_bytes }
        ensures torn { OnOk result (Torn at (length bytes.now) self.old.image.items self.new.image.items) }
        ensures failed { OnOk result (failed ≡ true → self.new.seen.items ≡ self.old.seen.items) }
        ensures done { OnOk result (failed ≡ false → Holds self.old.seen.items at bytes.now self.new.seen.items) }
    {
        let limit = limit_of(pick, self.unsettled, self.settled);
        self.unsettled = self.unsettled.saturating_add(1);
        lay(&mut self.image, at, bytes, filler_of(pick), limit)?;
        if failed {
            return Ok(());
        }
        write_over(&mut self.seen, at, bytes)
    }

    // The image is what reads give.
    fn settle(&mut self) -> Result<(), AllocError>
        ensures image { OnOk result (self.new.image.items ≡ self.old.seen.items) }
        ensures seen { self.new.seen.items ≡ self.old.seen.items }
    {
        self.image.clear();
        self.settled = self.seen.len();
        self.unsettled = 0;
        self.image.extend_from_slice(&self.seen)
    }
}

// The byte that a pick fills ranges with, or none where they are left as they were written.
fn filler_of(pick: u64) -> Option<u8> {
    let row = pick % 64;
    let column = if row < 8 { row } else { 8 + row % 4 };
    match column {
        2 | 9 => Some(0),
        3 | 6 | 10 => Some(1),
        4 | 7 | 11 => Some(255),
        _ => None,
    }
}

// Up to where a pick leaves something of the write of this number since the last sync, counted from
// 0, where so many bytes were settled.
fn limit_of(pick: u64, number: u64, settled: usize) -> usize {
    match pick % 64 {
        0 => 0,
        1..5 => usize::MAX,
        5..8 => settled,
        row => {
            if (row - 8) / 4 == number {
                usize::MAX
            } else {
                0
            }
        }
    }
}

// Writes bytes, or a filler in their place, from a place on and below a limit.
fn lay(
    image: &mut Vec<u8>,
    at: usize,
    bytes: &[u8],
    filler: Option<u8>,
    limit: usize,
) -> Result<(), AllocError>
    requires { at + length bytes.now ≤ most_bytes }
    ensures { OnOk result (Torn at (length bytes.now) image.old.items image.new.items) }
{
    let end = (at + bytes.len()).min(limit);
    if end <= at {
        return Ok(());
    }
    grow(image, end)?;
    fill_range(image, at, end, bytes, filler);
    Ok(())
}

// Makes an image at least so long.
fn grow(image: &mut Vec<u8>, size: usize) -> Result<(), AllocError>
    ensures torn { OnOk result ((at count : ℕ) → size ≤ at + count → Torn at count image.old.items image.new.items) }
    ensures long { OnOk result (size ≤ length image.new.items) }
{
    if image.len() < size {
        image.resize(size, 0)?;
    }
    Ok(())
}

// Fills a range of an image.
fn fill_range(image: &mut Vec<u8>, at: usize, end: usize, bytes: &[u8], filler: Option<u8>)
    requires order { at ≤ end }
    requires within { end ≤ length image.old.items }
    requires enough { end - at ≤ length bytes.now }
    ensures { (part : List ℕ) × (length part ≡ end - at)
        × (image.new.items ≡ take at image.old.items ++ part ++ drop end image.old.items) }
{
    fill(&mut image[at..end], bytes, filler);
}

// Fills a part with a byte, or with the first of these bytes.
fn fill(part: &mut [u8], bytes: &[u8], filler: Option<u8>)
    requires { length part.old ≤ length bytes.now }
{
    match filler {
        Some(byte) => part.fill(byte),
        None => part.copy_from_slice(&bytes[..part.len()]),
    }
}

/// Writes bytes over others from a place on, and behind the last.
pub fn write_over(bytes: &mut Vec<u8>, at: usize, with: &[u8]) -> Result<(), AllocError>
    ensures ok { OnOk result (Holds bytes.old.items at with.now bytes.new.items) }
    ensures err { OnErr result (bytes.new.items ≡ bytes.old.items) }
    ensures fits { vec_len bytes.old + length with.now ≤ vec_capacity bytes.old → IsOk result }
    ensures size { length bytes.new.items ≤ length bytes.old.items + length with.now }
    ensures room { vec_capacity bytes.old ≤ vec_capacity bytes.new }
{
    let at = at.min(bytes.len());
    let inside = with.len().min(bytes.len() - at);
    bytes.extend_from_slice(&with[inside..])?;
    bytes[at..at + inside].copy_from_slice(&with[..inside]);
    Ok(())
}
