ghost use Rattle.std.specs.Prelude.{◌≡◌, ◌⊎◌, ◌<◌, ◌≤◌, ◌+◌, ◌++◌, [], ◌∷◌, ℕ, List, length, IfOk, OnOk, OnErr, true};
ghost use Rattle.std.specs.Prelude.{false};
ghost use Rattle.std.specs.Vec.{vec_len, vec_capacity};
ghost use Rattle.journal_disk.specs.Disk.{Holds, most_bytes};
ghost use Rattle.cell_value.specs.Calls.{no_calls};
ghost use Rattle.journal_disk.specs.declared.calls.Call.TheVariants.{Write};
ghost use Rattle.journal_disk.specs.Recorded.{AllSound, state_after, empty};

use crate::Disk;
use crate::calls::Call;
use crate::outages::Outages;
use crate::replay::{Replay, write_over};
use cell_value::{Bytes, Failed, Items, NoMemory};
use std::alloc::Global;

/// The most bytes that an image has.
const MOST_BYTES: u64 = 1 << 62;

/// A disk in memory. It records all calls and what they wrote, and makes of that record each image
/// that a crash might leave.
#[derive(Drop)]
pub struct MemoryDisk {
    alloc: Global,
    bytes: Vec<u8>,
    calls: Vec<Call>,
    written: Vec<u8>,
    outages: Outages,
    ghost sound: { AllSound (length written.items) calls.items },
    ghost told: { bytes.items ≡ (state_after written.items empty calls.items).seen },
    ghost small: { length bytes.items ≤ most_bytes },
    ghost calls_fit: { (length calls.items ≤ outages.calls.made) × (outages.bounds.calls ≤ vec_capacity calls) },
    ghost bytes_fit: { (length bytes.items ≤ length written.items) × (outages.bounds.bytes ≤ vec_capacity bytes)
        × (outages.bounds.bytes ≤ vec_capacity written) },
}

impl MemoryDisk {
    ghost use Rattle.journal_disk.specs.Memory.{calls_of, bounds_of, written_to, is_too_long, MayBeLeft};

    /// An empty disk with room for a record of so many calls and of so many written bytes.
    ///
    /// The calls of the numbers in `failing` fail, counted from 1, from the call `stop` on every
    /// call, each past so many calls, and each write for whose bytes there is no room.
    ///
    /// # Errors
    ///
    /// [`NoMemory`] where there is no memory for the record.
    pub fn new(
        alloc: Global,
        calls: u64,
        bytes: u64,
        failing: Items<u64>,
        stop: Option<u64>,
    ) -> Result<MemoryDisk, NoMemory>
        ensures empty { IfOk result (λ disk. (disk.bytes.items ≡ []) × (disk.calls.items ≡ [])) }
        ensures calls { IfOk result (λ disk. calls_of disk ≡ no_calls failing) }
        ensures bounds { IfOk result (λ disk. bounds_of disk ≡ record { stop = stop; calls = calls; bytes = bytes }) }
        ensures written { IfOk result (λ disk. written_to disk ≡ 0) }
    {
        Ok(MemoryDisk {
            alloc,
            bytes: Vec::with_capacity(alloc, bytes as usize)?,
            calls: Vec::with_capacity(alloc, calls as usize)?,
            written: Vec::with_capacity(alloc, bytes as usize)?,
            outages: Outages::new(failing, stop, calls, bytes),
        })
    }

    /// The bytes that reads give.
    pub fn bytes(&self) -> &[u8]
        ensures { result.now ≡ self.now.bytes.items }
    {
        &self.bytes
    }

    /// The calls that were made, in order.
    pub fn calls(&self) -> &[Call]
        ensures { result.now ≡ self.now.calls.items }
    {
        &self.calls
    }

    /// One of the images that a crash may leave now. `pick`, of which the last six bits count, says
    /// which.
    ///
    /// With 0 nothing is left of the writes that aren't settled, and with 1 all of it. With 2, 3 and
    /// 4 their ranges are filled with 0, with 1 and with 255. With 5, 6 and 7 the size is the old one,
    /// and inside it all is left, or the ranges are filled with 1 or with 255. From 8 on one write
    /// alone is left: with 8 to 11 the first as it was written and filled with 0, with 1 and with 255,
    /// with 12 to 15 the second, and so on.
    ///
    /// # Errors
    ///
    /// [`NoMemory`] where memory runs out.
    pub fn image(&self, pick: u64) -> Result<Bytes, NoMemory>
        ensures { IfOk result (λ image. MayBeLeft self.now image) }
    {
        let mut replay = Replay::new(self.alloc);
        for call in &self.calls {
            replay.step(*call, &self.written, pick)?;
        }
        Ok(Bytes::of(replay.into_image()))
    }

    // Whether a write is of more bytes than the record has room for, or ends past 2^62.
    fn is_too_long(&self, at: u64, count: usize) -> bool
        ensures too_long { result ≡ is_too_long self.now at count }
        ensures end { result ≡ false → at + count ≤ most_bytes }
    {
        let room = self
            .outages
            .room_for_bytes()
            .saturating_sub(self.written.len() as u64);
        room < count as u64 || MOST_BYTES < at.saturating_add(count as u64)
    }
}

// Records a call, where the record isn't full.
fn note(full: bool, calls: &mut Vec<Call>, call: Call)
    requires { full ≡ false → vec_len calls.old < vec_capacity calls.old }
    ensures either { (calls.new.items ≡ calls.old.items) ⊎ (calls.new.items ≡ calls.old.items ++ call ∷ []) }
    ensures noted { full ≡ false → calls.new.items ≡ calls.old.items ++ call ∷ [] }
    ensures full { full ≡ true → calls.new.items ≡ calls.old.items }
    ensures room { vec_capacity calls.old ≤ vec_capacity calls.new }
{
    if !full {
        let _ = calls.push(call);
    }
}

// Records a write, for which there is room, and the bytes that it wrote.
fn note_write(calls: &mut Vec<Call>, written: &mut Vec<u8>, at: u64, bytes: &[u8], failed: bool)
    requires calls { vec_len calls.old < vec_capacity calls.old }
    requires written { vec_len written.old + length bytes.now ≤ vec_capacity written.old }
    ensures calls { calls.new.items ≡ calls.old.items
        ++ Write at (length written.old.items) (length bytes.now) failed ∷ [] }
    ensures written { written.new.items ≡ written.old.items ++ bytes.now }
    ensures room { (vec_capacity calls.old ≤ vec_capacity calls.new)
        × (vec_capacity written.old ≤ vec_capacity written.new) }
{
    let call = Call::Write {
        at,
        from: written.len() as u64,
        count: bytes.len() as u64,
        failed,
    };
    let _ = written.extend_from_slice(bytes);
    let _ = calls.push(call);
}

// Writes bytes over others, for which there is room, where that isn't to fail.
fn write_unless(failed: bool, bytes: &mut Vec<u8>, at: usize, with: &[u8])
    requires { vec_len bytes.old + length with.now ≤ vec_capacity bytes.old }
    ensures done { failed ≡ false → Holds bytes.old.items at with.now bytes.new.items }
    ensures failed { failed ≡ true → bytes.new.items ≡ bytes.old.items }
    ensures size { length bytes.new.items ≤ length bytes.old.items + length with.now }
    ensures room { vec_capacity bytes.old ≤ vec_capacity bytes.new }
{
    if !failed {
        let _ = write_over(bytes, at, with);
    }
}

impl Disk for MemoryDisk {
    ghost use Rattle.std.specs.Prelude.{◌-◌, take, drop, OnErr, IsErr, is_err};
    ghost use Rattle.journal_disk.specs.Disk.{Only, Follows, Torn, Elapses, RisesAtErr};
    ghost use Rattle.cell_value.specs.Calls.{after_call};
    ghost use Rattle.journal_disk.specs.Memory.{calls_of, bounds_of, written_to, fails, write_fails, MayBeLeft};
    ghost use Rattle.journal_disk.specs.Memory.{WasLeftSince};
    ghost use Rattle.journal_disk.specs.Laws.{seen_left, now_left, left_now};

    ghost seen = { λ disk. disk.bytes.items };

    ghost may_leave = { MayBeLeft };

    ghost moment = { λ disk. length disk.calls.items };

    ghost left_since = { WasLeftSince };

    ghost faults = { λ disk. disk.outages.calls.faults };

    ghost seen_is_image = { λ disk. seen_left disk.written.items disk.calls.items disk.bytes.items disk.told
        disk.small };

    ghost bounded = { λ disk image left. left.small };

    ghost counts_now = { λ disk t image le now. now_left disk.written.items disk.calls.items t image le now };

    ghost only_now = { λ disk image left. left_now disk.written.items disk.calls.items image left };

    /// It fails just where its number is one of those, or isn't before the stop, or where the record has no room for
    /// it.
    fn size(&mut self) -> Result<u64, Failed>
        ensures size { IfOk result (λ bytes. bytes ≡ length self.old.bytes.items) }
        ensures seen { self.new.bytes.items ≡ self.old.bytes.items }
        ensures crash { (image : List ℕ) → MayBeLeft self.new image → MayBeLeft self.old image }
        ensures time { Elapses (length self.old.calls.items) (length self.new.calls.items) (WasLeftSince self.old)
            (WasLeftSince self.new) (MayBeLeft self.new) }
        ensures cause { RisesAtErr self.old.outages.calls.faults self.new.outages.calls.faults result }
        ensures fails { is_err result ≡ fails self.old }
        ensures calls { calls_of self.new ≡ after_call (is_err result) (calls_of self.old) }
        ensures bounds { bounds_of self.new ≡ bounds_of self.old }
        ensures written { written_to self.new ≡ written_to self.old }
    {
        let failed = self.outages.next_fails();
        note(
            self.outages.is_full(),
            &mut self.calls,
            Call::Size { failed },
        );
        self.outages.answer(failed)?;
        Ok(self.bytes.len() as u64)
    }

    /// It fails just where [`MemoryDisk::size`] would.
    fn read(&mut self, at: u64, into: &mut [u8]) -> Result<usize, Failed>
        ensures count { IfOk result (λ count. (count ≤ length into.old) × (count ≤ length self.old.bytes.items - at)) }
        ensures bytes { IfOk result (λ count. into.new ≡ take count (drop at self.old.bytes.items)
            ++ drop count into.old) }
        ensures some { IfOk result (λ count. at < length self.old.bytes.items → 0 < length into.old → 0 < count) }
        ensures seen { self.new.bytes.items ≡ self.old.bytes.items }
        ensures crash { (image : List ℕ) → MayBeLeft self.new image → MayBeLeft self.old image }
        ensures time { Elapses (length self.old.calls.items) (length self.new.calls.items) (WasLeftSince self.old)
            (WasLeftSince self.new) (MayBeLeft self.new) }
        ensures cause { RisesAtErr self.old.outages.calls.faults self.new.outages.calls.faults result }
        ensures fails { is_err result ≡ fails self.old }
        ensures calls { calls_of self.new ≡ after_call (is_err result) (calls_of self.old) }
        ensures bounds { bounds_of self.new ≡ bounds_of self.old }
        ensures written { written_to self.new ≡ written_to self.old }
    {
        let failed = self.outages.next_fails();
        note(
            self.outages.is_full(),
            &mut self.calls,
            Call::Read { failed },
        );
        self.outages.answer(failed)?;
        let from = (at as usize).min(self.bytes.len());
        let count = into.len().min(self.bytes.len() - from);
        into[..count].copy_from_slice(&self.bytes[from..from + count]);
        Ok(count)
    }

    /// It fails just where [`MemoryDisk::size`] would, and where the record has no room for the bytes, or they end
    /// past 2^62 bytes.
    fn write(&mut self, at: u64, bytes: &[u8]) -> Result<(), Failed>
        requires { at ≤ length self.old.bytes.items }
        ensures written { OnOk result (Holds self.old.bytes.items at bytes.now self.new.bytes.items) }
        ensures partly { OnErr result ((count : ℕ)
            × Holds self.old.bytes.items at (take count bytes.now) self.new.bytes.items) }
        ensures too_large { most_bytes < at + length bytes.now → IsErr result
            × (self.new.bytes.items ≡ self.old.bytes.items)
            × ((image : List ℕ) → MayBeLeft self.new image → MayBeLeft self.old image) }
        ensures crash { Follows (Torn at (length bytes.now)) (MayBeLeft self.old) (MayBeLeft self.new) }
        ensures time { Elapses (length self.old.calls.items) (length self.new.calls.items) (WasLeftSince self.old)
            (WasLeftSince self.new) (MayBeLeft self.new) }
        ensures cause { RisesAtErr self.old.outages.calls.faults self.new.outages.calls.faults result }
        ensures fails { is_err result ≡ write_fails self.old at (length bytes.now) }
        ensures calls { calls_of self.new ≡ after_call (is_err result) (calls_of self.old) }
        ensures bounds { bounds_of self.new ≡ bounds_of self.old }
        ensures record { written_to self.new ≤ written_to self.old + length bytes.now }
    {
        let failed = self.outages.next_fails();
        if self.outages.is_full() || self.is_too_long(at, bytes.len()) {
            return self.outages.answer(true);
        }
        write_unless(failed, &mut self.bytes, at as usize, bytes);
        note_write(&mut self.calls, &mut self.written, at, bytes, failed);
        self.outages.answer(failed)
    }

    /// It fails just where [`MemoryDisk::size`] would.
    fn sync(&mut self) -> Result<(), Failed>
        ensures durable { OnOk result (Only self.old.bytes.items (MayBeLeft self.new)) }
        ensures seen { self.new.bytes.items ≡ self.old.bytes.items }
        ensures crash { (image : List ℕ) → MayBeLeft self.new image → MayBeLeft self.old image }
        ensures time { Elapses (length self.old.calls.items) (length self.new.calls.items) (WasLeftSince self.old)
            (WasLeftSince self.new) (MayBeLeft self.new) }
        ensures cause { RisesAtErr self.old.outages.calls.faults self.new.outages.calls.faults result }
        ensures fails { is_err result ≡ fails self.old }
        ensures calls { calls_of self.new ≡ after_call (is_err result) (calls_of self.old) }
        ensures bounds { bounds_of self.new ≡ bounds_of self.old }
        ensures written { written_to self.new ≡ written_to self.old }
    {
        let failed = self.outages.next_fails();
        note(
            self.outages.is_full(),
            &mut self.calls,
            Call::Sync { failed },
        );
        self.outages.answer(failed)
    }
}
