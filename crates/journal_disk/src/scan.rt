ghost use Rattle.std.specs.Prelude.{◌≡◌, ◌<◌, ◌≤◌, ◌+◌, ◌^◌, ◌++◌, ◌∷◌, List, ℕ, length, take, drop, OnOk, IfOk};
ghost use Rattle.std.specs.Prelude.{MatchOption, IfSome};
ghost use Rattle.journal_disk.specs.Disk.{OnlyRead, RisesAtErr};
ghost use Rattle.journal_disk.specs.Records.{IsRecord, NoRecord, IsFront};

use crate::Disk;
use cell_value::Failed;

/// Where the records of an image end, and how many bytes their pieces have.
#[derive(Clone, Copy, Drop)]
pub struct Ending {
    pub place: u64,
    pub held: u64,
}

/// Goes over the records from the first byte on.
pub fn find_ending<D: Disk>(disk: &mut D, size: u64) -> Result<Ending, Failed>
    requires size { size ≡ length (D.seen disk.old) }
    requires some { 0 < size }
    ensures front { IfOk result (λ ending. IsFront (D.seen disk.old) ending.place ending.held) }
    ensures within { IfOk result (λ ending. ending.place < size) }
    ensures small { IfOk result (λ ending. ending.held ≤ ending.place) }
    ensures none { IfOk result (λ ending. NoRecord (drop ending.place (D.seen disk.old))) }
    ensures read { OnlyRead D.seen D.may_leave D.moment D.left_since disk.old disk.new }
    ensures cause { RisesAtErr (D.faults disk.old) (D.faults disk.new) result }
{
    let mut place = 0;
    let mut held = 0;
    while let Some(count) = record_at(disk, place, size)? {
        place += 9 + count;
        held += count;
    }
    Ok(Ending { place, held })
}

/// The length of the piece of the record at a place, if one stands there.
pub fn record_at<D: Disk>(disk: &mut D, at: u64, size: u64) -> Result<Option<u64>, Failed>
    requires size { size ≡ length (D.seen disk.old) }
    requires within { at ≤ size }
    ensures found { IfOk result (λ found. MatchOption found (NoRecord (drop at (D.seen disk.old)))
        (λ count. (piece : List ℕ) × (rest : List ℕ) × (length piece ≡ count)
        × IsRecord (drop at (D.seen disk.old)) piece rest)) }
    ensures room { IfOk result (λ found. IfSome found (λ count. at + 9 + count < size)) }
    ensures read { OnlyRead D.seen D.may_leave D.moment D.left_since disk.old disk.new }
    ensures cause { RisesAtErr (D.faults disk.old) (D.faults disk.new) result }
{
    let left = size - at;
    if left < 10 {
        return Ok(None);
    }
    let mut gate = [0; 1];
    read_exact(disk, at, &mut gate)?;
    let mut length_bytes = [0; 8];
    read_exact(disk, at + 1, &mut length_bytes)?;
    Ok(record_in(gate[0], length_bytes, left))
}

// The length of the piece of a record that begins with this gate and length, where so many bytes
// are left from the gate on.
fn record_in(gate: u8, length_bytes: [u8; 8], left: u64) -> Option<u64>
    requires { 10 ≤ left }
    ensures found { (rest : List ℕ) → 9 + length rest ≡ left
        → MatchOption result (NoRecord (gate ∷ (length_bytes ++ rest)))
        (λ count. (piece : List ℕ) × (behind : List ℕ) × (length piece ≡ count)
        × IsRecord (gate ∷ (length_bytes ++ rest)) piece behind) }
    ensures room { IfSome result (λ count. 9 + count < left) }
{
    if gate != 1 {
        return None;
    }
    let count = u64::from_be_bytes(length_bytes);
    if count > left - 10 {
        return None;
    }
    Some(count)
}

/// Reads just as many bytes as there is room for, from a place on.
pub fn read_exact<D: Disk>(disk: &mut D, at: u64, into: &mut [u8]) -> Result<(), Failed>
    requires within { at + length into.old ≤ length (D.seen disk.old) }
    requires fits { at + length into.old < 2 ^ 64 }
    ensures bytes { OnOk result (into.new ≡ take (length into.old) (drop at (D.seen disk.old))) }
    ensures read { OnlyRead D.seen D.may_leave D.moment D.left_since disk.old disk.new }
    ensures cause { RisesAtErr (D.faults disk.old) (D.faults disk.new) result }
{
    let mut done = 0;
    while done < into.len() {
        done += disk.read(at + done as u64, &mut into[done..])?;
    }
    Ok(())
}
