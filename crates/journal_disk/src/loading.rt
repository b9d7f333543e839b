ghost use Rattle.std.specs.Prelude.{◌≡◌, ◌⊎◌, ◌<◌, ◌≤◌, ◌+◌, ◌^◌, ◌++◌, List, ℕ, length, take, drop, OnOk, OnErr};
ghost use Rattle.std.specs.Prelude.{IfOk, IfErr, MatchOption, IfSome};
ghost use Rattle.std.specs.List.{concat};
ghost use Rattle.journal_disk.specs.Disk.{OnlyRead, RisesAtErr, RisesAtFault};
ghost use Rattle.journal_disk.specs.Records.{HasPieces, IsRecord, NoRecord};

use crate::Disk;
use crate::fault::LogFault;
use crate::scan::{read_exact, record_at};
use cell_value::{Bytes, Failed};

// So many bytes are read at once.
const ROOM: u64 = 4096;

/// Reads the first `most` bytes of the pieces of an image, joined, behind what is there. An error
/// leaves fewer of them there.
pub fn read_pieces<D: Disk>(disk: &mut D, most: u64, into: &mut Bytes) -> Result<(), LogFault>
    requires some { 0 < length (D.seen disk.old) }
    ensures joined { OnOk result ((pieces : List (List ℕ)) → HasPieces (D.seen disk.old) pieces → into.new ≡ into.old
        ++ take most (concat pieces)) }
    ensures fewer { OnErr result ((pieces : List (List ℕ)) → HasPieces (D.seen disk.old) pieces → (count : ℕ)
        × (count ≤ most) × (into.new ≡ into.old ++ take count (concat pieces))) }
    ensures read { OnlyRead D.seen D.may_leave D.moment D.left_since disk.old disk.new }
    ensures cause { RisesAtFault LogFault.Failed (D.faults disk.old) (D.faults disk.new) result }
{
    let size = disk.size()?;
    let mut place = 0;
    let mut left = most;
    while let Some(count) = wanted_at(disk, place, size, left)? {
        let taken = count.min(left);
        append_range(disk, place + 9, taken, into)?;
        left -= taken;
        place += 9 + count;
    }
    Ok(())
}

// The length of the piece of the record at a place, if one stands there and bytes are wanted.
fn wanted_at<D: Disk>(disk: &mut D, at: u64, size: u64, left: u64) -> Result<Option<u64>, Failed>
    requires size { size ≡ length (D.seen disk.old) }
    requires within { at ≤ size }
    ensures found { IfOk result (λ found. MatchOption found ((left ≡ 0) ⊎ NoRecord (drop at (D.seen disk.old)))
        (λ count. (piece : List ℕ) × (rest : List ℕ) × (length piece ≡ count)
        × IsRecord (drop at (D.seen disk.old)) piece rest)) }
    ensures room { IfOk result (λ found. IfSome found (λ count. (0 < left) × (at + 9 + count < size))) }
    ensures read { OnlyRead D.seen D.may_leave D.moment D.left_since disk.old disk.new }
    ensures cause { RisesAtErr (D.faults disk.old) (D.faults disk.new) result }
{
    if left == 0 {
        return Ok(None);
    }
    record_at(disk, at, size)
}

// Puts `count` bytes of the image from a place on behind what is there.
fn append_range<D: Disk>(
    disk: &mut D,
    at: u64,
    count: u64,
    into: &mut Bytes,
) -> Result<(), LogFault>
    requires within { at + count ≤ length (D.seen disk.old) }
    requires fits { at + count < 2 ^ 64 }
    ensures all { OnOk result (into.new ≡ into.old ++ take count (drop at (D.seen disk.old))) }
    ensures fewer { OnErr result ((some : ℕ) × (some ≤ count)
        × (into.new ≡ into.old ++ take some (drop at (D.seen disk.old)))) }
    ensures read { OnlyRead D.seen D.may_leave D.moment D.left_since disk.old disk.new }
    ensures cause { RisesAtFault LogFault.Failed (D.faults disk.old) (D.faults disk.new) result }
{
    let mut room = [0; ROOM as usize];
    let mut done = 0;
    while done < count {
        let next = (count - done).min(ROOM);
        append_exact(disk, at + done, &mut room[..next as usize], into)?;
        done += next;
    }
    Ok(())
}

// Reads as many bytes from a place on as there is room for, and puts them behind what is there.
fn append_exact<D: Disk>(
    disk: &mut D,
    at: u64,
    room: &mut [u8],
    into: &mut Bytes,
) -> Result<(), LogFault>
    requires within { at + length room.old ≤ length (D.seen disk.old) }
    requires fits { at + length room.old < 2 ^ 64 }
    ensures all { OnOk result (into.new ≡ into.old ++ take (length room.old) (drop at (D.seen disk.old))) }
    ensures none { OnErr result (into.new ≡ into.old) }
    ensures read { OnlyRead D.seen D.may_leave D.moment D.left_since disk.old disk.new }
    ensures cause { RisesAtFault LogFault.Failed (D.faults disk.old) (D.faults disk.new) result }
{
    read_exact(disk, at, room)?;
    into.extend_from_slice(room)?;
    Ok(())
}
