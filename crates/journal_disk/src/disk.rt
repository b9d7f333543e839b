ghost use Rattle.std.specs.Prelude.{◌≡◌, ◌+◌, ◌-◌, ◌≤◌, ◌<◌, ◌++◌, List, ℕ, length, take, drop, IfOk, OnOk};
ghost use Rattle.std.specs.Prelude.{OnErr, IsErr};
ghost use Rattle.journal_disk.specs.Disk.{Only, Follows, Torn, Holds, Elapses, RisesAtErr, most_bytes};

use cell_value::Failed;

/// A disk, seen as one list of bytes, its image.
///
/// Between two syncs a crash may leave any bytes in each range that was written and past the old
/// end, and any size from the old one to the new one. Bytes outside stay. After a sync that
/// succeeded there is one image, what a read gives. No image has more than 2^62 bytes.
pub trait Disk {
    /// The bytes that reads give.
    ghost seen: { Self → List ℕ };

    /// The images that a crash at this moment may leave.
    ghost may_leave: { Self → List ℕ → Type 0 };

    /// The moment, as a number that never falls.
    ghost moment: { Self → ℕ };

    /// The images that a crash at any moment from that one on might have left.
    ghost left_since: { Self → ℕ → List ℕ → Type 0 };

    /// How often the disk has failed.
    ghost faults: { Self → ℕ };

    /// The number of bytes.
    ///
    /// # Errors
    ///
    /// [`Failed`] where the disk failed in this call.
    fn size(&mut self) -> Result<u64, Failed>
        ensures size { IfOk result (λ bytes. bytes ≡ length (seen self.old)) }
        ensures seen { seen self.new ≡ seen self.old }
        ensures crash { (image : List ℕ) → may_leave self.new image → may_leave self.old image }
        ensures time { Elapses (moment self.old) (moment self.new) (left_since self.old) (left_since self.new)
            (may_leave self.new) }
        ensures cause { RisesAtErr (faults self.old) (faults self.new) result };

    /// Reads the bytes from place `at` on into the front of `into`, and tells how many.
    ///
    /// Below the end it reads at least one byte into a buffer that isn't empty.
    ///
    /// # Errors
    ///
    /// [`Failed`] where the disk failed in this call.
    fn read(&mut self, at: u64, into: &mut [u8]) -> Result<usize, Failed>
        ensures count { IfOk result (λ count. (count ≤ length into.old) × (count ≤ length (seen self.old) - at)) }
        ensures bytes { IfOk result (λ count. into.new ≡ take count (drop at (seen self.old)) ++ drop count into.old) }
        ensures some { IfOk result (λ count. at < length (seen self.old) → 0 < length into.old → 0 < count) }
        ensures seen { seen self.new ≡ seen self.old }
        ensures crash { (image : List ℕ) → may_leave self.new image → may_leave self.old image }
        ensures time { Elapses (moment self.old) (moment self.new) (left_since self.old) (left_since self.new)
            (may_leave self.new) }
        ensures cause { RisesAtErr (faults self.old) (faults self.new) result };

    /// Writes bytes from place `at` on, over what is there and past the end.
    ///
    /// # Errors
    ///
    /// [`Failed`] where the disk failed in this call: then a front of the bytes was written. A write
    /// past 2^62 bytes fails, and changes nothing.
    fn write(&mut self, at: u64, bytes: &[u8]) -> Result<(), Failed>
        requires { at ≤ length (seen self.old) }
        ensures written { OnOk result (Holds (seen self.old) at bytes.now (seen self.new)) }
        ensures partly { OnErr result ((count : ℕ) × Holds (seen self.old) at (take count bytes.now) (seen self.new)) }
        ensures too_large { most_bytes < at + length bytes.now → IsErr result × (seen self.new ≡ seen self.old)
            × ((image : List ℕ) → may_leave self.new image → may_leave self.old image) }
        ensures crash { Follows (Torn at (length bytes.now)) (may_leave self.old) (may_leave self.new) }
        ensures time { Elapses (moment self.old) (moment self.new) (left_since self.old) (left_since self.new)
            (may_leave self.new) }
        ensures cause { RisesAtErr (faults self.old) (faults self.new) result };

    /// Settles what was written: after it a crash leaves what a read gives.
    ///
    /// # Errors
    ///
    /// [`Failed`] where the disk failed in this call: then nothing is settled.
    fn sync(&mut self) -> Result<(), Failed>
        ensures durable { OnOk result (Only (seen self.old) (may_leave self.new)) }
        ensures seen { seen self.new ≡ seen self.old }
        ensures crash { (image : List ℕ) → may_leave self.new image → may_leave self.old image }
        ensures time { Elapses (moment self.old) (moment self.new) (left_since self.old) (left_since self.new)
            (may_leave self.new) }
        ensures cause { RisesAtErr (faults self.old) (faults self.new) result };

    /// What reads give is one of the images.
    ghost seen_is_image: { (disk : Self) → may_leave disk (seen disk) };

    /// No image has more than 2^62 bytes.
    ghost bounded: { (disk : Self) (image : List ℕ) → may_leave disk image → length image ≤ most_bytes };

    /// This moment is one of those since an earlier one.
    ghost counts_now: { (disk : Self) (since : ℕ) (image : List ℕ) → since ≤ moment disk → may_leave disk image
        → left_since disk since image };

    /// Since this moment there is no other.
    ghost only_now: { (disk : Self) (image : List ℕ) → left_since disk (moment disk) image → may_leave disk image };
}
