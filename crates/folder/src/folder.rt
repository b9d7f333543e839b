ghost use Rattle.std.specs.Prelude.{◌≡◌, ◌≢◌, ℕ, ◌≤◌, ◌<◌, [], Bool, Option, IfOk, IfSome, IsSome, IsTrue, OnErr, Err};
ghost use Rattle.std.specs.Option.{option_map};
ghost use Rattle.cell_value.specs.FaultCount.{last_count, Rose, StaysSteady};

use desk::{Keeper, LoadFault};
use sheets_http::Source;

/// Where files and journals are found by their names: a folder of the system's, or names in memory.
///
/// What a folder hands out is given back to it. A folder has two counts of faults: its own, of its calls and of the
/// files that it handed out, and that of its keepers. Neither ever falls. A folder that tells shows contracts the bytes
/// under each name, what it was asked for, and which journals are handed out.
pub trait Folder {
    ghost use Rattle.folder.specs.Folder.{ShownFolder, found_or_made, IsRefused};
    ghost use Rattle.folder.specs.Folder.{after_open, after_journal, after_kept_back};

    /// What a file is read from.
    type File: Source;

    /// What keeps the bytes of a journal.
    type Kept: Keeper + Send;

    /// What the folder shows, where it tells it.
    ghost shown: { Self → Option ShownFolder };

    /// How often a call of the folder or a file that came back has failed.
    ghost failures: { Self → ℕ };

    /// How often a keeper that came back has failed.
    ghost keeper_failures: { Self → ℕ };

    /// Whether neither the folder nor what it hands out ever fails.
    ghost steady: { Self → Bool };

    /// Hands out the file of that name, from its first byte on. It has not failed yet. No name's bytes change.
    ///
    /// # Errors
    ///
    /// [`LoadFault::Failed`] only where the folder's own count of faults rose in this call. [`LoadFault::NoMemory`]
    /// where memory runs out.
    fn open(&mut self, name: &str) -> Result<Self::File, LoadFault>
        ensures shown { shown self.new ≡ option_map (after_open name.now) (shown self.old) }
        ensures found { IfOk result (λ _. IfSome (shown self.old) (λ folder. IsSome (folder.files name.now))) }
        ensures bytes { IfOk result (λ file. IfSome (shown self.old) (λ folder.
            Self.File.left file ≡ folder.files name.now)) }
        ensures fresh { IfOk result (λ file. Self.File.faults file ≡ 0) }
        ensures steady_file { IfOk result (λ file. IsTrue (steady self.old) → IsTrue (Self.File.steady file)) }
        ensures cause { result ≡ Err LoadFault.Failed → Rose (failures self.old) (failures self.new) }
        ensures later { failures self.old ≤ failures self.new }
        ensures keepers { keeper_failures self.new ≡ keeper_failures self.old }
        ensures steady { StaysSteady (steady self.old) (steady self.new) (failures self.old) (failures self.new) };

    /// Hands out the journal of that name, whose keeper has not failed yet. With `make` a missing name gets no bytes,
    /// and has them from then on. No other name's bytes change.
    ///
    /// # Errors
    ///
    /// [`LoadFault::Failed`] only where the folder's own count of faults rose in this call. [`LoadFault::NoMemory`]
    /// where memory runs out. A name that is to be made may then be made or still be missing.
    fn journal(&mut self, name: &str, make: bool) -> Result<Self::Kept, LoadFault>
        ensures shown { IfOk result (λ _. shown self.new ≡ option_map (after_journal name.now make) (shown self.old)) }
        ensures found { IfOk result (λ _. IfSome (shown self.old) (λ folder.
            IsSome (found_or_made make (folder.files name.now)))) }
        ensures bytes { IfOk result (λ kept. IfSome (shown self.old) (λ folder.
            Self.Kept.kept kept ≡ found_or_made make (folder.files name.now))) }
        ensures fresh { IfOk result (λ kept. Self.Kept.failures kept ≡ 0) }
        ensures steady_keeper { IfOk result (λ kept. IsTrue (steady self.old) → IsTrue (Self.Kept.steady kept)) }
        ensures refused { OnErr result (IsRefused name.now make (shown self.old) (shown self.new)) }
        ensures cause { result ≡ Err LoadFault.Failed → Rose (failures self.old) (failures self.new) }
        ensures later { failures self.old ≤ failures self.new }
        ensures keepers { keeper_failures self.new ≡ keeper_failures self.old }
        ensures steady { StaysSteady (steady self.old) (steady self.new) (failures self.old) (failures self.new) };

    /// Takes a file back. The folder's own count of faults rises where the file has failed. It takes no memory.
    fn file_back(&mut self, file: Self::File)
        ensures shown { shown self.new ≡ shown self.old }
        ensures rose { 0 < Self.File.faults file → Rose (failures self.old) (failures self.new) }
        ensures same { Self.File.faults file ≡ 0 → failures self.new ≡ failures self.old }
        ensures later { failures self.old ≤ failures self.new }
        ensures keepers { keeper_failures self.new ≡ keeper_failures self.old }
        ensures steady { Self.File.faults file ≡ 0 → steady self.new ≡ steady self.old };

    /// Takes back the journal that was handed out last of those that aren't back. Its name has from then on the bytes
    /// that its keeper tells; no other name's bytes change. The count of the keepers' faults rises where the keeper has
    /// failed. It takes no memory. Who asks for one journal at a time need not think of the order.
    fn kept_back(&mut self, kept: Self::Kept)
        requires { IfSome (shown self.old) (λ folder. folder.lent ≢ []) }
        ensures shown { shown self.new ≡ option_map (after_kept_back (Self.Kept.kept kept)) (shown self.old) }
        ensures rose { 0 < Self.Kept.failures kept → Rose (keeper_failures self.old) (keeper_failures self.new) }
        ensures same { Self.Kept.failures kept ≡ 0 → keeper_failures self.new ≡ keeper_failures self.old }
        ensures later { keeper_failures self.old ≤ keeper_failures self.new }
        ensures own { failures self.new ≡ failures self.old }
        ensures steady { Self.Kept.failures kept ≡ 0 → steady self.new ≡ steady self.old };

    /// The own count of a steady folder isn't at its last value, where it would count as risen.
    ghost steady_low: { (folder : Self) → IsTrue (steady folder) → failures folder < last_count };

    /// Nor is the count of its keepers.
    ghost steady_keepers_low: { (folder : Self) → IsTrue (steady folder) → keeper_failures folder < last_count };
}
