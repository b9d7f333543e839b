ghost use Rattle.std.specs.Prelude.{◌≡◌, ◌≢◌, ℕ, ◌<◌, ◌≤◌, List, length, take, Option, Bool, OnOk, IfSome, IsTrue, Err};
ghost use Rattle.cell_value.specs.FaultCount.{last_count, Rose};

use cell_value::{Bytes, NoMemory};
use std::error::Error;
use std::fmt;

/// Why kept bytes couldn't be loaded.
#[derive(Clone, Copy, Debug, PartialEq, Eq)]
pub enum LoadFault {
    /// The keeper failed; its count of faults rose.
    Failed,
    /// Memory ran out.
    NoMemory,
}

impl fmt::Display for LoadFault {
    ghost use Rattle.std.specs.Prelude.{Some};
    ghost use Rattle.desk.specs.Faults.{load_fault_text};

    ghost output = { λ fault. Some (load_fault_text fault) };

    fn fmt<W: fmt::Write>(&self, f: &mut fmt::Formatter<W>) -> fmt::Result {
        f.write_str(match self {
            LoadFault::Failed => "failed",
            LoadFault::NoMemory => "no memory",
        })
    }
}

impl Error for LoadFault {}

impl From<NoMemory> for LoadFault {
    ghost use Rattle.std.specs.Prelude.{◌≡◌};
    ghost use Rattle.desk.specs.declared.keeper.LoadFault.{LoadFault};

    ghost from_gives = { λ _ fault. fault ≡ LoadFault.NoMemory };

    fn from(_none: NoMemory) -> LoadFault {
        LoadFault::NoMemory
    }
}

/// Why a piece wasn't kept.
#[derive(Clone, Copy, Debug, PartialEq, Eq)]
pub enum PutFault {
    /// The keeper failed; its count of faults rose.
    Failed,
    /// Memory ran out; nothing of the piece was kept.
    NoMemory,
}

impl fmt::Display for PutFault {
    ghost use Rattle.std.specs.Prelude.{Some};
    ghost use Rattle.desk.specs.Faults.{put_fault_text};

    ghost output = { λ fault. Some (put_fault_text fault) };

    fn fmt<W: fmt::Write>(&self, f: &mut fmt::Formatter<W>) -> fmt::Result {
        f.write_str(match self {
            PutFault::Failed => "failed",
            PutFault::NoMemory => "no memory",
        })
    }
}

impl Error for PutFault {}

impl From<NoMemory> for PutFault {
    ghost use Rattle.std.specs.Prelude.{◌≡◌};
    ghost use Rattle.desk.specs.declared.keeper.PutFault.{PutFault};

    ghost from_gives = { λ _ fault. fault ≡ PutFault.NoMemory };

    fn from(_none: NoMemory) -> PutFault {
        PutFault::NoMemory
    }
}

/// What keeps the bytes of a journal, as [`crate::SteadyKeeper`] does in memory. It may fail, and counts how often it
/// did.
pub trait Keeper {
    ghost use Rattle.cell_value.specs.FaultCount.{StaysSteady};
    ghost use Rattle.desk.specs.Keeping.{Puts};

    /// The bytes that are kept, where the keeper tells them.
    ghost kept: { Self → Option (List ℕ) };

    /// How often the keeper has failed.
    ghost failures: { Self → ℕ };

    /// Whether the keeper never fails.
    ghost steady: { Self → Bool };

    /// Makes `into` the kept bytes, or the first `most` of them. The kept bytes stay as they are, whatever is answered.
    ///
    /// # Errors
    ///
    /// [`LoadFault::Failed`] only where the count of faults rose in this call. [`LoadFault::NoMemory`] where memory
    /// runs out. Nothing is said of what `into` has then.
    fn load(&mut self, most: u64, into: &mut Bytes) -> Result<(), LoadFault>
        ensures loaded { OnOk result (IfSome (kept self.old) (λ bytes. into.new ≡ take most bytes)) }
        ensures kept { kept self.new ≡ kept self.old }
        ensures cause { result ≡ Err LoadFault.Failed → Rose (failures self.old) (failures self.new) }
        ensures later { failures self.old ≤ failures self.new }
        ensures steady { StaysSteady (steady self.old) (steady self.new) (failures self.old) (failures self.new) };

    /// Makes the kept bytes their first `at` bytes and the piece behind them.
    ///
    /// # Errors
    ///
    /// [`PutFault::Failed`] only where the count of faults rose in this call; the kept bytes are then as before, or
    /// their first `at` bytes and a beginning of the piece. [`PutFault::NoMemory`] where memory runs out; they are then
    /// as before. A put that doesn't answer [`PutFault::Failed`] leaves the count as it was.
    fn put(&mut self, at: u64, piece: &[u8]) -> Result<(), PutFault>
        requires { IfSome (kept self.old) (λ bytes. at ≤ length bytes) }
        ensures kept { Puts (kept self.old) (kept self.new) at piece.now result }
        ensures cause { result ≡ Err PutFault.Failed → Rose (failures self.old) (failures self.new) }
        ensures count { result ≢ Err PutFault.Failed → failures self.new ≡ failures self.old }
        ensures later { failures self.old ≤ failures self.new }
        ensures steady { StaysSteady (steady self.old) (steady self.new) (failures self.old) (failures self.new) };

    /// How often the keeper has failed. It takes no memory.
    fn faults(&self) -> u64
        ensures { result ≡ failures self.now };

    /// The count of a steady keeper isn't at its last value, where it would count as risen.
    ghost steady_low: { (keeper : Self) → IsTrue (steady keeper) → failures keeper < last_count };
}
