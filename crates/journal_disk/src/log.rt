ghost use Rattle.std.specs.Prelude.{◌≡◌, ◌<◌, ◌≤◌, length};

use crate::Disk;
use crate::fault::LogFault;
use crate::gate::write_gate;
use crate::loading::read_pieces;
use crate::opening::prepare;
use crate::staging::stage;
use cell_value::{Bytes, Failed};

/// A log of pieces on a disk.
///
/// A piece stands on the disk behind a gate, a byte 1, and its length in eight bytes, the most
/// significant first; behind the last piece stands a gate that isn't 1.
#[derive(Drop)]
pub struct DiskLog<D: Disk> {
    disk: D,
    end: u64,
    kept: u64,
    in_doubt: bool,
    ghost gated: { end < length (D.seen disk) },
    ghost counted: { kept ≤ end },
}

impl<D: Disk> DiskLog<D> {
    ghost use Rattle.std.specs.Prelude.{List, ℕ, Option, Some, None, take, OnOk, OnErr, IfOk, IfErr, ◌+◌, ◌++◌, ◌⊎◌};
    ghost use Rattle.std.specs.Prelude.{[], ◌∷◌};
    ghost use Rattle.cell_value.specs.FaultCount.{Rose};
    ghost use Rattle.journal_disk.specs.Disk.{LeavesOnly, Stays, RisesAtErr, RisesAtFault};
    ghost use Rattle.std.specs.List.{concat};
    ghost use Rattle.journal_disk.specs.Log.{Each, Keeps, IsKept, IsKeptOrPut, MayHaveThese};
    ghost use Rattle.journal_disk.specs.Records.{HasPieces, OneListOfPieces, ClosedGateEnds};

    /// Opens the log that a disk holds, or begins one on an empty disk. It keeps just the pieces of the
    /// image that the disk reads, and so does each image that a crash may leave from its sync on.
    ///
    /// # Errors
    ///
    /// [`LogFault::Failed`] where the disk failed in this call; the disk is given back.
    pub fn open(disk: D) -> Result<DiskLog<D>, (LogFault, D)>
        ensures found { IfOk result (λ log. (pieces : List (List ℕ)) × HasPieces (D.seen disk) pieces
            × Keeps (D.may_leave log.disk) log.end log.kept log.in_doubt pieces None) }
        ensures one_list { OneListOfPieces }
        ensures closed_gate { ClosedGateEnds }
        ensures any_moment { IfOk result (λ log. (pieces : List (List ℕ)) → HasPieces (D.seen disk) pieces
            → LeavesOnly D.moment D.left_since disk log.disk (MayHaveThese (D.may_leave disk) pieces)) }
        ensures any_moment_failed { IfErr result (λ fault. (pieces : List (List ℕ)) → HasPieces (D.seen disk) pieces
            → LeavesOnly D.moment D.left_since disk fault.1 (MayHaveThese (D.may_leave disk) pieces)) }
        ensures cause { IfErr result (λ fault. (fault.0 ≡ LogFault.Failed) × Rose (D.faults disk) (D.faults fault.1)) }
        ensures later { IfOk result (λ log. D.faults disk ≤ D.faults log.disk) }
    {
        let mut disk = disk;
        match prepare(&mut disk) {
            Ok(ending) => Ok(DiskLog {
                disk,
                end: ending.place,
                kept: ending.held,
                in_doubt: false,
            }),
            Err(Failed) => Err((LogFault::Failed, disk)),
        }
    }

    /// How many bytes are kept: those of the pieces that were found at opening, or acknowledged since.
    pub fn length(&self) -> u64
        ensures { result ≡ self.now.kept }
    {
        self.kept
    }

    /// Gives the disk back. A crash from now on leaves the pieces that the log kept, and nothing or
    /// the doubted one behind them.
    pub fn close(self) -> D
        ensures disk { result ≡ self.disk }
        ensures images { (pieces : List (List ℕ)) (doubted : Option (List ℕ))
            → Keeps (D.may_leave self.disk) self.end self.kept self.in_doubt pieces doubted
            → Each (D.may_leave result) (IsKept pieces doubted) }
    {
        self.disk
    }

    /// Reads the kept bytes into `into`, in place of what was there: the pieces joined, or the first
    /// `most` bytes of them. A piece whose gate is open to doubt isn't read.
    ///
    /// # Errors
    ///
    /// [`LogFault::Failed`] where the disk failed in this call, and [`LogFault::NoMemory`] where
    /// memory ran out. Then `into` has some first bytes of them.
    pub fn load(&mut self, most: u64, into: &mut Bytes) -> Result<(), LogFault>
        ensures loaded { OnOk result ((pieces : List (List ℕ)) (doubted : Option (List ℕ))
            → Keeps (D.may_leave self.old.disk) self.old.end self.old.kept self.old.in_doubt pieces doubted
            → into.new ≡ take most (concat pieces)) }
        ensures fewer { OnErr result ((pieces : List (List ℕ)) (doubted : Option (List ℕ))
            → Keeps (D.may_leave self.old.disk) self.old.end self.old.kept self.old.in_doubt pieces doubted
            → (count : ℕ) × (into.new ≡ take count (concat pieces))) }
        ensures keeps { (pieces : List (List ℕ)) (doubted : Option (List ℕ))
            → Keeps (D.may_leave self.old.disk) self.old.end self.old.kept self.old.in_doubt pieces doubted
            → Keeps (D.may_leave self.new.disk) self.new.end self.new.kept self.new.in_doubt pieces doubted }
        ensures any_moment { (pieces : List (List ℕ)) (doubted : Option (List ℕ))
            → Keeps (D.may_leave self.old.disk) self.old.end self.old.kept self.old.in_doubt pieces doubted
            → LeavesOnly D.moment D.left_since self.old.disk self.new.disk (IsKept pieces doubted) }
        ensures same { self.new.kept ≡ self.old.kept }
        ensures cause { RisesAtFault LogFault.Failed (D.faults self.old.disk) (D.faults self.new.disk) result }
    {
        into.clear();
        read_pieces(&mut self.disk, most.min(self.kept), into)
    }

    /// Puts a piece behind those that are kept, and acknowledges it: from then on each crash leaves
    /// it. `at` is the number of bytes that are kept.
    ///
    /// A piece whose gate is open to doubt, since an earlier put failed, is shut out first.
    ///
    /// # Errors
    ///
    /// [`Failed`] where the disk failed in this call: then a crash may leave the piece, until a
    /// later put is acknowledged.
    pub fn put(&mut self, at: u64, piece: &[u8]) -> Result<(), Failed>
        requires { at ≡ self.old.kept }
        ensures acknowledged { OnOk result ((pieces : List (List ℕ)) (doubted : Option (List ℕ))
            → Keeps (D.may_leave self.old.disk) self.old.end self.old.kept self.old.in_doubt pieces doubted
            → Keeps (D.may_leave self.new.disk) self.new.end self.new.kept self.new.in_doubt
            (pieces ++ piece.now ∷ []) None) }
        ensures refused { OnErr result ((pieces : List (List ℕ)) (doubted : Option (List ℕ))
            → Keeps (D.may_leave self.old.disk) self.old.end self.old.kept self.old.in_doubt pieces doubted
            → (still : Option (List ℕ)) × ((still ≡ doubted) ⊎ ((still ≡ None) ⊎ (still ≡ Some piece.now)))
            × Keeps (D.may_leave self.new.disk) self.new.end self.new.kept self.new.in_doubt pieces still) }
        ensures any_moment { (pieces : List (List ℕ)) (doubted : Option (List ℕ))
            → Keeps (D.may_leave self.old.disk) self.old.end self.old.kept self.old.in_doubt pieces doubted
            → LeavesOnly D.moment D.left_since self.old.disk self.new.disk (IsKeptOrPut pieces doubted piece.now) }
        ensures longer { OnOk result (self.new.kept ≡ self.old.kept + length piece.now) }
        ensures as_long { OnErr result (self.new.kept ≡ self.old.kept) }
        ensures cause { RisesAtErr (D.faults self.old.disk) (D.faults self.new.disk) result }
    {
        let _place = at;
        self.shut_doubted()?;
        self.add(piece)
    }

    // Writes a gate that is open to doubt shut.
    fn shut_doubted(&mut self) -> Result<(), Failed>
        ensures settled { OnOk result ((pieces : List (List ℕ)) (doubted : Option (List ℕ))
            → Keeps (D.may_leave self.old.disk) self.old.end self.old.kept self.old.in_doubt pieces doubted
            → Keeps (D.may_leave self.new.disk) self.new.end self.new.kept self.new.in_doubt pieces None) }
        ensures unsettled { OnErr result ((pieces : List (List ℕ)) (doubted : Option (List ℕ))
            → Keeps (D.may_leave self.old.disk) self.old.end self.old.kept self.old.in_doubt pieces doubted
            → Keeps (D.may_leave self.new.disk) self.new.end self.new.kept self.new.in_doubt pieces doubted) }
        ensures any_moment { (pieces : List (List ℕ)) (doubted : Option (List ℕ))
            → Keeps (D.may_leave self.old.disk) self.old.end self.old.kept self.old.in_doubt pieces doubted
            → Stays D.moment D.left_since D.may_leave self.old.disk self.new.disk (IsKept pieces doubted) }
        ensures same { self.new.kept ≡ self.old.kept }
        ensures cause { RisesAtErr (D.faults self.old.disk) (D.faults self.new.disk) result }
    {
        if !self.in_doubt {
            return Ok(());
        }
        write_gate(&mut self.disk, self.end, 0)?;
        self.in_doubt = false;
        Ok(())
    }

    // Puts a piece behind a gate that stands closed.
    fn add(&mut self, piece: &[u8]) -> Result<(), Failed>
        ensures acknowledged { OnOk result ((pieces : List (List ℕ))
            → Keeps (D.may_leave self.old.disk) self.old.end self.old.kept self.old.in_doubt pieces None
            → Keeps (D.may_leave self.new.disk) self.new.end self.new.kept self.new.in_doubt
            (pieces ++ piece.now ∷ []) None) }
        ensures refused { OnErr result ((pieces : List (List ℕ))
            → Keeps (D.may_leave self.old.disk) self.old.end self.old.kept self.old.in_doubt pieces None
            → (still : Option (List ℕ)) × ((still ≡ None) ⊎ (still ≡ Some piece.now))
            × Keeps (D.may_leave self.new.disk) self.new.end self.new.kept self.new.in_doubt pieces still) }
        ensures any_moment { (pieces : List (List ℕ))
            → Keeps (D.may_leave self.old.disk) self.old.end self.old.kept self.old.in_doubt pieces None
            → Stays D.moment D.left_since D.may_leave self.old.disk self.new.disk (IsKept pieces (Some piece.now)) }
        ensures longer { OnOk result (self.new.kept ≡ self.old.kept + length piece.now) }
        ensures as_long { OnErr result (self.new.kept ≡ self.old.kept) }
        ensures cause { RisesAtErr (D.faults self.old.disk) (D.faults self.new.disk) result }
    {
        stage(&mut self.disk, self.end, piece)?;
        self.in_doubt = true;
        write_gate(&mut self.disk, self.end, 1)?;
        self.in_doubt = false;
        self.end += 9 + piece.len() as u64;
        self.kept += piece.len() as u64;
        Ok(())
    }
}
