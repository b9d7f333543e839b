use crate::LoadFault;
use cell_value::NoMemory;
use std::error::Error;
use std::fmt;

/// Why bytes weren't read as the journal of a history.
#[derive(Clone, Copy, Debug, PartialEq, Eq)]
pub enum JournalFault {
    /// They aren't such a journal. With 0, they don't begin as a journal does; else the number of the first entry,
    /// counted from 1, that isn't an accepted call behind those before it.
    Bad(u64),
    /// Memory ran out.
    NoMemory,
}

impl fmt::Display for JournalFault {
    ghost use Rattle.std.specs.Prelude.{Some};
    ghost use Rattle.desk.specs.Faults.{journal_fault_text};

    ghost output = { λ fault. Some (journal_fault_text fault) };

    fn fmt<W: fmt::Write>(&self, f: &mut fmt::Formatter<W>) -> fmt::Result {
        match self {
            JournalFault::Bad(number) => write!(f, "bad journal {number}"),
            JournalFault::NoMemory => f.write_str("no memory"),
        }
    }
}

impl Error for JournalFault {}

impl From<NoMemory> for JournalFault {
    ghost use Rattle.std.specs.Prelude.{◌≡◌};
    ghost use Rattle.desk.specs.declared.fault.JournalFault.{JournalFault};

    ghost from_gives = { λ _ fault. fault ≡ JournalFault.NoMemory };

    fn from(_none: NoMemory) -> JournalFault {
        JournalFault::NoMemory
    }
}

/// Why a desk wasn't opened.
#[derive(Clone, Copy, Debug, PartialEq, Eq)]
pub enum OpenFault {
    /// The keeper failed; its count of faults rose.
    KeeperFault,
    /// The keeper has more bytes than the journal may have.
    JournalLong,
    /// The bytes that it has aren't the journal of a history, as [`JournalFault::Bad`] says.
    BadJournal(u64),
    /// Memory ran out.
    NoMemory,
}

impl fmt::Display for OpenFault {
    ghost use Rattle.std.specs.Prelude.{Some};
    ghost use Rattle.desk.specs.Faults.{open_fault_text};

    ghost output = { λ fault. Some (open_fault_text fault) };

    fn fmt<W: fmt::Write>(&self, f: &mut fmt::Formatter<W>) -> fmt::Result {
        match self {
            OpenFault::KeeperFault => f.write_str("unavailable"),
            OpenFault::JournalLong => f.write_str("journal long"),
            OpenFault::BadJournal(number) => write!(f, "bad journal {number}"),
            OpenFault::NoMemory => f.write_str("no memory"),
        }
    }
}

impl Error for OpenFault {}

impl From<LoadFault> for OpenFault {
    ghost use Rattle.std.specs.Prelude.{◌≡◌};
    ghost use Rattle.desk.specs.Faults.{load_failed};

    ghost from_gives = { λ fault failed. failed ≡ load_failed fault };

    fn from(fault: LoadFault) -> OpenFault {
        match fault {
            LoadFault::Failed => OpenFault::KeeperFault,
            LoadFault::NoMemory => OpenFault::NoMemory,
        }
    }
}

impl From<JournalFault> for OpenFault {
    ghost use Rattle.std.specs.Prelude.{◌≡◌};
    ghost use Rattle.desk.specs.Faults.{reading_failed};

    ghost from_gives = { λ fault failed. failed ≡ reading_failed fault };

    fn from(fault: JournalFault) -> OpenFault {
        match fault {
            JournalFault::Bad(number) => OpenFault::BadJournal(number),
            JournalFault::NoMemory => OpenFault::NoMemory,
        }
    }
}
