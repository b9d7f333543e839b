use cell_value::{Failed, NoMemory};
use std::error::Error;
use std::fmt;

/// Why a log couldn't be opened or read.
#[derive(Clone, Copy, Debug, PartialEq, Eq)]
pub enum LogFault {
    /// The disk failed in this call.
    Failed,
    /// Memory ran out.
    NoMemory,
}

impl From<Failed> for LogFault {
    ghost use Rattle.std.specs.Prelude.{◌≡◌};
    ghost use Rattle.journal_disk.specs.declared.fault.LogFault.{LogFault};

    ghost from_gives = { λ _ fault. fault ≡ LogFault.Failed };

    fn from(_failed: Failed) -> LogFault {
        LogFault::Failed
    }
}

impl From<NoMemory> for LogFault {
    ghost use Rattle.std.specs.Prelude.{◌≡◌};
    ghost use Rattle.journal_disk.specs.declared.fault.LogFault.{LogFault};

    ghost from_gives = { λ _ fault. fault ≡ LogFault.NoMemory };

    fn from(_none: NoMemory) -> LogFault {
        LogFault::NoMemory
    }
}

impl fmt::Display for LogFault {
    ghost use Rattle.std.specs.Prelude.{Some};
    ghost use Rattle.journal_disk.specs.Faults.{fault_text};

    ghost output = { λ fault. Some (fault_text fault) };

    fn fmt<W: fmt::Write>(&self, f: &mut fmt::Formatter<W>) -> fmt::Result {
        f.write_str(match self {
            LogFault::Failed => "the disk failed",
            LogFault::NoMemory => "memory ran out",
        })
    }
}

impl Error for LogFault {}
