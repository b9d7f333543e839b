use cell_value::{Failed, NoMemory};
use std::error::Error;
use std::fmt;

/// Why a table of users couldn't be read.
#[derive(Clone, Copy, Debug, PartialEq, Eq)]
pub enum UsersFault {
    /// The file failed in this call.
    Failed,
    /// The file has more than [`LONGEST_TABLE`](crate::LONGEST_TABLE) bytes.
    Long,
    /// The row with this number is the first that breaks the form of a table; the header is row 0.
    Bad(u64),
    /// Memory ran out.
    NoMemory,
}

impl From<Failed> for UsersFault {
    ghost use Rattle.std.specs.Prelude.{◌≡◌};
    ghost use Rattle.users_file.specs.declared.fault.UsersFault.{UsersFault};

    ghost from_gives = { λ _ fault. fault ≡ UsersFault.Failed };

    fn from(_failed: Failed) -> UsersFault {
        UsersFault::Failed
    }
}

impl From<NoMemory> for UsersFault {
    ghost use Rattle.std.specs.Prelude.{◌≡◌};
    ghost use Rattle.users_file.specs.declared.fault.UsersFault.{UsersFault};

    ghost from_gives = { λ _ fault. fault ≡ UsersFault.NoMemory };

    fn from(_none: NoMemory) -> UsersFault {
        UsersFault::NoMemory
    }
}

impl fmt::Display for UsersFault {
    ghost use Rattle.std.specs.Prelude.{Some};
    ghost use Rattle.users_file.specs.Faults.{fault_text};

    ghost output = { λ fault. Some (fault_text fault) };

    fn fmt<W: fmt::Write>(&self, f: &mut fmt::Formatter<W>) -> fmt::Result {
        match self {
            UsersFault::Failed => f.write_str("read fault"),
            UsersFault::Long => f.write_str("users long"),
            UsersFault::Bad(row) => write!(f, "bad users {row}"),
            UsersFault::NoMemory => f.write_str("no memory"),
        }
    }
}

impl Error for UsersFault {}
