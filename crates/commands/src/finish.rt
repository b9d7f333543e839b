ghost use Rattle.std.specs.Prelude.{◌≡◌};
ghost use Rattle.commands.specs.Finish.{status_at_end, status_of};

use conversation::Ended;

/// The status where the input, the folder, a file of it, or the doors failed.
pub const READ_FAULT: u8 = 1;

/// The status where the words are no command.
pub const USAGE: u8 = 2;

/// The status for want of memory.
pub const NO_MEMORY: u8 = 3;

/// The status where the output failed.
pub const WRITE_FAULT: u8 = 4;

/// The status where the input ended inside a request.
pub const TRUNCATED: u8 = 5;

/// The status where a file breaks its grammar or its bound.
pub const BAD_FILE: u8 = 6;

/// The status where the keeper of the journal failed while the journal was opened.
pub const UNAVAILABLE: u8 = 7;

/// The status of a conversation that reached its bound in bytes.
pub const LONG_TALK: u8 = 8;

/// How a command ended.
#[derive(Clone, Copy, Debug, PartialEq, Eq)]
pub enum Finish {
    /// As a conversation does: that over the input, or what was written of a server's history.
    Served(Ended),
    /// The file of users breaks its grammar first in that row; the header is row 0.
    BadUsers(u64),
    /// The file of users has more bytes than such a file may have.
    UsersLong,
    /// The journal begins with other bytes than a journal does (0), or its entry of that number, counted from 1, isn't
    /// an accepted call at its place.
    BadJournal(u64),
    /// The journal has more bytes than a journal may have.
    JournalLong,
    /// The keeper of the journal failed while the journal was opened.
    Unavailable,
}

/// The status of a command that ended so.
pub(crate) fn status(finish: Finish) -> u8
    ensures { result ≡ status_of finish }
{
    match finish {
        Finish::Served(ended) => status_at_end(ended),
        Finish::BadUsers(_) | Finish::UsersLong | Finish::BadJournal(_) | Finish::JournalLong => {
            BAD_FILE
        }
        Finish::Unavailable => UNAVAILABLE,
    }
}

/// The status of a conversation that ended so.
fn status_at_end(ended: Ended) -> u8
    ensures { result ≡ status_at_end ended }
{
    match ended {
        Ended::End | Ended::Asked | Ended::Closed(_) => 0,
        Ended::ReadFault => READ_FAULT,
        Ended::NoMemory => NO_MEMORY,
        Ended::WriteFault => WRITE_FAULT,
        Ended::Truncated(_) => TRUNCATED,
        Ended::LongTalk => LONG_TALK,
    }
}
