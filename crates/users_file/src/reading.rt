ghost use Rattle.std.specs.Prelude.{◌≡◌, ◌≢◌, ℕ, ◌<◌, ◌≤◌, [], Some, drop, length, IfOk, IfSome, IsTrue, OnOk};
ghost use Rattle.cell_value.specs.FaultCount.{Rose, StaysSteady};
ghost use Rattle.users_file.specs.Table.{IsBadTable, IsTable};

use crate::UsersFault;
use crate::table::table_of;
use cell_value::{Bytes, Items, Text};
use sheets_http::Source;
use std::alloc::Global;

/// The most bytes that a table of users may have.
pub const LONGEST_TABLE: u64 = 1_048_576;

/// How many bytes are read at once.
const PIECE: usize = 8_192;

/// Reads a table of users to the file's end: the token and the user of each row, in the order of the rows.
///
/// A table is CSV (RFC 4180) with the header `token,user`, row 0, and a row for each token with its user. Both are
/// texts that aren't empty, and a token stands once. An empty line is no row, and a byte order mark may stand at
/// the start.
///
/// # Errors
///
/// [`UsersFault::Bad`] names the first row that breaks this. [`UsersFault::Long`] where the file has more than
/// [`LONGEST_TABLE`] bytes, of which then no more are read. [`UsersFault::Failed`] only where the file's count of
/// faults rose in this call, and [`UsersFault::NoMemory`] where memory runs out.
pub fn read_users<S: Source>(alloc: Global, file: &mut S) -> Result<Items<(Text, Text)>, UsersFault>
    // The whole file is the table of these users.
    ensures table { IfOk result (λ pairs. IfSome (S.left file.old) (λ bytes. IsTable bytes pairs)) }
    ensures within { OnOk result (IfSome (S.left file.old) (λ bytes. length bytes ≤ LONGEST_TABLE)) }
    ensures end { OnOk result (IfSome (S.left file.old) (λ _. S.left file.new ≡ Some [])) }

    // Each fault has its cause.
    ensures long { result ≡ Err UsersFault.Long → IfSome (S.left file.old) (λ bytes. LONGEST_TABLE < length bytes) }
    ensures bad { (row : ℕ) → result ≡ Err (UsersFault.Bad row)
        → IfSome (S.left file.old) (λ bytes. IsBadTable bytes row) }
    ensures bad_within { (row : ℕ) → result ≡ Err (UsersFault.Bad row)
        → IfSome (S.left file.old) (λ bytes. length bytes ≤ LONGEST_TABLE) }
    ensures cause { result ≡ Err UsersFault.Failed → Rose (S.faults file.old) (S.faults file.new) }
    ensures unfailing { IsTrue (S.steady file.old) → result ≢ Err UsersFault.Failed }

    // The count of faults never falls, and a steady file stays steady.
    ensures later { S.faults file.old ≤ S.faults file.new }
    ensures steady { StaysSteady (S.steady file.old) (S.steady file.new) (S.faults file.old) (S.faults file.new) }

    // What the file has left is what it had, without its first bytes.
    ensures left { IfSome (S.left file.old) (λ bytes. (count : ℕ) × (S.left file.new ≡ Some (drop count bytes))) }
    ensures beside { S.beside file.new ≡ S.beside file.old }
{
    let bytes = read_to_end(alloc, file)?;
    table_of(alloc, bytes.as_slice())
}

/// Reads a file to its end.
///
/// # Errors
///
/// [`UsersFault::Long`] where it has more than [`LONGEST_TABLE`] bytes, [`UsersFault::Failed`] where it fails, and
/// [`UsersFault::NoMemory`] where memory runs out.
fn read_to_end<S: Source>(alloc: Global, file: &mut S) -> Result<Bytes, UsersFault>
    ensures whole { IfOk result (λ bytes. IfSome (S.left file.old) (λ left. left ≡ bytes)) }
    ensures within { IfOk result (λ bytes. length bytes ≤ LONGEST_TABLE) }
    ensures end { OnOk result (IfSome (S.left file.old) (λ _. S.left file.new ≡ Some [])) }
    ensures long { result ≡ Err UsersFault.Long → IfSome (S.left file.old) (λ bytes. LONGEST_TABLE < length bytes) }
    ensures whole_rows { (row : ℕ) → result ≢ Err (UsersFault.Bad row) }
    ensures cause { result ≡ Err UsersFault.Failed → Rose (S.faults file.old) (S.faults file.new) }
    ensures unfailing { IsTrue (S.steady file.old) → result ≢ Err UsersFault.Failed }
    ensures later { S.faults file.old ≤ S.faults file.new }
    ensures steady { StaysSteady (S.steady file.old) (S.steady file.new) (S.faults file.old) (S.faults file.new) }
    ensures left { IfSome (S.left file.old) (λ bytes. (count : ℕ) × (S.left file.new ≡ Some (drop count bytes))) }
    ensures beside { S.beside file.new ≡ S.beside file.old }
{
    let mut bytes = Bytes::of(Vec::new(alloc));
    let mut piece = [0; PIECE];
    while bytes.as_slice().len() as u64 <= LONGEST_TABLE {
        let count = file.read(&mut piece)?;
        if count == 0 {
            return Ok(bytes);
        }
        bytes.extend_from_slice(&piece[..count])?;
    }
    Err(UsersFault::Long)
}
