ghost use Rattle.std.specs.Prelude.{◌≡◌, ◌≢◌, ℕ, IfOk};
ghost use Rattle.users_file.specs.Table.{IsBadTable, IsTable};

use crate::UsersFault;
use crate::repeats::first_repeated;
use crate::rows::{rows_of, take_header, take_pairs};
use cell_value::{Items, Text};
use std::alloc::Global;

/// The tokens and users of a table, in the order of its rows.
///
/// # Errors
///
/// [`UsersFault::Bad`] where it breaks the form, and [`UsersFault::NoMemory`] where memory runs out.
pub(crate) fn table_of(alloc: Global, bytes: &[u8]) -> Result<Items<(Text, Text)>, UsersFault>
    ensures table { IfOk result (λ pairs. IsTable bytes.now pairs) }
    ensures bad { (row : ℕ) → result ≡ Err (UsersFault.Bad row) → IsBadTable bytes.now row }
    ensures short { result ≢ Err UsersFault.Long }
    ensures unfailing { result ≢ Err UsersFault.Failed }
{
    let mut rows = rows_of(alloc, bytes);
    if !take_header(&mut rows)? {
        return Err(UsersFault::Bad(0));
    }
    let first = take_pairs(alloc, rows)?;
    let pairs = first.pairs.as_slice();
    if let Some(place) = first_repeated(alloc, pairs)? {
        return Err(UsersFault::Bad(place as u64 + 1));
    }
    if !first.all {
        return Err(UsersFault::Bad(pairs.len() as u64 + 1));
    }
    Ok(first.pairs)
}
