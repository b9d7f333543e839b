ghost use Rattle.std.specs.Prelude.{IfOk, MatchOption};
ghost use Rattle.std.specs.List.{IsDistinct};
ghost use Rattle.std.specs.Str.{bytes_eq};
ghost use Rattle.users_file.specs.Table.{tokens_of};
ghost use Rattle.users_file.specs.Rows.{IsRepeated};

use cell_value::{NoMemory, Text};
use std::alloc::Global;
use std::collections::BTreeSet;

/// The place of the first pair whose token stands in one before it. Each token is looked up in a set of
/// those before it.
///
/// # Errors
///
/// [`NoMemory`] where memory runs out.
pub(crate) fn first_repeated(
    alloc: Global,
    pairs: &[(Text, Text)],
) -> Result<Option<usize>, NoMemory>
    ensures { IfOk result (λ found. MatchOption found (IsDistinct bytes_eq (tokens_of pairs.now))
        (IsRepeated pairs.now)) }
{
    let mut tokens = BTreeSet::new(alloc);
    for (place, pair) in pairs.iter().enumerate() {
        if !tokens.insert(pair.0.as_str())? {
            return Ok(Some(place));
        }
    }
    Ok(None)
}
