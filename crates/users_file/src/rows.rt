ghost use Rattle.std.specs.Prelude.{◌≡◌, ◌≢◌, ◌↔◌, ◌∷◌, [], ℕ, List, length, IfOk, IfNone, IfSome, IsTrue, IsUtf8};
ghost use Rattle.std.specs.Prelude.{MatchOption};
ghost use Rattle.std.specs.Bool.{MatchBool};
ghost use Rattle.csv.specs.Records.{fields_of};
ghost use Rattle.users_file.specs.Table.{ArePairOfNames, IsBadTable, IsName, header, row_of};
ghost use Rattle.users_file.specs.Rows.{AreFirst, HasGiven, HasNoPair};

use cell_value::{Items, NoMemory, Text};
use csv::{ByteRecord, ByteRecordsIntoIter, ReaderBuilder};
use std::alloc::Global;
use std::str;

/// The tokens and users of the first rows behind the header.
#[derive(Debug, Drop)]
pub(crate) struct FirstPairs {
    /// The tokens and their users, in the order of the rows.
    pub(crate) pairs: Items<(Text, Text)>,
    /// Whether these are all rows; else one follows that isn't a token and a user.
    pub(crate) all: bool,
}

/// A reader of the rows of a text, before the first.
pub(crate) fn rows_of(alloc: Global, bytes: &[u8]) -> ByteRecordsIntoIter<&[u8]>
    ensures { HasGiven bytes.now [] result }
{
    ReaderBuilder::new()
        .has_headers(false)
        .flexible(true)
        .from_reader(alloc, bytes)
        .into_byte_records()
}

/// Reads the first row, and tells whether it is the header.
///
/// # Errors
///
/// [`NoMemory`] where memory runs out, for which alone the records of bytes in memory fail.
pub(crate) fn take_header(rows: &mut ByteRecordsIntoIter<&[u8]>) -> Result<bool, NoMemory>
    ensures { (bytes : List ℕ) → HasGiven bytes [] rows.old
        → IfOk result (λ found. MatchBool found (HasGiven bytes (header ∷ []) rows.new) (IsBadTable bytes 0)) }
{
    match rows.next() {
        Some(row) => match row {
            Ok(row) => Ok(is_header(&row)),
            Err(_) => Err(NoMemory),
        },
        None => Ok(false),
    }
}

/// Reads the rows behind the header, up to one that isn't a token and a user.
///
/// # Errors
///
/// [`NoMemory`] where memory runs out, for which alone the records of bytes in memory fail.
pub(crate) fn take_pairs(
    alloc: Global,
    rows: ByteRecordsIntoIter<&[u8]>,
) -> Result<FirstPairs, NoMemory>
    ensures { (bytes : List ℕ) → HasGiven bytes (header ∷ []) rows.entry
        → IfOk result (λ first. AreFirst bytes first.pairs first.all) }
{
    let mut pairs = Vec::new(alloc);
    for row in rows {
        let Ok(row) = row else {
            return Err(NoMemory);
        };
        match pair_of(alloc, &row)? {
            Some(pair) => pairs.push(pair)?,
            None => {
                return Ok(FirstPairs {
                    pairs: Items::of(pairs),
                    all: false,
                });
            }
        }
    }
    Ok(FirstPairs {
        pairs: Items::of(pairs),
        all: true,
    })
}

/// Whether the row is the header of a table of users.
fn is_header(row: &ByteRecord) -> bool
    ensures { IsTrue result ↔ (fields_of row.now ≡ header) }
{
    match two_fields(row) {
        Some((token, user)) => token == b"token".as_slice() && user == b"user".as_slice(),
        None => false,
    }
}

/// The token and the user of a row.
///
/// # Errors
///
/// [`NoMemory`] where memory runs out.
fn pair_of(alloc: Global, row: &ByteRecord) -> Result<Option<(Text, Text)>, NoMemory>
    ensures { IfOk result (λ found. MatchOption found (HasNoPair (fields_of row.now))
        (λ pair. (fields_of row.now ≡ row_of pair) × ArePairOfNames pair)) }
{
    let Some((token, user)) = two_fields(row) else {
        return Ok(None);
    };
    let Some(token) = name_of(token) else {
        return Ok(None);
    };
    let Some(user) = name_of(user) else {
        return Ok(None);
    };
    let token = Text::of(String::from_str(alloc, token)?);
    let user = Text::of(String::from_str(alloc, user)?);
    Ok(Some((token, user)))
}

/// The fields of a row that has just two.
fn two_fields(row: &ByteRecord) -> Option<(&[u8], &[u8])>
    ensures two { IfSome result (λ fields. fields_of row.now ≡ fields.0.now ∷ fields.1.now ∷ []) }
    ensures other { IfNone result (length (fields_of row.now) ≢ 2) }
{
    if row.len() != 2 {
        return None;
    }
    Some((row.get(0)?, row.get(1)?))
}

/// A field that may be a token or a user, as the text that it is.
fn name_of(field: &[u8]) -> Option<&str>
    ensures name { IfSome result (λ name. (name.now ≡ field.now) × IsName field.now) }
    ensures other { IfNone result (¬ (IsName field.now)) }
{
    match str::from_utf8(field) {
        Ok(name) if !name.is_empty() => Some(name),
        _ => None,
    }
}
