ghost use Rattle.std.specs.Prelude.{◌≡◌, ◌≢◌, ℕ, List, ◌++◌, MatchOption, IfOk};
ghost use Rattle.desk.specs.Journal.{four, field_text, entry_text, IsTorn};
ghost use Rattle.desk.specs.Histories.{AreTexts, asked_again};
ghost use Rattle.desk.specs.Replaying.{entry_in};

use crate::Ask;
use cell_value::{Bytes, NoMemory, Text};
use std::alloc::Global;

/// An entry as it stands in a journal.
#[derive(Drop)]
pub(crate) struct EntryBytes<'a> {
    pub(crate) caller: u32,
    pub(crate) user: &'a [u8],
    pub(crate) project: &'a [u8],
    pub(crate) target: &'a [u8],
    pub(crate) body: &'a [u8],
}

/// The first whole entry, and what stands behind it; none where the bytes begin with none.
pub(crate) fn split_entry(bytes: &[u8]) -> Option<(EntryBytes<'_>, &[u8])>
    ensures { MatchOption result (IsTorn bytes.now)
        (λ read. bytes.now ≡ entry_text (entry_in read.0) ++ read.1.now) }
{
    let (caller, rest) = split_number(bytes)?;
    let (user, rest) = split_field(rest)?;
    let (project, rest) = split_field(rest)?;
    let (target, rest) = split_field(rest)?;
    let (body, rest) = split_field(rest)?;
    let entry = EntryBytes {
        caller,
        user,
        project,
        target,
        body,
    };
    Some((entry, rest))
}

// The number in the first four bytes, most significant first, and what stands behind them.
fn split_number(bytes: &[u8]) -> Option<(u32, &[u8])>
    ensures { MatchOption result ((number : ℕ) (behind : List ℕ) → bytes.now ≢ four number ++ behind)
        (λ read. bytes.now ≡ four read.0 ++ read.1.now) }
{
    let (number, rest) = bytes.split_first_chunk::<4>()?;
    Some((u32::from_be_bytes(*number), rest))
}

// The first field, and what stands behind it.
fn split_field(bytes: &[u8]) -> Option<(&[u8], &[u8])>
    ensures { MatchOption result ((field : List ℕ) (behind : List ℕ) → bytes.now ≢ field_text field ++ behind)
        (λ read. bytes.now ≡ field_text read.0.now ++ read.1.now) }
{
    let (length, rest) = split_number(bytes)?;
    rest.split_at_checked(length as usize)
}

/// What the call of an entry asked, made of copies of its fields; none where user, project or target isn't UTF-8.
///
/// # Errors
///
/// [`NoMemory`] where memory runs out.
pub(crate) fn ask_again(alloc: Global, entry: &EntryBytes<'_>) -> Result<Option<Ask>, NoMemory>
    ensures { IfOk result (λ asked. MatchOption asked (¬ AreTexts (entry_in entry.now))
        (λ ask. AreTexts (entry_in entry.now) × (ask ≡ asked_again (entry_in entry.now)))) }
{
    let Ok(user) = str::from_utf8(entry.user) else {
        return Ok(None);
    };
    let Ok(project) = str::from_utf8(entry.project) else {
        return Ok(None);
    };
    let Ok(target) = str::from_utf8(entry.target) else {
        return Ok(None);
    };
    Ok(Some(Ask {
        user: Some(Text::of(String::from_str(alloc, user)?)),
        project: Text::of(String::from_str(alloc, project)?),
        target: Text::of(String::from_str(alloc, target)?),
        coded: false,
        body: Bytes::of(Vec::from_slice(alloc, entry.body)?),
    }))
}
