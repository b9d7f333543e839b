ghost use Rattle.std.specs.Prelude.{◌≡◌, ◌<◌, ◌+◌, ◌^◌, ℕ, List, [], ◌∷◌, ◌++◌, length, map, true, false, IfOk, MatchOption, Ok, Err};
ghost use Rattle.desk.specs.Journal.{journal_text, entry_text};
ghost use Rattle.desk.specs.declared.entry.Entry.{Entry};
ghost use Rattle.desk.specs.Steps.{entry_of};
ghost use Rattle.desk.specs.Histories.{IsHistory, IsBadAt, IsAcceptedBehind};
ghost use Rattle.desk.specs.Replaying.{IsMadeAgain, IsReplayed, entry_in};

use crate::engine::Answered;
use crate::journal::HEADING;
use crate::reading::{EntryBytes, ask_again, split_entry};
use crate::{Ask, Engine, Entry, History, JournalFault, Noted};
use cell_value::{NoMemory, Text};
use std::alloc::Global;
use std::marker::Model;

/// The history that the first entries of a journal make, while it is read. Contracts see these entries.
pub(crate) struct Replay<E: Engine> {
    pub(crate) world: E::World,
    pub(crate) list: Vec<Noted>,
    pub(crate) bytes: u64,
}

impl<E: Engine> Model for Replay<E> {
    ghost use Rattle.desk.specs.declared.entry.Entry.{Entry};
    ghost use Rattle.std.specs.Prelude.{List};
    ghost use Rattle.desk.specs.Points.{entries_of};
    ghost use Rattle.desk.specs.Replaying.{IsReplayed};

    ghost Value = { List Entry };

    ghost view = { λ r. entries_of r.list.items };

    ghost invariant = { λ r. IsReplayed E.stands r.world r.list.items r.bytes };
}

impl<E: Engine> Drop for Replay<E> {
    fn drop(self) {
        let Self {
            world: _,
            list: _,
            bytes: _,
        } = self;
    }
}

impl<E: Engine> Replay<E> {
    /// The history without an entry.
    ///
    /// # Errors
    ///
    /// [`NoMemory`] where memory runs out.
    pub(crate) fn opening(alloc: Global) -> Result<Replay<E>, NoMemory>
        ensures { IfOk result (λ replay. replay ≡ []) }
    {
        Ok(Replay {
            world: E::opening(alloc)?,
            list: Vec::new(alloc),
            bytes: HEADING.len() as u64,
        })
    }

    /// How many entries there are.
    pub(crate) fn count(&self) -> u64
        ensures { result ≡ length self.now }
    {
        self.list.len() as u64
    }

    /// The world, the list of its entries, and how many bytes their journal has.
    pub(crate) fn into_parts(self) -> (E::World, Vec<Noted>, u64)
        ensures replayed { IsReplayed E.stands result.0 result.1.items result.2 }
        ensures list { result.1.items ≡ map Noted.Entry self }
    {
        let Self { world, list, bytes } = self;
        (world, list, bytes)
    }

    /// Makes the call of an entry again, which has so many bytes in the journal, and tells whether it is accepted; it
    /// is then one of the entries.
    ///
    /// # Errors
    ///
    /// [`NoMemory`] where memory runs out.
    fn accept(&mut self, alloc: Global, entry: &EntryBytes<'_>, size: u64) -> Result<bool, NoMemory>
        requires size { size ≡ length (entry_text (entry_in entry.now)) }
        requires room { length (journal_text self.old) + size < 2 ^ 64 }
        ensures accepted { result ≡ Ok true → (self.new ≡ self.old ++ entry_in entry.now ∷ [])
            × IsAcceptedBehind E.plain self.old (entry_in entry.now) }
        ensures refused { result ≡ Ok false → (self.new ≡ self.old)
            × ¬ (IsAcceptedBehind E.plain self.old (entry_in entry.now)) }
    {
        let Some((entry, world)) = call_again::<E>(alloc, &self.world, entry)? else {
            return Ok(false);
        };
        self.list.reserve(1)?;
        self.list.push_reserved(Noted::Entry(entry));
        self.world = world;
        self.bytes += size;
        Ok(true)
    }
}

// The entry that is read, and the world after its call, which is made again on the world before it; none where it
// isn't accepted.
fn call_again<E: Engine>(
    alloc: Global,
    world: &E::World,
    entry: &EntryBytes<'_>,
) -> Result<Option<(Entry, E::World)>, NoMemory>
    ensures { (before : List Entry) → E.stands world.now before → IfOk result (λ made.
        MatchOption made (¬ (IsAcceptedBehind E.plain before (entry_in entry.now)))
        (λ one. IsMadeAgain E.plain E.stands before (entry_in entry.now) one.0 one.1)) }
{
    E::one_outcome();
    let Some(ask) = ask_again(alloc, entry)? else {
        return Ok(None);
    };
    let asked = E::read(alloc, &ask)?;
    let Answered {
        status: _,
        body: _,
        next,
    } = E::answer(alloc, world, &ask, &asked)?;
    let Some(world) = next else {
        return Ok(None);
    };
    Ok(Some((enter(alloc, entry.caller, ask), world)))
}

// The entry that an ask of this caller makes.
fn enter(alloc: Global, caller: u32, ask: Ask) -> Entry
    ensures { result ≡ entry_of caller ask }
{
    let Ask {
        user,
        project,
        target,
        coded: _,
        body,
    } = ask;
    let user = match user {
        Some(user) => user,
        None => Text::of(String::new(alloc)),
    };
    Entry {
        caller,
        user,
        project,
        target,
        body,
    }
}

/// Reads the journal of a history, entry by entry, and makes each call again behind those before it.
///
/// # Errors
///
/// As [`read_journal`].
pub(crate) fn replay_journal<E: Engine>(
    alloc: Global,
    bytes: &[u8],
) -> Result<Replay<E>, JournalFault>
    ensures history { IfOk result (λ replay. IsHistory E.plain bytes.now replay) }
    ensures bad { (number : ℕ) → result ≡ Err (JournalFault.Bad number) → IsBadAt E.plain bytes.now number }
{
    let mut replay = Replay::<E>::opening(alloc)?;
    let Some(body) = bytes.strip_prefix(HEADING) else {
        return if HEADING.starts_with(bytes) {
            Ok(replay)
        } else {
            Err(JournalFault::Bad(0))
        };
    };
    let mut rest = body;
    while let Some((entry, behind)) = split_entry(rest) {
        let size = (rest.len() - behind.len()) as u64;
        if !replay.accept(alloc, &entry, size)? {
            return Err(JournalFault::Bad(replay.count() + 1));
        }
        rest = behind;
    }
    Ok(replay)
}

/// Reads the journal of a history: the eight bytes `SHEETJ01`, then the entries. No bytes, or a beginning of the
/// eight, are a journal without entries. What stands behind the last whole entry is torn, and is no entry. The number
/// of an entry's caller may be any.
///
/// # Errors
///
/// [`JournalFault::Bad`] with 0 where the bytes don't begin so; with the number of an entry, counted from 1, where its
/// user, project or target isn't UTF-8, or its call isn't accepted behind the entries before it. How long the journal
/// is doesn't matter. [`JournalFault::NoMemory`] where memory runs out.
pub fn read_journal<E: Engine>(alloc: Global, bytes: &[u8]) -> Result<History<E>, JournalFault>
    ensures history { IfOk result (λ history. IsHistory E.plain bytes.now history) }
    ensures bad { (number : ℕ) → result ≡ Err (JournalFault.Bad number) → IsBadAt E.plain bytes.now number }
{
    let replay = replay_journal::<E>(alloc, bytes)?;
    let entries = replay.count();
    let (world, list, bytes) = replay.into_parts();
    Ok(History {
        world,
        list,
        entries,
        bytes,
    })
}
