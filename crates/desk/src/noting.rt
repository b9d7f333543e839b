ghost use Rattle.std.specs.Prelude.{◌≡◌, ◌<◌, ◌≤◌, ◌+◌, ◌^◌, ℕ, length, IfOk, IfSome, OnErr, min};
ghost use Rattle.std.specs.Vec.{vec_len, vec_capacity};
ghost use Rattle.cell_value.specs.FaultCount.{last_count, StaysSteady};
ghost use Rattle.desk.specs.Steps.{entry_of, unavailable_body};
ghost use Rattle.desk.specs.Journal.{entry_text, FieldsFit};
ghost use Rattle.desk.specs.Noting.{IsNoted, IsPrepared};

use crate::journal::{HEADING, put_entry};
use crate::{Ask, Entry, Keeper, Noted, PutFault};
use cell_value::{Bytes, Duplicate, NoMemory, Text};
use std::alloc::Global;

/// What came of the put of a piece.
pub(crate) enum Noting {
    /// It is kept, and its entry is added.
    Kept,
    /// The keeper failed; a mark is added, with the counts of faults before the put and after it.
    Marked(u64, u64),
}

/// What the put of an accepted call's piece needs, made before it.
#[derive(Drop)]
pub(crate) struct Prepared {
    pub(crate) entry: Entry,
    pub(crate) piece: Bytes,
    pub(crate) unavailable: Bytes,
}

/// How many bytes the entry of an ask has in the journal, or the last number of 64 bits, where it has more.
pub(crate) fn entry_size(ask: &Ask) -> u64
    ensures { result ≡ min (length (entry_text (entry_of 0 ask.now))) last_count }
{
    let user = match &ask.user {
        Some(user) => user.as_str().len(),
        None => 0,
    };
    20u64
        .saturating_add(user as u64)
        .saturating_add(ask.project.as_str().len() as u64)
        .saturating_add(ask.target.as_str().len() as u64)
        .saturating_add(ask.body.as_slice().len() as u64)
}

/// What the put of an ask's piece needs. The first piece of a journal begins with its eight bytes.
///
/// # Errors
///
/// [`NoMemory`] where memory runs out.
pub(crate) fn prepare(
    alloc: Global,
    caller: u32,
    ask: &Ask,
    first: bool,
) -> Result<Prepared, NoMemory>
    requires { FieldsFit (entry_of caller ask.now) }
    ensures { IfOk result (IsPrepared caller ask.now first) }
{
    let entry = make_entry(alloc, caller, ask)?;
    let mut piece = Bytes::of(Vec::new(alloc));
    if first {
        piece.extend_from_slice(HEADING)?;
    }
    put_entry(&mut piece, &entry)?;
    Ok(Prepared {
        entry,
        piece,
        unavailable: make_unavailable(alloc)?,
    })
}

// The entry that an ask makes.
fn make_entry(alloc: Global, caller: u32, ask: &Ask) -> Result<Entry, NoMemory>
    ensures { IfOk result (λ entry. entry ≡ entry_of caller ask.now) }
{
    let user = match &ask.user {
        Some(user) => user.duplicate()?,
        None => Text::of(String::new(alloc)),
    };
    Ok(Entry {
        caller,
        user,
        project: ask.project.duplicate()?,
        target: ask.target.duplicate()?,
        body: ask.body.duplicate()?,
    })
}

// The body of 503.
#[tactic(auto, unfolding(crate::specs::Steps::unavailable_body))]
fn make_unavailable(alloc: Global) -> Result<Bytes, NoMemory>
    ensures { IfOk result (λ body. body ≡ unavailable_body) }
{
    let body = b"{\"error\":{\"code\":503,\"message\":\"Unavailable\",\"status\":\"UNAVAILABLE\"}}";
    Ok(Bytes::of(Vec::from_slice(alloc, body)?))
}

/// Puts a piece behind the first `at` bytes that are kept, and adds its entry to the list, or a mark where the keeper
/// failed. It takes no memory of its own.
///
/// # Errors
///
/// [`NoMemory`] where the keeper found none: nothing has changed.
pub(crate) fn put_noted<K: Keeper>(
    keeper: &mut K,
    list: &mut Vec<Noted>,
    at: u64,
    entry: Entry,
    piece: &[u8],
) -> Result<Noting, NoMemory>
    requires at { IfSome (K.kept keeper.old) (λ bytes. at ≤ length bytes) }
    requires room { vec_len list.old < vec_capacity list.old }
    ensures noted { IfOk result (IsNoted entry at piece.now list.old.items list.new.items (K.kept keeper.old)
        (K.kept keeper.new) (K.failures keeper.old) (K.failures keeper.new)) }
    ensures list { OnErr result (list.new.items ≡ list.old.items) }
    ensures kept { OnErr result (K.kept keeper.new ≡ K.kept keeper.old) }
    ensures failures { OnErr result (K.failures keeper.new ≡ K.failures keeper.old) }
    ensures steady { StaysSteady (K.steady keeper.old) (K.steady keeper.new) (K.failures keeper.old)
        (K.failures keeper.new) }
{
    let before = keeper.faults();
    match keeper.put(at, piece) {
        Ok(()) => {
            list.push_reserved(Noted::Entry(entry));
            Ok(Noting::Kept)
        }
        Err(PutFault::NoMemory) => Err(NoMemory),
        Err(PutFault::Failed) => {
            let after = keeper.faults();
            list.push_reserved(Noted::Mark(entry, before, after));
            Ok(Noting::Marked(before, after))
        }
    }
}
