ghost use Rattle.std.specs.Prelude.{◌≡◌, ◌≢◌, ℕ, ◌<◌, ◌≤◌, true, [], ◌∷◌, ◌++◌, length, map, IfOk, IfSome, IfErr, OnErr};
ghost use Rattle.std.specs.Prelude.{None, Some, Err, IsTrue};
ghost use Rattle.cell_value.specs.FaultCount.{Rose};
ghost use Rattle.desk.specs.Journal.{journal_text};
ghost use Rattle.desk.specs.Histories.{AreAccepted};
ghost use Rattle.desk.specs.Noting.{IsTornBehind};
ghost use Rattle.desk.specs.Steps.{entry_of, full_body};
ghost use Rattle.desk.specs.Points.{Telling, IsSound, Happens, IsAnswered, IsCounted, AreCountsOf, IsUnmade, Keeps};
ghost use Rattle.desk.specs.Points.{entries_of, last_counted};
ghost use Rattle.desk.specs.Opening.{HasOpened, HasOnlyLoaded, HasLongJournal, HasBadJournal};

use crate::engine::Answered;
use crate::noting::{Noting, Prepared, entry_size, prepare, put_noted};
use crate::replay::{Replay, replay_journal};
use crate::{Ask, Engine, History, Keeper, Noted, OpenFault, Reply};
use cell_value::{Bytes, NoMemory};
use std::alloc::Global;
use std::marker::Model;

/// The most bytes that a journal may be given as its limit.
pub const LONGEST_JOURNAL: u64 = 1_073_741_824;

/// The world that a history made, its journal's keeper, and the told list. Contracts see the list, the journal's limit
/// with the keeper's count of faults at the opening, and the keeper.
///
/// The world stands for the entries of the list. The keeper's count of faults is that of the last mark, or, where there
/// is none, the one of the opening. Each entry is accepted behind those before it. The bytes that are kept are no more
/// than the limit, and the journal of the entries, or of these and one more, which has a mark behind the last and is
/// accepted there, too.
pub struct State<E: Engine, K: Keeper> {
    alloc: Global,
    keeper: K,
    world: E::World,
    list: Vec<Noted>,
    entries: u64,
    bytes: u64,
    limit: u64,
    opened: u64,
}

impl<E: Engine, K: Keeper> Model for State<E, K> {
    ghost Value = { Telling K };

    ghost view = { λ s. record { list = s.list.items; pair = (s.limit, s.opened); keeper = s.keeper } };

    ghost invariant = { λ s. IsSound E.plain E.stands s.world s.list.items s.entries s.bytes s.limit s.opened
        (K.failures s.keeper)
        (K.kept s.keeper) };
}

impl<E: Engine, K: Keeper> State<E, K> {
    /// A state with the history whose journal the keeper has, of at most `limit` bytes. No bytes, or a beginning of the
    /// journal's eight, are a journal without entries, and a torn rest behind the last entry is none.
    ///
    /// # Errors
    ///
    /// With the keeper: [`OpenFault::KeeperFault`] only where its count of faults rose in this call;
    /// [`OpenFault::JournalLong`] where it has more than `limit` bytes; [`OpenFault::BadJournal`] as
    /// [`crate::read_journal`] has [`crate::JournalFault::Bad`]; [`OpenFault::NoMemory`] where memory runs out.
    pub fn open(alloc: Global, mut keeper: K, limit: u64) -> Result<State<E, K>, (OpenFault, K)>
        requires { limit ≤ LONGEST_JOURNAL }
        ensures opened { IfOk result (λ state. HasOpened E.plain limit (K.kept keeper) state.list) }
        ensures pair { IfOk result (λ state. state.pair ≡ (limit, K.failures state.keeper)) }
        ensures loaded { IfOk result (λ state. HasOnlyLoaded K.kept K.failures K.steady keeper state.keeper) }
        ensures back { IfErr result (λ failed. HasOnlyLoaded K.kept K.failures K.steady keeper failed.1) }
        ensures cause { IfErr result (λ failed. failed.0 ≡ OpenFault.KeeperFault
            → Rose (K.failures keeper) (K.failures failed.1)) }
        ensures steady { IfErr result (λ failed. IsTrue (K.steady keeper) → failed.0 ≢ OpenFault.KeeperFault) }
        ensures long { IfErr result (λ failed. failed.0 ≡ OpenFault.JournalLong
            → HasLongJournal limit (K.kept keeper)) }
        ensures bad { IfErr result (λ failed. (number : ℕ) → failed.0 ≡ OpenFault.BadJournal number
            → HasBadJournal E.plain limit (K.kept keeper) number) }

        // Where no byte is kept there is no entry, and that is no fault.
        ensures empty { K.kept keeper ≡ Some [] → IfOk result (λ state. state.list ≡ []) }
        ensures not_long { K.kept keeper ≡ Some [] → IfErr result (λ failed. failed.0 ≢ OpenFault.JournalLong) }
        ensures not_bad { K.kept keeper ≡ Some [] → IfErr result (λ failed. (number : ℕ)
            → failed.0 ≢ OpenFault.BadJournal number) }
    {
        match load_history::<E, K>(alloc, &mut keeper, limit) {
            Err(fault) => Err((fault, keeper)),
            Ok(replay) => {
                let entries = replay.count();
                let opened = keeper.faults();
                let (world, list, bytes) = replay.into_parts();
                Ok(State {
                    alloc,
                    keeper,
                    world,
                    list,
                    entries,
                    bytes,
                    limit,
                    opened,
                })
            }
        }
    }

    /// Makes one call, at the end of the list, by what was read of its ask; where memory ran out as it was read it is
    /// answered 507. It is answered 503 only where the keeper's count of faults rose in it. Its reply is made before
    /// the keeper's put, and after the put no memory is taken. After an answer 507 the bytes that are kept are as they
    /// were.
    pub fn step(&mut self, caller: u32, ask: &Ask, asked: &Result<E::Asked, NoMemory>) -> Reply
        requires { IfOk asked.now (E.reads ask.now) }
        ensures happens { Happens E.plain self.old.pair caller ask.now self.old.list self.new.list result }
        ensures pair { self.new.pair ≡ self.old.pair }

        // The keeper's count of faults is that of the last mark, and the reply tells it. It rose where 503 is answered.
        ensures counted { IsCounted K.failures self.old × IsCounted K.failures self.new }
        ensures faults { AreCountsOf K.failures K.steady result.faults self.old.keeper self.new.keeper }
        ensures cause { result.status ≡ 503 → Rose (K.failures self.old.keeper) (K.failures self.new.keeper) }

        // Where the history grew, the bytes that are kept are its journal. Behind a mark they are what they were, or
        // end with a beginning of its entry's piece. Behind any other call they are what they were.
        ensures kept { length (entries_of self.old.list) < length (entries_of self.new.list)
            → IfSome (K.kept self.new.keeper) (λ bytes. bytes ≡ journal_text (entries_of self.new.list)) }
        ensures torn { result.status ≡ 503 → IsTornBehind (entries_of self.old.list) (entry_of caller ask.now)
            (K.kept self.old.keeper) (K.kept self.new.keeper) }
        ensures unkept { self.new.list ≡ self.old.list → K.kept self.new.keeper ≡ K.kept self.old.keeper }

        // What is kept can be opened again, whatever was answered.
        ensures keeps { Keeps E.plain self.new.pair.0 (K.kept self.new.keeper) self.new.list }
    {
        E::served_outcomes();
        match self.answer(caller, ask, asked) {
            Ok(reply) => reply,
            Err(NoMemory) => self.reply(507, None),
        }
    }

    /// How many items the list has.
    pub fn length(&self) -> u64
        ensures { result ≡ length self.now.list }
    {
        self.list.len() as u64
    }

    /// The keeper alone.
    pub fn into_keeper(self) -> K
        ensures { result ≡ self.keeper }
    {
        let State {
            alloc: _,
            keeper,
            world: _,
            list: _,
            entries: _,
            bytes: _,
            limit: _,
            opened: _,
        } = self;
        keeper
    }

    /// The history of the list's entries, and the keeper. It takes no memory.
    pub fn into_history(self) -> (History<E>, K)
        ensures history { result.0 ≡ entries_of self.list }
        ensures keeper { result.1 ≡ self.keeper }
        ensures accepted { AreAccepted E.plain result.0 }
        ensures kept { Keeps E.plain self.pair.0 (K.kept result.1) self.list }
        ensures counted { IsCounted K.failures self }
    {
        let State {
            alloc: _,
            keeper,
            world,
            list,
            entries,
            bytes,
            limit: _,
            opened: _,
        } = self;
        let history = History {
            world,
            list,
            entries,
            bytes,
        };
        (history, keeper)
    }

    // A reply at the end of the list.
    fn reply(&self, status: u16, body: Option<Bytes>) -> Reply
        ensures reply { (result.status ≡ status) × (result.body ≡ body) }
        ensures at { result.at ≡ length (entries_of self.now.list) }
        ensures counts { result.faults ≡ (
          last_counted self.now.pair.1 self.now.list,
          last_counted self.now.pair.1 self.now.list,
        ) }
        ensures counted { IsCounted K.failures self.now }
        ensures keeps { Keeps E.plain self.now.pair.0 (K.kept self.now.keeper) self.now.list }
    {
        let faults = self.keeper.faults();
        Reply {
            status,
            body,
            at: self.entries,
            faults: (faults, faults),
        }
    }

    // Answers a call at the end of the list, by what was read of its ask, and enters it where it is accepted.
    fn answer(
        &mut self,
        caller: u32,
        ask: &Ask,
        asked: &Result<E::Asked, NoMemory>,
    ) -> Result<Reply, NoMemory>
        requires { IfOk asked.now (E.reads ask.now) }
        ensures happens { IfOk result (IsAnswered E.plain self.old.pair caller ask.now self.old.list self.new.list) }
        ensures pair { self.new.pair ≡ self.old.pair }
        ensures counted { IsCounted K.failures self.old × IsCounted K.failures self.new }
        ensures faults { IfOk result (λ reply. AreCountsOf K.failures K.steady reply.faults self.old.keeper
            self.new.keeper) }
        ensures kept { length (entries_of self.old.list) < length (entries_of self.new.list)
            → IfSome (K.kept self.new.keeper) (λ bytes. bytes ≡ journal_text (entries_of self.new.list)) }
        ensures torn { IfOk result (λ reply. reply.status ≡ 503 → IsTornBehind (entries_of self.old.list)
            (entry_of caller ask.now) (K.kept self.old.keeper) (K.kept self.new.keeper)) }
        ensures unkept { self.new.list ≡ self.old.list → K.kept self.new.keeper ≡ K.kept self.old.keeper }
        ensures keeps { Keeps E.plain self.new.pair.0 (K.kept self.new.keeper) self.new.list }
        ensures unmade { OnErr result (IsUnmade K.failures K.steady self.old self.new) }
    {
        E::served_outcomes();
        let alloc = self.alloc;
        let Ok(asked) = asked else {
            return Err(NoMemory);
        };
        let Answered { status, body, next } = E::answer(alloc, &self.world, ask, asked)?;
        match next {
            None => Ok(self.reply(status, Some(body))),
            Some(world) => self.enter(caller, ask, world, status, body),
        }
    }

    // Enters an accepted call, which leaves that world and is answered so: its piece is put, and its entry is added,
    // or a mark. All memory is taken before the put.
    fn enter(
        &mut self,
        caller: u32,
        ask: &Ask,
        world: E::World,
        status: u16,
        body: Bytes,
    ) -> Result<Reply, NoMemory>
        requires world { (number : ℕ) → E.stands world (entries_of self.old.list ++ entry_of number ask.now ∷ []) }
        requires plain { E.plain (entries_of self.old.list) ask.now
            (record { status = status; body = body; accepts = true }) }
        ensures happens { IfOk result (IsAnswered E.plain self.old.pair caller ask.now self.old.list self.new.list) }
        ensures pair { self.new.pair ≡ self.old.pair }
        ensures counted { IsCounted K.failures self.old × IsCounted K.failures self.new }
        ensures faults { IfOk result (λ reply. AreCountsOf K.failures K.steady reply.faults self.old.keeper
            self.new.keeper) }
        ensures kept { length (entries_of self.old.list) < length (entries_of self.new.list)
            → IfSome (K.kept self.new.keeper) (λ bytes. bytes ≡ journal_text (entries_of self.new.list)) }
        ensures torn { IfOk result (λ reply. reply.status ≡ 503 → IsTornBehind (entries_of self.old.list)
            (entry_of caller ask.now) (K.kept self.old.keeper) (K.kept self.new.keeper)) }
        ensures unkept { self.new.list ≡ self.old.list → K.kept self.new.keeper ≡ K.kept self.old.keeper }
        ensures keeps { Keeps E.plain self.new.pair.0 (K.kept self.new.keeper) self.new.list }
        ensures unmade { OnErr result (IsUnmade K.failures K.steady self.old self.new) }
    {
        E::served_outcomes();
        let first = self.entries == 0;
        let total = self.bytes.saturating_add(entry_size(ask));
        if self.limit < total {
            return Ok(self.reply(429, Some(make_full(self.alloc)?)));
        }
        let Prepared {
            entry,
            piece,
            unavailable,
        } = prepare(self.alloc, caller, ask, first)?;
        let reply = self.reply(status, Some(body));
        self.list.reserve(1)?;
        let at = if first { 0 } else { self.bytes };
        match put_noted(
            &mut self.keeper,
            &mut self.list,
            at,
            entry,
            piece.as_slice(),
        )? {
            Noting::Kept => {
                self.world = world;
                self.entries += 1;
                self.bytes = total;
                Ok(reply)
            }
            Noting::Marked(before, after) => Ok(Reply {
                status: 503,
                body: Some(unavailable),
                at: reply.at,
                faults: (before, after),
            }),
        }
    }
}

// Loads the journal that the keeper has, of at most `limit` bytes, and makes its calls again.
fn load_history<E: Engine, K: Keeper>(
    alloc: Global,
    keeper: &mut K,
    limit: u64,
) -> Result<Replay<E>, OpenFault>
    requires { limit ≤ LONGEST_JOURNAL }
    ensures opened { IfOk result (λ replay. HasOpened E.plain limit (K.kept keeper.old) (map Noted.Entry replay)) }
    ensures loaded { HasOnlyLoaded K.kept K.failures K.steady keeper.old keeper.new }
    ensures cause { result ≡ Err OpenFault.KeeperFault → Rose (K.failures keeper.old) (K.failures keeper.new) }
    ensures long { result ≡ Err OpenFault.JournalLong → HasLongJournal limit (K.kept keeper.old) }
    ensures bad { (number : ℕ) → result ≡ Err (OpenFault.BadJournal number)
        → HasBadJournal E.plain limit (K.kept keeper.old) number }
{
    let mut bytes = Bytes::of(Vec::new(alloc));
    keeper.load(limit + 1, &mut bytes)?;
    let bytes = bytes.as_slice();
    if bytes.len() as u64 > limit {
        return Err(OpenFault::JournalLong);
    }
    Ok(replay_journal(alloc, bytes)?)
}

// The body of 429.
#[tactic(auto, unfolding(crate::specs::Steps::full_body))]
fn make_full(alloc: Global) -> Result<Bytes, NoMemory>
    ensures { IfOk result (λ body. body ≡ full_body) }
{
    let body =
        b"{\"error\":{\"code\":429,\"message\":\"HistoryFull\",\"status\":\"RESOURCE_EXHAUSTED\"}}";
    Ok(Bytes::of(Vec::from_slice(alloc, body)?))
}
