ghost use Rattle.std.specs.Prelude.{◌≡◌, ◌≢◌, ◌≤◌, ◌<◌, ◌+◌, ◌++◌, ℕ, List, [], ◌∷◌, length, drop, Some, None, IfOk};
ghost use Rattle.std.specs.Prelude.{IfErr, IfSome, IsTrue, max, ◌⊎◌};
ghost use Rattle.cell_value.specs.FaultCount.{Rose};
ghost use Rattle.history_lock.specs.History.{StartsWith, NoneOf, longer};
ghost use Rattle.history_lock.specs.declared.view.Drawing.TheVariants.{Alone, Shared, Never};
ghost use Rattle.history_lock.specs.Passes.{seen_by, number_of, given_by, count_of, drawing_of, met_by};
ghost use Rattle.desk.specs.declared.entry.Noted.{Noted};
ghost use Rattle.desk.specs.Points.{IsCallAt, IsClosed, AreCountsOf, caller_of};
ghost use Rattle.desk.specs.Opening.{HasOpened, HasOnlyLoaded, HasLongJournal, HasBadJournal};

use crate::{Ask, Engine, History, Keeper, LONGEST_JOURNAL, Noted, OpenFault, Reply, State};
use cell_value::NoMemory;
use history_lock::{Lock, Spent, Told};
use std::alloc::Global;
use std::sync::Wait;

/// A pass for a desk, whatever its engine and its keeper are.
pub type Pass = history_lock::Pass<Noted>;

impl<E: Engine, K: Keeper> Told for State<E, K> {
    ghost use Rattle.desk.specs.Points.{list_of, pair_of};

    type Entry = Noted;

    ghost list = { list_of };

    ghost caller = { caller_of };

    ghost pair = { pair_of };

    fn length(&self) -> u64 {
        self.length()
    }
}

/// One history that many callers share, each by a pass of its own.
///
/// Each call that takes a pass requires that it is of this desk, and says so of the one that it gives back. A desk is
/// not dropped: [`Desk::close`] gives the history and the keeper back.
pub struct Desk<E: Engine, K: Keeper> {
    alloc: Global,
    lock: Lock<State<E, K>>,
}

impl<E: Engine, K: Keeper> Desk<E, K> {
    ghost use Rattle.desk.specs.Desks.{IsPass, pair_at, list_at, keeper_at, callers_at};

    /// A desk for this many callers, with the history whose journal the keeper has, and the pass of number 0, which has
    /// seen it and alone draws numbers. The journal may have `limit` bytes. The entries that it has may be from any
    /// caller.
    ///
    /// # Errors
    ///
    /// With the keeper: [`OpenFault::KeeperFault`] only where its count of faults rose in this call;
    /// [`OpenFault::JournalLong`] where it has more than `limit` bytes; [`OpenFault::BadJournal`] as
    /// [`crate::read_journal`] has [`crate::JournalFault::Bad`]; [`OpenFault::NoMemory`] where memory runs out.
    pub fn open(
        alloc: Global,
        keeper: K,
        limit: u64,
        callers: u32,
    ) -> Result<(Desk<E, K>, Pass), (OpenFault, K)>
        requires limit { limit ≤ LONGEST_JOURNAL }
        requires callers { 0 < callers }
        ensures pass { IfOk result (λ made. IsPass made.0 made.1 × (seen_by made.1 ≡ list_at made.0)
            × (number_of made.1 ≡ 0)) }
        ensures opened { IfOk result (λ made. HasOpened E.plain limit (K.kept keeper) (list_at made.0)) }
        ensures pair { IfOk result (λ made. pair_at made.0 ≡ (limit, K.failures (keeper_at made.0))) }
        ensures loaded { IfOk result (λ made. HasOnlyLoaded K.kept K.failures K.steady keeper (keeper_at made.0)) }
        ensures callers { IfOk result (λ made. callers_at made.0 ≡ callers) }
        ensures drawn { IfOk result (λ made. (count_of made.1 ≡ 1) × (given_by made.1 ≡ None)) }
        ensures alone { IfOk result (λ made. drawing_of made.1 ≡ Alone) }
        ensures met { IfOk result (λ made. met_by made.1 ≡ []) }
        ensures back { IfErr result (λ failed. HasOnlyLoaded K.kept K.failures K.steady keeper failed.1) }
        ensures cause { IfErr result (λ failed. failed.0 ≡ OpenFault.KeeperFault
            → Rose (K.failures keeper) (K.failures failed.1)) }
        ensures steady { IfErr result (λ failed. IsTrue (K.steady keeper) → failed.0 ≢ OpenFault.KeeperFault) }
        ensures long { IfErr result (λ failed. failed.0 ≡ OpenFault.JournalLong
            → HasLongJournal limit (K.kept keeper)) }
        ensures bad { IfErr result (λ failed. (number : ℕ) → failed.0 ≡ OpenFault.BadJournal number
            → HasBadJournal E.plain limit (K.kept keeper) number) }

        // Where no byte is kept there is no entry, and that is no fault.
        ensures empty { K.kept keeper ≡ Some [] → IfOk result (λ made. list_at made.0 ≡ []) }
        ensures not_long { K.kept keeper ≡ Some [] → IfErr result (λ failed. failed.0 ≢ OpenFault.JournalLong) }
        ensures not_bad { K.kept keeper ≡ Some [] → IfErr result (λ failed. (number : ℕ)
            → failed.0 ≢ OpenFault.BadJournal number) }
    {
        let state = State::open(alloc, keeper, limit)?;
        match Lock::open(alloc, state, callers) {
            Ok((lock, pass)) => Ok((Desk { alloc, lock }, pass)),
            Err((state, NoMemory)) => Err((OpenFault::NoMemory, state.into_keeper())),
        }
    }

    /// A pass with the next number, that has seen the same list. Both then draw numbers.
    ///
    /// # Errors
    ///
    /// [`Spent`] where all numbers were drawn, each of them for some pass, or the pass was lent.
    pub fn pass<R: Wait>(&self, rt: &R, from: &mut Pass) -> Result<Pass, Spent>
        requires { IsPass self.now from.old }
        ensures old { IsPass self.now from.new }
        ensures same { (seen_by from.new ≡ seen_by from.old) × (number_of from.new ≡ number_of from.old) }
        ensures count { count_of from.old ≤ count_of from.new }
        ensures new { IfOk result (λ new. IsPass self.now new × (seen_by new ≡ seen_by from.old)) }
        ensures next { IfOk result (λ new. count_of from.old ≤ number_of new) }
        ensures counted { IfOk result (λ new. (count_of new ≡ number_of new + 1)
            × (count_of from.new ≡ number_of new + 1)) }
        ensures number { IfOk result (λ new. (number_of new < callers_at self.now)
            × (number_of new ≢ number_of from.old)) }
        ensures above { IfOk result (λ new. IfSome (given_by from.old) (λ given. given < number_of new)) }
        ensures unused { IfOk result (λ new. NoneOf caller_of (number_of new)
            (drop (length (list_at self.now)) (seen_by new))) }
        ensures given { IfOk result (λ new. (given_by from.new ≡ Some (number_of new)) × (given_by new ≡ None)) }
        ensures met { met_by from.new ≡ met_by from.old }
        ensures none_met { IfOk result (λ new. met_by new ≡ []) }
        ensures draws { IfOk result (λ _. drawing_of from.old ≢ Never) }
        ensures shared { IfOk result (λ new. (drawing_of from.new ≡ Shared) × (drawing_of new ≡ Shared)) }
        ensures spent { IfErr result (λ _. (drawing_of from.old ≡ Never) ⊎ (count_of from.new ≡ callers_at self.now)) }
        ensures none_given { IfErr result (λ _. given_by from.new ≡ given_by from.old) }
        ensures as_before { IfErr result (λ _. drawing_of from.new ≡ drawing_of from.old) }
    {
        self.lock.split(rt, from)
    }

    /// A pass with the next number, that has seen the same list, and draws no numbers itself. A pass that alone draws
    /// numbers does so still, and so knows how many were drawn.
    ///
    /// # Errors
    ///
    /// [`Spent`] where all numbers were drawn, or the pass was itself lent.
    pub fn lend<R: Wait>(&self, rt: &R, from: &mut Pass) -> Result<Pass, Spent>
        requires { IsPass self.now from.old }
        ensures old { IsPass self.now from.new }
        ensures same { (seen_by from.new ≡ seen_by from.old) × (number_of from.new ≡ number_of from.old)
            × (drawing_of from.new ≡ drawing_of from.old) }
        ensures count { count_of from.old ≤ count_of from.new }
        ensures new { IfOk result (λ new. IsPass self.now new × (seen_by new ≡ seen_by from.old)) }
        ensures lent { IfOk result (λ new. drawing_of new ≡ Never) }
        ensures draws { IfOk result (λ _. drawing_of from.old ≢ Never) }
        ensures next { IfOk result (λ new. count_of from.old ≤ number_of new) }
        ensures exact { IfOk result (λ new. drawing_of from.old ≡ Alone → number_of new ≡ count_of from.old) }
        ensures counted { IfOk result (λ new. (count_of new ≡ number_of new + 1)
            × (count_of from.new ≡ number_of new + 1)) }
        ensures number { IfOk result (λ new. (number_of new < callers_at self.now)
            × (number_of new ≢ number_of from.old)) }
        ensures above { IfOk result (λ new. IfSome (given_by from.old) (λ given. given < number_of new)) }
        ensures unused { IfOk result (λ new. NoneOf caller_of (number_of new)
            (drop (length (list_at self.now)) (seen_by new))) }
        ensures given { IfOk result (λ new. (given_by from.new ≡ Some (number_of new)) × (given_by new ≡ None)) }
        ensures met { met_by from.new ≡ met_by from.old }
        ensures none_met { IfOk result (λ new. met_by new ≡ []) }
        ensures spent { IfErr result (λ _. (drawing_of from.old ≡ Never) ⊎ (count_of from.new ≡ callers_at self.now)) }
        ensures none_given { IfErr result (λ _. given_by from.new ≡ given_by from.old) }
        ensures none_drawn { IfErr result (λ _. drawing_of from.old ≡ Alone
            → count_of from.new ≡ count_of from.old) }
    {
        self.lock.lend(rt, from)
    }

    /// Makes one call at a point of the history, whatever other passes do meanwhile. The pass has then seen all items
    /// up to its own. The ask is read before the wait for the turn, and what was read is let go of behind it. No clause
    /// says that the wait ends.
    pub fn call<R: Wait>(&self, rt: &R, pass: Pass, ask: &Ask) -> (Pass, Reply)
        requires { IsPass self.now pass }
        ensures pass { IsPass self.now result.0 }
        ensures number { number_of result.0 ≡ number_of pass }
        ensures drawn { (count_of result.0 ≡ count_of pass) × (given_by result.0 ≡ given_by pass)
            × (drawing_of result.0 ≡ drawing_of pass) }
        ensures met { met_by result.0 ≡ met_by pass }
        ensures call { IsCallAt E.plain (pair_at self.now) (callers_at self.now) (number_of pass) ask.now (seen_by pass)
            (seen_by result.0) result.1 }

        // The counts of faults are those of a keeper before the call and after it: a steady one is never unavailable.
        ensures faults { (before : K) × (after : K) × AreCountsOf K.failures K.steady result.1.faults before after }
    {
        let asked = E::read(self.alloc, ask);
        let caller = pass.number();
        let (turn, mut state) = self.lock.take(rt, pass);
        let reply = state.step(caller, ask, &asked);
        (self.lock.leave(turn, state), reply)
    }

    /// The pass has then seen the longer of both lists, which begins with each of them. What is new to it has no item
    /// of its own. The other pass is used up, and its number is taken in, with the length of its list: what is added
    /// from then on isn't from it.
    pub fn meet(&self, pass: &mut Pass, other: Pass)
        requires pass { IsPass self.now pass.old }
        requires other { IsPass self.now other }
        ensures pass { IsPass self.now pass.new }
        ensures same { (number_of pass.new ≡ number_of pass.old) × (given_by pass.new ≡ given_by pass.old)
            × (drawing_of pass.new ≡ drawing_of pass.old) }
        ensures count { count_of pass.new ≡ max (count_of pass.old) (count_of other) }
        ensures longer { seen_by pass.new ≡ longer (seen_by pass.old) (seen_by other) }
        ensures mine { StartsWith (seen_by pass.new) (seen_by pass.old) }
        ensures theirs { StartsWith (seen_by pass.new) (seen_by other) }
        ensures own { NoneOf caller_of (number_of pass.old) (drop (length (seen_by pass.old)) (seen_by pass.new)) }
        ensures met { met_by pass.new
            ≡ met_by pass.old ++ (number_of other, length (seen_by other)) ∷ met_by other }
    {
        self.lock.meet(pass, other);
    }

    /// Waits for the turn, and gives the history and the keeper. The entries are those of a list that begins with all
    /// that the pass has seen, and has no further call of the pass, nor of one that it took in. Where the pass alone
    /// draws numbers, those since the opening are from callers below the count that it knows. Each is accepted behind
    /// those before it. The keeper has failed as often as its last mark tells, and has the journal of the entries, or
    /// of these and one more that was answered 503 behind the last: a desk with the same limit can be opened with it
    /// ([`crate::opens_again`]). It takes no memory.
    pub fn close<R: Wait>(self, rt: &R, pass: Pass) -> (History<E>, K)
        requires { IsPass self pass }
        ensures { IsClosed E.plain (list_at self) (pair_at self) (callers_at self) pass result.0 (K.failures result.1)
            (K.kept result.1) }
    {
        let Desk { alloc: _, lock } = self;
        lock.close(rt, pass).into_history()
    }
}
