ghost use Rattle.std.specs.Prelude.{◌≡◌, ◌≢◌, ℕ, ◌+◌, ◌++◌, ◌<◌, ◌≤◌, true, [], ◌∷◌, All, drop, length, max, Some, None, IfOk, IfErr};
ghost use Rattle.std.specs.Prelude.{IfSome, ◌⊎◌};
ghost use Rattle.history_lock.specs.declared.view.Stage.TheVariants.{Away, Holds};
ghost use Rattle.history_lock.specs.declared.view.Drawing.TheVariants.{Alone, Shared, Never};
ghost use Rattle.history_lock.specs.History.{StartsWith, NoneOf, AllOf, AreSilent, longer};

use crate::pass::{Pass, Spent, Turn};
use crate::steps::{
    Counts, Draws, Hands, Hears, InTurn, Leaves, Notes, Opens, Readies, Returns, Settles, Shares,
    Takes, Waits,
};
use crate::told::Told;
use crate::view::{Drawing, View};
use atomic_table::{Badge, Seat, Table};
use cell_value::NoMemory;
use std::alloc::{Allocator, Global};
use std::snapshot::Snapshot;
use std::sync::Wait;
use std::{hint, mem};

// The words of the table.
const TURN: usize = 0;

const DRAWN: usize = 1;

const SLEEPERS: usize = 2;

// The only slot of the table.
const VALUE: usize = 0;

// How often a thread looks at the turn before it sleeps.
const LOOKS: u32 = 100;

/// One value that callers take in turns, and whose list only grows.
///
/// Each call that takes a pass or a turn requires that it is of this lock, and says so of the one that it gives back.
/// A lock is not dropped: [`Lock::close`] gives the last value back.
pub struct Lock<T: Told, A: Allocator = Global> {
    table: Table<Option<T>, View<T::Entry>, (Snapshot<T>, u32), InTurn, A>,
    callers: u32,
    ghost sized: { (table.shared.table_id.words ≡ 3) × (table.shared.table_id.slots ≡ 1) },
    ghost callers_is: { table.shared.key.1 ≡ callers },
}

impl<T: Told, A: Allocator> Lock<T, A> {
    ghost use Rattle.history_lock.specs.Rule.{OneNumberDrawn};
    ghost use Rattle.history_lock.specs.Steps.{Recounted, Redrawn};
    ghost use Rattle.history_lock.specs.Passes.{seen_by, number_of, given_by, count_of, taken_by, turn_number_of};
    ghost use Rattle.history_lock.specs.Passes.{turn_given_by, turn_count_of, drawing_of, turn_drawing_of};
    ghost use Rattle.history_lock.specs.Passes.{opened_with, callers_of, IsViewOf};
    ghost use Rattle.history_lock.specs.Passes.{view_of, met_by, turn_met_by, IsPassOf, IsTurnOf, IsDrawn};

    /// A lock round the value, for this many callers, and the pass of number 0, which has seen the value's list. It
    /// alone draws numbers, until it is split.
    ///
    /// # Errors
    ///
    /// [`NoMemory`], with the value, where memory runs out. No other call of a lock takes memory.
    pub fn open(
        alloc: A,
        value: T,
        callers: u32,
    ) -> Result<(Lock<T, A>, Pass<T::Entry>), (T, NoMemory)>
        requires { 0 < callers }
        ensures lock { IfOk result (λ made. (opened_with made.0 ≡ value) × (callers_of made.0 ≡ callers)) }
        ensures pass { IfOk result (λ made. IsPassOf T.list T.pair T.caller made.0 made.1) }
        ensures seen { IfOk result (λ made. seen_by made.1 ≡ T.list value) }
        ensures number { IfOk result (λ made. number_of made.1 ≡ 0) }
        ensures drawn { IfOk result (λ made. (count_of made.1 ≡ 1) × (given_by made.1 ≡ None)) }
        ensures alone { IfOk result (λ made. drawing_of made.1 ≡ Alone) }
        ensures met { IfOk result (λ made. met_by made.1 ≡ []) }

        // In the words with which a lock is made one number is drawn, that of the first pass.
        ensures one_drawn { OneNumberDrawn T.list T.pair T.caller value callers }
        ensures err { IfErr result (λ failed. failed.0 ≡ value) }
    {
        let about = (Snapshot::of(&value), callers);
        match Table::vacant(alloc, &[1, 1, 0], 1, &about) {
            Err(error) => Err((value, error.into())),
            Ok((table, mut seat)) => {
                table.shared.load::<Opens>(&mut seat, TURN);
                let lock = Lock { table, callers };
                let drawing = Drawing::Alone;
                let turn = Turn {
                    number: 0,
                    drawing,
                    seat,
                };
                let pass = lock.leave(turn, value);
                Ok((lock, pass))
            }
        }
    }

    /// Waits for the turn, and gives the value with it. Its list begins with what the pass has seen, and from there
    /// on has no entry of the pass's number. No clause says that the wait ends.
    pub fn take<R: Wait>(&self, rt: &R, pass: Pass<T::Entry>) -> (Turn<T>, T)
        requires { IsPassOf T.list T.pair T.caller self.now pass }
        ensures turn { IsTurnOf T.list T.pair self.now result.0 }
        ensures taken { taken_by result.0 ≡ T.list result.1 }
        ensures number { turn_number_of result.0 ≡ number_of pass }
        ensures drawn { (turn_count_of result.0 ≡ count_of pass) × (turn_given_by result.0 ≡ given_by pass)
            × (turn_drawing_of result.0 ≡ drawing_of pass) }

        // The list begins with what the pass has seen. What follows has no entry of the pass's number.
        ensures list { StartsWith (T.list result.1) (seen_by pass) }
        ensures own { NoneOf T.caller (number_of pass) (drop (length (seen_by pass)) (T.list result.1)) }

        // Of a pass that this one took in the list has no entry behind what that one had seen.
        ensures met { turn_met_by result.0 ≡ met_by pass }
        ensures done { AreSilent T.caller (met_by pass) (T.list result.1) }

        // Each entry since the opening is from one of so many callers.
        ensures callers { All (λ entry. T.caller entry < callers_of self.now)
            (drop (length (T.list (opened_with self.now))) (T.list result.1)) }

        // Where the pass alone draws numbers, each is from one below the count that it knows.
        ensures alone { drawing_of pass ≡ Alone → All (λ entry. T.caller entry < count_of pass)
            (drop (length (T.list (opened_with self.now))) (T.list result.1)) }
        ensures pair { T.pair result.1 ≡ T.pair (opened_with self.now) }
    {
        let (number, drawing, badge) = pass.into_parts();
        let mut seat = badge.into_seat();
        let shared = &self.table.shared;
        for _ in rt.forever() {
            if shared.compare_exchange::<Takes>(&mut seat, TURN, 0, 1) == 0 {
                let value = shared.exchange(&mut seat, VALUE, None).unwrap();
                let turn = Turn {
                    number,
                    drawing,
                    seat,
                };
                return (turn, value);
            }
            self.sleep(rt, &mut seat);
        }
        unreachable!()
    }

    // Until the turn is given back, or for no reason. Whoever gives it back wakes a thread only if one is counted.
    fn sleep<R: Wait>(&self, rt: &R, seat: &mut Seat<Option<T>, View<T::Entry>>)
        requires { seat.old.table_id ≡ self.now.table.shared.table_id }
        ensures { (seat.new.table_id ≡ seat.old.table_id) × (seat.new.me ≡ seat.old.me) }
    {
        if self.is_free_soon() {
            return;
        }
        let shared = &self.table.shared;
        shared.fetch_add::<Waits>(seat, SLEEPERS, 1);
        shared.park(rt, TURN, 1);
        shared.fetch_sub::<Waits>(seat, SLEEPERS, 1);
    }

    // Most turns are short.
    fn is_free_soon(&self) -> bool {
        for _ in 0..LOOKS {
            if self.table.shared.peek(TURN) == 0 {
                return true;
            }
            hint::spin_loop();
        }
        false
    }

    fn wake(&self) {
        let shared = &self.table.shared;
        if shared.peek(SLEEPERS) != 0 {
            shared.wake_one(TURN);
        }
    }

    /// Gives the turn back with the value, and the pass that was taken, which has seen the value's list.
    ///
    /// The list has to begin with the one that was taken, each entry that was added has to have the pass's number,
    /// and the pair has to be the same.
    pub fn leave(&self, turn: Turn<T>, value: T) -> Pass<T::Entry>
        requires turn { IsTurnOf T.list T.pair self.now turn }

        // The list begins with the one that was taken. What follows is all under the pass's number.
        requires list { StartsWith (T.list value) (taken_by turn) }
        requires own { AllOf T.caller (turn_number_of turn) (drop (length (taken_by turn)) (T.list value)) }
        requires pair { T.pair value ≡ T.pair (opened_with self.now) }
        ensures pass { IsPassOf T.list T.pair T.caller self.now result }
        ensures seen { seen_by result ≡ T.list value }
        ensures number { number_of result ≡ turn_number_of turn }
        ensures drawn { (count_of result ≡ turn_count_of turn) × (given_by result ≡ turn_given_by turn)
            × (drawing_of result ≡ turn_drawing_of turn) }
        ensures met { met_by result ≡ turn_met_by turn }
    {
        let Turn {
            number,
            drawing,
            mut seat,
        } = turn;
        let shared = &self.table.shared;
        match shared.exchange(&mut seat, VALUE, Some(value)) {
            None => {}
            Some(_) => unreachable!(),
        }
        shared.store::<Leaves>(&mut seat, TURN, 0);
        self.wake();
        Pass {
            number,
            drawing,
            badge: seat.into_badge(),
        }
    }

    /// A pass with the next number, below the number of callers and above each that this pass gave before, that has
    /// seen the same list. The pass itself then knows the number that it gave.
    ///
    /// # Errors
    ///
    /// [`Spent`] where all numbers were drawn, each of them for some pass. The pass then knows that count. Also where
    /// the pass was lent, and so draws none.
    pub fn split<R: Wait>(&self, rt: &R, pass: &mut Pass<T::Entry>) -> Result<Pass<T::Entry>, Spent>
        requires { IsPassOf T.list T.pair T.caller self.now pass.old }
        ensures old { IsPassOf T.list T.pair T.caller self.now pass.new }
        ensures same { (seen_by pass.new ≡ seen_by pass.old) × (number_of pass.new ≡ number_of pass.old) }
        ensures count { count_of pass.old ≤ count_of pass.new }
        ensures new { IfOk result (λ new. IsPassOf T.list T.pair T.caller self.now new) }
        ensures seen { IfOk result (λ new. seen_by new ≡ seen_by pass.old) }

        // Numbers are drawn one after the other: it is at least the count that the pass knew, and both passes then
        // know one more.
        ensures next { IfOk result (λ new. count_of pass.old ≤ number_of new) }
        ensures counted { IfOk result (λ new. (count_of new ≡ number_of new + 1)
            × (count_of pass.new ≡ number_of new + 1)) }

        // The number is new: it isn't the old pass's, it is above each that this pass gave, and no entry that was seen
        // to be added since the opening has it.
        ensures number { IfOk result (λ new. number_of new < callers_of self.now) }
        ensures other { IfOk result (λ new. number_of new ≢ number_of pass.old) }
        ensures above { IfOk result (λ new. IfSome (given_by pass.old) (λ given. given < number_of new)) }
        ensures unused { IfOk result (λ new. NoneOf T.caller (number_of new)
            (drop (length (T.list (opened_with self.now))) (seen_by new))) }
        ensures given { IfOk result (λ new. (given_by pass.new ≡ Some (number_of new)) × (given_by new ≡ None)) }
        ensures met { met_by pass.new ≡ met_by pass.old }
        ensures none_met { IfOk result (λ new. met_by new ≡ []) }

        // Of a pass that draws numbers itself; both draw them then.
        ensures draws { IfOk result (λ _. drawing_of pass.old ≢ Never) }
        ensures shared { IfOk result (λ new. (drawing_of pass.new ≡ Shared) × (drawing_of new ≡ Shared)) }

        ensures spent { IfErr result (λ _. (drawing_of pass.old ≡ Never) ⊎ (count_of pass.new ≡ callers_of self.now)) }
        ensures none_given { IfErr result (λ _. given_by pass.new ≡ given_by pass.old) }
        ensures as_before { IfErr result (λ _. drawing_of pass.new ≡ drawing_of pass.old) }
    {
        let mut new = self.lend(rt, pass)?;
        self.share(pass, &mut new);
        Ok(new)
    }

    /// A pass as [`Lock::split`] gives it, but one that draws no numbers itself. A pass that alone draws numbers does
    /// so still, and so knows how many were drawn.
    ///
    /// # Errors
    ///
    /// [`Spent`] where all numbers were drawn, or the pass was itself lent.
    pub fn lend<R: Wait>(&self, rt: &R, pass: &mut Pass<T::Entry>) -> Result<Pass<T::Entry>, Spent>
        requires { IsPassOf T.list T.pair T.caller self.now pass.old }
        ensures old { IsPassOf T.list T.pair T.caller self.now pass.new }
        ensures same { (seen_by pass.new ≡ seen_by pass.old) × (number_of pass.new ≡ number_of pass.old) }
        ensures drawing { drawing_of pass.new ≡ drawing_of pass.old }
        ensures count { count_of pass.old ≤ count_of pass.new }
        ensures new { IfOk result (λ new. IsPassOf T.list T.pair T.caller self.now new) }
        ensures seen { IfOk result (λ new. seen_by new ≡ seen_by pass.old) }
        ensures lent { IfOk result (λ new. drawing_of new ≡ Never) }
        ensures draws { IfOk result (λ _. drawing_of pass.old ≢ Never) }

        // It is at least the count that the pass knew, and just that where nobody else draws numbers.
        ensures next { IfOk result (λ new. count_of pass.old ≤ number_of new) }
        ensures exact { IfOk result (λ new. drawing_of pass.old ≡ Alone → number_of new ≡ count_of pass.old) }
        ensures counted { IfOk result (λ new. (count_of new ≡ number_of new + 1)
            × (count_of pass.new ≡ number_of new + 1)) }
        ensures number { IfOk result (λ new. number_of new < callers_of self.now) }
        ensures other { IfOk result (λ new. number_of new ≢ number_of pass.old) }
        ensures above { IfOk result (λ new. IfSome (given_by pass.old) (λ given. given < number_of new)) }
        ensures unused { IfOk result (λ new. NoneOf T.caller (number_of new)
            (drop (length (T.list (opened_with self.now))) (seen_by new))) }
        ensures given { IfOk result (λ new. (given_by pass.new ≡ Some (number_of new)) × (given_by new ≡ None)) }
        ensures met { met_by pass.new ≡ met_by pass.old }
        ensures none_met { IfOk result (λ new. met_by new ≡ []) }

        ensures spent { IfErr result (λ _. (drawing_of pass.old ≡ Never) ⊎ (count_of pass.new ≡ callers_of self.now)) }
        ensures none_given { IfErr result (λ _. given_by pass.new ≡ given_by pass.old) }
        ensures none_drawn { IfErr result (λ _. drawing_of pass.old ≡ Alone
            → count_of pass.new ≡ count_of pass.old) }
    {
        if let Drawing::Never = pass.drawing {
            return Err(Spent);
        }
        let mut seat = mem::replace(&mut pass.badge, Badge::blank()).into_seat();
        let drawn = self.draw(rt, &mut seat);
        pass.badge = seat.into_badge();
        let (number, new) = drawn?;
        Ok(Pass {
            number,
            drawing: Drawing::Never,
            badge: new.into_badge(),
        })
    }

    // The new pass draws numbers, too.
    fn share(&self, pass: &mut Pass<T::Entry>, new: &mut Pass<T::Entry>)
        requires pass { IsPassOf T.list T.pair T.caller self.now pass.old }
        requires new { IsPassOf T.list T.pair T.caller self.now new.old }
        requires draws { drawing_of pass.old ≢ Never }
        requires count { count_of pass.old ≡ count_of new.old }
        ensures pass { IsPassOf T.list T.pair T.caller self.now pass.new }
        ensures new { IsPassOf T.list T.pair T.caller self.now new.new }
        ensures same { (number_of pass.new ≡ number_of pass.old) × Redrawn (view_of pass.old) (view_of pass.new) }
        ensures same_new { (number_of new.new ≡ number_of new.old) × Redrawn (view_of new.old) (view_of new.new) }
    {
        let mut seat = mem::replace(&mut pass.badge, Badge::blank()).into_seat();
        let mut other = mem::replace(&mut new.badge, Badge::blank()).into_seat();
        let shared = &self.table.shared;
        let right = shared.split_seat::<Shares>(&mut seat);
        shared.join_seat::<Returns>(&mut other, right);
        pass.badge = seat.into_badge();
        pass.drawing = Drawing::Shared;
        new.badge = other.into_badge();
        new.drawing = Drawing::Shared;
    }

    // A new seat with a new number. It has the right to draw for as long as it takes, and gives it back. Where another
    // thread draws first, a further number is tried.
    fn draw<R: Wait>(
        &self,
        rt: &R,
        seat: &mut Seat<Option<T>, View<T::Entry>>,
    ) -> Result<(u32, Seat<Option<T>, View<T::Entry>>), Spent>
        requires here { seat.old.table_id ≡ self.now.table.shared.table_id }
        requires view { IsViewOf T.list T.pair self.now seat.old.me.0 }
        requires away { (seat.old.me.0.stage ≡ Away) × (seat.old.me.1 ≡ []) }
        requires draws { seat.old.me.0.drawing ≢ Never }
        ensures here { seat.new.table_id ≡ self.now.table.shared.table_id }
        ensures same { Recounted seat.old.me.0 seat.new.me.0 × (seat.new.me.1 ≡ []) }
        ensures count { seat.old.me.0.count ≤ seat.new.me.0.count }
        ensures new { IfOk result (λ drawn. IsDrawn T.caller self.now seat.old.me.0 drawn.0 drawn.1) }
        ensures counted { IfOk result (λ drawn. seat.new.me.0.count ≡ drawn.0 + 1) }
        ensures given { IfOk result (λ drawn. seat.new.me.0.given ≡ Some drawn.0) }
        ensures spent { IfErr result (λ _. seat.new.me.0.count ≡ callers_of self.now) }
        ensures none_given { IfErr result (λ _. seat.new.me.0.given ≡ seat.old.me.0.given) }
        ensures none_drawn { IfErr result (λ _. seat.old.me.0.drawing ≡ Alone
            → seat.new.me.0.count ≡ seat.old.me.0.count) }
    {
        let shared = &self.table.shared;
        for _ in rt.forever() {
            let next = shared.load::<Counts>(seat, DRAWN);
            if next >= u64::from(self.callers) {
                return Err(Spent);
            }
            let mut new = shared.split_seat::<Hands>(seat);
            if shared.compare_exchange::<Draws>(&mut new, DRAWN, next, next + 1) == next {
                let note = shared.split_seat::<Hands>(&mut new);
                shared.join_seat::<Notes>(seat, note);
                return Ok((next as u32, new));
            }
            shared.join_seat::<Returns>(seat, new);
        }
        unreachable!()
    }

    /// The pass has then seen the longer of both lists, which begins with each of them. What is new to it has no entry
    /// of its own number. The other pass is used up, and its number is taken in, with the length of its list: what any
    /// pass adds from then on isn't from it.
    pub fn meet(&self, pass: &mut Pass<T::Entry>, other: Pass<T::Entry>)
        requires pass { IsPassOf T.list T.pair T.caller self.now pass.old }
        requires other { IsPassOf T.list T.pair T.caller self.now other }
        ensures pass { IsPassOf T.list T.pair T.caller self.now pass.new }
        ensures same { (number_of pass.new ≡ number_of pass.old) × (given_by pass.new ≡ given_by pass.old)
            × (drawing_of pass.new ≡ drawing_of pass.old) }
        ensures count { count_of pass.new ≡ max (count_of pass.old) (count_of other) }
        ensures longer { seen_by pass.new ≡ longer (seen_by pass.old) (seen_by other) }
        ensures mine { StartsWith (seen_by pass.new) (seen_by pass.old) }
        ensures theirs { StartsWith (seen_by pass.new) (seen_by other) }
        ensures own { NoneOf T.caller (number_of pass.old) (drop (length (seen_by pass.old)) (seen_by pass.new)) }
        ensures met { met_by pass.new
            ≡ met_by pass.old ++ (number_of other, length (seen_by other)) ∷ met_by other }
    {
        let mut seat = mem::replace(&mut pass.badge, Badge::blank()).into_seat();
        let (_, _, badge) = other.into_parts();
        let shared = &self.table.shared;
        shared.join_seat::<Hears>(&mut seat, badge.into_seat());
        shared.load::<Settles>(&mut seat, TURN);
        pass.badge = seat.into_badge();
    }

    /// Waits for the turn, and gives the last value. Its list begins with what the pass has seen, and from there on
    /// has no entry of the pass's number.
    pub fn close<R: Wait>(self, rt: &R, pass: Pass<T::Entry>) -> T
        requires { IsPassOf T.list T.pair T.caller self pass }
        ensures list { StartsWith (T.list result) (seen_by pass) }
        ensures own { NoneOf T.caller (number_of pass) (drop (length (seen_by pass)) (T.list result)) }
        ensures done { AreSilent T.caller (met_by pass) (T.list result) }
        ensures callers { All (λ entry. T.caller entry < callers_of self)
            (drop (length (T.list (opened_with self))) (T.list result)) }

        // Where the pass alone draws numbers, each is from one below the count that it knows.
        ensures alone { drawing_of pass ≡ Alone → All (λ entry. T.caller entry < count_of pass)
            (drop (length (T.list (opened_with self))) (T.list result)) }
        ensures pair { T.pair result ≡ T.pair (opened_with self) }
    {
        let (turn, value) = self.take(rt, pass);
        let Turn {
            number: _,
            drawing: _,
            mut seat,
        } = turn;
        let Lock { table, callers: _ } = self;
        match table.shared.exchange(&mut seat, VALUE, Some(value)) {
            None => {}
            Some(_) => unreachable!(),
        }
        table.shared.load::<Readies>(&mut seat, TURN);
        let mut closed = table.close_with(seat);
        let last = closed.take(VALUE).unwrap();
        closed.free();
        last
    }
}
