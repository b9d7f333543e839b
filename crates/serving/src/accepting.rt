ghost use Rattle.std.specs.Prelude.{◌≡◌, ◌+◌, ◌<◌, ◌≤◌, [], length, IfOk, IfErr, IfSome, IsTrue};
ghost use Rattle.std.specs.Option.{option_map};
ghost use Rattle.cell_value.specs.FaultCount.{last_count, Rose, StaysSteady};
ghost use Rattle.history_lock.specs.Passes.{count_of, drawing_of, met_by};
ghost use Rattle.desk.specs.Desks.{IsPass};
ghost use Rattle.connections.specs.Calls.{IsAnswer};
ghost use Rattle.connections.specs.Doors.{link_seen, IsAway, after_accept, after_back};
ghost use Rattle.serving.specs.Serving.{IsTalked, HasMet, Stands, HasAsked, IsSame, HasOneMore};
ghost use Rattle.serving.specs.Serving.{HasAccepted, HaveAllTalked, AreServed, arrival_of};

use cell_value::Failed;
use connections::{Doors, converse};
use conversation::Ended;
use desk::{Desk, Engine, History, Keeper, Pass};
use sheets_http::{LONGEST_TALK, Users};
use std::alloc::Global;
use std::marker::Model;
use std::snapshot::Snapshot;
use std::sync::atomic::{AtomicU64, Ordering};
use std::sync::{Arc, Wait};
use std::thread;
use std::thread::{Promise, PromisedHandle, Scope, Threads};

/// How the accepting of connections ended.
#[derive(Clone, Copy, Debug, PartialEq, Eq)]
pub enum Served {
    /// All connections were accepted.
    All,
    /// The doors failed.
    DoorFault,
}

// What a conversation leaves.
#[derive(Drop)]
struct Talked<S> {
    ended: Ended,
    rest: S,
    pass: Pass,
}

// The promise of a conversation with this link: the caller is that of the pass.
#[derive(Drop)]
struct Talking<D: Doors, E: Engine, K: Keeper> {
    desk: Snapshot<Desk<E, K>>,
    users: Snapshot<Users>,
    pass: Snapshot<Pass>,
    link: Snapshot<D::Link>,
}

impl<D: Doors, E: Engine, K: Keeper> Promise<Talked<D::Rest>> for Talking<D, E, K> {
    ghost use Rattle.connections.specs.Calls.{IsAnswer};
    ghost use Rattle.connections.specs.Doors.{link_seen};
    ghost use Rattle.history_lock.specs.Passes.{count_of};
    ghost use Rattle.serving.specs.Serving.{IsTalked, arrival_of};

    ghost kept_by = { λ promise talked. IsTalked (IsAnswer E.plain K.failures K.steady)
        promise.desk.value promise.users.value
        (arrival_of promise.pass.value (link_seen D.Link.left D.Link.written D.Link.faults D.Link.sink_faults
        D.Link.sink_shortages D.Link.steady D.Link.sink_steady D.Link.references promise.link.value))
        (count_of promise.pass.value)
        (record { ended = talked.ended; link = D.rest_seen talked.rest }) talked.pass };
}

// A connection that a thread serves. Its last act sets the number behind `ended`.
#[derive(Drop)]
struct Started<D: Doors, E: Engine, K: Keeper> {
    number: u32,
    ended: Arc<AtomicU64>,
    thread: PromisedHandle<Talked<D::Rest>, Talking<D, E, K>>,
}

impl<D: Doors, E: Engine, K: Keeper> Model for Started<D, E, K> {
    ghost use Rattle.connections.specs.Doors.{link_seen};
    ghost use Rattle.history_lock.specs.Passes.{count_of};
    ghost use Rattle.serving.specs.Serving.{Waiting, arrival_of};

    ghost Value = { Waiting E K E.World E.Asked };

    ghost view = { λ s. record {
      number = s.number;
      arrival = arrival_of s.thread.promise.pass.value (link_seen D.Link.left D.Link.written D.Link.faults
          D.Link.sink_faults D.Link.sink_shortages D.Link.steady D.Link.sink_steady D.Link.references
          s.thread.promise.link.value);
      count = count_of s.thread.promise.pass.value;
      desk = s.thread.promise.desk.value;
      users = s.thread.promise.users.value;
    } };
}

impl<D: Doors, E: Engine, K: Keeper> Started<D, E, K> {
    // Its number.
    fn number(&self) -> u32
        ensures { result ≡ self.now.number }
    {
        self.number
    }

    // Whether its conversation has ended. No clause says when.
    fn has_ended(&self) -> bool {
        self.ended.load(Ordering::SeqCst) != 0
    }

    // Waits for its end.
    fn join<R: Threads>(self, rt: &R) -> Talked<D::Rest>
        ensures { IsTalked (IsAnswer E.plain K.failures K.steady) self.desk self.users self.arrival self.count
            (record { ended = result.ended; link = D.rest_seen result.rest }) result.pass }
    {
        let Started {
            number: _,
            ended: _,
            thread,
        } = self;
        thread.join(rt)
    }
}

// Serves a connection, and ends its link.
fn talk<R: Wait, D: Doors, E: Engine, K: Keeper>(
    rt: &R,
    alloc: Global,
    desk: &Desk<E, K>,
    users: &Users,
    pass: Pass,
    link: D::Link,
) -> Talked<D::Rest>
    requires { IsPass desk.now pass }
    ensures talked { IsTalked (IsAnswer E.plain K.failures K.steady) desk.now users.now
        (arrival_of pass
        (link_seen D.Link.left D.Link.written D.Link.faults D.Link.sink_faults D.Link.sink_shortages D.Link.steady
        D.Link.sink_steady D.Link.references
        link)) (count_of pass) (record { ended = result.ended; link = D.rest_seen result.rest }) result.pass }
    ensures drawing { drawing_of result.pass ≡ drawing_of pass }
    ensures met { met_by result.pass ≡ met_by pass }
{
    let mut link = link;
    let (ended, pass) = converse(rt, alloc, &mut link, desk, users, pass, LONGEST_TALK);
    Talked {
        ended,
        rest: D::close(link),
        pass,
    }
}

// Two ends of a number that says whether a thread has ended. There are none where memory runs out.
fn signal(alloc: Global) -> Option<(Arc<AtomicU64>, Arc<AtomicU64>)> {
    let here = Arc::new(alloc, AtomicU64::new(0)).ok()?;
    let there = Arc::try_clone(&here).ok()?;
    Some((here, there))
}

// Serves a connection by a thread of its own. Where none can be started, it is served here.
fn start<
    's,
    X,
    R: Threads + Wait + Sync,
    D: Doors + Send + 's,
    E: Engine + Send + 's,
    K: Keeper + Send + 's,
>(
    rt: &'s R,
    alloc: Global,
    scope: &Scope<'s, X>,
    desk: &'s Desk<E, K>,
    users: &'s Users,
    pass: Pass,
    link: D::Link,
    number: u32,
    signal: (Arc<AtomicU64>, Arc<AtomicU64>),
) -> Result<Started<D, E, K>, Talked<D::Rest>>
where
    E::World: Send,
    E::Asked: Send,
    requires { IsPass desk.now pass }
    ensures started { IfOk result (λ started. started ≡ record {
      number = number;
      arrival = arrival_of pass (link_seen D.Link.left D.Link.written D.Link.faults D.Link.sink_faults
          D.Link.sink_shortages D.Link.steady D.Link.sink_steady D.Link.references link);
      count = count_of pass;
      desk = desk.now;
      users = users.now;
    }) }
    ensures talked { IfErr result (λ talked. IsTalked (IsAnswer E.plain K.failures K.steady) desk.now users.now
        (arrival_of pass
        (link_seen D.Link.left D.Link.written D.Link.faults D.Link.sink_faults D.Link.sink_shortages D.Link.steady
        D.Link.sink_steady D.Link.references
        link)) (count_of pass) (record { ended = talked.ended; link = D.rest_seen talked.rest }) talked.pass) }
{
    let (ended, there) = signal;
    let promise: Talking<D, E, K> = Talking {
        desk: Snapshot::of(desk),
        users: Snapshot::of(users),
        pass: Snapshot::of(&pass),
        link: Snapshot::of(&link),
    };
    match scope.spawn_with(
        promise,
        move || -> Talked<D::Rest>
            requires { IsPass desk.now pass }
            ensures { IsTalked (IsAnswer E.plain K.failures K.steady) desk.entry.now users.entry.now
                (arrival_of pass (link_seen D.Link.left D.Link.written D.Link.faults D.Link.sink_faults
                D.Link.sink_shortages D.Link.steady D.Link.sink_steady D.Link.references link)) (count_of pass)
                (record { ended = result.ended; link = D.rest_seen result.rest }) result.pass }
        {
            let talked = talk::<R, D, E, K>(rt, alloc, desk, users, pass, link);
            there.store(1, Ordering::SeqCst);
            talked
        },
    ) {
        Ok(thread) => Ok(Started {
            number,
            ended,
            thread,
        }),
        Err(refused) => Err((refused.value)()),
    }
}

// Accepts connections, each of which a thread serves, or itself with its own pass.
struct Acceptor<'s, D: Doors, E: Engine, K: Keeper> {
    alloc: Global,
    desk: &'s Desk<E, K>,
    users: &'s Users,
    doors: Snapshot<D>,
    first: Snapshot<Pass>,
    pass: Pass,
    threads: Vec<Started<D, E, K>>,
    accepted: u32,
    end: Served,
}

impl<'s, D: Doors, E: Engine, K: Keeper> Model for Acceptor<'s, D, E, K> {
    ghost use Rattle.serving.specs.Serving.{Accepting};

    ghost Value = { Accepting E K E.World E.Asked };

    ghost view = { λ a. record {
      begun = record { desk = a.desk.now; users = a.users.now; pass = a.first.value; shown = D.shown a.doors.value };
      pass = a.pass;
      threads = a.threads.items;
      accepted = a.accepted;
      end = a.end;
    } };
}

impl<'s, D: Doors, E: Engine, K: Keeper> Acceptor<'s, D, E, K> {
    // Nothing was accepted yet.
    fn new(
        alloc: Global,
        desk: &'s Desk<E, K>,
        users: &'s Users,
        doors: &D,
        pass: Pass,
    ) -> Acceptor<'s, D, E, K>
        requires pass { IsPass desk.now pass }
        requires new_doors { IfSome (D.shown doors.now) (λ shown. shown.connections ≡ []) }
        ensures stands { Stands (IsAnswer E.plain K.failures K.steady) result (D.shown doors.now) }
        ensures begun { result.begun ≡ record {
          desk = desk.now;
          users = users.now;
          pass = pass;
          shown = D.shown doors.now;
        } }
        ensures none { result.accepted ≡ 0 }
        ensures end { result.end ≡ Served.All }
    {
        let first = Snapshot::of(&pass);
        Acceptor {
            alloc,
            desk,
            users,
            doors: Snapshot::of(doors),
            first,
            pass,
            threads: Vec::new(alloc),
            accepted: 0,
            end: Served::All,
        }
    }

    // How many threads aren't joined.
    fn running(&self) -> usize
        ensures { result ≡ length self.now.threads }
    {
        self.threads.len()
    }

    // Whether the thread at this place has ended.
    fn has_ended(&self, at: usize) -> bool
        requires { at < length self.now.threads }
    {
        self.threads[at].has_ended()
    }

    // A connection is back, and the pass takes in the one that made its calls.
    fn take_back(self, doors: &mut D, number: u32, talked: Talked<D::Rest>) -> Acceptor<'s, D, E, K>
        requires pass { IsPass self.begun.desk self.pass }
        requires talked { IsPass self.begun.desk talked.pass }
        requires away { IfSome (D.shown doors.old) (λ shown. IsAway number shown.connections) }
        ensures same { IsSame self.entry result }
        ensures threads { result.threads ≡ self.entry.threads }
        ensures met { HasMet self.entry.begun.desk self.entry.pass talked.pass result.pass }
        ensures shown { D.shown doors.new ≡ option_map (after_back number (record {
          ended = talked.ended;
          link = D.rest_seen talked.rest;
        })) (D.shown doors.old) }
        ensures failures { D.failures doors.new ≡ D.failures doors.old }
        ensures steady { D.steady doors.new ≡ D.steady doors.old }
    {
        let Talked { ended, rest, pass } = talked;
        doors.back(number, ended, rest);
        let mut acceptor = self;
        acceptor.desk.meet(&mut acceptor.pass, pass);
        acceptor
    }

    // Joins the thread at this place.
    fn join<R: Threads>(self, rt: &R, doors: &mut D, at: usize) -> Acceptor<'s, D, E, K>
        requires at { at < length self.threads }
        requires stands { Stands (IsAnswer E.plain K.failures K.steady) self (D.shown doors.old) }
        ensures stands { Stands (IsAnswer E.plain K.failures K.steady) result (D.shown doors.new) }
        ensures same { IsSame self.entry result }
        ensures fewer { length result.threads + 1 ≡ length self.entry.threads }
        ensures failures { D.failures doors.new ≡ D.failures doors.old }
        ensures steady { D.steady doors.new ≡ D.steady doors.old }
    {
        let mut acceptor = self;
        let started = acceptor.threads.remove(at);
        let number = started.number();
        let talked = started.join(rt);
        acceptor.take_back(doors, number, talked)
    }

    // Joins the threads that have ended.
    fn reap<R: Threads>(self, rt: &R, doors: &mut D) -> Acceptor<'s, D, E, K>
        requires { Stands (IsAnswer E.plain K.failures K.steady) self (D.shown doors.old) }
        ensures stands { Stands (IsAnswer E.plain K.failures K.steady) result (D.shown doors.new) }
        ensures same { IsSame self.entry result }
        ensures failures { D.failures doors.new ≡ D.failures doors.old }
        ensures steady { D.steady doors.new ≡ D.steady doors.old }
    {
        let mut acceptor = self;
        let mut at = acceptor.running();
        while at > 0 {
            at -= 1;
            if acceptor.has_ended(at) {
                acceptor = acceptor.join(rt, doors, at);
            }
        }
        acceptor
    }

    // Joins all threads.
    fn join_all<R: Threads>(self, rt: &R, doors: &mut D) -> Acceptor<'s, D, E, K>
        requires { Stands (IsAnswer E.plain K.failures K.steady) self (D.shown doors.old) }
        ensures stands { Stands (IsAnswer E.plain K.failures K.steady) result (D.shown doors.new) }
        ensures same { IsSame self.entry result }
        ensures none { length result.threads ≡ 0 }
        ensures failures { D.failures doors.new ≡ D.failures doors.old }
        ensures steady { D.steady doors.new ≡ D.steady doors.old }
    {
        let mut acceptor = self;
        let mut left = acceptor.running();
        while left > 0 {
            left -= 1;
            acceptor = acceptor.join(rt, doors, left);
        }
        acceptor
    }

    // Serves the connection that was accepted last, with its own pass.
    fn serve_here<R: Wait>(self, rt: &R, doors: &mut D, link: D::Link) -> Acceptor<'s, D, E, K>
        requires asked { HasAsked (IsAnswer E.plain K.failures K.steady) self
            (link_seen D.Link.left D.Link.written D.Link.faults D.Link.sink_faults D.Link.sink_shortages D.Link.steady
            D.Link.sink_steady D.Link.references link)
            (D.shown doors.old) }
        requires room { self.accepted < 4294967295 }
        ensures stands { Stands (IsAnswer E.plain K.failures K.steady) result (D.shown doors.new) }
        ensures more { HasOneMore self.entry result }
        ensures failures { D.failures doors.new ≡ D.failures doors.old }
        ensures steady { D.steady doors.new ≡ D.steady doors.old }
    {
        let Acceptor {
            alloc,
            desk,
            users,
            doors: shown,
            first,
            pass,
            threads,
            accepted,
            end,
        } = self;
        let Talked { ended, rest, pass } = talk::<R, D, E, K>(rt, alloc, desk, users, pass, link);
        doors.back(accepted, ended, rest);
        Acceptor {
            alloc,
            desk,
            users,
            doors: shown,
            first,
            pass,
            threads,
            accepted: accepted + 1,
            end,
        }
    }

    // The doors failed.
    fn refused(self) -> Acceptor<'s, D, E, K>
        ensures begun { result.begun ≡ self.entry.begun }
        ensures pass { result.pass ≡ self.entry.pass }
        ensures threads { result.threads ≡ self.entry.threads }
        ensures accepted { result.accepted ≡ self.entry.accepted }
        ensures end { result.end ≡ Served.DoorFault }
    {
        let mut acceptor = self;
        acceptor.end = Served::DoorFault;
        acceptor
    }

    // What is left: how the accepting ended, and the pass.
    fn into_parts(self) -> (Served, Pass)
        ensures { (result.0 ≡ self.entry.end) × (result.1 ≡ self.entry.pass) }
    {
        let Acceptor {
            alloc: _,
            desk: _,
            users: _,
            doors: _,
            first: _,
            pass,
            threads: _,
            accepted: _,
            end,
        } = self;
        (end, pass)
    }
}

// Serves the connection that was accepted last, by a thread, where there is room for one.
fn admit<
    's,
    X,
    R: Threads + Wait + Sync,
    D: Doors + Send + 's,
    E: Engine + Send + 's,
    K: Keeper + Send + 's,
>(
    rt: &'s R,
    scope: &Scope<'s, X>,
    acceptor: Acceptor<'s, D, E, K>,
    doors: &mut D,
    link: D::Link,
) -> Acceptor<'s, D, E, K>
where
    E::World: Send,
    E::Asked: Send,
    requires asked { HasAsked (IsAnswer E.plain K.failures K.steady) acceptor
        (link_seen D.Link.left D.Link.written D.Link.faults D.Link.sink_faults D.Link.sink_shortages D.Link.steady
        D.Link.sink_steady D.Link.references link)
        (D.shown doors.old) }
    requires room { acceptor.accepted < 4294967295 }
    ensures stands { Stands (IsAnswer E.plain K.failures K.steady) result (D.shown doors.new) }
    ensures more { HasOneMore acceptor.entry result }
    ensures failures { D.failures doors.new ≡ D.failures doors.old }
    ensures steady { D.steady doors.new ≡ D.steady doors.old }
{
    let mut acceptor = acceptor;
    if acceptor.threads.reserve(1).is_err() {
        return acceptor.serve_here(rt, doors, link);
    }
    let Some(signal) = signal(acceptor.alloc) else {
        return acceptor.serve_here(rt, doors, link);
    };
    let Ok(pass) = acceptor.desk.lend(rt, &mut acceptor.pass) else {
        return acceptor.serve_here(rt, doors, link);
    };
    let number = acceptor.accepted;
    match start(
        rt,
        acceptor.alloc,
        scope,
        acceptor.desk,
        acceptor.users,
        pass,
        link,
        number,
        signal,
    ) {
        Ok(started) => {
            acceptor.threads.push_reserved(started);
            acceptor.accepted += 1;
            acceptor
        }
        Err(talked) => {
            acceptor.accepted += 1;
            acceptor.take_back(doors, number, talked)
        }
    }
}

// Accepts so many connections, or fewer where the doors fail.
fn accept_all<
    's,
    X,
    R: Threads + Wait + Sync,
    D: Doors + Send + 's,
    E: Engine + Send + 's,
    K: Keeper + Send + 's,
>(
    rt: &'s R,
    scope: &Scope<'s, X>,
    acceptor: Acceptor<'s, D, E, K>,
    doors: &mut D,
    limit: u32,
) -> Acceptor<'s, D, E, K>
where
    E::World: Send,
    E::Asked: Send,
    requires stands { Stands (IsAnswer E.plain K.failures K.steady) acceptor (D.shown doors.old) }
    requires none { acceptor.accepted ≡ 0 }
    requires end { acceptor.end ≡ Served.All }
    ensures stands { Stands (IsAnswer E.plain K.failures K.steady) result (D.shown doors.new) }
    ensures begun { result.begun ≡ acceptor.entry.begun }
    ensures accepted { HasAccepted limit result.end result.accepted }
    ensures cause { result.end ≡ Served.DoorFault → Rose (D.failures doors.old) (D.failures doors.new) }
    ensures later { D.failures doors.old ≤ D.failures doors.new }
    ensures stays { StaysSteady (D.steady doors.old) (D.steady doors.new) (D.failures doors.old)
        (D.failures doors.new) }
{
    let mut acceptor = acceptor;
    let mut number = 0;
    while number < limit {
        acceptor = acceptor.reap(rt, doors);
        match doors.accept() {
            Ok(link) => acceptor = admit(rt, scope, acceptor, doors, link),
            Err(Failed) => return acceptor.refused(),
        }
        number += 1;
    }
    acceptor
}

// Serves connections in a scope of threads, and gives the doors back.
fn serve_within<
    's,
    'd,
    X,
    R: Threads + Wait + Sync,
    D: Doors + Send + 's,
    E: Engine + Send + 's,
    K: Keeper + Send + 's,
>(
    rt: &'s R,
    alloc: Global,
    scope: &Scope<'s, X>,
    doors: &'d mut D,
    desk: &'s Desk<E, K>,
    users: &'s Users,
    pass: Pass,
    limit: u32,
) -> (Served, Pass, &'d mut D)
where
    E::World: Send,
    E::Asked: Send,
    requires pass { IsPass desk.now pass }
    requires new_doors { IfSome (D.shown doors.old) (λ shown. shown.connections ≡ []) }
    ensures name { result.2.ghost_name ≡ doors.entry.ghost_name }
    ensures talked { HaveAllTalked (IsAnswer E.plain K.failures K.steady) (record {
      desk = desk.now;
      users = users.now;
      pass = pass;
      shown = D.shown doors.entry.now;
    }) result.1 limit result.0 (D.shown result.2.now) }
    ensures cause { result.0 ≡ Served.DoorFault
        → Rose (D.failures doors.entry.now) (D.failures result.2.now) }
    ensures later { D.failures doors.entry.now ≤ D.failures result.2.now }
    ensures stays { StaysSteady (D.steady doors.entry.now) (D.steady result.2.now) (D.failures doors.entry.now)
        (D.failures result.2.now) }
{
    let acceptor = Acceptor::new(alloc, desk, users, &*doors, pass);
    let acceptor = accept_all(rt, scope, acceptor, doors, limit);
    let acceptor = acceptor.join_all(rt, doors);
    let (served, pass) = acceptor.into_parts();
    (served, pass, doors)
}

// Serves connections by threads of a scope.
fn serve_in_scope<
    'd,
    'h,
    R: Threads + Wait + Sync,
    D: Doors + Send + 'h,
    E: Engine + Send + 'h,
    K: Keeper + Send + 'h,
>(
    rt: &'h R,
    alloc: Global,
    doors: &'d mut D,
    desk: &'h Desk<E, K>,
    users: &'h Users,
    pass: Pass,
    limit: u32,
) -> (Served, Pass, &'d mut D)
where
    E::World: Send,
    E::Asked: Send,
    requires pass { IsPass desk.now pass }
    requires new_doors { IfSome (D.shown doors.old) (λ shown. shown.connections ≡ []) }
    ensures name { result.2.ghost_name ≡ doors.entry.ghost_name }
    ensures talked { HaveAllTalked (IsAnswer E.plain K.failures K.steady) (record {
      desk = desk.now;
      users = users.now;
      pass = pass;
      shown = D.shown doors.entry.now;
    }) result.1 limit result.0 (D.shown result.2.now) }
    ensures cause { result.0 ≡ Served.DoorFault
        → Rose (D.failures doors.entry.now) (D.failures result.2.now) }
    ensures later { D.failures doors.entry.now ≤ D.failures result.2.now }
    ensures stays { StaysSteady (D.steady doors.entry.now) (D.steady result.2.now) (D.failures doors.entry.now)
        (D.failures result.2.now) }
{
    thread::scope(
        thread::scope_env(),
        rt,
        move |scope| -> (Served, Pass, &mut D)
            requires pass { IsPass desk.now pass }
            requires new_doors { IfSome (D.shown doors.now) (λ shown. shown.connections ≡ []) }
            ensures name { result.2.ghost_name ≡ doors.entry.ghost_name }
            ensures talked { HaveAllTalked (IsAnswer E.plain K.failures K.steady) (record {
              desk = desk.entry.now;
              users = users.entry.now;
              pass = pass;
              shown = D.shown doors.entry.now;
            }) result.1 limit result.0 (D.shown result.2.now) }
            ensures cause { result.0 ≡ Served.DoorFault
                → Rose (D.failures doors.entry.now) (D.failures result.2.now) }
            ensures later { D.failures doors.entry.now ≤ D.failures result.2.now }
            ensures stays { StaysSteady (D.steady doors.entry.now) (D.steady result.2.now)
                (D.failures doors.entry.now) (D.failures result.2.now) }
        { serve_within(rt, alloc, scope, doors, desk, users, pass, limit) },
    )
}

/// The law of steady doors, at a value: their count of faults isn't at its last value. It does nothing when it runs.
pub fn steady_doors<D: Doors>(doors: &D)
    ensures { IsTrue (D.steady doors.now) → D.failures doors.now < last_count }
{
    let _ = doors;
}

// Serves connections by threads, and gives the pass back.
fn serve_by_threads<R: Threads + Wait + Sync, D: Doors + Send, E: Engine + Send, K: Keeper + Send>(
    rt: &R,
    alloc: Global,
    doors: &mut D,
    desk: &Desk<E, K>,
    users: &Users,
    pass: Pass,
    limit: u32,
) -> (Served, Pass)
where
    E::World: Send,
    E::Asked: Send,
    requires pass { IsPass desk.now pass }
    requires new_doors { IfSome (D.shown doors.old) (λ shown. shown.connections ≡ []) }
    ensures talked { HaveAllTalked (IsAnswer E.plain K.failures K.steady) (record {
      desk = desk.now;
      users = users.now;
      pass = pass;
      shown = D.shown doors.old;
    }) result.1 limit result.0 (D.shown doors.new) }
    ensures cause { result.0 ≡ Served.DoorFault → Rose (D.failures doors.old) (D.failures doors.new) }
    ensures later { D.failures doors.old ≤ D.failures doors.new }
    ensures stays { StaysSteady (D.steady doors.old) (D.steady doors.new) (D.failures doors.old)
        (D.failures doors.new) }
{
    let (served, pass, _doors) = serve_in_scope(rt, alloc, doors, desk, users, pass, limit);
    (served, pass)
}

/// Serves `limit` connections at a desk, each by a thread of its own with a pass of its own, and closes the desk. The
/// doors have accepted none yet. Each connection is served as [`converse`] serves it, with [`LONGEST_TALK`]; its link
/// is closed, and it is back with its end. A thread that has ended is joined before the next connection is accepted,
/// so that any number of them can be served one after another.
///
/// Where no pass is left, no memory for a thread's handle, or no thread can be started, the connection is served before
/// the next one is accepted. Where the doors fail, no further connection is accepted; [`Served::DoorFault`] comes only
/// where their count of faults rose in this call.
///
/// No clause says which pass or thread serves a connection, that two are served at the same time, or that a wait ends.
pub fn serve_all<R: Threads + Wait + Sync, D: Doors + Send, E: Engine + Send, K: Keeper + Send>(
    rt: &R,
    alloc: Global,
    doors: &mut D,
    desk: Desk<E, K>,
    pass: Pass,
    users: &Users,
    limit: u32,
) -> (Served, History<E>, K)
where
    E::World: Send,
    E::Asked: Send,
    requires pass { IsPass desk pass }
    requires new_doors { IfSome (D.shown doors.old) (λ shown. shown.connections ≡ []) }

    // What each connection was answered, what the doors show of it, and a history that has the calls of each. Where
    // the pass alone drew numbers, each entry that it had not seen is from the caller of a connection, or from one that
    // had a number before. What the keeper has is the journal of the history, or of it and one entry more, whose call
    // was answered 503 behind the last.
    ensures served { AreServed E.plain (IsAnswer E.plain K.failures K.steady) desk users.now pass limit result.0
        (D.shown doors.old) (D.shown doors.new) result.1 (K.failures result.2) (K.kept result.2) }

    // The doors are told to have failed only where they did in this call.
    ensures cause { result.0 ≡ Served.DoorFault → Rose (D.failures doors.old) (D.failures doors.new) }
    ensures later { D.failures doors.old ≤ D.failures doors.new }
    ensures stays { StaysSteady (D.steady doors.old) (D.steady doors.new) (D.failures doors.old)
        (D.failures doors.new) }
    ensures steady { IsTrue (D.steady doors.old) → result.0 ≡ Served.All }
{
    steady_doors(&*doors);
    let (served, pass) = serve_by_threads(rt, alloc, doors, &desk, users, pass, limit);
    let (history, keeper) = desk.close(rt, pass);
    (served, history, keeper)
}
