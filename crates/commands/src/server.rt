ghost use Rattle.std.specs.Prelude.{◌≡◌, ◌≢◌, ◌<◌, ◌≤◌, ◌⊎◌, [], IfSome, IsSome, IsTrue, None, Some, Err};
ghost use Rattle.std.specs.Option.{option_copied};
ghost use Rattle.cell_value.specs.FaultCount.{Rose};
ghost use Rattle.desk.specs.Desks.{list_at};
ghost use Rattle.conversation.specs.Conversation.{at_moment, Counts};
ghost use Rattle.conversation.specs.Exchanges.{Sends};
ghost use Rattle.commands.specs.Finish.{status_of, line_of, Says};
ghost use Rattle.commands.specs.Folders.{Asks};
ghost use Rattle.commands.specs.Serving.{IsOpened, Serves, ServesInMemory, ServesByJournal, ServesKept, ServesFrom};
ghost use Rattle.commands.specs.Serving.{ServesAll, Tells, IsOfServing, IsEndOfServing, finish_of_opening, summary_text};

use crate::finish::{
    Finish, LONG_TALK, READ_FAULT, TRUNCATED, UNAVAILABLE, USAGE, WRITE_FAULT, status,
};
use crate::report::{report, send_line};
use crate::users::{finish_of_load, users_of};
use connections::Doors;
use conversation::Ended;
use desk::{Desk, Engine, Keeper, LONGEST_JOURNAL, OpenFault, Pass, SteadyKeeper, Summary};
use folder::Folder;
use serving::{Served, serve_all, steady_doors};
use sheets_http::{Sink, SinkFault, Users};
use std::sync::Wait;
use std::thread::Threads;

/// How many callers the desk has: one that accepts the connections, and one for each of them.
pub const CALLERS: u32 = 1_000_001;

/// What the words of the command `serve` say.
#[derive(Clone, Copy)]
pub struct Wanted<'a> {
    /// The port, from 1.
    pub port: u16,
    /// How many connections are served.
    pub limit: u32,
    /// The file of the users; anyone is served where none is named.
    pub users: Option<&'a str>,
    /// The file of the journal; the history is kept in memory alone where none is named.
    pub journal: Option<&'a str>,
}

/// Serves connections that come in on a port, writes what their history comes to, and says how it failed, if it did.
/// The users are read first; then the journal is asked for; then the doors are opened.
///
/// The history begins with the journal's, and each call that is accepted is in the journal before it is answered.
pub fn serve<
    R: AllocGlobal + Threads + Wait + Sync,
    E: Engine + Send,
    O: Sink,
    F: Folder,
    D: Doors + Send,
>(rt: &R, wanted: Wanted<'_>, output: &mut O, faults: &mut O, folder: &mut F, doors: &mut D) -> u8
where
    E::World: Send,
    E::Asked: Send,
    // The doors have accepted no connection yet.
    requires { IfSome (D.shown doors.old) (λ shown. shown.connections ≡ []) }
    ensures serve { (finish : Finish) × (result ≡ status_of finish)
        × Serves E F.Kept E.World E.Asked E.plain E.cells F.Kept.failures F.Kept.steady wanted.entry.port
        wanted.entry.limit
        (option_copied wanted.entry.users) (option_copied wanted.entry.journal) (F.shown folder.old)
        (F.shown folder.new)
        (at_moment (D.shown doors.old) (O.written output.old) (O.sink_shortages output.old))
        (at_moment (D.shown doors.new) (O.written output.new) (O.sink_shortages output.new)) finish
        × Says (O.written faults.old) (O.written faults.new) (O.sink_faults faults.old) (O.sink_faults faults.new)
        (O.sink_shortages faults.old) (O.sink_shortages faults.new) (line_of finish) }
    ensures asked { Asks (option_copied wanted.entry.users) (option_copied wanted.entry.journal) (F.shown folder.old)
        (F.shown folder.new) }

    // Each status has its cause.
    ensures read { result ≡ READ_FAULT
        → Rose (D.failures doors.old) (D.failures doors.new) ⊎ Rose (F.failures folder.old) (F.failures folder.new) }
    ensures write { result ≡ WRITE_FAULT → Rose (O.sink_faults output.old) (O.sink_faults output.new) }
    ensures unavailable { result ≡ UNAVAILABLE → Rose (F.keeper_failures folder.old) (F.keeper_failures folder.new) }
    ensures unopened { result ≡ UNAVAILABLE → IsSome wanted.entry.journal × (doors.new ≡ doors.old) }
    ensures others { (result ≢ USAGE) × (result ≢ TRUNCATED) × (result ≢ LONG_TALK) }
    ensures steady_read { IsTrue (D.steady doors.old) → IsTrue (F.steady folder.old) → result ≢ READ_FAULT }
    ensures steady_write { IsTrue (O.sink_steady output.old) → result ≢ WRITE_FAULT }
    ensures steady_keeper { IsTrue (F.steady folder.old) → result ≢ UNAVAILABLE }

    // No count of faults falls, and a steady device stays steady.
    ensures doors { Counts (D.failures doors.old) (D.failures doors.new) (D.steady doors.old) (D.steady doors.new) }
    ensures output { Counts (O.sink_faults output.old) (O.sink_faults output.new) (O.sink_steady output.old)
        (O.sink_steady output.new) }
    ensures faults { Counts (O.sink_faults faults.old) (O.sink_faults faults.new) (O.sink_steady faults.old)
        (O.sink_steady faults.new) }
    ensures folder { F.failures folder.old ≤ F.failures folder.new }
    ensures keepers { F.keeper_failures folder.old ≤ F.keeper_failures folder.new }
{
    let finish = serve_named::<_, E, _, _, _>(rt, wanted, output, folder, doors);
    report(faults, finish);
    status(finish)
}

/// Serves connections for the users that the words name.
fn serve_named<
    R: AllocGlobal + Threads + Wait + Sync,
    E: Engine + Send,
    O: Sink,
    F: Folder,
    D: Doors + Send,
>(rt: &R, wanted: Wanted<'_>, output: &mut O, folder: &mut F, doors: &mut D) -> Finish
where
    E::World: Send,
    E::Asked: Send,
    requires { IfSome (D.shown doors.old) (λ shown. shown.connections ≡ []) }
    ensures serves { Serves E F.Kept E.World E.Asked E.plain E.cells F.Kept.failures F.Kept.steady wanted.entry.port
        wanted.entry.limit
        (option_copied wanted.entry.users) (option_copied wanted.entry.journal) (F.shown folder.old)
        (F.shown folder.new)
        (at_moment (D.shown doors.old) (O.written output.old) (O.sink_shortages output.old))
        (at_moment (D.shown doors.new) (O.written output.new) (O.sink_shortages output.new)) result }
    ensures asked { Asks (option_copied wanted.entry.users) (option_copied wanted.entry.journal) (F.shown folder.old)
        (F.shown folder.new) }
    ensures read { result ≡ Finish.Served Ended.ReadFault
        → Rose (D.failures doors.old) (D.failures doors.new) ⊎ Rose (F.failures folder.old) (F.failures folder.new) }
    ensures write { result ≡ Finish.Served Ended.WriteFault
        → Rose (O.sink_faults output.old) (O.sink_faults output.new) }
    ensures unavailable { result ≡ Finish.Unavailable
        → Rose (F.keeper_failures folder.old) (F.keeper_failures folder.new) }
    ensures unopened { result ≡ Finish.Unavailable → IsSome wanted.entry.journal × (doors.new ≡ doors.old) }
    ensures others { IsOfServing result }
    ensures steady_read { IsTrue (D.steady doors.old) → IsTrue (F.steady folder.old)
        → result ≢ Finish.Served Ended.ReadFault }
    ensures steady_write { IsTrue (O.sink_steady output.old) → result ≢ Finish.Served Ended.WriteFault }
    ensures steady_keeper { IsTrue (F.steady folder.old) → result ≢ Finish.Unavailable }
    ensures doors { Counts (D.failures doors.old) (D.failures doors.new) (D.steady doors.old) (D.steady doors.new) }
    ensures output { Counts (O.sink_faults output.old) (O.sink_faults output.new) (O.sink_steady output.old)
        (O.sink_steady output.new) }
    ensures folder { F.failures folder.old ≤ F.failures folder.new }
    ensures keepers { F.keeper_failures folder.old ≤ F.keeper_failures folder.new }
{
    let users = match users_of(rt.alloc(), folder, wanted.users) {
        Ok(users) => users,
        Err(finish) => return finish,
    };
    let Wanted { port, limit, .. } = wanted;
    match wanted.journal {
        None => {
            Finish::Served(serve_in_memory::<_, E, _, _>(rt, port, limit, &users, output, doors))
        }
        Some(name) => {
            serve_by_journal::<_, E, _, _, _>(rt, name, port, limit, &users, output, folder, doors)
        }
    }
}

/// Serves connections at a desk whose history is kept in memory and begins empty.
fn serve_in_memory<
    R: AllocGlobal + Threads + Wait + Sync,
    E: Engine + Send,
    O: Sink,
    D: Doors + Send,
>(rt: &R, port: u16, limit: u32, users: &Users, output: &mut O, doors: &mut D) -> Ended
where
    E::World: Send,
    E::Asked: Send,
    requires { IfSome (D.shown doors.old) (λ shown. shown.connections ≡ []) }
    ensures serves { ServesInMemory E E.World E.Asked E.plain E.cells users.now port limit
        (at_moment (D.shown doors.old) (O.written output.old) (O.sink_shortages output.old))
        (at_moment (D.shown doors.new) (O.written output.new) (O.sink_shortages output.new)) result }
    ensures read { result ≡ Ended.ReadFault → Rose (D.failures doors.old) (D.failures doors.new) }
    ensures write { result ≡ Ended.WriteFault → Rose (O.sink_faults output.old) (O.sink_faults output.new) }
    ensures others { IsEndOfServing result }
    ensures steady_read { IsTrue (D.steady doors.old) → result ≢ Ended.ReadFault }
    ensures steady_write { IsTrue (O.sink_steady output.old) → result ≢ Ended.WriteFault }
    ensures doors { Counts (D.failures doors.old) (D.failures doors.new) (D.steady doors.old) (D.steady doors.new) }
    ensures output { Counts (O.sink_faults output.old) (O.sink_faults output.new) (O.sink_steady output.old)
        (O.sink_steady output.new) }
{
    let alloc = rt.alloc();
    let keeper = SteadyKeeper::new(Vec::new(alloc));
    match Desk::<E, SteadyKeeper>::open(alloc, keeper, LONGEST_JOURNAL, CALLERS) {
        Ok((desk, pass)) => {
            let (ended, _) = serve_from(rt, port, limit, users, output, doors, desk, pass);
            ended
        }
        Err(_) => Ended::NoMemory,
    }
}

/// Serves connections at a desk whose journal is the file of that name.
fn serve_by_journal<
    R: AllocGlobal + Threads + Wait + Sync,
    E: Engine + Send,
    O: Sink,
    F: Folder,
    D: Doors + Send,
>(
    rt: &R,
    name: &str,
    port: u16,
    limit: u32,
    users: &Users,
    output: &mut O,
    folder: &mut F,
    doors: &mut D,
) -> Finish
where
    E::World: Send,
    E::Asked: Send,
    requires { IfSome (D.shown doors.old) (λ shown. shown.connections ≡ []) }
    ensures serves { ServesByJournal E F.Kept E.World E.Asked E.plain E.cells F.Kept.failures F.Kept.steady users.now
        port limit name.now (F.shown folder.old) (F.shown folder.new)
        (at_moment (D.shown doors.old) (O.written output.old) (O.sink_shortages output.old))
        (at_moment (D.shown doors.new) (O.written output.new) (O.sink_shortages output.new)) result }
    ensures asked { Asks None (Some name.now) (F.shown folder.old) (F.shown folder.new) }
    ensures read { result ≡ Finish.Served Ended.ReadFault
        → Rose (D.failures doors.old) (D.failures doors.new) ⊎ Rose (F.failures folder.old) (F.failures folder.new) }
    ensures write { result ≡ Finish.Served Ended.WriteFault
        → Rose (O.sink_faults output.old) (O.sink_faults output.new) }
    ensures unavailable { result ≡ Finish.Unavailable
        → Rose (F.keeper_failures folder.old) (F.keeper_failures folder.new) }
    ensures unopened { result ≡ Finish.Unavailable → doors.new ≡ doors.old }
    ensures others { IsOfServing result }
    ensures steady_read { IsTrue (D.steady doors.old) → IsTrue (F.steady folder.old)
        → result ≢ Finish.Served Ended.ReadFault }
    ensures steady_write { IsTrue (O.sink_steady output.old) → result ≢ Finish.Served Ended.WriteFault }
    ensures steady_keeper { IsTrue (F.steady folder.old) → result ≢ Finish.Unavailable }
    ensures doors { Counts (D.failures doors.old) (D.failures doors.new) (D.steady doors.old) (D.steady doors.new) }
    ensures output { Counts (O.sink_faults output.old) (O.sink_faults output.new) (O.sink_steady output.old)
        (O.sink_steady output.new) }
    ensures folder { F.failures folder.old ≤ F.failures folder.new }
    ensures keepers { F.keeper_failures folder.old ≤ F.keeper_failures folder.new }
{
    match folder.journal(name, true) {
        Err(fault) => finish_of_load(fault),
        Ok(keeper) => {
            let (finish, keeper) = serve_kept::<_, E, _, _, _>(
                rt, port, limit, users, output, doors, keeper,
            );
            folder.kept_back(keeper);
            finish
        }
    }
}

/// Serves connections at a desk over a keeper, with the history that it has, and gives the keeper back.
fn serve_kept<
    R: AllocGlobal + Threads + Wait + Sync,
    E: Engine + Send,
    O: Sink,
    D: Doors + Send,
    K: Keeper + Send,
>(
    rt: &R,
    port: u16,
    limit: u32,
    users: &Users,
    output: &mut O,
    doors: &mut D,
    keeper: K,
) -> (Finish, K)
where
    E::World: Send,
    E::Asked: Send,
    requires { IfSome (D.shown doors.old) (λ shown. shown.connections ≡ []) }
    ensures serves { ServesKept E K E.World E.Asked E.plain E.cells K.failures K.steady users.now port limit
        (K.kept keeper)
        (at_moment (D.shown doors.old) (O.written output.old) (O.sink_shortages output.old))
        (at_moment (D.shown doors.new) (O.written output.new) (O.sink_shortages output.new)) (K.kept result.1)
        result.0 }
    ensures read { result.0 ≡ Finish.Served Ended.ReadFault → Rose (D.failures doors.old) (D.failures doors.new) }
    ensures write { result.0 ≡ Finish.Served Ended.WriteFault
        → Rose (O.sink_faults output.old) (O.sink_faults output.new) }
    ensures unavailable { result.0 ≡ Finish.Unavailable → Rose (K.failures keeper) (K.failures result.1) }
    ensures unopened { result.0 ≡ Finish.Unavailable → doors.new ≡ doors.old }
    ensures others { IsOfServing result.0 }
    ensures steady_read { IsTrue (D.steady doors.old) → result.0 ≢ Finish.Served Ended.ReadFault }
    ensures steady_write { IsTrue (O.sink_steady output.old) → result.0 ≢ Finish.Served Ended.WriteFault }
    ensures steady_keeper { IsTrue (K.steady keeper) → result.0 ≢ Finish.Unavailable }
    ensures doors { Counts (D.failures doors.old) (D.failures doors.new) (D.steady doors.old) (D.steady doors.new) }
    ensures output { Counts (O.sink_faults output.old) (O.sink_faults output.new) (O.sink_steady output.old)
        (O.sink_steady output.new) }
{
    match Desk::<E, K>::open(rt.alloc(), keeper, LONGEST_JOURNAL, CALLERS) {
        Err((fault, keeper)) => (finish_of_opening(fault), keeper),
        Ok((desk, pass)) => {
            let (ended, keeper) = serve_from(rt, port, limit, users, output, doors, desk, pass);
            (Finish::Served(ended), keeper)
        }
    }
}

/// How a command ends whose desk couldn't be opened.
pub(crate) fn finish_of_opening(fault: OpenFault) -> Finish
    ensures { result ≡ finish_of_opening fault }
{
    match fault {
        OpenFault::KeeperFault => Finish::Unavailable,
        OpenFault::JournalLong => Finish::JournalLong,
        OpenFault::BadJournal(entry) => Finish::BadJournal(entry),
        OpenFault::NoMemory => Finish::Served(Ended::NoMemory),
    }
}

/// Opens the doors on the port, serves the connections that come in at a desk, and gives its keeper back.
fn serve_from<
    R: AllocGlobal + Threads + Wait + Sync,
    E: Engine + Send,
    O: Sink,
    D: Doors + Send,
    K: Keeper + Send,
>(
    rt: &R,
    port: u16,
    limit: u32,
    users: &Users,
    output: &mut O,
    doors: &mut D,
    desk: Desk<E, K>,
    pass: Pass,
) -> (Ended, K)
where
    E::World: Send,
    E::Asked: Send,
    requires new_doors { IfSome (D.shown doors.old) (λ shown. shown.connections ≡ []) }
    requires desk { IsOpened (list_at desk) desk pass }
    ensures serves { ServesFrom E K E.World E.Asked E.plain E.cells K.failures K.steady users.now port limit
        (list_at desk)
        (at_moment (D.shown doors.old) (O.written output.old) (O.sink_shortages output.old))
        (at_moment (D.shown doors.new) (O.written output.new) (O.sink_shortages output.new)) (K.kept result.1)
        result.0 }
    ensures read { result.0 ≡ Ended.ReadFault → Rose (D.failures doors.old) (D.failures doors.new) }
    ensures write { result.0 ≡ Ended.WriteFault → Rose (O.sink_faults output.old) (O.sink_faults output.new) }
    ensures others { IsEndOfServing result.0 }
    ensures steady_read { IsTrue (D.steady doors.old) → result.0 ≢ Ended.ReadFault }
    ensures steady_write { IsTrue (O.sink_steady output.old) → result.0 ≢ Ended.WriteFault }
    ensures doors { Counts (D.failures doors.old) (D.failures doors.new) (D.steady doors.old) (D.steady doors.new) }
    ensures output { Counts (O.sink_faults output.old) (O.sink_faults output.new) (O.sink_steady output.old)
        (O.sink_steady output.new) }
{
    steady_doors(&*doors);
    match doors.open(port) {
        Ok(()) => serve_through(rt, limit, users, output, doors, desk, pass),
        Err(_) => {
            let (_, keeper) = desk.close(rt, pass);
            (Ended::ReadFault, keeper)
        }
    }
}

/// Serves the connections that come in by open doors, writes what their history comes to, and gives the keeper back.
fn serve_through<
    R: AllocGlobal + Threads + Wait + Sync,
    E: Engine + Send,
    O: Sink,
    D: Doors + Send,
    K: Keeper + Send,
>(
    rt: &R,
    limit: u32,
    users: &Users,
    output: &mut O,
    doors: &mut D,
    desk: Desk<E, K>,
    pass: Pass,
) -> (Ended, K)
where
    E::World: Send,
    E::Asked: Send,
    requires new_doors { IfSome (D.shown doors.old) (λ shown. shown.connections ≡ []) }
    requires desk { IsOpened (list_at desk) desk pass }
    ensures serves { ServesAll E K E.World E.Asked E.plain E.cells K.failures K.steady users.now limit (list_at desk)
        (at_moment (D.shown doors.old) (O.written output.old) (O.sink_shortages output.old))
        (at_moment (D.shown doors.new) (O.written output.new) (O.sink_shortages output.new)) (K.kept result.1)
        result.0 }
    ensures read { result.0 ≡ Ended.ReadFault → Rose (D.failures doors.old) (D.failures doors.new) }
    ensures write { result.0 ≡ Ended.WriteFault → Rose (O.sink_faults output.old) (O.sink_faults output.new) }
    ensures others { IsEndOfServing result.0 }
    ensures steady_read { IsTrue (D.steady doors.old) → result.0 ≢ Ended.ReadFault }
    ensures steady_write { IsTrue (O.sink_steady output.old) → result.0 ≢ Ended.WriteFault }
    ensures doors { Counts (D.failures doors.old) (D.failures doors.new) (D.steady doors.old) (D.steady doors.new) }
    ensures output { Counts (O.sink_faults output.old) (O.sink_faults output.new) (O.sink_steady output.old)
        (O.sink_steady output.new) }
{
    E::served_outcomes();
    let (served, history, keeper) = serve_all(rt, rt.alloc(), doors, desk, pass, users, limit);
    match served {
        Served::All => (tell(output, history.summary()), keeper),
        Served::DoorFault => (Ended::ReadFault, keeper),
    }
}

/// Writes the lines of a summary.
fn tell<S: Sink>(output: &mut S, summary: Summary) -> Ended
    ensures tells { Tells summary.accepted summary.cells summary.bytes (S.written output.old) (S.written output.new)
        (S.sink_shortages output.old) (S.sink_shortages output.new) result }
    ensures others { IsEndOfServing result }
    ensures read { result ≢ Ended.ReadFault }
    ensures write { result ≡ Ended.WriteFault → Rose (S.sink_faults output.old) (S.sink_faults output.new) }
    ensures steady { IsTrue (S.sink_steady output.old) → result ≢ Ended.WriteFault }
    ensures counts { Counts (S.sink_faults output.old) (S.sink_faults output.new) (S.sink_steady output.old)
        (S.sink_steady output.new) }
{
    match send_summary(output, summary) {
        Ok(()) => Ended::End,
        Err(SinkFault::Failed) => Ended::WriteFault,
        Err(SinkFault::NoMemory) => Ended::NoMemory,
    }
}

/// Sends the lines of a summary.
fn send_summary<S: Sink>(output: &mut S, summary: Summary) -> Result<(), SinkFault>
    ensures sends { Sends (S.written output.old) (S.written output.new)
        (summary_text summary.accepted summary.cells summary.bytes) result }
    ensures counts { Counts (S.sink_faults output.old) (S.sink_faults output.new) (S.sink_steady output.old)
        (S.sink_steady output.new) }
    ensures cause { result ≡ Err SinkFault.Failed → Rose (S.sink_faults output.old) (S.sink_faults output.new) }
    ensures short { result ≡ Err SinkFault.NoMemory
        → Rose (S.sink_shortages output.old) (S.sink_shortages output.new) }
    ensures short_later { S.sink_shortages output.old ≤ S.sink_shortages output.new }
    ensures unfailing { IsTrue (S.sink_steady output.old) → result ≢ Err SinkFault.Failed }
{
    send_line(output, b"accepted ", summary.accepted)?;
    send_line(output, b"cells ", summary.cells)?;
    send_line(output, b"history ", summary.bytes)
}
