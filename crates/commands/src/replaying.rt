ghost use Rattle.std.specs.Prelude.{◌≡◌, ◌≢◌, ◌≤◌, ◌⊎◌, None, Some, IfOk, IfSome, IsTrue};
ghost use Rattle.cell_value.specs.FaultCount.{Rose};
ghost use Rattle.conversation.specs.Conversation.{Counts};
ghost use Rattle.commands.specs.Finish.{status_of, line_of, Says};
ghost use Rattle.commands.specs.Folders.{AsksForJournal};
ghost use Rattle.commands.specs.Replaying.{Replays, ReplaysKept, TellsDump, IsOfReplaying};
ghost use Rattle.commands.specs.Serving.{IsEndOfServing};

use crate::finish::{
    Finish, LONG_TALK, READ_FAULT, TRUNCATED, UNAVAILABLE, USAGE, WRITE_FAULT, status,
};
use crate::report::report;
use crate::server::finish_of_opening;
use crate::users::finish_of_load;
use conversation::Ended;
use desk::{Engine, History, Keeper, LONGEST_JOURNAL, State};
use folder::Folder;
use sheets_http::{Sink, SinkFault, send_all};
use std::alloc::Global;

/// Writes what the history of the journal of that name comes to, its spreadsheets as they are behind it, and says how
/// it failed, if it did. A journal that is missing isn't made.
pub fn replay<R: AllocGlobal, E: Engine, O: Sink, F: Folder>(
    rt: &R,
    journal: &str,
    output: &mut O,
    faults: &mut O,
    folder: &mut F,
) -> u8
    ensures replay { (finish : Finish) × (result ≡ status_of finish)
        × Replays E.plain E.dumps journal.now (F.shown folder.old) (O.written output.old) (O.written output.new)
        (O.sink_shortages output.old) (O.sink_shortages output.new) finish
        × Says (O.written faults.old) (O.written faults.new) (O.sink_faults faults.old) (O.sink_faults faults.new)
        (O.sink_shortages faults.old) (O.sink_shortages faults.new) (line_of finish) }
    ensures asked { AsksForJournal journal.now (F.shown folder.old) (F.shown folder.new) }

    // Each status has its cause.
    ensures read { result ≡ READ_FAULT → Rose (F.failures folder.old) (F.failures folder.new) }
    ensures write { result ≡ WRITE_FAULT → Rose (O.sink_faults output.old) (O.sink_faults output.new) }
    ensures unavailable { result ≡ UNAVAILABLE → Rose (F.keeper_failures folder.old) (F.keeper_failures folder.new) }
    ensures others { (result ≢ USAGE) × (result ≢ TRUNCATED) × (result ≢ LONG_TALK) }
    ensures steady_read { IsTrue (F.steady folder.old) → result ≢ READ_FAULT }
    ensures steady_write { IsTrue (O.sink_steady output.old) → result ≢ WRITE_FAULT }
    ensures steady_keeper { IsTrue (F.steady folder.old) → result ≢ UNAVAILABLE }

    // No count of faults falls, and a steady device stays steady.
    ensures output { Counts (O.sink_faults output.old) (O.sink_faults output.new) (O.sink_steady output.old)
        (O.sink_steady output.new) }
    ensures faults { Counts (O.sink_faults faults.old) (O.sink_faults faults.new) (O.sink_steady faults.old)
        (O.sink_steady faults.new) }
    ensures folder { F.failures folder.old ≤ F.failures folder.new }
    ensures keepers { F.keeper_failures folder.old ≤ F.keeper_failures folder.new }
{
    let finish = replay_named::<_, E, _, _>(rt, journal, output, folder);
    report(faults, finish);
    status(finish)
}

/// Writes what the history of the journal of that name comes to.
fn replay_named<R: AllocGlobal, E: Engine, O: Sink, F: Folder>(
    rt: &R,
    journal: &str,
    output: &mut O,
    folder: &mut F,
) -> Finish
    ensures replays { Replays E.plain E.dumps journal.now (F.shown folder.old) (O.written output.old)
        (O.written output.new)
        (O.sink_shortages output.old) (O.sink_shortages output.new) result }
    ensures asked { AsksForJournal journal.now (F.shown folder.old) (F.shown folder.new) }
    ensures read { result ≡ Finish.Served Ended.ReadFault → Rose (F.failures folder.old) (F.failures folder.new) }
    ensures write { result ≡ Finish.Served Ended.WriteFault
        → Rose (O.sink_faults output.old) (O.sink_faults output.new) }
    ensures unavailable { result ≡ Finish.Unavailable
        → Rose (F.keeper_failures folder.old) (F.keeper_failures folder.new) }
    ensures others { IsOfReplaying result }
    ensures steady_read { IsTrue (F.steady folder.old) → result ≢ Finish.Served Ended.ReadFault }
    ensures steady_write { IsTrue (O.sink_steady output.old) → result ≢ Finish.Served Ended.WriteFault }
    ensures steady_keeper { IsTrue (F.steady folder.old) → result ≢ Finish.Unavailable }
    ensures output { Counts (O.sink_faults output.old) (O.sink_faults output.new) (O.sink_steady output.old)
        (O.sink_steady output.new) }
    ensures folder { F.failures folder.old ≤ F.failures folder.new }
    ensures keepers { F.keeper_failures folder.old ≤ F.keeper_failures folder.new }
{
    match folder.journal(journal, false) {
        Err(fault) => finish_of_load(fault),
        Ok(keeper) => {
            let (finish, keeper) = replay_kept::<E, _, _>(rt.alloc(), output, keeper);
            folder.kept_back(keeper);
            finish
        }
    }
}

/// Writes what the history of a keeper's journal comes to, and gives the keeper back.
fn replay_kept<E: Engine, O: Sink, K: Keeper>(
    alloc: Global,
    output: &mut O,
    keeper: K,
) -> (Finish, K)
    ensures replays { ReplaysKept E.plain E.dumps (K.kept keeper) (O.written output.old) (O.written output.new)
        (O.sink_shortages output.old) (O.sink_shortages output.new) result.0 }
    ensures kept { K.kept result.1 ≡ K.kept keeper }
    ensures read { result.0 ≢ Finish.Served Ended.ReadFault }
    ensures write { result.0 ≡ Finish.Served Ended.WriteFault
        → Rose (O.sink_faults output.old) (O.sink_faults output.new) }
    ensures unavailable { result.0 ≡ Finish.Unavailable → Rose (K.failures keeper) (K.failures result.1) }
    ensures others { IsOfReplaying result.0 }
    ensures steady_write { IsTrue (O.sink_steady output.old) → result.0 ≢ Finish.Served Ended.WriteFault }
    ensures steady_keeper { IsTrue (K.steady keeper) → result.0 ≢ Finish.Unavailable }
    ensures output { Counts (O.sink_faults output.old) (O.sink_faults output.new) (O.sink_steady output.old)
        (O.sink_steady output.new) }
{
    match State::<E, K>::open(alloc, keeper, LONGEST_JOURNAL) {
        Err((fault, keeper)) => (finish_of_opening(fault), keeper),
        Ok(state) => {
            let (history, keeper) = state.into_history();
            (Finish::Served(dump(alloc, output, &history)), keeper)
        }
    }
}

/// Writes the dump of a history.
fn dump<E: Engine, O: Sink>(alloc: Global, output: &mut O, history: &History<E>) -> Ended
    ensures tells { TellsDump E.dumps history.now (O.written output.old) (O.written output.new)
        (O.sink_shortages output.old) (O.sink_shortages output.new) result }
    ensures others { IsEndOfServing result }
    ensures read { result ≢ Ended.ReadFault }
    ensures write { result ≡ Ended.WriteFault → Rose (O.sink_faults output.old) (O.sink_faults output.new) }
    ensures steady { IsTrue (O.sink_steady output.old) → result ≢ Ended.WriteFault }
    ensures counts { Counts (O.sink_faults output.old) (O.sink_faults output.new) (O.sink_steady output.old)
        (O.sink_steady output.new) }
{
    match history.dump(alloc) {
        Err(_) => Ended::NoMemory,
        Ok(text) => match send_all(output, text.as_slice()) {
            Ok(()) => Ended::End,
            Err(SinkFault::Failed) => Ended::WriteFault,
            Err(SinkFault::NoMemory) => Ended::NoMemory,
        },
    }
}
