ghost use Rattle.std.specs.Prelude.{◌≡◌, ◌≢◌, ◌≤◌, ◌⊎◌, ℕ, List, [], IfSome, IsTrue, None};
ghost use Rattle.std.specs.Option.{option_copied};
ghost use Rattle.sheets_http.specs.declared.request.Wire.{Wire};
ghost use Rattle.sheets_http.specs.Framing.{End, truncated, long_talk, Talk};
ghost use Rattle.cell_value.specs.FaultCount.{Rose};
ghost use Rattle.desk.specs.declared.entry.Entry.{Entry};
ghost use Rattle.conversation.specs.Conversation.{at_moment, Counts, HasEnd, IsConversation, EndsAs};
ghost use Rattle.connections.specs.Alone.{IsReply, IsResponse};
ghost use Rattle.commands.specs.Finish.{status_of, status_at_end, status_at, line_of, Says};
ghost use Rattle.commands.specs.Folders.{Asks};
ghost use Rattle.commands.specs.Running.{Runs, IsOfRunning};

use crate::finish::{
    BAD_FILE, Finish, LONG_TALK, NO_MEMORY, READ_FAULT, TRUNCATED, UNAVAILABLE, USAGE, WRITE_FAULT,
    status,
};
use crate::report::report;
use crate::users::users_of;
use connections::converse_alone;
use conversation::Ended;
use desk::Engine;
use folder::Folder;
use sheets_http::{Duplex, LONGEST_TALK, Link, Sink, Source, Users, conversation_laws};
use std::sync::Wait;

/// Serves one conversation over input and output, for the users of the file of that name, or for anyone, where none is
/// named, and says how it failed, if it did. Its history is empty at first.
pub fn run<R: AllocGlobal + Wait, E: Engine, I: Source, O: Sink, F: Folder>(
    rt: &R,
    users: Option<&str>,
    input: &mut I,
    output: &mut O,
    faults: &mut O,
    folder: &mut F,
) -> u8
    // How it ends, what was written, and the line on the faults.
    ensures run { (finish : Finish) × (result ≡ status_of finish)
        × Runs E.plain (option_copied users.entry) (F.shown folder.old) (I.left input.old)
        (O.written output.old) (O.written output.new)
        (O.sink_shortages output.old) (O.sink_shortages output.new) finish
        × Says (O.written faults.old) (O.written faults.new) (O.sink_faults faults.old) (O.sink_faults faults.new)
        (O.sink_shortages faults.old) (O.sink_shortages faults.new) (line_of finish) }
    ensures asked { Asks (option_copied users.entry) None (F.shown folder.old) (F.shown folder.new) }

    // Where the talk of the input ends so, that is the status, unless the file of users is bad, memory ran out, or a
    // device failed.
    ensures exactly { IfSome (I.left input.old) (λ bytes. (requests : List Wire) → (end : End)
        → Talk LONGEST_TALK bytes requests end
        → (result ≡ status_at end) ⊎ ((result ≡ BAD_FILE) ⊎ ((result ≡ NO_MEMORY)
        ⊎ ((result ≡ READ_FAULT) ⊎ (result ≡ WRITE_FAULT))))) }

    // Each status has its cause.
    ensures read { result ≡ READ_FAULT
        → Rose (I.faults input.old) (I.faults input.new) ⊎ Rose (F.failures folder.old) (F.failures folder.new) }
    ensures write { result ≡ WRITE_FAULT → Rose (O.sink_faults output.old) (O.sink_faults output.new) }
    ensures cut { result ≡ TRUNCATED
        → IfSome (I.left input.old) (λ bytes. (count : ℕ) × HasEnd LONGEST_TALK bytes (truncated count)) }
    ensures long { result ≡ LONG_TALK → IfSome (I.left input.old) (λ bytes. HasEnd LONGEST_TALK bytes long_talk) }
    ensures others { (result ≢ USAGE) × (result ≢ UNAVAILABLE) }
    ensures steady_read { IsTrue (I.steady input.old) → IsTrue (F.steady folder.old) → result ≢ READ_FAULT }
    ensures steady_write { IsTrue (O.sink_steady output.old) → result ≢ WRITE_FAULT }

    // No count of faults falls, and a steady device stays steady.
    ensures input { Counts (I.faults input.old) (I.faults input.new) (I.steady input.old) (I.steady input.new) }
    ensures output { Counts (O.sink_faults output.old) (O.sink_faults output.new) (O.sink_steady output.old)
        (O.sink_steady output.new) }
    ensures faults { Counts (O.sink_faults faults.old) (O.sink_faults faults.new) (O.sink_steady faults.old)
        (O.sink_steady faults.new) }
    ensures folder { Counts (F.failures folder.old) (F.failures folder.new) (F.steady folder.old)
        (F.steady folder.new) }
    ensures keepers { F.keeper_failures folder.new ≡ F.keeper_failures folder.old }
{
    conversation_laws();
    let finish = run_named::<_, E, _, _, _>(rt, users, input, output, folder);
    report(faults, finish);
    status(finish)
}

/// Serves one conversation over input and output, for the users that the words name.
fn run_named<R: AllocGlobal + Wait, E: Engine, I: Source, O: Sink, F: Folder>(
    rt: &R,
    users: Option<&str>,
    input: &mut I,
    output: &mut O,
    folder: &mut F,
) -> Finish
    ensures runs { Runs E.plain (option_copied users.entry) (F.shown folder.old) (I.left input.old)
        (O.written output.old) (O.written output.new)
        (O.sink_shortages output.old) (O.sink_shortages output.new) result }
    ensures asked { Asks (option_copied users.entry) None (F.shown folder.old) (F.shown folder.new) }
    ensures read { result ≡ Finish.Served Ended.ReadFault
        → Rose (I.faults input.old) (I.faults input.new) ⊎ Rose (F.failures folder.old) (F.failures folder.new) }
    ensures write { result ≡ Finish.Served Ended.WriteFault
        → Rose (O.sink_faults output.old) (O.sink_faults output.new) }
    ensures others { IsOfRunning result }
    ensures steady_read { IsTrue (I.steady input.old) → IsTrue (F.steady folder.old)
        → result ≢ Finish.Served Ended.ReadFault }
    ensures steady_write { IsTrue (O.sink_steady output.old) → result ≢ Finish.Served Ended.WriteFault }
    ensures input { Counts (I.faults input.old) (I.faults input.new) (I.steady input.old) (I.steady input.new) }
    ensures output { Counts (O.sink_faults output.old) (O.sink_faults output.new) (O.sink_steady output.old)
        (O.sink_steady output.new) }
    ensures folder { Counts (F.failures folder.old) (F.failures folder.new) (F.steady folder.old)
        (F.steady folder.new) }
    ensures keepers { F.keeper_failures folder.new ≡ F.keeper_failures folder.old }
{
    match users_of(rt.alloc(), folder, users) {
        Ok(users) => Finish::Served(converse_between::<_, E, _, _>(rt, &users, input, output)),
        Err(finish) => finish,
    }
}

/// Serves one conversation over input and output.
fn converse_between<R: AllocGlobal + Wait, E: Engine, I: Source, O: Sink>(
    rt: &R,
    users: &Users,
    input: &mut I,
    output: &mut O,
) -> Ended
    ensures served { (history : List Entry) × IsConversation (IsResponse (IsReply E.plain users.now)) LONGEST_TALK
        (I.left input.old)
        (at_moment [] (O.written output.old) (O.sink_shortages output.old))
        (at_moment history (O.written output.new) (O.sink_shortages output.new)) result }
    ensures ends { IfSome (I.left input.old) (λ bytes. EndsAs LONGEST_TALK bytes result) }
    ensures read { result ≡ Ended.ReadFault → Rose (I.faults input.old) (I.faults input.new) }
    ensures write { result ≡ Ended.WriteFault → Rose (O.sink_faults output.old) (O.sink_faults output.new) }
    ensures steady_read { IsTrue (I.steady input.old) → result ≢ Ended.ReadFault }
    ensures steady_write { IsTrue (O.sink_steady output.old) → result ≢ Ended.WriteFault }
    ensures input { Counts (I.faults input.old) (I.faults input.new) (I.steady input.old) (I.steady input.new) }
    ensures output { Counts (O.sink_faults output.old) (O.sink_faults output.new) (O.sink_steady output.old)
        (O.sink_steady output.new) }
{
    converse_on::<_, E, _>(rt, users, &mut Link { input, output })
}

/// Serves one conversation over a link.
fn converse_on<R: AllocGlobal + Wait, E: Engine, L: Duplex>(
    rt: &R,
    users: &Users,
    link: &mut L,
) -> Ended
    ensures served { (history : List Entry) × IsConversation (IsResponse (IsReply E.plain users.now)) LONGEST_TALK
        (L.left link.old)
        (at_moment [] (L.written link.old) (L.sink_shortages link.old))
        (at_moment history (L.written link.new) (L.sink_shortages link.new)) result }
    ensures ends { IfSome (L.left link.old) (λ bytes. EndsAs LONGEST_TALK bytes result) }
    ensures read { result ≡ Ended.ReadFault → Rose (L.faults link.old) (L.faults link.new) }
    ensures write { result ≡ Ended.WriteFault → Rose (L.sink_faults link.old) (L.sink_faults link.new) }
    ensures steady_read { IsTrue (L.steady link.old) → result ≢ Ended.ReadFault }
    ensures steady_write { IsTrue (L.sink_steady link.old) → result ≢ Ended.WriteFault }
    ensures input { Counts (L.faults link.old) (L.faults link.new) (L.steady link.old) (L.steady link.new) }
    ensures output { Counts (L.sink_faults link.old) (L.sink_faults link.new) (L.sink_steady link.old)
        (L.sink_steady link.new) }
    ensures references { L.references link.new ≡ L.references link.old }
{
    converse_alone::<_, _, E>(rt, rt.alloc(), link, users, LONGEST_TALK)
}
