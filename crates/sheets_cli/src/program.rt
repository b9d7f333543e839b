ghost use Rattle.std.specs.Prelude.{◌≡◌, ◌≢◌, ◌≤◌, ◌⊎◌, ◌↔◌, ℕ, List, [], Option, codes, IsTrue, IfSome, map, string_bytes};
ghost use Rattle.sheets_http.specs.declared.request.Wire.{Wire};
ghost use Rattle.sheets_http.specs.Framing.{End, truncated, long_talk, Talk};
ghost use Rattle.cell_value.specs.FaultCount.{Rose};
ghost use Rattle.conversation.specs.Conversation.{at_moment, Counts, HasEnd};
ghost use Rattle.world_model.specs.Book.{PlaceBook};
ghost use Rattle.sheet_engine.specs.Dump.{Dump};
ghost use Rattle.sheet_engine.specs.Replay.{Plain, Cells};
ghost use Rattle.sheet_engine.specs.declared.asking.Reading.{Reading};
ghost use Rattle.command_line.specs.Words.{Meaning, run, serve, replay, workload, ReadsAs, ReadsAsNone};
ghost use Rattle.commands.specs.Finish.{status_of, status_at, status_at_end, line_of, line_at_end, Says};
ghost use Rattle.commands.specs.Replaying.{Replays};
ghost use Rattle.commands.specs.Running.{Runs};
ghost use Rattle.commands.specs.Serving.{Serves};
ghost use Rattle.commands.specs.Working.{Works};
ghost use Rattle.sheets_cli.specs.Program.{IsAskedBy, NamesJournal, RanOut, ReadsAsReplay, ReadsAsRun, ReadsAsServe};

use command_line::{Command, command_of};
use commands::{
    BAD_FILE, Finish, LONG_TALK, NO_MEMORY, READ_FAULT, TRUNCATED, UNAVAILABLE, USAGE, WRITE_FAULT,
    Wanted, replay, run, say, serve, workload,
};
use connections::Doors;
use conversation::Ended;
use folder::Folder;
use sheet_engine::Sheets;
use sheets_http::{LONGEST_TALK, Sink, Source};
use std::sync::Wait;
use std::thread::Threads;

/// The program: the words behind its name, its input, its output, the output for its faults, where its files are, and
/// where connections come in. It answers its status.
///
/// `run` serves one conversation over input and output, at a desk that nobody else has; its history is empty at first.
/// `serve` opens the doors on a port and serves so many connections at one desk, each by a thread of its own; behind
/// the last one it writes what their history comes to. Its history begins with that of its journal, where the words
/// name one, and each call that is accepted is in the journal before it is answered. A request comes from the user of
/// its token in the file of users; where the words name none, from the user whom its token names. `replay` writes what
/// the history of a journal comes to, and `workload` what a number of fixed calls comes to.
///
/// Where memory runs out before the words are read, no command is done, and the status is that of want of memory.
///
/// No clause says that a wait ends, or that two connections are served at the same time.
pub fn sheets_main<
    R: AllocGlobal + Threads + Wait + Sync,
    I: Source,
    O: Sink,
    F: Folder,
    D: Doors + Send,
>(
    rt: &R,
    words: &[String],
    input: &mut I,
    output: &mut O,
    faults: &mut O,
    folder: &mut F,
    doors: &mut D,
) -> u8
    // The doors have accepted no connection yet.
    requires { IfSome (D.shown doors.old) (λ shown. shown.connections ≡ []) }

    // Words that are no command: that is told, or memory ran out before they were read.
    ensures usage { result ≡ USAGE → ReadsAsNone (map string_bytes words.now) }
    ensures usage_line { ReadsAsNone (map string_bytes words.now)
        → ((result ≡ USAGE) × Says (O.written faults.old) (O.written faults.new)
        (O.sink_faults faults.old) (O.sink_faults faults.new)
        (O.sink_shortages faults.old) (O.sink_shortages faults.new) (codes "usage\n"))
        ⊎ ((result ≡ NO_MEMORY) × Says (O.written faults.old) (O.written faults.new)
        (O.sink_faults faults.old) (O.sink_faults faults.new)
        (O.sink_shortages faults.old) (O.sink_shortages faults.new) (codes "no memory\n")) }
    ensures refused { ReadsAsNone (map string_bytes words.now)
        → (output.new ≡ output.old) × (folder.new ≡ folder.old) }

    // Only `run` reads the input, and only `serve` asks the doors. The folder is asked for what the words name alone,
    // or for nothing, where memory ran out before they were read.
    ensures untouched { ¬ (ReadsAsRun (map string_bytes words.now)) → input.new ≡ input.old }
    ensures unasked { ¬ (ReadsAsServe (map string_bytes words.now)) → doors.new ≡ doors.old }
    ensures asked { (command : Meaning) → ReadsAs command (map string_bytes words.now)
        → IsAskedBy command (F.shown folder.old) (F.shown folder.new)
        ⊎ ((result ≡ NO_MEMORY) × (folder.new ≡ folder.old)) }

    // The command `run`: how it ends, what was written, and the line on the faults; or memory ran out before the words
    // were read.
    ensures run { (users : Option (List ℕ)) → ReadsAs (run users) (map string_bytes words.now)
        → (finish : Finish) × (result ≡ status_of finish)
        × (Runs Plain users (F.shown folder.old) (I.left input.old)
        (O.written output.old) (O.written output.new)
        (O.sink_shortages output.old) (O.sink_shortages output.new) finish
        ⊎ RanOut finish input.old input.new output.old output.new folder.old folder.new)
        × Says (O.written faults.old) (O.written faults.new) (O.sink_faults faults.old) (O.sink_faults faults.new)
        (O.sink_shortages faults.old) (O.sink_shortages faults.new) (line_of finish) }

    // Where the talk of the input ends so, that is the status, unless the file of users is bad, memory ran out, or a
    // device failed.
    ensures exactly { ReadsAsRun (map string_bytes words.now) → IfSome (I.left input.old)
        (λ bytes. (requests : List Wire) → (end : End) → Talk LONGEST_TALK bytes requests end
        → (result ≡ status_at end) ⊎ ((result ≡ BAD_FILE) ⊎ ((result ≡ NO_MEMORY)
        ⊎ ((result ≡ READ_FAULT) ⊎ (result ≡ WRITE_FAULT))))) }

    // The command `serve`: how it ends, what the connections were answered and the doors show of them, what was
    // written, and the line on the faults; or memory ran out before the words were read.
    ensures serve { (port : ℕ) → (limit : ℕ) → (users : Option (List ℕ)) → (journal : Option (List ℕ))
        → ReadsAs (serve port limit users journal) (map string_bytes words.now)
        → (finish : Finish) × (result ≡ status_of finish)
        × (Serves Sheets F.Kept (List PlaceBook) Reading Plain Cells F.Kept.failures F.Kept.steady port limit users
        journal (F.shown folder.old) (F.shown folder.new)
        (at_moment (D.shown doors.old) (O.written output.old) (O.sink_shortages output.old))
        (at_moment (D.shown doors.new) (O.written output.new) (O.sink_shortages output.new)) finish
        ⊎ RanOut finish output.old output.new folder.old folder.new doors.old doors.new)
        × Says (O.written faults.old) (O.written faults.new) (O.sink_faults faults.old) (O.sink_faults faults.new)
        (O.sink_shortages faults.old) (O.sink_shortages faults.new) (line_of finish) }

    // The commands `replay` and `workload`: how they end, what was written, and the line on the faults.
    ensures replay { (journal : List ℕ) → ReadsAs (replay journal) (map string_bytes words.now)
        → (finish : Finish) × (result ≡ status_of finish)
        × Replays Plain Dump journal (F.shown folder.old) (O.written output.old) (O.written output.new)
        (O.sink_shortages output.old) (O.sink_shortages output.new) finish
        × Says (O.written faults.old) (O.written faults.new) (O.sink_faults faults.old) (O.sink_faults faults.new)
        (O.sink_shortages faults.old) (O.sink_shortages faults.new) (line_of finish) }
    ensures workload { (calls : ℕ) → ReadsAs (workload calls) (map string_bytes words.now)
        → (end : Ended) × (result ≡ status_at_end end)
        × Works Plain Cells calls (O.written output.old) (O.written output.new)
        (O.sink_shortages output.old) (O.sink_shortages output.new) end
        × Says (O.written faults.old) (O.written faults.new) (O.sink_faults faults.old) (O.sink_faults faults.new)
        (O.sink_shortages faults.old) (O.sink_shortages faults.new) (line_at_end end) }

    // Each status has its cause.
    ensures read { ReadsAsRun (map string_bytes words.now) → result ≡ READ_FAULT
        → Rose (I.faults input.old) (I.faults input.new) ⊎ Rose (F.failures folder.old) (F.failures folder.new) }
    ensures doors_failed { ReadsAsServe (map string_bytes words.now) → result ≡ READ_FAULT
        → Rose (D.failures doors.old) (D.failures doors.new) ⊎ Rose (F.failures folder.old) (F.failures folder.new) }
    ensures unread { ReadsAsReplay (map string_bytes words.now) → result ≡ READ_FAULT
        → Rose (F.failures folder.old) (F.failures folder.new) }
    ensures write { result ≡ WRITE_FAULT → Rose (O.sink_faults output.old) (O.sink_faults output.new) }
    ensures cut { result ≡ TRUNCATED → ReadsAsRun (map string_bytes words.now)
        × IfSome (I.left input.old) (λ bytes. (count : ℕ) × HasEnd LONGEST_TALK bytes (truncated count)) }
    ensures long { result ≡ LONG_TALK → ReadsAsRun (map string_bytes words.now)
        × IfSome (I.left input.old) (λ bytes. HasEnd LONGEST_TALK bytes long_talk) }
    ensures unavailable { result ≡ UNAVAILABLE → Rose (F.keeper_failures folder.old) (F.keeper_failures folder.new) }
    ensures unopened { result ≡ UNAVAILABLE → NamesJournal (map string_bytes words.now) × (doors.new ≡ doors.old) }
    ensures steady_read { ReadsAsRun (map string_bytes words.now) → IsTrue (I.steady input.old)
        → IsTrue (F.steady folder.old) → result ≢ READ_FAULT }
    ensures steady_doors { ReadsAsServe (map string_bytes words.now) → IsTrue (D.steady doors.old)
        → IsTrue (F.steady folder.old) → result ≢ READ_FAULT }
    ensures steady_replay { ReadsAsReplay (map string_bytes words.now) → IsTrue (F.steady folder.old)
        → result ≢ READ_FAULT }
    ensures steady_write { IsTrue (O.sink_steady output.old) → result ≢ WRITE_FAULT }
    ensures steady_keeper { IsTrue (F.steady folder.old) → result ≢ UNAVAILABLE }

    // No count of faults falls, and a steady device stays steady.
    ensures input { Counts (I.faults input.old) (I.faults input.new) (I.steady input.old) (I.steady input.new) }
    ensures output { Counts (O.sink_faults output.old) (O.sink_faults output.new) (O.sink_steady output.old)
        (O.sink_steady output.new) }
    ensures faults { Counts (O.sink_faults faults.old) (O.sink_faults faults.new) (O.sink_steady faults.old)
        (O.sink_steady faults.new) }
    ensures doors { Counts (D.failures doors.old) (D.failures doors.new) (D.steady doors.old) (D.steady doors.new) }
    ensures folder { F.failures folder.old ≤ F.failures folder.new }
    ensures keepers { F.keeper_failures folder.old ≤ F.keeper_failures folder.new }
{
    let Ok(found) = command_of(rt.alloc(), words) else {
        say(faults, b"no memory\n");
        return NO_MEMORY;
    };
    let Some(command) = found else {
        say(faults, b"usage\n");
        return USAGE;
    };
    match command {
        Command::Run { users } => {
            run::<_, Sheets, _, _, _>(rt, users, input, output, faults, folder)
        }
        Command::Serve {
            port,
            limit,
            users,
            journal,
        } => {
            let wanted = Wanted {
                port,
                limit,
                users,
                journal,
            };
            serve::<_, Sheets, _, _, _>(rt, wanted, output, faults, folder, doors)
        }
        Command::Replay { journal } => {
            replay::<_, Sheets, _, _>(rt, journal, output, faults, folder)
        }
        Command::Workload { calls } => workload::<_, Sheets, _>(rt, calls, output, faults),
    }
}
