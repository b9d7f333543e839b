ghost use Rattle.std.specs.Prelude.{◌≡◌, ◌≢◌, ◌≤◌, Err, IsTrue};
ghost use Rattle.cell_value.specs.FaultCount.{Rose};
ghost use Rattle.conversation.specs.Conversation.{Counts};
ghost use Rattle.conversation.specs.Exchanges.{Sends};
ghost use Rattle.commands.specs.Finish.{status_at_end, line_at_end, Says};
ghost use Rattle.commands.specs.Serving.{IsEndOfServing};
ghost use Rattle.commands.specs.Working.{Works, work_text};

use crate::finish::{
    BAD_FILE, Finish, LONG_TALK, READ_FAULT, TRUNCATED, UNAVAILABLE, USAGE, WRITE_FAULT, status,
};
use crate::report::{report, send_line};
use conversation::Ended;
use desk::Engine;
use sheets_http::{Sink, SinkFault};
use workload::{WorkSummary, work};

/// Makes so many fixed calls at a desk in memory, and writes what they come to; says how it failed, if it did.
pub fn workload<R: AllocGlobal, E: Engine, O: Sink>(
    rt: &R,
    calls: u32,
    output: &mut O,
    faults: &mut O,
) -> u8
    ensures workload { (end : Ended) × (result ≡ status_at_end end)
        × Works E.plain E.cells calls (O.written output.old) (O.written output.new)
        (O.sink_shortages output.old) (O.sink_shortages output.new) end
        × Says (O.written faults.old) (O.written faults.new) (O.sink_faults faults.old) (O.sink_faults faults.new)
        (O.sink_shortages faults.old) (O.sink_shortages faults.new) (line_at_end end) }

    // Each status has its cause.
    ensures write { result ≡ WRITE_FAULT → Rose (O.sink_faults output.old) (O.sink_faults output.new) }
    ensures others { (result ≢ USAGE) × (result ≢ TRUNCATED) × (result ≢ LONG_TALK) × (result ≢ READ_FAULT)
        × (result ≢ BAD_FILE) × (result ≢ UNAVAILABLE) }
    ensures steady_write { IsTrue (O.sink_steady output.old) → result ≢ WRITE_FAULT }

    // No count of faults falls, and a steady device stays steady.
    ensures output { Counts (O.sink_faults output.old) (O.sink_faults output.new) (O.sink_steady output.old)
        (O.sink_steady output.new) }
    ensures faults { Counts (O.sink_faults faults.old) (O.sink_faults faults.new) (O.sink_steady faults.old)
        (O.sink_steady faults.new) }
{
    let ended = work_out::<_, E, _>(rt, calls, output);
    report(faults, Finish::Served(ended));
    status(Finish::Served(ended))
}

/// Makes so many fixed calls, and writes what they come to.
fn work_out<R: AllocGlobal, E: Engine, O: Sink>(rt: &R, calls: u32, output: &mut O) -> Ended
    ensures works { Works E.plain E.cells calls (O.written output.old) (O.written output.new)
        (O.sink_shortages output.old) (O.sink_shortages output.new) result }
    ensures others { IsEndOfServing result }
    ensures read { result ≢ Ended.ReadFault }
    ensures write { result ≡ Ended.WriteFault → Rose (O.sink_faults output.old) (O.sink_faults output.new) }
    ensures steady { IsTrue (O.sink_steady output.old) → result ≢ Ended.WriteFault }
    ensures counts { Counts (O.sink_faults output.old) (O.sink_faults output.new) (O.sink_steady output.old)
        (O.sink_steady output.new) }
{
    match work::<E>(rt.alloc(), calls) {
        Err(_) => Ended::NoMemory,
        Ok(told) => match send_work(output, told) {
            Ok(()) => Ended::End,
            Err(SinkFault::Failed) => Ended::WriteFault,
            Err(SinkFault::NoMemory) => Ended::NoMemory,
        },
    }
}

/// Sends the lines of what calls came to.
fn send_work<S: Sink>(output: &mut S, told: WorkSummary) -> Result<(), SinkFault>
    ensures sends { Sends (S.written output.old) (S.written output.new) (work_text told) result }
    ensures counts { Counts (S.sink_faults output.old) (S.sink_faults output.new) (S.sink_steady output.old)
        (S.sink_steady output.new) }
    ensures cause { result ≡ Err SinkFault.Failed → Rose (S.sink_faults output.old) (S.sink_faults output.new) }
    ensures short { result ≡ Err SinkFault.NoMemory
        → Rose (S.sink_shortages output.old) (S.sink_shortages output.new) }
    ensures short_later { S.sink_shortages output.old ≤ S.sink_shortages output.new }
    ensures unfailing { IsTrue (S.sink_steady output.old) → result ≢ Err SinkFault.Failed }
{
    send_line(output, b"calls ", told.calls)?;
    send_line(output, b"accepted ", told.accepted)?;
    send_line(output, b"refused ", told.refused)?;
    send_line(output, b"cells ", told.cells)?;
    send_line(output, b"history ", told.history)
}
