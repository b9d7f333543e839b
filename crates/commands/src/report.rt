ghost use Rattle.std.specs.Prelude.{◌≡◌, ◌≢◌, ◌≤◌, ◌++◌, codes, IsTrue};
ghost use Rattle.std.specs.Fmt.{decimal};
ghost use Rattle.cell_value.specs.FaultCount.{Rose};
ghost use Rattle.conversation.specs.Conversation.{Counts};
ghost use Rattle.conversation.specs.Exchanges.{Sends};
ghost use Rattle.commands.specs.Finish.{count_line, line_at_end, line_of, Says};

use crate::finish::Finish;
use conversation::Ended;
use sheets_http::{Sink, SinkFault, send_all};

/// Writes a line; where that fails, it is cut.
pub fn say<S: Sink>(faults: &mut S, line: &[u8])
    ensures says { Says (S.written faults.old) (S.written faults.new) (S.sink_faults faults.old)
        (S.sink_faults faults.new) (S.sink_shortages faults.old) (S.sink_shortages faults.new) line.now }
    ensures counts { Counts (S.sink_faults faults.old) (S.sink_faults faults.new) (S.sink_steady faults.old)
        (S.sink_steady faults.new) }
{
    let _ = send_all(faults, line);
}

/// Writes the line on the faults of a command that ended so; where that fails, it is cut.
pub(crate) fn report<S: Sink>(faults: &mut S, finish: Finish)
    ensures says { Says (S.written faults.old) (S.written faults.new) (S.sink_faults faults.old)
        (S.sink_faults faults.new) (S.sink_shortages faults.old) (S.sink_shortages faults.new) (line_of finish) }
    ensures counts { Counts (S.sink_faults faults.old) (S.sink_faults faults.new) (S.sink_steady faults.old)
        (S.sink_steady faults.new) }
{
    match finish {
        Finish::Served(ended) => report_end(faults, ended),
        Finish::BadUsers(row) => say_count(faults, b"bad users ", row),
        Finish::UsersLong => say(faults, b"users long\n"),
        Finish::BadJournal(entry) => say_count(faults, b"bad journal ", entry),
        Finish::JournalLong => say(faults, b"journal long\n"),
        Finish::Unavailable => say(faults, b"unavailable\n"),
    }
}

/// Writes the line on the faults of a conversation that ended so; where that fails, it is cut.
fn report_end<S: Sink>(faults: &mut S, ended: Ended)
    ensures says { Says (S.written faults.old) (S.written faults.new) (S.sink_faults faults.old)
        (S.sink_faults faults.new) (S.sink_shortages faults.old) (S.sink_shortages faults.new) (line_at_end ended) }
    ensures counts { Counts (S.sink_faults faults.old) (S.sink_faults faults.new) (S.sink_steady faults.old)
        (S.sink_steady faults.new) }
{
    match ended {
        Ended::End | Ended::Asked | Ended::Closed(_) => {}
        Ended::ReadFault => say(faults, b"read fault\n"),
        Ended::NoMemory => say(faults, b"no memory\n"),
        Ended::WriteFault => say(faults, b"write fault\n"),
        Ended::Truncated(count) => say_count(faults, b"truncated ", count),
        Ended::LongTalk => say(faults, b"long talk\n"),
    }
}

/// Writes a line of a text and a count; where that fails, it is cut.
fn say_count<S: Sink>(faults: &mut S, text: &[u8], count: u64)
    ensures says { Says (S.written faults.old) (S.written faults.new) (S.sink_faults faults.old)
        (S.sink_faults faults.new) (S.sink_shortages faults.old) (S.sink_shortages faults.new)
        (count_line text.now count) }
    ensures counts { Counts (S.sink_faults faults.old) (S.sink_faults faults.new) (S.sink_steady faults.old)
        (S.sink_steady faults.new) }
{
    let _ = send_line(faults, text, count);
}

/// Sends a line of a text and a count.
pub(crate) fn send_line<S: Sink>(sink: &mut S, text: &[u8], count: u64) -> Result<(), SinkFault>
    ensures sends { Sends (S.written sink.old) (S.written sink.new) (count_line text.now count) result }
    ensures counts { Counts (S.sink_faults sink.old) (S.sink_faults sink.new) (S.sink_steady sink.old)
        (S.sink_steady sink.new) }
    ensures cause { result ≡ Err SinkFault.Failed → Rose (S.sink_faults sink.old) (S.sink_faults sink.new) }
    ensures short { result ≡ Err SinkFault.NoMemory → Rose (S.sink_shortages sink.old) (S.sink_shortages sink.new) }
    ensures short_later { S.sink_shortages sink.old ≤ S.sink_shortages sink.new }
    ensures unfailing { IsTrue (S.sink_steady sink.old) → result ≢ Err SinkFault.Failed }
{
    match send_all(sink, text) {
        Ok(()) => send_count(sink, count),
        Err(fault) => Err(fault),
    }
}

/// Sends a number in decimal, and a line feed.
fn send_count<S: Sink>(sink: &mut S, count: u64) -> Result<(), SinkFault>
    ensures sends { Sends (S.written sink.old) (S.written sink.new) (decimal count ++ codes "\n") result }
    ensures counts { Counts (S.sink_faults sink.old) (S.sink_faults sink.new) (S.sink_steady sink.old)
        (S.sink_steady sink.new) }
    ensures cause { result ≡ Err SinkFault.Failed → Rose (S.sink_faults sink.old) (S.sink_faults sink.new) }
    ensures short { result ≡ Err SinkFault.NoMemory → Rose (S.sink_shortages sink.old) (S.sink_shortages sink.new) }
    ensures short_later { S.sink_shortages sink.old ≤ S.sink_shortages sink.new }
    ensures unfailing { IsTrue (S.sink_steady sink.old) → result ≢ Err SinkFault.Failed }
{
    let mut digits = itoa::Buffer::new();
    match send_all(sink, digits.format(count).as_bytes()) {
        Ok(()) => send_all(sink, b"\n"),
        Err(fault) => Err(fault),
    }
}
