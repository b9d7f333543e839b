ghost use Rattle.std.specs.Prelude.{◌≡◌, ◌≢◌, ◌≤◌, List, [], IfSome, IsTrue};
ghost use Rattle.cell_value.specs.FaultCount.{Rose};
ghost use Rattle.desk.specs.declared.entry.Entry.{Entry};
ghost use Rattle.conversation.specs.Conversation.{at_moment, IsConversation, EndsAs, Counts, LosesFirst};
ghost use Rattle.connections.specs.Alone.{IsReply, IsResponse, HasOneReply};
ghost use Rattle.connections.specs.Replied.{HasReply};

use crate::converse;
use conversation::Ended;
use desk::{Desk, Engine, LONGEST_JOURNAL, SteadyKeeper, one_step};
use sheets_http::{Duplex, Users};
use std::alloc::Global;
use std::sync::Wait;

/// Serves one connection by a history that is empty at first. Each request is answered as one thread does behind the
/// calls that were accepted before it, or by the constant response for want of memory, which adds nothing; a head that
/// is refused is answered by its closing response. A request is made by the user of its token. At most `most` bytes are
/// served.
///
/// Where it was cut off by a fault or by want of memory, the first requests were answered whole, and at most one more
/// was begun.
pub fn converse_alone<R: Wait, L: Duplex, E: Engine>(
    rt: &R,
    alloc: Global,
    link: &mut L,
    users: &Users,
    most: u64,
) -> Ended
    // What was answered and written, whatever the link tells of itself.
    ensures served { (history : List Entry) × IsConversation (IsResponse (IsReply E.plain users.now)) most
        (L.left link.old)
        (at_moment [] (L.written link.old) (L.sink_shortages link.old))
        (at_moment history (L.written link.new) (L.sink_shortages link.new)) result }

    // It ends as the talk of the stream does, or was cut off, and doesn't give up by itself.
    ensures ends { IfSome (L.left link.old) (λ bytes. EndsAs most bytes result) }
    ensures read { result ≡ Ended.ReadFault → Rose (L.faults link.old) (L.faults link.new) }
    ensures write { result ≡ Ended.WriteFault → Rose (L.sink_faults link.old) (L.sink_faults link.new) }
    ensures steady_read { IsTrue (L.steady link.old) → result ≢ Ended.ReadFault }
    ensures steady_write { IsTrue (L.sink_steady link.old) → result ≢ Ended.WriteFault }

    ensures input { Counts (L.faults link.old) (L.faults link.new) (L.steady link.old) (L.steady link.new) }
    ensures output { Counts (L.sink_faults link.old) (L.sink_faults link.new) (L.sink_steady link.old)
        (L.sink_steady link.new) }
    ensures shortages { L.sink_shortages link.old ≤ L.sink_shortages link.new }

    // What the link has left is what it had, without its first bytes.
    ensures left { LosesFirst (L.left link.old) (L.left link.new) }
    ensures references { L.references link.new ≡ L.references link.old }
{
    let keeper = SteadyKeeper::new(Vec::new(alloc));
    match Desk::<E, SteadyKeeper>::open(alloc, keeper, LONGEST_JOURNAL, 1) {
        Ok((desk, pass)) => {
            let (ended, pass) = converse(rt, alloc, link, &desk, users, pass, most);
            let _ = desk.close(rt, pass);
            ended
        }
        Err(_) => Ended::NoMemory,
    }
}

/// Behind a given history a request has one reply, and leaves one history. It does nothing when it runs.
pub fn one_reply<E: Engine>()
    ensures { HasOneReply E.plain }
{
    one_step::<E>();
}

/// Behind a given history a request has a reply where what it asks has an outcome there. It does nothing when it runs.
pub fn has_reply<E: Engine>()
    ensures { HasReply E.plain }
{}
