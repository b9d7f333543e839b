ghost use Rattle.std.specs.Prelude.{◌≡◌, ◌≢◌, ℕ, ◌<◌, ◌≤◌, None, IfSome, IsTrue};
ghost use Rattle.cell_value.specs.FaultCount.{Rose};
ghost use Rattle.sheets_http.specs.Requests.{room_of, stream_of, IsRequest};
ghost use Rattle.conversation.specs.Conversation.{at_moment, IsConversation, EndsAs, Counts, LosesFirst};
ghost use Rattle.conversation.specs.Exchanges.{SendsOne, SendsClosing, Answers, Refuses, Acts, ended_by, ended_behind};
ghost use Rattle.conversation.specs.Exchanges.{IsExchange};

use crate::closing::{closing_reply, no_memory_reply};
use crate::{Ended, Replies, Said};
use cell_value::NoMemory;
use sheets_http::{
    Buffer, Duplex, HeadFault, Next, Sink, SinkFault, Wire, conversation_laws, next_request,
    send_all,
};
use std::alloc::Global;
use std::sync::Wait;

/// Serves a link from its requests' first byte to the conversation's end: each request is answered, in
/// order, by whoever answers, behind those before it, and a head that is refused by its closing response.
/// At most `most` bytes are served. Whoever answers is given back.
///
/// Where it was cut off by a fault or by want of memory, the first requests were answered whole, and at
/// most one more was begun.
pub fn converse<R: Wait, L: Duplex, P: Replies>(
    rt: &R,
    alloc: Global,
    replies: P,
    link: &mut L,
    most: u64,
) -> (Ended, P)
    ensures about { P.about result.1 ≡ P.about replies }

    // What was answered and written, whatever the link tells of itself.
    ensures served { IsConversation (P.answers (P.about replies)) most (L.left link.old)
        (at_moment (P.at replies) (L.written link.old) (L.sink_shortages link.old))
        (at_moment (P.at result.1) (L.written link.new) (L.sink_shortages link.new)) result.0 }

    // It ends as the talk of the stream does, or was cut off. This follows from the clause before, and is told for
    // readers and callers.
    ensures ends { IfSome (L.left link.old) (λ bytes. EndsAs most bytes result.0) }

    // It doesn't give up by itself.
    ensures read { result.0 ≡ Ended.ReadFault → Rose (L.faults link.old) (L.faults link.new) }
    ensures write { result.0 ≡ Ended.WriteFault → Rose (L.sink_faults link.old) (L.sink_faults link.new) }
    ensures steady_read { IsTrue (L.steady link.old) → result.0 ≢ Ended.ReadFault }
    ensures steady_write { IsTrue (L.sink_steady link.old) → result.0 ≢ Ended.WriteFault }

    ensures input { Counts (L.faults link.old) (L.faults link.new) (L.steady link.old) (L.steady link.new) }
    ensures output { Counts (L.sink_faults link.old) (L.sink_faults link.new) (L.sink_steady link.old)
        (L.sink_steady link.new) }
    ensures shortages { L.sink_shortages link.old ≤ L.sink_shortages link.new }

    // What the link has left is what it had, without its first bytes.
    ensures left { LosesFirst (L.left link.old) (L.left link.new) }
    ensures references { L.references link.new ≡ L.references link.old }
{
    match Buffer::new(alloc) {
        Ok(mut buffer) => serve(rt, alloc, replies, link, &mut buffer, most),
        Err(NoMemory) => (Ended::NoMemory, replies),
    }
}

/// Answers one request after another until the conversation ends.
fn serve<R: Wait, L: Duplex, P: Replies>(
    rt: &R,
    alloc: Global,
    mut replies: P,
    link: &mut L,
    buffer: &mut Buffer,
    most: u64,
) -> (Ended, P)
    ensures about { P.about result.1 ≡ P.about replies }
    ensures served { IsConversation (P.answers (P.about replies)) (room_of most buffer.old)
        (stream_of buffer.old (L.left link.old))
        (at_moment (P.at replies) (L.written link.old) (L.sink_shortages link.old))
        (at_moment (P.at result.1) (L.written link.new) (L.sink_shortages link.new)) result.0 }
    ensures read { result.0 ≡ Ended.ReadFault → Rose (L.faults link.old) (L.faults link.new) }
    ensures write { result.0 ≡ Ended.WriteFault → Rose (L.sink_faults link.old) (L.sink_faults link.new) }
    ensures input { Counts (L.faults link.old) (L.faults link.new) (L.steady link.old) (L.steady link.new) }
    ensures output { Counts (L.sink_faults link.old) (L.sink_faults link.new) (L.sink_steady link.old)
        (L.sink_steady link.new) }
    ensures shortages { L.sink_shortages link.old ≤ L.sink_shortages link.new }
    ensures left { LosesFirst (stream_of buffer.old (L.left link.old)) (stream_of buffer.new (L.left link.new)) }
    ensures references { L.references link.new ≡ L.references link.old }
{
    loop {
        let (next, ended) = exchange(rt, alloc, replies, link, buffer, most);
        match ended {
            Some(ended) => return (ended, next),
            None => replies = next,
        }
    }
}

/// Answers the next request, or tells how the conversation ends.
fn exchange<R: Wait, L: Duplex, P: Replies>(
    rt: &R,
    alloc: Global,
    replies: P,
    link: &mut L,
    buffer: &mut Buffer,
    most: u64,
) -> (P, Option<Ended>)
    ensures about { P.about result.0 ≡ P.about replies }
    ensures exchange { IsExchange (P.answers (P.about replies)) (room_of most buffer.old)
        (stream_of buffer.old (L.left link.old))
        (at_moment (P.at replies) (L.written link.old) (L.sink_shortages link.old))
        (room_of most buffer.new) (stream_of buffer.new (L.left link.new))
        (at_moment (P.at result.0) (L.written link.new) (L.sink_shortages link.new)) result.1 }
    ensures shrinks { result.1 ≡ None → room_of most buffer.new < room_of most buffer.old }
    ensures read { result.1 ≡ Some Ended.ReadFault → Rose (L.faults link.old) (L.faults link.new) }
    ensures write { result.1 ≡ Some Ended.WriteFault → Rose (L.sink_faults link.old) (L.sink_faults link.new) }
    ensures input { Counts (L.faults link.old) (L.faults link.new) (L.steady link.old) (L.steady link.new) }
    ensures output { Counts (L.sink_faults link.old) (L.sink_faults link.new) (L.sink_steady link.old)
        (L.sink_steady link.new) }
    ensures shortages { L.sink_shortages link.old ≤ L.sink_shortages link.new }
    ensures left { LosesFirst (stream_of buffer.old (L.left link.old)) (stream_of buffer.new (L.left link.new)) }
    ensures references { L.references link.new ≡ L.references link.old }
{
    conversation_laws();
    let next = next_request(alloc, link, buffer, most);
    act(rt, alloc, replies, link, next)
}

/// Does what is to be done with what comes next in the stream, and tells whether the conversation
/// ends there.
fn act<R: Wait, S: Sink, P: Replies>(
    rt: &R,
    alloc: Global,
    replies: P,
    sink: &mut S,
    next: Next,
) -> (P, Option<Ended>)
    ensures about { P.about result.0 ≡ P.about replies }
    ensures acts { Acts (P.answers (P.about replies)) next
        (at_moment (P.at replies) (S.written sink.old) (S.sink_shortages sink.old))
        (at_moment (P.at result.0) (S.written sink.new) (S.sink_shortages sink.new)) result.1 }
    ensures goes_on { result.1 ≡ None → IsRequest next }
    ensures read { result.1 ≡ Some Ended.ReadFault → next ≡ Next.ReadFault }
    ensures write { result.1 ≡ Some Ended.WriteFault → Rose (S.sink_faults sink.old) (S.sink_faults sink.new) }
    ensures output { Counts (S.sink_faults sink.old) (S.sink_faults sink.new) (S.sink_steady sink.old)
        (S.sink_steady sink.new) }
    ensures shortages { S.sink_shortages sink.old ≤ S.sink_shortages sink.new }
    ensures beside { S.sink_beside sink.new ≡ S.sink_beside sink.old }
{
    match next {
        Next::Request(request) => answer(rt, replies, sink, request),
        Next::End => (replies, Some(Ended::End)),
        Next::Closed(fault) => (replies, Some(close(alloc, sink, fault))),
        Next::Truncated(count) => (replies, Some(Ended::Truncated(count))),
        Next::LongTalk => (replies, Some(Ended::LongTalk)),
        Next::ReadFault => (replies, Some(Ended::ReadFault)),
        Next::NoMemory => (replies, Some(Ended::NoMemory)),
    }
}

/// Answers a request, and tells whether the conversation ends there.
fn answer<R: Wait, S: Sink, P: Replies>(
    rt: &R,
    replies: P,
    sink: &mut S,
    request: Wire,
) -> (P, Option<Ended>)
    ensures about { P.about result.0 ≡ P.about replies }
    ensures answers { Answers (P.answers (P.about replies)) request
        (at_moment (P.at replies) (S.written sink.old) (S.sink_shortages sink.old))
        (at_moment (P.at result.0) (S.written sink.new) (S.sink_shortages sink.new)) result.1 }
    ensures cause { result.1 ≡ Some Ended.WriteFault → Rose (S.sink_faults sink.old) (S.sink_faults sink.new) }
    ensures read { result.1 ≢ Some Ended.ReadFault }
    ensures output { Counts (S.sink_faults sink.old) (S.sink_faults sink.new) (S.sink_steady sink.old)
        (S.sink_steady sink.new) }
    ensures shortages { S.sink_shortages sink.old ≤ S.sink_shortages sink.new }
    ensures beside { S.sink_beside sink.new ≡ S.sink_beside sink.old }
{
    let last = request.close;
    let (replies, said) = replies.reply(rt, request);
    match said {
        Said::Response(response) => (replies, respond(sink, response.as_slice(), last)),
        Said::Constant => (replies, respond(sink, no_memory_reply(last), last)),
        Said::Lost => (replies, Some(Ended::NoMemory)),
    }
}

/// Sends a response, and tells whether the conversation ends behind it; `last` says that it is to.
fn respond<S: Sink>(sink: &mut S, response: &[u8], last: bool) -> Option<Ended>
    ensures sends { SendsOne response.now last (S.written sink.old) (S.written sink.new)
        (S.sink_shortages sink.old) (S.sink_shortages sink.new) result }
    ensures cause { result ≡ Some Ended.WriteFault → Rose (S.sink_faults sink.old) (S.sink_faults sink.new) }
    ensures read { result ≢ Some Ended.ReadFault }
    ensures output { Counts (S.sink_faults sink.old) (S.sink_faults sink.new) (S.sink_steady sink.old)
        (S.sink_steady sink.new) }
    ensures shortages { S.sink_shortages sink.old ≤ S.sink_shortages sink.new }
    ensures beside { S.sink_beside sink.new ≡ S.sink_beside sink.old }
{
    match send_all(sink, response) {
        Ok(()) if last => Some(Ended::Asked),
        Ok(()) => None,
        Err(fault) => Some(fault_end(fault)),
    }
}

/// Closes the conversation at a refused head.
fn close<S: Sink>(alloc: Global, sink: &mut S, refused: HeadFault) -> Ended
    ensures refuses { Refuses refused (S.written sink.old) (S.written sink.new)
        (S.sink_shortages sink.old) (S.sink_shortages sink.new) result }
    ensures cause { result ≡ Ended.WriteFault → Rose (S.sink_faults sink.old) (S.sink_faults sink.new) }
    ensures read { result ≢ Ended.ReadFault }
    ensures output { Counts (S.sink_faults sink.old) (S.sink_faults sink.new) (S.sink_steady sink.old)
        (S.sink_steady sink.new) }
    ensures shortages { S.sink_shortages sink.old ≤ S.sink_shortages sink.new }
    ensures beside { S.sink_beside sink.new ≡ S.sink_beside sink.old }
{
    match send_closing(alloc, sink, refused) {
        Ok(()) => Ended::Closed(refused),
        Err(fault) => fault_end(fault),
    }
}

/// How a conversation ends by a fault of its sink.
fn fault_end(fault: SinkFault) -> Ended
    ensures { result ≡ ended_by fault }
{
    match fault {
        SinkFault::Failed => Ended::WriteFault,
        SinkFault::NoMemory => Ended::NoMemory,
    }
}

/// Sends the closing response to a refused head; where memory runs out, the constant one.
fn send_closing<S: Sink>(alloc: Global, sink: &mut S, refused: HeadFault) -> Result<(), SinkFault>
    ensures response { SendsClosing refused (S.written sink.old) (S.written sink.new)
        (S.sink_shortages sink.old) (S.sink_shortages sink.new) result }
    ensures cause { result ≡ Err SinkFault.Failed → Rose (S.sink_faults sink.old) (S.sink_faults sink.new) }
    ensures output { Counts (S.sink_faults sink.old) (S.sink_faults sink.new) (S.sink_steady sink.old)
        (S.sink_steady sink.new) }
    ensures shortages { S.sink_shortages sink.old ≤ S.sink_shortages sink.new }
    ensures beside { S.sink_beside sink.new ≡ S.sink_beside sink.old }
{
    match closing_reply(alloc, refused) {
        Ok(closing) => send_all(sink, closing.as_slice()),
        Err(NoMemory) => send_all(sink, no_memory_reply(true)),
    }
}
