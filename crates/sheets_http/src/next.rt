ghost use Rattle.std.specs.Prelude.{◌≡◌, ◌≢◌, IsTrue, ◌+◌, ◌^◌, ◌<◌, ◌≤◌, length, take, drop, IfOk, OnOk, OnErr, IfSome};
ghost use Rattle.cell_value.specs.FaultCount.{Rose, StaysSteady};
ghost use Rattle.sheets_http.specs.Heads.{skip_breaks};
ghost use Rattle.sheets_http.specs.Requests.{room_of, stream_of, HoldsMessage, IsRequest, IsAnswer, IsExact};
ghost use Rattle.sheets_http.specs.Buffering.{end_answer, IsScanned, IsProgress, AnswersNoRequest, IsBody};

use crate::buffer::{Buffer, FillError};
use crate::scan::is_break;
use crate::scanned::Scanned;
use crate::summary::HeadSummary;
use crate::{Next, Source, Wire};
use cell_value::{Bytes, NoMemory};
use std::alloc::Global;

/// The most bytes that the requests of one connection have together, 2^40.
pub const LONGEST_TALK: u64 = 1_099_511_627_776;

/// Reads on until it is known what comes next in a conversation of at most `most` bytes, of which
/// `buffer` holds what was read already.
///
/// A failure takes nothing out of the conversation: it may go on after [`Next::ReadFault`] and
/// [`Next::NoMemory`].
pub fn next_request<L: Source>(alloc: Global, link: &mut L, buffer: &mut Buffer, most: u64) -> Next
    // What the answer says of the stream, where the source tells it.
    ensures answer { IfSome (stream_of buffer.old (L.left link.old))
        (λ bytes. IsAnswer (room_of most buffer.old) bytes (room_of most buffer.new)
        (stream_of buffer.new (L.left link.new)) result) }

    // Each request takes some of the bound.
    ensures shrinks { IsRequest result → room_of most buffer.new < room_of most buffer.old }

    // What comes next is answered, unless memory ran out or the source failed.
    ensures exactly { IfSome (stream_of buffer.old (L.left link.old))
        (λ bytes. IsExact (room_of most buffer.old) bytes (L.faults link.old) (L.faults link.new) result) }

    // Nothing but a request takes anything.
    ensures stream { ¬ (IsRequest result)
        → stream_of buffer.old (L.left link.old) ≡ stream_of buffer.new (L.left link.new) }
    ensures bound { ¬ (IsRequest result) → room_of most buffer.new ≡ room_of most buffer.old }

    // Nothing is read where what is held tells what comes next.
    ensures held { HoldsMessage most buffer.old → link.new ≡ link.old }

    // It doesn't give up by itself.
    ensures fault { result ≡ Next.ReadFault → Rose (L.faults link.old) (L.faults link.new) }
    ensures unfailing { IsTrue (L.steady link.old) → result ≢ Next.ReadFault }

    ensures later { L.faults link.old ≤ L.faults link.new }
    ensures steady { StaysSteady (L.steady link.old) (L.steady link.new) (L.faults link.old) (L.faults link.new) }
    ensures beside { L.beside link.new ≡ L.beside link.old }
{
    loop {
        match read_once(alloc, link, buffer, most) {
            Progress::Answer(next) => return next,
            Progress::Head(summary, end) => {
                return next_body(alloc, link, buffer, most, summary, end);
            }
            Progress::More => {}
        }
    }
}

/// What one progress of reading gives.
#[derive(Debug, Drop)]
pub(crate) enum Progress {
    /// An answer.
    Answer(Next),
    /// A head that was read, which ends there.
    Head(HeadSummary, usize),
    /// More bytes are held.
    More,
}

/// Answers by what is held, or reads once.
fn read_once<L: Source>(alloc: Global, link: &mut L, buffer: &mut Buffer, most: u64) -> Progress
    ensures progress { IsProgress most buffer.old buffer.new (stream_of buffer.old (L.left link.old))
        (stream_of buffer.new (L.left link.new)) result }
    ensures no_request { AnswersNoRequest result }
    ensures held { HoldsMessage most buffer.old → (link.new ≡ link.old) × (result ≢ Progress.More) }
    ensures stream { stream_of buffer.old (L.left link.old) ≡ stream_of buffer.new (L.left link.new) }
    ensures used { buffer.new.used ≡ buffer.old.used }
    ensures fault { result ≡ Progress.Answer Next.ReadFault → Rose (L.faults link.old) (L.faults link.new) }
    ensures later { L.faults link.old ≤ L.faults link.new }
    ensures steady { StaysSteady (L.steady link.old) (L.steady link.new) (L.faults link.old) (L.faults link.new) }
    ensures beside { L.beside link.new ≡ L.beside link.old }
{
    let room = most.saturating_sub(buffer.used());
    match buffer.scan_head(alloc, room) {
        Ok(Scanned::Head(summary, end)) => Progress::Head(summary, end),
        Ok(Scanned::Refused(fault)) => Progress::Answer(Next::Closed(fault)),
        Ok(Scanned::Growing) => {
            if room <= buffer.pending().len() as u64 {
                Progress::Answer(Next::LongTalk)
            } else {
                match buffer.fill(link) {
                    Ok(0) => Progress::Answer(end_of(buffer.pending())),
                    Ok(_) => Progress::More,
                    Err(FillError::Failed) => Progress::Answer(Next::ReadFault),
                    Err(FillError::NoMemory) => Progress::Answer(Next::NoMemory),
                }
            }
        }
        Err(NoMemory) => Progress::Answer(Next::NoMemory),
    }
}

/// Reads on until the body is held of the request whose head was read, and ends there.
fn next_body<L: Source>(
    alloc: Global,
    link: &mut L,
    buffer: &mut Buffer,
    most: u64,
    summary: HeadSummary,
    end: usize,
) -> Next
    requires { IsScanned (take (room_of most buffer.old) buffer.old.pending) (Ok (Scanned.Head summary end)) }
    ensures answer { IfSome (stream_of buffer.old (L.left link.old))
        (λ bytes. IsAnswer (room_of most buffer.old) bytes (room_of most buffer.new)
        (stream_of buffer.new (L.left link.new)) result) }
    ensures shrinks { IsRequest result → room_of most buffer.new < room_of most buffer.old }
    ensures held { HoldsMessage most buffer.old → link.new ≡ link.old }
    ensures stream { ¬ (IsRequest result)
        → stream_of buffer.old (L.left link.old) ≡ stream_of buffer.new (L.left link.new) }
    ensures bound { ¬ (IsRequest result) → room_of most buffer.new ≡ room_of most buffer.old }
    ensures fault { result ≡ Next.ReadFault → Rose (L.faults link.old) (L.faults link.new) }
    ensures later { L.faults link.old ≤ L.faults link.new }
    ensures steady { StaysSteady (L.steady link.old) (L.steady link.new) (L.faults link.old) (L.faults link.new) }
    ensures beside { L.beside link.new ≡ L.beside link.old }
{
    match wait_for_body(link, buffer, most, &summary, end) {
        Some(next) => next,
        None => match take_request(alloc, buffer, summary, end) {
            Ok(wire) => Next::Request(wire),
            Err(_) => Next::NoMemory,
        },
    }
}

/// Reads on until the body is held of the request whose head was read, and ends there: nothing then,
/// and else the answer.
fn wait_for_body<L: Source>(
    link: &mut L,
    buffer: &mut Buffer,
    most: u64,
    summary: &HeadSummary,
    end: usize,
) -> Option<Next>
    requires { IsScanned (take (room_of most buffer.old) buffer.old.pending) (Ok (Scanned.Head summary.now end)) }
    ensures body { IsBody most buffer.old buffer.new (stream_of buffer.old (L.left link.old))
        (stream_of buffer.new (L.left link.new)) summary.now end result }
    ensures no_request { IfSome result (λ next. ¬ (IsRequest next)) }
    ensures held { HoldsMessage most buffer.old → link.new ≡ link.old }
    ensures stream { stream_of buffer.old (L.left link.old) ≡ stream_of buffer.new (L.left link.new) }
    ensures used { buffer.new.used ≡ buffer.old.used }
    ensures fault { result ≡ Some Next.ReadFault → Rose (L.faults link.old) (L.faults link.new) }
    ensures later { L.faults link.old ≤ L.faults link.new }
    ensures steady { StaysSteady (L.steady link.old) (L.steady link.new) (L.faults link.old) (L.faults link.new) }
    ensures beside { L.beside link.new ≡ L.beside link.old }
{
    let room = most.saturating_sub(buffer.used());
    let whole = end as u64 + summary.length;
    'body: loop {
        let held = buffer.pending().len() as u64;
        if whole <= held.min(room) {
            return None;
        }
        if room <= held {
            return Some(Next::LongTalk);
        }
        match buffer.fill(link) {
            Ok(0) => return Some(end_of(buffer.pending())),
            Ok(_) => {}
            Err(FillError::Failed) => return Some(Next::ReadFault),
            Err(FillError::NoMemory) => return Some(Next::NoMemory),
        }
    }
}

/// Takes the request out of the buffer whose head was read, and ends there.
fn take_request(
    alloc: Global,
    buffer: &mut Buffer,
    summary: HeadSummary,
    end: usize,
) -> Result<Wire, NoMemory>
    requires held { end + summary.length ≤ length buffer.old.pending }
    requires fits { buffer.old.used + (end + summary.length) < 2 ^ 64 }
    ensures wire { IfOk result (λ wire. wire ≡ record {
      method = summary.method;
      target = summary.target;
      user_token = summary.user_token;
      project = summary.project;
      coded = summary.coded;
      close = summary.close;
      body = take summary.length (drop end buffer.old.pending);
    }) }
    ensures buffer { OnOk result (buffer.new ≡ record {
      pending = drop (end + summary.length) buffer.old.pending;
      used = buffer.old.used + (end + summary.length);
    }) }
    ensures err { OnErr result (buffer.new ≡ buffer.old) }
{
    let HeadSummary {
        method,
        target,
        user_token,
        project,
        coded,
        close,
        length,
    } = summary;
    let whole = end + length as usize;
    let body = Vec::from_slice(alloc, &buffer.pending()[end..whole])?;
    buffer.advance(whole);
    Ok(Wire {
        method,
        target,
        user_token,
        project,
        coded,
        close,
        body: Bytes::of(body),
    })
}

/// The answer at the end of a stream that ends with these bytes and holds no whole request in them.
fn end_of(bytes: &[u8]) -> Next
    ensures { result ≡ end_answer (skip_breaks bytes.now) }
{
    let rest = without_breaks(bytes);
    if rest.is_empty() {
        Next::End
    } else {
        Next::Truncated(rest.len() as u64)
    }
}

/// The bytes from the first that is no CR or LF.
fn without_breaks(bytes: &[u8]) -> &[u8]
    ensures { result.now ≡ skip_breaks bytes.now }
{
    let mut rest = bytes;
    while let [first, after @ ..] = rest {
        if !is_break(*first) {
            return rest;
        }
        rest = after;
    }
    rest
}
