use crate::Appends;
use cell_value::{Bytes, Items, NoMemory, Text};
use desk::{Ask, Desk, JournalFault, MemoryKeeper, OpenFault, SteadyKeeper, Summary, read_journal};
use std::alloc::Global;
use std::sync::Wait;
use std::test::Fail;

/// The journal of one call, and of two.
static JOURNAL: &[u8] = b"SHEETJ01\
    \0\0\0\0\0\0\0\x03ann\0\0\0\0\0\0\0\x09POST /log\0\0\0\x011\
    \0\0\0\0\0\0\0\x03ann\0\0\0\0\0\0\0\x09POST /log\0\0\0\x012";

/// A journal whose second entry has no body, so that its call isn't accepted.
static WITHOUT_BODY: &[u8] = b"SHEETJ01\
    \0\0\0\0\0\0\0\x03ann\0\0\0\0\0\0\0\x09POST /log\0\0\0\x011\
    \0\0\0\0\0\0\0\x03ann\0\0\0\0\0\0\0\x09POST /log\0\0\0\0";

/// A journal whose second entry has a user that isn't UTF-8.
static WITHOUT_TEXT: &[u8] = b"SHEETJ01\
    \0\0\0\0\0\0\0\x03ann\0\0\0\0\0\0\0\x09POST /log\0\0\0\x011\
    \0\0\0\0\0\0\0\x01\xff\0\0\0\0\0\0\0\x09POST /log\0\0\0\x012";

/// The journal of one call of another caller, by nobody for nothing.
static SHORTEST: &[u8] = b"SHEETJ01\xff\xff\xff\xff\0\0\0\0\0\0\0\0\0\0\0\0\0\0\0\x011";

fn append(alloc: Global, body: &[u8]) -> Result<Ask, NoMemory> {
    Ok(Ask {
        user: Some(Text::of(String::from_str(alloc, "ann")?)),
        project: Text::of(String::new(alloc)),
        target: Text::of(String::from_str(alloc, "POST /log")?),
        coded: false,
        body: Bytes::of(Vec::from_slice(alloc, body)?),
    })
}

/// What a journal's history comes to, or why it has none.
fn summary_of(alloc: Global, bytes: &[u8]) -> Result<Summary, JournalFault> {
    let history = read_journal::<Appends>(alloc, bytes)?;
    Ok(history.summary())
}

#[test]
fn a_journal_has_its_entries(rt: HostRuntime) -> Result<(), Fail> {
    for (bytes, accepted, size) in [
        (b"".as_slice(), 0, 8),
        (b"SHE".as_slice(), 0, 8),
        (b"SHEETJ01".as_slice(), 0, 8),
        (b"SHEETJ01\0\0\0\0\0\0\0\x03an".as_slice(), 0, 8),
        (JOURNAL, 2, 74),
        (SHORTEST, 1, 29),
    ] {
        let summary = Summary {
            accepted,
            cells: accepted,
            bytes: size,
        };
        assert!(rt; summary_of(rt.alloc(), bytes) == Ok(summary), "{accepted}");
    }
    Ok(())
}

#[test]
fn bytes_that_are_no_journal_say_where(rt: HostRuntime) -> Result<(), Fail> {
    for (bytes, number) in [
        (b"hello".as_slice(), 0),
        (b"SHEETJ02".as_slice(), 0),
        (b"SHEETX".as_slice(), 0),
        (WITHOUT_BODY, 2),
        (WITHOUT_TEXT, 2),
    ] {
        assert!(rt;
            summary_of(rt.alloc(), bytes) == Err(JournalFault::Bad(number)),
            "{number}"
        );
    }
    Ok(())
}

/// Makes a call whose put fails and leaves so many bytes of its piece. How many entries a desk has that is opened with
/// what is kept then.
fn entries_after<R: Wait>(rt: &R, alloc: Global, left: Option<u64>) -> Option<u64> {
    let failing = Vec::from_array(alloc, [(1, left)]).ok()?;
    let ask = append(alloc, b"1").ok()?;
    let keeper = MemoryKeeper::new(Vec::new(alloc), Items::of(failing));
    let (desk, pass) = Desk::<Appends, MemoryKeeper>::open(alloc, keeper, 1000, 1).ok()?;
    let (pass, reply) = desk.call(rt, pass, &ask);
    let (_, keeper) = desk.close(rt, pass);
    if reply.status != 503 {
        return None;
    }
    let keeper = SteadyKeeper::new(keeper.into_bytes());
    let (desk, pass) = Desk::<Appends, SteadyKeeper>::open(alloc, keeper, 1000, 1).ok()?;
    let (history, _) = desk.close(rt, pass);
    Some(history.summary().accepted)
}

#[test]
fn a_torn_first_call_is_none_after_a_restart(rt: HostRuntime) -> Result<(), Fail> {
    for (left, entries) in [(None, 0), (Some(7), 0), (Some(40), 0), (Some(41), 1)] {
        assert!(rt; entries_after(&rt, rt.alloc(), left) == Some(entries));
    }
    Ok(())
}

#[test]
fn a_call_after_a_restart_takes_the_torn_place(rt: HostRuntime) -> Result<(), Fail> {
    let alloc = rt.alloc();
    let ask = append(alloc, b"2")?;
    let torn = JOURNAL.get(..50).unwrap_or(JOURNAL);
    let keeper = SteadyKeeper::new(Vec::from_slice(alloc, torn)?);
    let Ok((desk, pass)) = Desk::<Appends, SteadyKeeper>::open(alloc, keeper, 1000, 1) else {
        panic!(rt; "a desk is opened")
    };
    let (pass, reply) = desk.call(&rt, pass, &ask);
    let (history, keeper) = desk.close(&rt, pass);
    assert!(rt; reply.status == 200 && reply.at == 1);
    assert!(rt;
        reply
            .body
            .is_some_and(|body| body.as_slice() == b"1".as_slice())
    );
    assert!(rt; history.summary().accepted == 2 && keeper.into_bytes().as_slice() == JOURNAL);
    Ok(())
}

/// Why a desk isn't opened with what a keeper has.
fn fault_of<R: Wait>(rt: &R, alloc: Global, keeper: MemoryKeeper, limit: u64) -> Option<OpenFault> {
    match Desk::<Appends, MemoryKeeper>::open(alloc, keeper, limit.min(1000), 1) {
        Ok((desk, pass)) => {
            let _ = desk.close(rt, pass);
            None
        }
        Err((fault, _)) => Some(fault),
    }
}

#[test]
fn a_desk_is_not_opened_where_its_journal_is_not_read(rt: HostRuntime) -> Result<(), Fail> {
    let alloc = rt.alloc();
    let failing = Items::of(Vec::from_array(alloc, [(0, None)])?);
    let keeper = MemoryKeeper::new(Vec::new(alloc), failing);
    assert!(rt; fault_of(&rt, alloc, keeper, 1000) == Some(OpenFault::KeeperFault));
    for (bytes, limit, fault) in [
        (JOURNAL, 73, Some(OpenFault::JournalLong)),
        (JOURNAL, 74, None),
        (WITHOUT_BODY, 1000, Some(OpenFault::BadJournal(2))),
        (b"hello".as_slice(), 1000, Some(OpenFault::BadJournal(0))),
    ] {
        let keeper = MemoryKeeper::new(Vec::from_slice(alloc, bytes)?, Items::of(Vec::new(alloc)));
        assert!(rt; fault_of(&rt, alloc, keeper, limit) == fault, "{limit}");
    }
    Ok(())
}
