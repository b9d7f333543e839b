ghost use Rattle.desk.specs.Desks.{IsPass};

use crate::Appends;
use cell_value::{Bytes, Items, NoMemory, Text};
use desk::{
    Ask, Desk, Entry, Keeper, MemoryKeeper, Pass, Reply, SteadyKeeper, Summary, entry_bytes,
};
use std::alloc::Global;
use std::sync::Wait;
use std::test::Fail;

/// A call that appends these bytes, and what it is to be answered.
struct Row {
    body: &'static [u8],
    status: u16,
    said: Option<&'static [u8]>,
    at: u64,
    faults: (u64, u64),
}

fn ask(alloc: Global, user: Option<&str>, coded: bool, body: &[u8]) -> Result<Ask, NoMemory> {
    let user = match user {
        Some(name) => Some(Text::of(String::from_str(alloc, name)?)),
        None => None,
    };
    Ok(Ask {
        user,
        project: Text::of(String::new(alloc)),
        target: Text::of(String::from_str(alloc, "POST /log")?),
        coded,
        body: Bytes::of(Vec::from_slice(alloc, body)?),
    })
}

/// Whether the reply is the row's.
fn is_said(reply: &Reply, row: &Row) -> bool {
    let same = match &reply.body {
        Some(body) => row.said == Some(body.as_slice()),
        None => row.said.is_none(),
    };
    same && reply.status == row.status && reply.at == row.at && reply.faults == row.faults
}

/// Makes the row's call, and tells whether its reply is the row's.
fn turn<K: Keeper, R: Wait>(
    rt: &R,
    alloc: Global,
    desk: &Desk<Appends, K>,
    pass: Pass,
    row: &Row,
) -> (Pass, bool)
    requires { IsPass desk.now pass }
    ensures { IsPass desk.now result.0 }
{
    match ask(alloc, Some("ann"), false, row.body) {
        Ok(ask) => {
            let (pass, reply) = desk.call(rt, pass, &ask);
            (pass, is_said(&reply, row))
        }
        Err(_) => (pass, false),
    }
}

static TURNS: [Row; 8] = [
    Row {
        body: b"1",
        status: 200,
        said: Some(b""),
        at: 0,
        faults: (0, 0),
    },
    Row {
        body: b"2",
        status: 200,
        said: Some(b"1"),
        at: 1,
        faults: (0, 0),
    },
    Row {
        body: b"",
        status: 200,
        said: Some(b"12"),
        at: 2,
        faults: (0, 0),
    },
    Row {
        body: b"3",
        status: 200,
        said: Some(b"12"),
        at: 2,
        faults: (0, 0),
    },
    Row {
        body: b"",
        status: 200,
        said: Some(b"123"),
        at: 3,
        faults: (0, 0),
    },
    Row {
        body: b"4",
        status: 200,
        said: Some(b"123"),
        at: 3,
        faults: (0, 0),
    },
    Row {
        body: b"",
        status: 200,
        said: Some(b"1234"),
        at: 4,
        faults: (0, 0),
    },
    Row {
        body: b"",
        status: 200,
        said: Some(b"1234"),
        at: 4,
        faults: (0, 0),
    },
];

#[test]
fn four_passes_take_turns(rt: HostRuntime) -> Result<(), Fail> {
    let alloc = rt.alloc();
    let keeper = SteadyKeeper::new(Vec::new(alloc));
    let Ok((desk, mut first)) = Desk::<Appends, SteadyKeeper>::open(alloc, keeper, 1000, 4) else {
        panic!(rt; "a desk is opened")
    };
    let Ok(second) = desk.pass(&rt, &mut first) else {
        panic!(rt; "a second pass")
    };
    let Ok(third) = desk.pass(&rt, &mut first) else {
        panic!(rt; "a third pass")
    };
    let Ok(fourth) = desk.pass(&rt, &mut first) else {
        panic!(rt; "a fourth pass")
    };
    let spent = desk.pass(&rt, &mut first).is_err();
    let numbers = (
        first.number(),
        second.number(),
        third.number(),
        fourth.number(),
    );
    let (first, one) = turn(&rt, alloc, &desk, first, &TURNS[0]);
    let (second, two) = turn(&rt, alloc, &desk, second, &TURNS[1]);
    let (third, three) = turn(&rt, alloc, &desk, third, &TURNS[2]);
    let (fourth, four) = turn(&rt, alloc, &desk, fourth, &TURNS[3]);
    let (mut first, five) = turn(&rt, alloc, &desk, first, &TURNS[4]);
    let (second, six) = turn(&rt, alloc, &desk, second, &TURNS[5]);
    let (third, seven) = turn(&rt, alloc, &desk, third, &TURNS[6]);
    let (fourth, eight) = turn(&rt, alloc, &desk, fourth, &TURNS[7]);
    desk.meet(&mut first, second);
    desk.meet(&mut first, third);
    desk.meet(&mut first, fourth);
    let (history, keeper) = desk.close(&rt, first);
    let summary = Summary {
        accepted: 4,
        cells: 4,
        bytes: 140,
    };
    assert!(rt; spent && numbers == (0, 1, 2, 3));
    assert!(rt; one && two && three && four && five && six && seven && eight);
    assert!(rt; history.summary() == summary && keeper.bytes().len() == 140);
    Ok(())
}

/// The second put fails, and so does the third.
static FAILING: [Row; 6] = [
    Row {
        body: b"1",
        status: 200,
        said: Some(b""),
        at: 0,
        faults: (0, 0),
    },
    Row {
        body: b"2",
        status: 503,
        said: Some(
            b"{\"error\":{\"code\":503,\"message\":\"Unavailable\",\"status\":\"UNAVAILABLE\"}}",
        ),
        at: 1,
        faults: (0, 1),
    },
    Row {
        body: b"",
        status: 200,
        said: Some(b"1"),
        at: 1,
        faults: (1, 1),
    },
    Row {
        body: b"3",
        status: 503,
        said: Some(
            b"{\"error\":{\"code\":503,\"message\":\"Unavailable\",\"status\":\"UNAVAILABLE\"}}",
        ),
        at: 1,
        faults: (1, 2),
    },
    Row {
        body: b"2",
        status: 200,
        said: Some(b"1"),
        at: 1,
        faults: (2, 2),
    },
    Row {
        body: b"3",
        status: 429,
        said: Some(
            b"{\"error\":{\"code\":429,\"message\":\"HistoryFull\",\"status\":\"RESOURCE_EXHAUSTED\"}}",
        ),
        at: 2,
        faults: (2, 2),
    },
];

/// The journal of one call, and of two.
static JOURNAL: &[u8] = b"SHEETJ01\
    \0\0\0\0\0\0\0\x03ann\0\0\0\0\0\0\0\x09POST /log\0\0\0\x011\
    \0\0\0\0\0\0\0\x03ann\0\0\0\0\0\0\0\x09POST /log\0\0\0\x012";

/// Makes the rows' calls up to one, and tells whether each reply is its row's, and what is kept then.
fn play<R: Wait>(rt: &R, alloc: Global, count: usize) -> Option<(bool, Summary, MemoryKeeper)> {
    let failing = Vec::from_array(alloc, [(2, Some(5)), (3, None)]).ok()?;
    let keeper = MemoryKeeper::new(Vec::new(alloc), Items::of(failing));
    let (desk, pass) = Desk::<Appends, MemoryKeeper>::open(alloc, keeper, 74, 1).ok()?;
    let (pass, good) = play_rows(rt, alloc, &desk, pass, FAILING.get(..count).unwrap_or(&[]));
    let (history, keeper) = desk.close(rt, pass);
    Some((good, history.summary(), keeper))
}

fn play_rows<R: Wait>(
    rt: &R,
    alloc: Global,
    desk: &Desk<Appends, MemoryKeeper>,
    mut pass: Pass,
    rows: &[Row],
) -> (Pass, bool)
    requires { IsPass desk.now pass }
    ensures { IsPass desk.now result.0 }
{
    let mut good = true;
    for row in rows {
        let (next, same) = turn(rt, alloc, desk, pass, row);
        pass = next;
        good = good && same;
    }
    (pass, good)
}

/// How many calls are made, how many of them are accepted, and how many bytes are kept then.
static KEPT: [(usize, u64, usize); 6] = [
    (1, 1, 41),
    (2, 1, 46),
    (3, 1, 46),
    (4, 1, 46),
    (5, 2, 74),
    (6, 2, 74),
];

#[test]
fn a_failed_put_is_no_call(rt: HostRuntime) -> Result<(), Fail> {
    for &(count, accepted, bytes) in &KEPT {
        let Some((good, summary, keeper)) = play(&rt, rt.alloc(), count) else {
            panic!(rt; "a desk is opened")
        };
        assert!(rt; good && summary.accepted == accepted, "{count}");
        assert!(rt;
            summary.cells == accepted && summary.bytes == 8 + 33 * accepted,
            "{count}"
        );
        assert!(rt; Some(keeper.bytes()) == JOURNAL.get(..bytes), "{count}");
    }
    Ok(())
}

#[test]
fn nobody_and_coded_bodies_are_refused(rt: HostRuntime) -> Result<(), Fail> {
    let alloc = rt.alloc();
    let nobody = ask(alloc, None, false, b"1")?;
    let coded = ask(alloc, Some("ann"), true, b"1")?;
    let keeper = SteadyKeeper::new(Vec::new(alloc));
    let Ok((desk, pass)) = Desk::<Appends, SteadyKeeper>::open(alloc, keeper, 1000, 1) else {
        panic!(rt; "a desk is opened")
    };
    let (pass, first) = desk.call(&rt, pass, &nobody);
    let (pass, second) = desk.call(&rt, pass, &coded);
    let (history, keeper) = desk.close(&rt, pass);
    assert!(rt; first.status == 401 && second.status == 400);
    assert!(rt; history.summary().accepted == 0 && keeper.bytes().is_empty());
    Ok(())
}

#[test]
fn an_entry_has_its_bytes(rt: HostRuntime) -> Result<(), Fail> {
    let alloc = rt.alloc();
    let entry = Entry {
        caller: 258,
        user: Text::of(String::from_str(alloc, "ann")?),
        project: Text::of(String::from_str(alloc, "p")?),
        target: Text::of(String::from_str(alloc, "POST /log")?),
        body: Bytes::of(Vec::from_slice(alloc, b"12")?),
    };
    let wanted = b"\0\0\x01\x02\0\0\0\x03ann\0\0\0\x01p\0\0\0\x09POST /log\0\0\0\x0212";
    assert!(rt; entry_bytes(alloc, &entry)?.as_slice() == wanted.as_slice());
    Ok(())
}
