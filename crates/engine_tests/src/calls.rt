ghost use Rattle.desk.specs.Desks.{IsPass};

use cell_value::{Bytes, Items, NoMemory, Text};
use desk::{Ask, Desk, Keeper, MemoryKeeper, Pass, Reply, SteadyKeeper, Summary};
use sheet_engine::Sheets;
use std::alloc::Global;
use std::sync::Wait;
use std::test::Fail;

/// A call of the owner's, and what it is to be answered.
struct Row {
    line: &'static str,
    body: &'static [u8],
    status: u16,
    said: &'static [u8],
}

fn ask(alloc: Global, row: &Row) -> Result<Ask, NoMemory> {
    Ok(Ask {
        user: Some(Text::of(String::from_str(alloc, "owner")?)),
        project: Text::of(String::new(alloc)),
        target: Text::of(String::from_str(alloc, row.line)?),
        coded: false,
        body: Bytes::of(Vec::from_slice(alloc, row.body)?),
    })
}

/// Whether the reply is the row's.
fn is_said(reply: &Reply, row: &Row) -> bool {
    match &reply.body {
        Some(body) => reply.status == row.status && body.as_slice() == row.said,
        None => false,
    }
}

/// Makes the row's call, and tells whether its reply is the row's.
fn turn<K: Keeper, R: Wait>(
    rt: &R,
    alloc: Global,
    desk: &Desk<Sheets, K>,
    pass: Pass,
    row: &Row,
) -> (Pass, bool)
    requires { IsPass desk.now pass }
    ensures { IsPass desk.now result.0 }
{
    match ask(alloc, row) {
        Ok(ask) => {
            let (pass, reply) = desk.call(rt, pass, &ask);
            (pass, is_said(&reply, row))
        }
        Err(_) => (pass, false),
    }
}

static WRITE: Row = Row {
    line: "PUT /v4/spreadsheets/book1/values/Sheet1%21A1%3AB2?valueInputOption=RAW&alt=json",
    body: b"{\"values\":[[1,\"x\"],[true]]}",
    status: 200,
    said: b"{\"spreadsheetId\":\"book1\",\"updatedCells\":3,\"updatedColumns\":2,\"updatedRange\":\"Sheet1!A1:B2\",\"updatedRows\":2}",
};

static FULL: Row = Row {
    line: "PUT /v4/spreadsheets/book1/values/Sheet1%21A1%3AB2?valueInputOption=RAW&alt=json",
    body: b"{\"values\":[[1,\"x\"],[true]]}",
    status: 429,
    said: b"{\"error\":{\"code\":429,\"message\":\"HistoryFull\",\"status\":\"RESOURCE_EXHAUSTED\"}}",
};

/// The journal of the write.
static JOURNAL: &[u8] = b"SHEETJ01\0\0\0\0\0\0\0\x05owner\0\0\0\0\0\0\0\x50\
PUT /v4/spreadsheets/book1/values/Sheet1%21A1%3AB2?valueInputOption=RAW&alt=json\
\0\0\0\x1b{\"values\":[[1,\"x\"],[true]]}";

#[test]
fn a_write_needs_room_in_the_journal(rt: HostRuntime) -> Result<(), Fail> {
    for (limit, row, kept) in [(139, &FULL, &JOURNAL[..0]), (140, &WRITE, JOURNAL)] {
        let keeper = SteadyKeeper::new(Vec::new(rt.alloc()));
        let Ok((desk, pass)) = Desk::<Sheets, SteadyKeeper>::open(rt.alloc(), keeper, limit, 1)
        else {
            panic!(rt; "a desk is opened")
        };
        let (pass, good) = turn(&rt, rt.alloc(), &desk, pass, row);
        let (_, keeper) = desk.close(&rt, pass);
        assert!(rt; good && keeper.bytes() == kept, "{limit}");
    }
    Ok(())
}

static ONE: Row = Row {
    line: "PUT /v4/spreadsheets/book1/values/A1?valueInputOption=RAW",
    body: b"{\"values\":[[1]]}",
    status: 200,
    said: b"{\"spreadsheetId\":\"book1\",\"updatedCells\":1,\"updatedColumns\":1,\"updatedRange\":\"Sheet1!A1\",\"updatedRows\":1}",
};

static READ: Row = Row {
    line: "GET /v4/spreadsheets/book1/values/A1:A2",
    body: b"",
    status: 200,
    said: b"{\"majorDimension\":\"ROWS\",\"range\":\"Sheet1!A1:A2\",\"values\":[[\"1\"]]}",
};

#[test]
fn what_one_pass_writes_the_other_reads_once_they_met(rt: HostRuntime) -> Result<(), Fail> {
    let alloc = rt.alloc();
    let keeper = SteadyKeeper::new(Vec::new(alloc));
    let Ok((desk, mut first)) = Desk::<Sheets, SteadyKeeper>::open(alloc, keeper, 1000, 2) else {
        panic!(rt; "a desk is opened")
    };
    let Ok(second) = desk.pass(&rt, &mut first) else {
        panic!(rt; "a second pass")
    };
    let (first, written) = turn(&rt, alloc, &desk, first, &ONE);
    let (first, own) = turn(&rt, alloc, &desk, first, &READ);
    let mut second = second;
    desk.meet(&mut second, first);
    let (second, other) = turn(&rt, alloc, &desk, second, &READ);
    let (history, _) = desk.close(&rt, second);
    let Summary {
        accepted,
        cells,
        ..
    } = history.summary();
    assert!(rt; written && own && other && accepted == 1 && cells == 1);
    Ok(())
}

static LOST: Row = Row {
    line: "PUT /v4/spreadsheets/book1/values/A2?valueInputOption=RAW",
    body: b"{\"values\":[[2]]}",
    status: 503,
    said: b"{\"error\":{\"code\":503,\"message\":\"Unavailable\",\"status\":\"UNAVAILABLE\"}}",
};

static TWO: Row = Row {
    line: "PUT /v4/spreadsheets/book1/values/A2?valueInputOption=RAW",
    body: b"{\"values\":[[2]]}",
    status: 200,
    said: b"{\"spreadsheetId\":\"book1\",\"updatedCells\":1,\"updatedColumns\":1,\"updatedRange\":\"Sheet1!A2\",\"updatedRows\":1}",
};

#[test]
fn a_write_that_is_not_kept_is_none(rt: HostRuntime) -> Result<(), Fail> {
    let alloc = rt.alloc();
    let failing = Items::of(Vec::from_array(alloc, [(2, Some(5))])?);
    let keeper = MemoryKeeper::new(Vec::new(alloc), failing);
    let Ok((desk, pass)) = Desk::<Sheets, MemoryKeeper>::open(alloc, keeper, 1000, 1) else {
        panic!(rt; "a desk is opened")
    };
    let (pass, first) = turn(&rt, alloc, &desk, pass, &ONE);
    let (pass, second) = turn(&rt, alloc, &desk, pass, &LOST);
    let (pass, third) = turn(&rt, alloc, &desk, pass, &READ);
    let (pass, fourth) = turn(&rt, alloc, &desk, pass, &TWO);
    let (history, _) = desk.close(&rt, pass);
    assert!(rt; first && second && third && fourth && history.summary().accepted == 2);
    Ok(())
}
