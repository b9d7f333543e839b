use crate::{Piece, TurnDoors, TurnLink};
use conversation::Ended;
use desk::{Desk, SteadyKeeper};
use desk_tests::Appends;
use serving::{Served, serve_all};
use sheets_http::Users;
use std::sync::Arc;
use std::sync::atomic::AtomicU64;
use std::test::Fail;

/// The first gives its head, and waits for the second one's first response; then its body, and waits for the second
/// one's second response.
static FIRST: [Piece; 3] = [
    Piece {
        after: 0,
        bytes: b"POST /log HTTP/1.1\r\nHost: localhost\r\nAuthorization: Bearer ann\r\nContent-Length: 1\r\n\r\n",
    },
    Piece {
        after: 1,
        bytes: b"a",
    },
    Piece {
        after: 2,
        bytes: b"GET /log HTTP/1.1\r\nHost: localhost\r\nAuthorization: Bearer ann\r\n\r\n",
    },
];

/// The second waits, before its second request, for the first one's first response.
static SECOND: [Piece; 2] = [
    Piece {
        after: 0,
        bytes: b"POST /log HTTP/1.1\r\nHost: localhost\r\nAuthorization: Bearer bob\r\nContent-Length: 1\r\n\r\nb",
    },
    Piece {
        after: 1,
        bytes: b"POST /log HTTP/1.1\r\nHost: localhost\r\nAuthorization: Bearer bob\r\nContent-Length: 1\r\n\r\nc",
    },
];

/// What the first was answered: what was appended before each of its requests.
static FIRST_SAID: &[u8] = b"\
HTTP/1.1 200 OK\r\nContent-Type: application/json; charset=UTF-8\r\nContent-Length: 1\r\n\r\nb\
HTTP/1.1 200 OK\r\nContent-Type: application/json; charset=UTF-8\r\nContent-Length: 3\r\n\r\nbac";

/// What the second was answered.
static SECOND_SAID: &[u8] = b"\
HTTP/1.1 200 OK\r\nContent-Type: application/json; charset=UTF-8\r\nContent-Length: 0\r\n\r\n\
HTTP/1.1 200 OK\r\nContent-Type: application/json; charset=UTF-8\r\nContent-Length: 2\r\n\r\nba";

/// The head of a request that appends one byte.
const HEAD: &[u8] =
    b"POST /log HTTP/1.1\r\nHost: localhost\r\nAuthorization: Bearer ann\r\nContent-Length: 1\r\n\r\n";

/// A connection that appends a letter twice: once the one that it waits for was answered so often, and once more.
fn twice(letter: &'static [u8], after: u64) -> [Piece; 4] {
    let again = after.saturating_add(1);
    [
        Piece { after, bytes: HEAD },
        Piece {
            after,
            bytes: letter,
        },
        Piece {
            after: again,
            bytes: HEAD,
        },
        Piece {
            after: again,
            bytes: letter,
        },
    ]
}

/// What four such connections are answered, in a ring of turns: what was appended before each of their requests.
static RING_SAID: [&[u8]; 4] = [
    b"\
HTTP/1.1 200 OK\r\nContent-Type: application/json; charset=UTF-8\r\nContent-Length: 0\r\n\r\n\
HTTP/1.1 200 OK\r\nContent-Type: application/json; charset=UTF-8\r\nContent-Length: 4\r\n\r\nabcd",
    b"\
HTTP/1.1 200 OK\r\nContent-Type: application/json; charset=UTF-8\r\nContent-Length: 1\r\n\r\na\
HTTP/1.1 200 OK\r\nContent-Type: application/json; charset=UTF-8\r\nContent-Length: 5\r\n\r\nabcda",
    b"\
HTTP/1.1 200 OK\r\nContent-Type: application/json; charset=UTF-8\r\nContent-Length: 2\r\n\r\nab\
HTTP/1.1 200 OK\r\nContent-Type: application/json; charset=UTF-8\r\nContent-Length: 6\r\n\r\nabcdab",
    b"\
HTTP/1.1 200 OK\r\nContent-Type: application/json; charset=UTF-8\r\nContent-Length: 3\r\n\r\nabc\
HTTP/1.1 200 OK\r\nContent-Type: application/json; charset=UTF-8\r\nContent-Length: 7\r\n\r\nabcdabc",
];

/// A request that waits for nothing.
static ASKS: [Piece; 1] = [Piece {
    after: 0,
    bytes: b"GET /log HTTP/1.1\r\nHost: localhost\r\nAuthorization: Bearer ann\r\n\r\n",
}];

/// What it is answered where nothing was appended.
static ASKED: &[u8] =
    b"HTTP/1.1 200 OK\r\nContent-Type: application/json; charset=UTF-8\r\nContent-Length: 0\r\n\r\n";

#[test]
fn two_connections_are_served_beside_one_another(rt: HostRuntime) -> Result<(), Fail> {
    let alloc = rt.alloc();
    let mut doors = TurnDoors::of_two(alloc, &FIRST, &SECOND)?;
    let users = Users::anyone();
    let keeper = SteadyKeeper::new(Vec::new(alloc));
    let Ok((desk, pass)) = Desk::<Appends, SteadyKeeper>::open(alloc, keeper, 1000, 3) else {
        panic!(rt; "there is memory for a desk")
    };
    let (served, history, _) = serve_all(&rt, alloc, &mut doors, desk, pass, &users, 2);
    assert!(rt; served == Served::All);
    assert!(rt; history.summary().accepted == 3);
    assert!(rt; doors.is_back(0, Ended::End, FIRST_SAID));
    assert!(rt; doors.is_back(1, Ended::End, SECOND_SAID));
    Ok(())
}

#[test]
fn four_connections_take_turns(rt: HostRuntime) -> Result<(), Fail> {
    let alloc = rt.alloc();
    let first = Arc::new(alloc, AtomicU64::new(0))?;
    let second = Arc::new(alloc, AtomicU64::new(0))?;
    let third = Arc::new(alloc, AtomicU64::new(0))?;
    let fourth = Arc::new(alloc, AtomicU64::new(0))?;
    let mut coming = Vec::new(alloc);
    coming.push(TurnLink::new(alloc, &twice(b"d", 1), &fourth, &third)?)?;
    coming.push(TurnLink::new(alloc, &twice(b"c", 1), &third, &second)?)?;
    coming.push(TurnLink::new(alloc, &twice(b"b", 1), &second, &first)?)?;
    coming.push(TurnLink::new(alloc, &twice(b"a", 0), &first, &fourth)?)?;
    let mut doors = TurnDoors::new(coming, Vec::new(alloc));
    let users = Users::anyone();
    let keeper = SteadyKeeper::new(Vec::new(alloc));
    let Ok((desk, pass)) = Desk::<Appends, SteadyKeeper>::open(alloc, keeper, 1000, 5) else {
        panic!(rt; "there is memory for a desk")
    };
    let (served, history, _) = serve_all(&rt, alloc, &mut doors, desk, pass, &users, 4);
    assert!(rt; served == Served::All);
    assert!(rt; history.summary().accepted == 8);
    assert!(rt; doors.is_back(0, Ended::End, RING_SAID[0]));
    assert!(rt; doors.is_back(1, Ended::End, RING_SAID[1]));
    assert!(rt; doors.is_back(2, Ended::End, RING_SAID[2]));
    assert!(rt; doors.is_back(3, Ended::End, RING_SAID[3]));
    Ok(())
}

#[test]
fn a_connection_without_a_pass_is_served_in_turn(rt: HostRuntime) -> Result<(), Fail> {
    let alloc = rt.alloc();
    let mut doors = TurnDoors::of_many(alloc, 3, &ASKS)?;
    let users = Users::anyone();
    let keeper = SteadyKeeper::new(Vec::new(alloc));
    let Ok((desk, pass)) = Desk::<Appends, SteadyKeeper>::open(alloc, keeper, 1000, 2) else {
        panic!(rt; "there is memory for a desk")
    };
    let (served, history, _) = serve_all(&rt, alloc, &mut doors, desk, pass, &users, 3);
    assert!(rt; served == Served::All);
    assert!(rt; history.summary().accepted == 0);
    assert!(rt; doors.back().len() == 3);
    for number in 0..3 {
        assert!(rt; doors.is_back(number, Ended::End, ASKED));
    }
    Ok(())
}

#[test]
fn the_doors_fail_behind_the_last_connection(rt: HostRuntime) -> Result<(), Fail> {
    let alloc = rt.alloc();
    let mut doors = TurnDoors::of_many(alloc, 40, &ASKS)?;
    let users = Users::anyone();
    let keeper = SteadyKeeper::new(Vec::new(alloc));
    let Ok((desk, pass)) = Desk::<Appends, SteadyKeeper>::open(alloc, keeper, 1000, 50) else {
        panic!(rt; "there is memory for a desk")
    };
    let (served, history, _) = serve_all(&rt, alloc, &mut doors, desk, pass, &users, 41);
    assert!(rt; served == Served::DoorFault);
    assert!(rt; history.summary().accepted == 0);
    assert!(rt; doors.back().len() == 40);
    for number in 0..40 {
        assert!(rt; doors.is_back(number, Ended::End, ASKED));
    }
    Ok(())
}
