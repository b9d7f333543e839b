ghost use Rattle.std.specs.Prelude.{◌≡◌};
ghost use Rattle.sheets_cli.specs.Tcp.{door_faults, tcp_read_faults, tcp_write_faults};

use crate::standard::{read_again, write_again};
use cell_value::Failed;
use connections::Doors;
use conversation::Ended;
use sheets_http::{Duplex, Sink, SinkFault, Source};
use std::io::{Error, ErrorKind};
use std::net::{Ipv4Addr, Net, Shutdown, SocketAddr, TcpListener, TcpStream};
use std::time::{Clock, Duration};
use std::{io, thread};

/// The errors of Linux that tell that there is no room for another connection: ENOMEM, ENFILE, EMFILE and ENOBUFS.
const NO_ROOM: [i32; 4] = [12, 23, 24, 105];

/// The errors of Linux by which an `accept` tells of a connection that failed before it was accepted, where they are of
/// no kind that says so (accept(2)): ENONET, EPROTO, ENOPROTOOPT, EOPNOTSUPP and EHOSTDOWN.
const GIVEN_UP: [i32; 5] = [64, 71, 92, 95, 112];

/// How many milliseconds `accept` waits for room before it looks again.
const PAUSE: u64 = 10;

/// How many seconds the end of a connection waits for bytes that its client still sends.
const PATIENCE: u64 = 1;

/// How often at most the end of a connection reads such bytes.
const LAST_READS: u32 = 1_024;

/// A listener on a port of 127.0.0.1 as doors. They tell nothing of what they hold; contracts see their count of
/// faults.
#[derive(Drop)]
pub struct TcpDoors<'a, R> {
    rt: &'a R,
    listener: Option<TcpListener>,
    faults: u64,
}

impl<'a, R> TcpDoors<'a, R> {
    /// Doors that aren't open and haven't failed yet.
    pub fn new(rt: &'a R) -> TcpDoors<'a, R>
        ensures { door_faults result ≡ 0 }
    {
        TcpDoors {
            rt,
            listener: None,
            faults: 0,
        }
    }
}

impl<R: Net<Listener = TcpListener, Stream = TcpStream> + Clock> Doors for TcpDoors<'_, R> {
    ghost use Rattle.std.specs.Prelude.{None, false};
    ghost use Rattle.std.proofs.Common.{rules};
    ghost use Rattle.sheets_cli.specs.Tcp.{door_faults, told_by_faults};

    type Link = TcpLink;

    type Rest = TcpFaults;

    ghost failures = { λ doors. door_faults doors };

    ghost steady = { λ _. false };

    ghost steady_low = { Prim.search rules };

    ghost shown = { λ _. None };

    ghost rest_seen = { told_by_faults };

    fn open(&mut self, port: u16) -> Result<(), Failed> {
        match TcpListener::bind(self.rt, SocketAddr::from((Ipv4Addr::LOCALHOST, port))) {
            Ok(listener) => {
                self.listener = Some(listener);
                Ok(())
            }
            Err(_) => {
                self.faults = self.faults.saturating_add(1);
                Err(Failed)
            }
        }
    }

    /// The doors have failed where they aren't open. A client that gave its connection up before it was accepted is
    /// passed over. Where there is no room for another connection, it waits until there is.
    fn accept(&mut self) -> Result<TcpLink, Failed> {
        match next_stream(self.rt, &self.listener) {
            Ok(stream) => Ok(TcpLink::new(stream)),
            Err(_) => {
                self.faults = self.faults.saturating_add(1);
                Err(Failed)
            }
        }
    }

    /// Its client is told that nothing follows. What it still sends is read and dropped, for as long as it goes on
    /// without a pause of a second: a socket that is closed while bytes wait there takes back a response that is on its
    /// way (RFC 9112, section 9.6).
    fn close(link: TcpLink) -> TcpFaults {
        let TcpLink { mut stream, faults } = link;
        let _ = finish(&mut stream);
        faults
    }

    fn back(&mut self, _number: u32, _ended: Ended, _rest: TcpFaults) {}
}

/// The next connection of an open listener.
fn next_stream<R: Clock>(rt: &R, listener: &Option<TcpListener>) -> io::Result<TcpStream> {
    let Some(listener) = listener else {
        return Err(Error::from(ErrorKind::NotConnected));
    };
    for _ in 0..u64::MAX {
        match listener.accept() {
            Ok((stream, _)) => return Ok(stream),
            Err(error) if lacks_room(&error) => thread::sleep(rt, Duration::from_millis(PAUSE)),
            Err(error) if is_given_up(&error) => {}
            Err(error) => return Err(error),
        }
    }
    Err(Error::from(ErrorKind::Interrupted))
}

/// Whether the system has no room for another connection.
fn lacks_room(error: &Error) -> bool {
    has_code(error, &NO_ROOM)
}

/// Whether the error is one of the system's with one of these codes.
fn has_code(error: &Error, codes: &[i32]) -> bool {
    error
        .raw_os_error()
        .is_some_and(|code| codes.contains(&code))
}

/// Whether an `accept` tells so of a connection that failed before it was accepted.
fn is_given_up(error: &Error) -> bool {
    let has_kind = matches!(
        error.kind(),
        ErrorKind::ConnectionAborted
            | ErrorKind::ConnectionReset
            | ErrorKind::NetworkDown
            | ErrorKind::NetworkUnreachable
            | ErrorKind::HostUnreachable
            | ErrorKind::Interrupted
    );
    has_kind || has_code(error, &GIVEN_UP)
}

/// Ends what is written to a stream, and drops what is still read from it.
fn finish(stream: &mut TcpStream) -> io::Result<()> {
    stream.shutdown(Shutdown::Write)?;
    stream.set_read_timeout(Some(Duration::from_secs(PATIENCE)))?;
    let mut dropped = [0; 8192];
    for _ in 0..LAST_READS {
        if read_again(stream, &mut dropped)? == 0 {
            break;
        }
    }
    Ok(())
}

/// A connection over TCP as a link. It tells nothing of what it holds; contracts see its counts of faults.
#[derive(Drop)]
pub struct TcpLink {
    stream: TcpStream,
    faults: TcpFaults,
}

/// How often a connection's reads and writes have failed.
#[derive(Clone, Copy, Debug, PartialEq, Eq)]
pub struct TcpFaults {
    reads: u64,
    writes: u64,
}

impl TcpLink {
    // What is written goes out at once. A stream that can't be told so is served all the same.
    fn new(stream: TcpStream) -> TcpLink
        ensures reads { tcp_read_faults result ≡ 0 }
        ensures writes { tcp_write_faults result ≡ 0 }
    {
        let _ = stream.set_nodelay(true);
        let faults = TcpFaults {
            reads: 0,
            writes: 0,
        };
        TcpLink { stream, faults }
    }
}

impl Source for TcpLink {
    ghost use Rattle.std.specs.Prelude.{None, false, []};
    ghost use Rattle.std.proofs.Common.{rules};
    ghost use Rattle.sheets_cli.specs.Tcp.{tcp_read_faults, tcp_write_faults};

    ghost steady_low = { Prim.search rules };

    ghost left = { λ _. None };

    ghost faults = { λ link. tcp_read_faults link };

    ghost steady = { λ _. false };

    ghost beside = { λ link. record {
      bytes = None;
      faults = tcp_write_faults link;
      shortages = 0;
      steady = false;
      references = [];
    } };

    /// A read that was interrupted is made again.
    fn read(&mut self, into: &mut [u8]) -> Result<usize, Failed> {
        match read_again(&mut self.stream, into) {
            Ok(count) => Ok(count),
            Err(_) => {
                self.faults.reads = self.faults.reads.saturating_add(1);
                Err(Failed)
            }
        }
    }
}

impl Sink for TcpLink {
    ghost use Rattle.std.specs.Prelude.{None, false, []};
    ghost use Rattle.std.proofs.Common.{rules};
    ghost use Rattle.sheets_cli.specs.Tcp.{tcp_read_faults, tcp_write_faults};

    ghost sink_steady_low = { Prim.search rules };

    ghost written = { λ _. None };

    ghost sink_faults = { λ link. tcp_write_faults link };

    ghost sink_shortages = { λ _. 0 };

    ghost sink_steady = { λ _. false };

    ghost sink_beside = { λ link. record {
      bytes = None;
      faults = tcp_read_faults link;
      shortages = 0;
      steady = false;
      references = [];
    } };

    /// The whole piece is passed on in one write. One that was interrupted is made again; a write of nothing of a piece
    /// that isn't empty is a fault.
    fn write(&mut self, bytes: &[u8]) -> Result<usize, SinkFault> {
        match write_again(&mut self.stream, bytes) {
            Ok(count) if count > 0 || bytes.is_empty() => Ok(count),
            _ => {
                self.faults.writes = self.faults.writes.saturating_add(1);
                Err(SinkFault::Failed)
            }
        }
    }
}

impl Duplex for TcpLink {
    ghost use Rattle.std.specs.Prelude.{refl, []};

    ghost references = { λ _. [] };

    ghost reads_beside = { λ link. refl };

    ghost writes_beside = { λ link. refl };
}
