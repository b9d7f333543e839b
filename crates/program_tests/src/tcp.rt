use crate::checks::check;
use cell_value::Failed;
use connections::Doors;
use sheets_cli::TcpDoors;
use sheets_http::{Sink, Source};
use std::io;
use std::io::{Read, Write};
use std::net::{Ipv4Addr, Net, Shutdown, SocketAddr, TcpListener, TcpStream};
use std::time::Clock;

#[test]
fn doors_over_tcp(rt: HostRuntime) -> io::Result<()> {
    check(&rt, &"refused", are_refused(&rt)?);
    check(&rt, &"exchanged", is_exchanged(&rt)?);
    Ok(())
}

/// A port of this machine on which nothing listens.
fn free_port<R: Net<Listener = TcpListener, Stream = TcpStream>>(rt: &R) -> io::Result<SocketAddr> {
    TcpListener::bind(rt, SocketAddr::from((Ipv4Addr::LOCALHOST, 0)))?.local_addr()
}

/// Whether doors fail that aren't open, and those on a port that is taken.
fn are_refused<R: Net<Listener = TcpListener, Stream = TcpStream> + Clock>(
    rt: &R,
) -> io::Result<bool> {
    let address = free_port(rt)?;
    let mut first = TcpDoors::new(rt);
    let mut second = TcpDoors::new(rt);
    let closed = first.accept().is_err();
    let opened = first.open(address.port()).is_ok();
    Ok(closed && opened && second.open(address.port()) == Err(Failed))
}

/// Whether what a client sends is read from its link, what the link writes comes to the client, and nothing behind it.
fn is_exchanged<R: Net<Listener = TcpListener, Stream = TcpStream> + Clock>(
    rt: &R,
) -> io::Result<bool> {
    let address = free_port(rt)?;
    let mut doors = TcpDoors::new(rt);
    if doors.open(address.port()).is_err() {
        return Ok(false);
    }
    let mut client = TcpStream::connect(rt, address)?;
    client.write_all(b"GET")?;
    client.shutdown(Shutdown::Write)?;
    let Ok(mut link) = doors.accept() else {
        return Ok(false);
    };
    let mut bytes = [0; 8];
    let read = link.read(&mut bytes) == Ok(3) && bytes.starts_with(b"GET");
    let ended = link.read(&mut bytes) == Ok(0);
    let written = link.write(b"HTTP") == Ok(4);
    let _ = TcpDoors::<R>::close(link);
    let count = client.read(&mut bytes)?;
    let answered = count == 4 && bytes.starts_with(b"HTTP");
    Ok(read && ended && written && answered && client.read(&mut bytes)? == 0)
}
