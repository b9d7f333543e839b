use crate::checks::check;
use cell_value::Failed;
use sheets_cli::{Input, Output};
use sheets_http::{Sink, SinkFault, Source};
use std::alloc::Global;
use std::io;

/// A reader that is interrupted twice and then fails, and a writer that is interrupted at first, then
/// takes at most three bytes, and then nothing.
#[derive(Drop)]
struct Slow {
    calls: u64,
}

impl io::Read for Slow {
    fn read(&mut self, _into: &mut [u8]) -> io::Result<usize> {
        self.calls = self.calls.saturating_add(1);
        if self.calls < 3 {
            Err(io::Error::from(io::ErrorKind::Interrupted))
        } else {
            Err(io::Error::from(io::ErrorKind::BrokenPipe))
        }
    }
}

impl io::Write for Slow {
    fn write(&mut self, bytes: &[u8]) -> io::Result<usize> {
        self.calls = self.calls.saturating_add(1);
        match self.calls {
            1 => Err(io::Error::from(io::ErrorKind::Interrupted)),
            2 => Ok(bytes.len().min(3)),
            _ => Ok(0),
        }
    }

    fn flush(&mut self) -> io::Result<()> {
        Ok(())
    }
}

#[test]
fn reads_and_writes_of_the_system(rt: HostRuntime) {
    check(&rt, &"read", is_read());
    check(&rt, &"failed read", is_failed_read());
    check(&rt, &"written", is_written());
    check(&rt, &"faults", are_written(rt.alloc()));
}

/// Whether bytes are read to their end.
fn is_read() -> bool {
    let mut buffer = [0; 4];
    let mut input = Input::new(b"GET".as_slice());
    input.read(&mut buffer) == Ok(3)
        && buffer.starts_with(b"GET")
        && input.read(&mut buffer) == Ok(0)
}

fn is_failed_read() -> bool {
    let mut buffer = [0; 4];
    let mut failing = Input::new(Slow { calls: 0 });
    failing.read(&mut buffer) == Err(Failed)
}

/// Whether some of the bytes are written, then none of none, and then that the writer takes none is a fault.
fn is_written() -> bool {
    let mut output = Output::<Slow, Vec<u8>>::output(Slow { calls: 0 });
    output.write(b"HTTP") == Ok(3)
        && output.write(b"") == Ok(0)
        && output.write(b"P") == Err(SinkFault::Failed)
}

fn are_written(alloc: Global) -> bool {
    let mut faults = Output::<Slow, Vec<u8>>::faults(Vec::new(alloc));
    faults.write(b"usage\n") == Ok(6)
}
