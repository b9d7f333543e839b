ghost use Rattle.std.specs.Prelude.{◌≡◌};
ghost use Rattle.std.specs.Io.{ReadsAtMost, WritesAtMost};
ghost use Rattle.sheets_cli.specs.Standard.{input_faults, output_faults};

use cell_value::Failed;
use sheets_http::{Sink, SinkFault, Source};
use std::io;
use std::io::{Error, ErrorKind, Read, Write};

/// A reader of the system as a source. It tells nothing of what it holds; contracts see its count of
/// faults.
#[derive(Drop)]
pub struct Input<R> {
    reader: R,
    faults: u64,
}

impl<R> Input<R> {
    /// The reader, which hasn't failed yet.
    pub fn new(reader: R) -> Input<R>
        ensures { input_faults result ≡ 0 }
    {
        Input { reader, faults: 0 }
    }

    /// How often it has failed.
    pub(crate) fn faults(&self) -> u64
        ensures { result ≡ input_faults self.now }
    {
        self.faults
    }
}

impl<R: Read> Source for Input<R> {
    ghost use Rattle.std.specs.Prelude.{None, false};
    ghost use Rattle.sheets_http.specs.Outside.{no_side};
    ghost use Rattle.std.proofs.Common.{rules};

    ghost steady_low = { Prim.search rules };

    ghost left = { λ _. None };

    ghost faults = { λ input. input_faults input };

    ghost steady = { λ _. false };

    ghost beside = { λ _. no_side };

    /// A read that was interrupted is made again.
    fn read(&mut self, into: &mut [u8]) -> Result<usize, Failed> {
        match read_again(&mut self.reader, into) {
            Ok(count) => Ok(count),
            Err(_) => {
                self.faults = self.faults.saturating_add(1);
                Err(Failed)
            }
        }
    }
}

/// Reads, and again where that was interrupted.
pub(crate) fn read_again<R: Read>(reader: &mut R, into: &mut [u8]) -> io::Result<usize>
    ensures { ReadsAtMost result into.new }
{
    for _ in 0..u64::MAX {
        match reader.read(into) {
            Err(error) if error.kind() == ErrorKind::Interrupted => {}
            answer => return answer,
        }
    }
    Err(Error::from(ErrorKind::Interrupted))
}

/// A writer of the system as a sink: the one for the output or the one for faults. It tells nothing
/// of what it holds; contracts see its count of faults.
#[derive(Drop)]
pub struct Output<A, B> {
    writer: Standard<A, B>,
    faults: u64,
}

#[derive(Drop)]
enum Standard<A, B> {
    Output(A),
    Faults(B),
}

impl<A, B> Output<A, B> {
    /// The writer of the output, which hasn't failed yet.
    pub fn output(writer: A) -> Output<A, B>
        ensures { output_faults result ≡ 0 }
    {
        let writer = Standard::Output(writer);
        Output { writer, faults: 0 }
    }

    /// The writer for faults, which hasn't failed yet.
    pub fn faults(writer: B) -> Output<A, B>
        ensures { output_faults result ≡ 0 }
    {
        let writer = Standard::Faults(writer);
        Output { writer, faults: 0 }
    }
}

impl<A: Write, B: Write> Sink for Output<A, B> {
    ghost use Rattle.std.specs.Prelude.{None, false};
    ghost use Rattle.sheets_http.specs.Outside.{no_side};
    ghost use Rattle.std.proofs.Common.{rules};

    ghost sink_steady_low = { Prim.search rules };

    ghost written = { λ _. None };

    ghost sink_faults = { λ output. output_faults output };

    ghost sink_shortages = { λ _. 0 };

    ghost sink_steady = { λ _. false };

    ghost sink_beside = { λ _. no_side };

    /// A write that was interrupted is made again; a write of nothing of a piece that isn't empty is a
    /// fault.
    fn write(&mut self, bytes: &[u8]) -> Result<usize, SinkFault> {
        let answer = match &mut self.writer {
            Standard::Output(writer) => write_again(writer, bytes),
            Standard::Faults(writer) => write_again(writer, bytes),
        };
        match answer {
            Ok(count) if count > 0 || bytes.is_empty() => Ok(count),
            _ => {
                self.faults = self.faults.saturating_add(1);
                Err(SinkFault::Failed)
            }
        }
    }
}

/// Writes, and again where that was interrupted.
pub(crate) fn write_again<W: Write>(writer: &mut W, bytes: &[u8]) -> io::Result<usize>
    ensures { WritesAtMost result bytes.now }
{
    for _ in 0..u64::MAX {
        match writer.write(bytes) {
            Err(error) if error.kind() == ErrorKind::Interrupted => {}
            answer => return answer,
        }
    }
    Err(Error::from(ErrorKind::Interrupted))
}
