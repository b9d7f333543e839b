ghost use Rattle.std.specs.Prelude.{◌≡◌, ℕ, ◌<◌, ◌≤◌, List, [], ◌∷◌, Option, Bool, length, IfOk, IsTrue, OnErr};
ghost use Rattle.std.specs.Borrow.{GName};
ghost use Rattle.cell_value.specs.FaultCount.{last_count, Rose, StaysSteady};
ghost use Rattle.sheets_http.specs.Outside.{Side, Gives, EndsThere, Takes};

use cell_value::Failed;
use std::error::Error;
use std::fmt;

/// Why a write failed.
#[derive(Clone, Copy, Debug, PartialEq, Eq)]
pub enum SinkFault {
    /// The device failed; its count of faults rose.
    Failed,
    /// Memory ran out; the count of shortages rose, and nothing of the piece was written.
    NoMemory,
}

impl fmt::Display for SinkFault {
    ghost use Rattle.std.specs.Prelude.{Some};
    ghost use Rattle.sheets_http.specs.Faults.{sink_fault_text};

    ghost output = { λ fault. Some (sink_fault_text fault) };

    fn fmt<W: fmt::Write>(&self, f: &mut fmt::Formatter<W>) -> fmt::Result {
        f.write_str(match self {
            SinkFault::Failed => "failed",
            SinkFault::NoMemory => "no memory",
        })
    }
}

impl Error for SinkFault {}

/// What bytes are read from: an input, a connection, a file, or bytes in memory.
pub trait Source {
    /// What is left to be read, where the source tells it.
    ghost left: { Self → Option (List ℕ) };

    /// How often the source has failed.
    ghost faults: { Self → ℕ };

    /// Whether the source never fails.
    ghost steady: { Self → Bool };

    /// What a read leaves as it is: the side that is written, where there is one.
    ghost beside: { Self → Side };

    /// Reads bytes into the first places of `into`, and answers how many. An answer 0 for a buffer with
    /// room is the end.
    ///
    /// # Errors
    ///
    /// [`Failed`] only where the count of faults rose in this call; nothing was taken then.
    fn read(&mut self, into: &mut [u8]) -> Result<usize, Failed>
        ensures bound { IfOk result (λ count. count ≤ length into.new) }
        ensures bytes { Gives (left self.old) (left self.new) into.new result }
        ensures end { EndsThere (left self.old) into.new result }
        ensures cause { OnErr result (Rose (faults self.old) (faults self.new)) }
        ensures later { faults self.old ≤ faults self.new }
        ensures steady { StaysSteady (steady self.old) (steady self.new) (faults self.old) (faults self.new) }
        ensures beside { beside self.new ≡ beside self.old };

    /// The count of a steady source isn't at its last value, where it would count as risen.
    ghost steady_low: { (source : Self) → IsTrue (steady source) → faults source < last_count };
}

/// What bytes are written to: an output, a connection, or bytes in memory.
pub trait Sink {
    /// What was written so far, where the sink tells it.
    ghost written: { Self → Option (List ℕ) };

    /// How often the sink has failed.
    ghost sink_faults: { Self → ℕ };

    /// How often a write found no memory.
    ghost sink_shortages: { Self → ℕ };

    /// Whether the sink never fails.
    ghost sink_steady: { Self → Bool };

    /// What a write leaves as it is: the side that is read, where there is one.
    ghost sink_beside: { Self → Side };

    /// Writes the first bytes of the piece, and answers how many. An answer 0 for a piece
    /// that isn't empty counts as a fault.
    ///
    /// # Errors
    ///
    /// [`SinkFault::Failed`] only where the count of faults rose in this call; some of the piece
    /// may be written then. [`SinkFault::NoMemory`] only where the count of shortages rose in this
    /// call; nothing of the piece was written then.
    fn write(&mut self, bytes: &[u8]) -> Result<usize, SinkFault>
        ensures bound { IfOk result (λ count. count ≤ length bytes.now) }
        ensures bytes { Takes (written self.old) (written self.new) bytes.now result }
        ensures cause { result ≡ Err SinkFault.Failed → Rose (sink_faults self.old) (sink_faults self.new) }
        ensures stuck { result ≡ Ok 0 → 0 < length bytes.now → Rose (sink_faults self.old) (sink_faults self.new) }
        ensures later { sink_faults self.old ≤ sink_faults self.new }
        ensures short { result ≡ Err SinkFault.NoMemory → Rose (sink_shortages self.old) (sink_shortages self.new) }
        ensures short_later { sink_shortages self.old ≤ sink_shortages self.new }
        ensures steady { StaysSteady (sink_steady self.old) (sink_steady self.new) (sink_faults self.old)
            (sink_faults self.new) }
        ensures beside { sink_beside self.new ≡ sink_beside self.old };

    /// The count of a steady sink isn't at its last value, where it would count as risen.
    ghost sink_steady_low: { (sink : Self) → IsTrue (sink_steady sink) → sink_faults sink < last_count };
}

/// What is read and written, as a connection. A read leaves what was written and both counts as
/// sink; a write leaves what is left and the count of faults as source.
pub trait Duplex: Source + Sink {
    /// The references that the link is made of.
    ghost references: { Self → List GName };

    /// What a read leaves is the side that is written.
    ghost reads_beside: { (link : Self) → Self.beside link ≡ record {
      bytes = Self.written link;
      faults = Self.sink_faults link;
      shortages = Self.sink_shortages link;
      steady = Self.sink_steady link;
      references = references link;
    } };

    /// What a write leaves is the side that is read.
    ghost writes_beside: { (link : Self) → Self.sink_beside link ≡ record {
      bytes = Self.left link;
      faults = Self.faults link;
      shortages = 0;
      steady = Self.steady link;
      references = references link;
    } };
}

/// One link made of a source and a sink.
#[derive(Drop)]
pub struct Link<'a, I, O> {
    /// What is read.
    pub input: &'a mut I,
    /// What is written.
    pub output: &'a mut O,
}

impl<I: Source, O: Sink> Source for Link<'_, I, O> {
    ghost steady_low = { λ link. I.steady_low link.input.now };

    ghost left = { λ link. I.left link.input.now };

    ghost faults = { λ link. I.faults link.input.now };

    ghost steady = { λ link. I.steady link.input.now };

    ghost beside = { λ link. record {
      bytes = O.written link.output.now;
      faults = O.sink_faults link.output.now;
      shortages = O.sink_shortages link.output.now;
      steady = O.sink_steady link.output.now;
      references = link.input.ghost_name ∷ link.output.ghost_name ∷ [];
    } };

    fn read(&mut self, into: &mut [u8]) -> Result<usize, Failed> {
        self.input.read(into)
    }
}

impl<I: Source, O: Sink> Sink for Link<'_, I, O> {
    ghost sink_steady_low = { λ link. O.sink_steady_low link.output.now };

    ghost written = { λ link. O.written link.output.now };

    ghost sink_faults = { λ link. O.sink_faults link.output.now };

    ghost sink_shortages = { λ link. O.sink_shortages link.output.now };

    ghost sink_steady = { λ link. O.sink_steady link.output.now };

    ghost sink_beside = { λ link. record {
      bytes = I.left link.input.now;
      faults = I.faults link.input.now;
      shortages = 0;
      steady = I.steady link.input.now;
      references = link.input.ghost_name ∷ link.output.ghost_name ∷ [];
    } };

    fn write(&mut self, bytes: &[u8]) -> Result<usize, SinkFault> {
        self.output.write(bytes)
    }
}

impl<I: Source, O: Sink> Duplex for Link<'_, I, O> {
    ghost use Rattle.std.specs.Prelude.{refl};

    ghost references = { λ link. link.input.ghost_name ∷ link.output.ghost_name ∷ [] };

    ghost reads_beside = { λ link. refl };

    ghost writes_beside = { λ link. refl };
}
