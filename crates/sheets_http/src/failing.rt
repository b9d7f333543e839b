ghost use Rattle.std.specs.Prelude.{◌≡◌, ◌<◌, ◌≤◌, ◌↔◌, true, [], length, is_err, OnErr, IfOk};
ghost use Rattle.cell_value.specs.Calls.{no_calls, fails_next, after_call};
ghost use Rattle.cell_value.specs.FaultCount.{Rose, StaysSteady};
ghost use Rattle.sheets_http.specs.Outside.{Gives, EndsThere, Takes};
ghost use Rattle.sheets_http.specs.Memory.{given, taken};

use crate::{Sink, SinkFault, Source, SteadySink, SteadySource};
use cell_value::{Bytes, Failed, Items};
use std::alloc::Global;
use std::marker::Model;

/// The calls that were made of a device, some of which are to fail.
#[derive(Debug, Drop)]
struct Calls {
    made: u64,
    failing: Items<u64>,
    faults: u64,
}

impl Model for Calls {
    ghost use Rattle.cell_value.specs.Calls.{CallCount};

    ghost Value = { CallCount };

    ghost view = { λ c. record { made = c.made; failing = c.failing; faults = c.faults } };
}

impl Calls {
    /// No call yet.
    fn new(failing: Items<u64>) -> Calls
        ensures { result ≡ no_calls failing }
    {
        Calls {
            made: 0,
            failing,
            faults: 0,
        }
    }

    /// Counts one more call, and answers whether it fails.
    fn fails(&mut self) -> bool
        ensures calls { self.new ≡ after_call (fails_next self.old) self.old }
        ensures later { self.old.faults ≤ self.new.faults }
        ensures fails { result ≡ fails_next self.old }
    {
        self.made = self.made.saturating_add(1);
        let fails = self.failing.as_slice().contains(&self.made);
        if fails {
            self.faults = self.faults.saturating_add(1);
        }
        fails
    }
}

/// Bytes in memory as a source, some of whose reads fail. Contracts see the bytes that are left and
/// the calls. It is steady where no call is to fail.
#[derive(Debug, Drop)]
pub struct MemorySource {
    source: SteadySource,
    calls: Calls,
}

impl Model for MemorySource {
    ghost use Rattle.sheets_http.specs.Memory.{CountedSource};

    ghost Value = { CountedSource };

    ghost view = { λ s. record { bytes = s.source; calls = s.calls } };
}

impl MemorySource {
    /// A source with these bytes, a read of which gives `piece` bytes, or as many as are left or
    /// have room; the reads whose numbers are among `failing`, counted from 1, fail.
    pub fn new(bytes: Bytes, piece: u64, failing: Items<u64>) -> MemorySource
        requires { 0 < piece }
        ensures { result ≡ record {
          bytes = record { left = bytes; piece = piece };
          calls = no_calls failing;
        } }
    {
        MemorySource {
            source: SteadySource::new(bytes, piece),
            calls: Calls::new(failing),
        }
    }
}

impl Source for MemorySource {
    ghost use Rattle.std.specs.Prelude.{Some};
    ghost use Rattle.sheets_http.specs.Outside.{no_side};
    ghost use Rattle.sheets_http.specs.Memory.{never_fails};
    ghost use Rattle.std.proofs.Common.{rules};

    ghost steady_low = { Prim.search rules };

    ghost left = { λ source. Some source.bytes.left };

    ghost faults = { λ source. source.calls.faults };

    ghost steady = { λ source. never_fails source.calls };

    ghost beside = { λ _. no_side };

    /// It takes no memory.
    fn read(&mut self, into: &mut [u8]) -> Result<usize, Failed>
        ensures given { IfOk result (λ count. count ≡ given self.old.bytes (length into.new)) }
        ensures bytes { Gives (Some self.old.bytes.left) (Some self.new.bytes.left) into.new result }
        ensures end { EndsThere (Some self.old.bytes.left) into.new result }
        ensures cause { OnErr result (Rose self.old.calls.faults self.new.calls.faults) }
        ensures later { self.old.calls.faults ≤ self.new.calls.faults }
        ensures steady { StaysSteady (never_fails self.old.calls) (never_fails self.new.calls)
            self.old.calls.faults self.new.calls.faults }
        ensures calls { self.new.calls ≡ after_call (fails_next self.old.calls) self.old.calls }
        ensures piece { self.new.bytes.piece ≡ self.old.bytes.piece }
        ensures fails { is_err result ≡ fails_next self.old.calls }
    {
        if self.calls.fails() {
            Err(Failed)
        } else {
            self.source.read(into)
        }
    }
}

/// A growing list of bytes in memory as a sink, some of whose writes fail. Contracts see the bytes
/// that were written, how often a write found no memory, and the calls. It is steady where no call
/// is to fail.
#[derive(Debug, Drop)]
pub struct MemorySink {
    sink: SteadySink,
    calls: Calls,
}

impl Model for MemorySink {
    ghost use Rattle.sheets_http.specs.Memory.{CountedSink};

    ghost Value = { CountedSink };

    ghost view = { λ s. record { bytes = s.sink; calls = s.calls } };
}

impl MemorySink {
    /// A sink to which nothing was written yet, a write to which takes `piece` bytes, or all; the
    /// writes whose numbers are among `failing`, counted from 1, fail.
    pub fn new(alloc: Global, piece: u64, failing: Items<u64>) -> MemorySink
        requires { 0 < piece }
        ensures { result ≡ record {
          bytes = record { written = []; piece = piece; shortages = 0 };
          calls = no_calls failing;
        } }
    {
        MemorySink {
            sink: SteadySink::new(alloc, piece),
            calls: Calls::new(failing),
        }
    }

    /// The bytes that were written so far.
    pub fn written(&self) -> &Bytes
        ensures { result.now ≡ self.now.bytes.written }
    {
        self.sink.written()
    }
}

impl Sink for MemorySink {
    ghost use Rattle.std.specs.Prelude.{Some};
    ghost use Rattle.sheets_http.specs.Outside.{no_side};
    ghost use Rattle.sheets_http.specs.Memory.{never_fails};
    ghost use Rattle.std.proofs.Common.{rules};

    ghost sink_steady_low = { Prim.search rules };

    ghost written = { λ sink. Some sink.bytes.written };

    ghost sink_faults = { λ sink. sink.calls.faults };

    ghost sink_shortages = { λ sink. sink.bytes.shortages };

    ghost sink_steady = { λ sink. never_fails sink.calls };

    ghost sink_beside = { λ _. no_side };

    /// Nothing of the piece is written where it fails.
    fn write(&mut self, bytes: &[u8]) -> Result<usize, SinkFault>
        ensures taken { IfOk result (λ count. count ≡ taken self.old.bytes bytes.now) }
        ensures bytes { Takes (Some self.old.bytes.written) (Some self.new.bytes.written) bytes.now result }
        ensures cause { result ≡ Err SinkFault.Failed → Rose self.old.calls.faults self.new.calls.faults }
        ensures stuck { result ≡ Ok 0 → 0 < length bytes.now → Rose self.old.calls.faults self.new.calls.faults }
        ensures later { self.old.calls.faults ≤ self.new.calls.faults }
        ensures short { result ≡ Err SinkFault.NoMemory → Rose self.old.bytes.shortages self.new.bytes.shortages }
        ensures short_later { self.old.bytes.shortages ≤ self.new.bytes.shortages }
        ensures steady { StaysSteady (never_fails self.old.calls) (never_fails self.new.calls)
            self.old.calls.faults self.new.calls.faults }
        ensures calls { self.new.calls ≡ after_call (fails_next self.old.calls) self.old.calls }
        ensures piece { self.new.bytes.piece ≡ self.old.bytes.piece }
        ensures fails { (result ≡ Err SinkFault.Failed) ↔ (fails_next self.old.calls ≡ true) }
        ensures unwritten { OnErr result (self.new.bytes.written ≡ self.old.bytes.written) }
    {
        if self.calls.fails() {
            Err(SinkFault::Failed)
        } else {
            self.sink.write(bytes)
        }
    }
}
