ghost use Rattle.std.specs.Prelude.{◌≡◌, ◌<◌, ◌≤◌, [], length, IfOk, OnErr};
ghost use Rattle.cell_value.specs.FaultCount.{Rose};
ghost use Rattle.sheets_http.specs.Outside.{Gives, EndsThere, Takes};
ghost use Rattle.sheets_http.specs.Memory.{given, taken};

use crate::{Sink, SinkFault, Source};
use cell_value::{Bytes, Failed};
use std::alloc::Global;
use std::marker::Model;

/// Bytes in memory as a source that never fails. Contracts see the bytes that are left, and how
/// many of them a read gives at most.
#[derive(Debug, Drop)]
pub struct SteadySource {
    bytes: Bytes,
    start: usize,
    piece: u64,
}

impl Model for SteadySource {
    ghost use Rattle.std.specs.Prelude.{◌<◌, ◌≤◌, length, drop};
    ghost use Rattle.sheets_http.specs.Memory.{SourceBytes};

    ghost Value = { SourceBytes };

    ghost view = { λ s. record { left = drop s.start s.bytes; piece = s.piece } };

    ghost invariant = { λ s. (s.start ≤ length s.bytes) × (0 < s.piece) };
}

impl SteadySource {
    /// A source with these bytes, a read of which gives `piece` bytes, or as many as are left or
    /// have room.
    pub fn new(bytes: Bytes, piece: u64) -> SteadySource
        requires { 0 < piece }
        ensures { result ≡ record { left = bytes; piece = piece } }
    {
        SteadySource {
            bytes,
            start: 0,
            piece,
        }
    }
}

impl Source for SteadySource {
    ghost use Rattle.std.specs.Prelude.{Some, true};
    ghost use Rattle.sheets_http.specs.Outside.{no_side};
    ghost use Rattle.std.proofs.Common.{rules};

    ghost steady_low = { Prim.search rules };

    ghost left = { λ source. Some source.left };

    ghost faults = { λ _. 0 };

    ghost steady = { λ _. true };

    ghost beside = { λ _. no_side };

    fn read(&mut self, into: &mut [u8]) -> Result<usize, Failed>
        ensures given { result ≡ Ok (given self.old (length into.new)) }
        ensures bytes { Gives (Some self.old.left) (Some self.new.left) into.new result }
        ensures end { EndsThere (Some self.old.left) into.new result }
        ensures piece { self.new.piece ≡ self.old.piece }
    {
        let rest = &self.bytes.as_slice()[self.start..];
        let most = rest.len().min(into.len()) as u64;
        let count = self.piece.min(most) as usize;
        into[..count].copy_from_slice(&rest[..count]);
        self.start += count;
        Ok(count)
    }
}

/// A growing list of bytes in memory as a sink that never fails. Contracts see the bytes that were
/// written, how many a write takes at most, and how often a write found no memory.
#[derive(Debug, Drop)]
pub struct SteadySink {
    bytes: Bytes,
    piece: u64,
    shortages: u64,
}

impl Model for SteadySink {
    ghost use Rattle.std.specs.Prelude.{◌<◌};
    ghost use Rattle.sheets_http.specs.Memory.{SinkBytes};

    ghost Value = { SinkBytes };

    ghost view = { λ s. record { written = s.bytes; piece = s.piece; shortages = s.shortages } };

    ghost invariant = { λ s. 0 < s.piece };
}

impl SteadySink {
    /// A sink to which nothing was written yet, a write to which takes `piece` bytes, or all.
    pub fn new(alloc: Global, piece: u64) -> SteadySink
        requires { 0 < piece }
        ensures { result ≡ record { written = []; piece = piece; shortages = 0 } }
    {
        SteadySink {
            bytes: Bytes::of(Vec::new(alloc)),
            piece,
            shortages: 0,
        }
    }

    /// The bytes that were written so far.
    pub fn written(&self) -> &Bytes
        ensures { result.now ≡ self.now.written }
    {
        &self.bytes
    }
}

impl Sink for SteadySink {
    ghost use Rattle.std.specs.Prelude.{Some, true};
    ghost use Rattle.sheets_http.specs.Outside.{no_side};
    ghost use Rattle.std.proofs.Common.{rules};

    ghost sink_steady_low = { Prim.search rules };

    ghost written = { λ sink. Some sink.written };

    ghost sink_faults = { λ _. 0 };

    ghost sink_shortages = { λ sink. sink.shortages };

    ghost sink_steady = { λ _. true };

    ghost sink_beside = { λ _. no_side };

    fn write(&mut self, bytes: &[u8]) -> Result<usize, SinkFault>
        ensures taken { IfOk result (λ count. count ≡ taken self.old bytes.now) }
        ensures none { result ≡ Ok 0 → bytes.now ≡ [] }
        ensures bytes { Takes (Some self.old.written) (Some self.new.written) bytes.now result }
        ensures short { OnErr result ((result ≡ Err SinkFault.NoMemory) × Rose self.old.shortages self.new.shortages) }
        ensures short_later { self.old.shortages ≤ self.new.shortages }
        ensures piece { self.new.piece ≡ self.old.piece }
    {
        let count = self.piece.min(bytes.len() as u64) as usize;
        match self.bytes.extend_from_slice(&bytes[..count]) {
            Ok(()) => Ok(count),
            Err(_) => {
                self.shortages = self.shortages.saturating_add(1);
                Err(SinkFault::NoMemory)
            }
        }
    }
}
