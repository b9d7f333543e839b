ghost use Rattle.std.specs.Prelude.{◌≡◌, ◌≤◌, false, length, min, is_err, IfOk, OnErr, Some};
ghost use Rattle.cell_value.specs.FaultCount.{Rose, StaysSteady};
ghost use Rattle.sheets_http.specs.Outside.{Gives, EndsThere};
ghost use Rattle.folder.specs.Memory.{never_fails};

use cell_value::{Bytes, Failed};
use sheets_http::{Source, SteadySource};
use std::marker::Model;

/// Bytes in memory as a file, whose first read may fail. Contracts see the bytes that are left, whether the next read
/// fails, and how often one has failed.
#[derive(Debug, Drop)]
pub struct MemoryFile {
    source: SteadySource,
    fails: bool,
    faults: u64,
}

impl Model for MemoryFile {
    ghost use Rattle.std.specs.Prelude.{◌≡◌};
    ghost use Rattle.folder.specs.Memory.{FileInMemory};

    ghost Value = { FileInMemory };

    ghost view = { λ f. record { left = f.source.left; fails = f.fails; faults = f.faults } };

    ghost invariant = { λ f. f.source.piece ≡ 18446744073709551615 };
}

impl MemoryFile {
    /// A file with these bytes, whose first read fails or doesn't. A read gives as many bytes as are left or have room.
    pub fn new(bytes: Bytes, fails: bool) -> MemoryFile
        ensures { result ≡ record { left = bytes; fails = fails; faults = 0 } }
    {
        MemoryFile {
            source: SteadySource::new(bytes, u64::MAX),
            fails,
            faults: 0,
        }
    }

    /// How often a read has failed.
    pub fn faults(&self) -> u64
        ensures { result ≡ self.now.faults }
    {
        self.faults
    }
}

impl Source for MemoryFile {
    ghost use Rattle.sheets_http.specs.Outside.{no_side};
    ghost use Rattle.std.proofs.Common.{rules};

    ghost steady_low = { Prim.search rules };

    ghost left = { λ file. Some file.left };

    ghost faults = { λ file. file.faults };

    ghost steady = { never_fails };

    ghost beside = { λ _. no_side };

    /// It takes no memory, and gives as many bytes as are left or have room.
    fn read(&mut self, into: &mut [u8]) -> Result<usize, Failed>
        ensures bound { IfOk result (λ count. count ≤ length into.new) }
        ensures given { IfOk result (λ count. count ≡ min (length self.old.left) (length into.new)) }
        ensures bytes { Gives (Some self.old.left) (Some self.new.left) into.new result }
        ensures end { EndsThere (Some self.old.left) into.new result }
        ensures cause { OnErr result (Rose self.old.faults self.new.faults) }
        ensures later { self.old.faults ≤ self.new.faults }
        ensures steady { StaysSteady (never_fails self.old) (never_fails self.new) self.old.faults self.new.faults }
        ensures fails { is_err result ≡ self.old.fails }
        ensures once { self.new.fails ≡ false }
    {
        if self.fails {
            self.fails = false;
            self.faults = self.faults.saturating_add(1);
            return Err(Failed);
        }
        self.source.read(into)
    }
}
