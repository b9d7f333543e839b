ghost use Rattle.std.specs.Prelude.{◌≡◌, ◌≢◌, ◌≤◌, ◌↔◌, length, take, OnOk, OnErr, IfSome, Some, Err};
ghost use Rattle.cell_value.specs.Calls.{one_more};
ghost use Rattle.cell_value.specs.FaultCount.{Rose, StaysSteady};
ghost use Rattle.desk.specs.Keeping.{LeavesTold, with_piece, outage};

use crate::{Keeper, LoadFault, PutFault};
use cell_value::{Bytes, Items, NoMemory};
use std::marker::Model;

/// Bytes in memory as a keeper that never fails. Contracts see the bytes.
#[derive(Debug, Drop)]
pub struct SteadyKeeper {
    kept: Vec<u8>,
}

impl Model for SteadyKeeper {
    ghost use Rattle.std.specs.Prelude.{ℕ, List};

    ghost Value = { List ℕ };

    ghost view = { λ k. k.kept.items };
}

impl SteadyKeeper {
    /// A keeper that has these bytes.
    pub fn new(kept: Vec<u8>) -> SteadyKeeper
        ensures { result ≡ kept.items }
    {
        SteadyKeeper { kept }
    }

    /// The bytes that it has.
    pub fn bytes(&self) -> &[u8]
        ensures { result.now ≡ self.now }
    {
        self.kept.as_slice()
    }

    /// The bytes that it has, in the memory that they have.
    pub fn into_bytes(self) -> Vec<u8>
        ensures { result.items ≡ self }
    {
        self.kept
    }
}

// Makes bytes their first `at` bytes and a piece behind them, or leaves them where memory runs out.
fn put_at(bytes: &mut Vec<u8>, at: usize, piece: &[u8]) -> Result<(), NoMemory>
    requires { at ≤ length bytes.old.items }
    ensures ok { OnOk result (bytes.new.items ≡ with_piece at piece.now bytes.old.items) }
    ensures err { OnErr result (bytes.new.items ≡ bytes.old.items) }
{
    bytes.reserve(piece.len())?;
    bytes.truncate(at);
    let _ = bytes.extend_from_slice(piece);
    Ok(())
}

impl Keeper for SteadyKeeper {
    ghost use Rattle.std.specs.Prelude.{true};
    ghost use Rattle.std.proofs.Common.{rules};

    ghost steady_low = { Prim.search rules };

    ghost kept = { λ keeper. Some keeper };

    ghost failures = { λ _. 0 };

    ghost steady = { λ _. true };

    fn load(&mut self, most: u64, into: &mut Bytes) -> Result<(), LoadFault> {
        let count = self.kept.len().min(most as usize);
        into.clear();
        into.extend_from_slice(&self.kept[..count])?;
        Ok(())
    }

    fn put(&mut self, at: u64, piece: &[u8]) -> Result<(), PutFault> {
        put_at(&mut self.kept, at as usize, piece)?;
        Ok(())
    }

    fn faults(&self) -> u64 {
        0
    }
}

/// Bytes in memory as a keeper, some of whose calls fail. Contracts see the bytes, how many puts were made, which calls
/// fail, how often one has failed, and how often a put found no memory. It is steady where no call is to fail.
#[derive(Debug, Drop)]
pub struct MemoryKeeper {
    keeper: SteadyKeeper,
    failing: Items<(u64, Option<u64>)>,
    puts: u64,
    faults: u64,
    shortages: u64,
}

impl Model for MemoryKeeper {
    ghost use Rattle.desk.specs.Keeping.{KeptBytes};

    ghost Value = { KeptBytes };

    ghost view = { λ k. record {
      bytes = k.keeper;
      puts = k.puts;
      failing = k.failing;
      faults = k.faults;
      shortages = k.shortages;
    } };
}

impl MemoryKeeper {
    /// A keeper that has these bytes. Put number k, from 1, fails where k stands first in a pair: with `None` it
    /// changes nothing, with a number it leaves so many bytes of its piece, or all of them, unless memory runs out:
    /// then it changes nothing, either. A pair that begins with 0 lets each load fail. Of pairs that begin alike the
    /// first one counts.
    pub fn new(kept: Vec<u8>, failing: Items<(u64, Option<u64>)>) -> MemoryKeeper
        ensures { result ≡ record { bytes = kept.items; puts = 0; failing = failing; faults = 0; shortages = 0 } }
    {
        MemoryKeeper {
            keeper: SteadyKeeper::new(kept),
            failing,
            puts: 0,
            faults: 0,
            shortages: 0,
        }
    }

    /// The bytes that it has.
    pub fn bytes(&self) -> &[u8]
        ensures { result.now ≡ self.now.bytes }
    {
        self.keeper.bytes()
    }

    /// The bytes that it has, in the memory that they have.
    pub fn into_bytes(self) -> Vec<u8>
        ensures { result.items ≡ self.bytes }
    {
        let MemoryKeeper {
            keeper,
            failing: _,
            puts: _,
            faults: _,
            shortages: _,
        } = self;
        keeper.into_bytes()
    }
}

// What the call of this number leaves, if it is to fail.
fn find_outage(failing: &[(u64, Option<u64>)], number: u64) -> Option<Option<u64>>
    ensures { result ≡ outage failing.now number }
{
    let pair = failing.iter().find(|pair| pair.0 == number)?;
    Some(pair.1)
}

impl MemoryKeeper {
    // Puts the piece, and counts a shortage where memory runs out.
    fn put_counted(&mut self, at: u64, piece: &[u8]) -> Result<(), PutFault>
        requires { at ≤ length self.old.bytes }
        ensures ok { OnOk result (self.new.bytes ≡ with_piece at piece.now self.old.bytes) }
        ensures err { OnErr result ((result ≡ Err PutFault.NoMemory)
            × (self.new.bytes ≡ self.old.bytes) × Rose self.old.shortages self.new.shortages) }
        ensures later { self.old.shortages ≤ self.new.shortages }
        ensures rest { self.new ≡ record self.old { bytes = self.new.bytes; shortages = self.new.shortages } }
    {
        let put = self.keeper.put(at, piece);
        if put.is_err() {
            self.shortages = self.shortages.saturating_add(1);
        }
        put
    }

    // Leaves what a put that fails is to leave.
    fn put_torn(&mut self, at: u64, piece: &[u8], left: Option<u64>)
        requires { at ≤ length self.old.bytes }
        ensures leaves { LeavesTold left self.old at piece.now self.new }
        ensures later { self.old.shortages ≤ self.new.shortages }
        ensures rest { self.new ≡ record self.old { bytes = self.new.bytes; shortages = self.new.shortages } }
    {
        if let Some(count) = left {
            let count = piece.len().min(count as usize);
            let _ = self.put_counted(at, &piece[..count]);
        }
    }
}

impl Keeper for MemoryKeeper {
    ghost use Rattle.std.specs.Prelude.{IsSome};
    ghost use Rattle.desk.specs.Keeping.{Puts, next_outage, never_fails};
    ghost use Rattle.std.proofs.Common.{rules};

    ghost steady_low = { Prim.search rules };

    ghost kept = { λ keeper. Some keeper.bytes };

    ghost failures = { λ keeper. keeper.faults };

    ghost steady = { never_fails };

    /// It fails just where a pair begins with 0.
    fn load(&mut self, most: u64, into: &mut Bytes) -> Result<(), LoadFault>
        ensures loaded { OnOk result (into.new ≡ take most self.old.bytes) }
        ensures kept { self.new.bytes ≡ self.old.bytes }
        ensures cause { result ≡ Err LoadFault.Failed → Rose self.old.faults self.new.faults }
        ensures later { self.old.faults ≤ self.new.faults }
        ensures steady { StaysSteady (never_fails self.old) (never_fails self.new) self.old.faults self.new.faults }
        ensures fails { (result ≡ Err LoadFault.Failed) ↔ IsSome (outage self.old.failing 0) }
        ensures calls { (self.new.failing ≡ self.old.failing) × (self.new.puts ≡ self.old.puts) }
    {
        if find_outage(self.failing.as_slice(), 0).is_some() {
            self.faults = self.faults.saturating_add(1);
            return Err(LoadFault::Failed);
        }
        self.keeper.load(most, into)
    }

    /// It fails just where a pair begins with its number, and leaves what that pair says.
    fn put(&mut self, at: u64, piece: &[u8]) -> Result<(), PutFault>
        requires { at ≤ length self.old.bytes }
        ensures kept { Puts (Some self.old.bytes) (Some self.new.bytes) at piece.now result }
        ensures cause { result ≡ Err PutFault.Failed → Rose self.old.faults self.new.faults }
        ensures count { result ≢ Err PutFault.Failed → self.new.faults ≡ self.old.faults }
        ensures later { self.old.faults ≤ self.new.faults }
        ensures steady { StaysSteady (never_fails self.old) (never_fails self.new) self.old.faults self.new.faults }
        ensures fails { (result ≡ Err PutFault.Failed) ↔ IsSome (next_outage self.old) }
        ensures leaves { IfSome (next_outage self.old) (λ left. LeavesTold left self.old at piece.now self.new) }
        ensures short { result ≡ Err PutFault.NoMemory → Rose self.old.shortages self.new.shortages }
        ensures short_later { self.old.shortages ≤ self.new.shortages }
        ensures calls { (self.new.failing ≡ self.old.failing) × (self.new.puts ≡ one_more self.old.puts) }
    {
        self.puts = self.puts.saturating_add(1);
        match find_outage(self.failing.as_slice(), self.puts) {
            None => self.put_counted(at, piece),
            Some(left) => {
                self.put_torn(at, piece, left);
                self.faults = self.faults.saturating_add(1);
                Err(PutFault::Failed)
            }
        }
    }

    fn faults(&self) -> u64 {
        self.faults
    }
}
