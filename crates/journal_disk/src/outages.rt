ghost use Rattle.std.specs.Prelude.{◌≡◌, is_err, OnOk, OnErr, true, false};
ghost use Rattle.journal_disk.specs.Disk.{RisesAtErr};
ghost use Rattle.cell_value.specs.Calls.{no_calls, after_call};
ghost use Rattle.journal_disk.specs.Failing.{is_full, call_fails};

use cell_value::{Failed, Items};
use std::marker::Model;

/// Which calls of a disk fail, how many were made, and how many have failed.
#[derive(Drop)]
pub struct Outages {
    failing: Items<u64>,
    stop: Option<u64>,
    room_for_calls: u64,
    room_for_bytes: u64,
    made: u64,
    faults: u64,
}

impl Model for Outages {
    ghost use Rattle.journal_disk.specs.Failing.{Outage};

    ghost Value = { Outage };

    ghost view = { λ o. record {
      calls = record { made = o.made; failing = o.failing; faults = o.faults };
      bounds = record { stop = o.stop; calls = o.room_for_calls; bytes = o.room_for_bytes };
    } };
}

impl Outages {
    /// The calls of the numbers in `failing` fail, counted from 1, from the call `stop` on every call,
    /// and each past `room_for_calls`. A record has room for `room_for_bytes` written bytes.
    pub fn new(
        failing: Items<u64>,
        stop: Option<u64>,
        room_for_calls: u64,
        room_for_bytes: u64,
    ) -> Outages
        ensures calls { result.calls ≡ no_calls failing }
        ensures bounds { result.bounds ≡ record { stop = stop; calls = room_for_calls; bytes = room_for_bytes } }
    {
        Outages {
            failing,
            stop,
            room_for_calls,
            room_for_bytes,
            made: 0,
            faults: 0,
        }
    }

    /// Whether the next call fails: by its number, or as the record has no room for it.
    pub fn next_fails(&self) -> bool
        ensures fails { result ≡ call_fails self.now.bounds self.now.calls }
        ensures room { result ≡ false → is_full self.now.bounds self.now.calls ≡ false }
    {
        let next = self.made.saturating_add(1);
        let stopped = match self.stop {
            Some(stop) => stop <= next,
            None => false,
        };
        self.failing.as_slice().contains(&next) || stopped || self.is_full()
    }

    /// Whether the record has no room for one call more.
    pub fn is_full(&self) -> bool
        ensures { result ≡ is_full self.now.bounds self.now.calls }
    {
        self.room_for_calls <= self.made
    }

    /// For how many written bytes the record has room.
    pub fn room_for_bytes(&self) -> u64
        ensures { result ≡ self.now.bounds.bytes }
    {
        self.room_for_bytes
    }

    /// Counts a call, and answers it. One that failed is a fault.
    pub fn answer(&mut self, failed: bool) -> Result<(), Failed>
        ensures failed { is_err result ≡ failed }
        ensures ok { OnOk result (failed ≡ false) }
        ensures err { OnErr result (failed ≡ true) }
        ensures calls { self.new.calls ≡ after_call failed self.old.calls }
        ensures bounds { self.new.bounds ≡ self.old.bounds }
        ensures cause { RisesAtErr self.old.calls.faults self.new.calls.faults result }
    {
        self.made = self.made.saturating_add(1);
        if failed {
            self.faults = self.faults.saturating_add(1);
            return Err(Failed);
        }
        Ok(())
    }
}
