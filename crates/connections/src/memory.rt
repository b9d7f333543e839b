ghost use Rattle.std.specs.Prelude.{◌≡◌, ◌<◌, ◌≤◌, true, false, [], All, map, Some, IfSome, IfOk, OnErr, is_err, vec_len, vec_capacity};
ghost use Rattle.std.specs.Option.{option_map};
ghost use mathlib.Core.List as lists;
ghost use Rattle.cell_value.specs.Calls.{no_calls, fails_next, after_call};
ghost use Rattle.cell_value.specs.FaultCount.{Rose, StaysSteady};
ghost use Rattle.connections.specs.Doors.{LinkSeen, link_seen, came_back, IsAway, IsFresh};
ghost use Rattle.connections.specs.Doors.{after_open, after_accept, after_refusal, after_back};
ghost use Rattle.connections.specs.Memory.{IsComing, connection_of, shown_by, refuses_next, CameFirst};

use crate::Doors;
use crate::ports::Ports;
use cell_value::{Bytes, Failed, Items, NoMemory};
use conversation::Ended;
use sheets_http::Duplex;
use std::alloc::Global;
use std::marker::Model;
use std::snapshot::Snapshot;

/// An accepted connection: the bytes that its link held, the link as it was then, and its end with its link, once it is
/// back.
#[derive(Drop)]
pub struct Visit<L> {
    pub(crate) held: Bytes,
    pub(crate) came: Snapshot<L>,
    pub(crate) back: Option<(Ended, L)>,
}

/// Links in memory as doors, some of whose calls are to fail. A call of `open` or `accept` fails exactly where it is
/// to, or, of `accept`, where no link is left. None of them takes memory.
pub struct MemoryDoors<L: Duplex + Drop> {
    coming: Vec<(L, Bytes)>,
    accepted: Vec<Visit<L>>,
    opened: Ports,
    accepts: u64,
    made: u64,
    failing: Items<u64>,
    faults: u64,
}

impl<L: Duplex + Drop> Model for MemoryDoors<L> {
    ghost use Rattle.std.specs.Prelude.{◌+◌, ◌≤◌, All, vec_len, vec_capacity};
    ghost use Rattle.connections.specs.Doors.{link_seen};
    ghost use Rattle.connections.specs.Memory.{LinksInMemory, IsComing};

    ghost Value = { LinksInMemory L };

    ghost view = { λ d. record {
      coming = d.coming.items;
      accepted = d.accepted.items;
      opened = d.opened;
      accepts = d.accepts;
      calls = record { made = d.made; failing = d.failing; faults = d.faults };
    } };

    ghost invariant = { λ d. (vec_len d.accepted + vec_len d.coming ≤ vec_capacity d.accepted)
        × All (IsComing
        (link_seen L.left L.written L.faults L.sink_faults L.sink_shortages L.steady L.sink_steady L.references))
        d.coming.items };
}

impl<L: Duplex + Drop> Drop for MemoryDoors<L> {
    fn drop(self) {
        let Self {
            coming: _,
            accepted: _,
            opened: _,
            accepts: _,
            made: _,
            failing: _,
            faults: _,
        } = self;
    }
}

impl<L: Duplex + Drop> MemoryDoors<L> {
    /// Doors with these links, each beside the bytes that it holds, where it tells them, in the order in which they are
    /// accepted. The calls of `open` and `accept`, counted together from 1, whose numbers are among `failing` fail. No
    /// link has failed yet, and nothing was written to it.
    ///
    /// # Errors
    ///
    /// [`NoMemory`] where there is no room for the links' ends. No other call takes memory.
    pub fn new(
        alloc: Global,
        links: Items<(L, Bytes)>,
        failing: Items<u64>,
    ) -> Result<MemoryDoors<L>, NoMemory>
        requires { All
            (IsComing
            (link_seen L.left L.written L.faults L.sink_faults L.sink_shortages L.steady L.sink_steady
            L.references)) links }
        ensures { IfOk result (λ doors. doors ≡ record {
          coming = lists.reverse links;
          accepted = [];
          opened = [];
          accepts = 0;
          calls = no_calls failing;
        }) }
    {
        let mut coming = links.into_vec();
        coming.reverse();
        let mut accepted = Vec::new(alloc);
        accepted.reserve(coming.len())?;
        Ok(MemoryDoors {
            coming,
            accepted,
            opened: Ports::new(),
            accepts: 0,
            made: 0,
            failing,
            faults: 0,
        })
    }
}

impl<L: Duplex + Drop> MemoryDoors<L> {
    // Counts one more call, and answers whether it fails.
    fn fails(&mut self) -> bool
        ensures coming { self.new.coming ≡ self.old.coming }
        ensures accepted { self.new.accepted ≡ self.old.accepted }
        ensures opened { self.new.opened ≡ self.old.opened }
        ensures accepts { self.new.accepts ≡ self.old.accepts }
        ensures cause { result ≡ true → Rose self.old.calls.faults self.new.calls.faults }
        ensures later { self.old.calls.faults ≤ self.new.calls.faults }
        ensures calls { self.new.calls ≡ after_call (fails_next self.old.calls) self.old.calls }
        ensures fails { result ≡ fails_next self.old.calls }
    {
        self.made = self.made.saturating_add(1);
        let fails = self.failing.as_slice().contains(&self.made);
        if fails {
            self.faults = self.faults.saturating_add(1);
        }
        fails
    }
}

impl<L: Duplex + Send + Drop> Doors for MemoryDoors<L> {
    ghost use Rattle.std.specs.Prelude.{Some, false};
    ghost use Rattle.std.proofs.Common.{rules};
    ghost use Rattle.connections.specs.Doors.{link_seen};
    ghost use Rattle.connections.specs.Memory.{shown_by};

    type Link = L;

    type Rest = L;

    ghost failures = { λ doors. doors.calls.faults };

    ghost steady = { λ _. false };

    ghost steady_low = { Prim.search rules };

    ghost shown = { λ doors. Some
        (shown_by
        (link_seen L.left L.written L.faults L.sink_faults L.sink_shortages L.steady L.sink_steady L.references)
        doors) };

    ghost rest_seen = { link_seen L.left L.written L.faults L.sink_faults
        L.sink_shortages L.steady L.sink_steady L.references };

    fn open(&mut self, port: u16) -> Result<(), Failed>
        ensures opened { Some
            (shown_by
            (link_seen L.left L.written L.faults L.sink_faults L.sink_shortages L.steady L.sink_steady
            L.references) self.new)
            ≡ option_map (after_open port)
            (Some (shown_by
            (link_seen L.left L.written L.faults L.sink_faults L.sink_shortages L.steady L.sink_steady L.references)
            self.old)) }
        ensures cause { OnErr result (Rose self.old.calls.faults self.new.calls.faults) }
        ensures later { self.old.calls.faults ≤ self.new.calls.faults }
        ensures steady { StaysSteady false false self.old.calls.faults self.new.calls.faults }
        ensures calls { self.new.calls ≡ after_call (fails_next self.old.calls) self.old.calls }
        ensures fails { is_err result ≡ fails_next self.old.calls }
        ensures coming { self.new.coming ≡ self.old.coming }
    {
        let fails = self.fails();
        self.opened.push(port);
        if fails { Err(Failed) } else { Ok(()) }
    }

    fn accept(&mut self) -> Result<L, Failed>
        ensures fresh { IfOk result
            (λ link. IsFresh
            (link_seen L.left L.written L.faults L.sink_faults L.sink_shortages L.steady L.sink_steady L.references
            link)) }
        ensures accepted { IfOk result (λ link.
            Some (shown_by
            (link_seen L.left L.written L.faults L.sink_faults L.sink_shortages L.steady L.sink_steady
            L.references) self.new)
            ≡ option_map
            (after_accept
            (link_seen L.left L.written L.faults L.sink_faults L.sink_shortages L.steady L.sink_steady
            L.references link))
            (Some (shown_by
            (link_seen L.left L.written L.faults L.sink_faults L.sink_shortages L.steady L.sink_steady L.references)
            self.old))) }
        ensures refused { OnErr result
            (Some (shown_by
            (link_seen L.left L.written L.faults L.sink_faults L.sink_shortages L.steady L.sink_steady
            L.references) self.new)
            ≡ option_map after_refusal
            (Some (shown_by
            (link_seen L.left L.written L.faults L.sink_faults L.sink_shortages L.steady L.sink_steady L.references)
            self.old))) }
        ensures cause { OnErr result (Rose self.old.calls.faults self.new.calls.faults) }
        ensures later { self.old.calls.faults ≤ self.new.calls.faults }
        ensures steady { StaysSteady false false self.old.calls.faults self.new.calls.faults }
        ensures calls { self.new.calls ≡ after_call (refuses_next self.old) self.old.calls }
        ensures refuses { is_err result ≡ refuses_next self.old }
        ensures first { IfOk result (λ link. CameFirst link self.old.coming self.new.coming) }
        ensures stay { OnErr result (self.new.coming ≡ self.old.coming) }
    {
        self.accepts = self.accepts.saturating_add(1);
        if self.fails() {
            return Err(Failed);
        }
        match self.coming.pop() {
            Some((link, held)) => {
                let came = Snapshot::of(&link);
                self.accepted.push_reserved(Visit {
                    held,
                    came,
                    back: None,
                });
                Ok(link)
            }
            None => {
                self.faults = self.faults.saturating_add(1);
                Err(Failed)
            }
        }
    }

    fn close(link: L) -> L {
        link
    }

    fn back(&mut self, number: u32, ended: Ended, rest: L)
        requires { IfSome
            (Some (shown_by
            (link_seen L.left L.written L.faults L.sink_faults L.sink_shortages L.steady L.sink_steady
            L.references) self.old))
            (λ shown. IsAway number shown.connections) }
        ensures shown { Some
            (shown_by
            (link_seen L.left L.written L.faults L.sink_faults L.sink_shortages L.steady L.sink_steady
            L.references) self.new)
            ≡ option_map (after_back number (record {
              ended = ended;
              link = link_seen L.left L.written L.faults L.sink_faults L.sink_shortages L.steady L.sink_steady
                  L.references rest;
            })) (Some
            (shown_by
            (link_seen L.left L.written L.faults L.sink_faults L.sink_shortages L.steady L.sink_steady L.references)
            self.old)) }
        ensures failures { self.new.calls.faults ≡ self.old.calls.faults }
        ensures steady { false ≡ false }
        ensures calls { self.new.calls ≡ self.old.calls }
        ensures coming { self.new.coming ≡ self.old.coming }
    {
        put_back(&mut self.accepted, number as usize, ended, rest);
    }
}

// Puts a connection's end at its place.
fn put_back<L: Drop>(accepted: &mut Vec<Visit<L>>, number: usize, ended: Ended, link: L)
    requires { number < vec_len accepted.old }
    ensures back { (seen : L → LinkSeen) → map (connection_of seen) accepted.new.items
        ≡ came_back number record { ended = ended; link = seen link } (map (connection_of seen) accepted.old.items) }
    ensures len { vec_len accepted.new ≡ vec_len accepted.old }
    ensures capacity { vec_capacity accepted.new ≡ vec_capacity accepted.old }
{
    let visit = &mut accepted[number];
    visit.back = Some((ended, link));
}
