ghost use Rattle.std.specs.Prelude.{◌≡◌, ◌≤◌, ◌<◌, length, IfOk, OnErr};
ghost use Rattle.cell_value.specs.FaultCount.{Rose};

use cell_value::Failed;
use connections::Doors;
use conversation::Ended;
use sheets_http::{Duplex, Sink, SinkFault, Source};
use std::alloc::{AllocError, Global};
use std::sync::Arc;
use std::sync::atomic::{AtomicU64, Ordering};
use std::thread;

/// Bytes that a link gives once another link was answered so often.
#[derive(Clone, Copy, Debug)]
pub struct Piece {
    /// How many responses are waited for.
    pub after: u64,
    /// The bytes.
    pub bytes: &'static [u8],
}

/// A link in memory that gives its pieces one after another. It tells contracts nothing of its bytes.
#[derive(Drop)]
pub struct TurnLink {
    pieces: Vec<Piece>,
    rest: &'static [u8],
    written: Vec<u8>,
    own: Arc<AtomicU64>,
    other: Arc<AtomicU64>,
    faults: u64,
    shortages: u64,
}

impl TurnLink {
    /// A link with these pieces, in order, that has not failed yet. Each of its writes counts as a response in `own`,
    /// and it waits for the count of `other`.
    ///
    /// # Errors
    ///
    /// [`AllocError`] where memory runs out.
    pub fn new(
        alloc: Global,
        pieces: &[Piece],
        own: &Arc<AtomicU64>,
        other: &Arc<AtomicU64>,
    ) -> Result<TurnLink, AllocError>
        ensures { IfOk result (λ link. (link.faults ≡ 0) × (link.shortages ≡ 0)) }
    {
        let mut pieces = Vec::from_slice(alloc, pieces)?;
        pieces.reverse();
        Ok(TurnLink {
            pieces,
            rest: &[],
            written: Vec::new(alloc),
            own: Arc::try_clone(own)?,
            other: Arc::try_clone(other)?,
            faults: 0,
            shortages: 0,
        })
    }

    /// What was written.
    pub fn written(&self) -> &[u8] {
        self.written.as_slice()
    }

    // The next piece, once it may be given.
    fn next_piece(&mut self) -> Result<(), Failed>
        ensures cause { OnErr result (Rose self.old.faults self.new.faults) }
        ensures later { self.old.faults ≤ self.new.faults }
        ensures shortages { self.new.shortages ≡ self.old.shortages }
    {
        let Some(piece) = self.pieces.pop() else {
            return Ok(());
        };
        if !reaches(&self.other, piece.after) {
            self.faults = self.faults.saturating_add(1);
            return Err(Failed);
        }
        self.rest = piece.bytes;
        Ok(())
    }
}

// Waits for a count, for a billion turns at most.
fn reaches(count: &AtomicU64, least: u64) -> bool {
    for _ in 0..1_000_000_000 {
        if count.load(Ordering::SeqCst) >= least {
            return true;
        }
        thread::yield_now();
    }
    false
}

impl Source for TurnLink {
    ghost use Rattle.std.specs.Prelude.{None, false, [], true};
    ghost use Rattle.std.proofs.Common.{rules};
    ghost use Rattle.sheets_http.specs.Outside.{no_side};

    ghost steady_low = { Prim.search rules };

    ghost left = { λ _. None };

    ghost faults = { λ link. link.faults };

    ghost steady = { λ _. false };

    ghost beside = { λ link. record {
      bytes = None;
      faults = 0;
      shortages = link.shortages;
      steady = false;
      references = [];
    } };

    fn read(&mut self, into: &mut [u8]) -> Result<usize, Failed> {
        if self.rest.is_empty() {
            self.next_piece()?;
        }
        let count = self.rest.len().min(into.len());
        let (given, rest) = self.rest.split_at(count);
        into[..count].copy_from_slice(given);
        self.rest = rest;
        Ok(count)
    }
}

impl Sink for TurnLink {
    ghost use Rattle.std.specs.Prelude.{None, false, []};
    ghost use Rattle.std.proofs.Common.{rules};

    ghost sink_steady_low = { Prim.search rules };

    ghost written = { λ _. None };

    ghost sink_faults = { λ _. 0 };

    ghost sink_shortages = { λ link. link.shortages };

    ghost sink_steady = { λ _. false };

    ghost sink_beside = { λ link. record {
      bytes = None;
      faults = link.faults;
      shortages = 0;
      steady = false;
      references = [];
    } };

    fn write(&mut self, bytes: &[u8]) -> Result<usize, SinkFault> {
        if self.written.extend_from_slice(bytes).is_err() {
            self.shortages = self.shortages.saturating_add(1);
            return Err(SinkFault::NoMemory);
        }
        self.own.fetch_add(1, Ordering::SeqCst);
        Ok(bytes.len())
    }
}

impl Duplex for TurnLink {
    ghost use Rattle.std.specs.Prelude.{refl, []};

    ghost references = { λ _. [] };

    ghost reads_beside = { λ _. refl };

    ghost writes_beside = { λ _. refl };
}

/// A connection that is back: its number, its end and its link.
#[derive(Drop)]
pub struct Visitor {
    /// The number.
    pub number: u32,
    /// The end.
    pub ended: Ended,
    /// The link.
    pub link: TurnLink,
}

/// Links in memory as doors, which fail where none is left. They show contracts nothing.
#[derive(Drop)]
pub struct TurnDoors {
    coming: Vec<TurnLink>,
    back: Vec<Visitor>,
    faults: u64,
}

impl TurnDoors {
    /// Doors with these links, of which the last comes first.
    pub fn new(coming: Vec<TurnLink>, back: Vec<Visitor>) -> TurnDoors {
        TurnDoors {
            coming,
            back,
            faults: 0,
        }
    }

    /// Doors with two links of these pieces, each of which waits for the other.
    ///
    /// # Errors
    ///
    /// [`AllocError`] where memory runs out.
    pub fn of_two(
        alloc: Global,
        first: &[Piece],
        second: &[Piece],
    ) -> Result<TurnDoors, AllocError> {
        let first_count = Arc::new(alloc, AtomicU64::new(0))?;
        let second_count = Arc::new(alloc, AtomicU64::new(0))?;
        let mut coming = Vec::new(alloc);
        coming.push(TurnLink::new(alloc, second, &second_count, &first_count)?)?;
        coming.push(TurnLink::new(alloc, first, &first_count, &second_count)?)?;
        Ok(TurnDoors::new(coming, Vec::new(alloc)))
    }

    /// Doors with so many links of these pieces, which wait for none.
    ///
    /// # Errors
    ///
    /// [`AllocError`] where memory runs out.
    pub fn of_many(alloc: Global, count: u32, pieces: &[Piece]) -> Result<TurnDoors, AllocError> {
        let counts = Arc::new(alloc, AtomicU64::new(0))?;
        let mut coming = Vec::new(alloc);
        for _ in 0..count {
            coming.push(TurnLink::new(alloc, pieces, &counts, &counts)?)?;
        }
        Ok(TurnDoors::new(coming, Vec::new(alloc)))
    }

    /// The connections that are back, in the order in which they came back.
    pub fn back(&self) -> &[Visitor] {
        self.back.as_slice()
    }

    /// Whether the connection of that number is back once, ended so, and was answered so.
    pub fn is_back(&self, number: u32, ended: Ended, said: &[u8]) -> bool {
        let mut those = self.back.iter().filter(|visitor| visitor.number == number);
        match (those.next(), those.next()) {
            (Some(visitor), None) => visitor.ended == ended && visitor.link.written() == said,
            _ => false,
        }
    }
}

impl Doors for TurnDoors {
    ghost use Rattle.std.specs.Prelude.{None, false, []};
    ghost use Rattle.std.proofs.Common.{rules};
    ghost use Rattle.connections.specs.Doors.{link_seen};

    type Link = TurnLink;

    type Rest = TurnLink;

    ghost failures = { λ doors. doors.faults };

    ghost steady = { λ _. false };

    ghost steady_low = { Prim.search rules };

    ghost shown = { λ _. None };

    ghost rest_seen = { link_seen (λ _. None) (λ _. None) (λ link. link.faults) (λ _. 0)
        (λ link. link.shortages) (λ _. false) (λ _. false) (λ _. []) };

    fn open(&mut self, _port: u16) -> Result<(), Failed> {
        Ok(())
    }

    fn accept(&mut self) -> Result<TurnLink, Failed> {
        match self.coming.pop() {
            Some(mut link) => {
                link.faults = 0;
                link.shortages = 0;
                Ok(link)
            }
            None => {
                self.faults = self.faults.saturating_add(1);
                Err(Failed)
            }
        }
    }

    fn close(link: TurnLink) -> TurnLink {
        link
    }

    fn back(&mut self, number: u32, ended: Ended, link: TurnLink) {
        let _ = self.back.push(Visitor {
            number,
            ended,
            link,
        });
    }
}
