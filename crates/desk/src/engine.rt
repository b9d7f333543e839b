ghost use Rattle.std.specs.Prelude.{◌≡◌, ℕ, List, [], IfOk};

use crate::Ask;
use cell_value::{Bytes, NoMemory};
use std::alloc::Global;

/// What an engine answers an ask, and the world after it, where it accepts the ask.
#[derive(Drop)]
pub struct Answered<W> {
    /// The status of the response.
    pub status: u16,
    /// Its body.
    pub body: Bytes,
    /// The world after the call, where it is accepted.
    pub next: Option<W>,
}

/// What answers calls on a world, one after another, and knows of no keeper and of no other caller.
pub trait Engine {
    ghost use Rattle.desk.specs.declared.entry.Entry.{Entry};
    ghost use Rattle.desk.specs.declared.entry.Ask.{Ask};
    ghost use Rattle.desk.specs.Steps.{Outcome, Answers, HasOneOutcome, HasOneCount, HasOneDump, AreServed};

    /// What the calls of a history made.
    type World: Drop;

    /// What is read of an ask, whatever the world is.
    type Asked: Drop;

    /// It is what is read of the ask.
    ghost reads: { Ask → Self.Asked → Type 0 };

    /// What one thread answers an ask behind a history, and whether it accepts it.
    ghost plain: { List Entry → Ask → Outcome → Type 0 };

    /// A world stands for what the accepted calls of a history made, in order.
    ghost stands: { Self.World → List Entry → Type 0 };

    /// How many cells a world has that stands for a history.
    ghost cells: { List Entry → ℕ → Type 0 };

    /// A text tells what the calls of a history made.
    ghost dumps: { List Entry → List ℕ → Type 0 };

    /// The world of the beginning.
    ///
    /// # Errors
    ///
    /// [`NoMemory`] where memory runs out.
    fn opening(alloc: Global) -> Result<Self::World, NoMemory>
        ensures { IfOk result (λ world. stands world []) };

    /// Reads an ask, before there is a world to answer it on.
    ///
    /// # Errors
    ///
    /// [`NoMemory`] where memory runs out.
    fn read(alloc: Global, ask: &Ask) -> Result<Self::Asked, NoMemory>
        ensures { IfOk result (reads ask.now) };

    /// Answers an ask that was read on a world, which stays as it is. A world is told exactly where the ask is
    /// accepted.
    ///
    /// # Errors
    ///
    /// [`NoMemory`] where memory runs out.
    fn answer(
        alloc: Global,
        world: &Self::World,
        ask: &Ask,
        asked: &Self::Asked,
    ) -> Result<Answered<Self::World>, NoMemory>
        requires { reads ask.now asked.now }
        ensures { (entries : List Entry) → stands world.now entries
            → IfOk result (Answers plain stands entries ask.now) };

    /// How many cells the world has.
    fn count_cells(world: &Self::World) -> u64
        ensures { (entries : List Entry) → stands world.now entries → cells entries result };

    /// A text that tells all of the world.
    ///
    /// # Errors
    ///
    /// [`NoMemory`] where memory runs out.
    fn dump(alloc: Global, world: &Self::World) -> Result<Bytes, NoMemory>
        ensures { (entries : List Entry) → stands world.now entries → IfOk result (dumps entries) };

    /// The law that an ask has one outcome behind a history. It does nothing when it runs.
    fn one_outcome()
        ensures { HasOneOutcome plain };

    /// The law that a history makes one number of cells. It does nothing when it runs.
    fn one_count()
        ensures { HasOneCount cells };

    /// The law that a history has one text that tells what its calls made. It does nothing when it runs.
    fn one_dump()
        ensures { HasOneDump dumps };

    /// The law that a status is 200, 400, 401, 403 or 404, and that what is accepted is answered 200, and has a user
    /// and no content coding. It does nothing when it runs.
    fn served_outcomes()
        ensures { AreServed plain };
}
