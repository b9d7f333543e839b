ghost use Rattle.std.specs.Prelude.{◌≡◌, IfOk};

use crate::Reading;
use crate::asking::read;
use crate::dump::dump;
use crate::step::{Stepped, body_of, status_of, step};
use batch_engine::calls_answered_once;
use cell_value::{Bytes, NoMemory};
use desk::{Answered, Ask, Engine};
use dimension_ops::{World, opening_stands};
use sheets_http::one_call;
use std::alloc::Global;
use world_model::stands_for_apart;

/// The spreadsheets of a server as an engine. An ask is a call of the API by its request line and its body; it has the
/// first of the faults of a request ([`crate::Fault`]), or is answered, and a writing call that is answered is
/// accepted. The spreadsheets after a call share with those before it all that it doesn't change.
pub enum Sheets {}

impl Engine for Sheets {
    ghost use Rattle.sheet_engine.specs.Replay.{Plain, Stands, Cells};
    ghost use Rattle.sheet_engine.specs.Asks.{IsRead};
    ghost use Rattle.sheet_engine.specs.Dump.{Dump};

    type World = World;

    type Asked = Reading;

    ghost reads = { IsRead };

    ghost plain = { Plain };

    ghost stands = { Stands };

    ghost cells = { Cells };

    ghost dumps = { Dump };

    fn opening(alloc: Global) -> Result<World, NoMemory> {
        opening_stands();
        World::opening(alloc)
    }

    fn read(alloc: Global, ask: &Ask) -> Result<Reading, NoMemory> {
        read(alloc, ask)
    }

    fn answer(
        alloc: Global,
        world: &World,
        ask: &Ask,
        asked: &Reading,
    ) -> Result<Answered<World>, NoMemory> {
        let Stepped { told, next } = step(alloc, world, ask, asked)?;
        Ok(Answered {
            status: status_of(&told),
            body: body_of(alloc, &told)?,
            next,
        })
    }

    fn count_cells(world: &World) -> u64 {
        world.filled()
    }

    fn dump(alloc: Global, world: &World) -> Result<Bytes, NoMemory> {
        dump(alloc, world)
    }

    fn one_outcome() {
        one_call();
        calls_answered_once();
        stands_for_apart();
    }

    fn one_count() {
        one_call();
        calls_answered_once();
        stands_for_apart();
    }

    fn one_dump() {
        one_call();
        calls_answered_once();
        stands_for_apart();
    }

    fn served_outcomes() {}
}
