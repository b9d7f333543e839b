ghost use Rattle.std.specs.Prelude.{◌≡◌, ◌++◌, [], IfOk, None};

use cell_value::{Bytes, Duplicate, NoMemory};
use desk::{Answered, Ask, Engine};
use std::alloc::Global;

/// An engine whose world is bytes: an ask with a body appends it, and each ask is answered what was appended before.
pub enum Appends {}

impl Engine for Appends {
    ghost use Rattle.desk_tests.specs.Appending.{Plain, Stands, Cells, Dumps, Reads};

    type World = Bytes;

    // The status of its refusal, where it is refused.
    type Asked = Option<u16>;

    ghost reads = { Reads };

    ghost plain = { Plain };

    ghost stands = { Stands };

    ghost cells = { Cells };

    ghost dumps = { Dumps };

    fn opening(alloc: Global) -> Result<Bytes, NoMemory> {
        Ok(Bytes::of(Vec::new(alloc)))
    }

    fn read(_alloc: Global, ask: &Ask) -> Result<Option<u16>, NoMemory> {
        if ask.user.is_none() {
            return Ok(Some(401));
        }
        Ok(if ask.coded { Some(400) } else { None })
    }

    #[tactic(auto, using(crate::proofs::Appended::bodies_more))]
    fn answer(
        alloc: Global,
        world: &Bytes,
        ask: &Ask,
        asked: &Option<u16>,
    ) -> Result<Answered<Bytes>, NoMemory> {
        if let Some(status) = asked {
            return Ok(refuse(alloc, *status));
        }
        let next = match ask.body.as_slice() {
            [] => None,
            more => Some(append(world, more)?),
        };
        Ok(Answered {
            status: 200,
            body: world.duplicate()?,
            next,
        })
    }

    fn count_cells(world: &Bytes) -> u64 {
        world.as_slice().len() as u64
    }

    fn dump(_alloc: Global, world: &Bytes) -> Result<Bytes, NoMemory> {
        world.duplicate()
    }

    fn one_outcome() {}

    fn one_count() {}

    fn one_dump() {}

    fn served_outcomes() {}
}

// A refusal without a word.
fn refuse(alloc: Global, status: u16) -> Answered<Bytes>
    ensures { (result.status ≡ status) × (result.body ≡ []) × (result.next ≡ None) }
{
    Answered {
        status,
        body: Bytes::of(Vec::new(alloc)),
        next: None,
    }
}

// The bytes and more behind them.
fn append(bytes: &Bytes, more: &[u8]) -> Result<Bytes, NoMemory>
    ensures { IfOk result (λ all. all ≡ bytes.now ++ more.now) }
{
    let mut all = bytes.duplicate()?;
    all.extend_from_slice(more)?;
    Ok(all)
}
