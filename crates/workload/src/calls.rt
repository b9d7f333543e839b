ghost use Rattle.std.specs.Prelude.{◌≡◌, [], IfOk, OnOk};
ghost use Rattle.desk.specs.Points.{entries_of};
ghost use Rattle.workload.specs.Work.{IsMade, IsWork, Tells, HasOneWork, TellsOnce};

use crate::ask::{ask_number, caller_number};
use cell_value::NoMemory;
use desk::{Engine, LONGEST_JOURNAL, State, SteadyKeeper, Summary, one_step};
use std::alloc::Global;

/// What is told of the calls of a work.
#[derive(Clone, Copy, Debug, PartialEq, Eq)]
pub struct WorkSummary {
    /// How many calls were made.
    pub calls: u64,
    /// How many of them were accepted.
    pub accepted: u64,
    /// How many were not.
    pub refused: u64,
    /// How many cells the world has after them.
    pub cells: u64,
    /// How many bytes the journal of the accepted ones has.
    pub history: u64,
}

/// Makes the first `calls` calls of the table, in their order, at a history that is empty at first, and tells what came
/// of them. Nothing is written, and what a call asked and was answered is let go of behind it.
///
/// # Errors
///
/// [`NoMemory`] where memory runs out, also in a call; no further one is made then.
pub fn work<E: Engine>(alloc: Global, calls: u32) -> Result<WorkSummary, NoMemory>
    ensures { IfOk result (Tells E.plain LONGEST_JOURNAL E.cells calls) }
{
    let keeper = SteadyKeeper::new(Vec::new(alloc));
    let Ok(mut state) = State::<E, SteadyKeeper>::open(alloc, keeper, LONGEST_JOURNAL) else {
        return Err(NoMemory);
    };
    let made = make_calls(alloc, &mut state, calls);
    let (history, _) = state.into_history();
    made?;
    let Summary {
        accepted,
        cells,
        bytes,
    } = history.summary();
    let calls = u64::from(calls);
    Ok(WorkSummary {
        calls,
        accepted,
        refused: calls - accepted,
        cells,
        history: bytes,
    })
}

// Makes so many calls, from the first one on.
fn make_calls<E: Engine>(
    alloc: Global,
    state: &mut State<E, SteadyKeeper>,
    calls: u32,
) -> Result<(), NoMemory>
    requires { state.old.list ≡ [] }
    ensures { OnOk result (IsWork E.plain state.old.pair.0 calls (entries_of state.new.list)) }
{
    for number in 0..calls {
        make_call(alloc, state, number)?;
    }
    Ok(())
}

// Makes the call of this number. The keeper doesn't fail, so that only memory may be wanting.
fn make_call<E: Engine>(
    alloc: Global,
    state: &mut State<E, SteadyKeeper>,
    number: u32,
) -> Result<(), NoMemory>
    ensures made { OnOk result (IsMade E.plain state.old.pair.0 number (entries_of state.old.list)
        (entries_of state.new.list)) }
    ensures pair { state.new.pair ≡ state.old.pair }
{
    let ask = ask_number(alloc, number)?;
    let asked = E::read(alloc, &ask);
    let reply = state.step(caller_number(number), &ask, &asked);
    if reply.status == 507 {
        return Err(NoMemory);
    }
    Ok(())
}

/// So many calls make one history, and one thing is told of them. It does nothing when it runs.
pub fn one_work<E: Engine>()
    ensures history { HasOneWork E.plain LONGEST_JOURNAL }
    ensures told { TellsOnce E.plain LONGEST_JOURNAL E.cells }
{
    one_step::<E>();
    E::one_count();
}
