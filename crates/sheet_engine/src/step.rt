ghost use Rattle.std.specs.Prelude.{◌≡◌, IfOk, Err, None};
ghost use Rattle.batch_engine.specs.Calls.{HasItsBook};
ghost use Rattle.sheet_engine.specs.Asks.{IsRead};
ghost use Rattle.sheet_engine.specs.Answers.{Makes, Performs, told_by, status_of, body_of};

use crate::asking::lacks_its_book;
use crate::{Fault, Reading};
use batch_engine::{Applied, Caller, Outcome, apply};
use cell_value::{Bytes, NoMemory};
use desk::Ask;
use dimension_ops::World;
use sheets_json::{Answer, Call, answer_text, refusal_text};
use std::alloc::Global;

/// What an ask is answered, and the spreadsheets after it, where it makes something of them.
#[derive(Drop)]
pub(crate) struct Stepped {
    pub(crate) told: Result<Answer, Fault>,
    pub(crate) next: Option<World>,
}

/// Answers an ask that was read on the spreadsheets, which stay as they are.
///
/// # Errors
///
/// [`NoMemory`] where memory runs out.
pub(crate) fn step(
    alloc: Global,
    world: &World,
    ask: &Ask,
    reading: &Reading,
) -> Result<Stepped, NoMemory>
    requires { IsRead ask.now reading.now }
    ensures { IfOk result (λ step. Makes world.now ask.now step.told step.next) }
{
    match reading {
        Reading::Faulty(fault) => Ok(refused(*fault)),
        Reading::Routed {
            caller,
            route,
            said,
        } => {
            if lacks_its_book(world, route) {
                return Ok(refused(Fault::NoBook));
            }
            match said {
                Ok(call) => called(alloc, world, caller, call),
                Err(fault) => Ok(refused(*fault)),
            }
        }
    }
}

/// An ask has that fault, and nothing is made of the spreadsheets.
fn refused(fault: Fault) -> Stepped
    ensures { (result.told ≡ Err fault) × (result.next ≡ None) }
{
    Stepped {
        told: Err(fault),
        next: None,
    }
}

/// Makes a call on the spreadsheets, which stay as they are.
///
/// # Errors
///
/// [`NoMemory`] where memory runs out.
pub(crate) fn called(
    alloc: Global,
    world: &World,
    caller: &Caller,
    call: &Call,
) -> Result<Stepped, NoMemory>
    requires { HasItsBook call.now world.now }
    ensures { IfOk result (λ step. Performs caller.now world.now call.now step.told step.next) }
{
    let Applied { next, outcome } = apply(alloc, world, caller, call)?;
    Ok(Stepped {
        told: told_by(outcome),
        next,
    })
}

/// What is told of a call, as of its ask.
fn told_by(outcome: Outcome) -> Result<Answer, Fault>
    ensures { result ≡ told_by outcome }
{
    match outcome {
        Outcome::Answered(answer) => Ok(answer),
        Outcome::Refused { place, rule } => Err(Fault::Broken(place, rule)),
    }
}

/// The status of the response to an ask that is answered so.
pub(crate) fn status_of(told: &Result<Answer, Fault>) -> u16
    ensures { result ≡ status_of told.now }
{
    match told {
        Ok(_) => 200,
        Err(fault) => fault.status(),
    }
}

/// Its body.
///
/// # Errors
///
/// [`NoMemory`] where memory runs out.
pub(crate) fn body_of(alloc: Global, told: &Result<Answer, Fault>) -> Result<Bytes, NoMemory>
    ensures { IfOk result (λ body. body ≡ body_of told.now) }
{
    match told {
        Ok(answer) => answer_text(alloc, answer),
        Err(fault) => refusal_body(alloc, *fault),
    }
}

/// The body of the response to an ask that has the fault.
fn refusal_body(alloc: Global, fault: Fault) -> Result<Bytes, NoMemory>
    ensures { IfOk result (λ body. body ≡ body_of (Rattle.std.specs.Prelude.Err fault)) }
{
    let message = format!(in alloc; "{}", fault)?;
    refusal_text(alloc, fault.status(), message.as_str())
}
