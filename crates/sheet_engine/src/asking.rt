ghost use Rattle.std.specs.Prelude.{◌≡◌, IfOk};
ghost use Rattle.sheet_engine.specs.Asks.{names_a_book, lacks_its_book, method_of, target_of, said_on};
ghost use Rattle.sheet_engine.specs.Asks.{read_on, IsReadBy, IsRead, caller_of};

use crate::Fault;
use batch_engine::Caller;
use cell_value::{Duplicate, NoMemory, Text};
use desk::Ask;
use dimension_ops::World;
use sheets_http::{Route, RouteFault, Verb, route};
use sheets_json::{Call, CallFault, read_call};
use std::alloc::Global;

/// What is read of an ask, whichever spreadsheets there are.
#[derive(Drop)]
pub enum Reading {
    /// It has this fault.
    Faulty(Fault),
    /// It is on the spreadsheet of a route, if its call names one. Where that is there, the ask is a call, or has a
    /// fault.
    Routed {
        /// Who makes the call.
        caller: Caller,
        /// The route.
        route: Route,
        /// The call, or its first fault.
        said: Result<Call, Fault>,
    },
}

/// What is read of an ask.
///
/// # Errors
///
/// [`NoMemory`] where memory runs out.
pub(crate) fn read(alloc: Global, ask: &Ask) -> Result<Reading, NoMemory>
    ensures { IfOk result (IsRead ask.now) }
{
    match &ask.user {
        Some(user) => read_by(alloc, user, ask),
        None => Ok(Reading::Faulty(Fault::NoUser)),
    }
}

/// What is read of an ask of that user.
fn read_by(alloc: Global, user: &Text, ask: &Ask) -> Result<Reading, NoMemory>
    ensures { IfOk result (IsReadBy user.now ask.now) }
{
    let (method, target) = split_line(ask.target.as_str());
    match route(alloc, method, target) {
        Ok(route) => read_on(alloc, user, ask, route),
        Err(RouteFault::NoRoute) => Ok(Reading::Faulty(Fault::NoRoute)),
        Err(RouteFault::BadQuery) => Ok(Reading::Faulty(Fault::BadQuery)),
        Err(RouteFault::NoMemory) => Err(NoMemory),
    }
}

/// The method and the request target of a line; without a space it is no call.
fn split_line(line: &str) -> (&str, &str)
    ensures method { result.0.now ≡ method_of line.now }
    ensures target { result.1.now ≡ target_of line.now }
{
    match line.split_once(' ') {
        Some((method, target)) => (method, target),
        None => (line, ""),
    }
}

/// What is read of an ask of that user with that route.
fn read_on(alloc: Global, user: &Text, ask: &Ask, route: Route) -> Result<Reading, NoMemory>
    ensures { IfOk result (λ reading. reading ≡ read_on user.now ask.now route) }
{
    let said = said_on(alloc, ask, &route)?;
    Ok(Reading::Routed {
        caller: caller_of(user, ask)?,
        route,
        said,
    })
}

/// The call that an ask with that route is, where its spreadsheet is there, or its first fault.
fn said_on(alloc: Global, ask: &Ask, route: &Route) -> Result<Result<Call, Fault>, NoMemory>
    ensures { IfOk result (λ said. said ≡ said_on ask.now route.now) }
{
    if ask.coded {
        return Ok(Err(Fault::BadBody));
    }
    match read_call(alloc, route, ask.body.as_slice()) {
        Ok(call) => Ok(Ok(call)),
        Err(CallFault::BadBody) => Ok(Err(Fault::BadBody)),
        Err(CallFault::EmptyBatch) => Ok(Err(Fault::EmptyBatch)),
        Err(CallFault::NoMemory) => Err(NoMemory),
    }
}

/// Whether the spreadsheet that the call is on isn't there.
pub(crate) fn lacks_its_book(world: &World, route: &Route) -> bool
    ensures { result ≡ lacks_its_book world.now route.now }
{
    names_a_book(route.verb) && world.find(route.book.as_str()).is_none()
}

/// Who makes the call of that user's ask.
fn caller_of(user: &Text, ask: &Ask) -> Result<Caller, NoMemory>
    ensures { IfOk result (λ caller. caller ≡ caller_of user.now ask.now) }
{
    Ok(Caller {
        user: user.duplicate()?,
        project: ask.project.duplicate()?,
    })
}

/// Whether the call is on a spreadsheet, as each is but the one that makes one.
fn names_a_book(verb: Verb) -> bool
    ensures { result ≡ names_a_book verb }
{
    !matches!(verb, Verb::Create)
}
