ghost use Rattle.std.specs.Prelude.{◌≡◌, ◌≢◌, ◌≤◌, ℕ, ◌++◌, IfOk, IfSome, IsTrue, codes};
ghost use Rattle.std.specs.Option.{option_and_then};
ghost use Rattle.cell_value.specs.FaultCount.{Rose};
ghost use Rattle.history_lock.specs.History.{StartsWith};
ghost use Rattle.history_lock.specs.Passes.{seen_by, number_of, given_by, count_of, drawing_of, met_by};
ghost use Rattle.sheets_http.specs.Users.{user_of};
ghost use Rattle.sheets_http.specs.Responses.{IsServedStatus};
ghost use Rattle.desk.specs.Points.{IsCallAt, AreCountsOf};
ghost use Rattle.desk.specs.Desks.{IsPass, pair_at, callers_at};
ghost use Rattle.conversation.specs.Conversation.{at_moment, IsConversation, EndsAs, Counts, LosesFirst};
ghost use Rattle.conversation.specs.Responses.{IsSaid};
ghost use Rattle.connections.specs.Calls.{IsAnswer, ask_of, response_of};

use cell_value::{NoMemory, Text};
use conversation::{Ended, Replies, Said};
use desk::{Ask, Desk, Engine, Keeper, Noted, Pass, Reply};
use history_lock::Drawing;
use sheets_http::{Duplex, Users, Wire, response_text};
use std::alloc::Global;
use std::collections::LinkedList;
use std::marker::Model;
use std::sync::Wait;

/// Answers the requests of one connection by calls of a shared desk. The pass is of the desk.
struct Caller<'a, E: Engine, K: Keeper> {
    alloc: Global,
    desk: &'a Desk<E, K>,
    users: &'a Users,
    pass: Pass,
}

impl<'a, E: Engine, K: Keeper> Model for Caller<'a, E, K> {
    ghost use Rattle.desk.specs.Desks.{IsPass};
    ghost use Rattle.connections.specs.Calls.{Calling};

    ghost Value = { Calling E K E.World E.Asked };

    ghost view = { λ c. record { desk = c.desk.now; users = c.users.now; pass = c.pass } };

    ghost invariant = { λ c. IsPass c.desk.now c.pass };
}

impl<E: Engine, K: Keeper> Replies for Caller<'_, E, K> {
    ghost use Rattle.history_lock.specs.Passes.{seen_by, number_of, given_by, count_of, drawing_of, met_by};
    ghost use Rattle.connections.specs.Calls.{IsAnswer};

    type Context = (
        Desk<E, K>,
        Users,
        u32,
        Option<u64>,
        u64,
        Drawing,
        LinkedList<(u64, u64)>,
    );

    type Point = LinkedList<Noted>;

    ghost about = { λ caller. (
      caller.desk,
      caller.users,
      number_of caller.pass,
      given_by caller.pass,
      count_of caller.pass,
      drawing_of caller.pass,
      met_by caller.pass,
    ) };

    ghost at = { λ caller. seen_by caller.pass };

    ghost answers = { λ about. IsAnswer E.plain K.failures K.steady about.0 about.1 about.2 };

    fn reply<R: Wait>(self, rt: &R, request: Wire) -> (Self, Said) {
        let close = request.close;
        match ask_of(self.alloc, self.users, request) {
            Err(NoMemory) => (self, Said::Constant),
            Ok(ask) => {
                E::served_outcomes();
                let (caller, reply) = self.call(rt, &ask);
                let said = say(caller.alloc, close, reply);
                (caller, said)
            }
        }
    }
}

impl<'a, E: Engine, K: Keeper> Caller<'a, E, K> {
    fn call<R: Wait>(self, rt: &R, ask: &Ask) -> (Caller<'a, E, K>, Reply)
        ensures same { (result.0.desk ≡ self.entry.desk) × (result.0.users ≡ self.entry.users) }
        ensures number { number_of result.0.pass ≡ number_of self.entry.pass }
        ensures drawn { (given_by result.0.pass ≡ given_by self.entry.pass)
            × (count_of result.0.pass ≡ count_of self.entry.pass)
            × (drawing_of result.0.pass ≡ drawing_of self.entry.pass) }
        ensures met { met_by result.0.pass ≡ met_by self.entry.pass }
        ensures call { IsCallAt E.plain (pair_at self.entry.desk) (callers_at self.entry.desk)
            (number_of self.entry.pass) ask.now (seen_by self.entry.pass) (seen_by result.0.pass) result.1 }
        ensures faults { (before : K) × (after : K) × AreCountsOf K.failures K.steady result.1.faults before after }
    {
        let Caller {
            alloc,
            desk,
            users,
            pass,
        } = self;
        let (pass, reply) = desk.call(rt, pass, ask);
        let caller = Caller {
            alloc,
            desk,
            users,
            pass,
        };
        (caller, reply)
    }

    fn into_pass(self) -> Pass
        ensures { (result ≡ self.entry.pass) × IsPass self.entry.desk result }
    {
        let Caller {
            alloc: _,
            desk: _,
            users: _,
            pass,
        } = self;
        pass
    }
}

// What a request asks of a desk.
fn ask_of(alloc: Global, users: &Users, request: Wire) -> Result<Ask, NoMemory>
    ensures { IfOk result (λ ask. ask ≡ ask_of users.now request) }
{
    let user = user_asking(alloc, users, &request.user_token)?;
    let target = target_of(alloc, &request)?;
    let Wire {
        method: _,
        target: _,
        user_token: _,
        project,
        coded,
        close: _,
        body,
    } = request;
    Ok(Ask {
        user,
        project,
        target,
        coded,
        body,
    })
}

// The user of a token, where it is known.
fn user_asking(alloc: Global, users: &Users, token: &Option<Text>) -> Result<Option<Text>, NoMemory>
    ensures { IfOk result (λ user. user ≡ option_and_then (user_of users.now) token.now) }
{
    let Some(token) = token else {
        return Ok(None);
    };
    match users.user_of(token.as_str()) {
        Some(user) => Ok(Some(Text::of(String::from_str(alloc, user)?))),
        None => Ok(None),
    }
}

// The method, a space and the target.
fn target_of(alloc: Global, request: &Wire) -> Result<Text, NoMemory>
    ensures { IfOk result (λ target. target ≡ request.now.method ++ codes " " ++ request.now.target) }
{
    let method = request.method.as_str();
    let target = request.target.as_str();
    Ok(Text::of(format!(in alloc; "{method} {target}")?))
}

// What is said in place of a reply's response. There is none where no memory is left for it.
fn say(alloc: Global, close: bool, reply: Reply) -> Said
    requires { IfSome reply.body (λ _. IsServedStatus reply.status) }
    ensures { IsSaid (λ response. response ≡ response_of close reply) close result }
{
    let Reply {
        status,
        body,
        at: _,
        faults: _,
    } = reply;
    let Some(body) = body else {
        return Said::Constant;
    };
    match response_text(alloc, status, close, body.as_slice()) {
        Ok(text) => Said::Response(text),
        Err(NoMemory) => Said::Lost,
    }
}

/// Serves one connection at a shared desk, and gives the pass back. Each request is answered by a call at a point of
/// the desk's history, behind all that the pass has seen, and a head that is refused by its closing response. A request
/// is made by the user of its token. At most `most` bytes are served.
///
/// Where it was cut off by a fault or by want of memory, the first requests were answered whole, and at most one more
/// was begun. Nothing is held of the desk while the link is read or written.
pub fn converse<R: Wait, L: Duplex, E: Engine, K: Keeper>(
    rt: &R,
    alloc: Global,
    link: &mut L,
    desk: &Desk<E, K>,
    users: &Users,
    pass: Pass,
    most: u64,
) -> (Ended, Pass)
    requires { IsPass desk.now pass }
    ensures pass { IsPass desk.now result.1 }
    ensures number { number_of result.1 ≡ number_of pass }
    ensures drawn { (given_by result.1 ≡ given_by pass) × (count_of result.1 ≡ count_of pass)
        × (drawing_of result.1 ≡ drawing_of pass) }
    ensures met { met_by result.1 ≡ met_by pass }
    ensures begins { StartsWith (seen_by result.1) (seen_by pass) }

    // What was answered and written, whatever the link tells of itself.
    ensures served { IsConversation (IsAnswer E.plain K.failures K.steady desk.now users.now (number_of pass)) most
        (L.left link.old)
        (at_moment (seen_by pass) (L.written link.old) (L.sink_shortages link.old))
        (at_moment (seen_by result.1) (L.written link.new) (L.sink_shortages link.new)) result.0 }

    // It ends as the talk of the stream does, or was cut off, and doesn't give up by itself.
    ensures ends { IfSome (L.left link.old) (λ bytes. EndsAs most bytes result.0) }
    ensures shortages { L.sink_shortages link.old ≤ L.sink_shortages link.new }

    // What the link has left is what it had, without its first bytes.
    ensures left { LosesFirst (L.left link.old) (L.left link.new) }
    ensures read { result.0 ≡ Ended.ReadFault → Rose (L.faults link.old) (L.faults link.new) }
    ensures write { result.0 ≡ Ended.WriteFault → Rose (L.sink_faults link.old) (L.sink_faults link.new) }
    ensures steady_read { IsTrue (L.steady link.old) → result.0 ≢ Ended.ReadFault }
    ensures steady_write { IsTrue (L.sink_steady link.old) → result.0 ≢ Ended.WriteFault }

    ensures input { Counts (L.faults link.old) (L.faults link.new) (L.steady link.old) (L.steady link.new) }
    ensures output { Counts (L.sink_faults link.old) (L.sink_faults link.new) (L.sink_steady link.old)
        (L.sink_steady link.new) }
    ensures references { L.references link.new ≡ L.references link.old }
{
    let caller = Caller {
        alloc,
        desk,
        users,
        pass,
    };
    let (ended, caller) = conversation::converse(rt, alloc, caller, link, most);
    (ended, caller.into_pass())
}
