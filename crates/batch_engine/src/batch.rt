ghost use Rattle.std.specs.Prelude.{IfOk};
ghost use Rattle.dimension_ops.specs.Rules.{IsUnlessNoMemory};
ghost use Rattle.request_kinds.specs.Telling.{IsDoneTo};
ghost use Rattle.batch_engine.specs.Calls.{IsBatchOf, IsChange, IsRequested};
ghost use Rattle.batch_engine.specs.Members.{AreDone};

use crate::answers::rule_of;
use crate::calls::judged;
use crate::lists::Refusal;
use cell_value::{Duplicate, Items, NoMemory};
use dimension_ops::{Book, Rule, RuleOr};
use request_kinds::done;
use sheets_json::{Answer, Place, Reply, Step};
use std::alloc::Global;
use world_model::changes_in_turn;

/// Does requests of a user and a project, in their order, all of them or none: the answer, and the spreadsheet after
/// them. One copy is made for all; its sheets are shared until one is changed.
pub(crate) fn batch(
    alloc: Global,
    book: &Book,
    user: &str,
    project: &str,
    requests: &[Step],
) -> Result<Result<(Answer, Book), Refusal>, NoMemory>
    ensures { IfOk result (IsChange (IsBatchOf user.now project.now requests.now book.now) book.now) }
{
    let mut after = book.duplicate()?;
    match all_requested(alloc, &mut after, user, project, requests)? {
        Ok(replies) => {
            let answer = Answer::Batch {
                replies,
                spreadsheet_id: book.id().duplicate()?,
            };
            Ok(Ok((answer, after)))
        }
        Err((at, rule)) => Ok(Err((Place::Requests(at as u64), rule))),
    }
}

/// Does each request on what those before it leave, up to the first that breaks a rule; that one by its
/// place, or the replies.
fn all_requested(
    alloc: Global,
    book: &mut Book,
    user: &str,
    project: &str,
    requests: &[Step],
) -> Result<Result<Items<Reply>, (usize, Rule)>, NoMemory>
    ensures { IfOk result (AreDone (IsRequested user.now project.now) requests.now book.old book.new) }
{
    changes_in_turn();
    let mut replies = Vec::new(alloc);
    for at in 0..requests.len() {
        match judged(requested(alloc, book, user, project, &requests[at]))? {
            Ok(reply) => replies.push(reply)?,
            Err(rule) => return Ok(Err((at, rule))),
        }
    }
    Ok(Ok(Items::of(replies)))
}

/// Does a request, unless its shape is broken: its reply.
fn requested(
    alloc: Global,
    book: &mut Book,
    user: &str,
    project: &str,
    step: &Step,
) -> Result<Reply, RuleOr>
    ensures { IsUnlessNoMemory (IsDoneTo (IsRequested user.now project.now book.old step.now)
        book.old book.new) result }
{
    match step {
        Step::Read(request) => done(alloc, book, user, project, request),
        Step::Shape(fault) => Err(RuleOr::Rule(rule_of(*fault))),
    }
}
