ghost use Rattle.std.specs.Prelude.{◌≡◌, IfOk};
ghost use Rattle.dimension_ops.specs.Rules.{IsUnlessNoMemory};
ghost use Rattle.request_kinds.specs.Telling.{IsDoneTo};
ghost use Rattle.batch_engine.specs.Calls.{IsChange, IsClearManyOf, IsReadManyOf, IsWriteManyOf};
ghost use Rattle.batch_engine.specs.Effects.Effect.{Nothing};
ghost use Rattle.batch_engine.specs.Members.{InOrder, AreDone};
ghost use Rattle.batch_engine.specs.Values.{IsCleared, IsShown, IsUpdated};

use crate::answers::{emptied, rule_of, shown, updated};
use crate::calls::judged;
use crate::totals::written_answer;
use cell_calc::Table;
use cell_value::{Duplicate, Items, NoMemory, Render, Text};
use dimension_ops::{Book, Rule, RuleOr};
use grid_range::Axis;
use sheets_json::{Answer, Place, RangeBlock, ShapeFault, ShownRange, Update};
use std::alloc::Global;
use values_api::WrittenCells;
use world_model::changes_in_turn;

/// Where in a call a rule is broken, and which.
pub(crate) type Refusal = (Place, Rule);

/// What a read of ranges is answered, in their order.
pub(crate) fn read_many(
    alloc: Global,
    book: &Book,
    ranges: &[Text],
    dimension: Option<Axis>,
    render: Option<Render>,
) -> Result<Result<Answer, Refusal>, NoMemory>
    ensures { IfOk result (λ told. IsReadManyOf ranges.now dimension render book.now told Nothing) }
{
    match all_shown(alloc, book, ranges, dimension, render)? {
        Ok(value_ranges) => Ok(Ok(Answer::ReadMany {
            spreadsheet_id: book.id().duplicate()?,
            value_ranges,
        })),
        Err((at, rule)) => Ok(Err((Place::Ranges(at as u64), rule))),
    }
}

/// What each range shows, or the first that breaks a rule, by its place. A value is calculated once for all ranges.
fn all_shown(
    alloc: Global,
    book: &Book,
    ranges: &[Text],
    dimension: Option<Axis>,
    render: Option<Render>,
) -> Result<Result<Items<ShownRange>, (usize, Rule)>, NoMemory>
    ensures { IfOk result (InOrder (IsShown dimension render book.now) 0 ranges.now) }
{
    let mut all = Vec::new(alloc);
    let mut table = Table::new(alloc);
    for at in 0..ranges.len() {
        let range = ranges[at].as_str();
        match judged(shown(alloc, book, &mut table, range, dimension, render))? {
            Ok(range) => all.push(range)?,
            Err(rule) => return Ok(Err((at, rule))),
        }
    }
    Ok(Ok(Items::of(all)))
}

/// Empties the cells of ranges, in their order: the answer, and the spreadsheet after it.
pub(crate) fn clear_many(
    alloc: Global,
    book: &Book,
    user: &str,
    ranges: &[Result<Text, ShapeFault>],
) -> Result<Result<(Answer, Book), Refusal>, NoMemory>
    ensures { IfOk result (IsChange (IsClearManyOf user.now ranges.now book.now) book.now) }
{
    let mut after = book.duplicate()?;
    match all_cleared(alloc, &mut after, user, ranges)? {
        Ok(cleared_ranges) => {
            let answer = Answer::ClearMany {
                cleared_ranges,
                spreadsheet_id: book.id().duplicate()?,
            };
            Ok(Ok((answer, after)))
        }
        Err((at, rule)) => Ok(Err((Place::Ranges(at as u64), rule))),
    }
}

/// Empties the cells of each range up to the first that breaks a rule; that one by its place, or the
/// ranges as texts.
fn all_cleared(
    alloc: Global,
    book: &mut Book,
    user: &str,
    ranges: &[Result<Text, ShapeFault>],
) -> Result<Result<Items<Text>, (usize, Rule)>, NoMemory>
    ensures { IfOk result (AreDone (IsCleared user.now) ranges.now book.old book.new) }
{
    changes_in_turn();
    let mut cleared = Vec::new(alloc);
    for at in 0..ranges.len() {
        match judged(cleared_range(alloc, book, user, &ranges[at]))? {
            Ok(range) => cleared.push(range)?,
            Err(rule) => return Ok(Err((at, rule))),
        }
    }
    Ok(Ok(Items::of(cleared)))
}

/// Empties the cells of a range, unless its shape is broken: the range as text.
fn cleared_range(
    alloc: Global,
    book: &mut Book,
    user: &str,
    range: &Result<Text, ShapeFault>,
) -> Result<Text, RuleOr>
    ensures { IsUnlessNoMemory (IsDoneTo (IsCleared user.now book.old range.now) book.old book.new) result }
{
    match range {
        Ok(range) => emptied(alloc, book, user, range.as_str()),
        Err(fault) => Err(RuleOr::Rule(rule_of(*fault))),
    }
}

/// Writes values to their ranges, in their order: the answer, and the spreadsheet after it.
pub(crate) fn write_many(
    alloc: Global,
    book: &Book,
    user: &str,
    blocks: &[Result<RangeBlock, ShapeFault>],
) -> Result<Result<(Answer, Book), Refusal>, NoMemory>
    ensures { IfOk result (IsChange (IsWriteManyOf user.now blocks.now book.now) book.now) }
{
    let mut after = book.duplicate()?;
    match all_written(alloc, &mut after, user, blocks)? {
        Ok(writes) => Ok(Ok((written_answer(alloc, book, writes)?, after))),
        Err((at, rule)) => Ok(Err((Place::Data(at as u64), rule))),
    }
}

/// Writes values to each of their ranges, up to the first that breaks a rule; that one by its place, or
/// what each write did.
fn all_written(
    alloc: Global,
    book: &mut Book,
    user: &str,
    blocks: &[Result<RangeBlock, ShapeFault>],
) -> Result<Result<Items<(Update, WrittenCells)>, (usize, Rule)>, NoMemory>
    ensures { IfOk result (AreDone (IsUpdated user.now) blocks.now book.old book.new) }
{
    changes_in_turn();
    let mut writes = Vec::new(alloc);
    for at in 0..blocks.len() {
        match judged(updated(alloc, book, user, &blocks[at]))? {
            Ok(write) => writes.push(write)?,
            Err(rule) => return Ok(Err((at, rule))),
        }
    }
    Ok(Ok(Items::of(writes)))
}
