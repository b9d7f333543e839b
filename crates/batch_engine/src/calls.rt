ghost use Rattle.std.specs.Prelude.{◌≡◌, Some, None, IfOk};
ghost use Rattle.std.specs.Option.{IsSome};
ghost use Rattle.dimension_ops.specs.ByName.{ReplacesByName};
ghost use Rattle.dimension_ops.specs.World.{book_with};
ghost use Rattle.batch_engine.specs.Calls.{HasItsBook, AreNext, IsApplied, IsInstalled, alone, told_as, as_told};

use crate::answers::{clear, read, write};
use crate::appends::append;
use crate::batch::batch;
use crate::create::create;
use crate::filtered::read_filtered;
use crate::lists::{Refusal, clear_many, read_many, write_many};
use crate::looks::look;
use crate::searches::{item, search};
use cell_value::{Duplicate, NoMemory, Text};
use dimension_ops::{Book, Rule, RuleOr, World};
use sheets_json::{Answer, Call, Place};
use std::alloc::Global;

/// Who makes a call.
#[derive(Debug, Drop)]
pub struct Caller {
    /// The user.
    pub user: Text,
    /// The project under which metadata is seen; it may be empty.
    pub project: Text,
}

/// What becomes of a call.
#[derive(Debug, Drop)]
pub enum Outcome {
    /// It is answered so.
    Answered(Answer),
    /// It, or its member at the place, breaks the rule.
    Refused {
        /// Where the rule is broken.
        place: Place,
        /// The rule.
        rule: Rule,
    },
}

/// What a call makes of the spreadsheets, and what becomes of it.
#[derive(Drop)]
pub struct Applied {
    /// The spreadsheets after it, where it is one that writes or makes a spreadsheet, and is answered; the others
    /// are shared with those before it.
    pub next: Option<World>,
    /// What becomes of the call.
    pub outcome: Outcome,
}

/// Makes a call of its caller on the spreadsheets, which stay as they are: what they are after it is told (Sheets API
/// v4 reference, spreadsheets, spreadsheets.values and spreadsheets.developerMetadata). A batch and a list are done in
/// their order, each member on what those before it leave, and the first member that breaks a rule refuses the call.
///
/// # Errors
///
/// [`NoMemory`] where memory runs out.
pub fn apply(
    alloc: Global,
    world: &World,
    caller: &Caller,
    call: &Call,
) -> Result<Applied, NoMemory>
    requires { HasItsBook call.now world.now }
    ensures { IfOk result (λ applied. IsApplied caller.now call.now world.now applied.outcome applied.next) }
{
    match call {
        Call::Read {
            id,
            range,
            major_dimension,
            value_render_option,
        } => {
            let book = book_of(world, id.as_str());
            let (dimension, render) = (*major_dimension, *value_render_option);
            let told = judged(read(alloc, book, range.as_str(), dimension, render))?;
            Ok(unchanged(alone(told)))
        }
        Call::ReadMany {
            id,
            ranges,
            major_dimension,
            value_render_option,
        } => {
            let book = book_of(world, id.as_str());
            let (dimension, render) = (*major_dimension, *value_render_option);
            let told = read_many(alloc, book, ranges.as_slice(), dimension, render)?;
            Ok(unchanged(told))
        }
        Call::Write {
            id,
            range,
            values,
            ..
        } => {
            let book = book_of(world, id.as_str());
            let user = caller.user.as_str();
            let told = judged(write(alloc, book, user, range.as_str(), values))?;
            changed(world, alone(told))
        }
        Call::WriteMany { id, data, .. } => {
            let book = book_of(world, id.as_str());
            let user = caller.user.as_str();
            changed(world, write_many(alloc, book, user, data.as_slice())?)
        }
        Call::Append {
            id,
            range,
            insert_data_option,
            values,
            ..
        } => {
            let book = book_of(world, id.as_str());
            let user = caller.user.as_str();
            let option = *insert_data_option;
            let told = judged(append(alloc, book, user, range.as_str(), option, values))?;
            changed(world, alone(told))
        }
        Call::Clear { id, range } => {
            let book = book_of(world, id.as_str());
            let user = caller.user.as_str();
            let told = judged(clear(alloc, book, user, range.as_str()))?;
            changed(world, alone(told))
        }
        Call::ClearMany { id, ranges } => {
            let book = book_of(world, id.as_str());
            let user = caller.user.as_str();
            changed(world, clear_many(alloc, book, user, ranges.as_slice())?)
        }
        Call::Batch { id, requests } => {
            let book = book_of(world, id.as_str());
            let user = caller.user.as_str();
            let project = caller.project.as_str();
            changed(
                world,
                batch(alloc, book, user, project, requests.as_slice())?,
            )
        }
        Call::Get {
            id,
            include_grid_data,
        } => {
            let book = book_of(world, id.as_str());
            let shown = look(alloc, book, caller.user.as_str(), *include_grid_data)?;
            Ok(unchanged(Ok(Answer::Get(shown))))
        }
        Call::Create { spreadsheet } => {
            let told = judged(create(alloc, world, caller.user.as_str(), spreadsheet))?;
            Ok(made(alone(told)))
        }
        Call::ReadFiltered {
            id,
            data_filters,
            major_dimension,
            value_render_option,
        } => {
            let book = book_of(world, id.as_str());
            let project = caller.project.as_str();
            let filters = data_filters.as_slice();
            let (dimension, render) = (*major_dimension, *value_render_option);
            let told = read_filtered(alloc, book, project, filters, dimension, render)?;
            Ok(unchanged(told))
        }
        Call::Item { id, metadata_id } => {
            let book = book_of(world, id.as_str());
            let project = caller.project.as_str();
            let told = judged(item(book, project, *metadata_id))?;
            Ok(unchanged(alone(told)))
        }
        Call::Search { id, data_filters } => {
            let book = book_of(world, id.as_str());
            let project = caller.project.as_str();
            Ok(unchanged(search(alloc, book, project, data_filters.as_slice())?))
        }
    }
}

/// The spreadsheet with the id, which is there.
fn book_of<'a>(world: &'a World, id: &str) -> &'a Book
    requires { IsSome (book_with id.now world.now) }
    ensures { book_with id.now world.now ≡ Some result.now }
{
    world.find(id).unwrap()
}

/// What came of a call, where memory didn't run out.
pub(crate) fn judged<T: Drop>(told: Result<T, RuleOr>) -> Result<Result<T, Rule>, NoMemory>
    ensures { IfOk result (λ judged. told ≡ as_told judged) }
{
    match told {
        Ok(told) => Ok(Ok(told)),
        Err(RuleOr::Rule(rule)) => Ok(Err(rule)),
        Err(RuleOr::NoMemory) => Err(NoMemory),
    }
}

/// What is told of a call that has no members.
fn alone<T: Drop>(told: Result<T, Rule>) -> Result<T, Refusal>
    ensures { result ≡ alone told }
{
    match told {
        Ok(told) => Ok(told),
        Err(rule) => Err((Place::Alone, rule)),
    }
}

/// A call that makes nothing of the spreadsheets.
fn unchanged(told: Result<Answer, Refusal>) -> Applied
    ensures outcome { result.outcome ≡ told_as told }
    ensures next { result.next ≡ None }
{
    Applied {
        next: None,
        outcome: match told {
            Ok(answer) => Outcome::Answered(answer),
            Err((place, rule)) => Outcome::Refused { place, rule },
        },
    }
}

/// A call that makes a spreadsheet, unless it breaks a rule.
fn made(told: Result<(Answer, World), Refusal>) -> Applied
    ensures { AreNext told result.outcome result.next }
{
    match told {
        Ok((answer, next)) => Applied {
            next: Some(next),
            outcome: Outcome::Answered(answer),
        },
        Err(refusal) => unchanged(Err(refusal)),
    }
}

/// A call that changes a spreadsheet, unless it breaks a rule.
fn changed(world: &World, told: Result<(Answer, Book), Refusal>) -> Result<Applied, NoMemory>
    requires { IfOk told (λ done. IsSome (book_with done.1.id world.now)) }
    ensures { IfOk result (λ applied. IsInstalled world.now told applied.outcome applied.next) }
{
    match told {
        Ok((answer, book)) => Ok(Applied {
            next: Some(with_book(world, book)?),
            outcome: Outcome::Answered(answer),
        }),
        Err(refusal) => Ok(unchanged(Err(refusal))),
    }
}

/// The spreadsheets with that one in the place of the one that has its id; the others are shared.
fn with_book(world: &World, book: Book) -> Result<World, NoMemory>
    requires { IsSome (book_with book.id world.now) }
    ensures { IfOk result (ReplacesByName book world.now) }
{
    let mut next = world.duplicate()?;
    match next.replace(book) {
        Ok(()) => Ok(next),
        Err((_, fault)) => Err(fault),
    }
}
