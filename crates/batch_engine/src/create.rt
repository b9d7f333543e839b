ghost use Rattle.std.specs.Prelude.{◌≡◌, ◌<◌, IfOk, codes, false, get_or, length};
ghost use Rattle.dimension_ops.specs.Rules.{IsUnlessNoMemory};
ghost use Rattle.world_model.specs.Book.{PlaceBook};
ghost use Rattle.batch_engine.specs.Calls.{IsMaking};
ghost use Rattle.batch_engine.specs.Create.{IsCreateOf, IsMadeFor, title_or_untitled};
ghost use Rattle.batch_engine.specs.Looks.{spreadsheet_alone};

use crate::answers::rule_of;
use crate::looks::spreadsheet_alone;
use cell_value::{Duplicate, NoMemory};
use dimension_ops::{RuleOr, World};
use sheets_json::{Answer, NewSpreadsheet, ShapeFault, Spreadsheet};
use std::alloc::Global;

/// Makes a spreadsheet for its owner: the answer, and the spreadsheets after it.
pub(crate) fn create(
    alloc: Global,
    world: &World,
    owner: &str,
    spreadsheet: &Result<NewSpreadsheet, ShapeFault>,
) -> Result<(Answer, World), RuleOr>
    ensures { IsUnlessNoMemory (IsMaking (IsCreateOf owner.now spreadsheet.now world.now) world.now) result }
{
    match spreadsheet {
        Ok(asked) => make(alloc, world, owner, asked),
        Err(fault) => Err(RuleOr::Rule(rule_of(*fault))),
    }
}

/// Makes the spreadsheet that is asked for, behind all others, which are shared with those before.
fn make(
    alloc: Global,
    world: &World,
    owner: &str,
    asked: &NewSpreadsheet,
) -> Result<(Answer, World), RuleOr>
    ensures { IsUnlessNoMemory (IsMaking (IsMadeFor owner.now asked.now world.now) world.now) result }
{
    let mut next = world.duplicate()?;
    match next.add_book(owner, title_or_untitled(asked), &asked.sheets) {
        Ok(_) => Ok((
            Answer::Create(shown_at(alloc, &next, owner, world.count())?),
            next,
        )),
        Err(fault) => Err(fault),
    }
}

/// The title that is given, or else the one of a spreadsheet without.
fn title_or_untitled(asked: &NewSpreadsheet) -> &str
    ensures { result.now ≡ title_or_untitled asked.now }
{
    match &asked.title {
        Some(title) => title.as_str(),
        None => "Untitled spreadsheet",
    }
}

/// The spreadsheet behind so many others, as its owner is shown it.
fn shown_at(alloc: Global, world: &World, owner: &str, at: u64) -> Result<Spreadsheet, NoMemory>
    requires there { at < length world.now }
    requires few { at < 4294967296 }
    ensures { IfOk result (λ shown. (other : PlaceBook) →
        shown ≡ spreadsheet_alone owner.now (get_or world.now at other)) }
{
    let book = world.at(at as u32).unwrap();
    spreadsheet_alone(alloc, book, owner)
}
