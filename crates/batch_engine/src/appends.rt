ghost use Rattle.std.specs.Prelude.{◌≡◌, IfOk, IfSome, IsSomeAnd};
ghost use Rattle.dimension_ops.specs.Rules.{IsUnlessNoMemory};
ghost use Rattle.world_model.specs.Sound.{place_sheet_with};
ghost use Rattle.values_api.specs.Ranges.{IsThere};
ghost use Rattle.request_kinds.specs.Telling.{IsDoneTo};
ghost use Rattle.batch_engine.specs.Calls.{IsAppendOf, IsChange};
ghost use Rattle.batch_engine.specs.Values.{inserts, IsAppendOn, IsAppended, IsTextOf};

use crate::answers::{rule_of, update_of};
use crate::targets::target;
use cell_value::{Block, Duplicate, NoMemory, Text};
use dimension_ops::{Book, RuleOr};
use grid_range::Area;
use sheets_json::{Answer, InsertData, ShapeFault, Update, ValueRange};
use std::alloc::Global;
use values_api::{append_values, range_text};

/// What an append did, as it is told: the range of the table, if there was one, and what was written.
type Appended = (Option<Text>, Update);

/// Appends what a body says to the table of a range: the answer, and the spreadsheet after it.
pub(crate) fn append(
    alloc: Global,
    book: &Book,
    user: &str,
    range: &str,
    option: Option<InsertData>,
    values: &Result<ValueRange, ShapeFault>,
) -> Result<(Answer, Book), RuleOr>
    ensures { IsUnlessNoMemory (IsChange (IsAppendOf user.now range.now option values.now book.now) book.now) result }
{
    let spreadsheet_id = book.id().duplicate()?;
    let mut after = book.duplicate()?;
    let insert = inserts(option);
    let (table_range, updates) = appended(alloc, &mut after, user, range, insert, values)?;
    let answer = Answer::Append {
        spreadsheet_id,
        table_range,
        updates,
    };
    Ok((answer, after))
}

/// Appends what a body says to the table of a range of the spreadsheet.
fn appended(
    alloc: Global,
    book: &mut Book,
    user: &str,
    range: &str,
    insert: bool,
    values: &Result<ValueRange, ShapeFault>,
) -> Result<Appended, RuleOr>
    ensures { IsUnlessNoMemory
        (IsDoneTo (IsAppended user.now range.now insert book.old values.now) book.old book.new) result }
{
    match values {
        Ok(values) => {
            let (area, _) = target(alloc, book, range, values.range.as_ref())?;
            add(alloc, book, user, &area, insert, &values.block)
        }
        Err(fault) => Err(RuleOr::Rule(rule_of(*fault))),
    }
}

/// Appends values to the table of an area of the spreadsheet.
fn add(
    alloc: Global,
    book: &mut Book,
    user: &str,
    area: &Area,
    insert: bool,
    block: &Block,
) -> Result<Appended, RuleOr>
    requires { IsThere book.old.sheets area.now }
    ensures { IsSomeAnd (place_sheet_with area.now.sheet book.old.sheets) (λ sheet. IsUnlessNoMemory
        (IsDoneTo (IsAppendOn user.now book.old insert block.now area.now sheet) book.old book.new) result) }
{
    let (table, written) = append_values(alloc, book, user, area, insert, block)?;
    let table_range = text_of(alloc, book, table)?;
    Ok((table_range, update_of(alloc, book, &written)?))
}

/// The area, if there is one, as text.
fn text_of(alloc: Global, book: &Book, area: Option<Area>) -> Result<Option<Text>, NoMemory>
    requires { IfSome area (IsThere book.now.sheets) }
    ensures { IfOk result (IsTextOf area book.now.sheets) }
{
    match area {
        Some(area) => Ok(Some(range_text(alloc, book, &area)?)),
        None => Ok(None),
    }
}

/// Whether rows are inserted for the values.
fn inserts(option: Option<InsertData>) -> bool
    ensures { result ≡ inserts option }
{
    matches!(option, Some(InsertData::InsertRows))
}
