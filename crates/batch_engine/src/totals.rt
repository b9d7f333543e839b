ghost use Rattle.std.specs.Prelude.{◌≡◌, ◌++◌, ◌==◌, IfOk, map};
ghost use Rattle.std.specs.List.{sum_by};
ghost use Rattle.std.specs.Set.{distinct_count};
ghost use Rattle.batch_engine.specs.Calls.{lines_on, lines_written, same_line, written_answer};

use cell_value::{Duplicate, Items, NoMemory};
use dimension_ops::Book;
use grid_range::Axis;
use sheets_json::{Answer, Update};
use std::alloc::Global;
use values_api::WrittenCells;

/// What several writes are answered. Lines are told apart by their sheets and their numbers.
pub(crate) fn written_answer(
    alloc: Global,
    book: &Book,
    writes: Items<(Update, WrittenCells)>,
) -> Result<Answer, NoMemory>
    ensures { IfOk result (λ answer. answer ≡ written_answer book.now writes) }
{
    let rows = lines_written(alloc, writes.as_slice(), Axis::Rows)?;
    let cols = lines_written(alloc, writes.as_slice(), Axis::Columns)?;
    let sheets = sheets_of(alloc, rows.as_slice())?;
    let cells = cells_written(writes.as_slice())?;
    Ok(Answer::WriteMany {
        responses: responses(alloc, writes)?,
        spreadsheet_id: book.id().duplicate()?,
        total_updated_cells: cells,
        total_updated_columns: different_lines(cols),
        total_updated_rows: different_lines(rows),
        total_updated_sheets: different_sheets(sheets),
    })
}

/// How many cells were written or emptied, those of each write counted.
///
/// # Errors
///
/// [`NoMemory`] where they are more than 64 bits count, which no memory holds.
fn cells_written(writes: &[(Update, WrittenCells)]) -> Result<u64, NoMemory>
    ensures { IfOk result (λ count. count ≡ sum_by (λ wrote. wrote.1.cells) writes.now) }
{
    let mut count = 0_u64;
    for write in writes {
        count = count.checked_add(write.1.cells).ok_or(NoMemory)?;
    }
    Ok(count)
}

/// What each write did, as it is told.
fn responses(
    alloc: Global,
    writes: Items<(Update, WrittenCells)>,
) -> Result<Items<Update>, NoMemory>
    ensures { IfOk result (λ responses. responses ≡ map (λ wrote. wrote.0) writes) }
{
    let mut responses = Vec::new(alloc);
    for (update, _) in writes.into_vec() {
        responses.push(update)?;
    }
    Ok(Items::of(responses))
}

/// The lines with a cell that was written or emptied, each with its sheet's id.
fn lines_written(
    alloc: Global,
    writes: &[(Update, WrittenCells)],
    axis: Axis,
) -> Result<Vec<(u32, u32)>, NoMemory>
    ensures { IfOk result (λ lines. lines.items ≡ lines_written (lines_on axis) writes.now) }
{
    let mut lines = Vec::new(alloc);
    for write in writes {
        add_lines(&mut lines, &write.1, axis)?;
    }
    Ok(lines)
}

/// Adds the lines of a write.
fn add_lines(
    lines: &mut Vec<(u32, u32)>,
    written: &WrittenCells,
    axis: Axis,
) -> Result<(), NoMemory>
    ensures { IfOk result
        (λ _. lines.new.items ≡ lines.old.items
        ++ map (λ line. (written.now.area.sheet, line)) (lines_on axis written.now)) }
{
    for line in lines_on(written, axis) {
        lines.push((written.area.sheet, *line))?;
    }
    Ok(())
}

/// The rows of a write, or its columns.
fn lines_on(written: &WrittenCells, axis: Axis) -> &[u32]
    ensures { result.now ≡ lines_on axis written.now }
{
    match axis {
        Axis::Rows => written.rows.as_slice(),
        Axis::Columns => written.cols.as_slice(),
    }
}

/// The sheets of lines.
fn sheets_of(alloc: Global, lines: &[(u32, u32)]) -> Result<Vec<u32>, NoMemory>
    ensures { IfOk result (λ sheets. sheets.items ≡ map (λ line. line.0) lines.now) }
{
    let mut sheets = Vec::new(alloc);
    for line in lines {
        sheets.push(line.0)?;
    }
    Ok(sheets)
}

/// How many different lines there are.
fn different_lines(mut lines: Vec<(u32, u32)>) -> u64
    ensures { result ≡ distinct_count same_line lines.items }
{
    lines.sort_unstable();
    lines.dedup();
    lines.len() as u64
}

/// How many different sheets there are.
fn different_sheets(mut sheets: Vec<u32>) -> u64
    ensures { result ≡ distinct_count ◌==◌ sheets.items }
{
    sheets.sort_unstable();
    sheets.dedup();
    sheets.len() as u64
}
