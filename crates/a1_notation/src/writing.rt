ghost use Rattle.std.specs.Prelude.{◌≡◌, ◌<◌, ◌≤◌, length, IfOk, string_bytes, Some};
ghost use Rattle.grid_range.specs.declared.band.Band.TheVariants.{Span};
ghost use Rattle.a1_notation.specs.declared.a1.Part.TheVariants.{Cells};
ghost use Rattle.a1_notation.specs.Range.{Names};
ghost use Rattle.a1_notation.specs.Canonical.{IsStretch, canonical, cell_text, is_one_line};

use crate::column::{NAMED_COLUMNS, column_text};
use crate::row::NUMBERED_ROWS;
use crate::title::quote_name;
use cell_value::{NoMemory, Text};
use std::alloc::Global;

/// The text of an area of a sheet, with both ends: the title as [`quote_name`] prints it, `!`, and the
/// area's first and last cell, or its only one. `rows` and `cols` are the first line and the line past
/// the last one, counted from 0.
///
/// # Errors
///
/// [`NoMemory`] where memory runs out.
pub fn write_a1(
    alloc: Global,
    title: &str,
    rows: (u32, u32),
    cols: (u32, u32),
) -> Result<Text, NoMemory>
    requires title { 0 < length title.now }
    requires rows { IsStretch rows NUMBERED_ROWS }
    requires cols { IsStretch cols NAMED_COLUMNS }
    ensures canonical { IfOk result (λ text. text ≡ canonical title.now rows cols) }
    ensures reads_back { IfOk result (λ text. Names 3 text
        (record { sheet = Some title.now; part = Cells (Span rows.0 rows.1) (Span cols.0 cols.1) })) }
{
    let sheet = quote_name(alloc, title)?;
    let first = cell_text(alloc, rows.0, cols.0)?;
    let text = if is_one_line(rows) && is_one_line(cols) {
        format!(in alloc; "{}!{}", sheet.as_str(), first.as_str())?
    } else {
        let last = cell_text(alloc, rows.1 - 1, cols.1 - 1)?;
        format!(in alloc; "{}!{}:{}", sheet.as_str(), first.as_str(), last.as_str())?
    };
    Ok(Text::of(text))
}

/// Whether a stretch of lines, from the first to the one before the end, has one line.
fn is_one_line(lines: (u32, u32)) -> bool
    ensures { result ≡ is_one_line lines }
{
    lines.0 as u64 + 1 == lines.1 as u64
}

/// The text of a cell.
fn cell_text(alloc: Global, row: u32, column: u32) -> Result<Text, NoMemory>
    requires row { row < NUMBERED_ROWS }
    requires column { column < NAMED_COLUMNS }
    ensures { IfOk result (λ text. text ≡ cell_text row column) }
{
    let mut text = column_text(alloc, column)?.into_string();
    write!(text, "{}", row + 1)?;
    Ok(Text::of(text))
}
