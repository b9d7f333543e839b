ghost use Rattle.values_api.specs.Ranges.{IsThere};

use crate::common::{Written, check, opening, write};
use cell_calc::Table;
use cell_value::{Cell, Items, NoMemory, Render};
use dimension_ops::Book;
use grid_range::Area;
use std::alloc::Global;
use std::process::Abort;
use values_api::{calculate_shown, clear_values, read_values, resolve};

/// What a cell shows.
#[derive(Clone, Copy, Debug)]
pub(crate) enum Shown {
    Text(&'static str),
    Number(i64),
    Truth(bool),
}

/// A range, whether it is read by columns, how its cells are shown, and what they show, line by line.
struct Read {
    range: &'static str,
    columns_first: bool,
    render: Render,
    lines: &'static [&'static [Shown]],
}

/// Reads of a sheet with the number 1 in A1, the text `x` in B1, TRUE in A2 and the number 5 in D4.
static READS: [Read; 8] = [
    Read {
        range: "Sheet1!A1:B2",
        columns_first: false,
        render: Render::Formatted,
        lines: &[
            &[Shown::Text("1"), Shown::Text("x")],
            &[Shown::Text("TRUE")],
        ],
    },
    Read {
        range: "A1:B2",
        columns_first: true,
        render: Render::Formatted,
        lines: &[
            &[Shown::Text("1"), Shown::Text("TRUE")],
            &[Shown::Text("x")],
        ],
    },
    Read {
        range: "A1:B2",
        columns_first: false,
        render: Render::Unformatted,
        lines: &[&[Shown::Number(1), Shown::Text("x")], &[Shown::Truth(true)]],
    },
    Read {
        range: "Sheet1",
        columns_first: false,
        render: Render::Formula,
        lines: &[
            &[Shown::Number(1), Shown::Text("x")],
            &[Shown::Truth(true)],
            &[],
            &[
                Shown::Text(""),
                Shown::Text(""),
                Shown::Text(""),
                Shown::Number(5),
            ],
        ],
    },
    Read {
        range: "B:D",
        columns_first: true,
        render: Render::Formatted,
        lines: &[
            &[Shown::Text("x")],
            &[],
            &[
                Shown::Text(""),
                Shown::Text(""),
                Shown::Text(""),
                Shown::Text("5"),
            ],
        ],
    },
    Read {
        range: "A3:D3",
        columns_first: false,
        render: Render::Formatted,
        lines: &[],
    },
    Read {
        range: "C4:Z",
        columns_first: false,
        render: Render::Unformatted,
        lines: &[&[Shown::Text(""), Shown::Number(5)]],
    },
    Read {
        range: "D4",
        columns_first: true,
        render: Render::Formatted,
        lines: &[&[Shown::Text("5")]],
    },
];

/// What is written to the sheet that is read.
static STORED: [(u32, u32, Written); 4] = [
    (0, 0, Written::Number(1)),
    (0, 1, Written::Text("x")),
    (1, 0, Written::Truth(true)),
    (3, 3, Written::Number(5)),
];

/// Writes that. False where memory runs out.
fn store(alloc: Global, book: &mut Book) -> bool {
    for cell in &STORED {
        if !write(book, alloc, cell.0, cell.1, cell.2) {
            return false;
        }
    }
    true
}

/// Whether the range is read so.
fn is_read(alloc: Global, book: &Book, read: &Read) -> bool {
    match resolve(alloc, book, read.range) {
        Ok(found) => match lines(alloc, book, &found.0, read.columns_first, read.render) {
            Ok(shown) => are_lines(shown.as_slice(), read.lines),
            Err(_) => false,
        },
        Err(_) => false,
    }
}

/// What the area shows, line by line.
pub(crate) fn lines(
    alloc: Global,
    book: &Book,
    area: &Area,
    columns_first: bool,
    render: Render,
) -> Result<Items<Items<Cell>>, NoMemory>
    requires { IsThere book.now.sheets area.now }
{
    let mut table = Table::new(alloc);
    calculate_shown(alloc, book, &mut table, area, render)?;
    let shown = read_values(alloc, book, &table, area, columns_first, render)?;
    Ok(shown.values)
}

/// Whether the lines show just that.
pub(crate) fn are_lines(lines: &[Items<Cell>], wanted: &[&[Shown]]) -> bool {
    lines.len() == wanted.len()
        && lines
            .iter()
            .zip(wanted)
            .all(|(line, wanted)| are_cells(line.as_slice(), wanted))
}

/// Whether the cells show just that.
fn are_cells(cells: &[Cell], wanted: &[Shown]) -> bool {
    cells.len() == wanted.len()
        && cells
            .iter()
            .zip(wanted)
            .all(|(cell, wanted)| is_cell(cell, wanted))
}

/// Whether the cell shows that.
fn is_cell(cell: &Cell, wanted: &Shown) -> bool {
    match cell {
        Cell::Text(text) => matches!(wanted, Shown::Text(wanted) if text.as_str() == *wanted),
        Cell::Number(number) => matches!(wanted, Shown::Number(wanted) if number == wanted),
        Cell::Truth(truth) => matches!(wanted, Shown::Truth(wanted) if truth == wanted),
    }
}

#[test]
fn areas_are_read(rt: HostRuntime) {
    match opening(rt.alloc()) {
        Some(mut book) => check_reads(&rt, rt.alloc(), &mut book),
        None => check(&rt, &"memory", false),
    }
}

/// Stops where the empty sheet isn't written to, or an area of it isn't read so then.
fn check_reads(rt: &impl Abort, alloc: Global, book: &mut Book) {
    check(rt, &"memory", store(alloc, book));
    for read in &READS {
        check(rt, &read.range, is_read(alloc, book, read));
    }
}

/// Ranges that are cleared one after another, and how many cells are stored then.
static CLEARED: [(&str, u64); 5] = [
    ("A1:B1", 2),
    ("C:C", 2),
    ("E5:Z", 2),
    ("Sheet1!2:2", 1),
    ("Sheet1", 0),
];

/// Clears the range. False where memory runs out.
fn clear(alloc: Global, book: &mut Book, range: &str) -> bool {
    match resolve(alloc, book, range) {
        Ok(found) => clear_values(book, "owner", &found.0).is_ok(),
        Err(_) => false,
    }
}

#[test]
fn areas_are_cleared(rt: HostRuntime) {
    match opening(rt.alloc()) {
        Some(mut book) => check_clears(&rt, rt.alloc(), &mut book),
        None => check(&rt, &"memory", false),
    }
}

/// Stops where the empty sheet isn't written to, or an area of it isn't cleared then.
fn check_clears(rt: &impl Abort, alloc: Global, book: &mut Book) {
    check(rt, &"memory", store(alloc, book));
    for row in &CLEARED {
        check(rt, row, clear(alloc, book, row.0));
        check(rt, row, book.filled() == row.1);
    }
}
