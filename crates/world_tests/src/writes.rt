use crate::common::{check, opening};
use crate::values::{Shown, are_lines, lines};
use cell_value::{Block, Input, Items, Render, Text};
use dimension_ops::{Book, Limit, Rule, RuleOr};
use grid_range::Area;
use std::alloc::Global;
use std::process::Abort;
use values_api::{WrittenCells, range_text, resolve, write_values};

/// A value that is entered.
#[derive(Clone, Copy, Debug)]
enum Entered {
    Null,
    Empty,
    Number(i64),
    Text(&'static str),
    Truth(bool),
    Formula(&'static str),
}

/// What a write answers: the rectangle of the values, and how many rows, columns and cells are updated; or
/// the rule that it breaks.
type Told = Result<(&'static str, usize, usize, u64), Rule>;

/// A range, whether the values are columns, the values, what is answered, and what `A1:C3` shows then.
struct Write {
    range: &'static str,
    columns_first: bool,
    values: &'static [&'static [Entered]],
    told: Told,
    shown: &'static [&'static [Shown]],
}

/// Writes to a sheet with the number 7 in A1 and B1.
static WRITES: [Write; 14] = [
    Write {
        range: "Sheet1!A1:B2",
        columns_first: false,
        values: &[
            &[Entered::Number(1), Entered::Text("x")],
            &[Entered::Truth(true)],
        ],
        told: Ok(("Sheet1!A1:B2", 2, 2, 3)),
        shown: &[&[Shown::Number(1), Shown::Text("x")], &[Shown::Truth(true)]],
    },
    Write {
        range: "A1:B2",
        columns_first: true,
        values: &[
            &[Entered::Number(1), Entered::Text("x")],
            &[Entered::Truth(true)],
        ],
        told: Ok(("Sheet1!A1:B2", 2, 2, 3)),
        shown: &[&[Shown::Number(1), Shown::Truth(true)], &[Shown::Text("x")]],
    },
    Write {
        range: "A3",
        columns_first: false,
        values: &[&[Entered::Number(5), Entered::Number(6)]],
        told: Ok(("Sheet1!A3:B3", 1, 2, 2)),
        shown: &[
            &[Shown::Number(7), Shown::Number(7)],
            &[],
            &[Shown::Number(5), Shown::Number(6)],
        ],
    },
    Write {
        range: "A1",
        columns_first: false,
        values: &[
            &[Entered::Number(1), Entered::Number(2)],
            &[Entered::Number(3), Entered::Number(4)],
        ],
        told: Ok(("Sheet1!A1:B2", 2, 2, 4)),
        shown: &[
            &[Shown::Number(1), Shown::Number(2)],
            &[Shown::Number(3), Shown::Number(4)],
        ],
    },
    Write {
        range: "A1:C2",
        columns_first: false,
        values: &[&[Entered::Null, Entered::Empty], &[Entered::Null]],
        told: Ok(("Sheet1!A1:B2", 1, 1, 1)),
        shown: &[&[Shown::Number(7)]],
    },
    Write {
        range: "B1:B2",
        columns_first: true,
        values: &[&[Entered::Null, Entered::Empty]],
        told: Ok(("Sheet1!B1:B2", 1, 1, 1)),
        shown: &[&[Shown::Number(7), Shown::Number(7)]],
    },
    Write {
        range: "B2:C3",
        columns_first: false,
        values: &[],
        told: Ok(("Sheet1!B2", 0, 0, 0)),
        shown: &[&[Shown::Number(7), Shown::Number(7)]],
    },
    Write {
        range: "B:C",
        columns_first: false,
        values: &[&[], &[], &[Entered::Null, Entered::Number(2)]],
        told: Ok(("Sheet1!B1:C3", 1, 1, 1)),
        shown: &[
            &[Shown::Number(7), Shown::Number(7)],
            &[],
            &[Shown::Text(""), Shown::Text(""), Shown::Number(2)],
        ],
    },
    Write {
        range: "Z1000",
        columns_first: false,
        values: &[&[Entered::Formula("=A1")]],
        told: Ok(("Sheet1!Z1000", 1, 1, 1)),
        shown: &[&[Shown::Number(7), Shown::Number(7)]],
    },
    Write {
        range: "A1:A2",
        columns_first: false,
        values: &[
            &[Entered::Number(1)],
            &[Entered::Number(2)],
            &[Entered::Number(3)],
        ],
        told: Err(Rule::ValuesPastRange),
        shown: &[&[Shown::Number(1), Shown::Number(7)], &[Shown::Number(2)]],
    },
    Write {
        range: "A1:A2",
        columns_first: true,
        values: &[&[], &[Entered::Number(2)]],
        told: Err(Rule::ValuesPastRange),
        shown: &[&[Shown::Number(7), Shown::Number(7)]],
    },
    Write {
        range: "A1:B1",
        columns_first: false,
        values: &[&[Entered::Null, Entered::Null, Entered::Null]],
        told: Err(Rule::ValuesPastRange),
        shown: &[&[Shown::Number(7), Shown::Number(7)]],
    },
    Write {
        range: "Z1000",
        columns_first: false,
        values: &[&[Entered::Number(1), Entered::Number(2)]],
        told: Err(Rule::ValuesPastRange),
        shown: &[&[Shown::Number(7), Shown::Number(7)]],
    },
    Write {
        range: "Z1000",
        columns_first: true,
        values: &[&[Entered::Number(1), Entered::Number(2)]],
        told: Err(Rule::ValuesPastRange),
        shown: &[&[Shown::Number(7), Shown::Number(7)]],
    },
];

/// The sheet that is written to.
static BEFORE: [&[Entered]; 1] = [&[Entered::Number(7), Entered::Number(7)]];

/// The text, or None where memory runs out.
fn text_of(alloc: Global, text: &str) -> Option<Text> {
    match String::from_str(alloc, text) {
        Ok(text) => Some(Text::of(text)),
        Err(_) => None,
    }
}

/// The value, or None where memory runs out.
fn input_of(alloc: Global, entered: Entered) -> Option<Input> {
    match entered {
        Entered::Null => Some(Input::Skip),
        Entered::Empty => Some(Input::Empty),
        Entered::Number(number) => Some(Input::Number(number)),
        Entered::Text(text) => match text_of(alloc, text) {
            Some(text) => Some(Input::Text(text)),
            None => None,
        },
        Entered::Truth(truth) => Some(Input::Truth(truth)),
        Entered::Formula(text) => match text_of(alloc, text) {
            Some(text) => Some(Input::FormulaText(text)),
            None => None,
        },
    }
}

/// The values of a line, or None where memory runs out.
fn line_of(alloc: Global, values: &[Entered]) -> Option<Items<Input>> {
    let mut line = Vec::new(alloc);
    for value in values {
        let Some(input) = input_of(alloc, *value) else {
            return None;
        };
        if line.push(input).is_err() {
            return None;
        }
    }
    Some(Items::of(line))
}

/// The values by rows, or by columns, or None where memory runs out.
fn block_of(alloc: Global, columns_first: bool, lines: &[&[Entered]]) -> Option<Block> {
    let mut values = Vec::new(alloc);
    for line in lines {
        let Some(line) = line_of(alloc, line) else {
            return None;
        };
        if values.push(line).is_err() {
            return None;
        }
    }
    Some(Block {
        columns_first,
        values: Items::of(values),
    })
}

/// Whether the write of these values to the range gives that answer.
fn are_written(
    alloc: Global,
    book: &mut Book,
    range: &str,
    columns_first: bool,
    values: &[&[Entered]],
    told: Told,
) -> bool {
    match block_of(alloc, columns_first, values) {
        Some(block) => is_written(alloc, book, range, &block, told),
        None => false,
    }
}

/// Whether the write to the range gives that answer.
fn is_written(alloc: Global, book: &mut Book, range: &str, block: &Block, told: Told) -> bool {
    match resolve(alloc, book, range) {
        Ok(found) => match write_values(alloc, book, "owner", &found.0, found.1, block) {
            Ok(written) => is_told(alloc, book, &written, told),
            Err(RuleOr::Rule(rule)) => matches!(told, Err(wanted) if wanted == rule),
            Err(RuleOr::NoMemory) => false,
        },
        Err(_) => false,
    }
}

/// Whether that is the answer.
fn is_told(alloc: Global, book: &Book, written: &WrittenCells, told: Told) -> bool {
    match told {
        Ok(wanted) => {
            is_range(alloc, book, &written.area, wanted.0)
                && written.rows.as_slice().len() == wanted.1
                && written.cols.as_slice().len() == wanted.2
                && written.cells == wanted.3
        }
        Err(_) => false,
    }
}

/// Whether the text names the area, and the area is printed so.
fn is_range(alloc: Global, book: &Book, area: &Area, text: &str) -> bool {
    match resolve(alloc, book, text) {
        Ok(found) => match range_text(alloc, book, &found.0) {
            Ok(printed) => found.0 == *area && printed.as_str() == text,
            Err(_) => false,
        },
        Err(_) => false,
    }
}

/// Whether `A1:C3` shows that.
fn is_shown(alloc: Global, book: &Book, shown: &[&[Shown]]) -> bool {
    match resolve(alloc, book, "A1:C3") {
        Ok(found) => match lines(alloc, book, &found.0, false, Render::Unformatted) {
            Ok(read) => are_lines(read.as_slice(), shown),
            Err(_) => false,
        },
        Err(_) => false,
    }
}

/// Whether the empty sheet is made the one that is written to.
fn is_prepared(alloc: Global, book: &mut Book) -> bool {
    let told = Ok(("Sheet1!A1:B1", 1, 2, 2));
    are_written(alloc, book, "A1", false, &BEFORE, told)
}

#[test]
fn values_are_written(rt: HostRuntime) {
    for write in &WRITES {
        match opening(rt.alloc()) {
            Some(mut book) => check_write(&rt, rt.alloc(), &mut book, write),
            None => check(&rt, &"memory", false),
        }
    }
}

/// Stops where the write doesn't give its answer, or its values aren't shown then.
fn check_write(rt: &impl Abort, alloc: Global, book: &mut Book, write: &Write) {
    check(rt, &"memory", is_prepared(alloc, book));
    check(
        rt,
        &write.range,
        are_written(
            alloc,
            book,
            write.range,
            write.columns_first,
            write.values,
            write.told,
        ),
    );
    check(rt, &write.range, is_shown(alloc, book, write.shown));
}

/// A row of 25 formulas.
static FORMULAS: [Entered; 25] = [Entered::Formula("=1"); 25];

/// So many rows of 25 formulas, or None where memory runs out.
fn formulas_of(alloc: Global, rows: usize) -> Option<Block> {
    let mut values = Vec::new(alloc);
    for _ in 0..rows {
        let Some(line) = line_of(alloc, &FORMULAS) else {
            return None;
        };
        if values.push(line).is_err() {
            return None;
        }
    }
    Some(Block {
        columns_first: false,
        values: Items::of(values),
    })
}

/// Whether 800 rows of 25 formulas are written to the empty sheet.
fn is_filled(alloc: Global, book: &mut Book) -> bool {
    match formulas_of(alloc, 800) {
        Some(block) => {
            let told = Ok(("Sheet1!A1:Y800", 800, 25, 20_000));
            is_written(alloc, book, "A1", &block, told)
        }
        None => false,
    }
}

/// Writes to a sheet that has as many formulas as there can be.
static AT_THE_LIMIT: [(&str, &[Entered], Told); 3] = [
    ("A1", &[Entered::Formula("=2")], Ok(("Sheet1!A1", 1, 1, 1))),
    ("A801", &[Entered::Number(1)], Ok(("Sheet1!A801", 1, 1, 1))),
    (
        "A801",
        &[Entered::Formula("=1")],
        Err(Rule::PastLimit(Limit::Formulas)),
    ),
];

#[test]
fn a_spreadsheet_has_so_many_formulas(rt: HostRuntime) {
    match opening(rt.alloc()) {
        Some(mut book) => check_at_the_limit(&rt, rt.alloc(), &mut book),
        None => check(&rt, &"memory", false),
    }
}

/// Stops where the empty sheet isn't filled with formulas, or a write to it doesn't give its answer then.
fn check_at_the_limit(rt: &impl Abort, alloc: Global, book: &mut Book) {
    check(rt, &"memory", is_filled(alloc, book));
    for row in &AT_THE_LIMIT {
        check(
            rt,
            &row.0,
            are_written(alloc, book, row.0, false, &[row.1], row.2),
        );
    }
}
