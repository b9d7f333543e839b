ghost use Rattle.std.specs.Prelude.{IsTrue};
ghost use Rattle.basic_filter.specs.Following.{AreBelow};

use crate::common::{check, text};
use basic_filter::{Condition, Criterion, Filter};
use cell_value::{Duplicate, Items, Kind, NoMemory, Text, Value};
use grid_range::{Area, Axis, Band, Change};
use std::alloc::Global;

/// What a cell holds.
#[derive(Clone, Copy, Debug)]
enum Cell {
    Blank,
    Number(i64),
    Text(&'static str),
    Truth(bool),
    Error(Kind),
}

/// What is asked of a cell.
#[derive(Clone, Copy, Debug)]
enum Asked {
    Greater(i64),
    GreaterThanEq(i64),
    Less(i64),
    LessThanEq(i64),
    Eq(i64),
    NotEq(i64),
    Between(i64, i64),
    Contains(&'static str),
    NotContains(&'static str),
    StartsWith(&'static str),
    EndsWith(&'static str),
    TextEq(&'static str),
    Blank,
    NotBlank,
}

/// The types of conditions on numbers, and whether they are true of 4, 5 and 6.
static NUMBERS: [(Asked, bool, bool, bool); 7] = [
    (Asked::Greater(5), false, false, true),
    (Asked::GreaterThanEq(5), false, true, true),
    (Asked::Less(5), true, false, false),
    (Asked::LessThanEq(5), true, true, false),
    (Asked::Eq(5), false, true, false),
    (Asked::NotEq(5), true, false, true),
    (Asked::Between(5, 5), false, true, false),
];

/// Cells that hold no number, whatever they show.
static NO_NUMBERS: [Cell; 5] = [
    Cell::Blank,
    Cell::Text("5"),
    Cell::Text("x"),
    Cell::Truth(true),
    Cell::Error(Kind::Num),
];

#[test]
fn numbers_are_compared(rt: HostRuntime) {
    for row in &NUMBERS {
        let (asked, below, at, above) = *row;
        check(&rt, row, tells(rt.alloc(), asked, Cell::Number(4), below));
        check(&rt, row, tells(rt.alloc(), asked, Cell::Number(5), at));
        check(&rt, row, tells(rt.alloc(), asked, Cell::Number(6), above));
        for cell in &NO_NUMBERS {
            check(&rt, row, tells(rt.alloc(), asked, *cell, false));
        }
    }
}

/// Conditions, a cell, and whether the condition is true of it.
static CONDITIONS: [(Asked, Cell, bool); 56] = [
    (Asked::Between(2, 9), Cell::Number(1), false),
    (Asked::Between(2, 9), Cell::Number(2), true),
    (Asked::Between(2, 9), Cell::Number(5), true),
    (Asked::Between(2, 9), Cell::Number(9), true),
    (Asked::Between(2, 9), Cell::Number(10), false),
    (Asked::Between(9, 2), Cell::Number(5), false),
    (
        Asked::Between(-9007199254740992, 9007199254740992),
        Cell::Number(-9007199254740992),
        true,
    ),
    (Asked::Between(-3, -1), Cell::Number(-2), true),
    (Asked::Between(2, 9), Cell::Text("x"), false),
    (Asked::Between(2, 9), Cell::Text("5"), false),
    (Asked::Contains("b"), Cell::Text("abc"), true),
    (Asked::Contains("B"), Cell::Text("abc"), true),
    (Asked::Contains("bc"), Cell::Text("ABCD"), true),
    (Asked::Contains("abc"), Cell::Text("abc"), true),
    (Asked::Contains("ac"), Cell::Text("abc"), false),
    (Asked::Contains("abcd"), Cell::Text("abc"), false),
    (Asked::Contains("aab"), Cell::Text("aaab"), true),
    (Asked::Contains(""), Cell::Text("abc"), true),
    (Asked::Contains(""), Cell::Blank, true),
    (Asked::Contains("a"), Cell::Blank, false),
    (Asked::Contains("2"), Cell::Number(125), true),
    (Asked::Contains("ru"), Cell::Truth(true), true),
    (Asked::Contains("div"), Cell::Error(Kind::Div0), true),
    (Asked::Contains("É"), Cell::Text("é"), false),
    (Asked::NotContains("B"), Cell::Text("abc"), false),
    (Asked::NotContains("x"), Cell::Text("abc"), true),
    (Asked::NotContains(""), Cell::Blank, false),
    (Asked::NotContains("x"), Cell::Blank, true),
    (Asked::StartsWith("AB"), Cell::Text("abc"), true),
    (Asked::StartsWith("bc"), Cell::Text("abc"), false),
    (Asked::StartsWith("abcd"), Cell::Text("abc"), false),
    (Asked::StartsWith(""), Cell::Blank, true),
    (Asked::StartsWith("-1"), Cell::Number(-12), true),
    (Asked::EndsWith("BC"), Cell::Text("abc"), true),
    (Asked::EndsWith("ab"), Cell::Text("abc"), false),
    (Asked::EndsWith("zabc"), Cell::Text("abc"), false),
    (Asked::EndsWith(""), Cell::Blank, true),
    (Asked::EndsWith("!"), Cell::Error(Kind::Ref), true),
    (Asked::TextEq("ABC"), Cell::Text("abc"), true),
    (Asked::TextEq("ab"), Cell::Text("abc"), false),
    (Asked::TextEq(""), Cell::Blank, true),
    (Asked::TextEq("true"), Cell::Truth(true), true),
    (Asked::TextEq("12"), Cell::Number(12), true),
    (Asked::TextEq("#n/a"), Cell::Error(Kind::Na), true),
    (Asked::Blank, Cell::Blank, true),
    (Asked::NotBlank, Cell::Blank, false),
    (Asked::Blank, Cell::Text(""), true),
    (Asked::NotBlank, Cell::Text(""), false),
    (Asked::Blank, Cell::Text(" "), false),
    (Asked::NotBlank, Cell::Text(" "), true),
    (Asked::Blank, Cell::Number(0), false),
    (Asked::NotBlank, Cell::Number(0), true),
    (Asked::Blank, Cell::Truth(false), false),
    (Asked::NotBlank, Cell::Truth(false), true),
    (Asked::Blank, Cell::Error(Kind::Na), false),
    (Asked::NotBlank, Cell::Error(Kind::Na), true),
];

#[test]
fn conditions_are_true_of_cells(rt: HostRuntime) {
    for row in &CONDITIONS {
        check(&rt, row, tells(rt.alloc(), row.0, row.1, row.2));
    }
}

/// Hidden values, a cell, and whether its row is hidden.
static HIDDEN: [(&[&str], Cell, bool); 14] = [
    (&[], Cell::Text("x"), false),
    (&[], Cell::Blank, false),
    (&["x"], Cell::Text("x"), true),
    (&["x"], Cell::Text("y"), false),
    (&["x"], Cell::Number(1), false),
    (&["x"], Cell::Text("X"), false),
    (&["x"], Cell::Text("xx"), false),
    (&["y", "x"], Cell::Text("x"), true),
    (&[""], Cell::Blank, true),
    (&[""], Cell::Text(""), true),
    (&["TRUE"], Cell::Truth(true), true),
    (&["true"], Cell::Truth(true), false),
    (&["-5"], Cell::Number(-5), true),
    (&["#REF!"], Cell::Error(Kind::Ref), true),
];

#[test]
fn hidden_values_are_shown_texts(rt: HostRuntime) {
    for row in &HIDDEN {
        let criterion = criterion(rt.alloc(), 0, row.0, None);
        check(&rt, row, hides(rt.alloc(), criterion, row.1) == Some(row.2));
    }
}

/// Two cells of a row, and whether it is hidden where the first may not show `x` nor `5`, and has to be
/// less than 9, and the second may not be blank.
static PAIRS: [(Cell, Cell, bool); 6] = [
    (Cell::Number(4), Cell::Text("x"), false),
    (Cell::Number(5), Cell::Text("x"), true),
    (Cell::Number(9), Cell::Text("x"), true),
    (Cell::Text("x"), Cell::Text("x"), true),
    (Cell::Number(4), Cell::Blank, true),
    (Cell::Number(9), Cell::Blank, true),
];

#[test]
fn a_row_is_hidden_by_one_criterion(rt: HostRuntime) {
    let filter = two(rt.alloc());
    for row in &PAIRS {
        check(
            &rt,
            row,
            hides_row(rt.alloc(), &filter, &[row.0, row.1]) == Some(row.2),
        );
    }
}

/// What a change makes of the filter of A1:C10 that has criteria of the columns 2, 0 and 1: the rows and
/// the columns of its area, and the columns of the criteria.
type Followed = Option<(Band, Band, &'static [u32])>;

const ROWS: Band = Band::Span(0, 10);

const COLUMNS: Band = Band::Span(0, 3);

static COLUMN_CHANGES: [(Change, Followed); 11] = [
    (
        Change::Insert { at: 0, count: 2 },
        Some((ROWS, Band::Span(2, 5), &[4, 2, 3])),
    ),
    (
        Change::Insert { at: 1, count: 1 },
        Some((ROWS, Band::Span(0, 4), &[3, 0, 2])),
    ),
    (
        Change::Insert { at: 3, count: 1 },
        Some((ROWS, COLUMNS, &[2, 0, 1])),
    ),
    (
        Change::Delete { start: 0, end: 1 },
        Some((ROWS, Band::Span(0, 2), &[1, 0])),
    ),
    (
        Change::Delete { start: 1, end: 2 },
        Some((ROWS, Band::Span(0, 2), &[1, 0])),
    ),
    (
        Change::Delete { start: 0, end: 2 },
        Some((ROWS, Band::Span(0, 1), &[0])),
    ),
    (Change::Delete { start: 0, end: 3 }, None),
    (
        Change::Move {
            start: 0,
            end: 1,
            to: 26,
        },
        Some((ROWS, Band::Span(0, 2), &[1, 25, 0])),
    ),
    (
        Change::Move {
            start: 2,
            end: 3,
            to: 0,
        },
        Some((ROWS, COLUMNS, &[0, 1, 2])),
    ),
    (
        Change::Move {
            start: 5,
            end: 6,
            to: 1,
        },
        Some((ROWS, Band::Span(0, 4), &[3, 0, 2])),
    ),
    (
        Change::Move {
            start: 0,
            end: 3,
            to: 26,
        },
        Some((ROWS, Band::Span(23, 26), &[25, 23, 24])),
    ),
];

static ROW_CHANGES: [(Change, Followed); 5] = [
    (
        Change::Insert { at: 0, count: 1 },
        Some((Band::Span(1, 11), COLUMNS, &[2, 0, 1])),
    ),
    (
        Change::Delete { start: 0, end: 1 },
        Some((Band::Span(0, 9), COLUMNS, &[2, 0, 1])),
    ),
    (
        Change::Delete { start: 5, end: 20 },
        Some((Band::Span(0, 5), COLUMNS, &[2, 0, 1])),
    ),
    (Change::Delete { start: 0, end: 10 }, None),
    (
        Change::Move {
            start: 9,
            end: 10,
            to: 1000,
        },
        Some((Band::Span(0, 9), COLUMNS, &[2, 0, 1])),
    ),
];

#[test]
fn a_filter_follows_its_columns(rt: HostRuntime) {
    let filter = three(rt.alloc());
    for row in &COLUMN_CHANGES {
        check(&rt, row, becomes(&filter, Axis::Columns, 26, &row.0, row.1));
    }
    check(&rt, &"copied", is_as(&filter, None));
}

#[test]
fn a_filter_follows_its_rows(rt: HostRuntime) {
    let filter = three(rt.alloc());
    for row in &ROW_CHANGES {
        check(&rt, row, becomes(&filter, Axis::Rows, 1000, &row.0, row.1));
    }
}

/// The filter of A1:C10 with criteria of the columns 2, 0 and 1.
fn three(alloc: Global) -> Filter {
    let mut criteria = Vec::new(alloc);
    for column in [2, 0, 1] {
        let _ = criteria.push(criterion(alloc, column, &["x"], Some(Asked::NotBlank)));
    }
    filter(criteria)
}

/// The filter by whose first column a row may not show `x` nor `5` and has to be less than 9, and by
/// whose second one it may not be blank.
fn two(alloc: Global) -> Filter {
    let mut criteria = Vec::new(alloc);
    let _ = criteria.push(criterion(alloc, 0, &["x", "5"], Some(Asked::Less(9))));
    let _ = criteria.push(criterion(alloc, 1, &[], Some(Asked::NotBlank)));
    filter(criteria)
}

/// Whether the change can be made of a sheet with so many lines on the axis, and makes that of a copy of
/// the filter: it is kept or lost.
fn becomes(filter: &Filter, axis: Axis, count: u32, change: &Change, followed: Followed) -> bool {
    match filter.duplicate() {
        Ok(mut copy) => {
            change_lines(&mut copy, axis, count, change) == Some(followed.is_some())
                && is_as(&copy, followed)
        }
        Err(NoMemory) => false,
    }
}

/// Whether the filter is that; where it was lost, whether it is as it was.
fn is_as(filter: &Filter, followed: Followed) -> bool {
    let (rows, cols, columns) = followed.unwrap_or((ROWS, COLUMNS, &[2, 0, 1]));
    filter.area
        == Area {
            sheet: 0,
            rows,
            cols,
        }
        && has_columns(filter.criteria.as_slice(), columns)
}

/// Whether the criteria are of these columns, in order, and have what they had.
fn has_columns(criteria: &[Criterion], columns: &[u32]) -> bool {
    criteria.len() == columns.len()
        && criteria.iter().zip(columns).all(|(criterion, column)| criterion.column == *column
            && is_whole(criterion))
}

fn is_whole(criterion: &Criterion) -> bool {
    criterion.hidden.as_slice().len() == 1
        && matches!(criterion.condition, Some(Condition::NotBlank))
}

/// Whether the filter is kept; None where the change can't be made.
fn change_lines(filter: &mut Filter, axis: Axis, count: u32, change: &Change) -> Option<bool> {
    if change.fits(count)
        && filter.area.rows.within(count)
        && filter.area.cols.within(count)
        && are_below(filter.criteria.as_slice(), axis, count)
    {
        Some(filter.change(axis, count, change))
    } else {
        None
    }
}

/// Whether every criterion's column is below `count`.
fn are_below(criteria: &[Criterion], axis: Axis, count: u32) -> bool
    ensures { IsTrue result → AreBelow axis count criteria.now }
{
    criteria.iter().all(|criterion| criterion.column < count)
}

fn filter(criteria: Vec<Criterion>) -> Filter {
    Filter {
        area: Area {
            sheet: 0,
            rows: ROWS,
            cols: COLUMNS,
        },
        criteria: Items::of(criteria),
    }
}

fn criterion(alloc: Global, column: u32, hidden: &[&str], asked: Option<Asked>) -> Criterion {
    Criterion {
        column,
        hidden: texts(alloc, hidden),
        condition: match asked {
            Some(asked) => Some(condition(alloc, asked)),
            None => None,
        },
    }
}

fn texts(alloc: Global, texts: &[&str]) -> Items<Text> {
    let mut items = Vec::new(alloc);
    for given in texts {
        let _ = items.push(text(alloc, given));
    }
    Items::of(items)
}

fn condition(alloc: Global, asked: Asked) -> Condition {
    match asked {
        Asked::Greater(bound) => Condition::NumberGreater(bound),
        Asked::GreaterThanEq(bound) => Condition::NumberGreaterThanEq(bound),
        Asked::Less(bound) => Condition::NumberLess(bound),
        Asked::LessThanEq(bound) => Condition::NumberLessThanEq(bound),
        Asked::Eq(number) => Condition::NumberEq(number),
        Asked::NotEq(number) => Condition::NumberNotEq(number),
        Asked::Between(first, last) => Condition::NumberBetween(first, last),
        Asked::Contains(part) => Condition::TextContains(text(alloc, part)),
        Asked::NotContains(part) => Condition::TextNotContains(text(alloc, part)),
        Asked::StartsWith(start) => Condition::TextStartsWith(text(alloc, start)),
        Asked::EndsWith(end) => Condition::TextEndsWith(text(alloc, end)),
        Asked::TextEq(given) => Condition::TextEq(text(alloc, given)),
        Asked::Blank => Condition::Blank,
        Asked::NotBlank => Condition::NotBlank,
    }
}

fn values(alloc: Global, cells: &[Cell]) -> Items<Value> {
    let mut items = Vec::new(alloc);
    for cell in cells {
        let _ = items.push(value(alloc, *cell));
    }
    Items::of(items)
}

fn value(alloc: Global, cell: Cell) -> Value {
    match cell {
        Cell::Blank => Value::Blank,
        Cell::Number(number) => Value::Number(number),
        Cell::Text(given) => Value::Text(text(alloc, given)),
        Cell::Truth(truth) => Value::Truth(truth),
        Cell::Error(kind) => Value::Error(kind),
    }
}

/// Whether the condition is true of the cell or not, as given: whether a row with it is shown.
fn tells(alloc: Global, asked: Asked, cell: Cell, holds: bool) -> bool {
    let criterion = criterion(alloc, 0, &[], Some(asked));
    hides(alloc, criterion, cell) == Some(!holds)
}

/// Whether a row with the cell is hidden.
fn hides(alloc: Global, criterion: Criterion, cell: Cell) -> Option<bool> {
    let mut criteria = Vec::new(alloc);
    let _ = criteria.push(criterion);
    hides_row(alloc, &filter(criteria), &[cell])
}

/// Whether a row with the cells is hidden by the filter that has a criterion for each; None where memory
/// runs out.
fn hides_row(alloc: Global, filter: &Filter, cells: &[Cell]) -> Option<bool> {
    let values = values(alloc, cells);
    if values.as_slice().len() == filter.criteria.as_slice().len() {
        filter.hides(alloc, &values).ok()
    } else {
        None
    }
}
