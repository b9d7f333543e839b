use crate::common::{Written, changed, check, number_at, opening, write};
use cell_value::NoMemory;
use dimension_ops::{Book, World};
use grid_range::{Area, Band};
use std::alloc::Global;
use std::process::Abort;

/// Writes one after another into an empty sheet, each by its row, its column and what is written, and then
/// how many cells are stored and how many hold a formula.
static COUNTED: [(u32, u32, Written, u64, u64); 9] = [
    (0, 0, Written::Nothing, 0, 0),
    (0, 0, Written::Number(1), 1, 0),
    (0, 0, Written::Number(2), 1, 0),
    (999, 25, Written::Formula, 2, 1),
    (0, 0, Written::Formula, 2, 2),
    (0, 0, Written::Formula, 2, 2),
    (999, 25, Written::Number(3), 2, 1),
    (0, 0, Written::Nothing, 1, 0),
    (999, 25, Written::Nothing, 0, 0),
];

#[test]
fn cells_and_formulas_are_counted(rt: HostRuntime) {
    match opening(rt.alloc()) {
        Some(mut book) => check_counts(&rt, rt.alloc(), &mut book),
        None => check(&rt, &"memory", false),
    }
}

/// Stops where the cells of the empty sheet aren't counted so.
fn check_counts(rt: &impl Abort, alloc: Global, book: &mut Book) {
    for row in &COUNTED {
        check(rt, row, write(book, alloc, row.0, row.1, row.2));
        check(rt, row, book.filled() == row.3 && book.formulas() == row.4);
    }
}

/// The places of B2, Z1000, C1 and A1.
static FILLED: [(u32, u32); 4] = [(1, 1), (999, 25), (0, 2), (0, 0)];

/// Bands of rows and of columns of a sheet with numbers in A1, C1, B2 and Z1000, and the filled places there.
static AREAS: [(Band, Band, &[(u32, u32)]); 7] = [
    (
        Band::Whole,
        Band::Whole,
        &[(0, 0), (0, 2), (1, 1), (999, 25)],
    ),
    (Band::Span(0, 1), Band::Whole, &[(0, 0), (0, 2)]),
    (Band::Whole, Band::Span(1, 3), &[(0, 2), (1, 1)]),
    (Band::Span(0, 2), Band::Span(0, 2), &[(0, 0), (1, 1)]),
    (Band::From(1), Band::From(2), &[(999, 25)]),
    (Band::Span(1, 2), Band::Span(2, 26), &[]),
    (Band::Span(3, 999), Band::Whole, &[]),
];

#[test]
fn the_filled_places_of_an_area_are_listed(rt: HostRuntime) {
    match opening(rt.alloc()) {
        Some(mut book) => check_places(&rt, rt.alloc(), &mut book),
        None => check(&rt, &"memory", false),
    }
}

/// Stops where the empty sheet isn't filled, or its filled places aren't listed then.
fn check_places(rt: &impl Abort, alloc: Global, book: &mut Book) {
    for row in &FILLED {
        check(
            rt,
            row,
            write(book, alloc, row.0, row.1, Written::Number(7)),
        );
    }
    for row in &AREAS {
        check(rt, row, are_places(book, 0, row.0, row.1, row.2));
    }
    check(
        rt,
        &"another sheet",
        are_places(book, 1, Band::Whole, Band::Whole, &[]),
    );
}

/// Whether these are the filled places of the area.
fn are_places(book: &Book, sheet: u32, rows: Band, cols: Band, places: &[(u32, u32)]) -> bool {
    match book.places(&Area { sheet, rows, cols }) {
        Ok(found) => found.as_slice() == places,
        Err(_) => false,
    }
}

/// Puts a number into the last cell of the first spreadsheet's copy, and gives what both hold there.
fn written(alloc: Global) -> Result<(Option<i64>, Option<i64>), NoMemory> {
    let world = World::opening(alloc)?;
    match world.at(0) {
        Some(book) => written_in_copy(alloc, book),
        None => Ok((Some(0), None)),
    }
}

/// The same where the spreadsheet is given.
fn written_in_copy(alloc: Global, book: &Book) -> Result<(Option<i64>, Option<i64>), NoMemory> {
    let copy = changed(alloc, book, 999, 25)?;
    Ok((number_at(book, 999, 25), number_at(&copy, 999, 25)))
}

#[test]
fn a_write_shows_in_the_copy_alone(rt: HostRuntime) {
    match written(rt.alloc()) {
        Ok(both) => check(&rt, &both, both == (None, Some(7))),
        Err(_) => check(&rt, &"memory", false),
    }
}

#[test]
fn a_write_leaves_other_places(rt: HostRuntime) {
    match opening(rt.alloc()) {
        Some(mut book) => check_others(&rt, rt.alloc(), &mut book),
        None => check(&rt, &"memory", false),
    }
}

/// Stops where a place of the empty sheet isn't written, or another one changes then.
fn check_others(rt: &impl Abort, alloc: Global, book: &mut Book) {
    check(rt, &"A2", write(book, alloc, 1, 0, Written::Number(2)));
    check(rt, &"B1", write(book, alloc, 0, 1, Written::Number(3)));
    check(rt, &"B1", write(book, alloc, 0, 1, Written::Nothing));
    check(rt, &"A2", number_at(book, 1, 0) == Some(2));
    check(rt, &"B1", number_at(book, 0, 1).is_none());
}
