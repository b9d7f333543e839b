ghost use Rattle.std.specs.Prelude.{List, IfSome};
ghost use Rattle.world_model.specs.Sheet.{PlaceSheet};
ghost use Rattle.world_model.specs.Sound.{IsContentWithin};

use cell_value::{Duplicate, Items, NoMemory, Text};
use dimension_ops::{Book, World};
use ref_rewrite::{Content, Formula};
use std::alloc::Global;
use std::fmt::Debug;
use std::process::Abort;

/// Stops where it doesn't hold of the row.
pub(crate) fn check<T: Debug>(rt: &impl Abort, row: &T, holds: bool) {
    assert!(rt; holds, "{row:?}");
}

/// The spreadsheet of the beginning, or None where memory runs out.
pub(crate) fn opening(alloc: Global) -> Option<Book> {
    match World::opening(alloc) {
        Ok(world) => match world.at(0) {
            Some(book) => book.duplicate().ok(),
            None => None,
        },
        Err(_) => None,
    }
}

/// What is written at a place.
#[derive(Debug, Clone, Copy)]
pub(crate) enum Written {
    Nothing,
    Number(i64),
    Text(&'static str),
    Truth(bool),
    Formula,
}

/// That as content; a formula is one without pieces, and a text for which there is no memory is nothing.
fn content(alloc: Global, written: Written) -> Option<Content>
    ensures { (sheets : List PlaceSheet) → IfSome result (IsContentWithin sheets) }
{
    match written {
        Written::Nothing => None,
        Written::Number(number) => Some(Content::Number(number)),
        Written::Text(text) => match String::from_str(alloc, text) {
            Ok(text) => Some(Content::Text(Text::of(text))),
            Err(_) => None,
        },
        Written::Truth(truth) => Some(Content::Truth(truth)),
        Written::Formula => Some(Content::Formula(Formula {
            pieces: Items::of(Vec::new(alloc)),
        })),
    }
}

/// Writes at the place of the sheet 0. False where the place isn't there or memory runs out.
pub(crate) fn write(
    book: &mut Book,
    alloc: Global,
    row: u32,
    column: u32,
    written: Written,
) -> bool {
    let Some(sheet) = book.sheet(0) else {
        return false;
    };
    if row >= sheet.rows() {
        return false;
    }
    if column >= sheet.cols() {
        return false;
    }
    book.put(0, row, column, content(alloc, written)).is_ok()
}

/// A copy of the spreadsheet that has the number 7 at the place of the sheet 0.
pub(crate) fn changed(alloc: Global, book: &Book, row: u32, column: u32) -> Result<Book, NoMemory> {
    let mut copy = book.duplicate()?;
    write(&mut copy, alloc, row, column, Written::Number(7));
    Ok(copy)
}

/// The number at the place of the sheet 0.
pub(crate) fn number_at(book: &Book, row: u32, column: u32) -> Option<i64> {
    match book.content(0, row, column) {
        Some(Content::Number(number)) => Some(*number),
        _ => None,
    }
}
