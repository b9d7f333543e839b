ghost use Rattle.std.specs.Prelude.{◌≡◌, ◌<◌, length, get_or, IfOk, OnOk};
ghost use Rattle.std.specs.Option.{IsSome};
ghost use Rattle.a1_notation.specs.Quoted.{quoted};
ghost use Rattle.world_model.specs.Book.{PlaceBook};
ghost use Rattle.world_model.specs.Sheet.{PlaceSheet};
ghost use Rattle.dimension_ops.specs.World.{book_with};
ghost use Rattle.batch_engine.specs.Calls.{HasItsBook};
ghost use Rattle.sheet_engine.specs.Dump.{AreLines, Grows, IsLine, calls_on, dump_calls, look_at, owner_of, read_of};

use crate::step::{Stepped, body_of, called};
use batch_engine::Caller;
use cell_value::{Bytes, Duplicate, NoMemory, Render, Text};
use dimension_ops::{Book, Sheet, World};
use grid_range::Axis;
use sheets_json::Call;
use std::alloc::Global;
use world_model::ids_find;

/// A text that tells all of the spreadsheets. For each, in order, it has the line of what its owner gets of it
/// (spreadsheets.get), and then for each of its sheets the line of what is read of the whole sheet by rows, formulas
/// as they are entered (spreadsheets.values.get). A line is the body of the response, and a line feed.
///
/// # Errors
///
/// [`NoMemory`] where memory runs out.
pub(crate) fn dump(alloc: Global, world: &World) -> Result<Bytes, NoMemory>
    ensures { IfOk result (AreLines world.now (dump_calls world.now)) }
{
    let mut text = Bytes::of(Vec::new(alloc));
    for at in 0..world.count() as u32 {
        push_book(alloc, world, book_at(world, at), &mut text)?;
    }
    Ok(text)
}

/// The spreadsheet at a place among the spreadsheets.
fn book_at(world: &World, at: u32) -> &Book
    requires { at < length world.now }
    ensures book { (other : PlaceBook) → result.now ≡ get_or world.now at other }
    ensures there { IsSome (book_with result.now.id world.now) }
{
    world.at(at).unwrap()
}

/// Puts the lines of a spreadsheet behind the text.
fn push_book(alloc: Global, world: &World, book: &Book, text: &mut Bytes) -> Result<(), NoMemory>
    requires { IsSome (book_with book.now.id world.now) }
    ensures { OnOk result (Grows world.now (calls_on book.now book.now.sheets) text.old text.new) }
{
    let look = look_line(alloc, world, book)?;
    text.extend_from_slice(look.as_slice())?;
    for at in 0..book.sheets().as_slice().len() {
        let read = read_line(alloc, world, book, sheet_at(book, at))?;
        text.extend_from_slice(read.as_slice())?;
    }
    Ok(())
}

/// The line of the owner's look at a spreadsheet.
fn look_line(alloc: Global, world: &World, book: &Book) -> Result<Bytes, NoMemory>
    requires { IsSome (book_with book.now.id world.now) }
    ensures { IfOk result (IsLine world.now (owner_of book.now, look_at book.now)) }
{
    let owner = owner_of(alloc, book)?;
    let look = look_at(book)?;
    line_of(alloc, world, &owner, &look)
}

/// The line of the owner's read of a sheet.
fn read_line(alloc: Global, world: &World, book: &Book, sheet: &Sheet) -> Result<Bytes, NoMemory>
    requires { IsSome (book_with book.now.id world.now) }
    ensures { IfOk result (IsLine world.now (owner_of book.now, read_of book.now sheet.now)) }
{
    let owner = owner_of(alloc, book)?;
    let read = read_of(alloc, book, sheet)?;
    line_of(alloc, world, &owner, &read)
}

/// The line of a call: the body of the response to it, and a line feed.
fn line_of(alloc: Global, world: &World, caller: &Caller, call: &Call) -> Result<Bytes, NoMemory>
    requires { HasItsBook call.now world.now }
    ensures { IfOk result (IsLine world.now (caller.now, call.now)) }
{
    let Stepped { told, next: _ } = called(alloc, world, caller, call)?;
    let mut line = body_of(alloc, &told)?;
    line.extend_from_slice(b"\n")?;
    Ok(line)
}

/// The owner of a spreadsheet, as who makes a call.
fn owner_of(alloc: Global, book: &Book) -> Result<Caller, NoMemory>
    ensures { IfOk result (λ caller. caller ≡ owner_of book.now) }
{
    Ok(Caller {
        user: book.owner().duplicate()?,
        project: Text::of(String::new(alloc)),
    })
}

/// A look at a spreadsheet, without its rows.
fn look_at(book: &Book) -> Result<Call, NoMemory>
    ensures { IfOk result (λ call. call ≡ look_at book.now) }
{
    Ok(Call::Get {
        id: book.id().duplicate()?,
        include_grid_data: None,
    })
}

/// A read of a whole sheet, by rows, and of formulas as they are entered.
fn read_of(alloc: Global, book: &Book, sheet: &Sheet) -> Result<Call, NoMemory>
    ensures { IfOk result (λ call. call ≡ read_of book.now sheet.now) }
{
    Ok(Call::Read {
        id: book.id().duplicate()?,
        range: quoted(alloc, sheet.title().as_str())?,
        major_dimension: Some(Axis::Rows),
        value_render_option: Some(Render::Formula),
    })
}

/// The sheet at a place among the sheets.
fn sheet_at(book: &Book, at: usize) -> &Sheet
    requires { at < length book.now.sheets }
    ensures { (other : PlaceSheet) → result.now ≡ get_or book.now.sheets at other }
{
    book.stays_sound();
    ids_find();
    let ids = book.sheets().as_slice();
    book.sheet(ids[at]).unwrap()
}

/// The title in quotes, with each `'` doubled.
fn quoted(alloc: Global, title: &str) -> Result<Text, NoMemory>
    ensures { IfOk result (λ text. text ≡ quoted 39 title.now) }
{
    let doubled = title.replace(alloc, '\'', "''")?;
    Ok(Text::of(format!(in alloc; "'{doubled}'")?))
}
