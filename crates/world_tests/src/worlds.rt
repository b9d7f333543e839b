use crate::common::{changed, check, number_at};
use cell_value::{Duplicate, NoMemory};
use dimension_ops::{Book, World};
use std::alloc::Global;
use std::process::Abort;

/// Ids, and whether a spreadsheet of the beginning has it.
static IDS: [(&str, bool); 5] = [
    ("book1", true),
    ("book2", false),
    ("book", false),
    ("Book1", false),
    ("", false),
];

#[test]
fn spreadsheets_are_found_by_their_ids(rt: HostRuntime) {
    match World::opening(rt.alloc()) {
        Ok(world) => {
            for row in &IDS {
                check(&rt, row, world.find(row.0).is_some() == row.1);
            }
        }
        Err(_) => check(&rt, &"memory", false),
    }
}

/// A world, and a copy in which the spreadsheet was replaced by one that has a number in its first cell.
fn replaced(alloc: Global) -> Result<(World, World), NoMemory> {
    let world = World::opening(alloc)?;
    let copy = replaced_in(alloc, &world)?;
    Ok((world, copy))
}

/// That copy of the world.
fn replaced_in(alloc: Global, world: &World) -> Result<World, NoMemory> {
    let mut copy = world.duplicate()?;
    if let Some(book) = world.find("book1") {
        replace(&mut copy, changed(alloc, book, 0, 0)?)?;
    }
    Ok(copy)
}

/// Puts the spreadsheet in the place of the one that has its id, where there is one.
fn replace(world: &mut World, book: Book) -> Result<(), NoMemory> {
    if world.find(book.id().as_str()).is_none() {
        return Ok(());
    }
    world.replace(book).map_err(|refused| refused.1)
}

/// The number in the first cell of the spreadsheet `book1`.
fn first_number(world: &World) -> Option<i64> {
    match world.find("book1") {
        Some(book) => number_at(book, 0, 0),
        None => None,
    }
}

#[test]
fn a_replaced_spreadsheet_shows_in_its_world_alone(rt: HostRuntime) {
    match replaced(rt.alloc()) {
        Ok(worlds) => check_replaced(&rt, &worlds.0, &worlds.1),
        Err(_) => check(&rt, &"memory", false),
    }
}

/// Stops where the spreadsheet isn't as it was in the world, or isn't replaced in the copy.
fn check_replaced(rt: &impl Abort, world: &World, copy: &World) {
    check(rt, &"before", first_number(world).is_none());
    check(rt, &"before", world.filled() == 0);
    check(rt, &"after", first_number(copy) == Some(7));
    check(rt, &"after", copy.filled() == 1);
    check(rt, &"after", copy.at(1).is_none());
}
