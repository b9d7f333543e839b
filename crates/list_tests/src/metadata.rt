ghost use Rattle.std.specs.Prelude.{IsTrue, All};
ghost use Rattle.dev_metadata.specs.Following.{IsBelow, IsSpotBelow};

use crate::common::{check, text};
use cell_value::{Duplicate, Items, NoMemory, Text};
use dev_metadata::{
    Item, ItemPatch, Lookup, MetaFault, Metadata, Spot, SpotKind, Visibility, VisibilityKind,
};
use grid_range::{Axis, Change};
use std::alloc::Global;

/// Ids that are asked for, and what is answered, one after another.
static IDS: [(Option<u32>, Result<u32, MetaFault>); 8] = [
    (Some(3), Ok(3)),
    (None, Ok(1)),
    (None, Ok(2)),
    (None, Ok(4)),
    (Some(2), Err(MetaFault::IdTaken)),
    (Some(0), Ok(0)),
    (Some(4294967295), Ok(4294967295)),
    (None, Ok(5)),
];

#[test]
fn the_least_unused_id_is_given(rt: HostRuntime) {
    let mut list = Metadata::new(rt.alloc());
    for row in &IDS {
        let made = add(rt.alloc(), &mut list, row.0, "k", Spot::Spreadsheet, None);
        check(&rt, row, made == row.1);
    }
    check(&rt, &"all", has_ids(&list, &[3, 1, 2, 4, 0, 4294967295, 5]));
    check(&rt, &"has", list.has_id(5) && !list.has_id(6));
}

const ROW: Spot = Spot::Line(0, Axis::Rows, 4);

const COLUMN: Spot = Spot::Line(0, Axis::Columns, 1);

/// Two locations, and whether they intersect and are one.
static PAIRS: [(Spot, Spot, bool, bool); 13] = [
    (Spot::Spreadsheet, Spot::Spreadsheet, true, true),
    (Spot::Spreadsheet, Spot::Sheet(0), false, false),
    (Spot::Spreadsheet, ROW, false, false),
    (Spot::Sheet(0), Spot::Sheet(0), true, true),
    (Spot::Sheet(0), Spot::Sheet(1), false, false),
    (Spot::Sheet(0), ROW, true, false),
    (Spot::Sheet(1), ROW, false, false),
    (ROW, ROW, true, true),
    (ROW, Spot::Line(0, Axis::Rows, 5), false, false),
    (ROW, Spot::Line(1, Axis::Rows, 4), false, false),
    (ROW, COLUMN, true, false),
    (ROW, Spot::Line(0, Axis::Columns, 4), true, false),
    (ROW, Spot::Line(1, Axis::Columns, 1), false, false),
];

#[test]
fn locations_intersect(rt: HostRuntime) {
    for row in &PAIRS {
        let (one, other, intersect, same) = *row;
        let there = meets(rt.alloc(), one, other);
        let back = meets(rt.alloc(), other, one);
        check(&rt, row, there == (intersect, same) && back == there);
    }
}

/// Whether a look-up of the one location finds an item at the other one, where the strategy is the
/// intersecting one and where it is the exact one.
fn meets(alloc: Global, asked: Spot, spot: Spot) -> (bool, bool) {
    let mut list = Metadata::new(alloc);
    let _ = add(alloc, &mut list, None, "k", spot, None);
    let wide = by_spot(None, Some(asked), None);
    let narrow = by_spot(None, Some(asked), Some(false));
    (
        is_answered(alloc, &list, wide, Ok(&[1])),
        is_answered(alloc, &list, narrow, Ok(&[1])),
    )
}

/// Look-ups by kind, location and strategy in a call of the project `p`, and the ids that they find of
/// the five items.
static BY_SPOT: [(
    Option<SpotKind>,
    Option<Spot>,
    Option<bool>,
    Result<&[u32], MetaFault>,
); 16] = [
    (None, None, None, Err(MetaFault::BadLookup)),
    (
        Some(SpotKind::Row),
        Some(ROW),
        Some(false),
        Err(MetaFault::BadLookup),
    ),
    (
        Some(SpotKind::Spreadsheet),
        Some(Spot::Spreadsheet),
        Some(true),
        Err(MetaFault::BadLookup),
    ),
    (
        Some(SpotKind::Spreadsheet),
        Some(ROW),
        None,
        Err(MetaFault::BadLookup),
    ),
    (
        Some(SpotKind::Spreadsheet),
        Some(Spot::Spreadsheet),
        None,
        Ok(&[5]),
    ),
    (Some(SpotKind::Spreadsheet), None, None, Ok(&[5])),
    (Some(SpotKind::Sheet), None, None, Ok(&[1, 4])),
    (Some(SpotKind::Row), None, None, Ok(&[3])),
    (Some(SpotKind::Column), None, None, Ok(&[])),
    (Some(SpotKind::Sheet), Some(ROW), Some(true), Ok(&[4])),
    (Some(SpotKind::Sheet), Some(ROW), None, Ok(&[4])),
    (None, Some(ROW), None, Ok(&[3, 4])),
    (None, Some(ROW), Some(true), Ok(&[3, 4])),
    (None, Some(ROW), Some(false), Ok(&[3])),
    (None, Some(Spot::Sheet(0)), None, Ok(&[3, 4])),
    (None, Some(Spot::Sheet(0)), Some(false), Ok(&[4])),
];

#[test]
fn lookups_by_location_find_what_holds(rt: HostRuntime) {
    let list = five(rt.alloc());
    for row in &BY_SPOT {
        let lookup = by_spot(row.0, row.1, row.2);
        check(&rt, row, is_answered(rt.alloc(), &list, lookup, row.3));
    }
}

/// Look-ups by strategy, id, key and visibility, and what they find.
static BY_MEMBER: [(
    Option<bool>,
    Option<u32>,
    Option<&str>,
    Option<VisibilityKind>,
    Result<&[u32], MetaFault>,
); 7] = [
    (Some(true), None, Some("a"), None, Err(MetaFault::BadLookup)),
    (
        Some(false),
        None,
        Some("a"),
        None,
        Err(MetaFault::BadLookup),
    ),
    (None, Some(4), None, None, Ok(&[4])),
    (None, Some(2), None, None, Ok(&[])),
    (None, None, Some("a"), None, Ok(&[1, 3, 5])),
    (
        None,
        None,
        Some("a"),
        Some(VisibilityKind::Document),
        Ok(&[1, 5]),
    ),
    (None, None, None, Some(VisibilityKind::Project), Ok(&[3])),
];

#[test]
fn lookups_by_member_find_what_holds(rt: HostRuntime) {
    let list = five(rt.alloc());
    for row in &BY_MEMBER {
        let lookup = by_member(rt.alloc(), row.0, row.1, row.2, row.3);
        check(&rt, row, is_answered(rt.alloc(), &list, lookup, row.4));
    }
}

/// Where an item lies, a change of a sheet with 1,000 lines on the axis, and where the item then lies.
static CHANGES: [(Spot, u32, Axis, Change, Option<Spot>); 4] = [
    (ROW, 0, Axis::Columns, UP, Some(ROW)),
    (ROW, 1, Axis::Rows, UP, Some(ROW)),
    (ROW, 0, Axis::Rows, UP, Some(FIRST)),
    (
        FIRST,
        0,
        Axis::Rows,
        Change::Delete { start: 0, end: 1 },
        None,
    ),
];

const UP: Change = Change::Move {
    start: 4,
    end: 5,
    to: 0,
};

const FIRST: Spot = Spot::Line(0, Axis::Rows, 0);

#[test]
fn an_item_follows_its_row(rt: HostRuntime) {
    for row in &CHANGES {
        let then = spot_after(rt.alloc(), row.0, row.1, row.2, &row.3);
        check(&rt, row, then == Some(row.4));
    }
}

/// Where an item lies after the change that lay there before; None where the change can't be made.
fn spot_after(
    alloc: Global,
    spot: Spot,
    sheet: u32,
    axis: Axis,
    change: &Change,
) -> Option<Option<Spot>> {
    if !change.fits(1000) || !is_below(spot, sheet, axis, 1000) {
        return None;
    }
    let mut list = one_at(alloc, spot, sheet, axis);
    list.change(sheet, axis, 1000, change);
    Some(spot_of(&list, 1, ""))
}

/// An item that lies there, or none where memory runs out.
fn one_at(alloc: Global, spot: Spot, sheet: u32, axis: Axis) -> Metadata
    requires { IsSpotBelow sheet axis 1000 spot }
    ensures { All (IsBelow sheet axis 1000) result }
{
    let mut list = Metadata::new(alloc);
    match list.create(
        None,
        text(alloc, "k"),
        text(alloc, ""),
        spot,
        Visibility::Document,
    ) {
        Ok(_) => list,
        Err(_) => Metadata::new(alloc),
    }
}

/// Whether the line where it lies is below `count`.
fn is_below(spot: Spot, sheet: u32, axis: Axis, count: u32) -> bool
    ensures { IsTrue result → IsSpotBelow sheet axis count spot }
{
    match spot {
        Spot::Spreadsheet | Spot::Sheet(_) => true,
        Spot::Line(_, _, index) => index < count,
    }
}

/// Sheets that are deleted, and which of the five items are left.
static LOST: [(u32, &[u32]); 3] = [(0, &[5, 1]), (1, &[5, 4, 3, 2]), (2, &[5, 4, 3, 2, 1])];

#[test]
fn items_go_with_their_sheet(rt: HostRuntime) {
    let list = five(rt.alloc());
    for row in &LOST {
        check(&rt, row, are_left(&list, row.0, row.1));
    }
    check(&rt, &"copied", list.count() == 5);
}

/// Whether these are left of a copy of the list where the sheet is deleted.
fn are_left(list: &Metadata, sheet: u32, left: &[u32]) -> bool {
    match list.duplicate() {
        Ok(mut copy) => {
            copy.lose_sheet(sheet);
            has_ids(&copy, left)
        }
        Err(NoMemory) => false,
    }
}

/// Ids and projects, and where the item lies that is seen, after the items with the key `a` were made
/// ones of a row and of the project `p`.
static SEEN: [(u32, &str, Option<Spot>); 4] = [
    (5, "p", Some(ROW)),
    (5, "q", None),
    (4, "q", Some(Spot::Sheet(0))),
    (6, "p", None),
];

#[test]
fn items_are_updated_and_dropped(rt: HostRuntime) {
    let mut list = five(rt.alloc());
    check(&rt, &"updated", update(rt.alloc(), &mut list));
    for row in &SEEN {
        check(&rt, row, spot_of(&list, row.0, row.1) == row.2);
    }
    check(&rt, &"dropped", drop_row(&mut list));
}

/// Gives the items with the key `a` another value, another location and another visibility, and tells
/// whether they are those that have it.
fn update(alloc: Global, list: &mut Metadata) -> bool {
    let patch = ItemPatch {
        key: None,
        value: Some(text(alloc, "v")),
        spot: Some(ROW),
        visibility: Some(VisibilityKind::Project),
    };
    are_updated(alloc, list, &patch)
        && has_texts(list, 5, "a", "v")
        && has_ids(list, &[5, 4, 3, 2, 1])
}

fn are_updated(alloc: Global, list: &mut Metadata, patch: &ItemPatch) -> bool {
    let lookups = one(alloc, by_member(alloc, None, None, Some("a"), None));
    match list.update(&lookups, "p", patch) {
        Ok(ids) => ids.as_slice() == [1, 3, 5].as_slice(),
        Err(_) => false,
    }
}

/// Drops the items of the row, and tells whether they are given in order of id.
fn drop_row(list: &mut Metadata) -> bool {
    let dropped = match list.drop(&by_spot(None, Some(ROW), Some(false)), "p") {
        Ok(items) => are_one_three_five(items.as_slice()),
        Err(_) => false,
    };
    dropped && has_ids(list, &[4, 2])
}

fn are_one_three_five(items: &[Item]) -> bool {
    match items {
        [first, second, third] => first.id == 1 && second.id == 3 && third.id == 5,
        _ => false,
    }
}

/// Five items by id, key, location and project.
static FIVE: [(u32, &str, Spot, Option<&str>); 5] = [
    (5, "a", Spot::Spreadsheet, None),
    (4, "b", Spot::Sheet(0), None),
    (3, "a", ROW, Some("p")),
    (2, "b", COLUMN, Some("q")),
    (1, "a", Spot::Sheet(1), None),
];

fn five(alloc: Global) -> Metadata {
    let mut list = Metadata::new(alloc);
    for row in &FIVE {
        let _ = add(alloc, &mut list, Some(row.0), row.1, row.2, row.3);
    }
    list
}

/// Adds an item with an empty value, of the document or of the project.
fn add(
    alloc: Global,
    list: &mut Metadata,
    id: Option<u32>,
    key: &str,
    spot: Spot,
    project: Option<&str>,
) -> Result<u32, MetaFault> {
    let visibility = match project {
        Some(project) => Visibility::Project(text(alloc, project)),
        None => Visibility::Document,
    };
    if list.count() < 100 {
        list.create(id, text(alloc, key), text(alloc, ""), spot, visibility)
    } else {
        Err(MetaFault::NoMemory)
    }
}

/// Whether the look-up is answered so in a call of the project `p`.
fn is_answered(
    alloc: Global,
    list: &Metadata,
    lookup: Lookup,
    answer: Result<&[u32], MetaFault>,
) -> bool {
    match list.search(&one(alloc, lookup), "p") {
        Ok(ids) => answer == Ok(ids.as_slice()),
        Err(fault) => answer == Err(fault),
    }
}

fn by_spot(kind: Option<SpotKind>, spot: Option<Spot>, intersecting: Option<bool>) -> Lookup {
    Lookup {
        kind,
        spot,
        intersecting: intersecting == Some(true),
        strategy_given: intersecting.is_some(),
        id: None,
        key: None,
        value: None,
        visibility: None,
    }
}

fn by_member(
    alloc: Global,
    intersecting: Option<bool>,
    id: Option<u32>,
    key: Option<&str>,
    visibility: Option<VisibilityKind>,
) -> Lookup {
    let key = match key {
        Some(key) => Some(text(alloc, key)),
        None => None,
    };
    Lookup {
        id,
        key,
        visibility,
        ..by_spot(None, None, intersecting)
    }
}

/// The look-up alone, or none where memory runs out.
fn one(alloc: Global, lookup: Lookup) -> Items<Lookup> {
    let mut lookups = Vec::new(alloc);
    let _ = lookups.push(lookup);
    Items::of(lookups)
}

fn spot_of(list: &Metadata, id: u32, project: &str) -> Option<Spot> {
    match list.get(id, project) {
        Ok(item) => Some(item.spot),
        Err(_) => None,
    }
}

fn has_texts(list: &Metadata, id: u32, key: &str, value: &str) -> bool {
    match list.get(id, "p") {
        Ok(item) => item.key.as_str() == key && item.value.as_str() == value,
        Err(_) => false,
    }
}

/// Whether the list has these items and no others; each is of the document or of the project `p` or `q`.
fn has_ids(list: &Metadata, ids: &[u32]) -> bool {
    list.count() == ids.len() as u64 && ids.iter().all(|id| has_id(list, *id))
}

fn has_id(list: &Metadata, id: u32) -> bool {
    list.get(id, "p").is_ok() || list.get(id, "q").is_ok()
}
