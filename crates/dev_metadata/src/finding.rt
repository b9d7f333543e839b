ghost use Rattle.std.specs.Prelude.{◌≡◌, IfOk};
ghost use Rattle.dev_metadata.specs.Listed.{AreInOrderOfId, AreIdsInOrder, AreInOrder, found, found_by_some};

use crate::by_id::ById;
use crate::types::{Item, Lookup};
use cell_value::{Duplicate, NoMemory};
use std::alloc::Global;

/// The ids of the items that one of the look-ups finds, in order.
pub(crate) fn found_ids(
    alloc: Global,
    items: &ById,
    lookups: &[Lookup],
    project: &str,
) -> Result<Vec<u32>, NoMemory>
    ensures { IfOk result
        (λ ids. AreIdsInOrder (found_by_some lookups.now project.now items.now) ids.items) }
{
    let mut ids = Vec::new(alloc);
    for at in 0..items.len() {
        let item = items.at(at);
        if item.is_found(lookups, project) {
            ids.push(item.id)?;
        }
    }
    sort(&mut ids);
    Ok(ids)
}

/// Copies of the items that the look-up finds, in order of id.
pub(crate) fn found_items(
    alloc: Global,
    items: &ById,
    lookup: &Lookup,
    project: &str,
) -> Result<Vec<Item>, NoMemory>
    ensures { IfOk result
        (λ copies. AreInOrderOfId (found lookup.now project.now items.now) copies.items) }
{
    let mut copies = Vec::new(alloc);
    for at in 0..items.len() {
        let item = items.at(at);
        if lookup.finds(project, item) {
            copies.push(item.duplicate()?)?;
        }
    }
    sort_items(&mut copies);
    Ok(copies)
}

/// Puts the items in order of id.
fn sort_items(items: &mut Vec<Item>)
    ensures { AreInOrderOfId items.old.items items.new.items }
{
    items.sort_unstable_by_key(|item| item.id);
}

/// Puts the numbers in order, from the least on.
fn sort(ids: &mut Vec<u32>)
    ensures { AreInOrder (λ id. id) ids.old.items ids.new.items }
{
    ids.sort_unstable();
}
