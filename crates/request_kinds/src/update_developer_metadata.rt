ghost use Rattle.std.specs.Prelude.{◌≡◌, IfOk};
ghost use Rattle.dimension_ops.specs.Rules.{IsUnlessNoMemory};
ghost use Rattle.request_kinds.specs.Telling.{IsDoneTo};
ghost use Rattle.request_kinds.specs.UpdateDeveloperMetadata.{IsUpdateDeveloperMetadata, locations_named, patch_of};

use crate::given::given_text;
use crate::metadata::{
    broken_by_locations, given_spot, items_seen, locations_of, lookups_of, refusal_of,
};
use cell_value::NoMemory;
use dev_metadata::ItemPatch;
use dimension_ops::{Book, RuleOr};
use json_requests::MetadataPatch;
use sheets_json::{Location, MetadataLookup, Reply};
use std::alloc::Global;

/// Gives the items that one of the look-ups finds the members that are given, and replies these items.
pub(crate) fn update_developer_metadata(
    alloc: Global,
    book: &mut Book,
    project: &str,
    asked: &[MetadataLookup],
    patch: &MetadataPatch,
) -> Result<Reply, RuleOr>
    ensures { IsUnlessNoMemory (IsDoneTo (IsUpdateDeveloperMetadata project.now asked.now patch.now book.old)
        book.old book.new) result }
{
    let locations = locations_named(alloc, asked, patch)?;
    if let Some(rule) = broken_by_locations(book, &locations) {
        return Err(RuleOr::Rule(rule));
    }
    let lookups = lookups_of(alloc, asked)?;
    let patch = patch_of(patch)?;
    match book.update_items(&lookups, project, &patch) {
        Ok(ids) => Ok(Reply::UpdateDeveloperMetadata {
            developer_metadata: items_seen(alloc, book.metadata(), project, ids.as_slice())?,
        }),
        Err(fault) => Err(refusal_of(fault)),
    }
}

/// The locations of the look-ups, and the one that is given.
fn locations_named(
    alloc: Global,
    asked: &[MetadataLookup],
    patch: &MetadataPatch,
) -> Result<Vec<Location>, NoMemory>
    ensures { IfOk result (λ locations. locations.items ≡ locations_named asked.now patch.now) }
{
    let mut locations = locations_of(alloc, asked)?;
    match patch.location {
        Some(location) => {
            locations.push(location)?;
            Ok(locations)
        }
        None => Ok(locations),
    }
}

/// The members that are given.
fn patch_of(asked: &MetadataPatch) -> Result<ItemPatch, NoMemory>
    ensures { IfOk result (λ patch. patch ≡ patch_of asked.now) }
{
    Ok(ItemPatch {
        key: given_text(&asked.metadata_key)?,
        value: given_text(&asked.metadata_value)?,
        spot: given_spot(&asked.location),
        visibility: asked.visibility,
    })
}
