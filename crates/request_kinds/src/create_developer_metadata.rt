ghost use Rattle.std.specs.Prelude.{◌≡◌, ◌<◌, ◌+◌, [], None, length, nat_lt, IfOk, unwrap_or};
ghost use Rattle.cell_value.specs.Ids.{IsLeastUnused, IsNewId, is_taken};
ghost use Rattle.dev_metadata.specs.Listed.{has_id};
ghost use Rattle.dimension_ops.specs.Broken.{first_broken};
ghost use Rattle.dimension_ops.specs.MetadataRequests.{MetadataBecomes};
ghost use Rattle.dimension_ops.specs.Rules.{IsUnlessNoMemory};
ghost use Rattle.world_model.specs.Sound.{IsSpotWithin};
ghost use Rattle.request_kinds.specs.CreateDeveloperMetadata.{IsCreateDeveloperMetadata, item_made, metadata_created_broken, with_item};
ghost use Rattle.request_kinds.specs.Telling.{IsDoneTo};
ghost use Rattle.request_kinds.specs.Metadata.{most_metadata, spot_of};

use crate::metadata::{broken_by_locations, spot_of};
use cell_value::{Duplicate, NoMemory, Text};
use dev_metadata::Item;
use dimension_ops::{Book, Limit, Rule, RuleOr};
use json_requests::NewMetadata;
use sheets_json::Reply;
use std::alloc::Global;

/// How many items of metadata a spreadsheet can have.
const MOST_METADATA: u64 = 10_000;

/// Creates an item of metadata, and replies it.
pub(crate) fn create_developer_metadata(
    alloc: Global,
    book: &mut Book,
    project: &str,
    asked: &NewMetadata,
) -> Result<Reply, RuleOr>
    ensures { IsUnlessNoMemory (IsDoneTo (IsCreateDeveloperMetadata project.now asked.now book.old)
        book.old book.new) result }
{
    if let Some(rule) = broken(book, asked) {
        return Err(RuleOr::Rule(rule));
    }
    let id = created(alloc, book, project, asked)?;
    Ok(Reply::CreateDeveloperMetadata {
        developer_metadata: item_of(alloc, project, asked, id)?,
    })
}

/// The first rule that is broken, if one is.
fn broken(book: &Book, asked: &NewMetadata) -> Option<Rule>
    ensures broken { result ≡ first_broken (metadata_created_broken asked.now book.now) }
    ensures within { result ≡ None → IsSpotWithin book.now.sheets (spot_of asked.now.location) }
    ensures room { result ≡ None → length book.now.metadata < 4294967295 }
{
    if let Some(rule) = broken_by_locations(book, &[asked.location]) {
        return Some(rule);
    }
    if is_taken(book, asked.metadata_id) {
        return Some(Rule::IdTaken);
    }
    let count = book.metadata().count();
    if is_full(count) {
        return Some(Rule::PastLimit(Limit::Metadata));
    }
    None
}

/// Whether an item has the id that is asked for, whether the project sees it or not.
fn is_taken(book: &Book, id: Option<u32>) -> bool
    ensures { result ≡ is_taken (has_id book.now.metadata) id }
{
    match id {
        Some(id) => book.metadata().has_id(id),
        None => false,
    }
}

/// Whether a spreadsheet with so many items of metadata can't have one more.
fn is_full(count: u64) -> bool
    ensures { result ≡ nat_lt most_metadata (count + 1) }
{
    count >= MOST_METADATA
}

/// Puts the item behind the others, and gives its id.
fn created(
    alloc: Global,
    book: &mut Book,
    project: &str,
    asked: &NewMetadata,
) -> Result<u32, NoMemory>
    requires within { IsSpotWithin book.old.sheets (spot_of asked.now.location) }
    requires room { length book.old.metadata < 4294967295 }
    ensures id { IfOk result (IsNewId (IsLeastUnused (has_id book.old.metadata)) asked.now.metadata_id) }
    ensures put { IfOk result (λ id. MetadataBecomes
        (with_item (item_made project.now asked.now id) book.old.metadata) book.old book.new) }
{
    let key = asked.metadata_key.duplicate()?;
    let value = value_of(alloc, asked)?;
    let visibility = asked.visibility.under(alloc, project)?;
    let spot = spot_of(&asked.location);
    match book.create_item(asked.metadata_id, key, value, spot, visibility) {
        Ok(id) => Ok(id),
        Err(_) => Err(NoMemory),
    }
}

/// The item as it is created, with its id.
fn item_of(alloc: Global, project: &str, asked: &NewMetadata, id: u32) -> Result<Item, NoMemory>
    ensures { IfOk result (λ item. item ≡ item_made project.now asked.now id) }
{
    Ok(Item {
        id,
        key: asked.metadata_key.duplicate()?,
        value: value_of(alloc, asked)?,
        spot: spot_of(&asked.location),
        visibility: asked.visibility.under(alloc, project)?,
    })
}

/// The value that is given, or the empty one.
fn value_of(alloc: Global, asked: &NewMetadata) -> Result<Text, NoMemory>
    ensures { IfOk result (λ value. value ≡ unwrap_or asked.now.metadata_value []) }
{
    match &asked.metadata_value {
        Some(value) => value.duplicate(),
        None => Ok(Text::of(String::new(alloc))),
    }
}
