//! Looks at developer metadata.

ghost use Rattle.std.specs.Prelude.{◌≡◌, ◌==◌, ◌∷◌, ◌++◌, [], map, IfOk, OnOk};
ghost use Rattle.std.specs.List.{All, list_any};
ghost use Rattle.std.specs.List.Sorted.{IsNonDecreasingBy};
ghost use Rattle.dev_metadata.specs.Listed.{AreIdsInOrder, found_by_some};
ghost use Rattle.dimension_ops.specs.Rules.{IsUnlessNoMemory};
ghost use Rattle.request_kinds.specs.Metadata.{lookups_of};
ghost use Rattle.batch_engine.specs.Calls.{IsSearchOf};
ghost use Rattle.batch_engine.specs.Effects.Effect.{Nothing};
ghost use Rattle.batch_engine.specs.Members.{InOrder};
ghost use Rattle.batch_engine.specs.Searches.{AreMatched, IsSearchDone, IsSearched, asked_of, filters_met, item_told, with_filters};

use crate::answers::{rule_of, unless_empty};
use crate::calls::judged;
use crate::lists::Refusal;
use cell_value::{Duplicate, Items, NoMemory};
use dev_metadata::{Item, Lookup};
use dimension_ops::{Book, Rule, RuleOr};
use request_kinds::{copy_lookup, ids_found, items_seen, lookup_of, refusal_of};
use sheets_json::{Answer, DataFilter, MatchedMetadata, MetadataLookup, Place, ShapeFault};
use std::alloc::Global;

/// What a look at the item with the id is answered.
pub(crate) fn item(book: &Book, project: &str, id: u32) -> Result<Answer, RuleOr>
    ensures { IsUnlessNoMemory (λ told. told ≡ item_told project.now id book.now) result }
{
    match book.metadata().get(id, project) {
        Ok(item) => Ok(Answer::Item(item.duplicate()?)),
        Err(fault) => Err(refusal_of(fault)),
    }
}

/// A filter of a search, and the ids of the items that it finds, in order.
#[derive(Drop)]
struct Searched {
    asked: MetadataLookup,
    ids: Items<u32>,
}

/// What a search for items is answered.
pub(crate) fn search(
    alloc: Global,
    book: &Book,
    project: &str,
    filters: &[Result<MetadataLookup, ShapeFault>],
) -> Result<Result<Answer, Refusal>, NoMemory>
    ensures { IfOk result (λ told. IsSearchOf project.now filters.now book.now told Nothing) }
{
    match all_searched(alloc, book, project, filters)? {
        Ok(searched) => {
            let all = all_matched(alloc, book, project, searched.as_slice())?;
            Ok(Ok(Answer::Search {
                matched_developer_metadata: unless_empty(all),
            }))
        }
        Err((at, rule)) => Ok(Err((Place::Filters(at as u64), rule))),
    }
}

/// What each filter finds, or the first that breaks a rule, by its place.
fn all_searched(
    alloc: Global,
    book: &Book,
    project: &str,
    filters: &[Result<MetadataLookup, ShapeFault>],
) -> Result<Result<Items<Searched>, (usize, Rule)>, NoMemory>
    ensures { IfOk result (InOrder (IsSearched project.now book.now) 0 filters.now) }
{
    let mut all = Vec::new(alloc);
    for at in 0..filters.len() {
        match judged(one_searched(alloc, book, project, &filters[at]))? {
            Ok(one) => all.push(one)?,
            Err(rule) => return Ok(Err((at, rule))),
        }
    }
    Ok(Ok(Items::of(all)))
}

/// What a filter finds.
fn one_searched(
    alloc: Global,
    book: &Book,
    project: &str,
    filter: &Result<MetadataLookup, ShapeFault>,
) -> Result<Searched, RuleOr>
    ensures { IsUnlessNoMemory (IsSearched project.now book.now filter.now) result }
{
    match filter {
        Ok(asked) => Ok(Searched {
            ids: ids_found(alloc, book, project, asked)?,
            asked: copy_lookup(asked)?,
        }),
        Err(fault) => Err(RuleOr::Rule(rule_of(*fault))),
    }
}

/// The items that one of the filters finds, in order of id, each with those of the filters that it meets.
fn all_matched(
    alloc: Global,
    book: &Book,
    project: &str,
    searched: &[Searched],
) -> Result<Items<MatchedMetadata>, NoMemory>
    requires { All (IsSearchDone project.now book.now.metadata) searched.now }
    ensures { IfOk result (AreMatched project.now book.now.metadata searched.now) }
{
    book.items_have_own_ids();
    let ids = all_ids(alloc, book, project, searched)?;
    let items = items_seen(alloc, book.metadata(), project, ids.as_slice())?;
    Ok(with_filters(alloc, searched, items)?)
}

/// The ids of the items that one of the filters finds, in order.
fn all_ids(
    alloc: Global,
    book: &Book,
    project: &str,
    searched: &[Searched],
) -> Result<Items<u32>, NoMemory>
    ensures { IfOk result
        (AreIdsInOrder (found_by_some (lookups_of (asked_of searched.now)) project.now book.now.metadata)) }
{
    let lookups = lookups_asked(alloc, searched)?;
    match book.metadata().search(&lookups, project) {
        Ok(ids) => Ok(ids),
        Err(_) => Err(NoMemory),
    }
}

/// What each of the filters asks of items.
fn lookups_asked(alloc: Global, searched: &[Searched]) -> Result<Items<Lookup>, NoMemory>
    ensures { IfOk result (λ lookups. lookups ≡ lookups_of (asked_of searched.now)) }
{
    let mut lookups = Vec::new(alloc);
    for one in searched {
        lookups.push(lookup_of(&one.asked)?)?;
    }
    Ok(Items::of(lookups))
}

/// The items, each with those of the filters that find it.
fn with_filters(
    alloc: Global,
    searched: &[Searched],
    items: Items<Item>,
) -> Result<Items<MatchedMetadata>, NoMemory>
    requires { All (λ one. IsNonDecreasingBy (λ id. id) one.ids) searched.now }
    ensures { IfOk result (λ all. all ≡ map (with_filters searched.now) items) }
{
    let mut all = Vec::new(alloc);
    for item in items.into_vec() {
        all.push(MatchedMetadata {
            data_filters: filters_met(alloc, searched, item.id)?,
            developer_metadata: item,
        })?;
    }
    Ok(Items::of(all))
}

/// Copies of the filters that find the item with the id, in their order.
fn filters_met(alloc: Global, searched: &[Searched], id: u32) -> Result<Items<DataFilter>, NoMemory>
    requires { All (λ one. IsNonDecreasingBy (λ id. id) one.ids) searched.now }
    ensures { IfOk result (λ met. met ≡ filters_met id searched.now) }
{
    let mut met = Vec::new(alloc);
    for one in searched {
        put_met(&mut met, one, id)?;
    }
    Ok(Items::of(met))
}

/// Puts a copy of the filter behind the others, if it finds the item with the id.
fn put_met(met: &mut Vec<DataFilter>, one: &Searched, id: u32) -> Result<(), NoMemory>
    requires { IsNonDecreasingBy (λ id. id) one.now.ids }
    ensures { OnOk result (met.new.items ≡ met.old.items ++ filters_met id (one.now ∷ [])) }
{
    if is_among(one.ids.as_slice(), id) {
        met.push(DataFilter::DeveloperMetadataLookup(copy_lookup(&one.asked)?))?;
        Ok(())
    } else {
        Ok(())
    }
}

/// Whether the id is one of these, which are in order.
fn is_among(ids: &[u32], id: u32) -> bool
    requires { IsNonDecreasingBy (λ one. one) ids.now }
    ensures { result ≡ list_any (λ one. one == id) ids.now }
{
    ids.binary_search(&id).is_ok()
}
