//! What requests and calls on developer metadata have in common.

ghost use Rattle.std.specs.Prelude.{◌≡◌, ◌∷◌, ◌++◌, [], true, IfOk, OnOk, None};
ghost use Rattle.std.specs.List.{All};
ghost use Rattle.std.specs.Option.{option_map, option_map_or};
ghost use Rattle.world_model.specs.Sound.{IsSpotWithin};
ghost use Rattle.dimension_ops.specs.Broken.{first_broken};
ghost use Rattle.dimension_ops.specs.Rules.{IsUnlessNoMemory};
ghost use Rattle.request_kinds.specs.Dimensions.{lines_there};
ghost use Rattle.request_kinds.specs.Metadata.{AreIdsFound, broken_by_location, broken_by_locations, is_intersecting};
ghost use Rattle.request_kinds.specs.Metadata.{items_seen, locations_of, lookup_of, lookups_of, refusal_of, spot_of};

use crate::dimensions::{end_of, lines_of};
use crate::given::given_text;
use cell_value::{Duplicate, Items, NoMemory};
use dev_metadata::{Item, Lookup, MetaFault, Metadata, Spot};
use dimension_ops::{Book, Rule, RuleOr};
use sheets_json::{DimensionRange, Location, MatchingStrategy, MetadataLookup};
use std::alloc::Global;
use std::slice::from_ref;

/// The first rule that one of the locations breaks: its sheet isn't there, its stretch isn't one line, or this isn't
/// there.
pub(crate) fn broken_by_locations(book: &Book, locations: &[Location]) -> Option<Rule>
    ensures broken { result ≡ first_broken (broken_by_locations book.now.sheets locations.now) }
    ensures within { result ≡ None → All (λ one. IsSpotWithin book.now.sheets (spot_of one)) locations.now }
{
    if lacks_one_sheet(book, locations) {
        return Some(Rule::NoSheet);
    }
    if is_one_no_line(book, locations) {
        return Some(Rule::BadRange);
    }
    if is_one_outside(book, locations) {
        return Some(Rule::OutsideGrid);
    }
    None
}

/// Whether the sheet of one of the locations isn't there.
fn lacks_one_sheet(book: &Book, locations: &[Location]) -> bool
    ensures { result ≡ (broken_by_locations book.now.sheets locations.now).no_sheet }
{
    locations.iter().any(|location| lacks_sheet(book, location))
}

/// Whether one of the locations is a stretch of no line or of several.
fn is_one_no_line(book: &Book, locations: &[Location]) -> bool
    ensures { result ≡ (broken_by_locations book.now.sheets locations.now).bad_range }
{
    locations.iter().any(|location| is_no_line(book, location))
}

/// Whether one of the locations is a stretch that ends behind its sheet's last line.
fn is_one_outside(book: &Book, locations: &[Location]) -> bool
    ensures { result ≡ (broken_by_locations book.now.sheets locations.now).outside_grid }
{
    locations.iter().any(|location| is_outside(book, location))
}

/// Whether the location's sheet isn't there.
fn lacks_sheet(book: &Book, location: &Location) -> bool
    ensures { result ≡ (broken_by_location book.now.sheets location.now).no_sheet }
{
    match location {
        Location::Spreadsheet => false,
        Location::Sheet(sheet) => book.sheet(*sheet).is_none(),
        Location::DimensionRange(range) => book.sheet(range.sheet_id).is_none(),
    }
}

/// Whether the location is a stretch of no line or of several.
fn is_no_line(book: &Book, location: &Location) -> bool
    ensures { result ≡ (broken_by_location book.now.sheets location.now).bad_range }
{
    match location {
        Location::Spreadsheet | Location::Sheet(_) => false,
        Location::DimensionRange(range) => {
            u64::from(end_of(book, *range)) != u64::from(range.start_index) + 1
        }
    }
}

/// Whether the location is a stretch that ends behind the sheet's last line.
fn is_outside(book: &Book, location: &Location) -> bool
    ensures { result ≡ (broken_by_location book.now.sheets location.now).outside_grid }
{
    match location {
        Location::Spreadsheet | Location::Sheet(_) => false,
        Location::DimensionRange(range) => end_of(book, *range) > lines_there(book, range),
    }
}

/// How many lines the sheet of a stretch has on its axis; none where it isn't there.
fn lines_there(book: &Book, range: &DimensionRange) -> u32
    ensures { result ≡ lines_there range.now.sheet_id range.now.dimension book.now.sheets }
{
    match book.sheet(range.sheet_id) {
        Some(sheet) => lines_of(sheet, range.dimension),
        None => 0,
    }
}

/// Where an item lies that is put there.
pub(crate) fn spot_of(location: &Location) -> Spot
    ensures { result ≡ spot_of location.now }
{
    match location {
        Location::Spreadsheet => Spot::Spreadsheet,
        Location::Sheet(sheet) => Spot::Sheet(*sheet),
        Location::DimensionRange(range) => {
            Spot::Line(range.sheet_id, range.dimension, range.start_index)
        }
    }
}

/// Where items lie that are put there, if a location is given.
pub(crate) fn given_spot(location: &Option<Location>) -> Option<Spot>
    ensures { result ≡ option_map spot_of location.now }
{
    match location {
        Some(location) => Some(spot_of(location)),
        None => None,
    }
}

/// What is asked of items (Sheets API v4 reference, DeveloperMetadataLookup).
///
/// # Errors
///
/// [`NoMemory`] where memory runs out.
pub fn lookup_of(asked: &MetadataLookup) -> Result<Lookup, NoMemory>
    ensures { IfOk result (λ lookup. lookup ≡ lookup_of asked.now) }
{
    Ok(Lookup {
        kind: asked.location_type,
        spot: given_spot(&asked.metadata_location),
        intersecting: is_intersecting(asked.location_matching_strategy),
        strategy_given: asked.location_matching_strategy.is_some(),
        id: asked.metadata_id,
        key: given_text(&asked.metadata_key)?,
        value: given_text(&asked.metadata_value)?,
        visibility: asked.visibility,
    })
}

/// Whether what is looked for may intersect a location, which it may where nothing is said of it.
fn is_intersecting(strategy: Option<MatchingStrategy>) -> bool
    ensures { result ≡ option_map_or is_intersecting strategy true }
{
    match strategy {
        Some(MatchingStrategy::Exact) => false,
        Some(MatchingStrategy::Intersecting) | None => true,
    }
}

/// What each look-up asks of items.
pub(crate) fn lookups_of(alloc: Global, asked: &[MetadataLookup]) -> Result<Items<Lookup>, NoMemory>
    ensures { IfOk result (λ lookups. lookups ≡ lookups_of asked.now) }
{
    let mut lookups = Vec::new(alloc);
    for one in asked {
        lookups.push(lookup_of(one)?)?;
    }
    Ok(Items::of(lookups))
}

/// The locations that look-ups give.
pub(crate) fn locations_of(
    alloc: Global,
    asked: &[MetadataLookup],
) -> Result<Vec<Location>, NoMemory>
    ensures { IfOk result (λ locations. locations.items ≡ locations_of asked.now) }
{
    let mut locations = Vec::new(alloc);
    for one in asked {
        put_location(&mut locations, one)?;
    }
    Ok(locations)
}

/// Puts the location that a look-up gives behind the others, if it gives one.
fn put_location(locations: &mut Vec<Location>, asked: &MetadataLookup) -> Result<(), NoMemory>
    ensures { OnOk result (locations.new.items ≡ locations.old.items ++ locations_of (asked.now ∷ [])) }
{
    match asked.metadata_location {
        Some(location) => {
            locations.push(location)?;
            Ok(())
        }
        None => Ok(()),
    }
}

/// Copies of the items with those ids that the project sees, in the order of the ids (Sheets API v4 reference,
/// DeveloperMetadata).
///
/// # Errors
///
/// [`NoMemory`] where memory runs out.
pub fn items_seen(
    alloc: Global,
    metadata: &Metadata,
    project: &str,
    ids: &[u32],
) -> Result<Items<Item>, NoMemory>
    ensures { IfOk result (λ items. items ≡ items_seen project.now ids.now metadata.now) }
{
    let mut items = Vec::new(alloc);
    for id in ids {
        put_seen(&mut items, metadata, project, *id)?;
    }
    Ok(Items::of(items))
}

/// Puts a copy of the item with the id behind the others, if the project sees it.
fn put_seen(
    items: &mut Vec<Item>,
    metadata: &Metadata,
    project: &str,
    id: u32,
) -> Result<(), NoMemory>
    ensures { OnOk result (items.new.items ≡ items.old.items ++ items_seen project.now (id ∷ []) metadata.now) }
{
    match metadata.get(id, project) {
        Ok(item) => {
            items.push(item.duplicate()?)?;
            Ok(())
        }
        Err(_) => Ok(()),
    }
}

/// What a fault of the metadata is to a request and to a call: the rule of its name, or want of memory.
pub fn refusal_of(fault: MetaFault) -> RuleOr
    ensures { result ≡ refusal_of fault }
{
    match fault {
        MetaFault::NoId => RuleOr::Rule(Rule::NoId),
        MetaFault::IdTaken => RuleOr::Rule(Rule::IdTaken),
        MetaFault::BadLookup => RuleOr::Rule(Rule::BadLookup),
        MetaFault::NoMemory => RuleOr::NoMemory,
    }
}

/// The ids of the items that the project sees and that the look-up finds, in order (Sheets API v4 reference,
/// DeveloperMetadataLookup).
///
/// # Errors
///
/// The first rule that the look-up breaks: of its location [`Rule::NoSheet`], [`Rule::BadRange`] or
/// [`Rule::OutsideGrid`], and behind these [`Rule::BadLookup`]; [`RuleOr::NoMemory`] where memory runs out.
pub fn ids_found(
    alloc: Global,
    book: &Book,
    project: &str,
    asked: &MetadataLookup,
) -> Result<Items<u32>, RuleOr>
    ensures { IsUnlessNoMemory (AreIdsFound project.now asked.now book.now) result }
{
    if let Some(rule) = broken_by_place(book, asked) {
        return Err(RuleOr::Rule(rule));
    }
    let lookups = lookups_of(alloc, from_ref(asked))?;
    match book.metadata().search(&lookups, project) {
        Ok(ids) => Ok(ids),
        Err(fault) => Err(refusal_of(fault)),
    }
}

/// The first rule that the location of a look-up breaks, if it gives one.
pub(crate) fn broken_by_place(book: &Book, asked: &MetadataLookup) -> Option<Rule>
    ensures { result ≡ first_broken (broken_by_locations book.now.sheets (locations_of (asked.now ∷ []))) }
{
    match asked.metadata_location {
        Some(location) => broken_by_locations(book, &[location]),
        None => None,
    }
}

/// A copy of a look-up.
///
/// # Errors
///
/// [`NoMemory`] where memory runs out.
pub fn copy_lookup(asked: &MetadataLookup) -> Result<MetadataLookup, NoMemory>
    ensures { IfOk result (λ copy. copy ≡ asked.now) }
{
    Ok(MetadataLookup {
        location_type: asked.location_type,
        metadata_location: asked.metadata_location,
        location_matching_strategy: asked.location_matching_strategy,
        metadata_id: asked.metadata_id,
        metadata_key: given_text(&asked.metadata_key)?,
        metadata_value: given_text(&asked.metadata_value)?,
        visibility: asked.visibility,
    })
}
