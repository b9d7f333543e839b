ghost use Rattle.std.specs.Prelude.{◌≡◌};
ghost use Rattle.json_shapes.specs.Reading.{made};
ghost use Rattle.json_requests.specs.declared.request.DataFilter.TheVariants.{DeveloperMetadataLookup, A1Range, GridRange};
ghost use Rattle.json_requests.specs.Metadata.{lookup_place, lookup_texts, lookup_of, metadata_lookup, lookup_filter, text_filter, area_filter, data_filter, looked_up, if_looked_up, lookup_alone};

use crate::area::GridRangeMembers;
use crate::location::LocationMembers;
use crate::metadata_words::{LocationTypes, Strategies, Visibilities};
use crate::{DataFilter, Location, MatchingStrategy, MetadataLookup};
use cell_value::{NoMemory, Text};
use dev_metadata::{SpotKind, VisibilityKind};
use grid_range::Area;
use json_shapes::{
    AnyText, Fields, Index, ObjectOf, Read, Shape, ShapeFault, Word, both, either, just_one,
    optional, way,
};
use serde_json::{Map, Value as Json};
use std::alloc::Global;

/// A kind of location, a location, and how items match it.
type LookupPlace = (
    (Option<SpotKind>, Option<Location>),
    Option<MatchingStrategy>,
);

/// An id, a key and a value.
type LookupTexts = ((Option<u32>, Option<Text>), Option<Text>);

/// Where items lie that are looked up.
#[derive(Clone, Copy)]
struct LookupPlaceMembers;

impl Fields for LookupPlaceMembers {
    type Output = LookupPlace;

    ghost fields = { λ _. lookup_place };

    fn take(
        &self,
        alloc: Global,
        members: &mut Map<String, Json>,
    ) -> Result<Read<LookupPlace>, NoMemory> {
        let kind = optional(alloc, members, "locationType", &Word(LocationTypes))?;
        let location = ObjectOf(LocationMembers);
        let location = optional(alloc, members, "metadataLocation", &location)?;
        let strategy = Word(Strategies);
        let strategy = optional(alloc, members, "locationMatchingStrategy", &strategy)?;
        Ok(both(both(kind, location), strategy))
    }
}

/// What items say that are looked up.
#[derive(Clone, Copy)]
struct LookupTextsMembers;

impl Fields for LookupTextsMembers {
    type Output = LookupTexts;

    ghost fields = { λ _. lookup_texts };

    fn take(
        &self,
        alloc: Global,
        members: &mut Map<String, Json>,
    ) -> Result<Read<LookupTexts>, NoMemory> {
        let id = optional(alloc, members, "metadataId", &Index)?;
        let key = optional(alloc, members, "metadataKey", &AnyText)?;
        let value = optional(alloc, members, "metadataValue", &AnyText)?;
        Ok(both(both(id, key), value))
    }
}

/// DeveloperMetadataLookup
#[derive(Clone, Copy)]
struct LookupMembers;

impl Fields for LookupMembers {
    type Output = MetadataLookup;

    ghost fields = { λ _. metadata_lookup };

    fn take(
        &self,
        alloc: Global,
        members: &mut Map<String, Json>,
    ) -> Result<Read<MetadataLookup>, NoMemory> {
        let place = LookupPlaceMembers.take(alloc, members)?;
        let texts = LookupTextsMembers.take(alloc, members)?;
        let visibility = optional(alloc, members, "visibility", &Word(Visibilities))?;
        Ok(lookup_of(both(both(place, texts), visibility)))
    }
}

/// The look-up.
fn lookup_of(
    parts: Read<((LookupPlace, LookupTexts), Option<VisibilityKind>)>,
) -> Read<MetadataLookup>
    ensures { result ≡ made lookup_of parts }
{
    let ((place, texts), visibility) = parts?;
    let ((location_type, metadata_location), location_matching_strategy) = place;
    let ((metadata_id, metadata_key), metadata_value) = texts;
    Ok(MetadataLookup {
        location_type,
        metadata_location,
        location_matching_strategy,
        metadata_id,
        metadata_key,
        metadata_value,
        visibility,
    })
}

/// A filter of metadata.
#[derive(Clone, Copy)]
struct LookupFilter;

impl Shape for LookupFilter {
    type Output = DataFilter;

    ghost shape = { λ _. lookup_filter };

    fn read(&self, alloc: Global, value: Json) -> Result<Read<DataFilter>, NoMemory> {
        let lookup = ObjectOf(LookupMembers).read(alloc, value)?;
        Ok(filter_of_lookup(lookup))
    }
}

/// The filter of metadata.
fn filter_of_lookup(lookup: Read<MetadataLookup>) -> Read<DataFilter>
    ensures { result ≡ made DeveloperMetadataLookup lookup }
{
    let lookup = lookup?;
    Ok(DataFilter::DeveloperMetadataLookup(lookup))
}

/// A filter of the cells of a range text.
#[derive(Clone, Copy)]
struct TextFilter;

impl Shape for TextFilter {
    type Output = DataFilter;

    ghost shape = { λ _. text_filter };

    fn read(&self, alloc: Global, value: Json) -> Result<Read<DataFilter>, NoMemory> {
        let range = AnyText.read(alloc, value)?;
        Ok(filter_of_text(range))
    }
}

/// The filter of the cells of a range text.
fn filter_of_text(range: Read<Text>) -> Read<DataFilter>
    ensures { result ≡ made A1Range range }
{
    let range = range?;
    Ok(DataFilter::A1Range(range))
}

/// A filter of the cells of an area.
#[derive(Clone, Copy)]
struct AreaFilter;

impl Shape for AreaFilter {
    type Output = DataFilter;

    ghost shape = { λ _. area_filter };

    fn read(&self, alloc: Global, value: Json) -> Result<Read<DataFilter>, NoMemory> {
        let area = ObjectOf(GridRangeMembers).read(alloc, value)?;
        Ok(filter_of_area(area))
    }
}

/// The filter of the cells of an area.
fn filter_of_area(area: Read<Area>) -> Read<DataFilter>
    ensures { result ≡ made GridRange area }
{
    let area = area?;
    Ok(DataFilter::GridRange(area))
}

/// DataFilter (Google Sheets API v4 reference): just one of three.
#[derive(Clone, Copy)]
pub struct DataFilterMembers;

impl Fields for DataFilterMembers {
    type Output = DataFilter;

    ghost fields = { λ _. data_filter };

    fn take(
        &self,
        alloc: Global,
        members: &mut Map<String, Json>,
    ) -> Result<Read<DataFilter>, NoMemory> {
        let lookup = way(alloc, members, "developerMetadataLookup", &LookupFilter)?;
        let text = way(alloc, members, "a1Range", &TextFilter)?;
        let area = way(alloc, members, "gridRange", &AreaFilter)?;
        Ok(just_one(either(either(lookup, text), area)))
    }
}

/// A DataFilter of metadata; those of cells are unsupported.
#[derive(Clone, Copy)]
pub struct LookupAlone;

impl Shape for LookupAlone {
    type Output = MetadataLookup;

    ghost shape = { λ _. lookup_alone };

    fn read(&self, alloc: Global, value: Json) -> Result<Read<MetadataLookup>, NoMemory> {
        let filter = ObjectOf(DataFilterMembers).read(alloc, value)?;
        Ok(if_looked_up(filter))
    }
}

/// The look-up of a filter that was read.
fn if_looked_up(filter: Read<DataFilter>) -> Read<MetadataLookup>
    ensures { result ≡ if_looked_up filter }
{
    match filter {
        Ok(filter) => looked_up(filter),
        Err(fault) => Err(fault),
    }
}

/// The look-up of a filter, where it has one.
fn looked_up(filter: DataFilter) -> Read<MetadataLookup>
    ensures { result ≡ looked_up filter }
{
    match filter {
        DataFilter::DeveloperMetadataLookup(lookup) => Ok(lookup),
        DataFilter::A1Range(_) | DataFilter::GridRange(_) => Err(ShapeFault::Unsupported),
    }
}
