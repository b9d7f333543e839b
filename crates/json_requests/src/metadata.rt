ghost use Rattle.std.specs.Prelude.{◌≡◌};
ghost use Rattle.json_shapes.specs.Reading.{made};
ghost use Rattle.json_requests.specs.declared.request.Request.TheVariants.{CreateDeveloperMetadata, DeleteDeveloperMetadata};
ghost use Rattle.json_requests.specs.Metadata.{is_key, is_key_text, new_metadata_texts, new_metadata_of, new_metadata, create_developer_metadata, changed_texts, patch_of, changed_metadata, stated_metadata, metadata_paths, masked_metadata, update_of, update_developer_metadata, delete_developer_metadata};

use crate::data_filter::LookupAlone;
use crate::location::LocationMembers;
use crate::metadata_words::Visibilities;
use crate::{Location, MetadataLookup, MetadataPatch, NewMetadata, Request};
use cell_value::{Items, NoMemory, Text};
use dev_metadata::VisibilityKind;
use json_shapes::{
    AnyText, BodyPaths, Condition, Fields, Index, ListOf, ObjectOf, Paths, Read, SuchThat, Word,
    both, masked, optional, required, states, taken,
};
use serde_json::{Map, Value as Json};
use std::alloc::Global;

/// The most bytes of a key.
const LONGEST_KEY: usize = 1000;

/// It is a text that may be the key of an item.
#[derive(Clone, Copy)]
struct IsKey;

impl Condition for IsKey {
    ghost holds = { λ _. is_key_text };

    fn holds(&self, value: &Json) -> bool {
        match value {
            Json::String(text) => is_key(text.as_str()),
            Json::Null | Json::Bool(_) | Json::Number(_) | Json::Array(_) | Json::Object(_) => {
                false
            }
        }
    }
}

/// The key of an item.
const KEY: SuchThat<IsKey, AnyText> = SuchThat(IsKey, AnyText);

/// Whether the text may be the key of an item.
fn is_key(key: &str) -> bool
    ensures { result ≡ is_key key.now }
{
    key.len() > 0 && key.len() <= LONGEST_KEY
}

/// An id, a key and a value.
type NewTexts = ((Option<u32>, Text), Option<Text>);

/// What a new item says.
#[derive(Clone, Copy)]
struct NewTextsMembers;

impl Fields for NewTextsMembers {
    type Output = NewTexts;

    ghost fields = { λ _. new_metadata_texts };

    fn take(
        &self,
        alloc: Global,
        members: &mut Map<String, Json>,
    ) -> Result<Read<NewTexts>, NoMemory> {
        let id = optional(alloc, members, "metadataId", &Index)?;
        let key = required(alloc, members, "metadataKey", &KEY)?;
        let value = optional(alloc, members, "metadataValue", &AnyText)?;
        Ok(both(both(id, key), value))
    }
}

/// The DeveloperMetadata that is created.
#[derive(Clone, Copy)]
struct NewMetadataMembers;

impl Fields for NewMetadataMembers {
    type Output = NewMetadata;

    ghost fields = { λ _. new_metadata };

    fn take(
        &self,
        alloc: Global,
        members: &mut Map<String, Json>,
    ) -> Result<Read<NewMetadata>, NoMemory> {
        let texts = NewTextsMembers.take(alloc, members)?;
        let location = required(alloc, members, "location", &ObjectOf(LocationMembers))?;
        let visibility = required(alloc, members, "visibility", &Word(Visibilities))?;
        Ok(new_metadata_of(both(both(texts, location), visibility)))
    }
}

/// The new item.
fn new_metadata_of(parts: Read<((NewTexts, Location), VisibilityKind)>) -> Read<NewMetadata>
    ensures { result ≡ made new_metadata_of parts }
{
    let ((((metadata_id, metadata_key), metadata_value), location), visibility) = parts?;
    Ok(NewMetadata {
        metadata_id,
        metadata_key,
        metadata_value,
        location,
        visibility,
    })
}

/// CreateDeveloperMetadataRequest
#[derive(Clone, Copy)]
pub(crate) struct CreateMetadataMembers;

impl Fields for CreateMetadataMembers {
    type Output = Request;

    ghost fields = { λ _. create_developer_metadata };

    fn take(
        &self,
        alloc: Global,
        members: &mut Map<String, Json>,
    ) -> Result<Read<Request>, NoMemory> {
        let item = ObjectOf(NewMetadataMembers);
        let item = required(alloc, members, "developerMetadata", &item)?;
        Ok(create_of(item))
    }
}

/// A new item.
fn create_of(parts: Read<NewMetadata>) -> Read<Request>
    ensures { result ≡ made CreateDeveloperMetadata parts }
{
    let developer_metadata = parts?;
    Ok(Request::CreateDeveloperMetadata { developer_metadata })
}

/// An id, a key and a value, if they are given.
type ChangedTexts = ((Option<u32>, Option<Text>), Option<Text>);

/// What an item says from now on.
#[derive(Clone, Copy)]
struct ChangedTextsMembers;

impl Fields for ChangedTextsMembers {
    type Output = ChangedTexts;

    ghost fields = { λ _. changed_texts };

    fn take(
        &self,
        alloc: Global,
        members: &mut Map<String, Json>,
    ) -> Result<Read<ChangedTexts>, NoMemory> {
        let id = optional(alloc, members, "metadataId", &Index)?;
        let key = optional(alloc, members, "metadataKey", &KEY)?;
        let value = optional(alloc, members, "metadataValue", &AnyText)?;
        Ok(both(both(id, key), value))
    }
}

/// The DeveloperMetadata of an update.
#[derive(Clone, Copy)]
struct ChangedMetadataMembers;

impl Fields for ChangedMetadataMembers {
    type Output = MetadataPatch;

    ghost fields = { λ _. changed_metadata };

    fn take(
        &self,
        alloc: Global,
        members: &mut Map<String, Json>,
    ) -> Result<Read<MetadataPatch>, NoMemory> {
        let texts = ChangedTextsMembers.take(alloc, members)?;
        let location = optional(alloc, members, "location", &ObjectOf(LocationMembers))?;
        let visibility = optional(alloc, members, "visibility", &Word(Visibilities))?;
        Ok(patch_of(both(both(texts, location), visibility)))
    }
}

/// What is given of the items.
fn patch_of(
    parts: Read<((ChangedTexts, Option<Location>), Option<VisibilityKind>)>,
) -> Read<MetadataPatch>
    ensures { result ≡ made patch_of parts }
{
    let ((((_, metadata_key), metadata_value), location), visibility) = parts?;
    Ok(MetadataPatch {
        metadata_key,
        metadata_value,
        location,
        visibility,
    })
}

/// What the metadata of a request states, as it is sent.
#[derive(Clone, Copy)]
pub(crate) struct StatedMetadata {
    key: bool,
    value: bool,
    location: bool,
    visibility: bool,
}

impl Paths for StatedMetadata {
    ghost listed = { metadata_paths };

    fn states(&self, path: &str) -> Option<bool> {
        match path {
            "metadataKey" => Some(self.key),
            "metadataValue" => Some(self.value),
            "location" => Some(self.location),
            "visibility" => Some(self.visibility),
            _ => None,
        }
    }
}

impl BodyPaths for StatedMetadata {
    ghost of_body = { stated_metadata };

    fn of(body: &Option<Json>) -> StatedMetadata {
        StatedMetadata {
            key: states(body, "metadataKey"),
            value: states(body, "metadataValue"),
            location: states(body, "location"),
            visibility: states(body, "visibility"),
        }
    }
}

/// UpdateDeveloperMetadataRequest
#[derive(Clone, Copy)]
pub(crate) struct UpdateMetadataMembers;

impl Fields for UpdateMetadataMembers {
    type Output = Request;

    ghost fields = { λ _. update_developer_metadata };

    fn take(
        &self,
        alloc: Global,
        members: &mut Map<String, Json>,
    ) -> Result<Read<Request>, NoMemory> {
        let filters = required(alloc, members, "dataFilters", &ListOf(LookupAlone))?;
        let shape = ObjectOf(ChangedMetadataMembers);
        let patch = masked::<_, StatedMetadata>(alloc, members, "developerMetadata", &shape)?;
        Ok(update_of(both(filters, patch)))
    }
}

/// The change of items: what the mask takes.
fn update_of(parts: Read<(Items<MetadataLookup>, (MetadataPatch, Text))>) -> Read<Request>
    ensures { result ≡ made update_of parts }
{
    let (data_filters, (patch, mask)) = parts?;
    Ok(Request::UpdateDeveloperMetadata {
        data_filters,
        developer_metadata: masked_metadata(patch, &mask),
    })
}

/// What the mask takes of the patch.
fn masked_metadata(patch: MetadataPatch, mask: &Text) -> MetadataPatch
    ensures { result ≡ masked_metadata (patch, mask.now) }
{
    let mask = mask.as_str();
    MetadataPatch {
        metadata_key: taken(mask, "metadataKey", patch.metadata_key),
        metadata_value: taken(mask, "metadataValue", patch.metadata_value),
        location: taken(mask, "location", patch.location),
        visibility: taken(mask, "visibility", patch.visibility),
    }
}

/// DeleteDeveloperMetadataRequest
#[derive(Clone, Copy)]
pub(crate) struct DeleteMetadataMembers;

impl Fields for DeleteMetadataMembers {
    type Output = Request;

    ghost fields = { λ _. delete_developer_metadata };

    fn take(
        &self,
        alloc: Global,
        members: &mut Map<String, Json>,
    ) -> Result<Read<Request>, NoMemory> {
        let filter = required(alloc, members, "dataFilter", &LookupAlone)?;
        Ok(delete_of(filter))
    }
}

/// The removal of items.
fn delete_of(parts: Read<MetadataLookup>) -> Read<Request>
    ensures { result ≡ made DeleteDeveloperMetadata parts }
{
    let data_filter = parts?;
    Ok(Request::DeleteDeveloperMetadata { data_filter })
}
