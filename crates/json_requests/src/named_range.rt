ghost use Rattle.std.specs.Prelude.{◌≡◌};
ghost use Rattle.std.specs.List.{list_all};
ghost use Rattle.json_requests.specs.declared.request.Request.TheVariants.{AddNamedRange, DeleteNamedRange};
ghost use Rattle.json_shapes.specs.Reading.{made};
ghost use Rattle.json_requests.specs.NamedRanges.{is_id_byte, is_range_id, is_range_id_text, new_range_of, new_named_range, add_named_range, changed_range, stated_range, range_paths, update_of, update_named_range, delete_named_range};

use crate::area::GridRangeMembers;
use crate::{NewNamedRange, Request};
use cell_value::{NoMemory, Text};
use grid_range::Area;
use json_shapes::{
    AnyText, BodyPaths, Condition, Fields, ObjectOf, Paths, Read, SuchThat, both, masked, optional,
    required, states, taken,
};
use serde_json::{Map, Value as Json};
use std::alloc::Global;

/// The most bytes of an id.
const LONGEST_ID: usize = 100;

/// It is a text that may be the id of a named range.
#[derive(Clone, Copy)]
struct IsRangeId;

impl Condition for IsRangeId {
    ghost holds = { λ _. is_range_id_text };

    fn holds(&self, value: &Json) -> bool {
        match value {
            Json::String(text) => is_range_id(text.as_str()),
            Json::Null | Json::Bool(_) | Json::Number(_) | Json::Array(_) | Json::Object(_) => {
                false
            }
        }
    }
}

/// The id of a named range.
const RANGE_ID: SuchThat<IsRangeId, AnyText> = SuchThat(IsRangeId, AnyText);

/// Whether the text may be the id of a named range.
fn is_range_id(id: &str) -> bool
    ensures { result ≡ is_range_id id.now }
{
    let bytes = id.as_bytes();
    bytes.len() > 0 && bytes.len() <= LONGEST_ID && are_id_bytes(bytes)
}

/// Whether each byte is an ASCII letter or digit, `_` or `-`.
fn are_id_bytes(bytes: &[u8]) -> bool
    ensures { result ≡ list_all is_id_byte bytes.now }
{
    bytes.iter().all(|byte| byte.is_ascii_alphanumeric() || *byte == b'_' || *byte == b'-')
}

/// The NamedRange that is added.
#[derive(Clone, Copy)]
struct NewNamedRangeMembers;

impl Fields for NewNamedRangeMembers {
    type Output = NewNamedRange;

    ghost fields = { λ _. new_named_range };

    fn take(
        &self,
        alloc: Global,
        members: &mut Map<String, Json>,
    ) -> Result<Read<NewNamedRange>, NoMemory> {
        let id = optional(alloc, members, "namedRangeId", &RANGE_ID)?;
        let name = required(alloc, members, "name", &AnyText)?;
        let range = required(alloc, members, "range", &ObjectOf(GridRangeMembers))?;
        Ok(new_range_of(both(both(id, name), range)))
    }
}

/// The new named range.
fn new_range_of(parts: Read<((Option<Text>, Text), Area)>) -> Read<NewNamedRange>
    ensures { result ≡ made new_range_of parts }
{
    let ((named_range_id, name), range) = parts?;
    Ok(NewNamedRange {
        named_range_id,
        name,
        range,
    })
}

/// AddNamedRangeRequest
#[derive(Clone, Copy)]
pub(crate) struct AddNamedRangeMembers;

impl Fields for AddNamedRangeMembers {
    type Output = Request;

    ghost fields = { λ _. add_named_range };

    fn take(
        &self,
        alloc: Global,
        members: &mut Map<String, Json>,
    ) -> Result<Read<Request>, NoMemory> {
        let named = required(
            alloc,
            members,
            "namedRange",
            &ObjectOf(NewNamedRangeMembers),
        )?;
        Ok(add_of(named))
    }
}

/// A new named range.
fn add_of(parts: Read<NewNamedRange>) -> Read<Request>
    ensures { result ≡ made AddNamedRange parts }
{
    let named_range = parts?;
    Ok(Request::AddNamedRange { named_range })
}

/// An id, and a name and a range, if they are given.
type Changed = ((Text, Option<Text>), Option<Area>);

/// The NamedRange of an update.
#[derive(Clone, Copy)]
struct ChangedRangeMembers;

impl Fields for ChangedRangeMembers {
    type Output = Changed;

    ghost fields = { λ _. changed_range };

    fn take(
        &self,
        alloc: Global,
        members: &mut Map<String, Json>,
    ) -> Result<Read<Changed>, NoMemory> {
        let id = required(alloc, members, "namedRangeId", &RANGE_ID)?;
        let name = optional(alloc, members, "name", &AnyText)?;
        let range = optional(alloc, members, "range", &ObjectOf(GridRangeMembers))?;
        Ok(both(both(id, name), range))
    }
}

/// What the named range of a request states, as it is sent.
#[derive(Clone, Copy)]
pub(crate) struct StatedRange {
    name: bool,
    range: bool,
}

impl Paths for StatedRange {
    ghost listed = { range_paths };

    fn states(&self, path: &str) -> Option<bool> {
        match path {
            "name" => Some(self.name),
            "range" => Some(self.range),
            _ => None,
        }
    }
}

impl BodyPaths for StatedRange {
    ghost of_body = { stated_range };

    fn of(body: &Option<Json>) -> StatedRange {
        StatedRange {
            name: states(body, "name"),
            range: states(body, "range"),
        }
    }
}

/// UpdateNamedRangeRequest
#[derive(Clone, Copy)]
pub(crate) struct UpdateNamedRangeMembers;

impl Fields for UpdateNamedRangeMembers {
    type Output = Request;

    ghost fields = { λ _. update_named_range };

    fn take(
        &self,
        alloc: Global,
        members: &mut Map<String, Json>,
    ) -> Result<Read<Request>, NoMemory> {
        let shape = ObjectOf(ChangedRangeMembers);
        let parts = masked::<_, StatedRange>(alloc, members, "namedRange", &shape)?;
        Ok(update_of(parts))
    }
}

/// The change of a named range: what the mask takes.
fn update_of(parts: Read<(Changed, Text)>) -> Read<Request>
    ensures { result ≡ made update_of parts }
{
    let (((named_range_id, name), range), mask) = parts?;
    let mask = mask.as_str();
    Ok(Request::UpdateNamedRange {
        named_range_id,
        name: taken(mask, "name", name),
        range: taken(mask, "range", range),
    })
}

/// DeleteNamedRangeRequest
#[derive(Clone, Copy)]
pub(crate) struct DeleteNamedRangeMembers;

impl Fields for DeleteNamedRangeMembers {
    type Output = Request;

    ghost fields = { λ _. delete_named_range };

    fn take(
        &self,
        alloc: Global,
        members: &mut Map<String, Json>,
    ) -> Result<Read<Request>, NoMemory> {
        let id = required(alloc, members, "namedRangeId", &RANGE_ID)?;
        Ok(delete_of(id))
    }
}

/// The removal of a named range.
fn delete_of(parts: Read<Text>) -> Read<Request>
    ensures { result ≡ made DeleteNamedRange parts }
{
    let named_range_id = parts?;
    Ok(Request::DeleteNamedRange { named_range_id })
}
