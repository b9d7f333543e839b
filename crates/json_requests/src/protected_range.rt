ghost use Rattle.std.specs.Prelude.{◌≡◌, false, Some};
ghost use Rattle.std.specs.Option.{option_map, option_map_or};
ghost use Rattle.serde_json.specs.Find.{as_str};
ghost use Rattle.serde_json.specs.Data.{array};
ghost use Rattle.serde_json.specs.View.{view, items_view};
ghost use Rattle.json_shapes.specs.Reading.{made};
ghost use Rattle.json_shapes.specs.Masks.{takes};
ghost use Rattle.json_requests.specs.declared.request.Request.TheVariants.{DeleteProtectedRange};
ghost use Rattle.json_requests.specs.ProtectedRanges.{or_no_users, editors, protection_marks, protection_lists, patch_of, is_part, has_items, opens_part, keeps_parts, new_protection_of, new_protected_range, add_protected_range, changed_protection_of, changed_protected_range, stated_protection, protection_paths, masked_patch, update_of, update_protected_range, takes_of, keeps_taken_parts, delete_protected_range};

use crate::Request;
use crate::area::GridRangeMembers;
use cell_value::{Items, NoMemory, Text};
use grid_range::Area;
use json_shapes::{
    AnyText, Anything, BodyPaths, Condition, Fields, Index, ListOf, ObjectOf, Paths, Read,
    SuchThat, Truth, both, given_member, has_member, masked, optional, required, states, taken,
    takes,
};
use protection::ProtectionPatch;
use serde_json::{Map, Value as Json};
use std::alloc::Global;

/// A description, whether it only warns, and what is passed over.
type Marks = ((Option<Text>, Option<bool>), Option<()>);

/// The ranges that are left open, and the editors.
type Lists = (Option<Items<Area>>, Option<Items<Text>>);

/// Editors
#[derive(Clone, Copy)]
struct EditorsMembers;

impl Fields for EditorsMembers {
    type Output = Items<Text>;

    ghost fields = { λ _. editors };

    fn take(
        &self,
        alloc: Global,
        members: &mut Map<String, Json>,
    ) -> Result<Read<Items<Text>>, NoMemory> {
        let users = optional(alloc, members, "users", &ListOf(AnyText))?;
        Ok(or_no_users(alloc, users))
    }
}

/// The users, none where none are given.
fn or_no_users(alloc: Global, users: Read<Option<Items<Text>>>) -> Read<Items<Text>>
    ensures { result ≡ made or_no_users users }
{
    match users? {
        Some(users) => Ok(users),
        None => Ok(Items::of(Vec::new(alloc))),
    }
}

/// What is told of a protected range.
#[derive(Clone, Copy)]
struct MarksMembers;

impl Fields for MarksMembers {
    type Output = Marks;

    ghost fields = { λ _. protection_marks };

    fn take(
        &self,
        alloc: Global,
        members: &mut Map<String, Json>,
    ) -> Result<Read<Marks>, NoMemory> {
        let description = optional(alloc, members, "description", &AnyText)?;
        let warning = optional(alloc, members, "warningOnly", &Truth)?;
        let can_edit = optional(alloc, members, "requestingUserCanEdit", &Anything)?;
        Ok(both(both(description, warning), can_edit))
    }
}

/// Which cells and which users it lets through.
#[derive(Clone, Copy)]
struct ListsMembers;

impl Fields for ListsMembers {
    type Output = Lists;

    ghost fields = { λ _. protection_lists };

    fn take(
        &self,
        alloc: Global,
        members: &mut Map<String, Json>,
    ) -> Result<Read<Lists>, NoMemory> {
        let ranges = ListOf(ObjectOf(GridRangeMembers));
        let unprotected = optional(alloc, members, "unprotectedRanges", &ranges)?;
        let editors = optional(alloc, members, "editors", &ObjectOf(EditorsMembers))?;
        Ok(both(unprotected, editors))
    }
}

/// What is given of a protected range.
fn patch_of(area: Option<Area>, marks: Marks, lists: Lists) -> ProtectionPatch
    ensures { result ≡ patch_of area marks lists }
{
    let ((description, warning_only), _) = marks;
    let (unprotected, editors) = lists;
    ProtectionPatch {
        area,
        description,
        warning_only,
        unprotected,
        editors,
    }
}

/// Whether an index of the range is given.
fn is_part(range: &Json) -> bool
    ensures { result ≡ is_part (Some (view range.now)) }
{
    has_member(range, "startRowIndex")
        || has_member(range, "endRowIndex")
        || has_member(range, "startColumnIndex")
        || has_member(range, "endColumnIndex")
}

/// Whether the value is a list of something.
fn has_items(value: &Json) -> bool
    ensures { result ≡ has_items (view value.now) }
{
    match value {
        Json::Array(values) => is_filled(values.as_slice()),
        Json::Null | Json::Bool(_) | Json::Number(_) | Json::String(_) | Json::Object(_) => false,
    }
}

/// Whether there is a value.
fn is_filled(values: &[Json]) -> bool
    ensures { result ≡ has_items (array (items_view values.now)) }
{
    match values {
        [] => false,
        [_, ..] => true,
    }
}

/// Whether unprotected ranges are sent with a part of a sheet.
fn opens_part(protected: &Json) -> bool
    ensures { result ≡ opens_part (Some (view protected.now)) }
{
    is_part_given(given_member(protected, "range"))
        && has_items_given(given_member(protected, "unprotectedRanges"))
}

/// Whether a range is given, and an index of it.
fn is_part_given(range: Option<&Json>) -> bool
    ensures { result ≡ is_part (option_map (λ json. view json.now) range.entry) }
{
    match range {
        Some(range) => is_part(range),
        None => false,
    }
}

/// Whether a list of something is given.
fn has_items_given(list: Option<&Json>) -> bool
    ensures { result ≡ option_map_or has_items (option_map (λ json. view json.now) list.entry) false }
{
    match list {
        Some(list) => has_items(list),
        None => false,
    }
}

/// It doesn't open ranges of a part of a sheet.
#[derive(Clone, Copy)]
pub(crate) struct KeepsParts;

impl Condition for KeepsParts {
    ghost holds = { λ _. keeps_parts };

    fn holds(&self, value: &Json) -> bool {
        !opens_part(value)
    }
}

/// The ProtectedRange that is added.
#[derive(Clone, Copy)]
struct NewProtectedRangeMembers;

impl Fields for NewProtectedRangeMembers {
    type Output = Request;

    ghost fields = { λ _. new_protected_range };

    fn take(
        &self,
        alloc: Global,
        members: &mut Map<String, Json>,
    ) -> Result<Read<Request>, NoMemory> {
        let id = optional(alloc, members, "protectedRangeId", &Index)?;
        let range = required(alloc, members, "range", &ObjectOf(GridRangeMembers))?;
        let marks = MarksMembers.take(alloc, members)?;
        let lists = ListsMembers.take(alloc, members)?;
        Ok(new_protection_of(both(both(both(id, range), marks), lists)))
    }
}

/// A new protected range.
fn new_protection_of(parts: Read<(((Option<u32>, Area), Marks), Lists)>) -> Read<Request>
    ensures { result ≡ made new_protection_of parts }
{
    let (((protected_range_id, range), marks), lists) = parts?;
    Ok(Request::AddProtectedRange {
        protected_range_id,
        patch: patch_of(Some(range), marks, lists),
    })
}

/// AddProtectedRangeRequest
#[derive(Clone, Copy)]
pub(crate) struct AddProtectedRangeMembers;

impl Fields for AddProtectedRangeMembers {
    type Output = Request;

    ghost fields = { λ _. add_protected_range };

    fn take(
        &self,
        alloc: Global,
        members: &mut Map<String, Json>,
    ) -> Result<Read<Request>, NoMemory> {
        let shape = SuchThat(KeepsParts, ObjectOf(NewProtectedRangeMembers));
        required(alloc, members, "protectedRange", &shape)
    }
}

/// The ProtectedRange of an update.
#[derive(Clone, Copy)]
struct ChangedProtectedRangeMembers;

impl Fields for ChangedProtectedRangeMembers {
    type Output = (u32, ProtectionPatch);

    ghost fields = { λ _. changed_protected_range };

    fn take(
        &self,
        alloc: Global,
        members: &mut Map<String, Json>,
    ) -> Result<Read<(u32, ProtectionPatch)>, NoMemory> {
        let id = required(alloc, members, "protectedRangeId", &Index)?;
        let range = optional(alloc, members, "range", &ObjectOf(GridRangeMembers))?;
        let marks = MarksMembers.take(alloc, members)?;
        let lists = ListsMembers.take(alloc, members)?;
        Ok(changed_protection_of(both(both(both(id, range), marks), lists)))
    }
}

/// An id, and what is given of the protected range.
fn changed_protection_of(
    parts: Read<(((u32, Option<Area>), Marks), Lists)>,
) -> Read<(u32, ProtectionPatch)>
    ensures { result ≡ made changed_protection_of parts }
{
    let (((id, range), marks), lists) = parts?;
    Ok((id, patch_of(range, marks, lists)))
}

/// What the protected range of a request states, as it is sent.
#[derive(Clone, Copy)]
pub(crate) struct StatedProtection {
    range: bool,
    description: bool,
    warning_only: bool,
    unprotected_ranges: bool,
    editors: bool,
}

impl Paths for StatedProtection {
    ghost listed = { protection_paths };

    fn states(&self, path: &str) -> Option<bool> {
        match path {
            "range" => Some(self.range),
            "description" => Some(self.description),
            "warningOnly" => Some(self.warning_only),
            "unprotectedRanges" => Some(self.unprotected_ranges),
            "editors" => Some(self.editors),
            _ => None,
        }
    }
}

impl BodyPaths for StatedProtection {
    ghost of_body = { stated_protection };

    fn of(body: &Option<Json>) -> StatedProtection {
        StatedProtection {
            range: states(body, "range"),
            description: states(body, "description"),
            warning_only: states(body, "warningOnly"),
            unprotected_ranges: states(body, "unprotectedRanges"),
            editors: states(body, "editors"),
        }
    }
}

/// UpdateProtectedRangeRequest
#[derive(Clone, Copy)]
pub(crate) struct UpdateProtectedRangeMembers;

impl Fields for UpdateProtectedRangeMembers {
    type Output = Request;

    ghost fields = { λ _. update_protected_range };

    fn take(
        &self,
        alloc: Global,
        members: &mut Map<String, Json>,
    ) -> Result<Read<Request>, NoMemory> {
        let shape = ObjectOf(ChangedProtectedRangeMembers);
        let parts = masked::<_, StatedProtection>(alloc, members, "protectedRange", &shape)?;
        Ok(update_of(parts))
    }
}

/// The change of a protected range: what the mask takes.
fn update_of(parts: Read<((u32, ProtectionPatch), Text)>) -> Read<Request>
    ensures { result ≡ made update_of parts }
{
    let ((protected_range_id, patch), mask) = parts?;
    Ok(Request::UpdateProtectedRange {
        protected_range_id,
        patch: masked_patch(patch, &mask),
    })
}

/// What the mask takes of the patch.
fn masked_patch(patch: ProtectionPatch, mask: &Text) -> ProtectionPatch
    ensures { result ≡ masked_patch (patch, mask.now) }
{
    let mask = mask.as_str();
    ProtectionPatch {
        area: taken(mask, "range", patch.area),
        description: taken(mask, "description", patch.description),
        warning_only: taken(mask, "warningOnly", patch.warning_only),
        unprotected: taken(mask, "unprotectedRanges", patch.unprotected),
        editors: taken(mask, "editors", patch.editors),
    }
}

/// The mask doesn't take unprotected ranges beside a part of a sheet.
#[derive(Clone, Copy)]
pub(crate) struct KeepsTakenParts;

impl Condition for KeepsTakenParts {
    ghost holds = { λ _. keeps_taken_parts };

    fn holds(&self, value: &Json) -> bool {
        !(takes_of(value, "range")
            && takes_of(value, "unprotectedRanges")
            && opens_part_given(given_member(value, "protectedRange")))
    }
}

/// Whether a protected range is given that opens ranges of a part of a sheet.
fn opens_part_given(protected: Option<&Json>) -> bool
    ensures { result ≡ opens_part (option_map (λ json. view json.now) protected.entry) }
{
    match protected {
        Some(protected) => opens_part(protected),
        None => false,
    }
}

/// Whether the mask of a request takes the path.
fn takes_of(asked: &Json, path: &str) -> bool
    ensures { result ≡ takes_of path.now (view asked.now) }
{
    match given_member(asked, "fields") {
        Some(mask) => takes_path(mask, path),
        None => false,
    }
}

/// Whether the value is a mask that takes the path.
fn takes_path(mask: &Json, path: &str) -> bool
    ensures { result ≡ option_map_or (λ paths. takes paths path.now) (as_str (view mask.now)) false }
{
    match mask {
        Json::String(paths) => takes(paths.as_str(), path),
        Json::Null | Json::Bool(_) | Json::Number(_) | Json::Array(_) | Json::Object(_) => false,
    }
}

/// DeleteProtectedRangeRequest
#[derive(Clone, Copy)]
pub(crate) struct DeleteProtectedRangeMembers;

impl Fields for DeleteProtectedRangeMembers {
    type Output = Request;

    ghost fields = { λ _. delete_protected_range };

    fn take(
        &self,
        alloc: Global,
        members: &mut Map<String, Json>,
    ) -> Result<Read<Request>, NoMemory> {
        let id = required(alloc, members, "protectedRangeId", &Index)?;
        Ok(delete_of(id))
    }
}

/// The removal of a protected range.
fn delete_of(parts: Read<u32>) -> Read<Request>
    ensures { result ≡ made DeleteProtectedRange parts }
{
    let protected_range_id = parts?;
    Ok(Request::DeleteProtectedRange { protected_range_id })
}
