ghost use Rattle.std.specs.Prelude.{◌≡◌, ◌⊎◌, None, Some, Err, IfOk, OnOk};
ghost use Rattle.std.specs.Option.{option_map};
ghost use Rattle.serde_json.specs.View.{view, members_view};
ghost use Rattle.serde_json.specs.Errors.{IsMemory};
ghost use Rattle.json_shapes.specs.Reading.{made};
ghost use Rattle.json_shapes.specs.Members.{object_of};
ghost use Rattle.sheets_json.specs.Bodies.{no_fields, clear_many, of_response, data_blocks, with_mode, under_mode, write_many, shown_as, read_filtered, search, json_of, or_bad_body, body_as};

use crate::value_range::RangeBlockMembers;
use crate::{CallFault, RangeBlock};
use cell_value::{Items, Mode, NoMemory, Render, Text};
use grid_range::Axis;
use json_requests::{DataFilter, DataFilterMembers, LookupAlone, MetadataLookup};
use json_shapes::{
    AnyText, Anything, Dimension, Fields, InputOption, Kept, ListOf, ObjectOf, OnlyFalse, Read,
    RenderOption, Shape, Word, both, first_part, optional, required,
};
use serde_json::{Error, Map, Value as Json};
use std::alloc::Global;

/// No member at all.
#[derive(Clone, Copy)]
pub(crate) struct NoMembers;

impl Fields for NoMembers {
    type Output = ();

    ghost fields = { λ _. no_fields };

    fn take(&self, _alloc: Global, _members: &mut Map<String, Json>) -> Result<Read<()>, NoMemory> {
        Ok(Ok(()))
    }
}

/// The members of a call that clears several ranges.
#[derive(Clone, Copy)]
pub(crate) struct ClearManyMembers;

impl Fields for ClearManyMembers {
    type Output = Items<Read<Text>>;

    ghost fields = { λ _. clear_many };

    fn take(
        &self,
        alloc: Global,
        members: &mut Map<String, Json>,
    ) -> Result<Read<Items<Read<Text>>>, NoMemory> {
        required(alloc, members, "ranges", &ListOf(Kept(AnyText)))
    }
}

/// The members of a call that writes several ranges.
#[derive(Clone, Copy)]
pub(crate) struct WriteManyMembers;

impl Fields for WriteManyMembers {
    type Output = (Mode, Items<Read<RangeBlock>>);

    ghost fields = { λ _. write_many };

    fn take(
        &self,
        alloc: Global,
        members: &mut Map<String, Json>,
    ) -> Result<Read<(Mode, Items<Read<RangeBlock>>)>, NoMemory> {
        let mode = required(alloc, members, "valueInputOption", &Word(InputOption))?;
        take_under(alloc, members, mode)
    }
}

/// Takes the values where it was said how texts are taken.
fn take_under(
    alloc: Global,
    members: &mut Map<String, Json>,
    mode: Read<Mode>,
) -> Result<Read<(Mode, Items<Read<RangeBlock>>)>, NoMemory>
    ensures read { IfOk result (λ read. read
        ≡ (under_mode data_blocks mode (members_view members.old.entries)).read) }
    ensures left { OnOk result (members_view members.new.entries
        ≡ (under_mode data_blocks mode (members_view members.old.entries)).left) }
{
    match mode {
        Ok(mode) => {
            let blocks = DataMembers { mode }.take(alloc, members)?;
            Ok(with_mode(mode, blocks))
        }
        Err(fault) => Ok(Err(fault)),
    }
}

/// The blocks, with how their texts are taken.
fn with_mode(
    mode: Mode,
    blocks: Read<Items<Read<RangeBlock>>>,
) -> Read<(Mode, Items<Read<RangeBlock>>)>
    ensures { result ≡ made (with_mode mode) blocks }
{
    match blocks {
        Ok(blocks) => Ok((mode, blocks)),
        Err(fault) => Err(fault),
    }
}

/// The members beside it.
#[derive(Clone, Copy)]
struct DataMembers {
    /// How texts are taken.
    mode: Mode,
}

impl Fields for DataMembers {
    type Output = Items<Read<RangeBlock>>;

    ghost fields = { λ m. data_blocks m.mode };

    fn take(
        &self,
        alloc: Global,
        members: &mut Map<String, Json>,
    ) -> Result<Read<Items<Read<RangeBlock>>>, NoMemory> {
        let block = ObjectOf(RangeBlockMembers { mode: self.mode });
        let blocks = required(alloc, members, "data", &ListOf(Kept(block)))?;
        let response = ResponseMembers.take(alloc, members)?;
        Ok(first_part(both(blocks, response)))
    }
}

/// The members on the response.
#[derive(Clone, Copy)]
struct ResponseMembers;

impl Fields for ResponseMembers {
    type Output = ((Option<()>, Option<Render>), Option<()>);

    ghost fields = { λ _. of_response };

    fn take(
        &self,
        alloc: Global,
        members: &mut Map<String, Json>,
    ) -> Result<Read<((Option<()>, Option<Render>), Option<()>)>, NoMemory> {
        let values = optional(alloc, members, "includeValuesInResponse", &OnlyFalse)?;
        let render = optional(
            alloc,
            members,
            "responseValueRenderOption",
            &Word(RenderOption),
        )?;
        let dates = optional(alloc, members, "responseDateTimeRenderOption", &Anything)?;
        Ok(both(both(values, render), dates))
    }
}

/// How the values of a read are shown.
type ShownAs = (Option<Axis>, Option<Render>);

/// The members on how the values of a read are shown.
#[derive(Clone, Copy)]
struct ShownAsMembers;

impl Fields for ShownAsMembers {
    type Output = ShownAs;

    ghost fields = { λ _. shown_as };

    fn take(
        &self,
        alloc: Global,
        members: &mut Map<String, Json>,
    ) -> Result<Read<ShownAs>, NoMemory> {
        let dimension = optional(alloc, members, "majorDimension", &Word(Dimension))?;
        let render = optional(alloc, members, "valueRenderOption", &Word(RenderOption))?;
        let dates = optional(alloc, members, "dateTimeRenderOption", &Anything)?;
        Ok(first_part(both(both(dimension, render), dates)))
    }
}

/// The filters of a read, and how its values are shown.
pub(crate) type Filtered = (Items<Read<DataFilter>>, ShownAs);

/// The members of a call that reads what filters find.
#[derive(Clone, Copy)]
pub(crate) struct ReadFilteredMembers;

impl Fields for ReadFilteredMembers {
    type Output = Filtered;

    ghost fields = { λ _. read_filtered };

    fn take(
        &self,
        alloc: Global,
        members: &mut Map<String, Json>,
    ) -> Result<Read<Filtered>, NoMemory> {
        let filters = ListOf(Kept(ObjectOf(DataFilterMembers)));
        let filters = required(alloc, members, "dataFilters", &filters)?;
        let shown = ShownAsMembers.take(alloc, members)?;
        Ok(both(filters, shown))
    }
}

/// The members of a call that searches metadata.
#[derive(Clone, Copy)]
pub(crate) struct SearchMembers;

impl Fields for SearchMembers {
    type Output = Items<Read<MetadataLookup>>;

    ghost fields = { λ _. search };

    fn take(
        &self,
        alloc: Global,
        members: &mut Map<String, Json>,
    ) -> Result<Read<Items<Read<MetadataLookup>>>, NoMemory> {
        required(alloc, members, "dataFilters", &ListOf(Kept(LookupAlone)))
    }
}

/// What a body of that form says.
pub(crate) fn read_body<S: Shape>(
    alloc: Global,
    shape: &S,
    body: &[u8],
) -> Result<S::Output, CallFault>
    ensures { (result ≡ body_as (S.shape shape.now) body.now) ⊎ (result ≡ Err CallFault.NoMemory) }
{
    match json_of(alloc, body)? {
        Some(json) => or_bad_body(shape.read(alloc, json)?),
        None => Err(CallFault::BadBody),
    }
}

/// What was read of a body.
fn or_bad_body<T>(read: Read<T>) -> Result<T, CallFault>
    ensures { result ≡ or_bad_body (Some read) }
{
    match read {
        Ok(said) => Ok(said),
        Err(_) => Err(CallFault::BadBody),
    }
}

/// The JSON value that a body is, if it is one.
fn json_of(alloc: Global, body: &[u8]) -> Result<Option<Json>, NoMemory>
    ensures { IfOk result (λ json. option_map view json ≡ json_of body.now) }
{
    match Json::from_slice(alloc, body) {
        Ok(json) => Ok(Some(json)),
        Err(error) => no_json(error),
    }
}

/// No value, unless memory ran out before it was known.
fn no_json(error: Error) -> Result<Option<Json>, NoMemory>
    ensures { IfOk result (λ json. (json ≡ None) × ¬ (IsMemory error)) }
{
    if error.is_memory() {
        Err(NoMemory)
    } else {
        Ok(None)
    }
}
