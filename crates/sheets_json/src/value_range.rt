ghost use Rattle.std.specs.Prelude.{◌≡◌, Some};
ghost use Rattle.json_shapes.specs.Reading.{made};
ghost use Rattle.sheets_json.specs.ValueRanges.{in_turn, value_range_of, value_range_from, value_range, range_block_of, range_block};

use crate::{RangeBlock, ValueRange};
use cell_value::{Block, Input, Items, Mode, NoMemory, Text};
use grid_range::Axis;
use json_requests::block_of;
use json_shapes::{
    AnyText, Dimension, Entered, Fields, Kept, ListOf, Read, Word, both, optional, required,
};
use serde_json::{Map, Value as Json};
use std::alloc::Global;

/// The lines of values that are given.
type Lines = Option<Items<Items<Input>>>;

/// What a body says, its parts kept for their turn.
type Parts = (
    (Option<Read<Text>>, Option<Axis>),
    Option<Read<Items<Items<Input>>>>,
);

/// The members of a ValueRange that is the body of a call.
#[derive(Clone, Copy)]
pub(crate) struct ValueRangeMembers {
    /// How texts are taken.
    pub(crate) mode: Mode,
}

impl Fields for ValueRangeMembers {
    type Output = Read<ValueRange>;

    ghost fields = { λ m. value_range m.mode };

    fn take(
        &self,
        alloc: Global,
        members: &mut Map<String, Json>,
    ) -> Result<Read<Read<ValueRange>>, NoMemory> {
        let range = optional(alloc, members, "range", &Kept(AnyText))?;
        let dimension = optional(alloc, members, "majorDimension", &Word(Dimension))?;
        let lines = Kept(ListOf(ListOf(Entered { mode: self.mode })));
        let values = optional(alloc, members, "values", &lines)?;
        Ok(value_range_from(alloc, both(both(range, dimension), values)))
    }
}

/// The members of a ValueRange that is one of several.
#[derive(Clone, Copy)]
pub(crate) struct RangeBlockMembers {
    /// How texts are taken.
    pub(crate) mode: Mode,
}

impl Fields for RangeBlockMembers {
    type Output = RangeBlock;

    ghost fields = { λ m. range_block m.mode };

    fn take(
        &self,
        alloc: Global,
        members: &mut Map<String, Json>,
    ) -> Result<Read<RangeBlock>, NoMemory> {
        let range = required(alloc, members, "range", &AnyText)?;
        let dimension = optional(alloc, members, "majorDimension", &Word(Dimension))?;
        let lines = ListOf(ListOf(Entered { mode: self.mode }));
        let values = optional(alloc, members, "values", &lines)?;
        Ok(range_block_from(alloc, both(both(range, dimension), values)))
    }
}

/// What a body says, once its parts are judged.
fn value_range_from(alloc: Global, parts: Read<Parts>) -> Read<Read<ValueRange>>
    ensures { result ≡ made value_range_from parts }
{
    let ((range, dimension), values) = parts?;
    Ok(value_range_of(alloc, dimension, both(in_turn(range), in_turn(values))))
}

/// The values with their range.
fn value_range_of(
    alloc: Global,
    dimension: Option<Axis>,
    parts: Read<(Option<Text>, Lines)>,
) -> Read<ValueRange>
    ensures { result ≡ made (value_range_of dimension) parts }
{
    let (range, values) = parts?;
    let block = block_of(alloc, dimension, values);
    Ok(ValueRange { range, block })
}

/// The values with their range.
fn range_block_from(alloc: Global, parts: Read<((Text, Option<Axis>), Lines)>) -> Read<RangeBlock>
    ensures { result ≡ made range_block_of parts }
{
    let ((range, dimension), values) = parts?;
    let block = block_of(alloc, dimension, values);
    Ok(RangeBlock { range, block })
}

/// What was kept of a member that may be absent.
pub(crate) fn in_turn<T>(kept: Option<Read<T>>) -> Read<Option<T>>
    ensures { result ≡ in_turn kept }
{
    match kept {
        None => Ok(None),
        Some(read) => some_of(read),
    }
}

/// What was read of a member that is there.
fn some_of<T>(read: Read<T>) -> Read<Option<T>>
    ensures { result ≡ made Some read }
{
    match read {
        Ok(value) => Ok(Some(value)),
        Err(fault) => Err(fault),
    }
}
