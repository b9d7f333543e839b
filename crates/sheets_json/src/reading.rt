ghost use Rattle.std.specs.Prelude.{◌≡◌, ◌⊎◌, Ok, Err, IfOk};
ghost use Rattle.sheets_json.specs.Calls.{mode_of, dimension_of, render_of, create_of, get_of, many_asked, batch_of, read_of, values_of, write_call, write_of, append_call, append_of, clear_call, clear_with, clear_of, ranges_of, many_read, read_many_of, many_written, write_many_of, many_cleared, clear_many_of, item_id_of, many_filtered, read_filtered_of, item_of, many_searched, search_of, call_of};

use crate::batch::BatchMembers;
use crate::bodies::{
    ClearManyMembers, Filtered, NoMembers, ReadFilteredMembers, SearchMembers, WriteManyMembers,
    read_body,
};
use crate::creation::NewSpreadsheetMembers;
use crate::value_range::ValueRangeMembers;
use crate::words::{InsertOption, TruthWord, query_values, query_word};
use crate::{Call, CallFault, RangeBlock, ValueRange};
use cell_value::{Duplicate, Items, Mode, NoMemory, Render, Text};
use grid_range::Axis;
use json_requests::{MetadataLookup, Step, index_named};
use json_shapes::{Dimension, InputOption, ObjectOf, RenderOption, ShapeFault};
use sheets_http::{Route, Verb};
use std::alloc::Global;

/// The call that a request is, by its route and its body (Google Sheets API v4 reference).
///
/// # Errors
///
/// [`CallFault::BadBody`] where the call has no body and one is there, or where the body isn't a
/// JSON object with just the members that the call has, of which those that say how the others
/// are taken have one of their words, and those that list what is to be done are lists;
/// [`CallFault::EmptyBatch`] where such a list, or the list of ranges in the query, is empty;
/// [`CallFault::NoMemory`] only where memory runs out. What else is wrong with the values of a write
/// or with a member of such a list is kept in the call.
pub fn read_call(alloc: Global, route: &Route, body: &[u8]) -> Result<Call, CallFault>
    ensures { (result ≡ call_of route.now body.now) ⊎ (result ≡ Err CallFault.NoMemory) }
{
    match route.verb {
        Verb::Create => create_of(alloc, body),
        Verb::Get => get_of(route, body),
        Verb::Batch => batch_of(alloc, route, body),
        Verb::Read => read_of(route, body),
        Verb::Write => write_of(alloc, route, body),
        Verb::Append => append_of(alloc, route, body),
        Verb::Clear => clear_of(alloc, route, body),
        Verb::ReadMany => read_many_of(alloc, route, body),
        Verb::WriteMany => write_many_of(alloc, route, body),
        Verb::ClearMany => clear_many_of(alloc, route, body),
        Verb::ReadFiltered => read_filtered_of(alloc, route, body),
        Verb::Item => item_of(route, body),
        Verb::Search => search_of(alloc, route, body),
    }
}

/// How texts are taken.
fn mode_of(route: &Route) -> Mode
    ensures { result ≡ mode_of route.now }
{
    match query_word(&InputOption, route.query.as_slice(), "valueInputOption") {
        Some(mode) => mode,
        None => Mode::Raw,
    }
}

/// The dimension of a read's inner lists.
fn dimension_of(route: &Route) -> Option<Axis>
    ensures { result ≡ dimension_of route.now }
{
    query_word(&Dimension, route.query.as_slice(), "majorDimension")
}

/// How a read's values are shown.
fn render_of(route: &Route) -> Option<Render>
    ensures { result ≡ render_of route.now }
{
    query_word(&RenderOption, route.query.as_slice(), "valueRenderOption")
}

/// A new spreadsheet.
fn create_of(alloc: Global, body: &[u8]) -> Result<Call, CallFault>
    ensures { (result ≡ create_of body.now) ⊎ (result ≡ Err CallFault.NoMemory) }
{
    match read_body(alloc, &ObjectOf(NewSpreadsheetMembers), body) {
        Ok(spreadsheet) => Ok(Call::Create { spreadsheet }),
        Err(fault) => Err(fault),
    }
}

/// A look at a spreadsheet.
fn get_of(route: &Route, body: &[u8]) -> Result<Call, CallFault>
    ensures { (result ≡ get_of route.now body.now) ⊎ (result ≡ Err CallFault.NoMemory) }
{
    if !body.is_empty() {
        return Err(CallFault::BadBody);
    }
    let query = route.query.as_slice();
    Ok(Call::Get {
        id: route.book.duplicate()?,
        include_grid_data: query_word(&TruthWord, query, "includeGridData"),
    })
}

/// A batch.
fn batch_of(alloc: Global, route: &Route, body: &[u8]) -> Result<Call, CallFault>
    ensures { (result ≡ batch_of route.now body.now) ⊎ (result ≡ Err CallFault.NoMemory) }
{
    match read_body(alloc, &ObjectOf(BatchMembers), body) {
        Ok(steps) => many_asked(route, steps),
        Err(fault) => Err(fault),
    }
}

/// A batch of these requests, where there are some.
fn many_asked(route: &Route, requests: Items<Step>) -> Result<Call, CallFault>
    ensures { (result ≡ many_asked route.now requests) ⊎ (result ≡ Err CallFault.NoMemory) }
{
    if requests.as_slice().is_empty() {
        return Err(CallFault::EmptyBatch);
    }
    Ok(Call::Batch {
        id: route.book.duplicate()?,
        requests,
    })
}

/// A read.
fn read_of(route: &Route, body: &[u8]) -> Result<Call, CallFault>
    ensures { (result ≡ read_of route.now body.now) ⊎ (result ≡ Err CallFault.NoMemory) }
{
    if !body.is_empty() {
        return Err(CallFault::BadBody);
    }
    Ok(Call::Read {
        id: route.book.duplicate()?,
        range: route.range.duplicate()?,
        major_dimension: dimension_of(route),
        value_render_option: render_of(route),
    })
}

/// What the body of a write says.
fn values_of(
    alloc: Global,
    route: &Route,
    body: &[u8],
) -> Result<Result<ValueRange, ShapeFault>, CallFault>
    ensures { (result ≡ values_of route.now body.now) ⊎ (result ≡ Err CallFault.NoMemory) }
{
    let mode = mode_of(route);
    read_body(alloc, &ObjectOf(ValueRangeMembers { mode }), body)
}

/// A write.
fn write_of(alloc: Global, route: &Route, body: &[u8]) -> Result<Call, CallFault>
    ensures { (result ≡ write_of route.now body.now) ⊎ (result ≡ Err CallFault.NoMemory) }
{
    match values_of(alloc, route, body) {
        Ok(values) => write_call(route, values),
        Err(fault) => Err(fault),
    }
}

/// A write of values.
fn write_call(route: &Route, values: Result<ValueRange, ShapeFault>) -> Result<Call, CallFault>
    ensures { (result ≡ Ok (write_call route.now values)) ⊎ (result ≡ Err CallFault.NoMemory) }
{
    Ok(Call::Write {
        id: route.book.duplicate()?,
        range: route.range.duplicate()?,
        value_input_option: mode_of(route),
        values,
    })
}

/// A write behind a table.
fn append_of(alloc: Global, route: &Route, body: &[u8]) -> Result<Call, CallFault>
    ensures { (result ≡ append_of route.now body.now) ⊎ (result ≡ Err CallFault.NoMemory) }
{
    match values_of(alloc, route, body) {
        Ok(values) => append_call(route, values),
        Err(fault) => Err(fault),
    }
}

/// A write of values behind a table.
fn append_call(route: &Route, values: Result<ValueRange, ShapeFault>) -> Result<Call, CallFault>
    ensures { (result ≡ Ok (append_call route.now values)) ⊎ (result ≡ Err CallFault.NoMemory) }
{
    let query = route.query.as_slice();
    Ok(Call::Append {
        id: route.book.duplicate()?,
        range: route.range.duplicate()?,
        value_input_option: mode_of(route),
        insert_data_option: query_word(&InsertOption, query, "insertDataOption"),
        values,
    })
}

/// The emptying of a range, which may lack its body.
fn clear_of(alloc: Global, route: &Route, body: &[u8]) -> Result<Call, CallFault>
    ensures { (result ≡ clear_of route.now body.now) ⊎ (result ≡ Err CallFault.NoMemory) }
{
    if body.is_empty() {
        clear_call(route)
    } else {
        clear_with(alloc, route, body)
    }
}

/// The emptying of a range, with a body, which has no member.
fn clear_with(alloc: Global, route: &Route, body: &[u8]) -> Result<Call, CallFault>
    ensures { (result ≡ clear_with route.now body.now) ⊎ (result ≡ Err CallFault.NoMemory) }
{
    match read_body(alloc, &ObjectOf(NoMembers), body) {
        Ok(()) => clear_call(route),
        Err(fault) => Err(fault),
    }
}

/// The emptying of a range.
fn clear_call(route: &Route) -> Result<Call, CallFault>
    ensures { (result ≡ Ok (clear_call route.now)) ⊎ (result ≡ Err CallFault.NoMemory) }
{
    Ok(Call::Clear {
        id: route.book.duplicate()?,
        range: route.range.duplicate()?,
    })
}

/// A read of several ranges.
fn read_many_of(alloc: Global, route: &Route, body: &[u8]) -> Result<Call, CallFault>
    ensures { (result ≡ read_many_of route.now body.now) ⊎ (result ≡ Err CallFault.NoMemory) }
{
    if body.is_empty() {
        ranges_read(alloc, route)
    } else {
        Err(CallFault::BadBody)
    }
}

/// A read of the ranges that the query names.
fn ranges_read(alloc: Global, route: &Route) -> Result<Call, CallFault>
    ensures { (result ≡ many_read route.now (ranges_of route.now)) ⊎ (result ≡ Err CallFault.NoMemory) }
{
    let ranges = ranges_of(alloc, route)?;
    many_read(route, ranges)
}

/// The ranges that the query names.
fn ranges_of(alloc: Global, route: &Route) -> Result<Items<Text>, NoMemory>
    ensures { IfOk result (λ ranges. ranges ≡ ranges_of route.now) }
{
    query_values(alloc, route.query.as_slice(), "ranges")
}

/// A read of these ranges, where there are some.
fn many_read(route: &Route, ranges: Items<Text>) -> Result<Call, CallFault>
    ensures { (result ≡ many_read route.now ranges) ⊎ (result ≡ Err CallFault.NoMemory) }
{
    if ranges.as_slice().is_empty() {
        return Err(CallFault::EmptyBatch);
    }
    Ok(Call::ReadMany {
        id: route.book.duplicate()?,
        ranges,
        major_dimension: dimension_of(route),
        value_render_option: render_of(route),
    })
}

/// A write of several ranges.
fn write_many_of(alloc: Global, route: &Route, body: &[u8]) -> Result<Call, CallFault>
    ensures { (result ≡ write_many_of route.now body.now) ⊎ (result ≡ Err CallFault.NoMemory) }
{
    match read_body(alloc, &ObjectOf(WriteManyMembers), body) {
        Ok(said) => many_written(route, said),
        Err(fault) => Err(fault),
    }
}

/// A write of these values, where there are some.
fn many_written(
    route: &Route,
    said: (Mode, Items<Result<RangeBlock, ShapeFault>>),
) -> Result<Call, CallFault>
    ensures { (result ≡ many_written route.now said) ⊎ (result ≡ Err CallFault.NoMemory) }
{
    let (value_input_option, data) = said;
    if data.as_slice().is_empty() {
        return Err(CallFault::EmptyBatch);
    }
    Ok(Call::WriteMany {
        id: route.book.duplicate()?,
        value_input_option,
        data,
    })
}

/// The emptying of several ranges.
fn clear_many_of(alloc: Global, route: &Route, body: &[u8]) -> Result<Call, CallFault>
    ensures { (result ≡ clear_many_of route.now body.now) ⊎ (result ≡ Err CallFault.NoMemory) }
{
    match read_body(alloc, &ObjectOf(ClearManyMembers), body) {
        Ok(ranges) => many_cleared(route, ranges),
        Err(fault) => Err(fault),
    }
}

/// The emptying of these ranges, where there are some.
fn many_cleared(route: &Route, ranges: Items<Result<Text, ShapeFault>>) -> Result<Call, CallFault>
    ensures { (result ≡ many_cleared route.now ranges) ⊎ (result ≡ Err CallFault.NoMemory) }
{
    if ranges.as_slice().is_empty() {
        return Err(CallFault::EmptyBatch);
    }
    Ok(Call::ClearMany {
        id: route.book.duplicate()?,
        ranges,
    })
}

/// A read of what filters find.
fn read_filtered_of(alloc: Global, route: &Route, body: &[u8]) -> Result<Call, CallFault>
    ensures { (result ≡ read_filtered_of route.now body.now) ⊎ (result ≡ Err CallFault.NoMemory) }
{
    match read_body(alloc, &ObjectOf(ReadFilteredMembers), body) {
        Ok(said) => many_filtered(route, said),
        Err(fault) => Err(fault),
    }
}

/// A read of what these filters find, where there are some.
fn many_filtered(route: &Route, said: Filtered) -> Result<Call, CallFault>
    ensures { (result ≡ many_filtered route.now said) ⊎ (result ≡ Err CallFault.NoMemory) }
{
    let (data_filters, (major_dimension, value_render_option)) = said;
    if data_filters.as_slice().is_empty() {
        return Err(CallFault::EmptyBatch);
    }
    Ok(Call::ReadFiltered {
        id: route.book.duplicate()?,
        data_filters,
        major_dimension,
        value_render_option,
    })
}

/// A look at an item of metadata.
fn item_of(route: &Route, body: &[u8]) -> Result<Call, CallFault>
    ensures { (result ≡ item_of route.now body.now) ⊎ (result ≡ Err CallFault.NoMemory) }
{
    if !body.is_empty() {
        return Err(CallFault::BadBody);
    }
    Ok(Call::Item {
        id: route.book.duplicate()?,
        metadata_id: item_id_of(route),
    })
}

/// The id of the item.
fn item_id_of(route: &Route) -> u32
    ensures { result ≡ item_id_of route.now }
{
    index_named(route.id.as_str()).unwrap_or(0)
}

/// A search for items of metadata.
fn search_of(alloc: Global, route: &Route, body: &[u8]) -> Result<Call, CallFault>
    ensures { (result ≡ search_of route.now body.now) ⊎ (result ≡ Err CallFault.NoMemory) }
{
    match read_body(alloc, &ObjectOf(SearchMembers), body) {
        Ok(filters) => many_searched(route, filters),
        Err(fault) => Err(fault),
    }
}

/// A search by these look-ups, where there are some.
fn many_searched(
    route: &Route,
    data_filters: Items<Result<MetadataLookup, ShapeFault>>,
) -> Result<Call, CallFault>
    ensures { (result ≡ many_searched route.now data_filters) ⊎ (result ≡ Err CallFault.NoMemory) }
{
    if data_filters.as_slice().is_empty() {
        return Err(CallFault::EmptyBatch);
    }
    Ok(Call::Search {
        id: route.book.duplicate()?,
        data_filters,
    })
}
