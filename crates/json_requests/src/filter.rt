ghost use Rattle.std.specs.Prelude.{◌≡◌, [], unwrap_or};
ghost use Rattle.json_shapes.specs.Reading.{made};
ghost use Rattle.json_requests.specs.declared.request.Request.TheVariants.{SetBasicFilter, ClearBasicFilter};
ghost use Rattle.json_requests.specs.Filters.{criterion_of, criterion, criterion_under, filter_of, basic_filter, set_basic_filter, clear_basic_filter};

use crate::Request;
use crate::area::GridRangeMembers;
use crate::filter_condition::ConditionMembers;
use crate::whole_text::column_named;
use basic_filter::{Condition, Criterion, Filter};
use cell_value::{Items, NoMemory, Text};
use grid_range::Area;
use json_shapes::{
    AnyText, Fields, Index, Keyed, ListOf, MapOf, ObjectOf, Read, Shape, ShapeFault, both,
    optional, required,
};
use serde_json::{Map, Value as Json};
use std::alloc::Global;

/// FilterCriteria
#[derive(Clone, Copy)]
struct CriterionMembers {
    /// The column.
    column: u32,
}

impl Fields for CriterionMembers {
    type Output = Criterion;

    ghost fields = { λ m. criterion m.column };

    fn take(
        &self,
        alloc: Global,
        members: &mut Map<String, Json>,
    ) -> Result<Read<Criterion>, NoMemory> {
        let hidden = optional(alloc, members, "hiddenValues", &ListOf(AnyText))?;
        let condition = optional(alloc, members, "condition", &ObjectOf(ConditionMembers))?;
        Ok(criterion_of(alloc, self.column, both(hidden, condition)))
    }
}

/// What hides rows by the cells of the column.
fn criterion_of(
    alloc: Global,
    column: u32,
    parts: Read<(Option<Items<Text>>, Option<Condition>)>,
) -> Read<Criterion>
    ensures { result ≡ made (criterion_of column) parts }
{
    let (hidden, condition) = parts?;
    Ok(Criterion {
        column,
        hidden: or_no_items(alloc, hidden),
        condition,
    })
}

/// The items, none where none are given.
fn or_no_items<T: Drop>(alloc: Global, items: Option<Items<T>>) -> Items<T>
    ensures { result ≡ unwrap_or items [] }
{
    match items {
        Some(items) => items,
        None => Items::of(Vec::new(alloc)),
    }
}

/// What hides rows by a column, which is the member's name.
#[derive(Clone, Copy)]
struct CriterionUnder;

impl Keyed for CriterionUnder {
    type Output = Criterion;

    ghost keyed = { λ _. criterion_under };

    fn read_member(
        &self,
        alloc: Global,
        name: &str,
        value: Json,
    ) -> Result<Read<Criterion>, NoMemory> {
        match column_named(name) {
            Some(column) => ObjectOf(CriterionMembers { column }).read(alloc, value),
            None => Ok(Err(ShapeFault::BadShape)),
        }
    }
}

/// BasicFilter
#[derive(Clone, Copy)]
struct FilterMembers;

impl Fields for FilterMembers {
    type Output = Filter;

    ghost fields = { λ _. basic_filter };

    fn take(
        &self,
        alloc: Global,
        members: &mut Map<String, Json>,
    ) -> Result<Read<Filter>, NoMemory> {
        let range = required(alloc, members, "range", &ObjectOf(GridRangeMembers))?;
        let criteria = optional(alloc, members, "criteria", &MapOf(CriterionUnder))?;
        Ok(filter_of(alloc, both(range, criteria)))
    }
}

/// The filter of an area.
fn filter_of(alloc: Global, parts: Read<(Area, Option<Items<Criterion>>)>) -> Read<Filter>
    ensures { result ≡ made filter_of parts }
{
    let (area, criteria) = parts?;
    Ok(Filter {
        area,
        criteria: or_no_items(alloc, criteria),
    })
}

/// SetBasicFilterRequest
#[derive(Clone, Copy)]
pub(crate) struct SetBasicFilterMembers;

impl Fields for SetBasicFilterMembers {
    type Output = Request;

    ghost fields = { λ _. set_basic_filter };

    fn take(
        &self,
        alloc: Global,
        members: &mut Map<String, Json>,
    ) -> Result<Read<Request>, NoMemory> {
        let filter = required(alloc, members, "filter", &ObjectOf(FilterMembers))?;
        Ok(set_of(filter))
    }
}

/// The filter that a sheet gets.
fn set_of(parts: Read<Filter>) -> Read<Request>
    ensures { result ≡ made SetBasicFilter parts }
{
    let filter = parts?;
    Ok(Request::SetBasicFilter { filter })
}

/// ClearBasicFilterRequest
#[derive(Clone, Copy)]
pub(crate) struct ClearBasicFilterMembers;

impl Fields for ClearBasicFilterMembers {
    type Output = Request;

    ghost fields = { λ _. clear_basic_filter };

    fn take(
        &self,
        alloc: Global,
        members: &mut Map<String, Json>,
    ) -> Result<Read<Request>, NoMemory> {
        let sheet = required(alloc, members, "sheetId", &Index)?;
        Ok(clear_of(sheet))
    }
}

/// The end of a sheet's filter.
fn clear_of(parts: Read<u32>) -> Read<Request>
    ensures { result ≡ made ClearBasicFilter parts }
{
    let sheet_id = parts?;
    Ok(Request::ClearBasicFilter { sheet_id })
}
