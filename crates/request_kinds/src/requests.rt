//! What becomes of a request of a batch, by its kind.

ghost use Rattle.dimension_ops.specs.Rules.{IsUnlessNoMemory};
ghost use Rattle.request_kinds.specs.Telling.{IsDoneTo};
ghost use Rattle.request_kinds.specs.Requests.{IsDoneAsAsked, IsDoneByKind};

use crate::add_named_range::add_named_range;
use crate::add_protected_range::add_protected_range;
use crate::add_sheet::add_sheet;
use crate::append_cells::append_cells;
use crate::clear_basic_filter::clear_basic_filter;
use crate::create_developer_metadata::create_developer_metadata;
use crate::delete_developer_metadata::delete_developer_metadata;
use crate::delete_named_range::delete_named_range;
use crate::delete_protected_range::delete_protected_range;
use crate::delete_sheet::delete_sheet;
use crate::dimensions::{append_dimension, delete_dimension, insert_dimension, move_dimension};
use crate::merge_cells::merge_cells;
use crate::set_basic_filter::set_basic_filter;
use crate::touching::denial;
use crate::unmerge_cells::unmerge_cells;
use crate::update_cells::update_cells;
use crate::update_developer_metadata::update_developer_metadata;
use crate::update_named_range::update_named_range;
use crate::update_protected_range::update_protected_range;
use crate::update_sheet_properties::update_sheet_properties;
use dimension_ops::{Book, Rule, RuleOr};
use sheets_json::{Reply, Request};
use std::alloc::Global;

/// Does what a request of a user asks for, and of the project under which he sees metadata, unless a protected range
/// denies the user a cell that it touches: its reply (Sheets API v4 reference, spreadsheets.batchUpdate, Request and
/// Response). Where it is refused, or memory runs out, the spreadsheet is to be given up.
///
/// # Errors
///
/// The first rule that it breaks; [`Rule::Protected`], behind all others, with the least id of a protected range that
/// denies the user one of these cells; [`RuleOr::NoMemory`] where memory runs out.
pub fn done(
    alloc: Global,
    book: &mut Book,
    user: &str,
    project: &str,
    request: &Request,
) -> Result<Reply, RuleOr>
    ensures { IsUnlessNoMemory (IsDoneTo (IsDoneAsAsked user.now project.now book.old request.now)
        book.old book.new) result }
{
    let denied = denial(alloc, book, user, request)?;
    let reply = done_by_kind(alloc, book, user, project, request)?;
    match denied {
        None => Ok(reply),
        Some(id) => Err(RuleOr::Rule(Rule::Protected(id))),
    }
}

/// Does what a request asks for, by its kind: its reply.
fn done_by_kind(
    alloc: Global,
    book: &mut Book,
    user: &str,
    project: &str,
    request: &Request,
) -> Result<Reply, RuleOr>
    ensures { IsUnlessNoMemory (IsDoneTo (IsDoneByKind user.now project.now book.old request.now)
        book.old book.new) result }
{
    match request {
        Request::UpdateCells { rows, area } => update_cells(alloc, book, rows, *area),
        Request::AddSheet { properties } => add_sheet(book, properties),
        Request::DeleteSheet { sheet_id } => delete_sheet(book, *sheet_id),
        Request::UpdateSheetProperties {
            sheet_id,
            properties,
        } => update_sheet_properties(book, *sheet_id, properties),
        Request::AppendCells { sheet_id, rows } => append_cells(alloc, book, user, *sheet_id, rows),
        Request::InsertDimension {
            range,
            inherit_from_before,
        } => insert_dimension(book, *range, inherit_from_before.unwrap_or(false)),
        Request::DeleteDimension { range } => delete_dimension(book, *range),
        Request::AppendDimension {
            sheet_id,
            dimension,
            length,
        } => append_dimension(book, *sheet_id, *dimension, *length),
        Request::MoveDimension {
            source,
            destination_index,
        } => move_dimension(book, *source, *destination_index),
        Request::MergeCells { range, merge_type } => merge_cells(book, range, *merge_type),
        Request::UnmergeCells { range } => unmerge_cells(book, range),
        Request::AddNamedRange { named_range } => add_named_range(book, named_range),
        Request::UpdateNamedRange {
            named_range_id,
            name,
            range,
        } => update_named_range(book, named_range_id.as_str(), name, *range),
        Request::DeleteNamedRange { named_range_id } => {
            delete_named_range(book, named_range_id.as_str())
        }
        Request::AddProtectedRange {
            protected_range_id,
            patch,
        } => add_protected_range(alloc, book, user, *protected_range_id, patch),
        Request::UpdateProtectedRange {
            protected_range_id,
            patch,
        } => update_protected_range(alloc, book, user, *protected_range_id, patch),
        Request::DeleteProtectedRange { protected_range_id } => {
            delete_protected_range(book, user, *protected_range_id)
        }
        Request::CreateDeveloperMetadata { developer_metadata } => {
            create_developer_metadata(alloc, book, project, developer_metadata)
        }
        Request::UpdateDeveloperMetadata {
            data_filters,
            developer_metadata,
        } => {
            let filters = data_filters.as_slice();
            update_developer_metadata(alloc, book, project, filters, developer_metadata)
        }
        Request::DeleteDeveloperMetadata { data_filter } => {
            delete_developer_metadata(book, project, data_filter)
        }
        Request::SetBasicFilter { filter } => set_basic_filter(book, filter),
        Request::ClearBasicFilter { sheet_id } => clear_basic_filter(book, *sheet_id),
    }
}
