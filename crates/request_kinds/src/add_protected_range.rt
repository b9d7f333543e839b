ghost use Rattle.std.specs.Prelude.{◌≡◌, IfOk};
ghost use Rattle.cell_value.specs.Ids.{is_taken};
ghost use Rattle.protection.specs.Listed.{has_id};
ghost use Rattle.dimension_ops.specs.Broken.{first_broken};
ghost use Rattle.dimension_ops.specs.Rules.{IsUnlessNoMemory};
ghost use Rattle.request_kinds.specs.AddProtectedRange.{IsAddProtectedRange, protection_added_broken};
ghost use Rattle.request_kinds.specs.Telling.{IsDoneTo};

use crate::protections::{areas_given, broken_by_areas, patch_cut};
use crate::shown::shown_protection;
use cell_value::{Duplicate, NoMemory};
use dimension_ops::{Book, Limit, Rule, RuleOr};
use protection::ProtectionPatch;
use sheets_json::Reply;
use std::alloc::Global;

/// How many protected ranges a spreadsheet can have.
const MOST_PROTECTIONS: u64 = 500;

/// Adds a protected range, and replies what the user is shown of it.
pub(crate) fn add_protected_range(
    alloc: Global,
    book: &mut Book,
    user: &str,
    id: Option<u32>,
    patch: &ProtectionPatch,
) -> Result<Reply, RuleOr>
    ensures { IsUnlessNoMemory
        (IsDoneTo (IsAddProtectedRange user.now id patch.now book.old) book.old book.new) result }
{
    if let Some(rule) = broken(alloc, book, id, patch)? {
        return Err(RuleOr::Rule(rule));
    }
    let owner = book.owner().duplicate()?;
    let patch = patch_cut(alloc, book, patch)?;
    let id = match book.add_protection(user, owner.as_str(), id, patch) {
        Ok(id) => id,
        Err(_) => return Err(RuleOr::NoMemory),
    };
    match book.protections().find(id) {
        Some(made) => Ok(Reply::AddProtectedRange {
            protected_range: shown_protection(alloc, user, owner.as_str(), made)?,
        }),
        None => Err(RuleOr::NoMemory),
    }
}

/// The first rule that is broken, if one is.
fn broken(
    alloc: Global,
    book: &Book,
    id: Option<u32>,
    patch: &ProtectionPatch,
) -> Result<Option<Rule>, NoMemory>
    ensures { IfOk result (λ broken. broken ≡ first_broken (protection_added_broken id patch.now book.now)) }
{
    if patch.area.is_none() || patch.is_bad(None) {
        return Ok(Some(Rule::BadShape));
    }
    let areas = areas_given(alloc, patch)?;
    if let Some(rule) = broken_by_areas(book, areas.as_slice()) {
        return Ok(Some(rule));
    }
    if is_taken(book, id) {
        return Ok(Some(Rule::IdTaken));
    }
    if book.protections().count() >= MOST_PROTECTIONS {
        return Ok(Some(Rule::PastLimit(Limit::Protections)));
    }
    Ok(None)
}

/// Whether a protected range has the id that is asked for.
fn is_taken(book: &Book, id: Option<u32>) -> bool
    ensures { result ≡ is_taken (has_id book.now.protections) id }
{
    match id {
        Some(id) => book.protections().find(id).is_some(),
        None => false,
    }
}
