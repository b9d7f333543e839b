ghost use Rattle.std.specs.Prelude.{◌≡◌, IfOk};
ghost use Rattle.dimension_ops.specs.Broken.{first_broken};
ghost use Rattle.dimension_ops.specs.Rules.{IsUnlessNoMemory};
ghost use Rattle.request_kinds.specs.Telling.{IsDoneTo};
ghost use Rattle.request_kinds.specs.UpdateProtectedRange.{protection_updated, protection_updated_broken};

use crate::protections::{areas_given, broken_by_areas, patch_cut};
use cell_value::{Duplicate, NoMemory};
use dimension_ops::{Book, Rule, RuleOr};
use protection::ProtectionPatch;
use sheets_json::Reply;
use std::alloc::Global;

/// Gives a protected range the members that are given.
pub(crate) fn update_protected_range(
    alloc: Global,
    book: &mut Book,
    user: &str,
    id: u32,
    patch: &ProtectionPatch,
) -> Result<Reply, RuleOr>
    ensures { IsUnlessNoMemory (IsDoneTo (λ told. told ≡ protection_updated user.now id patch.now book.old)
        book.old book.new) result }
{
    if let Some(rule) = broken(alloc, book, user, id, patch)? {
        return Err(RuleOr::Rule(rule));
    }
    let owner = book.owner().duplicate()?;
    let patch = patch_cut(alloc, book, patch)?;
    match book.update_protection(user, owner.as_str(), id, patch) {
        Ok(()) => Ok(Reply::Empty),
        Err(_) => Err(RuleOr::NoMemory),
    }
}

/// The first rule that is broken, if one is.
fn broken(
    alloc: Global,
    book: &Book,
    user: &str,
    id: u32,
    patch: &ProtectionPatch,
) -> Result<Option<Rule>, NoMemory>
    ensures { IfOk result (λ broken. broken ≡ first_broken (protection_updated_broken user.now id patch.now book.now)) }
{
    let found = book.protections().find(id);
    if patch.is_bad(found) {
        return Ok(Some(Rule::BadShape));
    }
    let areas = areas_given(alloc, patch)?;
    if let Some(rule) = broken_by_areas(book, areas.as_slice()) {
        return Ok(Some(rule));
    }
    match found {
        None => Ok(Some(Rule::NoId)),
        Some(found) if !found.may_edit(user, book.owner().as_str()) => Ok(Some(Rule::NotEditor)),
        Some(_) => Ok(None),
    }
}
