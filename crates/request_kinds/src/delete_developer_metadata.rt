ghost use Rattle.dimension_ops.specs.Rules.{IsUnlessNoMemory};
ghost use Rattle.request_kinds.specs.DeleteDeveloperMetadata.{IsDeleteDeveloperMetadata};
ghost use Rattle.request_kinds.specs.Telling.{IsDoneTo};

use crate::metadata::{broken_by_place, lookup_of, refusal_of};
use dimension_ops::{Book, RuleOr};
use sheets_json::{MetadataLookup, Reply};

/// Deletes the items that the look-up finds, and replies them.
pub(crate) fn delete_developer_metadata(
    book: &mut Book,
    project: &str,
    asked: &MetadataLookup,
) -> Result<Reply, RuleOr>
    ensures { IsUnlessNoMemory (IsDoneTo (IsDeleteDeveloperMetadata project.now asked.now book.old)
        book.old book.new) result }
{
    if let Some(rule) = broken_by_place(book, asked) {
        return Err(RuleOr::Rule(rule));
    }
    book.items_have_own_ids();
    let lookup = lookup_of(asked)?;
    match book.drop_items(&lookup, project) {
        Ok(items) => Ok(Reply::DeleteDeveloperMetadata {
            deleted_developer_metadata: items,
        }),
        Err(fault) => Err(refusal_of(fault)),
    }
}
