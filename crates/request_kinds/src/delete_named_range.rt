ghost use Rattle.std.specs.Prelude.{◌≡◌};
ghost use Rattle.dimension_ops.specs.Rules.{IsUnlessNoMemory};
ghost use Rattle.request_kinds.specs.DeleteNamedRange.{range_deleted};
ghost use Rattle.request_kinds.specs.Telling.{IsDoneTo};

use dimension_ops::{Book, RuleOr, drop_range};
use sheets_json::Reply;

/// Deletes a named range.
pub(crate) fn delete_named_range(book: &mut Book, id: &str) -> Result<Reply, RuleOr>
    ensures { IsUnlessNoMemory
        (IsDoneTo (λ told. told ≡ range_deleted id.now book.old.ranges) book.old book.new) result }
{
    match drop_range(book, id) {
        Ok(()) => Ok(Reply::Empty),
        Err(rule) => Err(RuleOr::Rule(rule)),
    }
}
