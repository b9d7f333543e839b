ghost use Rattle.std.specs.Prelude.{◌≡◌};
ghost use Rattle.protection.specs.declared.range.ProtectionFault.TheVariants as why;
ghost use Rattle.dimension_ops.specs.Rules.{IsUnlessNoMemory};
ghost use Rattle.dimension_ops.specs.declared.rule.Rule.TheVariants as rule;
ghost use Rattle.request_kinds.specs.DeleteProtectedRange.{protection_deleted};
ghost use Rattle.request_kinds.specs.Telling.{IsDoneTo};

use cell_value::Duplicate;
use dimension_ops::{Book, Rule, RuleOr};
use protection::ProtectionFault;
use sheets_json::Reply;

/// Deletes a protected range.
pub(crate) fn delete_protected_range(book: &mut Book, user: &str, id: u32) -> Result<Reply, RuleOr>
    ensures { IsUnlessNoMemory
        (IsDoneTo (λ told. told ≡ protection_deleted user.now id book.old) book.old book.new) result }
{
    let owner = book.owner().duplicate()?;
    match book.drop_protection(user, owner.as_str(), id) {
        Ok(()) => Ok(Reply::Empty),
        Err(fault) => Err(RuleOr::Rule(rule_of(fault))),
    }
}

/// The rule that is broken where no protected range has the id, or its user may not edit it.
fn rule_of(fault: ProtectionFault) -> Rule
    ensures no_id { fault ≡ why.NoId → result ≡ rule.NoId }
    ensures not_editor { fault ≡ why.NotEditor → result ≡ rule.NotEditor }
{
    match fault {
        ProtectionFault::NoId => Rule::NoId,
        _ => Rule::NotEditor,
    }
}
