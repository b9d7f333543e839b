ghost use Rattle.std.specs.Prelude.{◌≡◌, false, IfOk};
ghost use Rattle.cell_value.specs.Ids.{is_taken, IsLeastUnused, IsNewId};
ghost use Rattle.dev_metadata.specs.Listed.{has_id};
ghost use Rattle.dev_metadata.specs.Used.{AreUsedBelow};

use crate::by_id::ById;
use cell_value::NoMemory;

/// Whether the id that is asked for is one that some item has.
pub(crate) fn is_taken(items: &ById, asked: Option<u32>) -> bool
    ensures { result ≡ is_taken (has_id items.now) asked }
{
    match asked {
        Some(id) => items.has_id(id),
        None => false,
    }
}

/// The id that a new item gets: the one that is asked for, or else the least from 1 on that none has,
/// which isn't below the number.
pub(crate) fn new_id(items: &ById, used_below: u32, asked: Option<u32>) -> Result<u32, NoMemory>
    requires used { AreUsedBelow items.now used_below }
    requires free { is_taken (has_id items.now) asked ≡ false }
    ensures id { IfOk result (IsNewId (IsLeastUnused (has_id items.now)) asked) }
    ensures unused { IfOk result (λ id. has_id items.now id ≡ false) }
{
    match asked {
        Some(id) => Ok(id),
        None => least_unused(items, used_below),
    }
}

/// The least id from 1 on that no item has. It is looked for from the number on, and takes no memory.
fn least_unused(items: &ById, used_below: u32) -> Result<u32, NoMemory>
    requires { AreUsedBelow items.now used_below }
    ensures { IfOk result (IsLeastUnused (has_id items.now)) }
{
    for id in used_below..u32::MAX {
        if !items.has_id(id) {
            return Ok(id);
        }
    }
    Err(NoMemory)
}
