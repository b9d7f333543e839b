ghost use Rattle.std.specs.Prelude.{◌≡◌, IfOk};

use cell_value::{Duplicate, NoMemory, Text};

/// A copy of the text, if one is given.
pub(crate) fn given_text(text: &Option<Text>) -> Result<Option<Text>, NoMemory>
    ensures { IfOk result (λ copy. copy ≡ text.now) }
{
    match text {
        Some(text) => Ok(Some(text.duplicate()?)),
        None => Ok(None),
    }
}
