ghost use Rattle.std.specs.Prelude.{◌≡◌, IfOk};
ghost use Rattle.protection.specs.Editors.{may_edit, with_requester};

use crate::range::Protection;
use cell_value::{Items, NoMemory, Text, is_among};
use std::alloc::Global;

impl Protection {
    /// Whether the user may edit what the protection covers, and update and delete it.
    pub fn may_edit(&self, user: &str, owner: &str) -> bool
        ensures { result ≡ may_edit user.now owner.now self.now }
    {
        self.warning_only || user == owner || is_among(user, self.editors.as_slice())
    }
}

/// The editors with the user at their end, unless he is one of them or owns the spreadsheet.
pub(crate) fn with_requester(
    alloc: Global,
    user: &str,
    owner: &str,
    editors: Items<Text>,
) -> Result<Items<Text>, NoMemory>
    ensures { IfOk result (λ after. after ≡ with_requester user.now owner.now editors) }
{
    if user == owner || is_among(user, editors.as_slice()) {
        return Ok(editors);
    }
    let mut editors = editors.into_vec();
    editors.push(Text::of(String::from_str(alloc, user)?))?;
    Ok(Items::of(editors))
}
