ghost use Rattle.std.specs.Prelude.{◌≡◌, Bool, false, [], None, IfOk, OnOk, OnErr, unwrap_or};
ghost use Rattle.std.specs.Option.{option_copied};
ghost use Rattle.protection.specs.Editors.{with_requester};
ghost use Rattle.protection.specs.Patch.{is_bad, is_whole_sheet, opens_part, lifts_warning, gives_part, patched, blank, warns_after};
ghost use Rattle.protection.specs.Settled.{given_editors, given_ranges};

use crate::editors::with_requester;
use crate::range::{Protection, ProtectionPatch};
use cell_value::{Items, NoMemory, Text, put_given};
use grid_range::{Area, Band};
use std::alloc::Global;

impl ProtectionPatch {
    /// Whether the patch has a bad shape for the protection that it is to change, or for none.
    pub fn is_bad(&self, old: Option<&Protection>) -> bool
        ensures { result ≡ is_bad self.now (option_copied old.entry) }
    {
        match old {
            Some(old) => {
                self.opens_part(&self.area.unwrap_or(old.area)) || self.lifts_warning(old)
            }
            None => match self.area {
                Some(area) => self.opens_part(&area),
                None => false,
            },
        }
    }

    /// Whether the patch gives unprotected ranges, and the area isn't a whole sheet.
    fn opens_part(&self, area: &Area) -> bool
        ensures { result ≡ opens_part self.now area.now }
    {
        match &self.unprotected {
            Some(ranges) => !ranges.as_slice().is_empty() && !is_whole_sheet(area),
            None => false,
        }
    }

    /// Whether the patch makes a warning one that keeps users off, and gives no editors.
    fn lifts_warning(&self, old: &Protection) -> bool
        ensures { result ≡ lifts_warning self.now old.now }
    {
        old.warning_only && !self.warning_only.unwrap_or(old.warning_only) && self.editors.is_none()
    }
}

impl Protection {
    /// A protection of which nothing is given yet. It takes no memory.
    fn blank(alloc: Global, id: u32) -> Protection
        ensures { result ≡ blank id }
    {
        Protection {
            id,
            area: Area {
                sheet: 0,
                rows: Band::Whole,
                cols: Band::Whole,
            },
            description: Text::of(String::new(alloc)),
            warning_only: false,
            unprotected: Items::of(Vec::new(alloc)),
            editors: Items::of(Vec::new(alloc)),
        }
    }

    /// A new protection of which the patch gives the members.
    ///
    /// # Errors
    ///
    /// [`NoMemory`] where memory runs out.
    pub(crate) fn made(
        alloc: Global,
        user: &str,
        owner: &str,
        id: u32,
        patch: ProtectionPatch,
    ) -> Result<Protection, NoMemory>
        ensures { IfOk result (λ made. made ≡ patched user.now owner.now patch (blank id)) }
    {
        let mut protection = Protection::blank(alloc, id);
        let editors = patch.editors.unwrap_or(Items::of(Vec::new(alloc)));
        let patch = ProtectionPatch {
            editors: Some(editors),
            ..patch
        };
        protection.patch(alloc, user, owner, patch)?;
        Ok(protection)
    }

    /// Puts what the patch gives in the place of what the protection has.
    ///
    /// # Errors
    ///
    /// [`NoMemory`] where memory runs out; the protection is as it was.
    pub(crate) fn patch(
        &mut self,
        alloc: Global,
        user: &str,
        owner: &str,
        patch: ProtectionPatch,
    ) -> Result<(), NoMemory>
        requires { patch.editors ≡ None → warns_after patch self.old ≡ false →
            with_requester user.now owner.now self.old.editors ≡ self.old.editors }
        ensures patched { OnOk result (self.new ≡ patched user.now owner.now patch self.old) }
        ensures unchanged { OnErr result (self.new ≡ self.old) }
    {
        let warns = patch.warning_only.unwrap_or(self.warning_only);
        let editors = given_editors(alloc, user, owner, warns, patch.editors)?;
        let ranges = given_ranges(alloc, patch.area, patch.unprotected);
        put_given(&mut self.area, patch.area);
        put_given(&mut self.description, patch.description);
        put_given(&mut self.unprotected, ranges);
        put_given(&mut self.editors, editors);
        self.warning_only = warns;
        Ok(())
    }
}

/// The editors that are given; None where the protection keeps those that it has.
fn given_editors(
    alloc: Global,
    user: &str,
    owner: &str,
    warns: bool,
    editors: Option<Items<Text>>,
) -> Result<Option<Items<Text>>, NoMemory>
    ensures { IfOk result (λ given. given ≡ given_editors user.now owner.now warns editors) }
{
    if warns {
        return Ok(Some(Items::of(Vec::new(alloc))));
    }
    match editors {
        Some(editors) => Ok(Some(with_requester(alloc, user, owner, editors)?)),
        None => Ok(None),
    }
}

/// The unprotected ranges that are given; None where the protection keeps those that it has.
fn given_ranges(
    alloc: Global,
    area: Option<Area>,
    ranges: Option<Items<Area>>,
) -> Option<Items<Area>>
    ensures { result ≡ given_ranges area ranges }
{
    match area {
        Some(area) if !is_whole_sheet(&area) => Some(Items::of(Vec::new(alloc))),
        _ => ranges,
    }
}

/// Whether the area has all cells of its sheet, for good: no index was given.
pub(crate) fn is_whole_sheet(area: &Area) -> bool
    ensures { result ≡ is_whole_sheet area.now }
{
    matches!(area.rows, Band::Whole) && matches!(area.cols, Band::Whole)
}
