ghost use Rattle.std.specs.Prelude.{◌≡◌, IfOk};

use cell_value::{Duplicate, Items, NoMemory, Text};
use grid_range::Area;
use std::alloc::Global;
use std::error::Error;
use std::fmt;

/// A protected range: the `ProtectedRange` of the Google Sheets API v4.
#[derive(Debug, Drop)]
pub struct Protection {
    /// The `protectedRangeId`.
    pub id: u32,
    /// The cells that it covers.
    pub area: Area,
    pub description: Text,
    /// It keeps nobody off, and has no editors.
    pub warning_only: bool,
    /// Ranges whose cells everybody may edit. They may lie on any sheet.
    pub unprotected: Items<Area>,
    /// The names of the users who may edit, beside the spreadsheet's owner.
    pub editors: Items<Text>,
}

impl Protection {
    /// A copy, which equals its source.
    ///
    /// # Errors
    ///
    /// [`NoMemory`] where memory runs out.
    pub(crate) fn copy(&self, alloc: Global) -> Result<Protection, NoMemory>
        ensures { IfOk result (λ copy. copy ≡ self.now) }
    {
        let unprotected = Vec::from_slice(alloc, self.unprotected.as_slice())?;
        Ok(Protection {
            description: self.description.duplicate()?,
            unprotected: Items::of(unprotected),
            editors: self.editors.duplicate()?,
            ..*self
        })
    }
}

/// The members of a protected range that an addProtectedRange or an updateProtectedRange of the
/// Google Sheets API v4 gives.
#[derive(Debug, Drop)]
pub struct ProtectionPatch {
    pub area: Option<Area>,
    pub description: Option<Text>,
    pub warning_only: Option<bool>,
    pub unprotected: Option<Items<Area>>,
    pub editors: Option<Items<Text>>,
}

/// Why a list of protected ranges isn't changed. Where several causes stand together the first of
/// them is given.
#[derive(Clone, Copy, Debug, PartialEq, Eq)]
pub enum ProtectionFault {
    /// Unprotected ranges are given for an area that isn't a whole sheet; or a warning is made one
    /// that keeps users off, and no editors are given.
    Bad,
    /// No protected range has the id.
    NoId,
    /// A protected range has the id that is given.
    IdTaken,
    /// The user is neither one of the editors nor the spreadsheet's owner.
    NotEditor,
    /// Memory ran out.
    NoMemory,
}

impl fmt::Display for ProtectionFault {
    ghost use Rattle.std.specs.Prelude.{Some};
    ghost use Rattle.protection.specs.Faults.{fault_text};

    ghost output = { λ fault. Some (fault_text fault) };

    fn fmt<W: fmt::Write>(&self, f: &mut fmt::Formatter<W>) -> fmt::Result {
        f.write_str(match self {
            ProtectionFault::Bad => "a bad shape of a protected range",
            ProtectionFault::NoId => "no protected range with the id",
            ProtectionFault::IdTaken => "a protected range has the id",
            ProtectionFault::NotEditor => "the user is no editor of the protected range",
            ProtectionFault::NoMemory => "no memory",
        })
    }
}

impl Error for ProtectionFault {}
