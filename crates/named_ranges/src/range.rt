ghost use Rattle.std.specs.Prelude.{◌≡◌};
ghost use Rattle.named_ranges.specs.Given.{given_range};

use cell_value::{Duplicate, NoMemory, Text, put_given};
use grid_range::Area;
use std::error::Error;
use std::fmt;

/// A named range: the `NamedRange` of the Google Sheets API v4.
#[derive(Debug, Drop)]
pub struct NamedRange {
    /// The `namedRangeId`.
    pub id: Text,
    pub name: Text,
    /// The cells that it names.
    pub area: Area,
}

impl NamedRange {
    /// Puts what is given in the place of what the range has.
    pub(crate) fn give(&mut self, name: Option<Text>, area: Option<Area>)
        ensures { self.new ≡ given_range name area self.old }
    {
        put_given(&mut self.name, name);
        put_given(&mut self.area, area);
    }
}

impl Duplicate for NamedRange {
    fn duplicate(&self) -> Result<NamedRange, NoMemory> {
        Ok(NamedRange {
            id: self.id.duplicate()?,
            name: self.name.duplicate()?,
            area: self.area,
        })
    }
}

/// Why a list of named ranges isn't changed. Where several causes stand together the first of them
/// is given.
#[derive(Clone, Copy, Debug, PartialEq, Eq)]
pub enum NameFault {
    /// No named range has the id.
    NoId,
    /// A named range has the id that is given.
    IdTaken,
    /// The text may not be a name.
    BadName,
    /// Another named range has the name, ignoring ASCII case.
    NameTaken,
    /// Memory ran out.
    NoMemory,
}

impl fmt::Display for NameFault {
    ghost use Rattle.std.specs.Prelude.{Some};
    ghost use Rattle.named_ranges.specs.Faults.{fault_text};

    ghost output = { λ fault. Some (fault_text fault) };

    fn fmt<W: fmt::Write>(&self, f: &mut fmt::Formatter<W>) -> fmt::Result {
        f.write_str(match self {
            NameFault::NoId => "no named range with the id",
            NameFault::IdTaken => "a named range has the id",
            NameFault::BadName => "no name of a named range",
            NameFault::NameTaken => "another named range has the name",
            NameFault::NoMemory => "no memory",
        })
    }
}

impl Error for NameFault {}
