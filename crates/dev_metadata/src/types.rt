use cell_value::{Duplicate, NoMemory, Text};
use grid_range::Axis;
use std::error::Error;
use std::fmt;

/// Where an item lies: the `DeveloperMetadataLocation` of the Google Sheets API v4.
#[derive(Clone, Copy, Debug, PartialEq, Eq)]
pub enum Spot {
    Spreadsheet,
    /// The sheet with the id.
    Sheet(u32),
    /// A row or a column of the sheet with the id, counted from 0.
    Line(u32, Axis, u32),
}

/// Under which projects an item is seen: the `DeveloperMetadataVisibility` of the Google Sheets API
/// v4.
#[derive(Debug, Drop)]
pub enum Visibility {
    /// Under every project.
    Document,
    /// Under the project alone.
    Project(Text),
}

/// An item of metadata: the `DeveloperMetadata` of the Google Sheets API v4.
#[derive(Debug, Drop)]
pub struct Item {
    /// The `metadataId`.
    pub id: u32,
    pub key: Text,
    pub value: Text,
    pub spot: Spot,
    pub visibility: Visibility,
}

/// Which items are looked up: the `DeveloperMetadataLookup` of the Google Sheets API v4. An item
/// meets it where all members hold that are given.
#[derive(Debug, Drop)]
pub struct Lookup {
    /// The `locationType`.
    pub kind: Option<SpotKind>,
    /// The `metadataLocation`.
    pub spot: Option<Spot>,
    /// Whether the `locationMatchingStrategy` that is given is INTERSECTING_LOCATION. Where none is
    /// given it is that one, whatever stands here.
    pub intersecting: bool,
    /// Whether a `locationMatchingStrategy` is given.
    pub strategy_given: bool,
    /// The `metadataId`.
    pub id: Option<u32>,
    /// The `metadataKey`.
    pub key: Option<Text>,
    /// The `metadataValue`.
    pub value: Option<Text>,
    /// The `visibility`.
    pub visibility: Option<VisibilityKind>,
}

/// A kind of location: the `DeveloperMetadataLocationType` of the Google Sheets API v4.
#[derive(Clone, Copy, Debug, PartialEq, Eq)]
pub enum SpotKind {
    Row,
    Column,
    Sheet,
    Spreadsheet,
}

/// Whether every project is meant, or one alone.
#[derive(Clone, Copy, Debug, PartialEq, Eq)]
pub enum VisibilityKind {
    Document,
    Project,
}

/// The members of items that an updateDeveloperMetadata of the Google Sheets API v4 gives.
#[derive(Debug, Drop)]
pub struct ItemPatch {
    pub key: Option<Text>,
    pub value: Option<Text>,
    pub spot: Option<Spot>,
    /// An item that is made one of a project is made one of the project of the call.
    pub visibility: Option<VisibilityKind>,
}

/// Why a call on metadata is refused.
#[derive(Clone, Copy, Debug, PartialEq, Eq)]
pub enum MetaFault {
    /// No item that is seen has the id.
    NoId,
    /// An item has the id that is given, whether it is seen or not.
    IdTaken,
    /// A look-up asks nothing, or for what can't stand together.
    BadLookup,
    /// Memory ran out.
    NoMemory,
}

impl fmt::Display for MetaFault {
    ghost use Rattle.std.specs.Prelude.{Some};
    ghost use Rattle.dev_metadata.specs.Faults.{fault_text};

    ghost output = { λ fault. Some (fault_text fault) };

    fn fmt<W: fmt::Write>(&self, f: &mut fmt::Formatter<W>) -> fmt::Result {
        f.write_str(match self {
            MetaFault::NoId => "no metadata with the id",
            MetaFault::IdTaken => "metadata has the id",
            MetaFault::BadLookup => "a bad look-up of metadata",
            MetaFault::NoMemory => "no memory",
        })
    }
}

impl Error for MetaFault {}

impl Duplicate for Visibility {
    fn duplicate(&self) -> Result<Visibility, NoMemory> {
        match self {
            Visibility::Document => Ok(Visibility::Document),
            Visibility::Project(project) => Ok(Visibility::Project(project.duplicate()?)),
        }
    }
}

impl Duplicate for Item {
    fn duplicate(&self) -> Result<Item, NoMemory> {
        Ok(Item {
            id: self.id,
            key: self.key.duplicate()?,
            value: self.value.duplicate()?,
            spot: self.spot,
            visibility: self.visibility.duplicate()?,
        })
    }
}
