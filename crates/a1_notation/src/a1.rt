use cell_value::{NoMemory, Text};
use grid_range::Band;
use std::alloc::AllocError;
use std::error::Error;
use std::fmt;

/// The part of a sheet, or of the spreadsheet, that a range text names.
#[derive(Debug, Drop)]
pub enum Part {
    /// The cells in these rows and these columns.
    Cells(Band, Band),
    /// All cells of the sheet.
    WholeSheet,
    /// A word, which is the name of a named range or a sheet's title.
    Word(Text),
}

/// What a range text names: a sheet's title, or none, and a part.
#[derive(Debug, Drop)]
pub struct A1 {
    /// The title, without quotes.
    pub sheet: Option<Text>,
    pub part: Part,
}

/// Why a range text isn't read.
#[derive(Clone, Copy, Debug, PartialEq, Eq)]
pub enum A1Fault {
    /// The text is no range, however many letters a column may have.
    NotA1,
    /// The text is a range only where a column may have more than three letters.
    PastZZZ,
    /// Memory ran out.
    NoMemory,
}

impl fmt::Display for A1Fault {
    ghost use Rattle.std.specs.Prelude.{Some};
    ghost use Rattle.a1_notation.specs.Faults.{fault_text};

    ghost output = { λ fault. Some (fault_text fault) };

    fn fmt<W: fmt::Write>(&self, f: &mut fmt::Formatter<W>) -> fmt::Result {
        f.write_str(match self {
            A1Fault::NotA1 => "no range in A1 notation",
            A1Fault::PastZZZ => "a column past ZZZ",
            A1Fault::NoMemory => "no memory",
        })
    }
}

impl Error for A1Fault {}

impl From<AllocError> for A1Fault {
    ghost use Rattle.std.specs.Prelude.{◌≡◌};
    ghost use Rattle.a1_notation.specs.declared.a1.A1Fault.TheVariants.{NoMemory};

    ghost from_gives = { λ _ fault. fault ≡ NoMemory };

    fn from(_error: AllocError) -> A1Fault {
        A1Fault::NoMemory
    }
}

impl From<NoMemory> for A1Fault {
    ghost use Rattle.std.specs.Prelude.{◌≡◌};
    ghost use Rattle.a1_notation.specs.declared.a1.A1Fault.TheVariants as fault;

    ghost from_gives = { λ _ given. given ≡ fault.NoMemory };

    fn from(_error: NoMemory) -> A1Fault {
        A1Fault::NoMemory
    }
}
