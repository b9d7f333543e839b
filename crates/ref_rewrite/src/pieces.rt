use crate::reference::Ref;
use cell_value::{Duplicate, Items, NoMemory, Text};

/// A piece of a formula's text.
#[derive(Debug, Drop)]
pub enum Piece {
    /// Operators, brackets, numbers, texts, truth values, names of functions and blanks, as typed.
    Text(Text),
    /// A word that is none of these: a named range is called so, if any is.
    Word(Text),
    /// A reference to cells.
    Ref(Ref),
    /// A reference whose cells are gone: `#REF!` for good.
    Lost,
}

/// A formula: the `formulaValue` of an `ExtendedValue` of the Google Sheets API v4, as its pieces one
/// behind another.
#[derive(Debug, Drop)]
pub struct Formula {
    pub pieces: Items<Piece>,
}

impl Duplicate for Piece {
    fn duplicate(&self) -> Result<Piece, NoMemory> {
        match self {
            Piece::Text(text) => Ok(Piece::Text(text.duplicate()?)),
            Piece::Word(word) => Ok(Piece::Word(word.duplicate()?)),
            Piece::Ref(reference) => Ok(Piece::Ref(*reference)),
            Piece::Lost => Ok(Piece::Lost),
        }
    }
}

impl Duplicate for Formula {
    fn duplicate(&self) -> Result<Formula, NoMemory> {
        let pieces = self.pieces.duplicate()?;
        Ok(Formula { pieces })
    }
}
