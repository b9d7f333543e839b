ghost use Rattle.std.specs.Prelude.{◌≡◌, map, replicate, IfOk, OnOk, OnErr};
ghost use Rattle.std.specs.List.{count_by};
ghost use Rattle.ref_rewrite.specs.Renaming.{is_word, piece_renamed};

use crate::pieces::{Formula, Piece};
use cell_value::{Items, NoMemory, Text};
use std::alloc::Global;

/// Puts `new` in the place of each word that is `old`, ignoring ASCII case, as where a named range
/// gets another name. Every other piece stays as it is, also one in whose text the word stands.
///
/// # Errors
///
/// [`NoMemory`] where memory runs out; the formula is as it was.
pub fn rename_word(
    alloc: Global,
    formula: &mut Formula,
    old: &str,
    new: &str,
) -> Result<(), NoMemory>
    ensures renamed { OnOk result
        (formula.new.pieces ≡ map (piece_renamed old.now new.now) formula.old.pieces) }
    ensures unchanged { OnErr result (formula.new ≡ formula.old) }
{
    let mut words = new_words(alloc, formula.pieces.as_slice(), old, new)?;
    let mut pieces = formula.pieces.take().into_vec();
    for piece in pieces.iter_mut() {
        if piece.is_word(old) {
            if let Some(word) = words.pop() {
                *piece = Piece::Word(word);
            }
        }
    }
    formula.pieces = Items::of(pieces);
    Ok(())
}

/// The new name, as often as the old one is a word of the pieces.
fn new_words(alloc: Global, pieces: &[Piece], old: &str, new: &str) -> Result<Vec<Text>, NoMemory>
    ensures { IfOk result (λ words.
        words.items ≡ replicate (count_by (is_word old.now) pieces.now) new.now) }
{
    let mut words = Vec::new(alloc);
    for piece in pieces {
        if piece.is_word(old) {
            words.push(Text::of(String::from_str(alloc, new)?))?;
        }
    }
    Ok(words)
}

impl Piece {
    /// Whether the piece is the word, ignoring ASCII case.
    fn is_word(&self, word: &str) -> bool
        ensures { result ≡ is_word word.now self.now }
    {
        match self {
            Piece::Word(own) => own.as_str().eq_ignore_ascii_case(word),
            _ => false,
        }
    }
}
