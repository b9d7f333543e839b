ghost use Rattle.std.specs.Prelude.{◌≡◌, [], ◌∷◌, IfOk, option_map};
ghost use Rattle.ref_rewrite.specs.declared.pieces.Piece.{Piece};
ghost use Rattle.formula_reader.specs.Only.{IsOnly};
ghost use Rattle.formula_reader.specs.Symbols.{AreSymbolsOf, AreOfPieces, AreOfPiece, symbols_of};

use super::Symbol;
use crate::tokens::{Placed, tokens_of};
use cell_value::{Duplicate, NoMemory};
use ref_rewrite::Piece;
use std::alloc::Global;

/// The symbols of a formula, from the pieces of its text behind the `=`. None where the first piece
/// is no text that begins with `=`, or where reading leaves no such piece: one at some place of which
/// nothing fits, or with a reference, a word or `#REF!` in a text.
pub(crate) fn symbols_of_formula(
    alloc: Global,
    pieces: &[Piece],
) -> Result<Option<Vec<Symbol>>, NoMemory>
    ensures { IfOk result (λ read. IsOnly (AreSymbolsOf pieces.now) (option_map (λ symbols. symbols.items) read)) }
{
    let Some((first, later)) = pieces.split_first() else {
        return Ok(None);
    };
    match first {
        Piece::Text(text) => match text.as_str().strip_prefix('=') {
            Some(behind) => symbols_from(alloc, behind, later),
            None => Ok(None),
        },
        Piece::Word(_) => Ok(None),
        Piece::Ref(_) => Ok(None),
        Piece::Lost => Ok(None),
    }
}

/// The symbols of a text and of the pieces behind it.
fn symbols_from(
    alloc: Global,
    text: &str,
    pieces: &[Piece],
) -> Result<Option<Vec<Symbol>>, NoMemory>
    ensures { IfOk result (λ read. IsOnly (AreOfPieces (Piece.Text text.now ∷ pieces.now))
        (option_map (λ symbols. symbols.items) read)) }
{
    let Some(mut symbols) = symbols_of_text(alloc, text)? else {
        return Ok(None);
    };
    for piece in pieces {
        match symbols_of_piece(alloc, piece)? {
            Some(mut more) => symbols.append(&mut more)?,
            None => return Ok(None),
        }
    }
    Ok(Some(symbols))
}

/// The symbols of a piece.
fn symbols_of_piece(alloc: Global, piece: &Piece) -> Result<Option<Vec<Symbol>>, NoMemory>
    ensures { IfOk result (λ read. IsOnly (AreOfPiece piece.now) (option_map (λ symbols. symbols.items) read)) }
{
    match piece {
        Piece::Text(text) => symbols_of_text(alloc, text.as_str()),
        Piece::Word(word) => one_symbol(alloc, Symbol::Word(word.duplicate()?)),
        Piece::Ref(reference) => one_symbol(alloc, Symbol::Ref(reference.area)),
        Piece::Lost => one_symbol(alloc, Symbol::Lost),
    }
}

/// A symbol alone.
fn one_symbol(alloc: Global, symbol: Symbol) -> Result<Option<Vec<Symbol>>, NoMemory>
    ensures { IfOk result (λ read. option_map (λ symbols. symbols.items) read ≡ Some (symbol ∷ [])) }
{
    let mut symbols = Vec::new(alloc);
    symbols.push(symbol)?;
    Ok(Some(symbols))
}

/// The symbols of a text.
fn symbols_of_text(alloc: Global, text: &str) -> Result<Option<Vec<Symbol>>, NoMemory>
    ensures { IfOk result (λ read. IsOnly (AreOfPiece (Piece.Text text.now))
        (option_map (λ symbols. symbols.items) read)) }
{
    match tokens_of(alloc, text)? {
        Some(tokens) => symbols_of_tokens(alloc, tokens.into_vec()),
        None => Ok(None),
    }
}

/// The symbols of tokens.
fn symbols_of_tokens(alloc: Global, tokens: Vec<Placed>) -> Result<Option<Vec<Symbol>>, NoMemory>
    ensures { IfOk result (λ read. option_map (λ symbols. symbols.items) read ≡ symbols_of tokens.items) }
{
    let mut symbols = Vec::new(alloc);
    for placed in tokens {
        match Symbol::of_token(placed.token) {
            Some(symbol) => symbols.push(symbol)?,
            None => return Ok(None),
        }
    }
    Ok(Some(symbols))
}
