ghost use Rattle.std.specs.Prelude.{◌≡◌, ◌⊎◌, List, Ok, Err, IfOk, IfSome, IfNone, All};
ghost use Rattle.formula_reader.specs.declared.tokens.token.Placed.{Placed};
ghost use Rattle.formula_reader.specs.Pieces.{AreTokensOf, IsRead, one_text, formula_of};
ghost use Rattle.formula_reader.specs.Cuts.{Cuts};
ghost use Rattle.formula_reader.specs.Bytes.{Spells};
ghost use Rattle.formula_reader.specs.Symbols.{IsTreeOf, HasTreeOfTokens, KeepsLimits};
ghost use Rattle.formula_reader.specs.Tree.{Expression};
ghost use Rattle.formula_reader.specs.Printed.{ArePrintable};
ghost use Rattle.formula_reader.specs.ReadBack.{AreKnown, IsPresent, IsReadable};

use crate::fault::FormulaFault;
use crate::limits::passed;
use crate::names::SheetNames;
use crate::pieces::pieces_of;
use crate::tokens::{Placed, tokens_of};
use a1_notation::a1_laws;
use cell_value::{Items, NoMemory, Text};
use ref_rewrite::{Formula, Piece};
use std::alloc::Global;

/// A formula of the sheet `here`, as its pieces (the `formulaValue` of the Google Sheets API v4): its
/// references to cells that are there, lost references, words, and what stands between them as typed.
/// A text that doesn't begin with `=`, and one at one of whose places no token fits, is one piece.
///
/// Each byte of the text outside its references stands in a piece, in the text's order. In a reference's
/// place stands a reference's text, and in a lost one's such a text or `#REF!`. Where each sheet has a
/// title that names it, the formula can be printed, and if it has a tree, what is printed is read again
/// as the same formula, with the `$`s that are printed ([`print_formula`](crate::print_formula)).
///
/// # Errors
///
/// [`FormulaFault::Tokens`], [`FormulaFault::References`] and [`FormulaFault::Depth`], exactly where
/// the text has more than 512 tokens, more than 64 references and words (names of functions, truth
/// values and `#REF!` aside), or more than 32 brackets open at once, and none of those before comes;
/// [`FormulaFault::NoMemory`] where memory runs out.
pub fn read_formula<S: SheetNames>(
    alloc: Global,
    text: &str,
    names: &S,
    here: u32,
) -> Result<Formula, FormulaFault>
    ensures tokens { (tokens : List Placed) → AreTokensOf text.now tokens
        → (result ≡ formula_of (S.sheets names.now) here text.now tokens) ⊎ (result ≡ Err FormulaFault.NoMemory) }
    ensures text { ((tokens : List Placed) → ¬ (AreTokensOf text.now tokens))
        → (result ≡ Ok (one_text text.now)) ⊎ (result ≡ Err FormulaFault.NoMemory) }
    ensures bytes { IfOk result (λ formula. Spells text.now formula.pieces) }
    ensures references { IfOk result (λ formula. AreKnown (S.sheets names.now) here
        → ArePrintable (S.sheets names.now) formula.pieces × All (IsPresent (S.sheets names.now) here) formula.pieces) }
    ensures tree { (tokens : List Placed) → AreTokensOf text.now tokens
        → IfOk result (HasTreeOfTokens (S.sheets names.now) here tokens) }
    ensures limits { IfOk result KeepsLimits }
    ensures again { IfOk result (λ formula. AreKnown (S.sheets names.now) here → (tree : Expression)
        → IsTreeOf formula tree → IsReadable (S.sheets names.now) here formula) }
{
    a1_laws();
    match formula_tokens(alloc, text)? {
        Some(tokens) => formula_of(alloc, text, tokens, names, here),
        None => Ok(one_text(alloc, text)?),
    }
}

/// A formula of the sheet `here` as its pieces, as [`read_formula`] reads it but whatever limits the text
/// passes; and the first of them that it does. Where each sheet has a title that names it, the formula can
/// be printed.
///
/// # Errors
///
/// [`NoMemory`] where memory runs out.
pub fn read_pieces<S: SheetNames>(
    alloc: Global,
    text: &str,
    names: &S,
    here: u32,
) -> Result<(Formula, Option<FormulaFault>), NoMemory>
    ensures read { IfOk result (λ read. IsRead (S.sheets names.now) here text.now read.0 read.1) }
    ensures references { IfOk result (λ read. AreKnown (S.sheets names.now) here
        → ArePrintable (S.sheets names.now) read.0.pieces × All (IsPresent (S.sheets names.now) here) read.0.pieces) }
{
    a1_laws();
    match formula_tokens(alloc, text)? {
        Some(tokens) => {
            let limit = passed(tokens.as_slice());
            let pieces = Items::of(pieces_of(alloc, text, tokens, names, here)?);
            Ok((Formula { pieces }, limit))
        }
        None => Ok((one_text(alloc, text)?, None)),
    }
}

/// The tokens of a formula text; None where it doesn't begin with `=`, and where at some place no token
/// fits.
fn formula_tokens(alloc: Global, text: &str) -> Result<Option<Items<Placed>>, NoMemory>
    ensures tokens { IfOk result (λ found. IfSome found (AreTokensOf text.now)) }
    ensures cuts { IfOk result (λ found. IfSome found (Cuts text.now 0)) }
    ensures none { IfOk result (λ found. IfNone found ((tokens : List Placed) → ¬ (AreTokensOf text.now tokens))) }
{
    match text.strip_prefix('=') {
        Some(behind) => tokens_of(alloc, behind),
        None => Ok(None),
    }
}

/// A formula with these tokens, unless they pass a limit.
fn formula_of<S: SheetNames>(
    alloc: Global,
    text: &str,
    tokens: Items<Placed>,
    names: &S,
    here: u32,
) -> Result<Formula, FormulaFault>
    requires { Cuts text.now 0 tokens }
    ensures { (result ≡ formula_of (S.sheets names.now) here text.now tokens) ⊎ (result ≡ Err FormulaFault.NoMemory) }
{
    match passed(tokens.as_slice()) {
        Some(fault) => Err(fault),
        None => {
            let pieces = pieces_of(alloc, text, tokens, names, here)?;
            Ok(Formula {
                pieces: Items::of(pieces),
            })
        }
    }
}

/// A text that is one piece.
fn one_text(alloc: Global, text: &str) -> Result<Formula, NoMemory>
    ensures { IfOk result (λ formula. formula ≡ one_text text.now) }
{
    let mut pieces = Vec::new(alloc);
    pieces.push(Piece::Text(Text::of(String::from_str(alloc, text)?)))?;
    Ok(Formula {
        pieces: Items::of(pieces),
    })
}
