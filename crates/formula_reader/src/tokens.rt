//! The tokens of a formula text: references in A1 notation, names, numbers, texts and signs.

mod area;
mod corner;
mod next;
mod number;
mod reference;
mod sign;
mod token;
mod word;

ghost use Rattle.std.specs.Prelude.{◌≡◌, List, All, IfOk, IfSome, IfNone};
ghost use Rattle.formula_reader.specs.declared.tokens.token.Placed.{Placed};
ghost use Rattle.formula_reader.specs.Boundaries.{HasBoundaries, HasCells};
ghost use Rattle.formula_reader.specs.Tokens.{AreTokens};

use a1_notation::Class;
use cell_value::{Items, NoMemory};
use next::read_token;
use std::alloc::Global;
pub use token::{MarkedArea, Operator, Placed, Token};

/// The tokens of a formula's text behind its `=`, in the order in which they stand there, with their
/// places in it. Spaces, tabs and line feeds may stand around them. None where at some place nothing
/// fits.
///
/// # Errors
///
/// [`NoMemory`] where memory runs out.
pub fn tokens_of(alloc: Global, text: &str) -> Result<Option<Items<Placed>>, NoMemory>
    ensures tokens { IfOk result (λ answer. IfSome answer (AreTokens text.now 0)) }
    ensures none { IfOk result (λ answer. IfNone answer ((tokens : List Placed) → ¬ (AreTokens text.now 0 tokens))) }

    // It can be cut at each of them, and a reference names a row and a column.
    ensures boundaries { IfOk result (λ answer. IfSome answer (All (HasBoundaries text.now))) }
    ensures cells { IfOk result (λ answer. IfSome answer (All (λ placed. HasCells placed.token))) }

    // A text has one list of tokens.
    ensures only { (tokens : List Placed) → AreTokens text.now 0 tokens → IfOk result (λ answer. answer ≡ Some tokens) }
{
    let mut tokens = Vec::new(alloc);
    let (_, mut rest) = Class::Blank.split(text);
    while !rest.is_empty() {
        let start = text.len() - rest.len();
        match read_token(alloc, rest) {
            Err(error) => return Err(error),
            Ok(None) => return Ok(None),
            Ok(Some((token, behind))) => {
                let end = text.len() - behind.len();
                tokens.push(Placed { start, end, token })?;
                (_, rest) = Class::Blank.split(behind);
            }
        }
    }
    Ok(Some(Items::of(tokens)))
}
