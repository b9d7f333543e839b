ghost use Rattle.std.specs.Prelude.{◌≡◌, ℕ, ◌++◌, IfOk, OnOk, string_bytes};
ghost use Rattle.formula_reader.specs.ReferenceText.{reference_text, HasForm};
ghost use Rattle.formula_reader.specs.Printed.{title_before, printed_piece, printed, IsPrintableReference, IsPrintable, ArePrintable};
ghost use Rattle.formula_reader.specs.Bytes.{Spells};
ghost use Rattle.formula_reader.specs.ReadBack.{IsReadable, IsReadAs, as_printed};

use crate::names::SheetNames;
use crate::reference_text::reference_text;
use a1_notation::{a1_laws, quote_name};
use cell_value::{NoMemory, Text};
use ref_rewrite::{Formula, Piece, Ref};
use std::alloc::Global;

/// The text of a formula at the present sizes and titles: a reference as canonical A1 notation with
/// its `$`s, behind its sheet's title where it was written with one, a lost one as `#REF!`, and the
/// other pieces as they are (the `formulaValue` of the Google Sheets API v4; its A1 notation guide).
/// Each byte of a piece that is no reference stands in the text, in the pieces' order.
///
/// # Errors
///
/// [`NoMemory`] where memory runs out.
pub fn print_formula<S: SheetNames>(
    alloc: Global,
    formula: &Formula,
    names: &S,
) -> Result<Text, NoMemory>
    requires { ArePrintable (S.sheets names.now) formula.now.pieces }
    ensures printed { IfOk result (λ text. text ≡ printed (S.sheets names.now) formula.now.pieces) }
    ensures bytes { IfOk result (λ text. Spells text formula.now.pieces) }
    ensures again { IfOk result (λ text. (here : ℕ) → IsReadable (S.sheets names.now) here formula.now
        → IsReadAs (S.sheets names.now) here text (as_printed formula.now)) }
{
    a1_laws();
    let mut text = String::new(alloc);
    for piece in formula.pieces.as_slice() {
        push_piece(alloc, &mut text, piece, names)?;
    }
    Ok(Text::of(text))
}

/// Puts a piece behind the text.
fn push_piece<S: SheetNames>(
    alloc: Global,
    text: &mut String,
    piece: &Piece,
    names: &S,
) -> Result<(), NoMemory>
    requires { IsPrintable (S.sheets names.now) piece.now }
    ensures { OnOk result (string_bytes text.new
        ≡ string_bytes text.old ++ printed_piece (S.sheets names.now) piece.now) }
{
    match piece {
        Piece::Text(own) => Ok(text.push_str(own.as_str())?),
        Piece::Word(word) => Ok(text.push_str(word.as_str())?),
        Piece::Ref(reference) => push_reference(alloc, text, reference, names),
        Piece::Lost => Ok(text.push_str("#REF!")?),
    }
}

/// Puts a reference behind the text.
fn push_reference<S: SheetNames>(
    alloc: Global,
    text: &mut String,
    reference: &Ref,
    names: &S,
) -> Result<(), NoMemory>
    requires { IsPrintableReference (S.sheets names.now) reference.now }
    ensures { OnOk result (string_bytes text.new ≡ string_bytes text.old
        ++ (title_before (S.sheets names.now) reference.now
        ++ reference_text reference.now.area.rows reference.now.area.cols reference.now.marks)) }
{
    push_title(alloc, text, reference, names)?;
    let own = reference_text(
        alloc,
        reference.area.rows,
        reference.area.cols,
        reference.marks,
    )?;
    Ok(text.push_str(own.as_str())?)
}

/// Puts the title of a reference's sheet and `!` behind the text, where it is written with one.
fn push_title<S: SheetNames>(
    alloc: Global,
    text: &mut String,
    reference: &Ref,
    names: &S,
) -> Result<(), NoMemory>
    ensures { OnOk result (string_bytes text.new
        ≡ string_bytes text.old ++ title_before (S.sheets names.now) reference.now) }
{
    if !reference.named {
        return Ok(());
    }
    match names.title(reference.area.sheet) {
        Some(title) => {
            let title = quote_name(alloc, title.as_str())?;
            text.push_str(title.as_str())?;
            Ok(text.push_str("!")?)
        }
        None => Ok(()),
    }
}
