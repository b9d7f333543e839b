ghost use Rattle.std.specs.Prelude.{◌≡◌, ◌≤◌, ◌++◌, ◌+◌, List, IfOk, OnOk, slice_range, All};
ghost use Rattle.grid_range.specs.Band.{IsNonEmpty};
ghost use Rattle.formula_reader.specs.Boundaries.{HasCells};
ghost use Rattle.formula_reader.specs.Sheets.{sheet_named};
ghost use Rattle.formula_reader.specs.Pieces.{area_on, reference_to, titled_reference, piece_of, text_piece, pieces_from};
ghost use Rattle.formula_reader.specs.Cuts.{Cuts};

use crate::names::SheetNames;
use crate::tokens::{MarkedArea, Placed, Token};
use cell_value::{Items, NoMemory, Text};
use grid_range::Area;
use ref_rewrite::{Piece, Ref};
use std::alloc::Global;

/// The pieces of a formula text: those of its tokens, and what stands between them as it is.
pub(crate) fn pieces_of<S: SheetNames>(
    alloc: Global,
    text: &str,
    tokens: Items<Placed>,
    names: &S,
    here: u32,
) -> Result<Vec<Piece>, NoMemory>
    requires { Cuts text.now 0 tokens }
    ensures { IfOk result (λ pieces. pieces.items ≡ pieces_from (S.sheets names.now) here text.now 0 tokens) }
{
    let mut pieces = Vec::new(alloc);
    let mut from = 0;
    for placed in tokens.into_vec() {
        if let Some(piece) = piece_of(placed.token, names, here) {
            push_text(alloc, &mut pieces, &text[from..placed.start + 1])?;
            pieces.push(piece)?;
            from = placed.end + 1;
        }
    }
    push_text(alloc, &mut pieces, &text[from..])?;
    Ok(pieces)
}

/// Puts a text behind the pieces, unless it is empty.
fn push_text(alloc: Global, pieces: &mut Vec<Piece>, text: &str) -> Result<(), NoMemory>
    ensures { OnOk result (pieces.new.items ≡ pieces.old.items ++ text_piece text.now) }
{
    if !text.is_empty() {
        pieces.push(Piece::Text(Text::of(String::from_str(alloc, text)?)))?;
    }
    Ok(())
}

/// The piece of a token in a formula of the sheet `here`; None for a token that is part of a text.
fn piece_of<S: SheetNames>(token: Token, names: &S, here: u32) -> Option<Piece>
    requires { HasCells token }
    ensures { result ≡ piece_of (S.sheets names.now) here token }
{
    match token {
        Token::Reference(written) => Some(reference_to(names, false, here, written)),
        Token::TitledReference(title, written) => Some(titled_reference(
            names,
            title.as_str(),
            written,
        )),
        Token::Word(word) => Some(Piece::Word(word)),
        Token::Lost => Some(Piece::Lost),
        Token::Function(_)
        | Token::Truth(_)
        | Token::Number(_)
        | Token::Text(_)
        | Token::Operator(_)
        | Token::Open
        | Token::Close
        | Token::Comma => None,
    }
}

/// A reference behind its sheet's title; it is lost where no sheet has the title.
fn titled_reference<S: SheetNames>(names: &S, title: &str, written: MarkedArea) -> Piece
    requires rows { IsNonEmpty written.rows }
    requires cols { IsNonEmpty written.cols }
    ensures { result ≡ titled_reference (S.sheets names.now) written (sheet_named (S.sheets names.now) title.now) }
{
    match names.find(title) {
        Some(sheet) => reference_to(names, true, sheet, written),
        None => Piece::Lost,
    }
}

/// A reference to cells of the sheet; it is lost where they aren't there.
fn reference_to<S: SheetNames>(names: &S, named: bool, sheet: u32, written: MarkedArea) -> Piece
    requires rows { IsNonEmpty written.rows }
    requires cols { IsNonEmpty written.cols }
    ensures { result ≡ reference_to named written (area_on (S.sheets names.now) sheet written) }
{
    match area_on(names, sheet, written) {
        Some(area) => Piece::Ref(Ref {
            named,
            area,
            marks: written.marks,
        }),
        None => Piece::Lost,
    }
}

/// The cells of the sheet, cut at its grid; None where the first of them isn't there.
fn area_on<S: SheetNames>(names: &S, sheet: u32, written: MarkedArea) -> Option<Area>
    requires rows { IsNonEmpty written.rows }
    requires cols { IsNonEmpty written.cols }
    ensures { result ≡ area_on (S.sheets names.now) sheet written }
{
    let (rows, cols) = names.size(sheet)?;
    let area = Area {
        sheet,
        rows: written.rows,
        cols: written.cols,
    };
    area.clip(rows, cols)
}
