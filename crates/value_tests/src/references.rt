ghost use Rattle.std.specs.Prelude.{◌≡◌};

use crate::common::check;
use cell_value::{Duplicate, Items, NoMemory, Text};
use grid_range::Axis::{Columns, Rows};
use grid_range::Band::Span;
use grid_range::Change::{Delete, Insert, Move};
use grid_range::{Area, Axis, Band, Change};
use ref_rewrite::{Content, Formula, Marks, Piece, Ref, follow, lose_sheet, rename_word};
use std::alloc::Global;

/// `A$1:$B5` of the sheet 7: rows 1 to 5 of 1,000, and the columns B and C of 26.
const REFERENCE: Ref = Ref {
    named: true,
    area: Area {
        sheet: 7,
        rows: Span(0, 5),
        cols: Span(1, 3),
    },
    marks: Marks {
        row1: true,
        col1: false,
        row2: false,
        col2: true,
    },
};

/// What a change makes of its rows or of its columns.
static FOLLOWED: [(Axis, Change, Option<Band>); 15] = [
    (Rows, Insert { at: 2, count: 1 }, Some(Span(0, 6))),
    (Rows, Insert { at: 0, count: 1 }, Some(Span(1, 6))),
    (Rows, Insert { at: 5, count: 1 }, Some(Span(0, 5))),
    (Rows, Delete { start: 0, end: 2 }, Some(Span(0, 3))),
    (Rows, Delete { start: 0, end: 5 }, None),
    (
        Rows,
        Delete {
            start: 5,
            end: 1_000,
        },
        Some(Span(0, 5)),
    ),
    (
        Rows,
        Move {
            start: 0,
            end: 1,
            to: 10,
        },
        Some(Span(0, 4)),
    ),
    (
        Rows,
        Move {
            start: 2,
            end: 3,
            to: 0,
        },
        Some(Span(0, 5)),
    ),
    (
        Rows,
        Move {
            start: 7,
            end: 8,
            to: 2,
        },
        Some(Span(0, 6)),
    ),
    (
        Rows,
        Move {
            start: 0,
            end: 5,
            to: 12,
        },
        Some(Span(7, 12)),
    ),
    (
        Rows,
        Move {
            start: 1,
            end: 3,
            to: 2,
        },
        Some(Span(0, 5)),
    ),
    (Columns, Insert { at: 2, count: 3 }, Some(Span(1, 6))),
    (Columns, Delete { start: 2, end: 26 }, Some(Span(1, 2))),
    (Columns, Delete { start: 1, end: 3 }, None),
    (
        Columns,
        Move {
            start: 1,
            end: 2,
            to: 26,
        },
        Some(Span(1, 2)),
    ),
];

#[test]
fn references_follow(rt: HostRuntime) {
    for row in &FOLLOWED {
        check(
            &rt,
            &row.1,
            lines_after(rt.alloc(), row.0, &row.1) == Some(row.2),
        );
    }
    check(&rt, &"lost", is_lost_with_its_sheet(rt.alloc()));
}

/// What a change makes of the lines of a reference with a lost one behind it; None where it can't be made.
fn lines_after(alloc: Global, axis: Axis, change: &Change) -> Option<Option<Band>> {
    let Ok(pieces) = vec![in alloc; Piece::Ref(REFERENCE), Piece::Lost] else {
        return None;
    };
    let mut formula = formula_of(pieces);
    match axis {
        Rows if change.fits(1_000) => follow(&mut formula, 7, Rows, 1_000, change),
        Columns if change.fits(26) => follow(&mut formula, 7, Columns, 26, change),
        _ => return None,
    }
    lines_of(&formula, axis)
}

/// The lines of the first reference, where a lost one is behind it.
fn lines_of(formula: &Formula, axis: Axis) -> Option<Option<Band>> {
    match formula.pieces.as_slice() {
        [Piece::Ref(reference), Piece::Lost] => Some(Some(reference.area.band_on(axis))),
        [Piece::Lost, Piece::Lost] => Some(None),
        _ => None,
    }
}

/// Whether the reference is lost where its sheet is.
fn is_lost_with_its_sheet(alloc: Global) -> bool {
    let mut formula = formula_of(two(alloc, Piece::Ref(REFERENCE), Piece::Lost));
    lose_sheet(&mut formula, 7);
    matches!(formula.pieces.as_slice(), [Piece::Lost, Piece::Lost])
}

/// A word, the old name and the new one, and the word then. Letters past ASCII have no other case.
static RENAMED: [(&str, &str, &str, &str); 7] = [
    ("Rate", "rATE", "Tax_1", "Tax_1"),
    ("Rate", "Rate", "", ""),
    ("Rate", "rate", "rate", "rate"),
    ("Rate2", "Rate", "Tax", "Rate2"),
    ("Rat", "Rate", "Tax", "Rat"),
    ("Prämie", "PRÄMIE", "Tax", "Prämie"),
    ("Prämie", "PRäMIE", "Tax", "Tax"),
];

#[test]
fn words_are_renamed(rt: HostRuntime) {
    for row in &RENAMED {
        check(
            &rt,
            &row.0,
            is_renamed(rt.alloc(), row.0, row.1, row.2, row.3),
        );
    }
}

/// Whether the word is the wanted one once it is renamed, and a text of it stays.
fn is_renamed(alloc: Global, word: &str, old: &str, new: &str, wanted: &str) -> bool {
    let own = Piece::Word(text(alloc, word));
    let mut formula = formula_of(two(alloc, own, Piece::Text(text(alloc, word))));
    match rename_word(alloc, &mut formula, old, new) {
        Ok(()) => are_texts(&formula, wanted, word),
        Err(NoMemory) => false,
    }
}

/// Whether the formula is that word and that text.
fn are_texts(formula: &Formula, word: &str, text: &str) -> bool {
    match formula.pieces.as_slice() {
        [Piece::Word(own), Piece::Text(behind)] => {
            own.as_str() == word && behind.as_str() == text
        }
        _ => false,
    }
}

#[test]
fn formulas_are_copied(rt: HostRuntime) {
    check(&rt, &"copy", is_copied(rt.alloc()));
}

/// Whether a formula in a cell has a copy.
fn is_copied(alloc: Global) -> bool {
    let content = Content::Formula(formula_of(two(alloc, Piece::Ref(REFERENCE), Piece::Lost)));
    match content.duplicate() {
        Ok(Content::Formula(copy)) => {
            matches!(copy.pieces.as_slice(), [Piece::Ref(_), Piece::Lost])
        }
        _ => false,
    }
}

/// The two pieces, or fewer where memory runs out.
fn two(alloc: Global, first: Piece, second: Piece) -> Vec<Piece> {
    let mut pieces = Vec::new(alloc);
    let _ = pieces.push(first);
    let _ = pieces.push(second);
    pieces
}

fn formula_of(pieces: Vec<Piece>) -> Formula
    ensures { result.pieces ≡ pieces.items }
{
    Formula {
        pieces: Items::of(pieces),
    }
}

/// The text, or an empty one where memory runs out.
fn text(alloc: Global, text: &str) -> Text {
    Text::of(match String::from_str(alloc, text) {
        Ok(text) => text,
        Err(_) => String::new(alloc),
    })
}
