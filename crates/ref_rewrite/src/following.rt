ghost use Rattle.std.specs.Prelude.{◌≡◌, All, map};
ghost use Rattle.std.specs.List.{AllZip};
ghost use Rattle.grid_range.specs.Area.{IsWithinOn, band_on};
ghost use Rattle.grid_range.specs.Change.{Fits, count_after};
ghost use Rattle.grid_range.specs.Tracking.{Tracks};
ghost use Rattle.ref_rewrite.specs.Following.{IsPieceWithinOn, reference_followed, piece_followed, lines_on, IsFollowed, piece_without_sheet, IsNoReferenceTo};

use crate::pieces::{Formula, Piece};
use crate::reference::Ref;
use cell_value::Update;
use grid_range::{Axis, Change, SheetChange};

/// Has each reference to the sheet follow a change of the lines on its axis, where it had `count`. A
/// reference whose cells are gone becomes [`Piece::Lost`] for good; a title and marks stay with their
/// reference, and every other piece stays as it is. It takes no memory.
pub fn follow(formula: &mut Formula, sheet: u32, axis: Axis, count: u32, change: &Change)
    requires fits { Fits change.now count }
    requires within { All (IsPieceWithinOn sheet axis count) formula.old.pieces }
    ensures followed { formula.new.pieces ≡
        map (piece_followed sheet axis count change.now) formula.old.pieces }
    ensures names { AllZip (IsFollowed sheet axis count change.now)
        formula.old.pieces formula.new.pieces }
    ensures within { All (IsPieceWithinOn sheet axis (count_after change.now count))
        formula.new.pieces }
{
    formula.pieces.update(&SheetChange {
        sheet,
        axis,
        count,
        change,
    });
}

/// Makes each reference to the sheet, which is deleted, a lost one for good; every other piece stays
/// as it is. It takes no memory.
pub fn lose_sheet(formula: &mut Formula, sheet: u32)
    ensures lost { formula.new.pieces ≡ map (piece_without_sheet sheet) formula.old.pieces }
    ensures elsewhere { All (IsNoReferenceTo sheet) formula.new.pieces }
{
    formula.pieces.update(&LostSheet { sheet });
}

impl Update<SheetChange<'_>> for Piece {
    ghost use Rattle.grid_range.specs.Change.{Fits, count_after};
    ghost use Rattle.ref_rewrite.specs.Following.{IsPieceWithinOn, piece_followed, IsFollowed};

    ghost can_update = { λ by piece.
        Fits by.change.now by.count × IsPieceWithinOn by.sheet by.axis by.count piece };

    ghost becomes = { λ by piece. piece_followed by.sheet by.axis by.count by.change.now piece };

    ghost is_updated = { λ by before after.
        IsFollowed by.sheet by.axis by.count by.change.now before after };

    ghost has_updated = { λ by piece.
        IsPieceWithinOn by.sheet by.axis (count_after by.change.now by.count) piece };

    fn update(&mut self, by: &SheetChange) {
        if let Piece::Ref(reference) = *self {
            *self = reference.followed(by.sheet, by.axis, by.count, by.change);
        }
    }
}

impl Ref {
    /// What the reference becomes by the change.
    fn followed(self, sheet: u32, axis: Axis, count: u32, change: &Change) -> Piece
        requires fits { Fits change.now count }
        requires within { IsWithinOn sheet axis count self.area }
        ensures value { result ≡ reference_followed sheet axis count change.now self }
        ensures names { self.area.sheet ≡ sheet
            → Tracks (band_on axis self.area) count change.now (lines_on axis result) }
        ensures within { IsPieceWithinOn sheet axis (count_after change.now count) result }
    {
        match self.area.follow(sheet, axis, count, change) {
            Some(area) => Piece::Ref(Ref { area, ..self }),
            None => Piece::Lost,
        }
    }
}

/// A sheet that is deleted.
#[derive(Clone, Copy)]
struct LostSheet {
    sheet: u32,
}

impl Update<LostSheet> for Piece {
    ghost use Rattle.std.specs.Prelude.{⊤};
    ghost use Rattle.ref_rewrite.specs.Following.{piece_without_sheet, IsNoReferenceTo};

    ghost can_update = { λ by piece. ⊤ };

    ghost becomes = { λ by piece. piece_without_sheet by.sheet piece };

    ghost is_updated = { λ by before after. ⊤ };

    ghost has_updated = { λ by piece. IsNoReferenceTo by.sheet piece };

    fn update(&mut self, by: &LostSheet) {
        if let Piece::Ref(reference) = *self {
            if reference.area.sheet == by.sheet {
                *self = Piece::Lost;
            }
        }
    }
}
