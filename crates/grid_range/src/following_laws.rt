//! Laws of following: each function does nothing, and its contract is the law.

ghost use Rattle.grid_range.specs.FollowingLaws.{WholeStays, OrdersStay, MoveKeepsLines, GivesBands, ClosedKeepsLines, OpenKeepsLines, TornClosedIsRange, TornOpenIsRange, TornClosedByPlaces, TornOpenByPlaces, LostWhereGone, BandsStay, IdleMoveKeeps, InsertLengthens, InsertBeside, LostForGood, DeleteInTurn};

/// All lines are all lines for good.
#[tactic(auto, using(crate::proofs::Following::whole_stays))]
pub fn whole_stays()
    ensures { WholeStays }
{}

/// After a change each line has a name of its own.
#[tactic(auto, using(crate::proofs::Changes::orders_stay))]
pub fn orders_stay()
    ensures { OrdersStay }
{}

/// A move keeps the lines that there are.
pub fn move_keeps_lines()
    ensures { MoveKeepsLines }
{}

/// A band becomes a band of the new order: lines side by side, or its last ones.
#[tactic(auto, using(crate::proofs::Following::gives_bands))]
pub fn gives_bands()
    ensures { GivesBands }
{}

/// A closed band has exactly the lines that are left of it where they still stand together.
#[tactic(auto, using(crate::proofs::Following::closed_keeps_lines))]
pub fn closed_keeps_lines()
    ensures { ClosedKeepsLines }
{}

/// An open band has exactly the lines that are left of it where they also end the order.
#[tactic(auto, using(crate::proofs::Following::open_keeps_lines))]
pub fn open_keeps_lines()
    ensures { OpenKeepsLines }
{}

/// Else a closed band goes from the first to the last of its lines that weren't inserted or moved.
#[tactic(auto, using(crate::proofs::Following::torn_closed_is_range))]
pub fn torn_closed_is_range()
    ensures { TornClosedIsRange }
{}

/// Else an open band goes to the end from the first of its lines that weren't inserted or moved.
#[tactic(auto, using(crate::proofs::Following::torn_open_is_range))]
pub fn torn_open_is_range()
    ensures { TornOpenIsRange }
{}

/// In other words: from the first place of such a line to the last one.
#[tactic(auto, using(crate::proofs::Torn::torn_closed_by_places))]
pub fn torn_closed_by_places()
    ensures { TornClosedByPlaces }
{}

/// In other words: from the first place of such a line on.
#[tactic(auto, using(crate::proofs::Torn::torn_open_by_places))]
pub fn torn_open_by_places()
    ensures { TornOpenByPlaces }
{}

/// A band is lost exactly where none of its lines is left.
#[tactic(auto, using(crate::proofs::Following::lost_where_gone))]
pub fn lost_where_gone()
    ensures { LostWhereGone }
{}

/// What is still a band of the order is left as it is.
#[tactic(auto, using(crate::proofs::Changing::bands_stay))]
pub fn bands_stay()
    ensures { BandsStay }
{}

/// A move that moves nothing changes no band.
#[tactic(auto, using(crate::proofs::Changing::idle_move_keeps))]
pub fn idle_move_keeps()
    ensures { IdleMoveKeeps }
{}

/// Lines that are inserted between two of a closed band belong to it.
#[tactic(auto, using(crate::proofs::Changing::insert_lengthens))]
pub fn insert_lengthens()
    ensures { InsertLengthens }
{}

/// Lines that are inserted before a closed band's first line, or behind its last, don't belong to
/// it.
#[tactic(auto, using(crate::proofs::Changing::insert_beside))]
pub fn insert_beside()
    ensures { InsertBeside }
{}

/// Deleting lines and inserting others doesn't bring back a band that was lost.
#[tactic(auto, using(crate::proofs::Changing::lost_for_good))]
pub fn lost_for_good()
    ensures { LostForGood }
{}

/// Deleting lines at once is deleting them one by one, the last one first.
#[tactic(auto, using(crate::proofs::Changing::delete_in_turn))]
pub fn delete_in_turn()
    ensures { DeleteInTurn }
{}
