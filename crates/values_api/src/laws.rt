//! Laws of reads, writes, appends and updates: each function does nothing of its own, and its contract is the law.

ghost use Rattle.values_api.specs.Answered.{AreasEmpty, ReadsAnswered};
ghost use Rattle.values_api.specs.Laws.{AppendsOnce, ReadsOnce, UpdatesOnce, WritesOnce};
ghost use Rattle.values_api.specs.Values.{CellsHaveOneValue};

use cell_calc::{has_values, values_once};
use formula_reader::reads_once;
use world_model::{
    changes_apart, changes_in_turn, ids_find, stands_for_apart, stands_for_some,
    updates_are_writes, updates_follow, writes_stay_sound,
};

/// A read shows one thing of an area.
pub fn shows_once()
    ensures { ReadsOnce }
{
    values_once();
}

/// A cell has one value.
pub fn cells_have_one_value()
    ensures { CellsHaveOneValue }
{
    values_once();
}

/// A write makes one thing of the cells of a spreadsheet, and has one answer.
pub fn writes_once()
    ensures { WritesOnce }
{
    reads_once();
    stands_for_some();
    stands_for_apart();
}

/// An append changes a spreadsheet in one way, and has one answer.
pub fn appends_once()
    ensures { AppendsOnce }
{
    writes_once();
    changes_apart();
    changes_in_turn();
}

/// An update makes one spreadsheet of another.
pub fn updates_once()
    ensures { UpdatesOnce }
{
    stands_for_some();
    stands_for_apart();
}

/// No read is without an answer: a range text names an area or breaks a rule, and a read shows something of each area.
pub fn reads_answered()
    ensures { ReadsAnswered }
{
    has_values();
    ids_find();
}

/// The cells of an area can be emptied whose sheet is there.
pub fn areas_empty()
    ensures { AreasEmpty }
{
    updates_are_writes();
    writes_stay_sound();
    updates_follow();
}
