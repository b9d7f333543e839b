//! The named ranges of a spreadsheet are added, changed and deleted.

ghost use Rattle.std.specs.Prelude.{◌≡◌, IfOk, IfSome, MatchOption, OnErr, OnOk};
ghost use Rattle.named_ranges.specs.Listed.{with_id};
ghost use Rattle.world_model.specs.RangeChange.{PlaceWordsRenamed};
ghost use Rattle.world_model.specs.Sound.{IsOnSheet};
ghost use Rattle.dimension_ops.specs.RangeRequests.{IsRangeAdded, IsRangeDropped, IsRangeUpdated, refusal_of, words_given};
ghost use Rattle.dimension_ops.specs.Rules.{IsUnlessNoMemory};

use crate::book::Book;
use crate::rule::{Rule, RuleOr};
use cell_value::{Duplicate, NoMemory, Text};
use grid_range::Area;
use named_ranges::NameFault;
use world_model::{
    changes_in_turn, ranges_added, ranges_changed, ranges_deleted, words_are_renamed,
};

/// Adds a named range behind the others, and gives its id: the one that is asked for, or else the first of `nr1`,
/// `nr2` and so on that none has.
///
/// # Errors
///
/// The first of these rules that is broken: [`Rule::IdTaken`], [`Rule::BadName`] where the text may not be a name, and
/// [`Rule::NameTaken`] where a range has the name, whatever the case of its ASCII letters; or [`RuleOr::NoMemory`]. The
/// spreadsheet is as it was.
pub fn add_range(book: &mut Book, id: Option<Text>, name: Text, area: Area) -> Result<Text, RuleOr>
    requires { IsOnSheet book.old.sheets area }
    ensures added { IsUnlessNoMemory (IsRangeAdded id name area book.old book.new) result }
    ensures unchanged { OnErr result (book.new ≡ book.old) }
{
    ranges_added();
    match book.add_name(id, name, area) {
        Ok(id) => Ok(id),
        Err(fault) => Err(refusal(fault)),
    }
}

/// Gives the named range with the id another name, another area, or both. Its id and its place among the ranges stay.
/// Where a name is given, each word of a formula that is the old one, whatever the case of its ASCII letters, becomes
/// it.
///
/// # Errors
///
/// The first of these rules that is broken: [`Rule::NoId`] where none has the id, [`Rule::BadName`] where the text may
/// not be a name, and [`Rule::NameTaken`] where another range has the name, whatever the case of its ASCII letters; the
/// spreadsheet is as it was then. [`RuleOr::NoMemory`] where memory runs out; the spreadsheet is to be given up then.
pub fn update_range(
    book: &mut Book,
    id: &str,
    name: Option<Text>,
    area: Option<Area>,
) -> Result<(), RuleOr>
    requires { IfSome area (IsOnSheet book.old.sheets) }
    ensures { IsUnlessNoMemory (IsRangeUpdated id.now name area book.old book.new) result }
{
    changes_in_turn();
    ranges_changed();
    words_are_renamed();
    book.names_apart();
    book.stays_sound();
    let words = words_given(book, id, &name)?;
    if let Err(fault) = book.update_name(id, name, area) {
        return Err(refusal(fault));
    }
    rename(book, &words)?;
    Ok(())
}

/// Deletes the named range with the id. A word that is its name stays in formulas.
///
/// # Errors
///
/// [`Rule::NoId`] where none has the id; the spreadsheet is as it was.
pub fn drop_range(book: &mut Book, id: &str) -> Result<(), Rule>
    ensures { IsRangeDropped id.now book.old book.new result }
{
    ranges_deleted();
    match book.drop_name(id) {
        Ok(_) => Ok(()),
        Err(_) => Err(Rule::NoId),
    }
}

/// What a fault of the list of named ranges is to a request.
fn refusal(fault: NameFault) -> RuleOr
    ensures { result ≡ refusal_of fault }
{
    match fault {
        NameFault::NoId => RuleOr::Rule(Rule::NoId),
        NameFault::IdTaken => RuleOr::Rule(Rule::IdTaken),
        NameFault::BadName => RuleOr::Rule(Rule::BadName),
        NameFault::NameTaken => RuleOr::Rule(Rule::NameTaken),
        NameFault::NoMemory => RuleOr::NoMemory,
    }
}

/// The name of the range with the id, and the one that is given in its place; None where none is given, or none has
/// the id.
fn words_given(book: &Book, id: &str, name: &Option<Text>) -> Result<Option<(Text, Text)>, NoMemory>
    ensures { IfOk result (λ words. words ≡ words_given name.now (with_id id.now book.now.ranges)) }
{
    let Some(given) = name else {
        return Ok(None);
    };
    match book.name_of(id)? {
        Some(old) => Ok(Some((old, given.duplicate()?))),
        None => Ok(None),
    }
}

/// Renames the first word as the second one in all formulas, where there are words.
fn rename(book: &mut Book, words: &Option<(Text, Text)>) -> Result<(), NoMemory>
    ensures { OnOk result (MatchOption words.now (book.new ≡ book.old)
        (λ both. PlaceWordsRenamed both.0 both.1 book.old book.new)) }
{
    if let Some((old, new)) = words {
        book.rename_words(old.as_str(), new.as_str())?;
    }
    Ok(())
}
