//! The sheets of a spreadsheet that is created: each is judged, and what isn't given of it is chosen, beside those
//! before it in the list alone, and each rule is tried on all of them before the next one.

ghost use Rattle.std.specs.Prelude.{◌≡◌, ◌<◌, ◌≤◌, ◌+◌, ◌++◌, ◌||◌, ◌==◌, ◌∷◌, [], ℕ, List, length, map, nat_lt, IfOk};
ghost use Rattle.std.specs.Arc.{arc_value};
ghost use Rattle.std.specs.BTreeSet.{contains, contains_text};
ghost use Rattle.std.specs.List.{All, list_all, list_any};
ghost use Rattle.std.specs.Ordering.{nat_cmp};
ghost use Rattle.std.specs.Str.{bytes_eq};
ghost use Rattle.std.specs.String.{string_bytes};
ghost use Rattle.cell_value.specs.Ids.{IsLeastUnused, IsNewId, is_taken};
ghost use Rattle.cell_store.specs.Table.{most_lines};
ghost use Rattle.world_model.specs.Making.{Placed};
ghost use Rattle.world_model.specs.SheetChange.{new_place_sheet};
ghost use Rattle.world_model.specs.Sound.{most_places};
ghost use Rattle.dimension_ops.specs.Broken.{first_passed, judged_by};
ghost use Rattle.dimension_ops.specs.Creating.{AreIdsBelow, AreTitlesBelow, ArePlaced, AreFaults, HavePlaces, IsPlaced, broken_each, created_broken, passes_created, placed_places, sheets_made};
ghost use Rattle.dimension_ops.specs.Rules.{IsUnlessNoMemory};
ghost use Rattle.dimension_ops.specs.SheetRequests.{IsFirstTitle, IsLeastId, has_id, has_title, new_place, numbered_title, sheet_added_broken};

use crate::rule::{Limit, Rule, RuleOr};
use crate::sheet::Sheet;
use crate::sheets::{is_bad_title, new_cols, new_rows, places_of};
use cell_value::{Duplicate, NoMemory, SheetProperties, Text};
use std::alloc::Global;
use std::collections::BTreeSet;
use std::marker::Model;
use std::sync::Arc;
use world_model::{MOST_COLUMNS, MOST_PLACES, MOST_ROWS, MOST_SHEETS};

/// How many spreadsheets a server can hold.
const MOST_BOOKS: u64 = 1_000;

/// A sheet that is made, and its place among those that are made before it.
#[derive(Drop)]
pub(crate) struct PlacedSheet {
    at: u64,
    id: u32,
    title: Text,
    hidden: bool,
    rows: u32,
    cols: u32,
}

impl Model for PlacedSheet {
    ghost use Rattle.world_model.specs.Making.{Placed};
    ghost use Rattle.dimension_ops.specs.Coded.{placed_code};

    ghost Value = { Placed };

    ghost coded = { placed_code };

    ghost view = { λ s. (
      s.at,
      record {
        id = s.id;
        title = s.title;
        hidden = s.hidden;
        rows = s.rows;
        cols = s.cols;
      },
    ) };
}

impl PlacedSheet {
    /// Its place.
    fn place(&self) -> u64
        ensures { result ≡ self.now.0 }
    {
        self.at
    }

    /// Whether it is hidden.
    fn hidden(&self) -> bool
        ensures { result ≡ self.now.1.hidden }
    {
        self.hidden
    }

    /// How many rows it has.
    fn rows(&self) -> u32
        ensures { result ≡ self.now.1.rows }
    {
        self.rows
    }

    /// How many columns it has.
    fn cols(&self) -> u32
        ensures { result ≡ self.now.1.cols }
    {
        self.cols
    }
}

/// Which rules are broken by a sheet, or by one of several.
#[derive(Clone, Copy)]
pub(crate) struct Faults {
    bad_range: bool,
    id_taken: bool,
    bad_name: bool,
    name_taken: bool,
    last_line: bool,
}

/// The sheets that are made so far: their ids, and their titles in lower case, are kept in order. The ids below
/// the least one that may be free are all taken, and so are the numbers of titles.
#[derive(Drop)]
pub(crate) struct Making {
    placed: Vec<PlacedSheet>,
    ids: BTreeSet<u32>,
    least: u32,
    titles: BTreeSet<String>,
    number: u64,
}

impl Model for Making {
    ghost use Rattle.std.specs.Prelude.{List};
    ghost use Rattle.std.specs.Coded.{coded_list};
    ghost use Rattle.world_model.specs.Making.{Placed};
    ghost use Rattle.dimension_ops.specs.Coded.{placed_code};
    ghost use Rattle.dimension_ops.specs.Creating.{AreIdsBelow, AreTitlesBelow, HasIdsOf, HasTitlesOf, sheets_made};

    ghost Value = { List Placed };

    ghost coded = { coded_list placed_code };

    ghost view = { λ m. m.placed.items };

    ghost invariant = { λ m. HasIdsOf (sheets_made m.placed.items) m.ids
        × AreIdsBelow (sheets_made m.placed.items) m.least
        × HasTitlesOf (sheets_made m.placed.items) m.titles
        × AreTitlesBelow (sheets_made m.placed.items) m.number };
}

impl Making {
    /// No sheets.
    fn new(alloc: Global) -> Making
        ensures { result ≡ [] }
    {
        Making {
            placed: Vec::new(alloc),
            ids: BTreeSet::new(alloc),
            least: 0,
            titles: BTreeSet::new(alloc),
            number: 1,
        }
    }

    /// The sheets, each with its place, in the order in which they are made, lent.
    pub(crate) fn placed(&self) -> &[PlacedSheet]
        ensures { result.now ≡ self.now }
    {
        self.placed.as_slice()
    }

    /// How many sheets there are.
    #[tactic(auto, using(crate::proofs::Making::length_made))]
    fn count(&self) -> u64
        ensures { result ≡ length (sheets_made self.now) }
    {
        self.placed.len() as u64
    }

    /// Whether a sheet has the id.
    fn has_id(&self, id: u32) -> bool
        ensures { result ≡ has_id (sheets_made self.now) id }
    {
        self.ids.contains(&id)
    }

    /// Whether a sheet has the title, whatever the case of its ASCII letters.
    ///
    /// # Errors
    ///
    /// [`NoMemory`] where memory runs out.
    fn has_title(&self, alloc: Global, title: &str) -> Result<bool, NoMemory>
        ensures { IfOk result (λ has. has ≡ has_title (sheets_made self.now) title.now) }
    {
        let lowered = title.to_ascii_lowercase(alloc)?;
        Ok(self.titles.contains(lowered.as_str()))
    }

    /// The least id that no sheet has.
    fn least_id(&self) -> Result<u32, NoMemory>
        ensures { IfOk result (IsLeastId (sheets_made self.now)) }
    {
        for id in self.least..u32::MAX {
            if !self.has_id(id) {
                return Ok(id);
            }
        }
        Err(NoMemory)
    }

    /// The first of `Sheet1`, `Sheet2` and so on that no sheet has, and its number.
    fn first_title(&self, alloc: Global) -> Result<(Text, u64), NoMemory>
        ensures title { IfOk result (λ first. first.0 ≡ numbered_title first.1) }
        ensures first { IfOk result
            (λ first. IsLeastUnused (λ number. has_title (sheets_made self.now) (numbered_title number)) first.1) }
    {
        for number in self.number..u64::MAX {
            let title = format!(in alloc; "Sheet{number}")?;
            if !self.has_title(alloc, title.as_str())? {
                return Ok((Text::of(title), number));
            }
        }
        Err(NoMemory)
    }

    /// The id of the next sheet: the one that is given, or else the least that none has; and the least one that may be
    /// free beside it.
    fn new_id(&self, given: Option<u32>) -> Result<(u32, u32), NoMemory>
        ensures id { IfOk result (λ new. IsNewId (IsLeastId (sheets_made self.now)) given new.0) }
        ensures below { IfOk result (λ new. AreIdsBelow (sheets_made self.now) new.1) }
    {
        match given {
            Some(id) => Ok((id, self.least)),
            None => {
                let id = self.least_id()?;
                Ok((id, id))
            }
        }
    }

    /// The title of the next sheet: the one that is given, or else the first that none has; and the least number of
    /// a title that may be free beside it.
    fn new_title(&self, alloc: Global, given: &Option<Text>) -> Result<(Text, u64), NoMemory>
        ensures title { IfOk result (λ new. IsNewId (IsFirstTitle (sheets_made self.now)) given.now new.0) }
        ensures below { IfOk result (λ new. AreTitlesBelow (sheets_made self.now) new.1) }
    {
        match given {
            Some(title) => Ok((title.duplicate()?, self.number)),
            None => self.first_title(alloc),
        }
    }

    /// At which place the next sheet is put in.
    fn place_of_new(&self, properties: &SheetProperties) -> u64
        ensures { result ≡ new_place properties.now (sheets_made self.now) }
    {
        match properties.index {
            Some(index) => index as u64,
            None => self.count(),
        }
    }

    /// The sheets with the one that is asked for.
    ///
    /// # Errors
    ///
    /// [`NoMemory`] where memory runs out.
    fn with(self, alloc: Global, asked: &SheetProperties) -> Result<Making, NoMemory>
        ensures { IfOk result
            (λ more. (placed : Placed) × IsPlaced asked.now (sheets_made self) placed × (more ≡ self ++ placed ∷ [])) }
    {
        let at = self.place_of_new(asked);
        let (id, least) = self.new_id(asked.id)?;
        let (title, number) = self.new_title(alloc, &asked.title)?;
        let lowered = title.as_str().to_ascii_lowercase(alloc)?;
        let ids = with_number(self.ids, id)?;
        let titles = with_text(self.titles, lowered)?;
        let mut placed = self.placed;
        placed.push(PlacedSheet {
            at,
            id,
            title,
            hidden: asked.hidden.unwrap_or(false),
            rows: new_rows(asked),
            cols: new_cols(asked),
        })?;
        Ok(Making {
            placed,
            ids,
            least,
            titles,
            number,
        })
    }

    /// Which rules the sheet that is asked for breaks beside these.
    fn judge(&self, alloc: Global, asked: &SheetProperties) -> Result<Faults, NoMemory>
        ensures { IfOk result (λ faults. AreFaults faults (sheet_added_broken asked.now (sheets_made self.now) ∷ [])) }
    {
        Ok(Faults {
            bad_range: self.place_of_new(asked) > self.count(),
            id_taken: self.is_id_taken(asked.id),
            bad_name: is_bad_title(&asked.title),
            name_taken: self.is_title_taken(alloc, &asked.title)?,
            last_line: new_rows(asked) == 0 || new_cols(asked) == 0,
        })
    }

    /// Whether a given id is one that a sheet has.
    fn is_id_taken(&self, given: Option<u32>) -> bool
        ensures { result ≡ is_taken (has_id (sheets_made self.now)) given }
    {
        match given {
            Some(id) => self.has_id(id),
            None => false,
        }
    }

    /// Whether a given title is one that a sheet has.
    fn is_title_taken(&self, alloc: Global, given: &Option<Text>) -> Result<bool, NoMemory>
        ensures { IfOk result (λ taken. taken ≡ is_taken (has_title (sheets_made self.now)) given.now) }
    {
        match given {
            Some(title) => self.has_title(alloc, title.as_str()),
            None => Ok(false),
        }
    }
}

impl Faults {
    /// No rule is broken.
    fn none() -> Faults
        ensures { AreFaults result [] }
    {
        Faults {
            bad_range: false,
            id_taken: false,
            bad_name: false,
            name_taken: false,
            last_line: false,
        }
    }

    /// The rules that are broken here or there.
    fn or(self, other: Faults) -> Faults
        ensures bad_range { result.bad_range ≡ (self.bad_range || other.bad_range) }
        ensures id_taken { result.id_taken ≡ (self.id_taken || other.id_taken) }
        ensures bad_name { result.bad_name ≡ (self.bad_name || other.bad_name) }
        ensures name_taken { result.name_taken ≡ (self.name_taken || other.name_taken) }
        ensures last_line { result.last_line ≡ (self.last_line || other.last_line) }
    {
        Faults {
            bad_range: self.bad_range || other.bad_range,
            id_taken: self.id_taken || other.id_taken,
            bad_name: self.bad_name || other.bad_name,
            name_taken: self.name_taken || other.name_taken,
            last_line: self.last_line || other.last_line,
        }
    }
}

/// The numbers with one more.
fn with_number(mut numbers: BTreeSet<u32>, number: u32) -> Result<BTreeSet<u32>, NoMemory>
    ensures { IfOk result
        (λ more. (other : ℕ) → contains nat_cmp more other ≡ (number == other || contains nat_cmp numbers other)) }
{
    numbers.insert(number)?;
    Ok(numbers)
}

/// The texts with one more.
fn with_text(mut texts: BTreeSet<String>, text: String) -> Result<BTreeSet<String>, NoMemory>
    ensures { IfOk result (λ more. (other : List ℕ)
        → contains_text more other ≡ (bytes_eq (string_bytes text) other || contains_text texts other)) }
{
    texts.insert(text)?;
    Ok(texts)
}

/// The sheets that are asked for, made one after another, and which rules they break.
///
/// # Errors
///
/// [`NoMemory`] where memory runs out.
fn make(alloc: Global, asked: &[SheetProperties]) -> Result<(Making, Faults), NoMemory>
    ensures placed { IfOk result (λ made. ArePlaced asked.now [] made.0) }
    ensures faults { IfOk result (λ made. AreFaults made.1 (broken_each asked.now [] made.0)) }
{
    let mut making = Making::new(alloc);
    let mut faults = Faults::none();
    for properties in asked {
        faults = faults.or(making.judge(alloc, properties)?);
        making = making.with(alloc, properties)?;
    }
    Ok((making, faults))
}

/// The sheets of a spreadsheet that is created beside so many others.
///
/// # Errors
///
/// The first rule that is broken, or [`RuleOr::NoMemory`].
pub(crate) fn made_sheets(
    alloc: Global,
    books: u64,
    asked: &[SheetProperties],
) -> Result<Making, RuleOr>
    requires { books < 18446744073709551615 }
    ensures { IsUnlessNoMemory (λ told. (placed : List Placed) × ArePlaced asked.now [] placed
        × (told ≡ judged_by (created_broken books asked.now placed) placed)) result }
{
    let (making, faults) = make(alloc, asked)?;
    match judge_made(books, asked, &making, faults) {
        Ok(()) => Ok(making),
        Err(rule) => Err(RuleOr::Rule(rule)),
    }
}

/// The first rule that the sheets break which are made so.
fn judge_made(
    books: u64,
    asked: &[SheetProperties],
    making: &Making,
    faults: Faults,
) -> Result<(), Rule>
    requires known { AreFaults faults (broken_each asked.now [] making.now) }
    requires few { books < 18446744073709551615 }
    ensures { result ≡ judged_by (created_broken books asked.now making.now) tt }
{
    if faults.bad_range {
        return Err(Rule::BadRange);
    }
    if faults.id_taken {
        return Err(Rule::IdTaken);
    }
    if faults.bad_name {
        return Err(Rule::BadName);
    }
    if faults.name_taken {
        return Err(Rule::NameTaken);
    }
    if faults.last_line {
        return Err(Rule::LastLine);
    }
    if are_hidden(&making.placed) {
        return Err(Rule::LastSheet);
    }
    match first_passed(books + 1, &making.placed) {
        Some(limit) => Err(Rule::PastLimit(limit)),
        None => Ok(()),
    }
}

/// Whether all sheets are hidden.
fn are_hidden(placed: &[PlacedSheet]) -> bool
    ensures { result ≡ list_all (λ one. one.1.hidden) placed.now }
{
    placed.iter().all(|one| one.hidden())
}

/// The first limit that is passed by so many spreadsheets, and by one with these sheets.
fn first_passed(books: u64, placed: &[PlacedSheet]) -> Option<Limit>
    ensures { result ≡ first_passed (passes_created books placed.now) }
{
    if books > MOST_BOOKS {
        Some(Limit::Books)
    } else if placed.len() > MOST_SHEETS as usize {
        Some(Limit::Sheets)
    } else if has_many_rows(placed) {
        Some(Limit::Rows)
    } else if has_many_cols(placed) {
        Some(Limit::Columns)
    } else if have_many_places(placed) {
        Some(Limit::Cells)
    } else {
        None
    }
}

/// Whether a sheet has more rows than one can have.
fn has_many_rows(placed: &[PlacedSheet]) -> bool
    ensures { result ≡ list_any (λ one. nat_lt MOST_ROWS one.1.rows) placed.now }
{
    placed.iter().any(|one| one.rows() > MOST_ROWS)
}

/// Whether a sheet has more columns than one can have.
fn has_many_cols(placed: &[PlacedSheet]) -> bool
    ensures { result ≡ list_any (λ one. nat_lt MOST_COLUMNS one.1.cols) placed.now }
{
    placed.iter().any(|one| one.cols() > MOST_COLUMNS)
}

/// Whether the sheets have more places together than a spreadsheet can have.
fn have_many_places(placed: &[PlacedSheet]) -> bool
    ensures { result ≡ nat_lt most_places (placed_places placed.now) }
{
    let mut places = 0;
    for one in placed {
        places += places_of(one.rows(), one.cols());
        if places > MOST_PLACES {
            return true;
        }
    }
    false
}

/// The sheets, empty, each put in at its place.
///
/// # Errors
///
/// [`NoMemory`] where memory runs out.
pub(crate) fn put_in(alloc: Global, placed: &[PlacedSheet]) -> Result<Vec<Arc<Sheet>>, NoMemory>
    requires places { HavePlaces placed.now }
    requires lines { All (λ one. one.1.rows + one.1.cols ≤ most_lines) placed.now }
    ensures { IfOk result (λ sheets. map arc_value sheets.items ≡ sheets_made placed.now) }
{
    let mut sheets = Vec::new(alloc);
    for one in placed {
        let sheet = empty_sheet(alloc, one)?;
        sheets.insert(one.place() as usize, sheet)?;
    }
    Ok(sheets)
}

/// The sheet, empty, as copies of a spreadsheet share it.
fn empty_sheet(alloc: Global, placed: &PlacedSheet) -> Result<Arc<Sheet>, NoMemory>
    requires { placed.now.1.rows + placed.now.1.cols ≤ most_lines }
    ensures { IfOk result (λ sheet. arc_value sheet ≡ new_place_sheet placed.now.1) }
{
    let title = placed.title.duplicate()?;
    let mut sheet = Sheet::empty(alloc, placed.id, title, placed.rows, placed.cols)?;
    sheet.set_hidden(placed.hidden);
    let shared = Arc::new(alloc, sheet)?;
    Ok(shared)
}
