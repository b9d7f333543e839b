ghost use Rattle.std.specs.Prelude.{◌≡◌, ◌≢◌, ◌⊎◌, ◌↔◌, ◌==◌, ◌<◌, ◌≤◌, ◌∷◌, [], map, length, is_some, IfErr, IfOk, IfSome, IsSomeAnd, None, OnOk, OnErr, true, false};
ghost use Rattle.std.specs.List.{insert, list_all, position_from};
ghost use Rattle.std.specs.Option.{IsSome, option_copied, option_map};
ghost use Rattle.dev_metadata.specs.Listed as listed;
ghost use Rattle.dev_metadata.specs.Listed.{AreIdsInOrder, AreInOrderOfId, HaveOwnIds, found, found_by_some, not_found};
ghost use Rattle.dev_metadata.specs.Lookup.{is_bad as is_bad_lookup, has_bad};
ghost use Rattle.dev_metadata.specs.Patch.{with_patched};
ghost use Rattle.dev_metadata.specs.declared.types.MetaFault.TheVariants as meta_fault;
ghost use Rattle.dev_metadata.specs.declared.types.MetaFault.TheVariants.{BadLookup};
ghost use Rattle.cell_value.specs.Ids.{IsLeastUnused, IsNewId, is_taken};
ghost use Rattle.named_ranges.specs.Given.{given_range};
ghost use Rattle.named_ranges.specs.Listed.{AreNames, IsBadName, IsFirstUnused, IsTakenName, TakesNoMemory, has_id as has_range, with_changed, with_id, with_name};
ghost use Rattle.named_ranges.specs.NameRule.{IsName};
ghost use Rattle.named_ranges.specs.declared.range.NameFault.TheVariants.{NoId, IdTaken, BadName, NameTaken};
ghost use Rattle.protection.specs.Editors.{IsKeptOff};
ghost use Rattle.protection.specs.Listed as protection;
ghost use Rattle.protection.specs.Listed.{with_one_more};
ghost use Rattle.protection.specs.Patch.{blank, is_bad, patched};
ghost use Rattle.protection.specs.declared.range.ProtectionFault.TheVariants as protection_fault;
ghost use Rattle.protection.specs.declared.range.ProtectionFault.TheVariants.{Bad, NotEditor};
ghost use Rattle.cell_store.specs.Table.{HasPlace, filled_places, most_filled};
ghost use Rattle.world_model.specs.Counts.{filled_of, formulas_of, grid_places};
ghost use Rattle.world_model.specs.RangeChange.{PlaceWordsRenamed, place_range_added, place_range_deleted, with_place_ranges};
ghost use Rattle.world_model.specs.BookChange.{AreChanges};
ghost use Rattle.world_model.specs.Making.{bare_book};
ghost use Rattle.world_model.specs.BookChange.BookChange.{FilterSet, MergesSet};
ghost use Rattle.world_model.specs.SheetChange.{PlaceSheetDeleted, on_place_sheet, other_sheets, place_filter_set, place_marked_hidden, place_merges_set, place_sheet_added, place_titled, with_place_sheets};
ghost use Rattle.dimension_ops.specs.MergeRequests.{AreOfSheet};
ghost use Rattle.dimension_ops.specs.Parts.{with_part};
ghost use Rattle.dimension_ops.specs.MetadataRequests.{IsItemPatchWithin, MetadataBecomes};
ghost use Rattle.dimension_ops.specs.ProtectionRequests.{IsPatchWithin, ProtectionsBecome};
ghost use Rattle.world_model.specs.Sound.{IsContentWithin, IsFilterOf, IsLineCount, IsOnSheet, IsSound, IsSpotWithin, most_places, most_sheets, place_sheet_with};
ghost use Rattle.world_model.specs.Writing.{book_put, table_written};
ghost use Rattle.std.specs.Arc.{arc_value};
ghost use Rattle.dimension_ops.specs.Found.{ArePlacesOf, content_at};
ghost use Rattle.dimension_ops.specs.ByName.{WritesByName};
ghost use Rattle.dimension_ops.specs.RangeRequests.{range_of};
ghost use Rattle.dimension_ops.specs.Titles.{sheet_titled, first_visible};
ghost use Rattle.dimension_ops.specs.SheetRequests.{has_title};
ghost use Rattle.dimension_ops.specs.World.{opening_book};
ghost use Rattle.grid_range.specs.Change.{Fits, count_after};
ghost use Rattle.world_model.specs.PlaceChange.{BookChanged};
ghost use Rattle.dimension_ops.specs.Lines.{lines_of_sheet, places_changed};
ghost use Rattle.dimension_ops.specs.References.{TearsNone};

use crate::lines::sheets_changed;
use crate::losing::sheets_left;
use crate::part::Part;
use crate::renaming::sheets_renamed;
use crate::sheet::Sheet;
use crate::sheets::{DEFAULT_COLUMNS, DEFAULT_ROWS, places_of};
use basic_filter::Filter;
use cell_value::{Duplicate, Items, NoMemory, Text};
use dev_metadata::{Item, ItemPatch, Lookup, MetaFault, Metadata, Spot, Visibility};
use grid_range::{Area, SheetChange};
use merge_ranges::Merges;
use named_ranges::{NameFault, NamedRange, Names};
use protection::{ProtectionFault, ProtectionPatch, Protections};
use ref_rewrite::Content;
use std::alloc::{AllocError, Global};
use std::marker::Model;
use std::mem;
use std::sync::Arc;
use world_model::{
    changes_stay_sound, filled_within_places, filter_is_set, formulas_counted, merges_are_set,
    metadata_is_set, protections_are_set, ranges_added, ranges_deleted, sheets_deleted,
    words_are_renamed, writes_follow, writes_stay_sound,
};

/// A spreadsheet: its sheets in their order, named ranges, protected ranges and metadata (Sheets API v4
/// reference, Spreadsheet). A copy shares the sheets that it doesn't write to.
#[derive(Drop)]
pub struct Book {
    alloc: Global,
    id: Text,
    title: Text,
    owner: Text,
    sheets: Vec<Arc<Sheet>>,
    ids: Items<u32>,
    names: Names,
    protections: Protections,
    metadata: Metadata,
}

impl Model for Book {
    ghost use Rattle.std.specs.Prelude.{◌≡◌, map};
    ghost use Rattle.std.specs.Arc.{arc_value};
    ghost use Rattle.world_model.specs.Book.{PlaceBook};
    ghost use Rattle.world_model.specs.Sound.{IsSound};
    ghost use Rattle.dimension_ops.specs.Coded.{book_code};

    ghost Value = { PlaceBook };

    ghost coded = { book_code };

    ghost view = { λ b. record {
      id = b.id;
      title = b.title;
      owner = b.owner;
      sheets = map arc_value b.sheets.items;
      ranges = b.names;
      protections = b.protections;
      metadata = b.metadata;
    } };

    ghost invariant = { λ b. IsSound (record {
      id = b.id;
      title = b.title;
      owner = b.owner;
      sheets = map arc_value b.sheets.items;
      ranges = b.names;
      protections = b.protections;
      metadata = b.metadata;
    })
        × (b.ids ≡ map (λ sheet. sheet.id) (map arc_value b.sheets.items)) };
}

impl Book {
    /// The spreadsheet that there is in the beginning.
    ///
    /// # Errors
    ///
    /// [`NoMemory`] where memory runs out.
    pub(crate) fn opening(alloc: Global) -> Result<Book, NoMemory>
        ensures { IfOk result (λ book. book ≡ opening_book) }
    {
        let title = Text::of(String::from_str(alloc, "Sheet1")?);
        let sheet = Sheet::empty(alloc, 0, title, DEFAULT_ROWS, DEFAULT_COLUMNS)?;
        let sheets = only(alloc, sheet)?;
        let mut ids = Vec::new(alloc);
        ids.push(0)?;
        Ok(Book {
            alloc,
            id: Text::of(String::from_str(alloc, "book1")?),
            title: Text::of(String::from_str(alloc, "book1")?),
            owner: Text::of(String::from_str(alloc, "owner")?),
            sheets,
            ids: Items::of(ids),
            names: Names::new(alloc),
            protections: Protections::new(alloc),
            metadata: Metadata::new(alloc),
        })
    }

    /// The spreadsheet with these sheets, no named ranges, no protected ones and no metadata.
    ///
    /// # Errors
    ///
    /// [`NoMemory`] where memory runs out.
    pub(crate) fn with_sheets(
        alloc: Global,
        id: Text,
        title: Text,
        owner: Text,
        sheets: Vec<Arc<Sheet>>,
    ) -> Result<Book, NoMemory>
        requires { IsSound (with_place_sheets (map arc_value sheets.items) (bare_book id title owner)) }
        ensures { IfOk result (λ book.
            book ≡ with_place_sheets (map arc_value sheets.items) (bare_book id title owner)) }
    {
        let mut ids = Vec::new(alloc);
        for sheet in &sheets {
            ids.push(sheet.id())?;
        }
        Ok(Book {
            alloc,
            id,
            title,
            owner,
            sheets,
            ids: Items::of(ids),
            names: Names::new(alloc),
            protections: Protections::new(alloc),
            metadata: Metadata::new(alloc),
        })
    }

    /// What always holds of a spreadsheet.
    pub fn stays_sound(&self)
        ensures { IsSound self.now }
    {
        let _ = &self.alloc;
    }

    /// The spreadsheet's id, lent.
    pub fn id(&self) -> &Text
        ensures { result.now ≡ self.now.id }
    {
        &self.id
    }

    /// The title, lent.
    pub fn title(&self) -> &Text
        ensures { result.now ≡ self.now.title }
    {
        &self.title
    }

    /// The owner, lent.
    pub fn owner(&self) -> &Text
        ensures { result.now ≡ self.now.owner }
    {
        &self.owner
    }

    /// The ids of the sheets, in their order, lent.
    pub fn sheets(&self) -> &Items<u32>
        ensures { result.now ≡ map (λ sheet. sheet.id) self.now.sheets }
    {
        &self.ids
    }

    /// The sheet with the id, lent; None where there is none.
    pub fn sheet(&self, id: u32) -> Option<&Sheet>
        ensures { option_copied result ≡ place_sheet_with id self.now.sheets }
    {
        match self.sheets.iter().find(|sheet| sheet.id() == id) {
            Some(sheet) => Some(sheet),
            None => None,
        }
    }

    /// The sheet with the title, whatever the case of its ASCII letters, lent; None where there is none.
    pub fn titled(&self, title: &str) -> Option<&Sheet>
        ensures { option_copied result ≡ sheet_titled title.now self.now.sheets }
    {
        match self
            .sheets
            .iter()
            .find(|sheet| sheet.title().as_str().eq_ignore_ascii_case(title))
        {
            Some(sheet) => Some(sheet),
            None => None,
        }
    }

    /// The first sheet that isn't hidden, lent.
    pub fn visible(&self) -> Option<&Sheet>
        ensures { option_copied result ≡ first_visible self.now.sheets }
    {
        match self.sheets.iter().find(|sheet| !sheet.hidden()) {
            Some(sheet) => Some(sheet),
            None => None,
        }
    }

    /// How many sheets there are.
    pub(crate) fn count(&self) -> u32
        ensures count { result ≡ length self.now.sheets }
        ensures within { result ≤ most_sheets }
    {
        self.sheets.len() as u32
    }

    /// How many places the sheets have together.
    pub fn grid_places(&self) -> u64
        ensures places { result ≡ grid_places self.now.sheets }
        ensures within { result ≤ most_places }
    {
        let mut places = 0;
        for sheet in &self.sheets {
            places += places_of(sheet.rows(), sheet.cols());
        }
        places
    }

    /// What gives the spreadsheet its memory.
    pub(crate) fn allocator(&self) -> Global {
        self.alloc
    }

    /// Puts the sheet before the one at the place, or last.
    ///
    /// # Errors
    ///
    /// [`NoMemory`] where memory runs out; the spreadsheet is as it was.
    pub(crate) fn insert(&mut self, at: u32, sheet: Sheet) -> Result<(), NoMemory>
        requires there { at ≤ length self.old.sheets }
        requires sound { IsSound (place_sheet_added at sheet self.old) }
        ensures added { OnOk result (self.new ≡ place_sheet_added at sheet self.old) }
        ensures unchanged { OnErr result (self.new ≡ self.old) }
    {
        let ids = with_id(&self.ids, at, sheet.id())?;
        let shared = share_new(self.alloc, sheet)?;
        self.sheets.insert(at as usize, shared)?;
        self.ids = ids;
        Ok(())
    }

    /// Whether all sheets but the one with the id are hidden.
    pub(crate) fn others_hidden(&self, sheet: u32) -> bool
        ensures { result ≡ list_all (λ other. other.hidden) (other_sheets sheet self.now.sheets) }
    {
        self.sheets
            .iter()
            .all(|other| other.id() == sheet || other.hidden())
    }

    /// Whether a sheet but the one with the id has the title, whatever the case of its ASCII letters.
    pub(crate) fn others_titled(&self, sheet: u32, title: &str) -> bool
        ensures { result ≡ has_title (other_sheets sheet self.now.sheets) title.now }
    {
        self.sheets.iter().any(|other| {
            other.id() != sheet && other.title().as_str().eq_ignore_ascii_case(title)
        })
    }

    /// Takes the sheet with the id out, with each reference to it, its named ranges, its protected ones and its
    /// metadata. A sheet without a reference to it isn't copied. While references are lost a spare spreadsheet stands
    /// here, since what always holds of one doesn't hold until all are.
    ///
    /// # Errors
    ///
    /// [`NoMemory`] where memory runs out; the spreadsheet is to be given up then.
    pub(crate) fn remove(&mut self, sheet: u32) -> Result<(), NoMemory>
        requires visible { list_all (λ other. other.hidden) (other_sheets sheet self.old.sheets) ≡ false }
        ensures { OnOk result (PlaceSheetDeleted sheet self.old self.new) }
    {
        let spare = Book::opening(self.alloc)?;
        let book = mem::replace(self, spare);
        *self = book.removed(sheet)?;
        Ok(())
    }

    /// The spreadsheet without the sheet.
    fn removed(self, sheet: u32) -> Result<Book, NoMemory>
        requires visible { list_all (λ other. other.hidden) (other_sheets sheet self.sheets) ≡ false }
        ensures { IfOk result (PlaceSheetDeleted sheet self) }
    {
        sheets_deleted();
        let sheets = sheets_left(self.alloc, self.sheets, sheet)?;
        let mut ids = self.ids.into_vec();
        ids.retain(|id| *id != sheet);
        let mut names = self.names;
        names.lose_sheet(sheet);
        let mut protections = self.protections;
        protections.lose_sheet(sheet);
        let mut metadata = self.metadata;
        metadata.lose_sheet(sheet);
        Ok(Book {
            alloc: self.alloc,
            id: self.id,
            title: self.title,
            owner: self.owner,
            sheets,
            ids: Items::of(ids),
            names,
            protections,
            metadata,
        })
    }

    /// Gives the sheet with the id another title.
    ///
    /// # Errors
    ///
    /// Those of [`Book::set`].
    pub(crate) fn retitle(&mut self, sheet: u32, title: Text) -> Result<(), NoMemory>
        requires there { IsSome (place_sheet_with sheet self.old.sheets) }
        requires sound { IsSound (on_place_sheet sheet (place_titled title) self.old) }
        ensures titled { OnOk result (self.new ≡ on_place_sheet sheet (place_titled title) self.old) }
        ensures unchanged { OnErr result (self.new ≡ self.old) }
    {
        self.set(sheet, Part::Title(title))
    }

    /// Hides the sheet with the id, or shows it.
    ///
    /// # Errors
    ///
    /// Those of [`Book::set`].
    pub(crate) fn mark_hidden(&mut self, sheet: u32, hidden: bool) -> Result<(), NoMemory>
        requires there { IsSome (place_sheet_with sheet self.old.sheets) }
        requires sound { IsSound (on_place_sheet sheet (place_marked_hidden hidden) self.old) }
        ensures marked { OnOk result (self.new ≡ on_place_sheet sheet (place_marked_hidden hidden) self.old) }
        ensures unchanged { OnErr result (self.new ≡ self.old) }
    {
        self.set(sheet, Part::Hidden(hidden))
    }

    /// Gives the sheet with the id other merges.
    ///
    /// # Errors
    ///
    /// Those of [`Book::set`].
    pub(crate) fn set_merges(&mut self, sheet: u32, merges: Merges) -> Result<(), NoMemory>
        requires { IsSomeAnd (place_sheet_with sheet self.old.sheets) (λ found. AreOfSheet found merges) }
        ensures set { OnOk result (self.new ≡ place_merges_set sheet merges self.old) }
        ensures names { OnOk result (AreChanges (MergesSet sheet merges ∷ []) self.old self.new) }
        ensures unchanged { OnErr result (self.new ≡ self.old) }
    {
        merges_are_set();
        self.stays_sound();
        let _listed = merges.list();
        self.set(sheet, Part::Merges(merges))
    }

    /// Gives the sheet with the id another basic filter, or none (Sheets API v4 reference, SetBasicFilterRequest and
    /// ClearBasicFilterRequest).
    ///
    /// # Errors
    ///
    /// [`NoMemory`] where memory runs out; the spreadsheet is as it was.
    pub fn set_filter(&mut self, sheet: u32, filter: Option<Filter>) -> Result<(), NoMemory>
        requires { IsSomeAnd (place_sheet_with sheet self.old.sheets) (λ found. IfSome filter (IsFilterOf found)) }
        ensures set { OnOk result (self.new ≡ place_filter_set sheet filter self.old) }
        ensures names { OnOk result (AreChanges (FilterSet sheet filter ∷ []) self.old self.new) }
        ensures unchanged { OnErr result (self.new ≡ self.old) }
    {
        filter_is_set();
        self.stays_sound();
        self.set(sheet, Part::BasicFilter(filter))
    }

    /// Gives the sheet with the id another one of its parts; all else stays. It is copied first where another
    /// copy of the spreadsheet shares it.
    ///
    /// # Errors
    ///
    /// [`NoMemory`] where memory runs out; the spreadsheet is as it was.
    fn set(&mut self, sheet: u32, part: Part) -> Result<(), NoMemory>
        requires there { IsSome (place_sheet_with sheet self.old.sheets) }
        requires sound { IsSound (on_place_sheet sheet (with_part part) self.old) }
        ensures set { OnOk result (self.new ≡ on_place_sheet sheet (with_part part) self.old) }
        ensures unchanged { OnErr result (self.new ≡ self.old) }
    {
        if let Some(place) = sheet_place(&self.sheets, sheet) {
            set_shared(&mut self.sheets[place], part)?;
        }
        Ok(())
    }

    /// The named ranges, lent.
    pub fn names(&self) -> &Names
        ensures { result.now ≡ self.now.ranges }
    {
        &self.names
    }

    /// No two named ranges have one id, or one name, whatever the case of its ASCII letters.
    pub(crate) fn names_apart(&self)
        ensures { AreNames self.now.ranges }
    {
        let _first = self.names.list(0);
    }

    /// The name of the named range with the id; None where there is none.
    ///
    /// # Errors
    ///
    /// [`NoMemory`] where memory runs out.
    pub(crate) fn name_of(&self, id: &str) -> Result<Option<Text>, NoMemory>
        ensures { IfOk result (λ name. name ≡ option_map (λ range. range.name) (with_id id.now self.now.ranges)) }
    {
        let mut names = self.names.duplicate()?;
        match names.drop(id) {
            Ok(range) => Ok(Some(range.name)),
            Err(_) => Ok(None),
        }
    }

    /// Puts a named range behind the others, and gives its id.
    ///
    /// # Errors
    ///
    /// Those of [`Names::add`]; the spreadsheet is as it was.
    pub(crate) fn add_name(
        &mut self,
        id: Option<Text>,
        name: Text,
        area: Area,
    ) -> Result<Text, NameFault>
        requires there { IsOnSheet self.old.sheets area }
        ensures taken { (result ≡ Err IdTaken) ↔ (is_taken (has_range self.old.ranges) id ≡ true) }
        ensures bad_name { (result ≡ Err BadName)
            ↔ ((is_taken (has_range self.old.ranges) id ≡ false) × ¬ (IsName name)) }
        ensures name_taken { (result ≡ Err NameTaken)
            ↔ ((is_taken (has_range self.old.ranges) id ≡ false) × IsName name
            × (is_some (with_name name self.old.ranges) ≡ true)) }
        ensures no_other { result ≢ Err NoId }
        ensures id { IfOk result (IsNewId (IsFirstUnused self.old.ranges) id) }
        ensures added { IfOk result (λ new. self.new ≡ place_range_added (range_of new name area) self.old) }
        ensures unchanged { OnErr result (self.new ≡ self.old) }
    {
        ranges_added();
        self.names.add(id, name, area)
    }

    /// Gives the named range with the id what is given.
    ///
    /// # Errors
    ///
    /// Those of [`Names::update`]; the spreadsheet is as it was.
    pub(crate) fn update_name(
        &mut self,
        id: &str,
        name: Option<Text>,
        area: Option<Area>,
    ) -> Result<(), NameFault>
        requires there { IfSome area (IsOnSheet self.old.sheets) }
        ensures no_id { (result ≡ Err NoId) ↔ (with_id id.now self.old.ranges ≡ None) }
        ensures bad_name { (result ≡ Err BadName)
            ↔ (IsSome (with_id id.now self.old.ranges) × IsBadName name) }
        ensures name_taken { (result ≡ Err NameTaken)
            ↔ (IsSome (with_id id.now self.old.ranges) × IsTakenName id.now name self.old.ranges) }
        ensures no_other { result ≢ Err IdTaken }
        ensures no_memory { IfErr result TakesNoMemory }
        ensures updated { OnOk result (self.new
            ≡ with_place_ranges (with_changed id.now (given_range name area) self.old.ranges) self.old) }
        ensures unchanged { OnErr result (self.new ≡ self.old) }
    {
        self.names.update(id, name, area)
    }

    /// Takes the named range with the id out, and gives it.
    ///
    /// # Errors
    ///
    /// [`NameFault::NoId`] where none has the id; the spreadsheet is as it was.
    pub(crate) fn drop_name(&mut self, id: &str) -> Result<NamedRange, NameFault>
        ensures no_id { (result ≡ Err NoId) ↔ (with_id id.now self.old.ranges ≡ None) }
        ensures no_other { IfErr result (λ fault. fault ≡ NoId) }
        ensures left { OnOk result (self.new ≡ place_range_deleted id.now self.old) }
        ensures unchanged { OnErr result (self.new ≡ self.old) }
    {
        ranges_deleted();
        self.names.drop(id)
    }

    /// Renames a word in the formulas of all sheets, whatever the case of its ASCII letters. A sheet without it isn't
    /// copied.
    ///
    /// # Errors
    ///
    /// [`NoMemory`] where memory runs out; the spreadsheet is to be given up then.
    pub(crate) fn rename_words(&mut self, old: &str, new: &str) -> Result<(), NoMemory>
        ensures { OnOk result (PlaceWordsRenamed old.now new.now self.old self.new) }
    {
        let spare = Book::opening(self.alloc)?;
        let book = mem::replace(self, spare);
        *self = book.words_renamed(old, new)?;
        Ok(())
    }

    /// The spreadsheet with the word renamed.
    fn words_renamed(self, old: &str, new: &str) -> Result<Book, NoMemory>
        ensures { IfOk result (PlaceWordsRenamed old.now new.now self) }
    {
        words_are_renamed();
        let sheets = sheets_renamed(self.alloc, self.sheets, old, new)?;
        Ok(Book {
            alloc: self.alloc,
            id: self.id,
            title: self.title,
            owner: self.owner,
            sheets,
            ids: self.ids,
            names: self.names,
            protections: self.protections,
            metadata: self.metadata,
        })
    }

    /// The protected ranges, lent.
    pub fn protections(&self) -> &Protections
        ensures { result.now ≡ self.now.protections }
    {
        &self.protections
    }

    /// Adds a protected range of which the patch gives the members, and gives its id: the one that is asked for, or
    /// else the least from 1 on that none has (Sheets API v4 reference, AddProtectedRangeRequest).
    ///
    /// # Errors
    ///
    /// Those of [`Protections::add`]; the spreadsheet is as it was.
    pub fn add_protection(
        &mut self,
        user: &str,
        owner: &str,
        id: Option<u32>,
        patch: ProtectionPatch,
    ) -> Result<u32, ProtectionFault>
        requires given { IsSome patch.area }
        requires within { IsPatchWithin self.old.sheets patch }
        requires room { length self.old.protections < 4294967295 }
        ensures bad { (result ≡ Err Bad) ↔ (is_bad patch None ≡ true) }
        ensures taken { (result ≡ Err protection_fault.IdTaken)
            ↔ ((is_bad patch None ≡ false) × (is_taken (protection.has_id self.old.protections) id ≡ true)) }
        ensures no_other { (result ≢ Err protection_fault.NoId) × (result ≢ Err NotEditor) }
        ensures id { IfOk result (IsNewId (IsLeastUnused (protection.has_id self.old.protections)) id) }
        ensures added { IfOk result (λ new. ProtectionsBecome
            (with_one_more (patched user.now owner.now patch (blank new)) self.old.protections) self.old self.new) }
        ensures unchanged { OnErr result (self.new ≡ self.old) }
    {
        protections_are_set();
        self.protections.add(user, owner, id, patch)
    }

    /// Puts what the patch gives in the place of what the protected range with the id has (Sheets API v4
    /// reference, UpdateProtectedRangeRequest).
    ///
    /// # Errors
    ///
    /// Those of [`Protections::update`]; the spreadsheet is as it was.
    pub fn update_protection(
        &mut self,
        user: &str,
        owner: &str,
        id: u32,
        patch: ProtectionPatch,
    ) -> Result<(), ProtectionFault>
        requires within { IsPatchWithin self.old.sheets patch }
        ensures bad { (result ≡ Err Bad) ↔ (is_bad patch (protection.with_id id self.old.protections) ≡ true) }
        ensures no_id { (result ≡ Err protection_fault.NoId)
            ↔ ((is_bad patch (protection.with_id id self.old.protections) ≡ false)
            × (protection.with_id id self.old.protections ≡ None)) }
        ensures not_editor { (result ≡ Err NotEditor)
            ↔ ((is_bad patch (protection.with_id id self.old.protections) ≡ false)
            × IsKeptOff user.now owner.now (protection.with_id id self.old.protections)) }
        ensures no_other { result ≢ Err protection_fault.IdTaken }
        ensures updated { OnOk result (ProtectionsBecome
            (protection.with_changed id (patched user.now owner.now patch) self.old.protections) self.old self.new) }
        ensures unchanged { OnErr result (self.new ≡ self.old) }
    {
        protections_are_set();
        self.protections.update(user, owner, id, patch)
    }

    /// Takes out the protected range with the id (Sheets API v4 reference, DeleteProtectedRangeRequest).
    ///
    /// # Errors
    ///
    /// Those of [`Protections::drop`]; the spreadsheet is as it was.
    pub fn drop_protection(
        &mut self,
        user: &str,
        owner: &str,
        id: u32,
    ) -> Result<(), ProtectionFault>
        ensures no_id { (result ≡ Err protection_fault.NoId) ↔ (protection.with_id id self.old.protections ≡ None) }
        ensures not_editor { (result ≡ Err NotEditor)
            ↔ IsKeptOff user.now owner.now (protection.with_id id self.old.protections) }
        ensures no_other { IfErr result (λ fault. (fault ≡ protection_fault.NoId) ⊎ (fault ≡ NotEditor)) }
        ensures dropped { OnOk result
            (ProtectionsBecome (protection.without_id id self.old.protections) self.old self.new) }
        ensures unchanged { OnErr result (self.new ≡ self.old) }
    {
        protections_are_set();
        self.protections.drop(user, owner, id)
    }

    /// The metadata, lent.
    pub fn metadata(&self) -> &Metadata
        ensures { result.now ≡ self.now.metadata }
    {
        &self.metadata
    }

    /// No two items of metadata have one id.
    pub fn items_have_own_ids(&self)
        ensures { HaveOwnIds self.now.metadata }
    {
        let _ = self.metadata.get(0, "");
    }

    /// Adds an item of metadata, and gives its id: the one that is asked for, or else the least from 1 on that none
    /// has (Sheets API v4 reference, CreateDeveloperMetadataRequest).
    ///
    /// # Errors
    ///
    /// Those of [`Metadata::create`]; the spreadsheet is as it was.
    pub fn create_item(
        &mut self,
        id: Option<u32>,
        key: Text,
        value: Text,
        spot: Spot,
        visibility: Visibility,
    ) -> Result<u32, MetaFault>
        requires within { IsSpotWithin self.old.sheets spot }
        requires room { length self.old.metadata < 4294967295 }
        ensures taken { (result ≡ Err meta_fault.IdTaken) ↔ (is_taken (listed.has_id self.old.metadata) id ≡ true) }
        ensures no_other { (result ≢ Err meta_fault.NoId) × (result ≢ Err BadLookup) }
        ensures id { IfOk result (IsNewId (IsLeastUnused (listed.has_id self.old.metadata)) id) }
        ensures added { IfOk result (λ new. MetadataBecomes
            (listed.with_one_more new key value spot visibility self.old.metadata) self.old self.new) }
        ensures unchanged { OnErr result (self.new ≡ self.old) }
    {
        metadata_is_set();
        self.metadata.create(id, key, value, spot, visibility)
    }

    /// Puts what the patch gives in the place of what the items have that the project sees and that meet one of the
    /// look-ups, and gives their ids, in order (Sheets API v4 reference, UpdateDeveloperMetadataRequest).
    ///
    /// # Errors
    ///
    /// Those of [`Metadata::update`]; the spreadsheet is as it was.
    pub fn update_items(
        &mut self,
        lookups: &Items<Lookup>,
        project: &str,
        patch: &ItemPatch,
    ) -> Result<Items<u32>, MetaFault>
        requires within { IsItemPatchWithin self.old.sheets patch.now }
        ensures bad { (result ≡ Err BadLookup) ↔ (has_bad lookups.now ≡ true) }
        ensures no_other { (result ≢ Err meta_fault.NoId) × (result ≢ Err meta_fault.IdTaken) }
        ensures ids { IfOk result (AreIdsInOrder (found_by_some lookups.now project.now self.old.metadata)) }
        ensures updated { OnOk result (MetadataBecomes
            (with_patched lookups.now project.now patch.now self.old.metadata) self.old self.new) }
        ensures unchanged { OnErr result (self.new ≡ self.old) }
    {
        metadata_is_set();
        self.metadata.update(lookups, project, patch)
    }

    /// Takes out the items that the project sees and that meet the look-up, and gives copies of them, in order of id
    /// (Sheets API v4 reference, DeleteDeveloperMetadataRequest).
    ///
    /// # Errors
    ///
    /// Those of [`Metadata::drop`]; the spreadsheet is as it was.
    pub fn drop_items(&mut self, lookup: &Lookup, project: &str) -> Result<Items<Item>, MetaFault>
        ensures bad { (result ≡ Err BadLookup) ↔ (is_bad_lookup lookup.now ≡ true) }
        ensures no_other { (result ≢ Err meta_fault.NoId) × (result ≢ Err meta_fault.IdTaken) }
        ensures items { IfOk result (AreInOrderOfId (found lookup.now project.now self.old.metadata)) }
        ensures dropped { OnOk result
            (MetadataBecomes (not_found lookup.now project.now self.old.metadata) self.old self.new) }
        ensures unchanged { OnErr result (self.new ≡ self.old) }
    {
        metadata_is_set();
        self.metadata.drop(lookup, project)
    }

    /// What is stored at the place of the sheet with the id, lent; None where nothing is, and where the
    /// sheet isn't there. Lines are counted from 0.
    pub fn content(&self, sheet: u32, row: u32, column: u32) -> Option<&Content>
        ensures { option_copied result ≡ content_at sheet row column self.now.sheets }
    {
        self.sheet(sheet)?.content(row, column)
    }

    /// The places of the area at which something is stored, by rows; none where the sheet isn't there.
    ///
    /// # Errors
    ///
    /// [`NoMemory`] where memory runs out.
    pub fn places(&self, area: &Area) -> Result<Items<(u32, u32)>, NoMemory>
        ensures { IfOk result (ArePlacesOf area.now self.now.sheets) }
    {
        match self.sheet(area.sheet) {
            Some(sheet) => sheet.places(area),
            None => Ok(Items::of(Vec::new(self.alloc))),
        }
    }

    /// How many cells are stored.
    pub fn filled(&self) -> u64
        ensures filled { result ≡ filled_of self.now.sheets }
        ensures within { result ≤ most_places }
    {
        filled_within_places();
        let mut filled = 0;
        for sheet in &self.sheets {
            filled += sheet.filled();
        }
        filled
    }

    /// How many cells hold a formula.
    pub fn formulas(&self) -> u64
        ensures formulas { result ≡ formulas_of self.now.sheets }
        ensures within { result ≤ filled_of self.now.sheets }
    {
        filled_within_places();
        formulas_counted();
        let mut formulas = 0;
        for sheet in &self.sheets {
            formulas += sheet.formulas();
        }
        formulas
    }

    /// The spreadsheet as copies of a world share it.
    ///
    /// # Errors
    ///
    /// The spreadsheet, and [`NoMemory`] where memory runs out.
    pub(crate) fn shared(self) -> Result<Arc<Book>, (Book, NoMemory)>
        ensures shared { IfOk result (λ shared. arc_value shared ≡ self) }
        ensures back { IfErr result (λ refused. refused.0 ≡ self) }
    {
        match Arc::new(self.alloc, self) {
            Ok(shared) => Ok(shared),
            Err(failed) => Err((failed.value, NoMemory)),
        }
    }

    /// Makes the change of the lines of a sheet, of all that follows it. While sheets are changed a spare
    /// spreadsheet stands here, since what always holds of one doesn't hold until all have followed.
    ///
    /// # Errors
    ///
    /// [`NoMemory`] where memory runs out; the spreadsheet is to be given up then.
    pub(crate) fn change_lines(&mut self, by: &SheetChange) -> Result<(), NoMemory>
        requires fits { Fits by.now.change.now by.now.count }
        requires long { IsSomeAnd (place_sheet_with by.now.sheet self.old.sheets)
            (λ found. lines_of_sheet by.now.axis found ≡ by.now.count) }
        requires room { IsLineCount by.now.axis (count_after by.now.change.now by.now.count) }
        requires few { places_changed by.now.sheet by.now.axis by.now.change.now self.old.sheets ≤ most_places }
        requires untorn { IfSome (place_sheet_with by.now.sheet self.old.sheets)
            (λ found. TearsNone by.now.axis by.now.count by.now.change.now found.merges) }
        ensures { OnOk result (BookChanged by.now.sheet by.now.axis by.now.count by.now.change.now self.old self.new) }
    {
        let spare = Book::opening(self.alloc)?;
        let book = mem::replace(self, spare);
        *self = book.lines_changed(by)?;
        Ok(())
    }

    /// The spreadsheet after the change.
    fn lines_changed(self, by: &SheetChange) -> Result<Book, NoMemory>
        requires fits { Fits by.now.change.now by.now.count }
        requires long { IsSomeAnd (place_sheet_with by.now.sheet self.sheets)
            (λ found. lines_of_sheet by.now.axis found ≡ by.now.count) }
        requires room { IsLineCount by.now.axis (count_after by.now.change.now by.now.count) }
        requires few { places_changed by.now.sheet by.now.axis by.now.change.now self.sheets ≤ most_places }
        requires untorn { IfSome (place_sheet_with by.now.sheet self.sheets)
            (λ found. TearsNone by.now.axis by.now.count by.now.change.now found.merges) }
        ensures { IfOk result (BookChanged by.now.sheet by.now.axis by.now.count by.now.change.now self) }
    {
        changes_stay_sound();
        let sheets = sheets_changed(self.alloc, self.sheets, by)?;
        let mut names = self.names;
        names.change(by.sheet, by.axis, by.count, by.change);
        let mut protections = self.protections;
        protections.change(by.sheet, by.axis, by.count, by.change);
        let mut metadata = self.metadata;
        metadata.change(by.sheet, by.axis, by.count, by.change);
        Ok(Book {
            alloc: self.alloc,
            id: self.id,
            title: self.title,
            owner: self.owner,
            sheets,
            ids: self.ids,
            names,
            protections,
            metadata,
        })
    }

    /// Stores the content at the place of the sheet with the id, or empties it; all else stays. Lines are
    /// counted from 0. The sheet is copied first where another copy of the spreadsheet shares it.
    ///
    /// # Errors
    ///
    /// [`NoMemory`] where memory runs out; the spreadsheet is as it was.
    pub fn put(
        &mut self,
        sheet: u32,
        row: u32,
        column: u32,
        content: Option<Content>,
    ) -> Result<(), NoMemory>
        requires there { IsSomeAnd (place_sheet_with sheet self.old.sheets) (λ found. HasPlace found.table row column) }
        requires within { IfSome content (IsContentWithin self.old.sheets) }
        ensures put { OnOk result (self.new ≡ book_put sheet row column content self.old) }
        ensures names { OnOk result (WritesByName sheet row column content self.old self.new) }
        ensures unchanged { OnErr result (self.new ≡ self.old) }
    {
        writes_stay_sound();
        writes_follow();
        filled_within_places();
        if let Some(place) = sheet_place(&self.sheets, sheet) {
            put_shared(&mut self.sheets[place], row, column, content)?;
        }
        Ok(())
    }
}

/// Stores the content at the place of a sheet that copies of a spreadsheet may share: it is copied first
/// where they do.
fn put_shared(
    sheet: &mut Arc<Sheet>,
    row: u32,
    column: u32,
    content: Option<Content>,
) -> Result<(), NoMemory>
    requires inside { HasPlace (arc_value sheet.old).table row column }
    requires room { filled_places (arc_value sheet.old).table < most_filled }
    ensures put { OnOk result (arc_value sheet.new ≡ record (arc_value sheet.old)
        { table = table_written row column content (arc_value sheet.old).table }) }
    ensures unchanged { OnErr result (arc_value sheet.new ≡ arc_value sheet.old) }
{
    match Arc::make_mut(sheet) {
        Ok(own) => own.put(row, column, content),
        Err(_) => Err(NoMemory),
    }
}

/// Gives a sheet that copies of a spreadsheet may share another one of its parts.
fn set_shared(shared: &mut Arc<Sheet>, part: Part) -> Result<(), NoMemory>
    ensures set { OnOk result (arc_value shared.new ≡ with_part part (arc_value shared.old)) }
    ensures unchanged { OnErr result (arc_value shared.new ≡ arc_value shared.old) }
{
    match Arc::make_mut(shared) {
        Ok(own) => {
            own.set(part);
            Ok(())
        }
        Err(_) => Err(NoMemory),
    }
}

/// The place of the sheet with the id among those.
fn sheet_place(sheets: &[Arc<Sheet>], id: u32) -> Option<usize>
    ensures { result ≡ position_from (λ sheet. sheet.id == id) 0 (map arc_value sheets.now) }
{
    sheets.iter().position(|sheet| sheet.id() == id)
}

/// The ids with one more at the place.
fn with_id(ids: &Items<u32>, at: u32, id: u32) -> Result<Items<u32>, NoMemory>
    requires { at ≤ length ids.now }
    ensures { IfOk result (λ more. more ≡ insert ids.now at id) }
{
    let mut more = ids.duplicate()?.into_vec();
    more.insert(at as usize, id)?;
    Ok(Items::of(more))
}

/// The sheet as copies of a spreadsheet share it.
fn share_new(alloc: Global, sheet: Sheet) -> Result<Arc<Sheet>, NoMemory>
    ensures { IfOk result (λ shared. arc_value shared ≡ sheet) }
{
    let shared = Arc::new(alloc, sheet)?;
    Ok(shared)
}

/// The sheet as the only one.
fn only(alloc: Global, sheet: Sheet) -> Result<Vec<Arc<Sheet>>, NoMemory>
    ensures { IfOk result (λ sheets. map arc_value sheets.items ≡ sheet ∷ []) }
{
    let mut sheets = Vec::new(alloc);
    sheets.push(Arc::new(alloc, sheet)?)?;
    Ok(sheets)
}

/// The same sheets once more: nothing in them is copied.
fn share(sheets: &Vec<Arc<Sheet>>) -> Result<Vec<Arc<Sheet>>, NoMemory>
    ensures same { IfOk result (λ copy. map arc_value copy.items ≡ map arc_value sheets.now.items) }
    ensures long { IfOk result (λ copy. length copy.items ≡ length sheets.now.items) }
{
    let copy = sheets.clone()?;
    Ok(copy)
}

impl Duplicate for Book {
    /// A copy that shares the sheets: no cell is copied.
    fn duplicate(&self) -> Result<Book, NoMemory> {
        Ok(Book {
            alloc: self.alloc,
            id: self.id.duplicate()?,
            title: self.title.duplicate()?,
            owner: self.owner.duplicate()?,
            sheets: share(&self.sheets)?,
            ids: self.ids.duplicate()?,
            names: self.names.duplicate()?,
            protections: self.protections.duplicate()?,
            metadata: self.metadata.duplicate()?,
        })
    }
}

impl Clone for Book {
    ghost use Rattle.std.specs.Prelude.{◌≡◌};

    ghost is_clone = { λ old new. new ≡ old };

    fn clone(&self) -> Result<Book, AllocError> {
        match self.duplicate() {
            Ok(book) => Ok(book),
            Err(_) => Err(AllocError),
        }
    }
}
