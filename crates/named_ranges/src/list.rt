ghost use Rattle.std.specs.Prelude.{◌≡◌, ◌≢◌, ◌↔◌, ◌⊎◌, true, false, None, Some, IsSome, IfSome, IfNone, All, [], ◌∷◌, ◌++◌, length, slice_get, is_some, IfOk, OnOk, OnErr, IfErr};
ghost use Rattle.std.specs.Option.{option_copied};
ghost use Rattle.named_ranges.specs.Listed.{AreNames, has_id, IsFirstUnused, with_id, with_name, with_one_more, with_changed, without_id, is_name_of_other, IsBadName, IsTakenName, TakesNoMemory};
ghost use Rattle.cell_value.specs.Ids.{is_taken, IsNewId};
ghost use Rattle.named_ranges.specs.Given.{given_range};
ghost use Rattle.std.specs.List.{filter_map};
ghost use Rattle.grid_range.specs.Change.{Fits, count_after};
ghost use Rattle.named_ranges.specs.Following.{IsRangeWithinOn, range_followed, ranges_elsewhere};
ghost use Rattle.named_ranges.specs.NameRule.{IsName};
ghost use Rattle.named_ranges.specs.declared.range.NameFault.TheVariants.{NoId, IdTaken, BadName, NameTaken};

use crate::following::keep_elsewhere;
use crate::name::is_name;
use crate::range::{NameFault, NamedRange};
use cell_value::{Duplicate, NoMemory, Text, follow_values};
use grid_range::{Area, Axis, Change, SheetChange};
use indexmap::IndexMap;
use std::alloc::Global;
use std::marker::Model;

/// The named ranges of a spreadsheet. Contracts see a list in order of creation.
#[derive(Drop)]
pub struct Names {
    alloc: Global,
    by_id: IndexMap<String, NamedRange>,
}

impl Model for Names {
    ghost use Rattle.std.specs.Prelude.{List};
    ghost use Rattle.named_ranges.specs.declared.range.NamedRange.{NamedRange};
    ghost use Rattle.named_ranges.specs.Kept.{ranges_of, IsKept};

    ghost Value = { List NamedRange };

    ghost view = { λ n. ranges_of n.by_id.entries };

    ghost invariant = { λ n. IsKept n.by_id.entries };
}

impl Names {
    /// No named ranges. It takes no memory.
    pub fn new(alloc: Global) -> Names
        ensures { result ≡ [] }
    {
        Names {
            alloc,
            by_id: IndexMap::new(alloc),
        }
    }

    /// How many named ranges there are.
    pub fn count(&self) -> u64
        ensures { result ≡ length self.now }
    {
        self.by_id.len() as u64
    }

    /// The named range at the place in order of creation, counted from 0; None past the last.
    pub fn list(&self, at: u32) -> Option<&NamedRange>
        ensures range { option_copied result ≡ slice_get self.now at }
        ensures names { AreNames self.now }
    {
        match self.by_id.get_index(at as usize) {
            Some((_, range)) => Some(range),
            None => None,
        }
    }

    /// The named range of that name, ignoring ASCII case. It goes over the ranges, and takes no memory.
    pub fn find(&self, name: &str) -> Option<&NamedRange>
        ensures { option_copied result ≡ with_name name.now self.now }
    {
        self.by_id
            .values()
            .find(|range| range.name.as_str().eq_ignore_ascii_case(name))
    }

    /// Adds a named range behind the others, and gives its id: the one that is asked for, or else the
    /// first of `nr1`, `nr2` and so on that none has.
    ///
    /// # Errors
    ///
    /// In this order [`NameFault::IdTaken`] where the id that is asked for is taken,
    /// [`NameFault::BadName`] where the text may not be a name, [`NameFault::NameTaken`] where a range
    /// has the name, ignoring ASCII case, and [`NameFault::NoMemory`] where memory runs out; the list is
    /// as it was.
    pub fn add(&mut self, id: Option<Text>, name: Text, area: Area) -> Result<Text, NameFault>
        ensures taken { (result ≡ Err IdTaken) ↔ (is_taken (has_id self.old) id ≡ true) }
        ensures bad_name { (result ≡ Err BadName)
            ↔ ((is_taken (has_id self.old) id ≡ false) × ¬ (IsName name)) }
        ensures name_taken { (result ≡ Err NameTaken)
            ↔ ((is_taken (has_id self.old) id ≡ false) × IsName name
            × (is_some (with_name name self.old) ≡ true)) }
        ensures no_other { result ≢ Err NoId }
        ensures id { IfOk result (IsNewId (IsFirstUnused self.old) id) }
        ensures added { IfOk result (λ new. self.new ≡ with_one_more new name area self.old) }
        ensures unchanged { OnErr result (self.new ≡ self.old) }
    {
        if self.is_taken(&id) {
            return Err(NameFault::IdTaken);
        }
        if !is_name(name.as_str()) {
            return Err(NameFault::BadName);
        }
        if self.find(name.as_str()).is_some() {
            return Err(NameFault::NameTaken);
        }
        match self.add_last(id, name, area) {
            Ok(id) => Ok(id),
            Err(NoMemory) => Err(NameFault::NoMemory),
        }
    }

    /// Whether the id that is asked for is one that some range has.
    fn is_taken(&self, asked: &Option<Text>) -> bool
        ensures { result ≡ is_taken (has_id self.now) asked.now }
    {
        match asked {
            Some(id) => self.has_id(id.as_str()),
            None => false,
        }
    }

    /// Whether some range has the id.
    fn has_id(&self, id: &str) -> bool
        ensures { result ≡ has_id self.now id.now }
    {
        self.by_id.contains_key(id)
    }

    /// Adds a range with a new id, and gives the id.
    fn add_last(&mut self, id: Option<Text>, name: Text, area: Area) -> Result<Text, NoMemory>
        requires id { is_taken (has_id self.old) id ≡ false }
        requires name { with_name name self.old ≡ None }
        ensures id { IfOk result (IsNewId (IsFirstUnused self.old) id) }
        ensures added { IfOk result (λ new. self.new ≡ with_one_more new name area self.old) }
        ensures unchanged { OnErr result (self.new ≡ self.old) }
    {
        let id = self.new_id(id)?;
        let given = id.duplicate()?;
        self.push(NamedRange { id, name, area })?;
        Ok(given)
    }

    /// The id that a new range gets.
    fn new_id(&self, asked: Option<Text>) -> Result<Text, NoMemory>
        requires { is_taken (has_id self.now) asked ≡ false }
        ensures id { IfOk result (IsNewId (IsFirstUnused self.now) asked) }
        ensures unused { IfOk result (λ id. with_id id self.now ≡ None) }
    {
        match asked {
            Some(id) => Ok(id),
            None => self.unused_id(),
        }
    }

    /// Puts a range behind the others.
    fn push(&mut self, range: NamedRange) -> Result<(), NoMemory>
        requires id { with_id range.id self.old ≡ None }
        requires name { with_name range.name self.old ≡ None }
        ensures added { OnOk result (self.new ≡ self.old ++ range ∷ []) }
        ensures unchanged { OnErr result (self.new ≡ self.old) }
    {
        let key = String::from_str(self.alloc, range.id.as_str())?;
        self.by_id.insert(key, range)?;
        Ok(())
    }

    /// The first of `nr1`, `nr2` and so on that no range has.
    fn unused_id(&self) -> Result<Text, NoMemory>
        ensures { IfOk result (IsFirstUnused self.now) }
    {
        for number in 1..u64::MAX {
            let id = format!(in self.alloc; "nr{number}")?;
            if !self.has_id(id.as_str()) {
                return Ok(Text::of(id));
            }
        }
        Err(NoMemory)
    }

    /// Gives the named range with the id another name, another area, or both. Its id and its place stay.
    /// It takes no memory.
    ///
    /// # Errors
    ///
    /// In this order [`NameFault::NoId`] where none has the id, [`NameFault::BadName`] where the text
    /// may not be a name, and [`NameFault::NameTaken`] where another range has the name, ignoring ASCII
    /// case; the list is as it was.
    pub fn update(
        &mut self,
        id: &str,
        name: Option<Text>,
        area: Option<Area>,
    ) -> Result<(), NameFault>
        ensures no_id { (result ≡ Err NoId) ↔ (with_id id.now self.old ≡ None) }
        ensures bad_name { (result ≡ Err BadName)
            ↔ (IsSome (with_id id.now self.old) × IsBadName name) }
        ensures name_taken { (result ≡ Err NameTaken)
            ↔ (IsSome (with_id id.now self.old) × IsTakenName id.now name self.old) }
        ensures no_other { (result ≢ Err IdTaken) }
        ensures no_memory { IfErr result TakesNoMemory }
        ensures updated { OnOk result
            (self.new ≡ with_changed id.now (given_range name area) self.old) }
        ensures unchanged { OnErr result (self.new ≡ self.old) }
    {
        if !self.has_id(id) {
            return Err(NameFault::NoId);
        }
        match self.rename_fault(id, &name) {
            Some(fault) => Err(fault),
            None => {
                self.give(id, name, area);
                Ok(())
            }
        }
    }

    /// Why the range with the id may not be given the name, if it is given one.
    fn rename_fault(&self, id: &str, name: &Option<Text>) -> Option<NameFault>
        ensures bad_name { (result ≡ Some BadName) ↔ IsBadName name.now }
        ensures name_taken { (result ≡ Some NameTaken) ↔ IsTakenName id.now name.now self.now }
        ensures no_other { IfSome result (λ fault. (fault ≡ BadName) ⊎ (fault ≡ NameTaken)) }
        ensures free { IfNone result
            (IfSome name.now (λ name. is_name_of_other name id.now self.now ≡ false)) }
    {
        let Some(name) = name else {
            return None;
        };
        if !is_name(name.as_str()) {
            return Some(NameFault::BadName);
        }
        if self.is_name_of_other(name.as_str(), id) {
            return Some(NameFault::NameTaken);
        }
        None
    }

    /// Whether another range than the one with the id has the name, ignoring ASCII case.
    fn is_name_of_other(&self, name: &str, id: &str) -> bool
        ensures { result ≡ is_name_of_other name.now id.now self.now }
    {
        self.by_id.values().any(|range| {
            range.name.as_str().eq_ignore_ascii_case(name) && range.id.as_str() != id
        })
    }

    /// Puts what is given in the place of what the range with the id has.
    fn give(&mut self, id: &str, name: Option<Text>, area: Option<Area>)
        requires { IfSome name (λ name. is_name_of_other name id.now self.old ≡ false) }
        ensures { self.new ≡ with_changed id.now (given_range name area) self.old }
    {
        if let Some(at) = self.by_id.get_index_of(id) {
            self.by_id[at].give(name, area);
        }
    }

    /// Takes out the named range with the id, and gives it. It takes no memory.
    ///
    /// # Errors
    ///
    /// [`NameFault::NoId`] where none has the id; the list is as it was.
    pub fn drop(&mut self, id: &str) -> Result<NamedRange, NameFault>
        ensures no_id { (result ≡ Err NoId) ↔ (with_id id.now self.old ≡ None) }
        ensures no_other { IfErr result (λ fault. fault ≡ NoId) }
        ensures dropped { IfOk result (λ range. with_id id.now self.old ≡ Some range) }
        ensures left { OnOk result (self.new ≡ without_id id.now self.old) }
        ensures unchanged { OnErr result (self.new ≡ self.old) }
    {
        match self.take(id) {
            Some(range) => Ok(range),
            None => Err(NameFault::NoId),
        }
    }

    /// Takes out the range with the id, if there is one.
    fn take(&mut self, id: &str) -> Option<NamedRange>
        ensures taken { result ≡ with_id id.now self.old }
        ensures left { self.new ≡ without_id id.now self.old }
        ensures unchanged { IfNone result (self.new ≡ self.old) }
    {
        self.by_id.shift_remove(id)
    }

    /// Has every area follow a change of the lines on the axis of the sheet, where it had `count`. A
    /// range whose area is lost goes; ids, names and the order stay. It takes no memory.
    pub fn change(&mut self, sheet: u32, axis: Axis, count: u32, change: &Change)
        requires fits { Fits change.now count }
        requires within { All (IsRangeWithinOn sheet axis count) self.old }
        ensures followed { self.new ≡
            filter_map (range_followed sheet axis count change.now) self.old }
        ensures within { All (IsRangeWithinOn sheet axis (count_after change.now count)) self.new }
    {
        let by = SheetChange {
            sheet,
            axis,
            count,
            change,
        };
        follow_values(&mut self.by_id, &by);
    }

    /// Takes out the ranges of a sheet that is deleted. It takes no memory.
    pub fn lose_sheet(&mut self, sheet: u32)
        ensures { self.new ≡ ranges_elsewhere sheet self.old }
    {
        keep_elsewhere(&mut self.by_id, sheet);
    }
}

impl Duplicate for Names {
    fn duplicate(&self) -> Result<Names, NoMemory> {
        let mut copy = Names::new(self.alloc);
        for at in 0..self.by_id.len() {
            copy.push(self.by_id[at].duplicate()?)?;
        }
        Ok(copy)
    }
}
