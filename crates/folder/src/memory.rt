ghost use Rattle.std.specs.Prelude.{◌≡◌, ◌↔◌, ◌≤◌, ◌<◌, [], false, Some, Err, IfOk, IfSome, IsSome, IsNone, IsTrue};
ghost use Rattle.std.specs.Prelude.{OnOk, OnErr, is_none};
ghost use Rattle.std.specs.Option.{option_copied};
ghost use Rattle.cell_value.specs.FaultCount.{Rose, StaysSteady};
ghost use Rattle.desk.specs.Keeping.{never_fails as keeper_never_fails};
ghost use Rattle.folder.specs.Folder.{after_open, after_journal, found_or_made, with_file, IsRefused};
ghost use Rattle.folder.specs.Memory.{never_fails, bytes_under, shown_by, call_of, handed_out, outages_of, lent_out};
ghost use Rattle.folder.specs.Memory.{with_call, with_failure, with_files, with_lent, IsThere, place_in};

use crate::recorded::{Recorded, recorded_text};
use crate::{Folder, MemoryFile};
use cell_value::{Bytes, Items, NoMemory, Text, is_among};
use desk::{Keeper, LoadFault, MemoryKeeper};
use std::alloc::Global;
use std::marker::Model;

/// Names and their bytes in memory as a folder, some of whose files fail. Contracts see the files, the names of those
/// that fail, what the folder was asked for, the journals that are handed out, and both counts of faults.
///
/// It is never steady, since it fails where it lacks the name that it is asked for.
#[derive(Drop)]
pub struct MemoryFolder {
    files: Vec<(Text, Bytes)>,
    failing: Items<Text>,
    asked: Recorded<(Recorded<u8>, Option<bool>)>,
    lent: Vec<Text>,
    failures: u64,
    keeper_failures: u64,
}

impl Model for MemoryFolder {
    ghost use Rattle.std.specs.Prelude.{All, map, reverse};
    ghost use Rattle.folder.specs.Memory.{FilesInMemory, IsThere, call_of};

    ghost Value = { FilesInMemory };

    ghost view = { λ f. record {
      files = f.files.items;
      failing = f.failing;
      calls = map call_of f.asked;
      lent = reverse f.lent.items;
      failures = f.failures;
      keeper_failures = f.keeper_failures;
    } };

    ghost invariant = { λ f. All (IsThere f.files.items) f.lent.items };
}

impl MemoryFolder {
    /// A folder with these files, each a name and its bytes; of files of one name the first counts. The first read of a
    /// file that is named in `failing` fails, and so does each load of the journal of that name.
    pub fn new(files: Items<(Text, Bytes)>, failing: Items<Text>) -> MemoryFolder
        ensures { result ≡ record {
          files = files;
          failing = failing;
          calls = [];
          lent = [];
          failures = 0;
          keeper_failures = 0;
        } }
    {
        let files = files.into_vec();
        let lent = Vec::new(*files.allocator());
        MemoryFolder {
            files,
            failing,
            asked: Recorded::new(),
            lent,
            failures: 0,
            keeper_failures: 0,
        }
    }

    /// The bytes under that name, where there is a file.
    pub fn bytes_of(&self, name: &str) -> Option<&[u8]>
        ensures { option_copied result ≡ bytes_under self.now.files name.now }
    {
        find_under(self.files.as_slice(), name)
    }

    // Takes note of a call for a file, or for a journal that is to be made or not.
    fn note(&mut self, name: &str, make: Option<bool>)
        ensures { self.new ≡ with_call (call_of (name.now, make)) self.old }
    {
        self.asked.push((recorded_text(name), make));
    }

    // Takes note of a call that failed.
    fn fail(&mut self)
        ensures failed { self.new ≡ with_failure self.old }
        ensures later { self.old.failures ≤ self.new.failures }
        ensures rose { Rose self.old.failures self.new.failures }
    {
        self.failures = self.failures.saturating_add(1);
    }

    // Makes a missing name an empty one, where it is to be made.
    fn make(&mut self, name: &str, make: bool) -> Result<(), NoMemory>
        ensures files { OnOk result (bytes_under self.new.files ≡ with_file name.now
            (found_or_made make (bytes_under self.old.files name.now)) (bytes_under self.old.files)) }
        ensures made { OnOk result (bytes_under self.new.files name.now
            ≡ found_or_made make (bytes_under self.old.files name.now)) }
        ensures rest { self.new ≡ with_files self.new.files self.old }
        ensures err { OnErr result (self.new.files ≡ self.old.files) }
    {
        if make && self.bytes_of(name).is_none() {
            let alloc = *self.files.allocator();
            let name = text_of(alloc, name)?;
            self.files.push((name, Bytes::of(Vec::new(alloc))))?;
        }
        Ok(())
    }

    // Whether a journal of that name can't be handed out: there is no file, and none is to be made.
    fn lacks(&self, name: &str, make: bool) -> bool
        ensures { result ≡ is_none (found_or_made make (bytes_under self.now.files name.now)) }
    {
        !make && self.bytes_of(name).is_none()
    }

    // The keeper of the journal of that name.
    fn keeper(&self, name: &str) -> Result<MemoryKeeper, NoMemory>
        ensures { IfOk result (λ keeper. IfSome (bytes_under self.now.files name.now) (λ bytes.
            keeper ≡ lent_out name.now bytes self.now.failing)) }
    {
        let alloc = *self.files.allocator();
        let failing = outages(alloc, name, self.failing.as_slice())?;
        let kept = copied(alloc, self.bytes_of(name).unwrap_or(&[]))?;
        Ok(MemoryKeeper::new(kept, failing))
    }

    // Takes note of a journal that is handed out.
    fn lend(&mut self, name: &str) -> Result<(), NoMemory>
        requires { IsThere self.old.files name.now }
        ensures ok { OnOk result (self.new ≡ with_lent name.now self.old) }
        ensures err { OnErr result (self.new ≡ self.old) }
    {
        let name = text_of(*self.files.allocator(), name)?;
        self.lent.push(name)?;
        Ok(())
    }
}

// A count that rises where there are faults.
fn risen(count: u64, faults: u64) -> u64
    ensures rose { 0 < faults → Rose count result }
    ensures same { faults ≡ 0 → result ≡ count }
    ensures later { count ≤ result }
{
    if faults > 0 {
        count.saturating_add(1)
    } else {
        count
    }
}

// That text.
fn text_of(alloc: Global, text: &str) -> Result<Text, NoMemory>
    ensures { IfOk result (λ copy. copy ≡ text.now) }
{
    Ok(Text::of(String::from_str(alloc, text)?))
}

// Those bytes.
fn copied(alloc: Global, bytes: &[u8]) -> Result<Vec<u8>, NoMemory>
    ensures { IfOk result (λ copy. copy.items ≡ bytes.now) }
{
    Ok(Vec::from_slice(alloc, bytes)?)
}

// The outages of the journal of that name.
fn outages(
    alloc: Global,
    name: &str,
    failing: &[Text],
) -> Result<Items<(u64, Option<u64>)>, NoMemory>
    ensures { IfOk result (λ outages. outages ≡ outages_of name.now failing.now) }
{
    let mut outages = Vec::new(alloc);
    if is_among(name, failing) {
        outages.push((0, None))?;
    }
    Ok(Items::of(outages))
}

// The bytes of the first of these files with that name.
fn find_under<'a>(files: &'a [(Text, Bytes)], name: &str) -> Option<&'a [u8]>
    ensures { option_copied result ≡ bytes_under files.now name.now }
{
    let file = files.iter().find(|file| file.0.as_str() == name)?;
    Some(file.1.as_slice())
}

// The place of the first of these files with that name.
fn file_place(files: &[(Text, Bytes)], name: &str) -> Option<usize>
    ensures { result ≡ place_in files.now name.now }
{
    files.iter().position(|file| file.0.as_str() == name)
}

// Gives the first file of that name other bytes.
fn put_under(files: &mut Vec<(Text, Bytes)>, name: &str, bytes: Vec<u8>)
    requires { IsThere files.old.items name.now }
    ensures { bytes_under files.new.items ≡ with_file name.now (Some bytes.items) (bytes_under files.old.items) }
{
    if let Some(place) = file_place(files.as_slice(), name) {
        let file = &mut files[place];
        file.1 = Bytes::of(bytes);
    }
}

impl Folder for MemoryFolder {
    ghost use Rattle.std.specs.Prelude.{false};
    ghost use Rattle.std.proofs.Common.{rules};

    type File = MemoryFile;

    type Kept = MemoryKeeper;

    ghost shown = { λ folder. Some (shown_by folder) };

    ghost failures = { λ folder. folder.failures };

    ghost keeper_failures = { λ folder. folder.keeper_failures };

    ghost steady = { λ _. false };

    ghost steady_low = { Prim.search rules };

    ghost steady_keepers_low = { Prim.search rules };

    /// It fails exactly where it lacks the name.
    fn open(&mut self, name: &str) -> Result<MemoryFile, LoadFault>
        ensures shown { Some (shown_by self.new) ≡ Some (after_open name.now (shown_by self.old)) }
        ensures found { IfOk result (λ _. IsSome (bytes_under self.old.files name.now)) }
        ensures bytes { IfOk result (λ file. Some file.left ≡ bytes_under self.old.files name.now) }
        ensures fresh { IfOk result (λ file. file.faults ≡ 0) }
        ensures steady_file { IfOk result (λ file. IsTrue false → IsTrue (never_fails file)) }
        ensures cause { result ≡ Err LoadFault.Failed → Rose self.old.failures self.new.failures }
        ensures later { self.old.failures ≤ self.new.failures }
        ensures keepers { self.new.keeper_failures ≡ self.old.keeper_failures }
        ensures steady { StaysSteady false false self.old.failures self.new.failures }
        ensures fails { (result ≡ Err LoadFault.Failed) ↔ IsNone (bytes_under self.old.files name.now) }
        ensures file { IfOk result (λ file. file ≡ handed_out name.now file.left self.old.failing) }
        ensures failing { self.new.failing ≡ self.old.failing }
    {
        self.note(name, None);
        match self.bytes_of(name) {
            Some(bytes) => {
                let bytes = copied(*self.files.allocator(), bytes)?;
                let fails = is_among(name, self.failing.as_slice());
                Ok(MemoryFile::new(Bytes::of(bytes), fails))
            }
            None => {
                self.fail();
                Err(LoadFault::Failed)
            }
        }
    }

    /// It fails exactly where it lacks the name and isn't to make it.
    fn journal(&mut self, name: &str, make: bool) -> Result<MemoryKeeper, LoadFault>
        ensures shown { IfOk result (λ _. Some (shown_by self.new)
            ≡ Some (after_journal name.now make (shown_by self.old))) }
        ensures found { IfOk result (λ _. IsSome (found_or_made make (bytes_under self.old.files name.now))) }
        ensures bytes { IfOk result (λ kept. Some kept.bytes
            ≡ found_or_made make (bytes_under self.old.files name.now)) }
        ensures fresh { IfOk result (λ kept. kept.faults ≡ 0) }
        ensures steady_keeper { IfOk result (λ kept. IsTrue false → IsTrue (keeper_never_fails kept)) }
        ensures refused { OnErr result (IsRefused name.now make (Some (shown_by self.old)) (Some (shown_by self.new))) }
        ensures cause { result ≡ Err LoadFault.Failed → Rose self.old.failures self.new.failures }
        ensures later { self.old.failures ≤ self.new.failures }
        ensures keepers { self.new.keeper_failures ≡ self.old.keeper_failures }
        ensures steady { StaysSteady false false self.old.failures self.new.failures }
        ensures fails { (result ≡ Err LoadFault.Failed)
            ↔ IsNone (found_or_made make (bytes_under self.old.files name.now)) }
        ensures kept { IfOk result (λ kept. kept ≡ lent_out name.now kept.bytes self.old.failing) }
        ensures failing { self.new.failing ≡ self.old.failing }
    {
        self.note(name, Some(make));
        if self.lacks(name, make) {
            self.fail();
            return Err(LoadFault::Failed);
        }
        self.make(name, make)?;
        let keeper = self.keeper(name)?;
        self.lend(name)?;
        Ok(keeper)
    }

    fn file_back(&mut self, file: MemoryFile) {
        self.failures = risen(self.failures, file.faults());
    }

    fn kept_back(&mut self, kept: MemoryKeeper) {
        self.keeper_failures = risen(self.keeper_failures, kept.faults());
        if let Some(name) = self.lent.pop() {
            put_under(&mut self.files, name.as_str(), kept.into_bytes());
        }
    }
}
