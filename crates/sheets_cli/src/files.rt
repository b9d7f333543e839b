ghost use Rattle.std.specs.Prelude.{◌≡◌, ◌≤◌};
ghost use Rattle.cell_value.specs.FaultCount.{Rose};
ghost use Rattle.sheets_cli.specs.Files.{folder_faults, keepers_faults, journal_faults};

use crate::standard::{Input, read_again};
use cell_value::Bytes;
use desk::{Keeper, LoadFault, PutFault};
use folder::Folder;
use std::fs::{File, OpenOptions};
use std::io;
use std::io::{Error, ErrorKind, Read, Seek};
use std::os::unix::fs::FileExt;
use std::path::Path;
use std::rt::Files;

/// The files of the system as a folder, in which a name is a path. It tells nothing of what they hold; contracts see
/// its two counts of faults.
#[derive(Drop)]
pub struct FileFolder<'a, R> {
    rt: &'a R,
    faults: u64,
    keepers: u64,
}

impl<'a, R> FileFolder<'a, R> {
    /// The files that the system gives, none of which has failed yet.
    pub fn new(rt: &'a R) -> FileFolder<'a, R>
        ensures own { folder_faults result ≡ 0 }
        ensures keepers { keepers_faults result ≡ 0 }
    {
        FileFolder {
            rt,
            faults: 0,
            keepers: 0,
        }
    }
}

impl<R: Files<File = File>> Folder for FileFolder<'_, R> {
    ghost use Rattle.std.specs.Prelude.{None, false};
    ghost use Rattle.std.proofs.Common.{rules};

    type File = Input<File>;

    type Kept = FileKeeper;

    ghost steady_low = { Prim.search rules };

    ghost steady_keepers_low = { Prim.search rules };

    ghost shown = { λ _. None };

    ghost failures = { λ folder. folder_faults folder };

    ghost keeper_failures = { λ folder. keepers_faults folder };

    ghost steady = { λ _. false };

    fn open(&mut self, name: &str) -> Result<Input<File>, LoadFault> {
        match File::open(self.rt, name) {
            Ok(file) => Ok(Input::new(file)),
            Err(error) => Err(load_fault(&error, &mut self.faults)),
        }
    }

    fn journal(&mut self, name: &str, make: bool) -> Result<FileKeeper, LoadFault> {
        match open_journal(self.rt, name, make) {
            Ok(file) => Ok(FileKeeper::new(file)),
            Err(error) => Err(load_fault(&error, &mut self.faults)),
        }
    }

    fn file_back(&mut self, file: Input<File>) {
        if file.faults() > 0 {
            self.faults = self.faults.saturating_add(1);
        }
    }

    fn kept_back(&mut self, kept: FileKeeper) {
        if kept.faults() > 0 {
            self.keepers = self.keepers.saturating_add(1);
        }
    }
}

/// As what an error is told: want of memory as such, and any other as a fault, which is counted.
fn load_fault(error: &Error, faults: &mut u64) -> LoadFault
    ensures cause { result ≡ LoadFault.Failed → Rose faults.old faults.new }
    ensures later { faults.old ≤ faults.new }
{
    if error.kind() == ErrorKind::OutOfMemory {
        return LoadFault::NoMemory;
    }
    *faults = faults.saturating_add(1);
    LoadFault::Failed
}

/// Opens a file to be read and written. With `make` one that is missing is made, and it is locked until it is closed:
/// one that another open has locked isn't opened, since each would cut off what the other has added.
fn open_journal<R: Files<File = File>>(rt: &R, name: &str, make: bool) -> io::Result<File> {
    let file = OpenOptions::new()
        .read(true)
        .write(true)
        .create(make)
        .open(rt, name)?;
    if make {
        file.try_lock()?;
        // Its name lasts from here on. Where the system can't see to that, the file is used all the same.
        let _ = keep_names(rt, folder_of(name));
    }
    Ok(file)
}

/// Lets the names that stand in a folder of the system last.
fn keep_names<R: Files<File = File>>(rt: &R, folder: &str) -> io::Result<()> {
    File::open(rt, folder)?.sync_all()
}

/// The folder of the system in which the name stands.
fn folder_of(name: &str) -> &str {
    match Path::new(name).parent() {
        Some(parent) if !parent.as_str().is_empty() => parent.as_str(),
        _ => ".",
    }
}

/// A file of the system as the keeper of a journal. It tells nothing of what it holds; contracts see its count of
/// faults.
#[derive(Drop)]
pub struct FileKeeper {
    file: File,
    faults: u64,
}

impl FileKeeper {
    // The file as a keeper, which hasn't failed yet.
    fn new(file: File) -> FileKeeper
        ensures { journal_faults result ≡ 0 }
    {
        FileKeeper { file, faults: 0 }
    }
}

impl Keeper for FileKeeper {
    ghost use Rattle.std.specs.Prelude.{None, false};
    ghost use Rattle.std.proofs.Common.{rules};

    ghost steady_low = { Prim.search rules };

    ghost kept = { λ _. None };

    ghost failures = { λ keeper. journal_faults keeper };

    ghost steady = { λ _. false };

    fn load(&mut self, most: u64, into: &mut Bytes) -> Result<(), LoadFault> {
        match read_from_start(&self.file, most, into) {
            Ok(()) => Ok(()),
            Err(error) => Err(load_fault(&error, &mut self.faults)),
        }
    }

    /// What is kept lasts, also where the system stops, before it answers `Ok`.
    fn put(&mut self, at: u64, piece: &[u8]) -> Result<(), PutFault> {
        match put_at(&self.file, at, piece) {
            Ok(()) => Ok(()),
            Err(_) => {
                self.faults = self.faults.saturating_add(1);
                Err(PutFault::Failed)
            }
        }
    }

    fn faults(&self) -> u64 {
        self.faults
    }
}

/// Makes `into` the first `most` bytes of a file, or all of them where it has fewer.
fn read_from_start(mut file: &File, most: u64, into: &mut Bytes) -> io::Result<()> {
    into.clear();
    file.rewind()?;
    let mut kept = file.take(most);
    let mut piece = [0; 8192];
    for _ in 0..u64::MAX {
        let count = read_again(&mut kept, &mut piece)?;
        if count == 0 {
            return Ok(());
        }
        into.extend_from_slice(&piece[..count])
            .map_err(|_| Error::from(ErrorKind::OutOfMemory))?;
    }
    Err(Error::from(ErrorKind::Interrupted))
}

/// Makes a file its first `at` bytes and the piece, which last from then on.
fn put_at(file: &File, at: u64, piece: &[u8]) -> io::Result<()> {
    cut_at(file, at)?;
    file.write_all_at(piece, at)?;
    file.sync_data()
}

/// Cuts off what stands behind the first `at` bytes of a file. That lasts before anything is written there: else, where
/// the system stops, a piece that was written in part could go on with what stood there before.
fn cut_at(file: &File, at: u64) -> io::Result<()> {
    let count = file.metadata()?.len();
    if count < at {
        return Err(Error::from(ErrorKind::UnexpectedEof));
    }
    if count > at {
        file.set_len(at)?;
        file.sync_data()?;
    }
    Ok(())
}
