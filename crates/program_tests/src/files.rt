use crate::checks::check;
use cell_value::{Bytes, Failed};
use desk::{Keeper, LoadFault, PutFault};
use folder::Folder;
use sheets_cli::FileFolder;
use sheets_http::Source;
use std::alloc::Global;
use std::fs;
use std::fs::File;
use std::rt::Files;

/// Where the journal of the test stands.
const JOURNAL: &str = "/tmp/fulmarcot-journal-test";

#[test]
fn keeps_a_journal_in_a_file(rt: HostRuntime) {
    let _ = fs::remove_file(&rt, JOURNAL);
    check(&rt, &"missing", is_missing(&rt));
    check(&rt, &"kept", is_kept(&rt));
    check(&rt, &"read", is_read(&rt));
    check(&rt, &"locked", is_locked(&rt));
    check(&rt, &"failing", is_failing(&rt));
    let _ = fs::remove_file(&rt, JOURNAL);
}

/// Whether a file that is missing is neither read nor kept in, and isn't made.
fn is_missing<R: Files<File = File>>(rt: &R) -> bool {
    let mut folder = FileFolder::new(rt);
    let unread = is_failed(folder.open(JOURNAL));
    let unkept = is_failed(folder.journal(JOURNAL, false));
    unread && unkept && is_failed(folder.open(JOURNAL))
}

/// Whether it failed.
fn is_failed<T: Drop>(answer: Result<T, LoadFault>) -> bool {
    matches!(answer, Err(LoadFault::Failed))
}

/// Whether a file that is made keeps pieces behind one another, and less where one is put further in front.
fn is_kept<R: Files<File = File> + AllocGlobal>(rt: &R) -> bool {
    let mut folder = FileFolder::new(rt);
    let Ok(mut kept) = folder.journal(JOURNAL, true) else {
        return false;
    };
    let empty = loads(rt.alloc(), &mut kept, 100, b"");
    let put = kept.put(0, b"SHEETJ01").is_ok() && kept.put(8, b"an entry").is_ok();
    let whole = loads(rt.alloc(), &mut kept, 100, b"SHEETJ01an entry");
    let first = loads(rt.alloc(), &mut kept, 7, b"SHEETJ0");
    let cut = kept.put(8, b"two").is_ok() && loads(rt.alloc(), &mut kept, 100, b"SHEETJ01two");
    let past = kept.put(12, b"x") == Err(PutFault::Failed) && kept.faults() == 1;
    let left = loads(rt.alloc(), &mut kept, 100, b"SHEETJ01two");
    folder.kept_back(kept);
    empty && put && whole && first && cut && past && left
}

/// Whether the keeper loads these bytes where it is asked for that many.
fn loads<K: Keeper>(alloc: Global, kept: &mut K, most: u64, bytes: &[u8]) -> bool {
    let mut into = Bytes::of(Vec::new(alloc));
    kept.load(most, &mut into).is_ok() && into.as_slice() == bytes
}

/// Whether what a journal keeps is read from its file, and kept when it is opened again.
fn is_read<R: Files<File = File> + AllocGlobal>(rt: &R) -> bool {
    let mut folder = FileFolder::new(rt);
    let Ok(mut file) = folder.open(JOURNAL) else {
        return false;
    };
    let mut bytes = [0; 16];
    let read = file.read(&mut bytes) == Ok(11) && bytes.starts_with(b"SHEETJ01two");
    let ended = file.read(&mut bytes) == Ok(0);
    folder.file_back(file);
    let Ok(mut kept) = folder.journal(JOURNAL, true) else {
        return false;
    };
    let again = loads(rt.alloc(), &mut kept, 100, b"SHEETJ01two");
    folder.kept_back(kept);
    read && ended && again
}

/// Whether a journal that is kept isn't kept by another too, but may be looked at, and is free behind that.
fn is_locked<R: Files<File = File>>(rt: &R) -> bool {
    let mut folder = FileFolder::new(rt);
    let Ok(kept) = folder.journal(JOURNAL, true) else {
        return false;
    };
    let second = is_failed(folder.journal(JOURNAL, true));
    let looked = is_kept_back(&mut folder, false);
    folder.kept_back(kept);
    second && looked && is_kept_back(&mut folder, true)
}

/// Whether the journal can be opened; it is closed again.
fn is_kept_back<R: Files<File = File>>(folder: &mut FileFolder<'_, R>, make: bool) -> bool {
    match folder.journal(JOURNAL, make) {
        Ok(kept) => {
            folder.kept_back(kept);
            true
        }
        Err(_) => false,
    }
}

/// Whether a folder can't be read as a file, nor be a journal, and a device without room keeps nothing.
fn is_failing<R: Files<File = File>>(rt: &R) -> bool {
    let mut folder = FileFolder::new(rt);
    let Ok(mut file) = folder.open("/tmp") else {
        return false;
    };
    let unread = file.read(&mut [0; 16]) == Err(Failed);
    folder.file_back(file);
    let unkept = is_failed(folder.journal("/tmp", true));
    let Ok(mut kept) = folder.journal("/dev/full", false) else {
        return false;
    };
    let full = kept.put(0, b"SHEETJ01") == Err(PutFault::Failed) && kept.faults() == 1;
    folder.kept_back(kept);
    unread && unkept && full
}
