use crate::checks::{bytes_of, check, text_of};
use cell_value::{Bytes, Failed, Items};
use desk::{Keeper, LoadFault};
use folder::{Folder, MemoryFile, MemoryFolder};
use sheets_http::Source;
use std::alloc::Global;

/// A folder with the file `users`, whose bytes are `token`, and the file `log`, whose bytes are `abc` and which fails.
fn folder(alloc: Global) -> MemoryFolder {
    let mut files = Vec::new(alloc);
    let _ = files.push((text_of(alloc, "users"), bytes_of(alloc, b"token")));
    let _ = files.push((text_of(alloc, "log"), bytes_of(alloc, b"abc")));
    let mut failing = Vec::new(alloc);
    let _ = failing.push(text_of(alloc, "log"));
    MemoryFolder::new(Items::of(files), Items::of(failing))
}

#[test]
fn a_folder_in_memory_has_files_and_journals(rt: HostRuntime) {
    let mut folder = folder(rt.alloc());
    check(&rt, &"missing", is_missing(&mut folder));
    check(&rt, &"read", is_read(&mut folder) && is_read(&mut folder));
    check(&rt, &"failing read", fails_once(&mut folder));
    check(
        &rt,
        &"kept",
        keeps(&mut folder, b"first") && keeps(&mut folder, b"next"),
    );
    check(
        &rt,
        &"untouched",
        folder.bytes_of("users") == Some(b"token"),
    );
}

#[test]
fn the_loads_of_a_named_journal_fail(rt: HostRuntime) {
    let mut folder = folder(rt.alloc());
    check(&rt, &"load", is_unloaded(rt.alloc(), &mut folder));
    check(&rt, &"untouched", folder.bytes_of("log") == Some(b"abc"));
}

/// Whether a name that isn't there is a fault, and isn't made.
fn is_missing(folder: &mut MemoryFolder) -> bool {
    let unread = matches!(folder.open("none"), Err(LoadFault::Failed));
    let unkept = matches!(folder.journal("none", false), Err(LoadFault::Failed));
    unread && unkept && folder.bytes_of("none").is_none()
}

/// Whether the file of users is read from its first byte on, to its end.
fn is_read(folder: &mut MemoryFolder) -> bool {
    match folder.open("users") {
        Ok(mut file) => {
            let read = gives(&mut file, b"token") && gives(&mut file, b"");
            folder.file_back(file);
            read
        }
        Err(_) => false,
    }
}

/// Whether the first read of the failing file fails, is counted, and loses nothing.
fn fails_once(folder: &mut MemoryFolder) -> bool {
    match folder.open("log") {
        Ok(mut file) => {
            let before = file.faults() == 0;
            let failed = file.read(&mut [0; 8]) == Err(Failed) && file.faults() == 1;
            let read = gives(&mut file, b"abc");
            folder.file_back(file);
            before && failed && read
        }
        Err(_) => false,
    }
}

/// Whether a load of the failing journal fails, and is counted.
fn is_unloaded(alloc: Global, folder: &mut MemoryFolder) -> bool {
    match folder.journal("log", false) {
        Ok(mut kept) => {
            let mut bytes = Bytes::of(Vec::new(alloc));
            let failed = kept.load(8, &mut bytes) == Err(LoadFault::Failed) && kept.faults() == 1;
            folder.kept_back(kept);
            failed
        }
        Err(_) => false,
    }
}

/// Whether a journal, which is made where it is missing, keeps the piece that is put at its beginning.
fn keeps(folder: &mut MemoryFolder, piece: &[u8]) -> bool {
    match folder.journal("new", true) {
        Ok(mut kept) => {
            let put = kept.put(0, piece).is_ok();
            folder.kept_back(kept);
            put && folder.bytes_of("new") == Some(piece)
        }
        Err(_) => false,
    }
}

/// Whether a read gives just these bytes.
fn gives(file: &mut MemoryFile, bytes: &[u8]) -> bool {
    let mut buffer = [0; 8];
    match file.read(&mut buffer) {
        Ok(count) => buffer.get(..count) == Some(bytes),
        Err(Failed) => false,
    }
}
