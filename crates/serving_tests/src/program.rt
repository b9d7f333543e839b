use cell_value::Items;
use folder::MemoryFolder;
use sheets_http::MemorySink;
use std::alloc::Global;

/// How the program ended: its status, its output and its faults.
#[derive(Drop)]
pub struct Ran {
    /// The status.
    pub status: u8,
    /// What it wrote.
    pub output: MemorySink,
    /// Its lines on faults.
    pub faults: MemorySink,
}

impl Ran {
    /// Whether it ended with that status, that output and that line on its faults.
    pub fn is(&self, status: u8, output: &[u8], faults: &[u8]) -> bool {
        self.status == status
            && self.output.written().as_slice() == output
            && self.faults.written().as_slice() == faults
    }
}

/// The words, or the first of them where memory runs out.
pub fn words_of(alloc: Global, texts: &[&str]) -> Vec<String> {
    let mut words = Vec::new(alloc);
    for text in texts {
        if let Ok(word) = String::from_str(alloc, text) {
            let _ = words.push(word);
        }
    }
    words
}

/// The call of that number, and none for 0.
pub fn calls(alloc: Global, number: u64) -> Items<u64> {
    let mut calls = Vec::new(alloc);
    if number > 0 {
        let _ = calls.push(number);
    }
    Items::of(calls)
}

/// A folder without a file.
pub fn no_files(alloc: Global) -> MemoryFolder {
    MemoryFolder::new(Items::of(Vec::new(alloc)), Items::of(Vec::new(alloc)))
}
