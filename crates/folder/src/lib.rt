//! Files and journals by their names.
//!
//! A [`Folder`] hands out files, which are read, and journals, whose bytes are kept, and takes them back. A
//! [`MemoryFolder`] has them in memory.
#![tactic(auto)]

mod file;
mod folder;
mod memory;
mod recorded;

pub use file::MemoryFile;
pub use folder::Folder;
pub use memory::MemoryFolder;
