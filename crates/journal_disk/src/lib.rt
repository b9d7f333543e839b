//! A log of pieces of bytes on a disk that may crash at any moment: what was acknowledged stays, and
//! at most one piece more is found behind it.
#![tactic(auto)]

mod calls;
mod disk;
mod fault;
mod gate;
mod loading;
mod log;
mod memory;
mod opening;
mod outages;
mod replay;
mod scan;
mod staging;

pub use calls::Call;
pub use disk::Disk;
pub use fault::LogFault;
pub use log::DiskLog;
pub use memory::MemoryDisk;
