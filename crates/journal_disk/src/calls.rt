/// A call of a disk in memory, as the disk recorded it.
#[derive(Clone, Copy, Debug, PartialEq, Eq)]
pub enum Call {
    /// It asked for the size.
    Size {
        failed: bool,
    },
    /// It read.
    Read {
        failed: bool,
    },
    /// It wrote `count` bytes from place `at` on. Among all bytes that were written they stand from
    /// place `from` on.
    Write {
        at: u64,
        from: u64,
        count: u64,
        failed: bool,
    },
    /// It settled what was written.
    Sync {
        failed: bool,
    },
}
