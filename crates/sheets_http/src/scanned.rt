ghost use Rattle.std.specs.Prelude.{take};
ghost use Rattle.sheets_http.specs.Buffering.{IsReady, IsScanned};

use crate::HeadFault;
use crate::scan::{HeadScan, HeadState};
use crate::summary::{HeadError, HeadSummary, read_head};
use cell_value::NoMemory;
use std::alloc::Global;

/// What a stream begins with.
#[derive(Debug, Drop)]
pub(crate) enum Scanned {
    /// A head that was read, which ends there.
    Head(HeadSummary, usize),
    /// A head that is refused.
    Refused(HeadFault),
    /// The beginning of a head.
    Growing,
}

/// Looks on at the first `room` bytes, and reads the head if it is whole.
pub(crate) fn scan_on(
    alloc: Global,
    scan: &mut HeadScan,
    bytes: &[u8],
    room: u64,
) -> Result<Scanned, NoMemory>
    requires { IsReady scan.old bytes.now }
    ensures ready { IsReady scan.new bytes.now }
    ensures scanned { IsScanned (take room bytes.now) result }
{
    let mut on = *scan;
    let end = room.min(bytes.len() as u64) as usize;
    match on.find(bytes, end) {
        HeadState::Growing => {
            *scan = on;
            Ok(Scanned::Growing)
        }
        HeadState::TooLong => Ok(Scanned::Refused(HeadFault::HeadLong)),
        HeadState::Whole => match read_head(alloc, &bytes[on.skipped..on.seen], on.feeds) {
            Ok(summary) => Ok(Scanned::Head(summary, on.seen)),
            Err(HeadError::Fault(fault)) => Ok(Scanned::Refused(fault)),
            Err(HeadError::NoMemory) => Err(NoMemory),
        },
    }
}
