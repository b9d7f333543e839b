ghost use Rattle.desk.specs.Journal.{HasOneReading};
ghost use Rattle.desk.specs.Histories.{HasOneHistory, IsNowhereBad};
ghost use Rattle.desk.specs.Reopening.{CanReopen};
ghost use Rattle.desk.specs.Steps.{StepsOnce};

use crate::Engine;

/// A list of bytes has at most one reading as whole entries and a torn rest. It does nothing when it runs.
pub fn one_reading()
    ensures { HasOneReading }
{}

/// Bytes are the journal of one history at most, and what is one is bad nowhere. It does nothing when it runs.
pub fn one_history<E: Engine>()
    ensures one { HasOneHistory E.plain }
    ensures good { IsNowhereBad E.plain }
{}

/// What a desk keeps of its list can be opened again with the same limit: it isn't too long, and is bad nowhere. What
/// is opened with it is the history of the list, or that and one entry more, whose call was answered 503 behind the
/// last accepted one. So it is of what [`crate::Desk::close`] leaves. It does nothing when it runs.
pub fn opens_again<E: Engine>()
    ensures { CanReopen E.plain }
{}

/// An ask has one outcome behind a history whose journal has a limit. It does nothing when it runs.
pub fn one_step<E: Engine>()
    ensures { StepsOnce E.plain }
{
    E::one_outcome();
}
