ghost use Rattle.std.specs.Prelude.{◌≡◌, ◌≢◌, ◌≤◌, IsTrue, MatchResult};
ghost use Rattle.cell_value.specs.FaultCount.{Rose, StaysSteady};
ghost use Rattle.sheets_http.specs.Outside.{TakesAll, TakesSome};

use crate::{Sink, SinkFault};

/// Writes all of the bytes, in as many writes as the sink needs.
///
/// # Errors
///
/// [`SinkFault::Failed`] only where the sink's count of faults rose in this call, and
/// [`SinkFault::NoMemory`] only where its count of shortages rose: the first bytes, or none, were
/// written then.
pub fn send_all<S: Sink>(sink: &mut S, bytes: &[u8]) -> Result<(), SinkFault>
    ensures sent { MatchResult result (λ _. TakesAll (S.written sink.old) (S.written sink.new) bytes.now)
        (λ _. TakesSome (S.written sink.old) (S.written sink.new) bytes.now) }
    ensures cause { result ≡ Err SinkFault.Failed → Rose (S.sink_faults sink.old) (S.sink_faults sink.new) }
    ensures unfailing { IsTrue (S.sink_steady sink.old) → result ≢ Err SinkFault.Failed }
    ensures later { S.sink_faults sink.old ≤ S.sink_faults sink.new }
    ensures short { result ≡ Err SinkFault.NoMemory → Rose (S.sink_shortages sink.old) (S.sink_shortages sink.new) }
    ensures short_later { S.sink_shortages sink.old ≤ S.sink_shortages sink.new }
    ensures steady { StaysSteady (S.sink_steady sink.old) (S.sink_steady sink.new) (S.sink_faults sink.old)
        (S.sink_faults sink.new) }
    ensures beside { S.sink_beside sink.new ≡ S.sink_beside sink.old }
{
    let mut sent = 0;
    while sent < bytes.len() {
        match sink.write(&bytes[sent..]) {
            Ok(0) => return Err(SinkFault::Failed),
            Ok(count) => sent += count,
            Err(fault) => return Err(fault),
        }
    }
    Ok(())
}
