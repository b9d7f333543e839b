ghost use Rattle.std.specs.Prelude.{◌≡◌, ℕ, ◌≤◌, ◌<◌, Bool, Option, IfOk, IfSome, IsTrue, OnErr};
ghost use Rattle.std.specs.Option.{option_map};
ghost use Rattle.cell_value.specs.FaultCount.{last_count, Rose, StaysSteady};

use cell_value::Failed;
use conversation::Ended;
use sheets_http::Duplex;

/// Where connections come in: a listener of the system's, or links in memory.
///
/// Doors count how often they have failed. Those that tell show contracts the ports on which they were opened, how
/// often they were asked for a connection, and of each connection that they accepted what its link told then and, once
/// it is back, how it ended and what its link told at the end.
pub trait Doors {
    ghost use Rattle.connections.specs.Doors.{LinkSeen, Shown, link_seen, IsFresh, IsAway};
    ghost use Rattle.connections.specs.Doors.{after_open, after_accept, after_refusal, after_back};

    /// What is read from and written to a connection. From `accept` to `close` its own calls alone change what it
    /// tells, each as [`Duplex`] says. A link of the system's tells its counts alone: that it gives and takes the bytes
    /// of one connection is trusted.
    type Link: Duplex + Send + Drop;

    /// What is left of a link that is closed.
    type Rest: Send + Drop;

    /// How often the doors have failed.
    ghost failures: { Self → ℕ };

    /// Whether the doors never fail.
    ghost steady: { Self → Bool };

    /// What the doors show, where they tell it.
    ghost shown: { Self → Option Shown };

    /// What a link told that is closed.
    ghost rest_seen: { Self.Rest → LinkSeen };

    /// Opens the doors on a port. The call is shown, whether it fails or not. It has no answer of its own for want of
    /// memory: doors that find none have failed.
    ///
    /// # Errors
    ///
    /// [`Failed`] only where the count of faults rose in this call.
    fn open(&mut self, port: u16) -> Result<(), Failed>
        ensures opened { shown self.new ≡ option_map (after_open port) (shown self.old) }
        ensures cause { OnErr result (Rose (failures self.old) (failures self.new)) }
        ensures later { failures self.old ≤ failures self.new }
        ensures steady { StaysSteady (steady self.old) (steady self.new) (failures self.old) (failures self.new) };

    /// Waits for the next connection. Its link has not failed yet, and nothing was written to it.
    ///
    /// # Errors
    ///
    /// [`Failed`] only where the count of faults rose in this call; no connection was accepted then.
    fn accept(&mut self) -> Result<Self::Link, Failed>
        ensures fresh { IfOk result
            (λ link. IsFresh (link_seen Self.Link.left Self.Link.written Self.Link.faults Self.Link.sink_faults
            Self.Link.sink_shortages Self.Link.steady Self.Link.sink_steady Self.Link.references link)) }
        ensures accepted { IfOk result (λ link. shown self.new ≡ option_map (after_accept (link_seen Self.Link.left
            Self.Link.written Self.Link.faults Self.Link.sink_faults Self.Link.sink_shortages Self.Link.steady
            Self.Link.sink_steady Self.Link.references link)) (shown self.old)) }
        ensures refused { OnErr result (shown self.new ≡ option_map after_refusal (shown self.old)) }
        ensures cause { OnErr result (Rose (failures self.old) (failures self.new)) }
        ensures later { failures self.old ≤ failures self.new }
        ensures steady { StaysSteady (steady self.old) (steady self.new) (failures self.old) (failures self.new) };

    /// Ends a link. It takes no memory.
    fn close(link: Self::Link) -> Self::Rest
        ensures { rest_seen result ≡ link_seen Self.Link.left Self.Link.written Self.Link.faults Self.Link.sink_faults
            Self.Link.sink_shortages Self.Link.steady Self.Link.sink_steady Self.Link.references link };

    /// Takes note of how the connection of that number ended, counted from 0 in the order in which they were accepted,
    /// which isn't back yet. It takes no memory.
    fn back(&mut self, number: u32, ended: Ended, rest: Self::Rest)
        requires { IfSome (shown self.old) (λ shown. IsAway number shown.connections) }
        ensures shown { shown self.new
            ≡ option_map (after_back number record { ended = ended; link = rest_seen rest }) (shown self.old) }
        ensures failures { failures self.new ≡ failures self.old }
        ensures steady { steady self.new ≡ steady self.old };

    /// The count of steady doors isn't at its last value, where it would count as risen.
    ghost steady_low: { (doors : Self) → IsTrue (steady doors) → failures doors < last_count };
}
