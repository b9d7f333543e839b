ghost use Rattle.std.specs.Prelude.{◌≡◌, [], ◌∷◌, ◌++◌};

use std::marker::Model;
use std::snapshot::Snapshot;

/// The ports on which doors were opened, in order. Contracts alone see them, and they take no bytes.
#[derive(Drop)]
pub(crate) struct Ports {
    last: Snapshot<Option<(u16, Snapshot<Ports>)>>,
}

impl Model for Ports {
    ghost use Rattle.std.specs.Prelude.{ℕ, List, length};
    ghost use Rattle.connections.specs.Ports.{ports_of};

    ghost Value = { List ℕ };

    ghost view = { λ ports. ports_of ports.last.value };

    ghost size = { length };
}

impl Ports {
    /// None yet.
    pub(crate) fn new() -> Ports
        ensures { result ≡ [] }
    {
        Ports {
            last: Snapshot::of(&None),
        }
    }

    /// Puts one behind them.
    pub(crate) fn push(&mut self, port: u16)
        ensures { self.new ≡ self.old ++ port ∷ [] }
    {
        self.last = Snapshot::of(&Some((port, Snapshot::of(&*self))));
    }
}
