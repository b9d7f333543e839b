ghost use Rattle.std.specs.Prelude.{◌≡◌, [], ◌∷◌, ◌++◌};

use std::marker::Model;
use std::snapshot::Snapshot;

/// The items that were put in, in order. Contracts alone see them, and they take no bytes.
#[derive(Drop)]
pub(crate) struct Recorded<T> {
    last: Snapshot<Option<(T, Snapshot<Recorded<T>>)>>,
}

impl<T> Model for Recorded<T> {
    ghost use Rattle.std.specs.Prelude.{List, length};
    ghost use Rattle.folder.specs.Recorded.{recorded_items};

    ghost Value = { List T };

    ghost view = { λ seen. recorded_items seen.last.value };

    ghost size = { length };
}

impl<T: Drop> Recorded<T> {
    /// None yet.
    pub(crate) fn new() -> Recorded<T>
        ensures { result ≡ [] }
    {
        Recorded {
            last: Snapshot::of(&None),
        }
    }

    /// Puts one behind them.
    pub(crate) fn push(&mut self, item: T)
        ensures { self.new ≡ self.old ++ item ∷ [] }
    {
        self.last = Snapshot::of(&Some((item, Snapshot::of(&*self))));
    }
}

/// The bytes of a text.
pub(crate) fn recorded_text(text: &str) -> Recorded<u8>
    ensures { result ≡ text.now }
{
    let mut seen = Recorded::new();
    for byte in text.as_bytes() {
        seen.push(*byte);
    }
    seen
}
