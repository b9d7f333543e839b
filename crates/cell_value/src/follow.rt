ghost use Rattle.std.specs.Prelude.{◌≡◌, All, Option, None, Some};
ghost use Rattle.std.specs.Bool.{OnTrue, OnFalse};
ghost use Rattle.std.specs.List.{filter_map};

/// An item that follows changes of one kind, and may be lost by them.
pub trait Follow<C> {
    /// What a change needs of an item.
    ghost can_follow: { C → Self → Type 0 };

    /// What becomes of an item, None where it is lost.
    ghost becomes: { C → Self → Option Self };

    /// What holds of an item that has followed.
    ghost has_followed: { C → Self → Type 0 };

    /// Has the item follow the change; false where it is lost.
    fn follow(&mut self, change: &C) -> bool
        requires { can_follow change.now self.old }
        ensures kept { OnTrue result (becomes change.now self.old ≡ Some self.new) }
        ensures lost { OnFalse result (becomes change.now self.old ≡ None) }
        ensures has_followed { OnTrue result (has_followed change.now self.new) };
}

/// Has each item follow the change, and drops those that are lost.
pub(crate) fn follow_all<C, T: Follow<C> + Drop>(items: &mut Vec<T>, change: &C)
    requires { All (T.can_follow change.now) items.old.items }
    ensures followed { items.new.items ≡ filter_map (T.becomes change.now) items.old.items }
    ensures has_followed { All (T.has_followed change.now) items.new.items }
{
    let mut kept = 0;
    for at in 0..items.len() {
        if items[at].follow(change) {
            items.swap(kept, at);
            kept += 1;
        }
    }
    items.truncate(kept);
}
