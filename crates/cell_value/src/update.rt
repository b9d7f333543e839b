ghost use Rattle.std.specs.Prelude.{◌≡◌, All, map};
ghost use Rattle.std.specs.List.{AllZip};

/// An item that changes of one kind make another one in its place.
pub trait Update<C> {
    /// What a change needs of an item.
    ghost can_update: { C → Self → Type 0 };

    /// What becomes of an item.
    ghost becomes: { C → Self → Self };

    /// What an item has to do with what has become of it.
    ghost is_updated: { C → Self → Self → Type 0 };

    /// What holds of an item that is changed.
    ghost has_updated: { C → Self → Type 0 };

    /// Changes the item.
    fn update(&mut self, change: &C)
        requires { can_update change.now self.old }
        ensures value { self.new ≡ becomes change.now self.old }
        ensures is_updated { is_updated change.now self.old self.new }
        ensures has_updated { has_updated change.now self.new };
}

/// Changes each item in its place.
pub(crate) fn update_all<C, T: Update<C>>(items: &mut Vec<T>, change: &C)
    requires { All (T.can_update change.now) items.old.items }
    ensures updated { items.new.items ≡ map (T.becomes change.now) items.old.items }
    ensures is_updated { AllZip (T.is_updated change.now) items.old.items items.new.items }
    ensures has_updated { All (T.has_updated change.now) items.new.items }
{
    for item in items.iter_mut() {
        item.update(change);
    }
}
