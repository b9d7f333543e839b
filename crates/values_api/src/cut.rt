ghost use Rattle.std.specs.Prelude.{◌≡◌, ◌-◌, length};
ghost use Rattle.std.specs.List.{suffix_len};
ghost use Rattle.values_api.specs.Shown.{without_empty_end, shows_nothing, has_no_cells};

use cell_value::{Cell, Items};

/// What may show nothing.
pub(crate) trait MayBeEmpty {
    ghost use Rattle.std.specs.Prelude.{Bool, ◌≡◌};

    /// Whether it shows nothing.
    ghost empty: { Self → Bool };

    /// Whether it shows nothing.
    fn is_empty(&self) -> bool
        ensures { result ≡ empty self.now };
}

/// A cell that shows an empty text.
impl MayBeEmpty for Cell {
    ghost empty = { shows_nothing };

    fn is_empty(&self) -> bool {
        match self {
            Cell::Text(text) => text.as_str().is_empty(),
            Cell::Number(_) | Cell::Truth(_) => false,
        }
    }
}

/// A line without cells.
impl MayBeEmpty for Items<Cell> {
    ghost empty = { has_no_cells };

    fn is_empty(&self) -> bool {
        self.as_slice().is_empty()
    }
}

/// Cuts the empty things at the end.
pub(crate) fn cut_empty_end<T: Drop + MayBeEmpty>(things: &mut Vec<T>)
    ensures { things.new.items ≡ without_empty_end T.empty things.old.items }
{
    let kept = kept(things.as_slice());
    things.truncate(kept);
}

/// How many things there are without the empty ones at the end.
fn kept<T: MayBeEmpty>(things: &[T]) -> usize
    ensures { result ≡ length things.now - suffix_len T.empty things.now }
{
    let mut kept = things.len();
    while kept > 0 && things[kept - 1].is_empty() {
        kept -= 1;
    }
    kept
}
