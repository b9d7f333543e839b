ghost use Rattle.std.specs.Prelude.{◌≡◌, ℕ, ◌<◌, ◌-◌, length, None, IsTrue, OnOk};
ghost use Rattle.shared_map.specs.Places.{place_at};
ghost use Rattle.shared_map.specs.Finding.{FindsSame};

use cell_value::NoMemory;

/// Puts empty places behind the last until there is one at the index.
pub(crate) fn reach<P: Drop>(places: &mut Vec<Option<P>>, index: u64) -> Result<(), NoMemory>
    ensures long { OnOk result (index < length places.new.items) }
    ensures same { FindsSame (place_at places.old.items) (place_at places.new.items) }
{
    while places.len() as u64 <= index {
        places.push(None)?;
    }
    Ok(())
}

/// Takes away the empty places behind the last that is filled.
pub(crate) fn trim<P: Drop>(places: &mut Vec<Option<P>>)
    ensures { FindsSame (place_at places.old.items) (place_at places.new.items) }
{
    while ends_empty(places) {
        places.pop();
    }
}

/// Whether there is a place, and the last is empty.
fn ends_empty<P>(places: &[Option<P>]) -> bool
    ensures { IsTrue result → (0 < length places.now) × (place_at places.now (length places.now - 1) ≡ None) }
{
    match places.last() {
        Some(place) => place.is_none(),
        None => false,
    }
}
