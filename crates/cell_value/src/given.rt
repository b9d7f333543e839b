ghost use Rattle.std.specs.Prelude.{◌≡◌, unwrap_or};

/// Puts what is given into the place, if it is.
pub fn put_given<T: Drop>(place: &mut T, given: Option<T>)
    ensures { place.new ≡ unwrap_or given place.old }
{
    if let Some(given) = given {
        *place = given;
    }
}
