ghost use Rattle.std.specs.Prelude.{◌≡◌, ◌↔◌, ℕ, Some, IsTrue};
ghost use Rattle.command_line.specs.Words.{BeginsPositive, IsNumber};

/// The number from 1 to `most` that a text is in digits without a leading zero.
pub fn read_number(text: &str, most: u32) -> Option<u32>
    ensures { (number : ℕ) → (result ≡ Some number) ↔ IsNumber most text.now number }
{
    if !begins_positive(text) {
        return None;
    }
    let number = text.parse::<u32>().ok()?;
    if number > most {
        return None;
    }
    Some(number)
}

/// Whether a text begins with a digit from 1 to 9.
fn begins_positive(text: &str) -> bool
    ensures { IsTrue result ↔ BeginsPositive text.now }
{
    matches!(text.as_bytes(), [b'1'..=b'9', ..])
}
