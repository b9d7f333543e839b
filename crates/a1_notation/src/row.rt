ghost use Rattle.std.specs.Prelude.{ℕ, ◌↔◌, ◌≤◌, IfSome, IfNone, IsTrue, slice_index};
ghost use Rattle.a1_notation.specs.Area.{IsRow};

/// The number of rows that have a number: at most seven digits.
pub const NUMBERED_ROWS: u32 = 9_999_999;

/// The longest number of a row.
const DIGITS: usize = 7;

/// The row that a number from 1 to 9,999,999 names, counted from 0; None where the text isn't one to
/// seven ASCII digits, or begins with `0`.
pub fn read_row(text: &str) -> Option<u32>
    ensures row { IfSome result (IsRow text.now) }
    ensures none { IfNone result ((row : ℕ) → ¬ (IsRow text.now row)) }
{
    if text.len() > DIGITS || !begins_positive(text) {
        return None;
    }
    let number = text.parse::<u32>().ok()?;
    Some(number - 1)
}

/// Whether a text begins with a digit from 1 to 9.
fn begins_positive(text: &str) -> bool
    ensures { IsTrue result ↔ ((49 ≤ slice_index text.now 0) × (slice_index text.now 0 ≤ 57)) }
{
    matches!(text.as_bytes(), [b'1'..=b'9', ..])
}
