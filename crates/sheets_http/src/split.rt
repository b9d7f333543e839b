ghost use Rattle.std.specs.Prelude.{◌≡◌, ◌<◌, ◌==◌, length, MatchOption};
ghost use Rattle.std.specs.List.{position_or_len, before_first, after_first};

use memchr::memchr;

/// What stands before the first `mark` of a text, and what stands behind it, where it has one.
pub(crate) fn split_once(text: &str, mark: u8) -> Option<(&str, &str)>
    requires ascii { mark < 128 }
    ensures { MatchOption result (position_or_len (λ b. b == mark) text.now ≡ length text.now)
        (λ parts. (parts.0.now ≡ before_first (λ b. b == mark) text.now)
        × (parts.1.now ≡ after_first (λ b. b == mark) text.now)
        × (position_or_len (λ b. b == mark) text.now < length text.now)) }
{
    match memchr(mark, text.as_bytes()) {
        Some(at) => Some((&text[..at], &text[at + 1..])),
        None => None,
    }
}

/// The same: all and nothing where it has none.
pub(crate) fn split_first(text: &str, mark: u8) -> (&str, &str)
    requires ascii { mark < 128 }
    ensures before { result.0.now ≡ before_first (λ b. b == mark) text.now }
    ensures behind { result.1.now ≡ after_first (λ b. b == mark) text.now }
{
    match split_once(text, mark) {
        Some((before, behind)) => (before, behind),
        None => (text, ""),
    }
}
