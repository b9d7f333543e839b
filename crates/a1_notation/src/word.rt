ghost use Rattle.std.specs.Prelude.{◌≡◌, ◌++◌, false, IfSome, IfNone};
ghost use Rattle.a1_notation.specs.Run.{begins};
ghost use Rattle.a1_notation.specs.Word.{IsWord, begins_word};

use crate::class::Class;

/// The word at the front of a text, and the rest behind it: all the ASCII letters, digits, `_`, `.` and
/// characters past ASCII that stand there, where the first is no digit and no `.`; None where none stands
/// there.
pub fn split_word(text: &str) -> Option<(&str, &str)>
    ensures whole { IfSome result (λ split. text.now ≡ split.0.now ++ split.1.now) }
    ensures word { IfSome result (λ split. IsWord split.0.now split.1.now) }
    ensures none { IfNone result (begins begins_word text.now ≡ false) }
{
    match text.as_bytes() {
        [first, ..] if begins_word(*first) => Some(Class::InWord.split(text)),
        _ => None,
    }
}

/// Whether a word can begin with a byte: an ASCII letter, `_` or one of a character past ASCII.
pub(crate) fn begins_word(byte: u8) -> bool
    ensures { result ≡ begins_word byte }
{
    byte.is_ascii_alphabetic() || byte == b'_' || !byte.is_ascii()
}
