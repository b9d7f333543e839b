ghost use Rattle.std.specs.Prelude.{◌≡◌, ◌++◌};
ghost use Rattle.std.specs.List.{prefix_len};
ghost use Rattle.a1_notation.specs.Run.{IsRun};

use crate::word::begins_word;

/// A class of bytes.
#[derive(Clone, Copy, Debug, PartialEq, Eq)]
pub enum Class {
    /// An ASCII letter.
    Letter,
    /// An ASCII digit.
    Digit,
    /// A byte of a word: an ASCII letter, a digit, `_`, `.` or one of a character past ASCII.
    InWord,
    /// A space, a tab or a line feed.
    Blank,
}

impl Class {
    ghost use Rattle.std.specs.Prelude.{◌≡◌};
    ghost use Rattle.a1_notation.specs.Class.{class_test};

    /// Whether a byte is of the class.
    fn has(self, byte: u8) -> bool
        ensures { result ≡ class_test self byte }
    {
        match self {
            Class::Letter => byte.is_ascii_alphabetic(),
            Class::Digit => byte.is_ascii_digit(),
            Class::InWord => begins_word(byte) || byte.is_ascii_digit() || byte == b'.',
            Class::Blank => byte == b' ' || byte == b'\t' || byte == b'\n',
        }
    }

    /// How many bytes of the class stand at the front.
    fn count(self, bytes: &[u8]) -> usize
        ensures { result ≡ prefix_len (class_test self) bytes.now }
    {
        bytes.iter().take_while(|byte| self.has(**byte)).count()
    }

    /// All the bytes of the class that stand at the front of a text, and the rest behind them.
    pub fn split(self, text: &str) -> (&str, &str)
        ensures whole { text.now ≡ result.0.now ++ result.1.now }
        ensures run { IsRun (class_test self) result.0.now result.1.now }
    {
        text.split_at(self.count(text.as_bytes()))
    }
}
