ghost use Rattle.std.specs.Prelude.{◌≡◌};
ghost use Rattle.cell_value.specs.Texts.{is_among};

use crate::Text;

/// Whether the text is one of these, byte by byte.
pub fn is_among(text: &str, texts: &[Text]) -> bool
    ensures { result ≡ is_among text.now texts.now }
{
    texts.iter().any(|other| other.as_str() == text)
}
