ghost use Rattle.std.specs.Prelude.{◌↔◌, All, IsTrue, string_bytes};
ghost use Rattle.command_line.specs.Words.{IsOption, IsPlain, IsValue};

/// Whether each of the words can stand in a command.
pub fn are_plain(words: &[String]) -> bool
    ensures { IsTrue result ↔ All (λ word. IsPlain (string_bytes word)) words.now }
{
    words.iter().all(|word| is_plain(word.as_str()))
}

/// Whether a word can stand in a command: as a value, or as an option's name, with its value or without.
fn is_plain(word: &str) -> bool
    ensures { IsTrue result ↔ IsPlain word.now }
{
    match word.strip_prefix("--") {
        Some(option) => is_option(option),
        None => is_value(word),
    }
}

/// Whether a text is an option's name, or its name, `=` and a value.
fn is_option(text: &str) -> bool
    ensures { IsTrue result ↔ IsOption text.now }
{
    match text.split_once('=') {
        Some((_, value)) => is_value(value),
        None => !text.is_empty(),
    }
}

/// Whether a text can be an option's value: it isn't empty and doesn't begin with `-`.
fn is_value(text: &str) -> bool
    ensures { IsTrue result ↔ IsValue text.now }
{
    matches!(text.as_bytes(), [first, ..] if *first != b'-')
}
