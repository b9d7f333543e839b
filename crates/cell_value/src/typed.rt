ghost use Rattle.std.specs.Prelude.{◌≡◌, true, false, ◌==◌, ◌||◌, drop, IfSome, IfNone};
ghost use Rattle.std.specs.Char.{is_ascii_digit};
ghost use Rattle.std.specs.List.{list_all, list_any, count_by, position};
ghost use Rattle.std.specs.Str.{str_eq_ignore_ascii_case};
ghost use Rattle.std.specs.Str.Parse.{without_leading_sign};
ghost use Rattle.cell_value.specs.Typed.{is_formula, is_marked_text, is_whole, is_decimal, is_scaled, is_mantissa, are_digits, is_exponent_letter};

/// Whether the text is `=` and at least one byte more.
pub(crate) fn is_formula(text: &str) -> bool
    ensures { result ≡ is_formula text.now }
{
    match text.as_bytes() {
        [first, _, ..] => *first == b'=',
        [_] | [] => false,
    }
}

/// The text behind a leading `'`, if one stands there.
pub(crate) fn marked_text(text: &str) -> Option<&str>
    ensures none { IfNone result (is_marked_text text.now ≡ false) }
    ensures some { IfSome result (λ rest. (is_marked_text text.now ≡ true) × (rest.now ≡ drop 1 text.now)) }
{
    text.strip_prefix('\'')
}

/// Whether the text is digits behind an optional sign.
pub fn is_whole(text: &[u8]) -> bool
    ensures { result ≡ is_whole text.now }
{
    are_digits(without_sign(text))
}

/// Whether the text is that word, in any ASCII case.
pub(crate) fn is_word(text: &str, word: &str) -> bool
    ensures { result ≡ str_eq_ignore_ascii_case text.now word.now }
{
    text.eq_ignore_ascii_case(word)
}

/// Whether the text is a number that may have a fraction and an exponent, behind an optional sign.
pub(crate) fn is_decimal(text: &[u8]) -> bool
    ensures { result ≡ is_decimal text.now }
{
    is_scaled(without_sign(text))
}

/// Whether the text is a mantissa, perhaps with an exponent.
fn is_scaled(number: &[u8]) -> bool
    ensures { result ≡ is_scaled number.now }
{
    match exponent_at(number) {
        Some(at) => is_mantissa(&number[..at]) && is_whole(&number[at + 1..]),
        None => is_mantissa(number),
    }
}

/// Where an exponent begins, if one does.
fn exponent_at(number: &[u8]) -> Option<usize>
    ensures { result ≡ position is_exponent_letter number.now }
{
    number
        .iter()
        .position(|byte| *byte == b'e' || *byte == b'E')
}

/// Whether the text is at least one digit, with at most one `.` among them.
fn is_mantissa(text: &[u8]) -> bool
    ensures { result ≡ is_mantissa text.now }
{
    has_digit(text) && has_digits_and_points(text) && points(text) <= 1
}

/// Whether the text is one digit or more, and nothing else.
pub fn are_digits(text: &[u8]) -> bool
    ensures { result ≡ are_digits text.now }
{
    text.len() > 0 && has_digits_alone(text)
}

fn has_digits_alone(text: &[u8]) -> bool
    ensures { result ≡ list_all is_ascii_digit text.now }
{
    text.iter().all(|byte| byte.is_ascii_digit())
}

fn has_digit(text: &[u8]) -> bool
    ensures { result ≡ list_any is_ascii_digit text.now }
{
    text.iter().any(|byte| byte.is_ascii_digit())
}

fn has_digits_and_points(text: &[u8]) -> bool
    ensures { result ≡ list_all (λ c. is_ascii_digit c || c == 46) text.now }
{
    text.iter()
        .all(|byte| byte.is_ascii_digit() || *byte == b'.')
}

fn points(text: &[u8]) -> usize
    ensures { result ≡ count_by (λ c. c == 46) text.now }
{
    text.iter().filter(|byte| **byte == b'.').count()
}

/// What stands behind an optional sign.
fn without_sign(text: &[u8]) -> &[u8]
    ensures { result.now ≡ without_leading_sign text.now }
{
    match text {
        [first, rest @ ..] => if *first == b'+' || *first == b'-' {
            rest
        } else {
            text
        },
        [] => text,
    }
}
