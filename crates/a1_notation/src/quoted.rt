ghost use Rattle.std.specs.Prelude.{◌≡◌, ℕ, ◌<◌, List, IfOk, IfSome, IfNone, string_bytes};
ghost use Rattle.a1_notation.specs.Quoted.{IsUpToQuote};

use cell_value::NoMemory;
use std::alloc::Global;

/// What stands behind an opening quote up to the closing one, with each doubled quote taken as one, and
/// the rest behind the closing one; None where there is no closing quote.
///
/// # Errors
///
/// [`NoMemory`] where memory runs out.
pub fn read_quoted(
    alloc: Global,
    inside: &str,
    quote: char,
) -> Result<Option<(String, &str)>, NoMemory>
    requires some { 0 < quote }
    requires ascii { quote < 128 }
    ensures read { IfOk result (λ answer. IfSome answer (λ read.
        IsUpToQuote quote inside.now (string_bytes read.0) read.1.now)) }
    ensures one { IfOk result (λ answer. IfSome answer (λ read. (content rest : List ℕ) →
        IsUpToQuote quote inside.now content rest → (content ≡ string_bytes read.0) × (rest ≡ read.1.now))) }
    ensures none { IfOk result (λ answer. IfNone answer ((content rest : List ℕ) →
        ¬ (IsUpToQuote quote inside.now content rest))) }
{
    let mut content = String::new(alloc);
    let mut rest = inside;
    while let Some((plain, behind)) = rest.split_once(quote) {
        content.push_str(plain)?;
        match behind.strip_prefix(quote) {
            None => return Ok(Some((content, behind))),
            Some(more) => {
                content.push(quote)?;
                rest = more;
            }
        }
    }
    Ok(None)
}
