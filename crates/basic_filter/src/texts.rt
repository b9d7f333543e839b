ghost use Rattle.std.specs.Prelude.{◌≡◌, IfOk, nat_eq};
ghost use Rattle.std.specs.List.{starts_with, ends_with};
ghost use Rattle.basic_filter.specs.Texts.{lower_case, contains};

use cell_value::NoMemory;
use std::alloc::Global;

/// Whether the text contains the part, ignoring ASCII case.
#[tactic(auto, using(crate::proofs::Parts::contains_is))]
pub(crate) fn contains(alloc: Global, text: &str, part: &str) -> Result<bool, NoMemory>
    ensures { IfOk result (λ found.
        found ≡ contains (lower_case text.now) (lower_case part.now)) }
{
    let text = text.to_ascii_lowercase(alloc)?;
    let part = part.to_ascii_lowercase(alloc)?;
    Ok(text.contains(part.as_str()))
}

/// Whether the text starts with that one, ignoring ASCII case.
#[tactic(auto, using(std::proofs::lemmas::Str::Pattern::starts_text))]
pub(crate) fn starts_with(alloc: Global, text: &str, start: &str) -> Result<bool, NoMemory>
    ensures { IfOk result (λ found.
        found ≡ starts_with nat_eq (lower_case text.now) (lower_case start.now)) }
{
    let text = text.to_ascii_lowercase(alloc)?;
    let start = start.to_ascii_lowercase(alloc)?;
    Ok(text.starts_with(start.as_str()))
}

/// Whether the text ends with that one, ignoring ASCII case.
#[tactic(auto, using(std::proofs::lemmas::Str::Pattern::ends_text))]
pub(crate) fn ends_with(alloc: Global, text: &str, end: &str) -> Result<bool, NoMemory>
    ensures { IfOk result (λ found.
        found ≡ ends_with nat_eq (lower_case text.now) (lower_case end.now)) }
{
    let text = text.to_ascii_lowercase(alloc)?;
    let end = end.to_ascii_lowercase(alloc)?;
    Ok(text.ends_with(end.as_str()))
}
