ghost use Rattle.std.specs.Prelude.{◌≡◌, IfOk};
ghost use Rattle.basic_filter.specs.Texts.{lower_case};
ghost use Rattle.row_filter.specs.Conditions.{condition_ready, ready_holds};

use basic_filter::Condition;
use cell_value::{NoMemory, Text};
use memchr::memmem::Finder;
use std::alloc::Global;

/// A condition that looks for a text in the shown one. Its text is in lower case.
#[derive(Drop)]
pub(crate) enum ReadyCondition {
    /// `TEXT_CONTAINS`.
    Contains(Finder<'static>),
    /// `TEXT_NOT_CONTAINS`.
    NotContains(Finder<'static>),
    /// `TEXT_STARTS_WITH`.
    StartsWith(Text),
    /// `TEXT_ENDS_WITH`.
    EndsWith(Text),
}

impl ReadyCondition {
    /// The condition made ready; `None` for one that looks for no text in the shown one.
    ///
    /// # Errors
    ///
    /// [`NoMemory`] where memory runs out.
    pub(crate) fn of(
        alloc: Global,
        condition: &Condition,
    ) -> Result<Option<ReadyCondition>, NoMemory>
        ensures { IfOk result (λ ready. ready ≡ condition_ready condition.now) }
    {
        Ok(Some(match condition {
            Condition::TextContains(part) => ReadyCondition::Contains(finder_of(alloc, part)?),
            Condition::TextNotContains(part) => {
                ReadyCondition::NotContains(finder_of(alloc, part)?)
            }
            Condition::TextStartsWith(start) => {
                ReadyCondition::StartsWith(lower_case(alloc, start.as_str())?)
            }
            Condition::TextEndsWith(end) => {
                ReadyCondition::EndsWith(lower_case(alloc, end.as_str())?)
            }
            _ => return Ok(None),
        }))
    }

    /// Whether the condition is true of a cell that shows the text.
    ///
    /// # Errors
    ///
    /// [`NoMemory`] where memory runs out.
    #[tactic(auto, using(crate::proofs::Found::found_is, std::proofs::lemmas::Str::Pattern::starts_text, std::proofs::lemmas::Str::Pattern::ends_text))]
    pub(crate) fn holds(&self, alloc: Global, shown: &str) -> Result<bool, NoMemory>
        ensures { IfOk result (λ held. held ≡ ready_holds self.now shown.now) }
    {
        let shown = lower_case(alloc, shown)?;
        let shown = shown.as_str();
        Ok(match self {
            ReadyCondition::Contains(part) => part.find(shown.as_bytes()).is_some(),
            ReadyCondition::NotContains(part) => part.find(shown.as_bytes()).is_none(),
            ReadyCondition::StartsWith(start) => shown.starts_with(start.as_str()),
            ReadyCondition::EndsWith(end) => shown.ends_with(end.as_str()),
        })
    }
}

/// The text with small letters in place of A to Z.
fn lower_case(alloc: Global, text: &str) -> Result<Text, NoMemory>
    ensures { IfOk result (λ lower. lower ≡ lower_case text.now) }
{
    Ok(Text::of(text.to_ascii_lowercase(alloc)?))
}

/// A search for the text in lower case.
fn finder_of(alloc: Global, part: &Text) -> Result<Finder<'static>, NoMemory>
    ensures { IfOk result (λ finder. finder ≡ lower_case part.now) }
{
    let part = lower_case(alloc, part.as_str())?;
    Ok(Finder::new(part.as_str().as_bytes()).into_owned(alloc)?)
}
