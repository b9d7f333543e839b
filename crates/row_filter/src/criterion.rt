ghost use Rattle.std.specs.Prelude.{◌≡◌, IfOk};
ghost use Rattle.row_filter.specs.Criteria.{IsReady, IsSetOf, criterion_left, ready_hides};

use crate::condition::ReadyCondition;
use basic_filter::Criterion;
use cell_value::{Duplicate, Items, NoMemory, Text};
use std::alloc::Global;
use std::collections::BTreeSet;

/// What a criterion asks of the shown text: whether that is a hidden value, which is found without going over
/// the others, and whether it passes a condition that looks for a text in it.
#[derive(Drop)]
pub(crate) struct ReadyCriterion<'a> {
    hidden: BTreeSet<&'a str>,
    condition: Option<ReadyCondition>,
}

impl<'a> ReadyCriterion<'a> {
    /// The criterion, made ready.
    ///
    /// # Errors
    ///
    /// [`NoMemory`] where memory runs out.
    pub(crate) fn of(
        alloc: Global,
        criterion: &'a Criterion,
    ) -> Result<ReadyCriterion<'a>, NoMemory>
        ensures { IfOk result (IsReady criterion.now) }
    {
        let condition = match &criterion.condition {
            Some(condition) => ReadyCondition::of(alloc, condition)?,
            None => None,
        };
        Ok(ReadyCriterion {
            hidden: set_of(alloc, criterion.hidden.as_slice())?,
            condition,
        })
    }

    /// Whether it hides a row whose cell shows the text.
    ///
    /// # Errors
    ///
    /// [`NoMemory`] where memory runs out.
    pub(crate) fn hides(&self, alloc: Global, shown: &str) -> Result<bool, NoMemory>
        ensures { IfOk result (λ hidden. hidden ≡ ready_hides self.now shown.now) }
    {
        if self.hidden.contains(shown) {
            return Ok(true);
        }
        match &self.condition {
            Some(condition) => Ok(!condition.holds(alloc, shown)?),
            None => Ok(false),
        }
    }

    /// What is left of the criterion that it was made of: the condition, unless that was made ready.
    ///
    /// # Errors
    ///
    /// [`NoMemory`] where memory runs out.
    pub(crate) fn left(&self, alloc: Global, criterion: &Criterion) -> Result<Criterion, NoMemory>
        requires { IsReady criterion.now self.now }
        ensures { IfOk result (λ left. left ≡ criterion_left criterion.now) }
    {
        let condition = match (&criterion.condition, &self.condition) {
            (Some(condition), None) => Some(condition.duplicate()?),
            _ => None,
        };
        Ok(Criterion {
            column: criterion.column,
            hidden: Items::of(Vec::new(alloc)),
            condition,
        })
    }
}

/// A set of the texts, in which one is found without going over the others.
fn set_of<'a>(alloc: Global, texts: &'a [Text]) -> Result<BTreeSet<&'a str>, NoMemory>
    ensures { IfOk result (IsSetOf texts.now) }
{
    let mut set = BTreeSet::new(alloc);
    for text in texts {
        set.insert(text.as_str())?;
    }
    Ok(set)
}
