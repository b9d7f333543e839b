ghost use Rattle.std.specs.Prelude.{◌≡◌, length, map, IfOk};
ghost use Rattle.std.specs.List.{AllZip};
ghost use Rattle.basic_filter.specs.Hiding.{hides};
ghost use Rattle.row_filter.specs.Criteria.{IsReady, criterion_left, some_hides};

use crate::criterion::ReadyCriterion;
use basic_filter::{Criterion, Filter};
use cell_value::{Items, NoMemory, Value, show};
use std::alloc::Global;
use std::marker::Model;

/// Criteria that were made ready, and what is left of them.
type Parts<'a> = (Vec<ReadyCriterion<'a>>, Items<Criterion>);

/// A filter that is asked of many rows: a row takes no more time than what its cells show, times the logarithm
/// of the number of hidden values. Contracts see the list of the criteria.
#[derive(Drop)]
pub struct RowFilter<'a> {
    filter: &'a Filter,
    ready: Vec<ReadyCriterion<'a>>,
    left: Filter,
}

impl<'a> Model for RowFilter<'a> {
    ghost use Rattle.std.specs.Prelude.{◌≡◌, List, map};
    ghost use Rattle.std.specs.List.{AllZip};
    ghost use Rattle.basic_filter.specs.declared.types.Criterion.{Criterion};
    ghost use Rattle.row_filter.specs.Criteria.{IsReady, criterion_left};

    ghost Value = { List Criterion };

    ghost view = { λ f. f.filter.now.criteria };

    ghost invariant = { λ f. AllZip IsReady f.filter.now.criteria f.ready.items
        × (f.left.criteria ≡ map criterion_left f.filter.now.criteria) };
}

impl<'a> RowFilter<'a> {
    /// The filter, made ready.
    ///
    /// # Errors
    ///
    /// [`NoMemory`] where memory runs out.
    pub fn of(alloc: Global, filter: &'a Filter) -> Result<RowFilter<'a>, NoMemory>
        ensures { IfOk result (λ ready. ready ≡ filter.now.criteria) }
    {
        let (ready, criteria) = split(alloc, filter.criteria.as_slice())?;
        let left = Filter {
            area: filter.area,
            criteria,
        };
        Ok(RowFilter {
            filter,
            ready,
            left,
        })
    }

    /// The criteria.
    pub fn criteria(&self) -> &[Criterion]
        ensures { result.now ≡ self.now }
    {
        self.filter.criteria.as_slice()
    }

    /// Whether a row is hidden whose cells in the columns of the criteria have these values, one for
    /// each criterion and in their order: as `Filter::hides` tells it.
    ///
    /// # Errors
    ///
    /// [`NoMemory`] where memory runs out.
    pub fn hides(&self, alloc: Global, values: &Items<Value>) -> Result<bool, NoMemory>
        requires { length values.now ≡ length self.now }
        ensures { IfOk result (λ hidden. hidden ≡ hides self.now values.now) }
    {
        if some_hides(alloc, self.ready.as_slice(), values.as_slice())? {
            return Ok(true);
        }
        self.left.hides(alloc, values)
    }
}

/// Whether some criterion hides what its cell shows; each has its value.
fn some_hides(
    alloc: Global,
    criteria: &[ReadyCriterion],
    values: &[Value],
) -> Result<bool, NoMemory>
    ensures { IfOk result (λ hidden. hidden ≡ some_hides criteria.now values.now) }
{
    for (criterion, value) in criteria.iter().zip(values) {
        let shown = show(alloc, value)?;
        if criterion.hides(alloc, shown.as_str())? {
            return Ok(true);
        }
    }
    Ok(false)
}

/// The two parts of each criterion: what was made ready of it, and what is left.
fn split<'a>(alloc: Global, criteria: &'a [Criterion]) -> Result<Parts<'a>, NoMemory>
    ensures ready { IfOk result (λ parts. AllZip IsReady criteria.now parts.0.items) }
    ensures left { IfOk result (λ parts. parts.1 ≡ map criterion_left criteria.now) }
{
    let mut ready = Vec::new(alloc);
    let mut left = Vec::new(alloc);
    for criterion in criteria {
        let one = ReadyCriterion::of(alloc, criterion)?;
        left.push(one.left(alloc, criterion)?)?;
        ready.push(one)?;
    }
    Ok((ready, Items::of(left)))
}
