ghost use Rattle.std.specs.Prelude.{◌≡◌, length, IfOk};
ghost use Rattle.basic_filter.specs.Hiding.{hides, hides_cell, hides_shown};

use crate::types::{Criterion, Filter};
use cell_value::{Items, NoMemory, Value, is_among, show};
use std::alloc::Global;

impl Filter {
    /// Whether a row is hidden whose cells in the columns of the criteria have these values, one for
    /// each criterion and in their order. It is hidden where some criterion has the shown text among its
    /// hidden values, or its condition isn't true (Sheets API v4 reference, FilterCriteria). The first
    /// row of the area is never hidden, and isn't asked for.
    ///
    /// # Errors
    ///
    /// [`NoMemory`] where memory runs out.
    pub fn hides(&self, alloc: Global, values: &Items<Value>) -> Result<bool, NoMemory>
        requires { length values.now ≡ length self.now.criteria }
        ensures { IfOk result (λ hidden. hidden ≡ hides self.now.criteria values.now) }
    {
        for (criterion, value) in self.criteria.as_slice().iter().zip(values.as_slice()) {
            if criterion.hides_cell(alloc, value)? {
                return Ok(true);
            }
        }
        Ok(false)
    }
}

impl Criterion {
    /// Whether the criterion hides a row whose cell has the value.
    fn hides_cell(&self, alloc: Global, value: &Value) -> Result<bool, NoMemory>
        ensures { IfOk result (λ hidden. hidden ≡ hides_cell self.now value.now) }
    {
        let shown = show(alloc, value)?;
        self.hides_shown(alloc, value, shown.as_str())
    }

    /// Whether the criterion hides a row whose cell has the value and shows the text.
    fn hides_shown(&self, alloc: Global, value: &Value, shown: &str) -> Result<bool, NoMemory>
        ensures { IfOk result (λ hidden. hidden ≡ hides_shown self.now value.now shown.now) }
    {
        if is_among(shown, self.hidden.as_slice()) {
            return Ok(true);
        }
        match &self.condition {
            Some(condition) => Ok(!condition.holds(alloc, value, shown)?),
            None => Ok(false),
        }
    }
}
