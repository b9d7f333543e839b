ghost use Rattle.sheets_json.specs.Bodies.{of_batch_response, batch};

use cell_value::{Items, NoMemory};
use json_requests::{Step, StepShape};
use json_shapes::{Fields, ListOf, OnlyFalse, Read, both, first_part, optional, required};
use serde_json::{Map, Value as Json};
use std::alloc::Global;

/// The members on the response.
#[derive(Clone, Copy)]
struct ResponseMembers;

impl Fields for ResponseMembers {
    type Output = (Option<()>, Option<()>);

    ghost fields = { λ _. of_batch_response };

    fn take(
        &self,
        alloc: Global,
        members: &mut Map<String, Json>,
    ) -> Result<Read<(Option<()>, Option<()>)>, NoMemory> {
        let book = optional(alloc, members, "includeSpreadsheetInResponse", &OnlyFalse)?;
        let grid = optional(alloc, members, "responseIncludeGridData", &OnlyFalse)?;
        Ok(both(book, grid))
    }
}

/// The members of a batch.
#[derive(Clone, Copy)]
pub(crate) struct BatchMembers;

impl Fields for BatchMembers {
    type Output = Items<Step>;

    ghost fields = { λ _. batch };

    fn take(
        &self,
        alloc: Global,
        members: &mut Map<String, Json>,
    ) -> Result<Read<Items<Step>>, NoMemory> {
        let steps = required(alloc, members, "requests", &ListOf(StepShape))?;
        let response = ResponseMembers.take(alloc, members)?;
        Ok(first_part(both(steps, response)))
    }
}
