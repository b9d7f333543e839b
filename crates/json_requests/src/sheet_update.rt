ghost use Rattle.std.specs.Prelude.{◌≡◌};
ghost use Rattle.json_shapes.specs.Reading.{made};
ghost use Rattle.json_requests.specs.SheetUpdates.{stated_properties, property_paths, masked_properties, update_of, update_sheet_properties};

use crate::Request;
use crate::sheet::SheetPropertiesMembers;
use cell_value::{NoMemory, SheetProperties, Text};
use json_shapes::{BodyPaths, Fields, ObjectOf, Paths, Read, masked, states, states_within, taken};
use serde_json::{Map, Value as Json};
use std::alloc::Global;

/// What the properties of a request state, as they are sent.
#[derive(Clone, Copy)]
pub(crate) struct StatedProperties {
    title: bool,
    hidden: bool,
    row_count: bool,
    column_count: bool,
}

impl Paths for StatedProperties {
    ghost listed = { property_paths };

    fn states(&self, path: &str) -> Option<bool> {
        match path {
            "title" => Some(self.title),
            "hidden" => Some(self.hidden),
            "gridProperties.rowCount" => Some(self.row_count),
            "gridProperties.columnCount" => Some(self.column_count),
            _ => None,
        }
    }
}

impl BodyPaths for StatedProperties {
    ghost of_body = { stated_properties };

    fn of(body: &Option<Json>) -> StatedProperties {
        StatedProperties {
            title: states(body, "title"),
            hidden: states(body, "hidden"),
            row_count: states_within(body, "gridProperties", "rowCount"),
            column_count: states_within(body, "gridProperties", "columnCount"),
        }
    }
}

/// UpdateSheetPropertiesRequest
#[derive(Clone, Copy)]
pub(crate) struct UpdateSheetPropertiesMembers;

impl Fields for UpdateSheetPropertiesMembers {
    type Output = Request;

    ghost fields = { λ _. update_sheet_properties };

    fn take(
        &self,
        alloc: Global,
        members: &mut Map<String, Json>,
    ) -> Result<Read<Request>, NoMemory> {
        let shape = ObjectOf(SheetPropertiesMembers);
        let parts = masked::<_, StatedProperties>(alloc, members, "properties", &shape)?;
        Ok(update_of(parts))
    }
}

/// The change of a sheet's properties.
fn update_of(parts: Read<(SheetProperties, Text)>) -> Read<Request>
    ensures { result ≡ made update_of parts }
{
    let (properties, mask) = parts?;
    Ok(Request::UpdateSheetProperties {
        sheet_id: properties.id.unwrap_or(0),
        properties: masked_properties(properties, &mask),
    })
}

/// The properties that the mask takes.
fn masked_properties(properties: SheetProperties, mask: &Text) -> SheetProperties
    ensures { result ≡ masked_properties (properties, mask.now) }
{
    let mask = mask.as_str();
    SheetProperties {
        id: None,
        title: taken(mask, "title", properties.title),
        index: None,
        hidden: taken(mask, "hidden", properties.hidden),
        rows: taken(mask, "gridProperties.rowCount", properties.rows),
        cols: taken(mask, "gridProperties.columnCount", properties.cols),
    }
}
