ghost use Rattle.std.specs.Prelude.{◌≡◌, IfOk};
ghost use Rattle.serde_json.specs.View.{items_view};
ghost use Rattle.json_shapes.specs.Reading.{with_fault};
ghost use Rattle.json_shapes.specs.Shapes.{each, list_of};

use crate::ShapeFault;
use crate::fault::Read;
use crate::shape::Shape;
use cell_value::{Items, NoMemory};
use serde_json::Value as Json;
use std::alloc::Global;

/// A list of values of one form.
#[derive(Clone, Copy)]
pub struct ListOf<S>(pub S);

impl<S: Shape> Shape for ListOf<S> {
    type Output = Items<S::Output>;

    ghost shape = { λ l. list_of (S.shape l.0) };

    fn read(&self, alloc: Global, value: Json) -> Result<Read<Items<S::Output>>, NoMemory> {
        match value {
            Json::Array(values) => read_each(alloc, &self.0, values),
            Json::Null | Json::Bool(_) | Json::Number(_) | Json::String(_) | Json::Object(_) => {
                Ok(Err(ShapeFault::BadShape))
            }
        }
    }
}

/// Reads the values of a list, each of which is judged.
fn read_each<S: Shape>(
    alloc: Global,
    shape: &S,
    values: Vec<Json>,
) -> Result<Read<Items<S::Output>>, NoMemory>
    ensures { IfOk result (λ read. read ≡ each (S.shape shape.now) (items_view values.items)) }
{
    let mut items = Vec::new(alloc);
    let mut fault = None;
    for value in values {
        match shape.read(alloc, value)? {
            Ok(read) => items.push(read)?,
            Err(other) => fault = Some(first_fault(fault, other)),
        }
    }
    match fault {
        None => Ok(Ok(Items::of(items))),
        Some(fault) => Ok(Err(fault)),
    }
}

/// The first of the faults so far and one more.
pub(crate) fn first_fault(so_far: Option<ShapeFault>, other: ShapeFault) -> ShapeFault
    ensures { result ≡ with_fault so_far other }
{
    match so_far {
        None => other,
        Some(fault) => fault.first_of(other),
    }
}
