ghost use Rattle.std.specs.Prelude.{◌≡◌, IfOk, OnOk};
ghost use Rattle.serde_json.specs.View.{members_view};
ghost use Rattle.json_shapes.specs.Members.{way, either, sole};

use crate::ShapeFault;
use crate::fault::Read;
use crate::members::take_given;
use crate::shape::Shape;
use cell_value::NoMemory;
use serde_json::{Map, Value as Json};
use std::alloc::Global;

/// What is read of a member of which another one may stand in the place.
type Found<T> = Option<Read<T>>;

/// One of several members.
pub fn way<S: Shape>(
    alloc: Global,
    members: &mut Map<String, Json>,
    name: &str,
    shape: &S,
) -> Result<Found<S::Output>, NoMemory>
    ensures found { IfOk result (λ found. found
        ≡ (way name.now (S.shape shape.now) (members_view members.old.entries)).found) }
    ensures left { OnOk result (members_view members.new.entries
        ≡ (way name.now (S.shape shape.now) (members_view members.old.entries)).left) }
{
    match take_given(members, name) {
        Some(value) => {
            let read = shape.read(alloc, value)?;
            Ok(Some(read))
        }
        None => Ok(None),
    }
}

/// What is read of two of them, which may not both be given.
pub fn either<T: Drop>(one: Found<T>, other: Found<T>) -> Found<T>
    ensures { result ≡ either one other }
{
    match one {
        None => other,
        Some(read) => alone(read, other),
    }
}

/// What is read of one, where the other isn't given.
fn alone<T: Drop>(read: Read<T>, other: Found<T>) -> Found<T>
    ensures { result ≡ either (Some read) other }
{
    match other {
        None => Some(read),
        Some(_) => Some(Err(ShapeFault::BadShape)),
    }
}

/// What is read of the one that is given.
pub fn just_one<T>(found: Found<T>) -> Read<T>
    ensures { result ≡ sole found }
{
    match found {
        Some(read) => read,
        None => Err(ShapeFault::BadShape),
    }
}
