ghost use Rattle.std.specs.Prelude.{◌≡◌, IfOk, OnOk};
ghost use Rattle.std.specs.Option.{option_map};
ghost use Rattle.std.specs.List.{list_all};
ghost use Rattle.std.specs.BTreeMap.{values};
ghost use Rattle.serde_json.specs.Data.{object};
ghost use Rattle.serde_json.specs.View.{view, members_view};
ghost use Rattle.json_shapes.specs.Reading.{both, made};
ghost use Rattle.json_shapes.specs.Members.{is_null, unless_null, given, without, if_given, demanded, optional, required, are_null, nothing_left, first_part, object_of};

use crate::ShapeFault;
use crate::fault::{Read, both};
use crate::shape::{Fields, Shape};
use cell_value::NoMemory;
use serde_json::{Map, Value as Json};
use std::alloc::Global;

/// An object with such members, and no others.
#[derive(Clone, Copy)]
pub struct ObjectOf<F>(pub F);

impl<F: Fields> Shape for ObjectOf<F> {
    type Output = F::Output;

    ghost shape = { λ o. object_of (F.fields o.0) };

    fn read(&self, alloc: Global, value: Json) -> Result<Read<F::Output>, NoMemory> {
        match value {
            Json::Object(members) => read_members(alloc, &self.0, members),
            Json::Null | Json::Bool(_) | Json::Number(_) | Json::String(_) | Json::Array(_) => {
                Ok(Err(ShapeFault::BadShape))
            }
        }
    }
}

/// Reads the members of an object.
fn read_members<F: Fields>(
    alloc: Global,
    fields: &F,
    mut members: Map<String, Json>,
) -> Result<Read<F::Output>, NoMemory>
    ensures { IfOk result (λ read. read
        ≡ object_of (F.fields fields.now) (object (members_view members.entries))) }
{
    let read = fields.take(alloc, &mut members)?;
    Ok(first_part(both(read, nothing_left(&members))))
}

/// The first of two parts, without what the other says.
pub fn first_part<T: Drop, R: Drop>(parts: Read<(T, R)>) -> Read<T>
    ensures { result ≡ made first_part parts }
{
    match parts {
        Ok((part, _)) => Ok(part),
        Err(fault) => Err(fault),
    }
}

/// Nothing, where no member is left that isn't null.
fn nothing_left(members: &Map<String, Json>) -> Read<()>
    ensures { result ≡ nothing_left (members_view members.now.entries) }
{
    if are_null(members) {
        Ok(())
    } else {
        Err(ShapeFault::Unsupported)
    }
}

/// Whether all members are null.
pub fn are_null(members: &Map<String, Json>) -> bool
    ensures { result ≡ are_null (members_view members.now.entries) }
{
    all_null(members)
}

fn all_null(members: &Map<String, Json>) -> bool
    ensures { result ≡ list_all (λ value. is_null (view value)) (values members.now) }
{
    members.values().all(|value| is_null(value))
}

/// Whether the value is null.
pub fn is_null(value: &Json) -> bool
    ensures { result ≡ is_null (view value.now) }
{
    matches!(value, Json::Null)
}

/// The value, unless it is null.
fn unless_null(value: Json) -> Option<Json>
    ensures { option_map view result ≡ unless_null (view value) }
{
    if is_null(&value) { None } else { Some(value) }
}

/// Takes a member out, which is absent where it is null.
pub fn take_given(members: &mut Map<String, Json>, name: &str) -> Option<Json>
    ensures value { option_map view result ≡ given name.now (members_view members.old.entries) }
    ensures left { members_view members.new.entries ≡ without name.now (members_view members.old.entries) }
{
    match members.remove(name) {
        Some(value) => unless_null(value),
        None => None,
    }
}

/// A member that may be absent.
pub fn optional<S: Shape>(
    alloc: Global,
    members: &mut Map<String, Json>,
    name: &str,
    shape: &S,
) -> Result<Read<Option<S::Output>>, NoMemory>
    ensures read { IfOk result (λ read. read
        ≡ (optional name.now (S.shape shape.now) (members_view members.old.entries)).read) }
    ensures left { OnOk result (members_view members.new.entries
        ≡ (optional name.now (S.shape shape.now) (members_view members.old.entries)).left) }
{
    match take_given(members, name) {
        Some(value) => some_read(shape.read(alloc, value)?),
        None => Ok(Ok(None)),
    }
}

/// What was read of a member that is given.
fn some_read<T>(read: Read<T>) -> Result<Read<Option<T>>, NoMemory>
    ensures { result ≡ Ok (made Some read) }
{
    match read {
        Ok(value) => Ok(Ok(Some(value))),
        Err(fault) => Ok(Err(fault)),
    }
}

/// A member that is required.
pub fn required<S: Shape>(
    alloc: Global,
    members: &mut Map<String, Json>,
    name: &str,
    shape: &S,
) -> Result<Read<S::Output>, NoMemory>
    ensures read { IfOk result (λ read. read
        ≡ (required name.now (S.shape shape.now) (members_view members.old.entries)).read) }
    ensures left { OnOk result (members_view members.new.entries
        ≡ (required name.now (S.shape shape.now) (members_view members.old.entries)).left) }
{
    demanded(alloc, take_given(members, name), shape)
}

/// Reads a value that has to be there.
pub fn demanded<S: Shape>(
    alloc: Global,
    value: Option<Json>,
    shape: &S,
) -> Result<Read<S::Output>, NoMemory>
    ensures { IfOk result (λ read. read ≡ demanded (S.shape shape.now) (option_map view value)) }
{
    match value {
        Some(value) => shape.read(alloc, value),
        None => Ok(Err(ShapeFault::BadShape)),
    }
}
