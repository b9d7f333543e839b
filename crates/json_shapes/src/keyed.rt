ghost use Rattle.std.specs.Prelude.{◌≡◌, IfOk};
ghost use Rattle.serde_json.specs.View.{view, members_view};
ghost use Rattle.json_shapes.specs.Shapes.{each_member, map_of};

use crate::ShapeFault;
use crate::fault::Read;
use crate::list::first_fault;
use crate::members::is_null;
use crate::shape::Shape;
use cell_value::{Items, NoMemory};
use serde_json::{Map, Value as Json};
use std::alloc::Global;

/// A form that the members of an object may have whose names are free, and what a member of that
/// form says.
pub trait Keyed {
    ghost use Rattle.std.specs.Prelude.{◌≡◌, ℕ, List, IfOk};
    ghost use Rattle.serde_json.specs.Data.{Data};
    ghost use Rattle.serde_json.specs.View.{view};
    ghost use Rattle.json_shapes.specs.Reading.{Reading};

    type Output: Drop;

    ghost keyed: { Self → List ℕ → Data → Reading Self.Output };

    /// Reads a member.
    fn read_member(
        &self,
        alloc: Global,
        name: &str,
        value: Json,
    ) -> Result<Read<Self::Output>, NoMemory>
        ensures { IfOk result (λ read. read ≡ keyed self.now name.now (view value)) };
}

/// An object of such members.
#[derive(Clone, Copy)]
pub struct MapOf<K>(pub K);

impl<K: Keyed> Shape for MapOf<K> {
    type Output = Items<K::Output>;

    ghost shape = { λ m. map_of (K.keyed m.0) };

    fn read(&self, alloc: Global, value: Json) -> Result<Read<Items<K::Output>>, NoMemory> {
        match value {
            Json::Object(members) => read_each_member(alloc, &self.0, members),
            Json::Null | Json::Bool(_) | Json::Number(_) | Json::String(_) | Json::Array(_) => {
                Ok(Err(ShapeFault::BadShape))
            }
        }
    }
}

/// Reads the members that aren't null, each of which is judged.
fn read_each_member<K: Keyed>(
    alloc: Global,
    keyed: &K,
    mut members: Map<String, Json>,
) -> Result<Read<Items<K::Output>>, NoMemory>
    ensures { IfOk result (λ read. read ≡ each_member (K.keyed keyed.now) (members_view members.entries)) }
{
    let mut items = Vec::new(alloc);
    let mut fault = None;
    while let Some(entry) = members.pop_first() {
        let (name, value) = entry;
        if !is_null(&value) {
            match keyed.read_member(alloc, name.as_str(), value)? {
                Ok(read) => items.push(read)?,
                Err(other) => fault = Some(first_fault(fault, other)),
            }
        }
    }
    match fault {
        None => Ok(Ok(Items::of(items))),
        Some(fault) => Ok(Err(fault)),
    }
}
