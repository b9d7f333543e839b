ghost use Rattle.std.specs.Prelude.{◌≡◌, IfOk, OnOk};
ghost use Rattle.serde_json.specs.View.{view, members_view};

use crate::fault::Read;
use cell_value::NoMemory;
use serde_json::{Map, Value as Json};
use std::alloc::Global;

/// A form that a JSON value may have, and what a value of that form says.
pub trait Shape {
    ghost use Rattle.serde_json.specs.Data.{Data};
    ghost use Rattle.json_shapes.specs.Reading.{Reading};

    type Output: Drop;

    ghost shape: { Self → Data → Reading Self.Output };

    /// Reads a value.
    fn read(&self, alloc: Global, value: Json) -> Result<Read<Self::Output>, NoMemory>
        ensures { IfOk result (λ read. read ≡ shape self.now (view value)) };
}

/// Some members of a JSON object, and what they say together.
pub trait Fields {
    ghost use Rattle.serde_json.specs.Data.{Members};
    ghost use Rattle.json_shapes.specs.Members.{Taken};

    type Output: Drop;

    ghost fields: { Self → Members → Taken Self.Output };

    /// Takes the members out, and reads them.
    fn take(
        &self,
        alloc: Global,
        members: &mut Map<String, Json>,
    ) -> Result<Read<Self::Output>, NoMemory>
        ensures read { IfOk result (λ read. read ≡ (fields self.now (members_view members.old.entries)).read) }
        ensures left { OnOk result (members_view members.new.entries
            ≡ (fields self.now (members_view members.old.entries)).left) };
}
