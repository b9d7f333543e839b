ghost use Rattle.std.specs.Prelude.{◌≡◌};
ghost use Rattle.serde_json.specs.View.{number_view};
ghost use Rattle.json_shapes.specs.Scalars.{within_index, index_of, index, truth};

use crate::ShapeFault;
use crate::fault::{Read, or_bad_shape};
use crate::shape::Shape;
use cell_value::NoMemory;
use serde_json::{Number, Value as Json};
use std::alloc::Global;

/// The greatest index, id or count.
const GREATEST_INDEX: u64 = 2_147_483_647;

/// An index, an id or a count.
#[derive(Clone, Copy)]
pub struct Index;

impl Shape for Index {
    type Output = u32;

    ghost shape = { λ _. index };

    fn read(&self, _alloc: Global, value: Json) -> Result<Read<u32>, NoMemory> {
        match value {
            Json::Number(number) => Ok(or_bad_shape(index_of(&number))),
            Json::Null | Json::Bool(_) | Json::String(_) | Json::Array(_) | Json::Object(_) => {
                Ok(Err(ShapeFault::BadShape))
            }
        }
    }
}

/// The index that a number is, if it is one.
fn index_of(number: &Number) -> Option<u32>
    ensures { result ≡ index_of (number_view number.now) }
{
    match number.as_u64() {
        Some(whole) => within_index(whole),
        None => None,
    }
}

/// The number as an index, an id or a count, if it isn't above 2,147,483,647.
pub fn within_index(whole: u64) -> Option<u32>
    ensures { result ≡ within_index whole }
{
    if whole <= GREATEST_INDEX {
        Some(whole as u32)
    } else {
        None
    }
}

/// A truth value.
#[derive(Clone, Copy)]
pub struct Truth;

impl Shape for Truth {
    type Output = bool;

    ghost shape = { λ _. truth };

    fn read(&self, _alloc: Global, value: Json) -> Result<Read<bool>, NoMemory> {
        match value {
            Json::Bool(truth) => Ok(Ok(truth)),
            Json::Null | Json::Number(_) | Json::String(_) | Json::Array(_) | Json::Object(_) => {
                Ok(Err(ShapeFault::BadShape))
            }
        }
    }
}
