ghost use Rattle.std.specs.Prelude.{◌≡◌};
ghost use Rattle.std.specs.Option.{option_map};
ghost use Rattle.serde_json.specs.View.{view};
ghost use Rattle.cell_value.specs.Typed.{is_formula};
ghost use Rattle.json_shapes.specs.Shapes.{such_that, is_number, is_text, is_truth, is_formula_text};

use crate::ShapeFault;
use crate::fault::Read;
use crate::shape::Shape;
use cell_value::NoMemory;
use serde_json::Value as Json;
use std::alloc::Global;

/// What may hold of a JSON value.
pub trait Condition {
    ghost use Rattle.std.specs.Prelude.{◌≡◌, Bool};
    ghost use Rattle.serde_json.specs.Data.{Data};
    ghost use Rattle.serde_json.specs.View.{view};

    ghost holds: { Self → Data → Bool };

    /// Whether it holds of the value.
    fn holds(&self, value: &Json) -> bool
        ensures { result ≡ holds self.now (view value.now) };
}

/// A value of a form of which something holds.
#[derive(Clone, Copy)]
pub struct SuchThat<C, S>(pub C, pub S);

impl<C: Condition, S: Shape> Shape for SuchThat<C, S> {
    type Output = S::Output;

    ghost shape = { λ s. such_that (C.holds s.0) (S.shape s.1) };

    fn read(&self, alloc: Global, value: Json) -> Result<Read<S::Output>, NoMemory> {
        if self.0.holds(&value) {
            self.1.read(alloc, value)
        } else {
            Ok(Err(ShapeFault::BadShape))
        }
    }
}

/// It is a number.
#[derive(Clone, Copy)]
pub struct IsNumber;

impl Condition for IsNumber {
    ghost holds = { λ _. is_number };

    fn holds(&self, value: &Json) -> bool {
        matches!(value, Json::Number(_))
    }
}

/// It is a text.
#[derive(Clone, Copy)]
pub struct IsText;

impl Condition for IsText {
    ghost holds = { λ _. is_text };

    fn holds(&self, value: &Json) -> bool {
        matches!(value, Json::String(_))
    }
}

/// It is a truth value.
#[derive(Clone, Copy)]
pub struct IsTruth;

impl Condition for IsTruth {
    ghost holds = { λ _. is_truth };

    fn holds(&self, value: &Json) -> bool {
        matches!(value, Json::Bool(_))
    }
}

/// It is the text of a formula.
#[derive(Clone, Copy)]
pub struct IsFormulaText;

impl Condition for IsFormulaText {
    ghost holds = { λ _. is_formula_text };

    fn holds(&self, value: &Json) -> bool {
        match value {
            Json::String(text) => is_formula(text.as_str()),
            Json::Null | Json::Bool(_) | Json::Number(_) | Json::Array(_) | Json::Object(_) => {
                false
            }
        }
    }
}

/// Whether the text is `=` and something more.
fn is_formula(text: &str) -> bool
    ensures { result ≡ is_formula text.now }
{
    match text.as_bytes() {
        [first, _, ..] => *first == b'=',
        [_] | [] => false,
    }
}
