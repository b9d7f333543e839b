ghost use Rattle.std.specs.Prelude.{◌≡◌};
ghost use Rattle.json_shapes.specs.Shapes.{word};
ghost use Rattle.json_shapes.specs.Words.{dimension_named, render_named, mode_named};

use crate::ShapeFault;
use crate::fault::{Read, or_bad_shape};
use crate::shape::Shape;
use crate::single::as_text;
use cell_value::{Mode, NoMemory, Render};
use grid_range::Axis;
use serde_json::Value as Json;
use std::alloc::Global;

/// The words of an enumeration.
pub trait Words {
    ghost use Rattle.std.specs.Prelude.{◌≡◌, ℕ, List, Option};

    type Output: Drop;

    ghost table: { Self → List ℕ → Option Self.Output };

    /// What the word means, if it is one of them.
    fn named(&self, name: &str) -> Option<Self::Output>
        ensures { result ≡ table self.now name.now };
}

/// One of such words.
#[derive(Clone, Copy)]
pub struct Word<W>(pub W);

impl<W: Words> Shape for Word<W> {
    type Output = W::Output;

    ghost shape = { λ w. word (W.table w.0) };

    fn read(&self, _alloc: Global, value: Json) -> Result<Read<W::Output>, NoMemory> {
        match as_text(value) {
            Some(text) => Ok(or_bad_shape(self.0.named(text.as_str()))),
            None => Ok(Err(ShapeFault::BadShape)),
        }
    }
}

/// Dimension (Google Sheets API v4 reference).
#[derive(Clone, Copy)]
pub struct Dimension;

impl Words for Dimension {
    type Output = Axis;

    ghost table = { λ _. dimension_named };

    fn named(&self, name: &str) -> Option<Axis> {
        match name {
            "ROWS" => Some(Axis::Rows),
            "COLUMNS" => Some(Axis::Columns),
            _ => None,
        }
    }
}

/// ValueRenderOption (Google Sheets API v4 reference).
#[derive(Clone, Copy)]
pub struct RenderOption;

impl Words for RenderOption {
    type Output = Render;

    ghost table = { λ _. render_named };

    fn named(&self, name: &str) -> Option<Render> {
        match name {
            "FORMATTED_VALUE" => Some(Render::Formatted),
            "UNFORMATTED_VALUE" => Some(Render::Unformatted),
            "FORMULA" => Some(Render::Formula),
            _ => None,
        }
    }
}

/// ValueInputOption (Google Sheets API v4 reference).
#[derive(Clone, Copy)]
pub struct InputOption;

impl Words for InputOption {
    type Output = Mode;

    ghost table = { λ _. mode_named };

    fn named(&self, name: &str) -> Option<Mode> {
        match name {
            "RAW" => Some(Mode::Raw),
            "USER_ENTERED" => Some(Mode::UserEntered),
            _ => None,
        }
    }
}
