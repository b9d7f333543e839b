use cell_value::Text;
use std::alloc::Global;
use std::fmt::Debug;
use std::process::Abort;

/// Stops where it doesn't hold of the row.
pub(crate) fn check<T: Debug>(rt: &impl Abort, row: &T, holds: bool) {
    assert!(rt; holds, "{row:?}");
}

/// The text, or an empty one where memory runs out.
pub(crate) fn text(alloc: Global, text: &str) -> Text {
    Text::of(match String::from_str(alloc, text) {
        Ok(text) => text,
        Err(_) => String::new(alloc),
    })
}
