use cell_value::{Bytes, Text};
use serving_tests::TurnDoors;
use std::alloc::Global;
use std::fmt::Debug;
use std::process::Abort;

/// Stops where it doesn't hold of the row.
pub(crate) fn check<T: Debug>(rt: &impl Abort, row: &T, holds: bool) {
    assert!(rt; holds, "{row:?}");
}

/// Doors to which nobody comes.
pub(crate) fn no_doors(alloc: Global) -> TurnDoors {
    TurnDoors::new(Vec::new(alloc), Vec::new(alloc))
}

/// The text, or none where memory runs out.
pub(crate) fn text_of(alloc: Global, text: &str) -> Text {
    Text::of(String::from_str(alloc, text).unwrap_or(String::new(alloc)))
}

/// The bytes, or none where memory runs out.
pub(crate) fn bytes_of(alloc: Global, slice: &[u8]) -> Bytes {
    let mut bytes = Vec::new(alloc);
    let _ = bytes.extend_from_slice(slice);
    Bytes::of(bytes)
}
