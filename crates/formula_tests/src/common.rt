use cell_value::Text;
use std::alloc::Global;
use std::fmt::Debug;
use std::process::Abort;

/// Stops where it doesn't hold of the row.
pub(crate) fn check<T: Debug>(rt: &impl Abort, row: &T, holds: bool) {
    assert!(rt; holds, "{row:?}");
}

/// A text that has another one so often behind a beginning, and an end behind that, or less of it where
/// memory runs out.
pub(crate) fn repeated_text(
    alloc: Global,
    front: &str,
    repeated: &str,
    count: usize,
    back: &str,
) -> String {
    let mut text = String::new(alloc);
    let _ = text.push_str(front);
    for _ in 0..count {
        let _ = text.push_str(repeated);
    }
    let _ = text.push_str(back);
    text
}

/// The text, or an empty one where memory runs out.
pub(crate) fn text(alloc: Global, text: &str) -> Text {
    Text::of(match String::from_str(alloc, text) {
        Ok(text) => text,
        Err(_) => String::new(alloc),
    })
}

/// What is left of the text behind that; None where it doesn't begin so.
pub(crate) fn behind<'a>(text: Option<&'a str>, front: &str) -> Option<&'a str> {
    match text {
        Some(text) => text.strip_prefix(front),
        None => None,
    }
}
