use std::fmt::Debug;
use std::process::Abort;

/// Stops where it doesn't hold of the row.
pub(crate) fn check<T: Debug>(rt: &impl Abort, row: &T, holds: bool) {
    assert!(rt; holds, "{row:?}");
}
