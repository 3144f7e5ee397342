//! What the tables share: a row of which something doesn't hold is printed.
use std::fmt::Debug;
use std::process::Abort;

/// What holds of a row.
pub(crate) fn try_holds(rt: &impl Abort, holds: bool, row: &impl Debug) {
    assert!(rt; holds, "{row:?}");
}
