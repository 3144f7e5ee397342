//! What a row of a table expects, beside what was found.
ghost use Rattle.std.specs.Prelude.{◌≡◌, Ok};

use crate::Outcome;
use std::fmt::Debug;
use std::process::Abort;
use std::test::Fail;

/// What a call gave, which may not fail.
pub fn got<T>(rt: &impl Abort, given: Result<T, Fail>) -> T
    ensures { given ≡ Ok result }
{
    match given {
        Ok(value) => value,
        Err(_) => panic!(rt; "a call that failed"),
    }
}

/// The bytes of a row are the expected ones.
pub fn try_bytes(rt: &impl Abort, bytes: &[u8], expected: &[u8], row: &impl Debug) {
    assert_eq!(rt; bytes, expected, "{row:?}");
}

/// The status and the numbers of a row are the expected ones.
pub fn try_outcome(rt: &impl Abort, outcome: Outcome, expected: Outcome, row: &impl Debug) {
    try_number(rt, outcome.status as u64, expected.status as u64, row);
    try_holds(rt, outcome == expected, row);
}

/// A number of a row is the expected one.
pub fn try_number(rt: &impl Abort, number: u64, expected: u64, row: &impl Debug) {
    assert!(rt; number == expected, "{number}: {row:?}");
}

/// What holds of a row.
pub fn try_holds(rt: &impl Abort, holds: bool, row: &impl Debug) {
    assert!(rt; holds, "{row:?}");
}
