//! Assertions that compare what was found with what is right.

ghost use Rattle.std.specs.Prelude.{IsTrue};

use std::fmt::Debug;
use std::process::Abort;

/// Asserts that the found value is the right one. An `assert_eq!` in its place would be about a dozen statements and two borrows in
/// the caller, which cost its proof seconds.
pub(crate) fn assert_same<T: Copy + PartialEq + Debug>(rt: &impl Abort, found: T, right: T) {
    assert_eq!(rt; found, right);
}

/// Asserts a fact that the proof of the caller needs.
pub(crate) fn assert_that(rt: &impl Abort, holds: bool)
    ensures { IsTrue holds }
{
    assert!(rt; holds);
}
