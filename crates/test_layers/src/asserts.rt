//! Assertions as calls: in a long test a call is cheap to prove, and what `assert_eq!` writes there
//! is not. For the same reason a test drops large values by a call, and not at its end.

use std::fmt::Debug;
use std::process::Abort;

/// Asserts that a value is the wanted one.
pub(crate) fn same<T: PartialEq + Debug>(rt: &impl Abort, given: &T, wanted: &T) {
    assert_eq!(rt; *given, *wanted);
}

/// Asserts that a value is the wanted one, and tells which row of a table it is.
pub(crate) fn same_at<T: PartialEq + Debug, P: Debug>(
    rt: &impl Abort,
    given: &T,
    wanted: &T,
    place: &P,
) {
    assert_eq!(rt; *given, *wanted, "{place:?}");
}
