//! Assertions as calls: in a long test a call is cheap to prove, and what `assert_eq!` writes there
//! is not. For the same reason a test drops large values by a call, and not at its end, and passes
//! a table to a helper that goes over it.

use std::fmt::{Debug, Display};
use std::process::Abort;

/// Asserts that a value is the wanted one.
pub(crate) fn same<T: PartialEq + Debug>(rt: &impl Abort, given: &T, wanted: &T) {
    assert_eq!(rt; *given, *wanted);
}

/// Asserts that a value is the wanted one, and tells which row of a table it is.
pub(crate) fn same_at<T: PartialEq + Debug, P: Debug>(
    rt: &impl Abort,
    given: &T,
    wanted: &T,
    place: &P,
) {
    assert_eq!(rt; *given, *wanted, "{place:?}");
}

/// Asserts what the texts of values are.
pub(crate) fn assert_texts<T: Display>(rt: &(impl Abort + AllocGlobal), table: &[(T, &str)]) {
    for (shown, text) in table {
        let printed = format!(in rt.alloc(); "{shown}").expect(rt, "memory for a text");
        same(rt, &printed.as_str(), text);
    }
}

/// Asserts what the text of a fault is. It is empty where there is none.
pub(crate) fn assert_fault<E: Display>(
    rt: &(impl Abort + AllocGlobal),
    fault: &Option<E>,
    text: &str,
) {
    let mut given = String::new(rt.alloc());
    if let Some(fault) = fault {
        write!(given, "{fault}").expect(rt, "memory for a text");
    }
    same(rt, &given.as_str(), &text);
}
